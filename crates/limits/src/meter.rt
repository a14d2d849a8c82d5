//! One limit in its present window.

ghost use Rattle.std.specs.Prelude.{◌≡◌, ◌≤◌};
ghost use Rattle.limits.specs.Meters.{fresh_meter, has_left, after_asking};

use ids_config::Window;

/// A limit with what it has left in one of its windows.
#[derive(Clone, Copy, Debug, PartialEq, Eq)]
pub(crate) struct Meter {
    pub limit: Window,
    /// Numbered from 0.
    pub window: u64,
    pub left: u64,
}

impl Meter {
    /// The meter of a limit of which nothing was taken yet.
    pub(crate) fn make(limit: Window) -> Meter
        ensures { result ≡ fresh_meter limit }
    {
        Meter {
            limit,
            window: 0,
            left: limit.number,
        }
    }

    /// Takes so much in the window of the tick, and answers whether it was left there.
    pub(crate) fn takes(&mut self, tick: u64, weight: u64) -> bool
        requires { 1 ≤ self.old.limit.interval }
        ensures answer { result ≡ has_left tick weight self.old }
        ensures after { self.new ≡ after_asking tick weight self.old }
    {
        let window = tick / self.limit.interval;
        if self.window != window {
            self.window = window;
            self.left = self.limit.number;
        }
        let fits = weight <= self.left;
        if fits {
            self.left -= weight;
        }
        fits
    }
}
