//! Who is told what became of each item.

ghost use Rattle.std.specs.Prelude.{◌≡◌, List, ◌∷◌, Some, None, option_map, ⊤};
ghost use Rattle.event_chain.specs.Names.{Parts, Moment, ending_at};
ghost use Rattle.event_chain.specs.Told.{bare, ending_of};

use crate::ending::Ending;

/// A witness of a chain, who is told of each ending.
pub trait Witness: Drop {
    /// It knows the endings of these moments of a configuration, the newest of which stands first.
    ghost knows: { Self → Parts → List Moment → Type 0 };

    /// One more item ended its way.
    /// Steps: constant for `Unwatched`, who is told nothing.
    fn tell(&mut self, ending: Ending)
        ensures { (config : Parts) (before : List Moment) (moment : Moment) → knows self.old config before →
            option_map bare (ending_at config before moment) ≡ Some (ending_of ending) →
            knows self.new config (moment ∷ before) };

    /// Where nothing ends by a moment, it knows this without being told.
    ghost silent: { (witness : Self) (config : Parts) (before : List Moment) (moment : Moment) →
        knows witness config before → ending_at config before moment ≡ None →
        knows witness config (moment ∷ before) };
}

/// Nobody is told.
#[derive(Clone, Copy, Debug)]
pub struct Unwatched;

impl Witness for Unwatched {
    ghost knows = { λ witness config moments. ⊤ };

    fn tell(&mut self, _ending: Ending) {}

    ghost silent = { λ witness config before moment known none. tt };
}
