//! What words give.

ghost use Rattle.std.specs.Prelude.{◌≡◌};
ghost use Rattle.gen_options.specs.Ranges.{is_in_range};

/// How many lines of reports callers may ask for in all rounds, a round of a caller counted as one.
const MOST_ROUNDS: u64 = 16_000;

/// How many callers there are at most.
const MOST_CALLERS: u64 = 32;

/// How many events of sensors there are at most.
const MOST_EVENTS: u64 = 200;

/// What a recording is generated from.
#[derive(Clone, Copy, Debug)]
pub struct Options {
    /// Where the draws start.
    pub start: u64,
    pub callers: u64,
    pub rounds: u64,
    /// How many events sensors report, beside the internal ones.
    pub events: u64,
}

impl Options {
    /// Whether each number is in its range, and callers and rounds together too.
    pub fn is_in_range(&self) -> bool
        ensures { result ≡ is_in_range self.now }
    {
        1 <= self.callers
            && self.callers <= MOST_CALLERS
            && self.rounds <= MOST_ROUNDS
            && 1 <= self.events
            && self.events <= MOST_EVENTS
            && self.callers * self.rounds <= MOST_ROUNDS
    }
}

/// The options, and the names of the files that a recording is written to.
#[derive(Clone, Copy, Debug)]
pub struct Given<'a> {
    pub options: Options,
    pub config: &'a str,
    pub trace: &'a str,
    pub journal: &'a str,
}
