//! How long batches took, and the tables of what is measured.
ghost use Rattle.std.specs.Prelude.{◌≡◌, ◌≢◌, ◌+◌, ◌%◌, ◌^◌, ◌≤◌, ◌<◌, [], ◌∷◌, ◌++◌, All, OnOk};

use std::alloc::{AllocError, Global};
use std::io;

/// The nanoseconds of each batch that was whole, and how many items all batches had.
#[derive(Drop)]
pub struct Times {
    nanos: Vec<u64>,
    items: u64,
    /// How many items a whole batch has.
    pub batch: u64,
}

/// What the times of batches tell: that of the fastest and that of the middle one, 0 where there is none, how many
/// items all batches had, and how many a whole one has.
#[derive(Clone, Copy)]
pub struct Told {
    pub fastest: u64,
    pub middle: u64,
    pub items: u64,
    pub batch: u64,
}

/// What puts tell, and what takes do.
pub type Pair = (Told, Told);

impl Times {
    pub fn new(alloc: Global, batch: u64) -> Times
        ensures { (result.nanos.items ≡ []) × (result.items ≡ 0) × (result.batch ≡ batch) }
    {
        Times {
            nanos: Vec::new(alloc),
            items: 0,
            batch,
        }
    }

    /// Adds a batch of so many items. Only a whole one counts for its time.
    pub fn add(&mut self, nanos: u128, items: u64) -> Result<(), AllocError>
        ensures items { self.new.items ≡ (self.old.items + items) % 2 ^ 64 }
        ensures whole { items ≡ self.old.batch → nanos < 2 ^ 64 → OnOk result (self.new.nanos.items ≡ self.old.nanos.items ++ nanos ∷ []) }
        ensures part { items ≢ self.old.batch → self.new.nanos.items ≡ self.old.nanos.items }
        ensures batch { self.new.batch ≡ self.old.batch }
    {
        self.items = self.items.wrapping_add(items);
        if items == self.batch {
            self.nanos.push(u64::try_from(nanos).unwrap_or(u64::MAX))?;
        }
        Ok(())
    }

    /// Adds the batches of another.
    pub fn join(&mut self, other: &Times) -> Result<(), AllocError>
        ensures items { self.new.items ≡ (self.old.items + other.now.items) % 2 ^ 64 }
        ensures nanos { OnOk result (self.new.nanos.items ≡ self.old.nanos.items ++ other.now.nanos.items) }
        ensures batch { self.new.batch ≡ self.old.batch }
    {
        self.items = self.items.wrapping_add(other.items);
        self.nanos.extend_from_slice(other.nanos.as_slice())
    }

    /// Puts the times in order, and tells them.
    pub fn told(&mut self) -> Told
        ensures fastest { All (λ nanos. result.fastest ≤ nanos) self.new.nanos.items }
        ensures same { (result.items ≡ self.old.items) × (result.batch ≡ self.old.batch) }
    {
        self.nanos.sort_unstable();
        let middle = self.nanos.len() / 2;
        Told {
            fastest: self.nanos.iter().copied().min().unwrap_or(0),
            middle: self.nanos.get(middle).copied().unwrap_or(0),
            items: self.items,
            batch: self.batch,
        }
    }
}

/// Prints tables: of how many items went through, or of how long they took.
#[derive(Clone, Copy)]
pub struct Bench<'r, R> {
    pub rt: &'r R,
    pub counts: bool,
}

impl<R: Print> Bench<'_, R> {
    /// Prints the head of a table, with the names of its two columns.
    pub fn head(&self, names: &str) -> io::Result<()> {
        let rt = self.rt;
        if self.counts {
            return println!(rt; "items that went through             {names}");
        }
        println!(rt;
            "nanoseconds for one item, in the fastest batch and in the middle one\n{:>58}{:>28}",
            "fastest", "middle"
        )?;
        println!(rt; "{:36}{names}   ratio    {names}   ratio", "")
    }

    /// Prints the two lines of a measurement, of its puts and of its takes, and of what it stands beside.
    pub fn pair(&self, title: &str, both: Option<(Pair, Pair)>) -> io::Result<()> {
        println!(self.rt; "{title}")?;
        let (told, base) = both.ok_or(AllocError)?;
        self.line("  claim and fill", told.0, base.0)?;
        self.line("  take and its share of giving back", told.1, base.1)
    }

    /// Prints the line of its takes alone.
    pub fn takes(&self, title: &str, both: Option<(Pair, Pair)>) -> io::Result<()> {
        let (told, base) = both.ok_or(AllocError)?;
        self.line(title, told.1, base.1)
    }

    // Prints a line of what is measured, and of what it stands beside.
    fn line(&self, title: &str, told: Told, base: Told) -> io::Result<()> {
        let rt = self.rt;
        print!(rt; "{title:<36}")?;
        if self.counts {
            return println!(rt; "{:>8}{:>8}", told.items, base.items);
        }
        self.times(told.fastest, base.fastest, told.batch)?;
        print!(rt; "    ")?;
        self.times(told.middle, base.middle, told.batch)?;
        println!(rt; "")
    }

    // The time of an item, of one that it stands beside, and their ratio, each with two digits after the point: 0 where
    // there is none.
    fn times(&self, time: u64, base: u64, items: u64) -> io::Result<()> {
        for (number, by) in [(time, items), (base, items), (time, base)] {
            let hundredths = number.saturating_mul(100).checked_div(by).unwrap_or(0);
            print!(self.rt; "{:>5}.{:02}", hundredths / 100, hundredths % 100)?;
        }
        Ok(())
    }
}
