//! The two slots of a disk, and which of them a save goes to.

ghost use Rattle.std.specs.Prelude.{◌≡◌, ◌+◌, ◌-◌, ◌^◌, ◌<◌, ◌≤◌, nat_lt};

/// Where a save goes.
#[derive(Clone, Copy, Debug)]
pub(crate) struct Place {
    /// The slot that is not kept.
    pub(crate) slot: u8,
    /// Its gate is open.
    pub(crate) is_open: bool,
    /// The sequence of what is kept, or 0 where nothing is.
    pub(crate) sequence: u64,
}

impl Place {
    /// Where the save after this one goes: the slots change their parts.
    pub(crate) fn after_save(&self) -> Place
        requires slot { self.now.slot ≤ 1 }
        requires sequence { self.now.sequence < 2 ^ 62 }
        ensures { result ≡ record { slot = 1 - self.now.slot; is_open = nat_lt 0 self.now.sequence; sequence = self.now.sequence + 1 } }
    {
        Place {
            slot: 1 - self.slot,
            is_open: 0 < self.sequence,
            sequence: self.sequence + 1,
        }
    }
}
