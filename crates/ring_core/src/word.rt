//! The shared word of a ring, packed and unpacked.

ghost use Rattle.std.specs.Prelude.{◌≡◌};
ghost use Rattle.ring_core.specs.{packed, unpacked, IsPackable, IsReadable};

/// The numbers that a ring shares in one atomic word: how many claims got a position, how many
/// positions are free, and how many claims since the last offer found none free.
#[derive(Clone, Copy, Debug, PartialEq, Eq)]
pub struct PermitWord {
    pub claimed: u64,
    pub free: u16,
    pub over: u16,
}

/// The upper part of a word counts in units of this.
const FIELD: u64 = 65536;

impl PermitWord {
    /// The word as one number: `claimed + over` above 16 bits, and in them `free + seats - over`.
    pub fn pack(&self, seats: u8) -> u64
        requires { IsPackable seats self.now }
        ensures number { result ≡ packed seats self.now }
        ensures readable { IsReadable seats result }
        ensures back { unpacked seats result ≡ self.now }
    {
        let field = self.free + seats as u16 - self.over;
        (self.claimed + self.over as u64) * FIELD + field as u64
    }

    /// The word that a number of `pack` stands for.
    pub fn unpack(word: u64, seats: u8) -> PermitWord
        requires { IsReadable seats word }
        ensures word { result ≡ unpacked seats word }
        ensures back { packed seats result ≡ word }
    {
        let tries = word / FIELD;
        let field = (word % FIELD) as u16;
        let seats = seats as u16;
        if seats <= field {
            return PermitWord {
                claimed: tries,
                free: field - seats,
                over: 0,
            };
        }
        let over = seats - field;
        PermitWord {
            claimed: tries - over as u64,
            free: 0,
            over,
        }
    }
}
