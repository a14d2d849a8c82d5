//! What a ring answers when it has nothing to give.

/// What one read of the permit word showed: how many claims had got a ticket, and how many
/// positions were free. In each answer `free` is 0.
#[derive(Clone, Copy, Debug, PartialEq, Eq)]
pub struct Look {
    pub claimed: u64,
    pub free: u16,
}

/// The next ticket is not finished. `mark` is the mark of its position that was read, which is not
/// the ticket plus 1.
#[derive(Clone, Copy, Debug, PartialEq, Eq)]
pub struct Unready {
    pub mark: u64,
}
