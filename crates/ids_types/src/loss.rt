/// A report or a control that found no event buffer: its caller, and the number of the caller's call,
/// from 0.
#[derive(Clone, Copy, Debug, PartialEq, Eq)]
pub struct Loss {
    pub caller: u8,
    pub call: u64,
    /// How many places of the ring had been given back when the call looked for one.
    pub given: u64,
}
