/// A class of context data buffers: buffers of one size, got and given back together.
#[derive(Clone, Copy, Debug, PartialEq, Eq)]
pub struct ClassSpec {
    /// How many bytes of context a buffer holds.
    pub size: u16,
    /// How many buffers there are.
    pub number: u16,
}
