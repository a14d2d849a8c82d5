/// A loss word, and how much was swept from it so far.
#[derive(Clone, Copy, Debug, PartialEq, Eq)]
pub struct LossWord {
    pub value: u64,
    pub swept: u64,
}
