//! What an end counts.

/// How many messages an end put and took, and whether it was shut.
#[derive(Clone, Copy)]
pub struct Counts {
    pub put: u64,
    pub taken: u64,
    pub shut: bool,
}
