//! A row of a contract: which message may follow in which state.

/// In `state`, the end `side` may send a message with `tag`; the state after it is `next`.
///
/// States are 0 to 15 and sides 0 and 1 in the row of a contract; tags are any.
#[derive(Clone, Copy, Debug, Default)]
pub struct Row {
    pub state: u8,
    pub tag: u16,
    pub side: u8,
    pub next: u8,
}
