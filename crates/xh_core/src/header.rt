//! What stands at a record of a process.

/// Whether a block has bytes of its process's own, or is an endpoint.
#[derive(Clone, Copy, Debug, PartialEq, Eq, Default)]
pub enum Kind {
    #[default]
    Data,
    End,
}

/// A block's length in bytes, and its kind.
#[derive(Clone, Copy, Debug, PartialEq, Eq, Default)]
pub struct Header {
    pub len: u32,
    pub kind: Kind,
}
