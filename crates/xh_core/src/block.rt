//! What a command says of a block.

/// A block: the number of its record (256 × arena + index), and its length in bytes.
#[derive(Clone, Copy, Debug, PartialEq, Eq, Default)]
pub struct Block {
    pub rec: u16,
    pub len: u32,
}
