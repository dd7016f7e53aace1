//! A message of a direction.
use arrayvec::ArrayVec;
use xh_core::Block;
use xh_model::limits::MAX_BLOCKS;

/// A message that waits in a direction: its number there, counted from 1, its tag, and the records
/// that it carries.
#[derive(Default, Drop)]
pub(crate) struct Message {
    pub(crate) no: u64,
    pub(crate) tag: u16,
    pub(crate) blocks: ArrayVec<u16, MAX_BLOCKS>,
}

/// A message that was taken: its number in its direction, its tag, and its blocks, which are the
/// taker's now.
#[derive(Drop, Debug)]
pub struct Taken {
    pub no: u64,
    pub tag: u16,
    pub blocks: ArrayVec<Block, MAX_BLOCKS>,
}
