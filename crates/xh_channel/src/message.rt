//! What travels in a direction.
use arrayvec::ArrayVec;
use xh_model::limits::MAX_BLOCKS;

/// A message: its number in its direction, counted from 1, its tag, and the records of its blocks.
#[derive(Default, Drop)]
pub struct Message {
    pub no: u64,
    pub tag: u16,
    pub blocks: ArrayVec<u16, MAX_BLOCKS>,
}
