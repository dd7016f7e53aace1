//! A direction of a channel.
use crate::message::Message;
use arrayvec::ArrayVec;
use xh_model::limits::MAX_DEPTH;

/// As many messages as may wait in a direction.
pub(crate) const ROOM: usize = MAX_DEPTH as usize;

/// A direction: whether the end that it leads to is closed, the contract's state of that end, how
/// many messages were ever put, and those that wait, front first.
#[derive(Drop)]
pub(crate) struct Line {
    pub(crate) shut: bool,
    pub(crate) state: u8,
    pub(crate) put: u64,
    pub(crate) waiting: ArrayVec<Message, ROOM>,
}
