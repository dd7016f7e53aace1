//! One end of a channel with a contract.
ghost use Rattle.std.specs.Prelude.{◌≡◌, []};
ghost use Rattle.xh_channel.specs.Lines.{no_counts, waiting};

use crate::counts::Counts;
use crate::message::Message;
use arrayvec::ArrayVec;
use xh_model::limits::MAX_DEPTH;

const ROOM: usize = MAX_DEPTH as usize;

/// Its state, the messages on their way to it, the front one first, and its counts.
#[derive(Drop)]
pub struct LineEnd {
    pub state: u8,
    pub waiting: ArrayVec<Message, ROOM>,
    pub counts: Counts,
}

impl LineEnd {
    pub fn new(state: u8) -> LineEnd
        ensures { (result.state ≡ state) × (waiting result ≡ []) × (result.counts ≡ no_counts) }
    {
        LineEnd {
            state,
            waiting: ArrayVec::new(),
            counts: Counts {
                put: 0,
                taken: 0,
                shut: false,
            },
        }
    }
}
