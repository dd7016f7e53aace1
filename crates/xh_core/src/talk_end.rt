//! One end of a talk.
ghost use Rattle.std.specs.Prelude.{◌≡◌, []};
ghost use Rattle.xh_core.specs.Talks.{end_with};

use arrayvec::ArrayVec;
use xh_model::limits::MAX_DEPTH;

const ROOM: usize = MAX_DEPTH as usize;

/// Its state, and the tags of the messages on their way to it, the front one first.
#[derive(Drop)]
pub struct TalkEnd {
    pub state: u8,
    pub waiting: ArrayVec<u16, ROOM>,
}

impl TalkEnd {
    pub fn new(state: u8) -> TalkEnd
        ensures { result ≡ end_with state [] }
    {
        TalkEnd {
            state,
            waiting: ArrayVec::new(),
        }
    }
}
