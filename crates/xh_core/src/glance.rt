//! What a look at a place shows.
ghost use Rattle.std.specs.Prelude.{◌≡◌};
ghost use Rattle.xh_core.specs.Glances.{line_of, line_state};

use crate::ledger::{PlaceLine, State};
use crate::status::Status;
use xh_model::limits::PLACES;

/// A place at one moment: its latest process (place + 32 × generation), how far that has come, how
/// many blocks it holds, and how many bytes these are.
#[derive(Clone, Copy, Debug, Default)]
pub struct Glance {
    pub process: u16,
    pub state: Status,
    pub blocks: u32,
    pub bytes: u64,
}

fn state_of(status: Status) -> State
    ensures { result ≡ line_state status }
{
    match status {
        Status::Vacant | Status::Running => State::Running,
        Status::Ending => State::Ending,
        Status::Ended => State::Ended,
    }
}

impl Glance {
    /// Its line of a ledger, which has one where the place isn't vacant.
    pub fn line(self) -> PlaceLine
        ensures { result ≡ line_of self }
    {
        PlaceLine {
            place: (self.process % u16::from(PLACES)) as u8,
            process: self.process,
            state: state_of(self.state),
            blocks: self.blocks,
            bytes: self.bytes,
        }
    }
}
