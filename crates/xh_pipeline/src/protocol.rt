//! What the processes of the pipeline agree on.

use xh_heap::{End, Process, Refused};

/// The bytes of a frame.
pub(crate) const FRAME: u32 = 8 << 20;

/// How many rounds there are, and how many frames a round has. The producer waits for each round's end.
pub(crate) const ROUNDS: u8 = 4;

pub(crate) const EACH: u8 = 2;

/// The first stage hangs at the frame after so many, the last of a round: no frame is in arena 0 while new ends are made there.
pub(crate) const LIMIT: u32 = 5;

/// What each stage adds to the first byte of a frame.
pub(crate) const MARK: u8 = 64;

/// The tags of messages. A frame on its way; frames before this message may be missing; no frame
/// comes after it.
pub(crate) const DATA: u16 = 0;

pub(crate) const LOST: u16 = 1;

pub(crate) const END: u16 = 2;

/// The sink's answers: the round came whole; it has to be made again.
pub(crate) const WHOLE: u16 = 3;

pub(crate) const AGAIN: u16 = 4;

/// Between the supervisor and the others: here is an endpoint; this process goes no further.
pub(crate) const ENDS: u16 = 5;

pub(crate) const HUNG: u16 = 6;

/// The endpoint that the supervisor gives next.
pub(crate) fn next_end<P: Process>(own: &mut P, control: &End) -> Result<End, Refused> {
    own.take_wait(control)?.end()
}
