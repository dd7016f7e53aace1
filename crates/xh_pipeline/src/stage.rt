//! A stage: it marks each frame that comes, and gives it on.

use crate::protocol::{DATA, END, HUNG, LOST, MARK, next_end};
use xh_heap::{Came, End, Items, Process, Refused};

/// Where a stage stands: its ends to the supervisor, for what comes and for what goes. With a limit it hangs at the frame after so
/// many.
#[derive(Drop)]
pub(crate) struct Post {
    pub(crate) control: End,
    pub(crate) input: End,
    pub(crate) out: End,
    pub(crate) limit: Option<u32>,
}

// Marks a frame and gives it on.
fn pass<P: Process>(own: &mut P, out: &End, mut frame: Vec<u8>) -> Result<u64, Refused> {
    if let Some(first) = frame.first_mut() {
        *first = first.wrapping_add(MARK);
    }
    own.give_bytes_in_wait(1, out, DATA, &mut frame)
}

/// Marks frames until no more come. Where the stage before was killed, the next one learns it, and a new endpoint comes for the
/// old one.
pub(crate) fn stage<P: Process>(
    own: &mut P,
    control: &End,
    mut input: End,
    out: &End,
    limit: Option<u32>,
) -> Result<(), Refused> {
    let mut passed = 0u32;
    for _ in own.rt().forever() {
        match own.take_bytes_wait(&input) {
            Ok(Came::Bytes { bytes, .. }) => {
                if limit == Some(passed) {
                    own.give(control, HUNG, Items::new())?;
                    own.take_wait(control)?;
                }
                pass(own, out, bytes)?;
                passed = passed.wrapping_add(1);
            }
            Ok(Came::Message(message)) => {
                own.give(out, message.tag, Items::new())?;
                if message.tag == END {
                    return Ok(());
                }
            }
            Err(Refused::PeerClosed { back: _ }) => {
                own.give(out, LOST, Items::new())?;
                own.close(input)?;
                input = next_end(own, control)?;
            }
            Err(refused) => return Err(refused),
        }
    }
    unreachable!()
}
