//! The producer: it makes the frames, round by round, and makes a round again that was lost.

use crate::protocol::{DATA, EACH, END, FRAME, ROUNDS, WHOLE, next_end};
use xh_heap::{End, Items, Process, Refused};

// Makes the frames of a round and gives them; the first byte of a frame is its number. Each waits for memory until the stage has
// taken the one before out of the heap. Where the receiver is gone, the frame has come back, and is freed.
fn give_round<P: Process>(own: &mut P, out: &End, round: u8) -> Result<(), Refused> {
    for index in 0..EACH {
        let number = round.wrapping_mul(EACH).wrapping_add(index);
        let frame = own.alloc_wait(0, FRAME)?;
        own.write(&frame, 0, &[number])?;
        let Err(refused) = own.give(out, DATA, frame) else {
            continue;
        };
        let Refused::PeerClosed { back: _ } = refused.why else {
            return Err(refused.why);
        };
        if let Some(frame) = refused.value {
            own.free(frame)?;
        }
    }
    Ok(())
}

/// Makes each round until it came whole. The end by which frames go out comes from the supervisor, and a new one for it where
/// a round was lost.
pub(crate) fn produce<P: Process>(
    own: &mut P,
    control: &End,
    answers: &End,
) -> Result<(), Refused> {
    let (mut round, mut out) = (0u8, next_end(own, control)?);
    for _ in own.rt().forever() {
        if round == ROUNDS {
            own.give(&out, END, Items::new())?;
            return Ok(());
        }
        give_round(own, &out, round)?;
        if own.take_wait(answers)?.tag == WHOLE {
            round = round.wrapping_add(1);
        } else {
            own.close(out)?;
            out = next_end(own, control)?;
        }
    }
    unreachable!()
}
