//! The sink: it takes each frame out of the heap and checks it.

use crate::protocol::{AGAIN, DATA, EACH, END, LOST, MARK, WHOLE};
use xh_heap::{End, Items, Process, Refused};

/// Checks all that comes, and tells the producer of each round that came whole, or not. It answers how many did.
pub(crate) fn drain<P: Process>(own: &mut P, input: &End, answers: &End) -> Result<u8, Refused> {
    let (mut rounds, mut frames) = (0u8, 0u8);
    for _ in own.rt().forever() {
        let message = own.take_wait(input)?;
        if message.tag == DATA {
            let number = rounds.wrapping_mul(EACH).wrapping_add(frames);
            let bytes = own.into_bytes(message.block()?)?;
            if bytes.first() == Some(&number.wrapping_add(MARK).wrapping_add(MARK)) {
                frames = frames.wrapping_add(1);
            }
            if frames == EACH {
                own.give(answers, WHOLE, Items::new())?;
                (rounds, frames) = (rounds.wrapping_add(1), 0);
            }
        } else if message.tag == LOST {
            own.give(answers, AGAIN, Items::new())?;
            frames = 0;
        } else if message.tag == END {
            return Ok(rounds);
        }
    }
    unreachable!()
}
