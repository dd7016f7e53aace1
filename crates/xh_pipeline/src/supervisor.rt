//! The supervisor: it starts the first stage, and kills one that hangs and starts a new one in its place.

use crate::pipeline::Plan;
use crate::protocol::{ENDS, LIMIT};
use crate::stage::Post;
use xh_heap::{Process, Refused, Starter};

/// A first stage stands between the producer and the second stage, which are each given their end of a channel to it. It
/// tells when it hangs; the one after it doesn't.
pub(crate) fn supervise<P: Process>(
    own: &mut P,
    plan: &Plan,
    threads: &Starter<P, Post>,
) -> Result<(), Refused> {
    for limit in [Some(LIMIT), None] {
        let stage = own.spawn()?;
        let number = stage.number();
        let (watched, control) = own.wire(&stage)?;
        let (to_stage, input) = own.wire(&stage)?;
        let (from_stage, out) = own.wire(&stage)?;
        let post = Post {
            control,
            input,
            out,
            limit,
        };
        threads.start(stage, post)?;
        own.give(&plan.producer.0, ENDS, to_stage)?;
        own.give(&plan.second.0, ENDS, from_stage)?;
        if own.take_wait(&watched).is_ok() {
            own.kill(number)?;
        }
        own.close(watched)?;
    }
    Ok(())
}
