//! The processes of the pipeline, and the channels between them.

use crate::producer::produce;
use crate::protocol::next_end;
use crate::sink::drain;
use crate::stage::{Post, stage};
use crate::supervisor::supervise;
use xh_heap::{End, Host, Process, Refused, Starter, Team};

/// A supervisor, which starts the first stage, a producer, the second stage and a sink.
pub(crate) const WORKERS: u8 = 4;

const SUPERVISOR: usize = 0;

const PRODUCER: usize = 1;

const SECOND: usize = 2;

const SINK: usize = 3;

pub(crate) struct Pipeline;

/// The two ends of a channel.
pub(crate) type BothEnds = (End, End);

/// What the workers are told.
#[derive(Drop)]
pub(crate) struct Plan {
    /// From the supervisor to the producer and to the second stage.
    pub(crate) producer: BothEnds,
    pub(crate) second: BothEnds,
    /// From the second stage to the sink.
    data: BothEnds,
    /// From the sink to the producer.
    answers: BothEnds,
}

impl Host for Pipeline {
    type Plan = Plan;

    type Task = Post;

    type Answer = Result<u8, Refused>;

    fn plan<P: Process>(&self, team: &mut Team<P>) -> Result<Plan, Refused> {
        Ok(Plan {
            producer: team.wire(SUPERVISOR, PRODUCER)?,
            second: team.wire(SUPERVISOR, SECOND)?,
            data: team.wire(SECOND, SINK)?,
            answers: team.wire(SINK, PRODUCER)?,
        })
    }

    // How many rounds came whole to the sink, if it is that one.
    fn work<P: Process>(
        &self,
        plan: &Plan,
        index: usize,
        own: &mut P,
        threads: &Starter<P, Post>,
    ) -> Result<u8, Refused> {
        match index {
            SUPERVISOR => supervise(own, plan, threads)?,
            PRODUCER => produce(own, &plan.producer.1, &plan.answers.1)?,
            SECOND => {
                let control = &plan.second.1;
                let input = next_end(own, control)?;
                stage(own, control, input, &plan.data.0, None)?;
            }
            _ => return drain(own, &plan.data.1, &plan.answers.0),
        }
        Ok(0)
    }

    // The first stage; where it was killed, nobody asks it.
    fn serve<P: Process>(&self, _: &Plan, task: Post, own: &mut P, _: &Starter<P, Post>) {
        let _ended = stage(own, &task.control, task.input, &task.out, task.limit);
    }
}
