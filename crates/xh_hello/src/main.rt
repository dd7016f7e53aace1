//! Two processes on threads: one gives the other a text, and the other counts its words.
#![tactic(auto)]

use std::alloc::Global;
use xh_heap::{End, Job, Process, Refused, Team, one_arena, run};

#[derive(Drop)]
struct Count(Global);

impl Job for Count {
    type Plan = (End, End);

    type Answer = Result<usize, Refused>;

    fn plan<P: Process>(&self, team: &mut Team<P>) -> Result<(End, End), Refused> {
        team.wire(0, 1)
    }

    fn work<P: Process>(&self, ends: &(End, End), index: usize, own: &mut P) -> Self::Answer {
        if index == 0 {
            let mut text = Vec::from_slice(self.0, b"to be or not to be")?;
            own.give_bytes_wait(&ends.0, 0, &mut text)?;
            return Ok(0);
        }
        let text = own.take_bytes_wait(&ends.1)?.bytes()?;
        Ok(text.split(|byte| *byte == b' ').count())
    }
}

fn main(rt: HostRuntime) -> anyhow::Result<()> {
    let config = one_arena(65_536).checked()?;
    let closed = run(&rt, rt.alloc(), config, 2, &Count(rt.alloc()))?;
    println!(rt; "words {:?}\n{closed}", closed.answers)?;
    Ok(())
}
