//! An example for users of the heap: a pipeline of isolated processes on threads.
//!
//! A producer makes frames of 8 MiB, two stages mark each, and a sink checks them. No byte of a frame is
//! copied on its way: each stage takes its buffer out of the heap, and puts it back. In the middle of the run
//! the first stage hangs and is killed, with what it holds and what is on its way to it; the second stage
//! learns it on its receive, a new process takes the place of the first, and the round that was lost is made
//! again.
#![tactic(auto)]

mod pipeline;
mod producer;
mod protocol;
mod sink;
mod stage;
mod supervisor;

use crate::pipeline::{Pipeline, WORKERS};
use crate::protocol::FRAME;
use xh_heap::{Config, one_arena, run};

fn main(rt: HostRuntime) -> anyhow::Result<()> {
    // Arena 0 has room for one frame beside the ends; arena 1, where stages put them, for those of a round.
    let config = Config {
        arenas: 2,
        ..one_arena(2 * FRAME)
    };
    let closed = run(&rt, rt.alloc(), config.checked()?, WORKERS, &Pipeline)?;
    println!(rt; "rounds {:?}\n{closed}", closed.answers)?;
    Ok(())
}
