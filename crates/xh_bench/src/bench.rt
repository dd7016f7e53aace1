//! A measure, as a job on a heap of its own: a process for each thread, and channels of both kinds between each two.

use crate::calls::{Work, each, hold, kills};
use crate::rows::Row;
use crossbeam_channel::{Receiver, Sender, bounded};
use crossbeam_queue::ArrayQueue;
use std::alloc::Global;
use std::sync::{Barrier, Wait};
use std::time::{Clock, Duration};
use xh_heap::{Config, End, Job, Process, Refused, Team, one_arena};

/// As many messages as wait in a direction.
const DEPTH: usize = 16;

/// Whether the process does its work, or what stands beside it; and how often.
pub(crate) type Order = (bool, u64);

/// What two threads pass messages by, and the bytes of a message.
#[derive(Drop)]
pub(crate) struct Line {
    pub(crate) alloc: Global,
    pub(crate) bytes: Vec<u8>,
    pub(crate) ends: (End, End),
    pub(crate) there: (Sender<Vec<u8>>, Receiver<Vec<u8>>),
    pub(crate) back: (Sender<Vec<u8>>, Receiver<Vec<u8>>),
    pub(crate) free: ArrayQueue<Vec<u8>, Global>,
}

/// What a thread does of what two do: one or the other, where there is one thread both. And its arena, from 1.
#[derive(Clone, Copy)]
pub(crate) struct Half<'a> {
    pub(crate) line: &'a Line,
    pub(crate) barrier: &'a Barrier,
    pub(crate) sends: bool,
    pub(crate) receives: bool,
    pub(crate) arena: u32,
}

/// A measure, and what of it is done how often.
#[derive(Clone, Copy)]
pub(crate) struct Bench {
    pub(crate) alloc: Global,
    pub(crate) row: Row,
    pub(crate) order: Order,
}

/// Eight arenas of 128 MiB.
pub(crate) fn config() -> Config {
    Config {
        arenas: 8,
        depth: DEPTH as u8,
        ..one_arena(1 << 27)
    }
}

/// The nanoseconds since then.
pub(crate) fn since<C: Clock>(rt: &C, start: Duration) -> Option<u64> {
    let time = rt.monotonic().ok()?.saturating_sub(start);
    u64::try_from(time.as_nanos()).ok()
}

impl Bench {
    // The nanoseconds of so many rounds, by all threads at once.
    fn time<P: Process>(&self, own: &mut P, half: Half<'_>, rounds: u64) -> Option<u64> {
        let (rt, (_, _, work, _, beside)) = (own.rt(), self.row);
        let is_own = self.order.0;
        if is_own && let Work::Kill(blocks) = work {
            return kills(own, blocks, rounds);
        }
        half.barrier.wait(&rt);
        let start = rt.monotonic().ok()?;
        let done = if is_own {
            work.call(own, half, rounds)
        } else {
            half.beside(&rt, beside, rounds)
        };
        half.barrier.wait(&rt);
        done?;
        since(&rt, start)
    }
}

impl Job for Bench {
    type Plan = (Vec<Line>, Barrier);

    type Answer = Option<u64>;

    fn plan<P: Process>(&self, team: &mut Team<P>) -> Result<Self::Plan, Refused> {
        let (_, threads, work, _, _) = self.row;
        let (alloc, threads, (bytes, others)) = (self.alloc, usize::from(threads), work.sizes());
        let mut lines = Vec::new(alloc);
        for one in (0..threads).step_by(2) {
            let other = threads.saturating_sub(1).min(one.wrapping_add(1));
            hold(team.at(one)?, 1 + (one % 7) as u32, others)?;
            lines.push(Line {
                alloc,
                bytes: vec![in alloc; 7u8; bytes as usize]?,
                ends: team.wire(one, other)?,
                there: bounded(alloc, DEPTH)?,
                back: bounded(alloc, DEPTH)?,
                free: ArrayQueue::new(alloc, 2 * DEPTH)?,
            })?;
        }
        Ok((lines, Barrier::new(threads)))
    }

    /// The picoseconds of a round; None where a call, the clock or a growth of memory was refused.
    fn work<P: Process>(&self, plan: &Self::Plan, index: usize, own: &mut P) -> Option<u64> {
        let is_alone = self.row.1 == 1;
        let half = Half {
            line: plan.0.get(index / 2)?,
            barrier: &plan.1,
            sends: index % 2 == 0,
            receives: is_alone || index % 2 == 1,
            arena: 1 + (index % 7) as u32,
        };
        if is_alone {
            each(own, half.line)?;
        }
        let rounds = self.order.1;
        let _warm = self.time(own, half, 1)?;
        let nanos = self.time(own, half, rounds)?;
        nanos.saturating_mul(1000).checked_div(rounds)
    }
}
