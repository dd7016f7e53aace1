//! What ends the waits of others.
use std::alloc::Global;
use std::hint::spin_loop;
use std::time::{Clock, Duration, Instant};
use xh_runner::Machine;

/// A call by a process, the first number: an alloc of so many bytes, an open in arena 0, a give of a block, or of none, by an
/// end; a take; the end of a block, an end or a process, with so great a budget; or nothing.
#[derive(Clone, Copy)]
pub enum Ender {
    Alloc(u16, u32),
    Free(u16, u16),
    Open(u16),
    Give(u16, u16, u16, Option<u16>),
    Take(u16, u16),
    Close(u16, u16),
    Exit(u16, u32),
    Kill(u16, u16, u32),
    Nothing,
}

/// Lets so many turns of a loop go by.
pub fn pause(turns: u64) {
    for _ in 0..turns {
        spin_loop();
    }
}

/// The time after so many milliseconds, where the clock can be read.
pub fn after<R: Clock>(rt: &R, millis: u64) -> Option<Instant> {
    let now = Instant::now(rt).ok()?;
    now.checked_add(Duration::from_millis(millis))
}

/// Does what ends a wait, after a pause, by processes that came so much later to their places. Whether it was done.
pub fn end_late<M: Machine>(
    alloc: Global,
    machine: &mut M,
    ender: Ender,
    by: u16,
    seed: u64,
) -> bool {
    pause((seed / 211) % 4001);
    match ender {
        Ender::Alloc(p, bytes) => machine.alloc(alloc, p | by, bytes, 0).is_ok(),
        Ender::Free(p, r) => machine.free(p | by, r).is_ok(),
        Ender::Open(p) => machine.open(p | by, 0, None).is_ok(),
        Ender::Give(p, e, tag, None) => machine.give(p | by, e, tag, &[]).is_ok(),
        Ender::Give(p, e, tag, Some(r)) => machine.give(p | by, e, tag, &[r]).is_ok(),
        Ender::Take(p, e) => machine.take(p | by, e, false).is_ok(),
        Ender::Close(p, e) => machine.close(p | by, e).is_ok(),
        Ender::Exit(p, budget) => machine.exit(p | by, budget).is_ok(),
        Ender::Kill(p, victim, budget) => machine.kill(p | by, victim | by, budget).is_ok(),
        Ender::Nothing => true,
    }
}

/// The seeds of so many rounds.
pub fn seed_of(round: u16) -> u64 {
    let mut seed = 1u64;
    for _ in 0..=round {
        seed = seed
            .wrapping_mul(6_364_136_223_846_793_005)
            .wrapping_add(1_442_695_040_888_963_407);
    }
    seed >> 20
}
