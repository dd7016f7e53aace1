//! Two threads that wait for memory of an arena, for one process or for two, while a third ends their wait.
use crate::ends::Ender::{self, Alloc, Close, Exit, Free, Kill, Nothing, Open};
use crate::ends::{after, end_late, pause, seed_of};
use crate::machines::{Case, Runtime, SharedMachine, arena_of, on_gated};
use std::alloc::Global;
use std::sync::Wait;
use std::sync::atomic::AtomicU64;
use std::sync::atomic::Ordering::SeqCst;
use std::time::{Clock, Duration, Instant};
use std::{io, thread};
use xh_core::{Config, Refused};
use xh_runner::{Gate, Machine, Point};

/// What is seen of a round: whether process 2 claimed a record, and how often those who wait read the clock; and how many of them
/// ever slept. As a gate it may hold such a record, before it has bytes, until both sleep.
#[derive(Drop)]
pub struct Watch {
    holds: bool,
    held: AtomicU64,
    reads: AtomicU64,
    slept: AtomicU64,
}

/// A wait until a time reads the clock at each asking and at each step toward its sleep: at two askings and two steps until it
/// sleeps, and twice more at least once it was woken.
const ASLEEP: u64 = 4;

impl Watch {
    // Waits until both threads sleep, or for so many turns.
    fn await_sleep(&self, turns: u64) {
        for _ in 0..turns {
            if self.reads.load(SeqCst) >= 2 * ASLEEP {
                break;
            }
            pause(1);
        }
    }
}

impl Gate for Watch {
    fn before(&self, _place: u8, _command: u32) -> bool {
        true
    }

    fn after(&self, _place: u8, _command: u32) {}

    fn between(&self, place: u8, point: Point) {
        if self.holds && place == 2 && point == Point::Claimed {
            self.held.store(1, SeqCst);
            self.await_sleep(20_000);
        }
    }
}

/// The clock of one who waits.
#[derive(Drop)]
struct Counted<'a, R> {
    rt: &'a R,
    all: &'a AtomicU64,
    reads: AtomicU64,
}

impl<'a, R: Wait> Wait for Counted<'a, R> {}

impl<'a, R: Clock> Clock for Counted<'a, R> {
    fn monotonic(&self) -> io::Result<Duration> {
        self.reads.fetch_add(1, SeqCst);
        self.all.fetch_add(1, SeqCst);
        self.rt.monotonic()
    }

    fn since_1970(&self) -> io::Result<Duration> {
        self.rt.since_1970()
    }
}

/// A call that ends the waits, what both threads are told, and what is seen.
#[derive(Clone, Copy)]
pub struct Memory<'a> {
    ender: Ender,
    want: &'static str,
    watch: &'a Watch,
}

// Process 2 has a block of 192 bytes, 0, and an end, 2, of which process 0 has the other, 1: three records and 256 bytes.
fn begin<M: Machine>(alloc: Global, machine: &mut M) -> Result<(), Refused> {
    let (first, _second, third) = (machine.spawn()?, machine.spawn()?, machine.spawn()?);
    machine.alloc(alloc, third, 192, 0)?;
    machine.wire(first, third, 0, None)?;
    Ok(())
}

// What the process is told that asks for 16 bytes, once a record is held where it is to be, and gives them back at once.
fn wait_late<W: SharedMachine, R: Wait + Clock>(
    rt: &R,
    alloc: Global,
    worker: &mut W,
    p: u16,
    watch: &Watch,
    until: Option<Instant>,
) -> &'static str {
    for _ in 0..20_000 {
        if !watch.holds || watch.held.load(SeqCst) > 0 {
            break;
        }
        pause(1);
    }
    let clock = Counted {
        rt,
        all: &watch.reads,
        reads: AtomicU64::new(0),
    };
    let told = worker.alloc_wait(&clock, alloc, p, until);
    let reads = clock.reads.load(SeqCst);
    let slept = u64::from(reads >= ASLEEP + 2);
    watch.slept.fetch_add(slept, SeqCst);
    if reads < 100 { told } else { "asked too often" }
}

// Two threads of process 0, or one of it and one of process 1. In every other round they wait until a time, and whoever ends
// their wait lets them sleep before.
fn assert_round<W: SharedMachine, R: Runtime>(
    rt: &R,
    alloc: Global,
    (mine, one, other): (&mut W, &mut W, &mut W),
    Memory { ender, want, watch }: Memory,
    by: u16,
    seed: u64,
) {
    let begun = begin(alloc, mine);
    assert!(rt; begun.is_ok());
    watch.held.store(0, SeqCst);
    watch.reads.store(0, SeqCst);
    let is_late = want.starts_with("No");
    let until = after(rt, if is_late { 1 } else { 20_000 }).filter(|_| is_late || seed % 2 == 0);
    let lets_sleep = until.is_some() && !is_late && !watch.holds;
    let second = if want == "Ended" {
        by
    } else {
        by | (seed / 2 % 2) as u16
    };
    let (told, _done) = thread::join(
        rt,
        || {
            thread::join(
                rt,
                || wait_late(rt, alloc, one, by, watch, until),
                || wait_late(rt, alloc, other, second, watch, until),
            )
        },
        || {
            watch.await_sleep(if lets_sleep { 20_000 } else { 0 });
            end_late(alloc, mine, ender, by, seed)
        },
    );
    let (first, second) = told;
    assert!(rt; first == want && second == want);
    for p in 0..3 {
        let _ended = mine.exit(p | by, 4096).is_ok();
    }
}

/// In 32 rounds each is always told so.
pub fn assert_memory<W: SharedMachine, R: Runtime>(
    rt: &R,
    alloc: Global,
    workers: &mut [W],
    memory: Memory,
) {
    let [mine, one, other] = workers else {
        panic!(rt; "not three workers");
    };
    for round in 0..32u16 {
        let all = (&mut *mine, &mut *one, &mut *other);
        assert_round(rt, alloc, all, memory, 32 * round, seed_of(round));
    }
}

// In 2,048 rounds over 64 kernels each is, all bytes come back, and threads slept.
fn assert_waits<R: Runtime>(
    rt: &R,
    alloc: Global,
    config: Config,
    holds: bool,
    (ender, want): (Ender, &'static str),
) {
    let watch = Watch {
        holds,
        held: AtomicU64::new(0),
        reads: AtomicU64::new(0),
        slept: AtomicU64::new(0),
    };
    let memory = Memory {
        ender,
        want,
        watch: &watch,
    };
    for _ in 0..64 {
        let ledger = on_gated(rt, alloc, config, 3, &watch, Case::Memory(memory));
        assert!(rt; matches!(ledger, Ok(ledger) if ledger.out == 0));
    }
    assert!(rt; watch.slept.load(SeqCst) > 0);
}

// An arena has a record, and no space, until the call.
fn assert_space<R: Runtime>(rt: &R, alloc: Global, ender: Ender) {
    assert_waits(rt, alloc, arena_of(256, 5), false, (ender, ""));
}

// It has space, and no record.
fn assert_record<R: Runtime>(rt: &R, alloc: Global, ender: Ender) {
    assert_waits(rt, alloc, arena_of(1024, 3), false, (ender, ""));
}

// The last record is held by a call that finds no space for as many bytes, or no second record.
fn assert_in_vain<R: Runtime>(rt: &R, alloc: Global, ender: Ender) {
    assert_waits(rt, alloc, arena_of(272, 4), true, (ender, ""));
}

#[test]
fn waits_for_space_of_a_block(rt: HostRuntime) {
    assert_space(&rt, rt.alloc(), Free(2, 0));
}

#[test]
fn waits_for_space_of_an_end(rt: HostRuntime) {
    assert_space(&rt, rt.alloc(), Close(2, 2));
}

#[test]
fn waits_for_space_of_one_that_exits(rt: HostRuntime) {
    assert_space(&rt, rt.alloc(), Exit(2, 4096));
}

#[test]
fn waits_for_space_of_one_that_is_killed(rt: HostRuntime) {
    assert_space(&rt, rt.alloc(), Kill(0, 2, 4096));
}

#[test]
fn waits_for_a_record_of_a_block(rt: HostRuntime) {
    assert_record(&rt, rt.alloc(), Free(2, 0));
}

#[test]
fn waits_for_a_record_of_an_end(rt: HostRuntime) {
    assert_record(&rt, rt.alloc(), Close(2, 2));
}

#[test]
fn waits_for_a_record_of_one_that_exits(rt: HostRuntime) {
    assert_record(&rt, rt.alloc(), Exit(2, 4096));
}

#[test]
fn waits_for_a_record_of_one_that_is_killed(rt: HostRuntime) {
    assert_record(&rt, rt.alloc(), Kill(0, 2, 4096));
}

#[test]
fn waits_for_a_record_claimed_in_vain_by_an_alloc(rt: HostRuntime) {
    assert_in_vain(&rt, rt.alloc(), Alloc(2, 48));
}

#[test]
fn waits_for_a_record_claimed_in_vain_by_an_open(rt: HostRuntime) {
    assert_in_vain(&rt, rt.alloc(), Open(2));
}

/// The process ends that waits.
#[test]
fn waits_for_memory_until_killed(rt: HostRuntime) {
    for (bytes, records) in [(256, 5), (1024, 3)] {
        let config = arena_of(bytes, records);
        assert_waits(&rt, rt.alloc(), config, false, (Kill(2, 0, 4096), "Ended"));
    }
}

/// The time comes.
#[test]
fn waits_for_memory_until_a_time(rt: HostRuntime) {
    for (bytes, records, late) in [(256, 5, "NoSpace"), (1024, 3, "NoRecord")] {
        let config = arena_of(bytes, records);
        assert_waits(&rt, rt.alloc(), config, false, (Nothing, late));
    }
}
