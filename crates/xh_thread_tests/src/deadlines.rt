//! Takes and gives until a time, by one worker.
use crate::ends::after;
use crate::machines::{Case, Runtime, SharedMachine, TookAt, arena_of, on_new_kernel};
use std::alloc::Global;
use std::process::Abort;
use std::time::Instant;
use xh_core::{Config, Refused};
use xh_runner::Machine;

/// The high ends of three channels. The process has the low ones too, and block 6.
const HIGH: [u16; 3] = [1, 3, 5];

fn begin<M: Machine>(alloc: Global, machine: &mut M) -> Result<(), Refused> {
    machine.spawn()?;
    for _ in HIGH {
        machine.open(0, 0, None)?;
    }
    machine.alloc(alloc, 0, 16, 0)?;
    Ok(())
}

fn assert_told(rt: &impl Abort, told: &[TookAt], expected: &[TookAt]) {
    for (at, (was_told, wanted)) in told.iter().zip(expected.iter()).enumerate() {
        assert!(rt; was_told == wanted, "step {at}");
    }
}

// Gives by the last channel after so many: two find room; behind them a give of block 6 waits until the time, and the block
// comes back; once one was taken it goes.
fn assert_room<W: SharedMachine>(
    rt: &impl Abort,
    worker: &mut W,
    until: Option<Instant>,
    after: u16,
) {
    let told = [
        worker.give_wait(0, 4, &[], until),
        worker.give_wait(0, 4, &[], None),
        worker.give_wait(0, 4, &[6], until),
        worker.take_first(0, 5, None),
        worker.give_wait(0, 4, &[6], until),
        worker.take_first(0, 5, None),
        worker.take_first(0, 5, None),
    ];
    let given = [1, 2, 3].map(|k: u16| (0, after.wrapping_add(k), ""));
    let (full, taken) = ((1, 0, "Full"), (0, 1, ""));
    let expected = [given[0], given[1], full, taken, given[2], taken, taken];
    assert_told(rt, &told, &expected);
}

/// A wait returns once its time is past, and takes what waits then, or gives where there is room.
pub fn assert_deadlines<W: SharedMachine, R: Runtime>(rt: &R, alloc: Global, workers: &mut [W]) {
    let Some(worker) = workers.first_mut() else {
        panic!(rt; "no worker");
    };
    let begun = begin(alloc, worker);
    assert!(rt; begun.is_ok());
    for (millis, before) in [(0, 0), (20, 3)] {
        let until = after(rt, millis);
        assert!(rt; until.is_some());
        let told = [
            worker.take_first(0, 1, until),
            worker.take_any_wait(0, &HIGH, until),
        ];
        assert!(rt; after(rt, 0) >= until);
        assert_told(rt, &told, &[(0, 0, "Empty"), (64, 0, "Empty")]);
        let given = [worker.give(0, 0, 7, &[]), worker.give(0, 2, 8, &[])];
        assert!(rt; given.iter().all(|no| no.is_ok()));
        let told = [
            worker.take_first(0, 1, until),
            worker.take_any_wait(0, &HIGH, until),
        ];
        assert_told(rt, &told, &[(0, 7, ""), (1, 8, "")]);
        assert_room(rt, worker, until, before);
    }
    assert_told(
        rt,
        &[worker.take_any_wait(0, &[], None)],
        &[(64, 0, "Empty")],
    );
}

#[test]
fn waits_until_a_time(rt: HostRuntime) {
    let config = Config {
        depth: 2,
        ..arena_of(1024, 32)
    };
    let ledger = on_new_kernel(&rt, rt.alloc(), config, 1, Case::Deadlines);
    assert!(&rt; ledger.is_ok());
}
