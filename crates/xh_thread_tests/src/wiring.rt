//! A wire whose other process ends in between, on threads.
use crate::machines::{Case, Runtime, SharedMachine, arena_of, on_gated};
use std::hint::spin_loop;
use std::sync::atomic::AtomicBool;
use std::sync::atomic::Ordering::SeqCst;
use std::thread;
use xh_core::Refused;
use xh_runner::{Gate, Machine, Point};

/// It holds whoever has claimed a record until it is told to go on, or a long time has passed.
#[derive(Drop)]
pub struct ClaimHold {
    claimed: AtomicBool,
    told: AtomicBool,
}

// Waits until it is set, or a long time has passed.
fn wait_for(flag: &AtomicBool) {
    for _ in 0..1_000_000_000u64 {
        if flag.load(SeqCst) {
            return;
        }
        spin_loop();
    }
}

impl Gate for ClaimHold {
    fn before(&self, _place: u8, _command: u32) -> bool {
        true
    }

    fn after(&self, _place: u8, _command: u32) {}

    fn between(&self, _place: u8, point: Point) {
        if point == Point::Claimed {
            self.claimed.store(true, SeqCst);
            wait_for(&self.told);
        }
    }
}

// Process 1 ends once the other has claimed a record, and the other is told to go on.
fn end_between<M: Machine>(machine: &mut M, hold: &ClaimHold) -> bool {
    wait_for(&hold.claimed);
    let ended = machine.exit(1, 4096).is_ok();
    hold.told.store(true, SeqCst);
    ended
}

/// A wire is refused whose other process ends once the first has claimed a record, and what it took is given back.
pub fn assert_refused<W: SharedMachine, R: Runtime>(rt: &R, workers: &mut [W], hold: &ClaimHold) {
    let [mine, other] = workers else {
        panic!(rt; "not two workers");
    };
    let started = (mine.spawn(), mine.spawn());
    assert!(rt; matches!(started, (Ok(0), Ok(1))));
    let done = thread::join(
        rt,
        || matches!(mine.wire(0, 1, 0, None), Err(Refused::Ended)),
        || end_between(other, hold),
    );
    assert!(rt; done == (true, true));
}

/// Where the other process ends before its end reaches it, both ends are reclaimed.
#[test]
fn wires_to_one_that_ends(rt: HostRuntime) {
    let hold = ClaimHold {
        claimed: AtomicBool::new(false),
        told: AtomicBool::new(false),
    };
    let case = Case::Wires(&hold);
    let ledger = on_gated(&rt, rt.alloc(), arena_of(256, 16), 2, &hold, case).expect(&rt, "room");
    let taken = ledger.arenas.first().map_or(0, |line| line.taken);
    assert!(&rt; (taken, ledger.out) == (64, 0));
}
