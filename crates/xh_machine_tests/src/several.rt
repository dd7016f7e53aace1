//! A take at the first of several endpoints that has a message, by one worker.
use crate::answers::Answer::{Block, Number, Two};
use crate::answers::Call::{Alloc, Close, Give, Open, Spawn};
use crate::machines::{BufferMachine, Case, on_new_kernel};
use crate::steps::{Step, Steps, assert_told};
use std::alloc::Global;
use std::process::Abort;
use xh_core::Config;

/// A process has both ends of eight channels. It gives by the low ones, 0 to 14, and takes by the high ones.
const HIGH: [u16; 8] = [1, 3, 5, 7, 9, 11, 13, 15];

/// The refusals in their order, what has a message before what is closed, and that before what is empty. Record 16 is a
/// block's, and nobody has 200.
const ORDER: &[Step] = &[
    Step::Call(Spawn, Number(0)),
    Step::Call(Open(0, 0), Two(0, 32, 1, 32)),
    Step::Call(Open(0, 0), Two(2, 32, 3, 32)),
    Step::Call(Open(0, 0), Two(4, 32, 5, 32)),
    Step::Call(Open(0, 0), Two(6, 32, 7, 32)),
    Step::Call(Open(0, 0), Two(8, 32, 9, 32)),
    Step::Call(Open(0, 0), Two(10, 32, 11, 32)),
    Step::Call(Open(0, 0), Two(12, 32, 13, 32)),
    Step::Call(Open(0, 0), Two(14, 32, 15, 32)),
    Step::Call(Alloc(0, 16, 0), Block(16, 16)),
    Step::Any(0, &[], (64, 0, "Empty")),
    Step::Any(0, &HIGH, (64, 0, "Empty")),
    Step::Any(9, &HIGH, (64, 0, "NoProcess")),
    Step::Any(0, &[200; 65], (64, 0, "TooMany")),
    Step::Any(0, &[1, 200, 1], (64, 0, "NotOwned")),
    Step::Any(0, &[1, 16, 200], (64, 0, "NotEndpoint")),
    Step::Any(0, &[1, 3, 1], (64, 0, "Twice")),
    Step::Call(Close(0, 2), Number(32)),
    Step::Call(Close(0, 4), Number(32)),
    Step::Any(0, &HIGH, (1, 0, "PeerClosed")),
    Step::Call(Give(0, 10, 7, &[]), Number(1)),
    Step::Call(Give(0, 6, 8, &[]), Number(1)),
    Step::Any(0, &HIGH, (3, 8, "")),
    Step::Any(0, &HIGH, (5, 7, "")),
    Step::Any(0, &[15, 5, 3], (1, 0, "PeerClosed")),
];

/// Of eight channels on which two messages wait each time, none is passed over while the look begins one further.
#[derive(Drop)]
struct Turns;

impl Case for Turns {
    fn try_by<W: BufferMachine>(&self, rt: &impl Abort, _alloc: Global, worker: &mut W) {
        let _started = worker.spawn().is_ok();
        for _ in HIGH {
            let _opened = worker.open(0, 0, None).is_ok();
        }
        let mut from = HIGH;
        for round in 0..8 * 16_u16 {
            for e in [0, 2, 4, 6, 8, 10, 12, 14] {
                let _full = (
                    worker.give(0, e, e, &[]).is_ok(),
                    worker.give(0, e, e, &[]).is_ok(),
                );
            }
            let was_told = worker.take_any(0, &from);
            assert_told(rt, usize::from(round), was_told, (0, round % 8 * 2, ""));
            from.rotate_left(1);
        }
    }
}

/// Two messages wait in a direction.
const TWO_DEEP: Config = Config {
    arenas: 1,
    bytes: 1024,
    records: 32,
    depth: 2,
    wear: 1000,
};

#[test]
fn takes_at_several(rt: HostRuntime) {
    let ledger = on_new_kernel(&rt, rt.alloc(), TWO_DEEP, &Steps(ORDER));
    assert!(&rt; ledger.is_ok());
}

#[test]
fn takes_by_turns(rt: HostRuntime) {
    let ledger = on_new_kernel(&rt, rt.alloc(), TWO_DEEP, &Turns);
    assert!(&rt; ledger.is_ok());
}
