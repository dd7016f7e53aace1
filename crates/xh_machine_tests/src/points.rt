//! Where a call stops for its gate: the scripts `points_of_blocks`, `points_of_messages` and `points_of_endings`, by one worker.
use crate::answers::Call::{
    self, Alloc, Close, Exit, Free, Give, Open, Read, Spawn, Split, Take, Wire, Write,
};
use crate::answers::answer_of;
use crate::machines::{BufferMachine, Case, arenas_of, on_gated};
use std::alloc::Global;
use std::process::Abort;
use std::sync::{Mutex, Wait};
use xh_core::Config;
use xh_runner::Gate;
use xh_runner::Point::{self, Claimed, Passed, Popped, Put, Returned, Shut};

/// A call, at which place it stops, and at which points, in their order.
type Row<'a> = (Call<'a>, u8, &'a [Point]);

/// Calls, and as their gate at which places and points the last of them stopped.
#[derive(Drop)]
struct Stops<'a, R> {
    rt: &'a R,
    rows: &'a [Row<'a>],
    seen: Mutex<Vec<(u8, Point)>>,
}

impl<'a, R: Wait> Gate for Stops<'a, R> {
    fn before(&self, _place: u8, _command: u32) -> bool {
        true
    }

    fn after(&self, _place: u8, _command: u32) {}

    fn between(&self, place: u8, point: Point) {
        let _lost = self.seen.lock(self.rt).push((place, point)).is_err();
    }
}

impl<'a, R: Wait> Case for Stops<'a, R> {
    fn try_by<W: BufferMachine>(&self, rt: &impl Abort, alloc: Global, worker: &mut W) {
        for (at, (call, place, points)) in self.rows.iter().enumerate() {
            let _answered = answer_of(worker, alloc, *call);
            let mut seen = self.seen.lock(self.rt);
            assert!(rt; seen.len() == points.len(), "call {at}");
            for (stop, point) in seen.iter().zip(points.iter()) {
                assert!(rt; *stop == (*place, *point), "call {at}");
            }
            seen.clear();
        }
    }
}

/// A new record is a point, whether or not bytes come, and so is a block's end; a refusal by tests, a read and a write have none.
const OF_BLOCKS: &[Row] = &[
    (Spawn, 0, &[]),
    (Spawn, 1, &[]),
    (Alloc(0, 240, 0), 0, &[Claimed]),
    (Alloc(0, 32, 0), 0, &[Claimed]),
    (Alloc(0, 0, 0), 0, &[]),
    (Split(0, 0, 16), 0, &[Claimed]),
    (Split(0, 0, 20), 0, &[]),
    (Write(0, 0, 0, &[1]), 0, &[]),
    (Read(0, 0, 0, 4), 0, &[]),
    (Free(0, 1), 0, &[Returned]),
    (Free(0, 1), 0, &[]),
    (Open(0, 0), 0, &[Claimed, Claimed]),
    (Alloc(1, 16, 0), 1, &[Claimed]),
];

/// A give stops once its blocks are passed and once the put is answered, whatever the answer; a take where it has got a message.
const OF_MESSAGES: &[Row] = &[
    (Spawn, 0, &[]),
    (Spawn, 1, &[]),
    (Wire(0, 1), 0, &[Claimed, Claimed]),
    (Alloc(0, 16, 0), 0, &[Claimed]),
    (Give(0, 0, 0, &[0]), 0, &[]),
    (Give(0, 0, 0, &[2]), 0, &[Passed, Put]),
    (Give(0, 0, 0, &[]), 0, &[Passed, Put]),
    (Take(1, 1), 1, &[Popped]),
    (Take(1, 1), 1, &[]),
];

/// A sweep stops where it has shut a side, at each message that was on its way to it, and at each block whose bytes went back.
const OF_ENDINGS: &[Row] = &[
    (Spawn, 0, &[]),
    (Open(0, 0), 0, &[Claimed, Claimed]),
    (Open(0, 0), 0, &[Claimed, Claimed]),
    (Alloc(0, 16, 0), 0, &[Claimed]),
    (Give(0, 0, 0, &[4]), 0, &[Passed, Put]),
    (Give(0, 2, 0, &[]), 0, &[Passed, Put]),
    (Give(0, 2, 0, &[0]), 0, &[Passed, Put]),
    (Close(0, 1), 0, &[Shut, Popped, Returned, Returned]),
    (Alloc(0, 16, 0), 0, &[Claimed]),
    (Close(0, 1), 0, &[]),
    (Exit(0, 1), 0, &[Shut, Returned]),
    (
        Exit(0, 4_096),
        0,
        &[Shut, Popped, Popped, Returned, Returned, Shut, Returned],
    ),
    (Exit(0, 4_096), 0, &[]),
];

#[test]
fn calls_stop_at_their_points(rt: HostRuntime) {
    for (depth, rows) in [(4, OF_BLOCKS), (1, OF_MESSAGES), (4, OF_ENDINGS)] {
        let config = Config {
            depth,
            ..arenas_of(1, 256, 256)
        };
        let stops = Stops {
            rt: &rt,
            rows,
            seen: Mutex::new(Vec::new(rt.alloc())),
        };
        let ledger = on_gated(&rt, rt.alloc(), config, 1, &stops, &stops);
        assert!(&rt; ledger.is_ok());
    }
}
