//! Refused growths: a test passes whichever growth of memory is refused, and when none is.
use crate::answers::Answer::{self, Block, Bytes, Done, Moved, No, Number, Place, Two};
use crate::answers::Call::{self, Alloc, Free, Glance, Moved as Count, Read, Spawn, Split, Write};
use crate::answers::{LACKING, answer_of, answer_or_same, assert_row};
use crate::ledgers::assert_same;
use crate::machines::{Booked, Trial, arenas_of, on_new_kernel, on_serial};
use std::alloc::Global;
use std::process::Abort;
use std::sync::Wait;
use xh_core::{Config, Ledger, Refused, Status};

/// What the call answers. Where a growth is refused nothing has changed, and the same call then answers as if it had
/// been the first.
fn answer_again<M: Booked>(rt: &impl Abort, alloc: Global, machine: &mut M, call: Call) -> Answer {
    let answered = answer_or_same(rt, alloc, machine, call);
    if answered == LACKING {
        return answer_of(machine, alloc, call);
    }
    answered
}

/// Makes each call, once more where a growth was refused, and compares what it answers.
pub fn assert_again<M: Booked>(
    rt: &impl Abort,
    alloc: Global,
    machine: &mut M,
    calls: &[(Call, Answer)],
) {
    for (at, (call, expected)) in calls.iter().enumerate() {
        let answered = answer_again(rt, alloc, machine, *call);
        assert_row(rt, at, answered, *expected);
    }
}

/// Whether a growth was refused to the making of a machine, or to its taking apart.
pub fn is_lacking(made: &Result<Ledger, Refused>) -> bool {
    matches!(made, Err(Refused::OutOfMemory))
}

/// Each call on a new machine of each kind, and then both ledgers. With a growth refused, no machine is there, or nothing
/// that it was taken apart to; the next is whole. A call to which one was refused leaves all as it was.
fn assert_grown_on<R: Wait + Abort>(
    rt: &R,
    alloc: Global,
    config: Config,
    calls: &[(Call, Answer)],
) {
    let trial = Trial::Again(calls);
    let mut serial = on_serial(rt, alloc, config, trial);
    if is_lacking(&serial) {
        serial = on_serial(rt, alloc, config, trial);
    }
    let mut kernel = on_new_kernel(rt, alloc, config, &trial);
    if is_lacking(&kernel) {
        kernel = on_new_kernel(rt, alloc, config, &trial);
    }
    assert_same(rt, &serial.expect(rt, "room"), &kernel.expect(rt, "room"));
}

/// One arena that may hand out its bytes once.
fn worn_up() -> Config {
    Config {
        wear: 256,
        ..arenas_of(1, 256, 8)
    }
}

/// Two blocks fill the arena, and the first is cut.
#[test]
fn growths_of_alloc_and_split(rt: HostRuntime) {
    const CALLS: &[(Call, Answer)] = &[
        (Spawn, Number(0)),
        (Alloc(0, 40, 0), Block(0, 48)),
        (Write(0, 0, 47, &[8]), Done),
        (Alloc(0, 208, 0), Block(1, 208)),
        (Alloc(0, 16, 0), No("NoSpace")),
        (Split(0, 0, 16), Two(0, 16, 2, 32)),
        (Read(0, 2, 26, 6), Bytes([0, 0, 0, 0, 0, 8])),
        (Free(0, 1), Number(208)),
        (Glance(0), Place(0, Status::Running, 2, 48)),
        (Count(0), Moved(256, 208)),
    ];
    assert_grown_on(&rt, rt.alloc(), worn_up(), CALLS);
}

/// Each part of a cut keeps its bytes, which lie in a buffer of each.
#[test]
fn growths_of_split(rt: HostRuntime) {
    const CALLS: &[(Call, Answer)] = &[
        (Spawn, Number(0)),
        (Alloc(0, 48, 0), Block(0, 48)),
        (Write(0, 0, 14, &[1, 2, 3, 4]), Done),
        (Read(0, 0, 13, 6), Bytes([0, 1, 2, 3, 4, 0])),
        (Split(0, 0, 16), Two(0, 16, 1, 32)),
        (Read(0, 0, 10, 6), Bytes([0, 0, 0, 0, 1, 2])),
        (Read(0, 1, 0, 6), Bytes([3, 4, 0, 0, 0, 0])),
        (Alloc(0, 208, 0), Block(2, 208)),
    ];
    assert_grown_on(&rt, rt.alloc(), worn_up(), CALLS);
}

/// What is tested ahead of memory is answered whether or not the growth of that call is refused, and want of memory
/// ahead of want of room.
#[test]
fn refusals_ahead_of_a_growth(rt: HostRuntime) {
    const CALLS: &[(Call, Answer)] = &[
        (Spawn, Number(0)),
        (Alloc(1, 16, 0), No("NoProcess")),
        (Alloc(0, 16, 2), No("NoArena")),
        (Alloc(0, 257, 0), No("BadSize")),
        (Alloc(0, 256, 0), Block(0, 256)),
        (Alloc(0, 16, 0), No("NoSpace")),
        (Alloc(0, 48, 1), Block(256, 48)),
        (Split(0, 256, 20), No("BadCut")),
        (Split(0, 256, 16), Two(256, 16, 257, 32)),
        (Split(0, 257, 16), No("NoRecord")),
        (Alloc(0, 16, 1), No("NoRecord")),
    ];
    assert_grown_on(&rt, rt.alloc(), arenas_of(2, 256, 2), CALLS);
}
