//! Calls without memory: the test passes whichever growth is the first from which on all are refused, and when none is.
use crate::answers::Answer::{self, Block, Bytes, Done, Message, No, Number, Place, Two};
use crate::answers::Call::{
    self, Alloc, Close, Exit, Free, Give, Glance, Kill, Open, Read, Spawn, Spawns, Split, Take,
    Write,
};
use crate::answers::{LACKING, answer_of, answer_or_same, assert_row};
use crate::machines::{Booked, Trial, on_new_kernel, on_serial};
use std::alloc::Global;
use std::process::Abort;
use xh_core::{Config, Ledger, Refused, Status};

/// Four arenas with two records each, of which each may hand out 288 bytes.
fn four_arenas() -> Config {
    Config {
        arenas: 4,
        bytes: 256,
        records: 2,
        depth: 4,
        wear: 288,
    }
}

/// What the call answers. Where a growth was refused nothing has changed, and the same call answers the same.
fn lacking_answer<M: Booked>(
    rt: &impl Abort,
    alloc: Global,
    machine: &mut M,
    call: Call,
) -> Answer {
    let answered = answer_or_same(rt, alloc, machine, call);
    if answered == LACKING {
        assert!(rt; answer_of(machine, alloc, call) == LACKING);
    }
    answered
}

/// Whether no growth was refused to the calls: up to the first to which one was, each answers this.
fn are_answered<M: Booked>(
    rt: &impl Abort,
    alloc: Global,
    machine: &mut M,
    calls: &[(Call, Answer)],
) -> bool {
    for (at, (call, expected)) in calls.iter().enumerate() {
        let answered = lacking_answer(rt, alloc, machine, *call);
        if answered == LACKING {
            return false;
        }
        assert_row(rt, at, answered, *expected);
    }
    true
}

/// Process 0 fills arena 0 with one block, had 256 bytes of arena 1, and has all records of arena 2 and 3; process 2
/// has ended. Whether no growth was refused.
fn is_prepared<M: Booked>(rt: &impl Abort, alloc: Global, machine: &mut M) -> bool {
    const CALLS: &[(Call, Answer)] = &[
        (Spawns(3), Number(2)),
        (Exit(2, 4_096), Number(0)),
        (Alloc(0, 256, 0), Block(0, 256)),
        (Alloc(0, 256, 1), Block(256, 256)),
        (Free(0, 256), Number(256)),
        (Alloc(0, 32, 2), Block(512, 32)),
        (Alloc(0, 16, 2), Block(513, 16)),
        (Open(0, 3), Two(768, 32, 769, 32)),
        (Write(0, 0, 255, &[8]), Done),
    ];
    are_answered(rt, alloc, machine, CALLS)
}

/// The calls that ask for memory, and what is seen of them: what each answers with memory, and what once a growth was
/// refused, ahead of NoSpace and Worn.
fn assert_refused<M: Booked>(rt: &impl Abort, alloc: Global, machine: &mut M) {
    const CALLS: &[(Call, Answer, Answer)] = &[
        (Alloc(0, 32, 1), Block(256, 32), LACKING),
        (Free(0, 256), Number(32), No("NotOwned")),
        (Alloc(0, 16, 0), No("NoSpace"), LACKING),
        (Alloc(0, 48, 1), No("Worn"), LACKING),
        (Split(0, 0, 16), Two(0, 16, 1, 240), LACKING),
        (
            Read(0, 0, 250, 6),
            No("BadRange"),
            Bytes([0, 0, 0, 0, 0, 8]),
        ),
        (
            Read(0, 1, 234, 6),
            Bytes([0, 0, 0, 0, 0, 8]),
            No("NotOwned"),
        ),
    ];
    let mut lacks = false;
    for (at, (call, with, without)) in CALLS.iter().enumerate() {
        let answered = lacking_answer(rt, alloc, machine, *call);
        lacks = lacks || answered == LACKING;
        assert_row(rt, at, answered, if lacks { *without } else { *with });
    }
}

/// The refusals ahead of OutOfMemory, and the calls that ask for no memory: the same with memory and without.
fn are_others_same<M: Booked>(rt: &impl Abort, alloc: Global, machine: &mut M) -> bool {
    const CALLS: &[(Call, Answer)] = &[
        (Alloc(3, 0, 9), No("NoProcess")),
        (Alloc(2, 0, 9), No("Ended")),
        (Alloc(0, 0, 9), No("NoArena")),
        (Alloc(0, 0, 2), No("BadSize")),
        (Alloc(0, 257, 2), No("BadSize")),
        (Alloc(0, 16, 2), No("NoRecord")),
        (Split(3, 9, 0), No("NoProcess")),
        (Split(2, 9, 0), No("Ended")),
        (Split(0, 9, 0), No("NotOwned")),
        (Split(0, 768, 0), No("NotData")),
        (Split(0, 512, 8), No("BadCut")),
        (Split(0, 512, 16), No("NoRecord")),
        (Give(0, 768, 7, &[513]), Number(1)),
        (Take(0, 769), Message(1, 7, Some((513, 16)))),
        (Give(0, 768, 8, &[]), Number(2)),
        (Take(0, 769), Message(2, 8, None)),
        (Free(0, 513), Number(16)),
        (Free(0, 512), Number(32)),
        (Open(0, 2), Two(512, 32, 513, 32)),
        (Close(0, 512), Number(32)),
        (Spawn, Number(34)),
        (Kill(0, 1, 4_096), Number(0)),
        (Exit(0, 4_096), Number(352)),
        (Glance(0), Place(0, Status::Ended, 0, 0)),
    ];
    are_answered(rt, alloc, machine, CALLS)
}

/// All the calls, of which the last stand where one before them was refused a growth.
pub fn assert_whole<M: Booked>(rt: &impl Abort, alloc: Global, machine: &mut M) {
    if is_prepared(rt, alloc, machine) {
        assert_refused(rt, alloc, machine);
        let same = are_others_same(rt, alloc, machine);
        assert!(rt; same);
    }
}

/// The name of the refusal, or nothing.
fn name_of(made: Result<Ledger, Refused>) -> &'static str {
    match made {
        Ok(_ledger) => "",
        Err(refused) => refused.name(),
    }
}

/// The refusals ahead of OutOfMemory come in their order where no memory is left, and every other call does what it
/// always does. A machine that could not be made can't be made again.
#[test]
fn calls_without_memory(rt: HostRuntime) {
    let alloc = rt.alloc();
    let bad = Config {
        bytes: 40,
        ..four_arenas()
    };
    let trial = Trial::WithoutMemory;
    let serial = name_of(on_serial(&rt, alloc, four_arenas(), trial));
    let kernel = name_of(on_new_kernel(&rt, alloc, four_arenas(), &trial));
    assert_eq!(rt; name_of(on_serial(&rt, alloc, bad, trial)), "BadSize");
    assert_eq!(rt; name_of(on_new_kernel(&rt, alloc, bad, &trial)), "BadSize");
    if serial != "" {
        assert_eq!(rt; serial, "OutOfMemory");
        let again = name_of(on_serial(&rt, alloc, four_arenas(), trial));
        assert_eq!(rt; again, "OutOfMemory");
    }
    if kernel != "" {
        assert_eq!(rt; kernel, "OutOfMemory");
        let again = name_of(on_new_kernel(&rt, alloc, four_arenas(), &trial));
        assert_eq!(rt; again, "OutOfMemory");
    }
}
