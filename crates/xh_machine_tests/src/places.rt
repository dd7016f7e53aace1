//! Places and glances, by calls.
use crate::answers::Answer::{self, Block, Bytes, Done, Moved, No, Number, Place, Two};
use crate::answers::Call::{
    self, Alloc, Exit, Fills, Free, Glance, Kill, Lives, Moved as Count, Read, Spawn, Spawns,
    Split, Write,
};
use crate::machines::{Trial, arenas_of, assert_on, on_gated, on_long_kernel, on_new_kernel};
use xh_core::{Config, Refused, Status};
use xh_runner::OpenGate;

/// A look sees each change of a place once the call that made it has answered.
#[test]
fn glances(rt: HostRuntime) {
    const CALLS: &[(Call, Answer)] = &[
        (Glance(0), Place(0, Status::Vacant, 0, 0)),
        (Spawn, Number(0)),
        (Glance(0), Place(0, Status::Running, 0, 0)),
        (Alloc(0, 40, 0), Block(0, 48)),
        (Glance(0), Place(0, Status::Running, 1, 48)),
        (Split(0, 0, 16), Two(0, 16, 1, 32)),
        (Glance(0), Place(0, Status::Running, 2, 48)),
        (Free(0, 1), Number(32)),
        (Glance(0), Place(0, Status::Running, 1, 16)),
        (Glance(31), Place(31, Status::Vacant, 0, 0)),
        (Glance(32), No("NoProcess")),
        (Spawns(30), Number(30)),
        (Spawn, Number(31)),
        (Spawn, No("NoPlace")),
        (Glance(31), Place(31, Status::Running, 0, 0)),
    ];
    assert_on(&rt, rt.alloc(), arenas_of(1, 256, 8), CALLS);
}

/// The first look that is made sees what the calls before it did, and not the place that nobody had.
#[test]
fn first_glance(rt: HostRuntime) {
    const CALLS: &[(Call, Answer)] = &[
        (Spawn, Number(0)),
        (Alloc(0, 40, 0), Block(0, 48)),
        (Glance(0), Place(0, Status::Running, 1, 48)),
    ];
    assert_on(&rt, rt.alloc(), arenas_of(1, 256, 8), CALLS);
}

/// The lowest place is used again first, and the number of a process that has ended stays ended, though another runs at
/// its place.
#[test]
fn places_by_generation(rt: HostRuntime) {
    const CALLS: &[(Call, Answer)] = &[
        (Spawn, Number(0)),
        (Spawn, Number(1)),
        (Exit(0, 4_096), Number(0)),
        (Exit(1, 4_096), Number(0)),
        (Spawn, Number(32)),
        (Alloc(0, 1, 0), No("Ended")),
        (Spawn, Number(33)),
        (Kill(33, 0, 4_096), No("Ended")),
        (Glance(0), Place(32, Status::Running, 0, 0)),
        (Glance(1), Place(33, Status::Running, 0, 0)),
    ];
    assert_on(&rt, rt.alloc(), arenas_of(1, 256, 8), CALLS);
}

/// Spawned and ended in turn, the processes have each number once.
#[test]
fn every_process_number(rt: HostRuntime) {
    const CALLS: &[(Call, Answer)] = &[
        (Lives(128), Done),
        (Spawn, No("NoPlace")),
        (Glance(31), Place(4_095, Status::Ended, 0, 0)),
    ];
    assert_on(&rt, rt.alloc(), arenas_of(1, 16, 1), CALLS);
}

/// So they do where a kernel uses each place as often as there are numbers: 65,504 processes, and then none.
#[test]
fn every_number_of_a_long_run(rt: HostRuntime) {
    const CALLS: &[(Call, Answer)] = &[
        (Lives(2_047), Done),
        (Spawn, No("NoPlace")),
        (Glance(31), Place(65_503, Status::Ended, 0, 0)),
    ];
    let trial = Trial::Answers(CALLS);
    let ledger = on_long_kernel(&rt, rt.alloc(), arenas_of(1, 16, 1), &trial);
    assert!(rt; ledger.is_ok());
}

/// A block is cut, written, read and given back, and the account tells what was taken and given back.
#[test]
fn place_calls(rt: HostRuntime) {
    const CALLS: &[(Call, Answer)] = &[
        (Spawn, Number(0)),
        (Alloc(0, 40, 0), Block(0, 48)),
        (Split(0, 0, 16), Two(0, 16, 1, 32)),
        (Write(0, 1, 0, &[1, 2]), Done),
        (Read(0, 1, 0, 4), Bytes([1, 2, 0, 0, 0xee, 0xee])),
        (Read(0, 0, 15, 2), No("BadRange")),
        (Free(0, 1), Number(32)),
        (Free(0, 1), No("NotOwned")),
        (Alloc(1, 16, 0), No("NoProcess")),
        (Alloc(32, 16, 0), No("NoProcess")),
        (Count(0), Moved(48, 32)),
        (Count(1), No("NoArena")),
    ];
    assert_on(&rt, rt.alloc(), arenas_of(1, 256, 8), CALLS);
}

/// One process has all blocks that there can be.
#[test]
fn all_blocks(rt: HostRuntime) {
    const CALLS: &[(Call, Answer)] = &[
        (Spawn, Number(0)),
        (Fills(0), Block(2_047, 16)),
        (Alloc(0, 16, 7), No("NoRecord")),
        (Glance(0), Place(0, Status::Running, 2_048, 32_768)),
        (Exit(0, 4_096), Number(32_768)),
    ];
    let config = Config {
        wear: 4_096,
        ..arenas_of(8, 8_192, 256)
    };
    assert_on(&rt, rt.alloc(), config, CALLS);
}

/// A kernel in which nothing ran has a ledger without places, whose sums are 0.
#[test]
fn empty_kernel(rt: HostRuntime) {
    let none = Trial::Answers(&[]);
    let gate = &OpenGate;
    let ledger = on_gated(&rt, rt.alloc(), arenas_of(1, 256, 256), 2, gate, &none);
    let ledger = ledger.expect(&rt, "room");
    assert!(&rt; ledger.places.is_empty());
    assert_eq!(&rt; (ledger.owned, ledger.flight, ledger.out), (0, 0, 0));
    let bad = on_new_kernel(&rt, rt.alloc(), arenas_of(1, 40, 256), &none);
    assert!(&rt; matches!(bad, Err(Refused::BadSize)));
}
