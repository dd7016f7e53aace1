//! A process that waits for a message at one endpoint or at one of two, or for room, on threads.
use crate::ends::Ender::{self, Close, Exit, Give, Kill, Take};
use crate::ends::{after, end_late, pause, seed_of};
use crate::machines::{Case, Runtime, SharedMachine, TookAt, arena_of, on_new_kernel};
use std::alloc::Global;
use std::thread;
use std::time::Clock;
use xh_core::{Block, Refused};
use xh_runner::Machine;

/// What a process waits for: a message at one of its ends or at both, or room for one, with a block, behind four that wait.
#[derive(Clone, Copy, PartialEq)]
enum For {
    One,
    Both,
    Room,
}

/// What a process waits for; what ends its wait; the tag of the message that it takes then, or the number of that which it gives,
/// or 0, and the refusal, or nothing.
#[derive(Clone, Copy)]
pub struct Waiting {
    awaited: For,
    ender: Ender,
    want: (u16, &'static str),
}

// Process 0 has a block, 0, ahead of its ends of two channels, 2 and 4, so that a budget of 1 doesn't reach these; process 1 has a
// block to give, 1, and the other ends, 3 and 5. The last of these.
fn begin<M: Machine>(alloc: Global, machine: &mut M) -> Result<Block, Refused> {
    let (p, q) = (machine.spawn()?, machine.spawn()?);
    machine.alloc(alloc, p, 16, 0)?;
    machine.alloc(alloc, q, 16, 0)?;
    machine.wire(p, q, 0, None)?;
    let (_low, high) = machine.wire(p, q, 0, None)?;
    Ok(high)
}

// What process 0 is told that waits after a pause, by one of the ways, a long time at most.
fn wait_late<W: SharedMachine, R: Clock>(
    rt: &R,
    worker: &mut W,
    awaited: For,
    by: u16,
    seed: u64,
) -> TookAt {
    let until = if seed % 2 == 0 {
        None
    } else {
        after(rt, 20_000)
    };
    pause(seed % 211);
    match awaited {
        For::One => worker.take_first(by, 2, until),
        For::Both => worker.take_any_wait(by, &[4, 2], until),
        For::Room => worker.give_wait(by, 2, &[0], until),
    }
}

// Fills the direction from the end 2 of process 0, where it waits for room there.
fn fill<M: Machine>(machine: &mut M, awaited: For, by: u16) {
    if awaited == For::Room {
        for tag in 0..4 {
            let _given = machine.give(by, 2, tag, &[]);
        }
    }
}

// The process that waits is told so, and of a message at which end, while another thread ends its wait; then both end.
fn assert_round<W: SharedMachine, R: Runtime>(
    rt: &R,
    alloc: Global,
    (mine, other): (&mut W, &mut W),
    waiting: Waiting,
    by: u16,
    seed: u64,
) {
    let Waiting {
        awaited,
        ender,
        want,
    } = waiting;
    let last = begin(alloc, mine);
    assert!(rt; matches!(last, Ok(Block { rec: 5, .. })));
    fill(mine, awaited, by);
    let ((at, tag, refused), _done) = thread::join(
        rt,
        || wait_late(rt, other, awaited, by, seed),
        || end_late(alloc, mine, ender, by, seed),
    );
    assert!(rt; (tag, refused) == want, "{refused}");
    let at_end = usize::from(awaited == For::Both);
    assert!(rt; refused != "" || at == at_end);
    let _ended = (mine.exit(by, 4096).is_ok(), mine.exit(1 | by, 4096).is_ok());
}

/// In 32 rounds the process is always told so.
pub fn assert_wait<W: SharedMachine, R: Runtime>(
    rt: &R,
    alloc: Global,
    workers: &mut [W],
    waiting: Waiting,
) {
    let [mine, other] = workers else {
        panic!(rt; "not two workers");
    };
    for round in 0..32u16 {
        let both = (&mut *mine, &mut *other);
        assert_round(rt, alloc, both, waiting, 32 * round, seed_of(round));
    }
}

// In 2,048 rounds over 64 kernels it is, and all bytes come back.
fn assert_waits<R: Runtime>(
    rt: &R,
    alloc: Global,
    awaited: For,
    ender: Ender,
    want: (u16, &'static str),
) {
    let waiting = Waiting {
        awaited,
        ender,
        want,
    };
    for _ in 0..64 {
        let ledger = on_new_kernel(rt, alloc, arena_of(256, 16), 2, Case::Waits(waiting));
        assert!(rt; matches!(ledger, Ok(ledger) if ledger.out == 0));
    }
}

/// What ends the wait of process 0 at its end 2, and how it is told: its peer closes; it is killed, in whole or before its end is
/// reached; another thread closes its end, or gives it away; it exits, or its peer is killed or exits.
const ENDERS: &[(Ender, &str)] = &[
    (Close(1, 3), "PeerClosed"),
    (Kill(1, 0, 4096), "Ended"),
    (Kill(1, 0, 1), "Ended"),
    (Close(0, 2), "NotOwned"),
    (Give(0, 4, 7, Some(2)), "NotOwned"),
    (Exit(0, 4096), "Ended"),
    (Kill(0, 1, 4096), "PeerClosed"),
    (Exit(1, 4096), "PeerClosed"),
];

// This ends the wait, after which there is this number or tag, and so does each of those.
fn assert_each<R: Runtime>(rt: &R, alloc: Global, awaited: For, ender: Ender, number: u16) {
    assert_waits(rt, alloc, awaited, ender, (number, ""));
    for (ender, refused) in ENDERS {
        assert_waits(rt, alloc, awaited, *ender, (0, *refused));
    }
}

#[test]
fn waits_at_one(rt: HostRuntime) {
    assert_each(&rt, rt.alloc(), For::One, Give(1, 3, 7, Some(1)), 7);
}

#[test]
fn waits_at_two(rt: HostRuntime) {
    assert_each(&rt, rt.alloc(), For::Both, Give(1, 3, 7, Some(1)), 7);
}

/// A message is taken, and the process gives the fifth.
#[test]
fn waits_for_room(rt: HostRuntime) {
    assert_each(&rt, rt.alloc(), For::Room, Take(1, 3), 5);
}

/// Two threads of process 0 wait at its end 2; each takes one of the two messages that come.
pub fn assert_both_woken<W: SharedMachine, R: Runtime>(rt: &R, alloc: Global, workers: &mut [W]) {
    let [mine, first, second] = workers else {
        panic!(rt; "not three workers");
    };
    let last = begin(alloc, mine);
    assert!(rt; last.is_ok());
    for round in 0..256 {
        let (seed, twice, thrice) = (round * 977, round * 1_954, round * 2_931);
        let (taken, _given) = thread::join(
            rt,
            || {
                thread::join(
                    rt,
                    || wait_late(rt, first, For::One, 0, seed),
                    || wait_late(rt, second, For::One, 0, twice),
                )
            },
            || {
                (
                    end_late(alloc, mine, Give(1, 3, 7, None), 0, seed),
                    end_late(alloc, mine, Give(1, 3, 8, None), 0, thrice),
                )
            },
        );
        let ((_, one, _), (_, other, _)) = taken;
        assert!(rt;
            (one, other) == (7, 8) || (one, other) == (8, 7),
            "{one} {other}"
        );
    }
}

#[test]
fn two_threads_of_one_process_wait(rt: HostRuntime) {
    let ledger = on_new_kernel(&rt, rt.alloc(), arena_of(256, 16), 3, Case::BothWait);
    assert!(&rt; ledger.is_ok());
}
