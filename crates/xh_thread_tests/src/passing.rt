//! Messages from one process to another, on two threads.
use crate::machines::{Case, Runtime, SharedMachine, arena_of, on_new_kernel};
use std::alloc::Global;
use std::thread;
use xh_core::Refused;
use xh_runner::{Machine, Received};

/// Process 0 gives so many messages to process 1, each of a new block, whose first byte is the message's number.
const MESSAGES: u8 = 10;

/// How often a give that finds no room is tried again.
const TRIES: u32 = 1_000_000;

/// How often a block comes to each process.
const TURNS: u32 = 10_000;

// Gives the blocks, again while the direction is full. All come back each time.
fn give_on<M: Machine>(machine: &mut M, tag: u16, blocks: &[u16]) -> Result<u64, Refused> {
    for _ in 0..TRIES {
        match machine.give(0, 0, tag, blocks) {
            Err(Refused::Full { back }) if back.as_slice() == blocks => thread::yield_now(),
            answer => return answer,
        }
    }
    Err(Refused::Empty)
}

// Gives all. The last that was given.
fn give_all<M: Machine>(alloc: Global, machine: &mut M) -> Result<u64, Refused> {
    let mut given = 0;
    for next in 1..=MESSAGES {
        let block = machine.alloc(alloc, 0, 16, 0)?;
        machine.write(0, block.rec, 0, &[next])?;
        given = give_on(machine, u16::from(next), &[block.rec])?;
    }
    Ok(given)
}

// Whether the message has this number, also for its tag, and one block, which has it as its first byte and can be freed.
fn is_next<M: Machine>(machine: &mut M, next: u8, message: &Received) -> bool {
    let [Some(block)] = message.blocks.as_slice() else {
        return false;
    };
    let mut first = [0];
    let read = machine.read(1, block.rec, 0, &mut first).is_ok();
    let is_whole = read && first == [next] && machine.free(1, block.rec).ok() == Some(16);
    is_whole && (message.number, message.tag) == (u64::from(next), u16::from(next))
}

// Takes all. How many came as they should.
fn take_all<M: Machine>(machine: &mut M) -> u8 {
    let mut taken = 0;
    for next in 1..=MESSAGES {
        match machine.take(1, 1, true) {
            Ok(message) if is_next(machine, next, &message) => taken = next,
            _ => break,
        }
    }
    taken
}

// The message that comes to the process, by looks without a wait.
fn look<M: Machine>(machine: &mut M, p: u16, e: u16) -> Result<Received, Refused> {
    for _ in 0..TRIES {
        match machine.take(p, e, false) {
            Err(Refused::Empty) => thread::yield_now(),
            answer => return answer,
        }
    }
    Err(Refused::Empty)
}

// The block comes to the process and goes on, so often. How often it came.
fn pass_on<M: Machine>(machine: &mut M, p: u16, e: u16) -> u32 {
    let mut came = 0;
    for turn in 1..=TURNS {
        match look(machine, p, e) {
            Ok(message) if matches!(message.blocks.as_slice(), [Some(_)]) => came = turn,
            _ => break,
        }
        if machine.give(p, e, 0, &[0]).is_err() {
            break;
        }
    }
    came
}

/// Record 0 goes to and fro, and comes with each message: no take looks at it before it has the message.
pub fn assert_comes<W: SharedMachine, R: Runtime>(rt: &R, alloc: Global, workers: &mut [W]) {
    let [mine, other] = workers else {
        panic!(rt; "not two workers");
    };
    assert!(rt; matches!((mine.spawn(), mine.spawn()), (Ok(0), Ok(1))));
    let made = (
        mine.alloc(alloc, 0, 16, 0),
        mine.wire(0, 1, 0, None),
        mine.give(0, 1, 0, &[0]),
    );
    assert!(rt; matches!(made, (Ok(_), Ok(_), Ok(1))));
    let came = thread::join(rt, || pass_on(mine, 0, 1), || pass_on(other, 1, 2));
    assert!(rt; came == (TURNS, TURNS));
}

#[test]
fn a_block_comes_with_its_message(rt: HostRuntime) {
    let ledger = on_new_kernel(&rt, rt.alloc(), arena_of(1024, 16), 2, Case::Comes);
    assert!(&rt; ledger.is_ok());
}

/// All are given, and all come as they should.
pub fn assert_passes<W: SharedMachine, R: Runtime>(rt: &R, alloc: Global, workers: &mut [W]) {
    let [mine, other] = workers else {
        panic!(rt; "not two workers");
    };
    let started = (mine.spawn(), mine.spawn(), mine.wire(0, 1, 0, None));
    assert!(rt; matches!(started, (Ok(0), Ok(1), Ok(_))));
    let (given, taken) = thread::join(rt, || give_all(alloc, mine), || take_all(other));
    assert!(rt; given.ok() == Some(u64::from(MESSAGES)) && taken == MESSAGES);
}

#[test]
fn ten_messages_between_threads(rt: HostRuntime) {
    let ledger = on_new_kernel(&rt, rt.alloc(), arena_of(1024, 16), 2, Case::Passes);
    assert!(&rt; ledger.is_ok());
}
