//! Calls of a machine and what they answer, to be compared.
use crate::machines::Booked;
use std::alloc::Global;
use std::process::Abort;
use xh_core::{Block, Glance, Refused, Status};
use xh_runner::{Machine, Received};

/// A call, by the numbers of processes, records and arenas. A wire's ends are of arena 0. `Spawns` starts so many processes; `Lives` starts and ends
/// so many at each place in turn, each place's generations one after the other and then the next place's. `Fills` allocates 256 blocks of 16
/// bytes of each of eight arenas. A read is of at most six bytes.
/// `Moved` asks what was taken of an arena and given back.
#[derive(Clone, Copy)]
pub enum Call<'a> {
    Spawn,
    Spawns(u16),
    Lives(u16),
    Fills(u16),
    Alloc(u16, u32, u32),
    Split(u16, u16, u32),
    Read(u16, u16, u32, usize),
    Write(u16, u16, u32, &'a [u8]),
    Free(u16, u16),
    Open(u16, u32),
    Wire(u16, u16),
    Give(u16, u16, u16, &'a [u16]),
    Take(u16, u16),
    Close(u16, u16),
    Exit(u16, u32),
    Kill(u16, u16, u32),
    Glance(u8),
    Moved(u8),
}

/// A process, a message's number, how many bytes came back, or the first of several that did not start or end; a
/// block, by record and length; two blocks; the bytes of a read, with 0xee past the last; a message, by its number, its tag
/// and its first block, by record and length (0 and 0 if it did not come); a place, by process, state, blocks and bytes;
/// bytes taken and given back; the name of a refusal; nothing.
#[derive(Clone, Copy, Debug, PartialEq)]
pub enum Answer {
    Number(u64),
    Block(u16, u32),
    Two(u16, u32, u16, u32),
    Bytes([u8; 6]),
    Message(u64, u16, Option<(u16, u32)>),
    Place(u16, Status, u32, u64),
    Moved(u64, u64),
    No(&'static str),
    Done,
}

/// What a call answers where a growth was refused.
pub const LACKING: Answer = Answer::No("OutOfMemory");

fn of_refused(refused: Refused) -> Answer {
    Answer::No(refused.name())
}

fn of_number(answer: Result<u64, Refused>) -> Answer {
    answer.map_or_else(of_refused, Answer::Number)
}

fn of_block(block: Block) -> Answer {
    Answer::Block(block.rec, block.len)
}

fn of_two((low, high): (Block, Block)) -> Answer {
    Answer::Two(low.rec, low.len, high.rec, high.len)
}

/// A block of a message.
fn of_got(block: &Option<Block>) -> (u16, u32) {
    match block {
        Some(block) => (block.rec, block.len),
        None => (0, 0),
    }
}

fn of_message(message: Received) -> Answer {
    let first = message.blocks.as_slice().first().map(of_got);
    Answer::Message(message.number, message.tag, first)
}

fn of_place(seen: Glance) -> Answer {
    Answer::Place(seen.process, seen.state, seen.blocks, seen.bytes)
}

fn of_nothing(_done: ()) -> Answer {
    Answer::Done
}

/// The bytes of a read of at most six, or where it is refused and writes none, why.
fn bytes_of<M: Machine>(machine: &mut M, p: u16, r: u16, at: u32, count: usize) -> Answer {
    let mut bytes = [0xee; 6];
    let read = machine.read(p, r, at, &mut bytes[..count.min(6)]);
    match read {
        Err(refused) if bytes == [0xee; 6] => of_refused(refused),
        _ => Answer::Bytes(bytes),
    }
}

fn moved_of<M: Booked>(machine: &M, arena: u8) -> Answer {
    match machine.moved(arena) {
        Some((taken, back)) => Answer::Moved(taken, back),
        None => Answer::No("NoArena"),
    }
}

/// What the last of so many starts answers.
fn last_of<M: Machine>(machine: &mut M, count: u16) -> Answer {
    let mut last = Answer::Done;
    for _ in 0..count {
        last = of_number(machine.spawn().map(u64::from));
    }
    last
}

fn lives_of<M: Machine>(machine: &mut M, generations: u16) -> Answer {
    for place in 0..32u16 {
        for generation in 0..generations {
            let process = generation.wrapping_mul(32).wrapping_add(place);
            if machine.spawn().ok() != Some(process) || machine.exit(process, 1).ok() != Some(0) {
                return Answer::Number(u64::from(process));
            }
        }
    }
    Answer::Done
}

/// What the last of the allocs answers.
fn filled<M: Machine>(machine: &mut M, alloc: Global, p: u16) -> Answer {
    let mut last = Answer::Done;
    for block in 0..2_048 {
        last = machine
            .alloc(alloc, p, 16, block / 256)
            .map_or_else(of_refused, of_block);
    }
    last
}

/// What the call answers.
pub fn answer_of<M: Booked>(machine: &mut M, alloc: Global, call: Call) -> Answer {
    match call {
        Call::Spawn => last_of(machine, 1),
        Call::Spawns(count) => last_of(machine, count),
        Call::Lives(generations) => lives_of(machine, generations),
        Call::Fills(p) => filled(machine, alloc, p),
        Call::Alloc(p, n, arena) => {
            let made = machine.alloc(alloc, p, n, arena);
            made.map_or_else(of_refused, of_block)
        }
        Call::Split(p, r, k) => {
            let cut = machine.split(alloc, p, r, k);
            cut.map_or_else(of_refused, of_two)
        }
        Call::Read(p, r, at, count) => bytes_of(machine, p, r, at, count),
        Call::Write(p, r, at, bytes) => {
            let done = machine.write(p, r, at, bytes);
            done.map_or_else(of_refused, of_nothing)
        }
        Call::Free(p, r) => of_number(machine.free(p, r).map(u64::from)),
        Call::Open(p, arena) => machine.open(p, arena, None).map_or_else(of_refused, of_two),
        Call::Wire(p, q) => machine.wire(p, q, 0, None).map_or_else(of_refused, of_two),
        Call::Give(p, e, tag, blocks) => of_number(machine.give(p, e, tag, blocks)),
        Call::Take(p, e) => machine
            .take(p, e, false)
            .map_or_else(of_refused, of_message),
        Call::Close(p, e) => of_number(machine.close(p, e)),
        Call::Exit(p, budget) => of_number(machine.exit(p, budget)),
        Call::Kill(p, q, budget) => of_number(machine.kill(p, q, budget)),
        Call::Glance(place) => machine.glance(place).map_or_else(of_refused, of_place),
        Call::Moved(arena) => moved_of(machine, arena),
    }
}

/// What the call of a row answered is what is expected.
pub fn assert_row(rt: &impl Abort, at: usize, answered: Answer, expected: Answer) {
    assert_eq!(rt; answered, expected, "call {at}");
}

/// Makes each call, and compares what it answers.
pub fn assert_answers<M: Booked>(
    rt: &impl Abort,
    alloc: Global,
    machine: &mut M,
    calls: &[(Call, Answer)],
) {
    for (at, (call, expected)) in calls.iter().enumerate() {
        let answered = answer_of(machine, alloc, *call);
        assert_row(rt, at, answered, *expected);
    }
}

/// What a refused call may not change: place 0, bytes of its first block, and what was moved of each of four arenas.
fn seen_of<M: Booked>(machine: &mut M, alloc: Global) -> [Answer; 7] {
    [
        answer_of(machine, alloc, Call::Glance(0)),
        answer_of(machine, alloc, Call::Read(0, 0, 44, 4)),
        answer_of(machine, alloc, Call::Read(0, 0, 250, 6)),
        answer_of(machine, alloc, Call::Moved(0)),
        answer_of(machine, alloc, Call::Moved(1)),
        answer_of(machine, alloc, Call::Moved(2)),
        answer_of(machine, alloc, Call::Moved(3)),
    ]
}

/// Nor the bytes out and the holes of each of four arenas.
fn held_of<M: Booked>(machine: &mut M) -> [Option<(u32, u32)>; 4] {
    [
        machine.held(0),
        machine.held(1),
        machine.held(2),
        machine.held(3),
    ]
}

/// What the call answers. Where it is refused, all that is seen is as it was.
pub fn answer_or_same<M: Booked>(
    rt: &impl Abort,
    alloc: Global,
    machine: &mut M,
    call: Call,
) -> Answer {
    let (seen, held) = (seen_of(machine, alloc), held_of(machine));
    let answered = answer_of(machine, alloc, call);
    if matches!(&answered, Answer::No(_)) {
        assert!(rt; seen_of(machine, alloc) == seen);
        assert!(rt; held_of(machine) == held);
    }
    answered
}
