//! Calls on an arena, and what they answer.
use crate::answers::{TableAnswer, assert_answer, of_run, of_start};
use std::process::Abort;
use xh_arena::Arena;

/// A call by the numbers of records. `Hole` asks for the hole that stands so far along, `Books` for the bytes that were
/// ever handed out and those that are.
#[derive(Clone, Copy)]
pub enum Call {
    Carve(u16, u32),
    GiveBack(u16),
    Hole(usize),
    Size,
    Records,
    Books,
}

fn carved(arena: &mut Arena, r: u16, n: u32) -> TableAnswer {
    if r >= arena.records() || arena.extent(r).is_some() || n == 0 || n % 16 != 0 {
        return TableAnswer::Unfit;
    }
    of_start(arena.carve(r, n))
}

fn given_back(arena: &mut Arena, r: u16) -> TableAnswer {
    if r >= arena.records() {
        return TableAnswer::Unfit;
    }
    match arena.extent(r) {
        Some((_, length)) if length != 0 => {
            arena.give_back(r);
            TableAnswer::Nothing
        }
        _ => TableAnswer::Unfit,
    }
}

fn answer_of(arena: &mut Arena, call: Call) -> TableAnswer {
    match call {
        Call::Carve(r, n) => carved(arena, r, n),
        Call::GiveBack(r) => given_back(arena, r),
        Call::Hole(at) => of_run(arena.holes().get(at).copied()),
        Call::Size => TableAnswer::Number(u64::from(arena.size())),
        Call::Records => TableAnswer::Number(u64::from(arena.records())),
        Call::Books => TableAnswer::Bytes(arena.wear(), u64::from(arena.handed_out())),
    }
}

/// Makes each call, and compares what it answers.
pub fn assert_answers(rt: &impl Abort, arena: &mut Arena, calls: &[(Call, TableAnswer)]) {
    for (at, (call, expected)) in calls.iter().enumerate() {
        let answered = answer_of(arena, *call);
        assert_answer(rt, at, answered, *expected);
    }
}
