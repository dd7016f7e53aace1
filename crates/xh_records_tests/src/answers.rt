//! What calls on an arena or a vault answer, to be compared.
use std::process::Abort;
use xh_arena::Refused;

/// Where a lot's bytes begin; a run of bytes by its start and length; a lot's record, extent and length; bytes, taken and
/// given back; a number; a refusal; nothing. `Unfit` where the call may not be made.
#[derive(Clone, Copy, PartialEq)]
pub enum TableAnswer {
    At(u32),
    Run(u32, u32),
    Has(u16, Option<(u32, u32)>, u32),
    Bytes(u64, u64),
    Number(u64),
    No(Refused),
    Nothing,
    Unfit,
}

pub fn of_start(answer: Result<u32, Refused>) -> TableAnswer {
    match answer {
        Ok(start) => TableAnswer::At(start),
        Err(refused) => TableAnswer::No(refused),
    }
}

pub fn of_run(run: Option<(u32, u32)>) -> TableAnswer {
    match run {
        Some((start, length)) => TableAnswer::Run(start, length),
        None => TableAnswer::Nothing,
    }
}

/// Compares what a call of a table answers.
pub fn assert_answer(rt: &impl Abort, at: usize, answered: TableAnswer, expected: TableAnswer) {
    assert!(rt; answered == expected, "call {at}");
}
