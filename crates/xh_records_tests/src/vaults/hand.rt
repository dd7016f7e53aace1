//! Calls on a vault with its first lots and tallies, and what they answer.
ghost use Rattle.std.specs.Prelude.{◌≡◌};

use crate::answers::{TableAnswer, assert_answer, of_run, of_start};
use crate::records::{Any, first_two};
use std::alloc::Global;
use std::process::Abort;
use xh_arena::{Lot, Refused, Tally, Vault};

/// A vault with its first two lots, one for each of two workers, and their tallies.
#[derive(Drop)]
pub struct VaultHand {
    pub vault: Vault,
    pub first: Lot<Any>,
    pub second: Lot<Any>,
    pub one: Tally,
    pub two: Tally,
    ghost lots: { (first.id ≡ vault.id) × (second.id ≡ vault.id) },
    ghost tallies: { (one.id ≡ vault.id) × (two.id ≡ vault.id) },
}

/// A call by a worker with its lot. `Hole` asks for the hole that stands so far along, `Books` for the bytes that were ever
/// handed out and those that are.
#[derive(Clone, Copy)]
pub enum Call {
    Carve(u32),
    GiveBack,
    Audit,
    Moved,
    Hole(usize),
    Size,
    Records,
    Books,
}

/// A vault of 64 bytes that may hand out 80, for 4 records and 2 workers.
pub fn made(alloc: Global) -> Result<VaultHand, Refused> {
    let (vault, lots, tallies) = Vault::new::<Any>(alloc, 64, 4, 80, 2)?;
    let (first, second) = first_two(lots);
    let (one, two) = first_two(tallies);
    Ok(VaultHand {
        vault,
        first,
        second,
        one,
        two,
    })
}

fn carved(vault: &mut Vault, lot: &mut Lot<Any>, tally: &mut Tally, n: u32) -> TableAnswer
    requires ids { (lot.old.id ≡ vault.old.id) × (tally.old.id ≡ vault.old.id) }
    ensures ids { (vault.new.id ≡ vault.old.id) × (lot.new.id ≡ lot.old.id) × (tally.new.id ≡ tally.old.id) }
{
    if lot.len() != 0 || n == 0 || n % 16 != 0 {
        return TableAnswer::Unfit;
    }
    of_start(vault.carve(lot, tally, n))
}

fn given_back(vault: &mut Vault, lot: &mut Lot<Any>, tally: &mut Tally) -> TableAnswer
    requires ids { (lot.old.id ≡ vault.old.id) × (tally.old.id ≡ vault.old.id) }
    ensures ids { (vault.new.id ≡ vault.old.id) × (lot.new.id ≡ lot.old.id) × (tally.new.id ≡ tally.old.id) }
{
    if lot.len() == 0 {
        return TableAnswer::Unfit;
    }
    vault.give_back(lot, tally);
    TableAnswer::Nothing
}

fn audited(vault: &mut Vault, lot: &mut Lot<Any>) -> TableAnswer
    requires { lot.old.id ≡ vault.old.id }
    ensures { (vault.new.id ≡ vault.old.id) × (lot.new.id ≡ lot.old.id) }
{
    vault.audit(lot);
    TableAnswer::Has(lot.record(), vault.extent(lot.record()), lot.len())
}

fn answer_of(vault: &mut Vault, lot: &mut Lot<Any>, tally: &mut Tally, call: Call) -> TableAnswer
    requires ids { (lot.old.id ≡ vault.old.id) × (tally.old.id ≡ vault.old.id) }
    ensures ids { (vault.new.id ≡ vault.old.id) × (lot.new.id ≡ lot.old.id) × (tally.new.id ≡ tally.old.id) }
{
    match call {
        Call::Carve(n) => carved(vault, lot, tally, n),
        Call::GiveBack => given_back(vault, lot, tally),
        Call::Audit => audited(vault, lot),
        Call::Moved => TableAnswer::Bytes(tally.taken(), tally.back()),
        Call::Hole(at) => of_run(vault.holes().get(at).copied()),
        Call::Size => TableAnswer::Number(u64::from(vault.size())),
        Call::Records => TableAnswer::Number(u64::from(vault.records())),
        Call::Books => TableAnswer::Bytes(vault.wear(), u64::from(vault.handed_out())),
    }
}

/// What a call by a worker answers, of the two.
fn by_worker(hand: &mut VaultHand, worker: u8, call: Call) -> TableAnswer {
    let VaultHand {
        vault,
        first,
        second,
        one,
        two,
    } = hand;
    if worker == 0 {
        answer_of(vault, first, one, call)
    } else {
        answer_of(vault, second, two, call)
    }
}

/// Makes each call by its worker, 0 or 1, and compares what it answers.
pub fn assert_answers(rt: &impl Abort, hand: &mut VaultHand, calls: &[(u8, Call, TableAnswer)]) {
    for (at, (worker, call, expected)) in calls.iter().enumerate() {
        let answered = by_worker(hand, *worker, *call);
        assert_answer(rt, at, answered, *expected);
    }
}

/// Takes both tallies in.
pub fn collect(hand: VaultHand) {
    let VaultHand {
        mut vault,
        one,
        two,
        ..
    } = hand;
    let _name = vault.name();
    vault.collect(one);
    vault.collect(two);
}
