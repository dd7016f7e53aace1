//! Worked examples: a record goes its round, two threads claim, and what is refused.
ghost use Rattle.std.specs.Prelude.{◌≡◌, ◌<◌, ◌≤◌, [], ◌∷◌, length, slice_get, Some, IfSome, IfOk};
ghost use Rattle.xh_model.specs.declared.limits.TheConstants.{MAX_RECORDS};
ghost use Rattle.xh_records.specs.Seats.{IsSeatOf};
ghost use Rattle.xh_records_tests.specs.Benches.{IsNewBench};

mod lowest;
mod rounds;
mod threads;

use std::alloc::Global;
use std::collections::LinkedList;
use std::fmt::Debug;
use std::process::Abort;
use xh_arena::{Fits, Lot, Tally, Vault};
use xh_records::{Records, Refused, Seat};

/// It fits each length.
#[derive(Default, Drop)]
pub(crate) struct Any;

impl Fits for Any {
    ghost use Rattle.std.specs.Prelude.{true};

    ghost is_fit = { λ _ _. true };

    fn fits(&self, _len: u32) -> bool {
        true
    }
}

/// One arena, and two places.
#[derive(Drop)]
struct Bench {
    vault: Vault,
    tally: Tally,
    records: Records<Any>,
    first: Seat<Any>,
    second: Seat<Any>,
    ghost new: { IsNewBench records first second vault tally },
    ghost places: { records.shape.places ≡ 2 },
}

/// The first of the items.
fn first_of<T: Drop>(mut items: Vec<T>) -> T
    requires { 1 ≤ length items.items }
    ensures { slice_get items.items 0 ≡ Some result }
{
    items.remove(0)
}

/// The first two of the items.
pub(crate) fn first_two<T: Drop>(mut items: Vec<T>) -> (T, T)
    requires { 2 ≤ length items.items }
    ensures { (slice_get items.items 0 ≡ Some result.0) × (slice_get items.items 1 ≡ Some result.1) }
{
    let first = items.remove(0);
    let second = items.remove(0);
    (first, second)
}

/// The bench of a new vault, unless a growth was refused.
fn make_bench(alloc: Global, size: u32, count: u16, wear: u64) -> Option<Bench>
    requires { (0 < count) × (count ≤ MAX_RECORDS) }
    ensures { IfSome result (λ b. b.records.shape.records ≡ count) }
{
    let Ok((mut vault, lots, tallies)) = Vault::new::<Any>(alloc, size, count, wear, 1) else {
        return None;
    };
    let mut names = LinkedList::new(alloc);
    names.push_back(vault.name()).ok()?;
    let Ok((records, seats)) = Records::new(alloc, lots, names, count, 2) else {
        return None;
    };
    let (first, second) = first_two(seats);
    let tally = first_of(tallies);
    Some(Bench {
        vault,
        tally,
        records,
        first,
        second,
    })
}

/// Takes the table apart, with both its seats.
fn close_both(
    alloc: Global,
    records: Records<Any>,
    first: Seat<Any>,
    second: Seat<Any>,
) -> Result<(Vec<u64>, Vec<Lot<Any>>), Refused>
    requires own { IsSeatOf records first × IsSeatOf records second × (records.shape.places ≡ 2) }
    ensures long { IfOk result (λ r. length r.0.items ≡ length r.1.items) }
{
    let Ok(seats) = vec![in alloc; first, second] else {
        return Err(Refused::OutOfMemory);
    };
    records.close(alloc, seats)
}

/// They are the same.
fn assert_same<T: PartialEq + Debug + Drop>(rt: &impl Abort, found: T, expected: T) {
    assert_eq!(rt; found, expected);
}

/// These are the words, and the lengths of the lots.
fn assert_lots(rt: &impl Abort, words: &[u64], lots: &[Lot<Any>], expected: &[(u64, u32)]) {
    assert_same(
        rt,
        (words.len(), lots.len()),
        (expected.len(), expected.len()),
    );
    for (at, (word, len)) in expected.iter().enumerate() {
        let found = match lots.get(at) {
            Some(lot) => Some(lot.len()),
            None => None,
        };
        let left = (at, words.get(at).copied(), found);
        assert_same(rt, left, (at, Some(*word), Some(*len)));
    }
}

/// Unless a growth was refused, these are the words of a table that was taken apart, and the lengths of its lots.
fn assert_left(
    rt: &impl Abort,
    closed: Result<(Vec<u64>, Vec<Lot<Any>>), Refused>,
    expected: &[(u64, u32)],
) -> Result<(), Refused> {
    match closed {
        Ok((words, lots)) => {
            assert_lots(rt, &words, &lots, expected);
            Ok(())
        }
        Err(refused) => Err(refused),
    }
}
