// A record that is claimed, carved, passed, accepted, given back and vacated.
ghost use Rattle.std.specs.Prelude.{◌≡◌, ◌<◌, [], ◌∷◌, IfSome, Some, length};
ghost use Rattle.xh_arena.specs.Views.{LotOf};
ghost use Rattle.xh_model.specs.declared.limits.TheConstants.{DIRECTIONS};
ghost use Rattle.xh_model.specs.Keyed.{put, value_at};
ghost use Rattle.xh_records.specs.History.{IsOneLog};
ghost use Rattle.xh_records.specs.Showing.{IsLotOf};
ghost use Rattle.xh_records.specs.Seats.{HasLooked, IsRecord, IsSeatOf, with_lots};
ghost use Rattle.xh_records_tests.specs.Benches.{IsNewBench};

use super::{Any, Bench, assert_left, assert_same, close_both, make_bench};
use std::alloc::Global;
use std::process::Abort;
use std::test::Fail;
use xh_arena::{Lot, Tally, Vault};
use xh_records::{Records, Refused, Seat};

/// Carves 32 bytes for the record.
fn carve_at(
    records: &Records<Any>,
    seat: &mut Seat<Any>,
    number: u16,
    vault: &mut Vault,
    tally: &mut Tally,
) -> Option<u32>
    requires own { IsSeatOf records.now seat.old × IsRecord records.now.shape number }
    requires ids { tally.old.id ≡ vault.old.id }
    requires held { (l : LotOf Any) × (value_at number seat.old.lots ≡ Some l) × IsLotOf seat.old.shape number l × (l.id ≡ vault.old.id) × (l.len ≡ 0) }
    ensures lot { IfSome result (λ _. (l : LotOf Any) → value_at number seat.old.lots ≡ Some l → seat.new ≡ with_lots seat.old (put number (record l { len = 32 }) seat.old.lots)) }
    ensures ids { (tally.new.id ≡ vault.new.id) × (vault.new.id ≡ vault.old.id) }
{
    records.with_lot(
        seat,
        number,
        &mut |lot: &mut Lot<Any>| vault.carve(lot, tally, 32).ok(),
    )
}

/// Gives the record's bytes back.
fn give_back_at(
    records: &Records<Any>,
    seat: &mut Seat<Any>,
    number: u16,
    vault: &mut Vault,
    tally: &mut Tally,
)
    requires own { IsSeatOf records.now seat.old × IsRecord records.now.shape number }
    requires ids { tally.old.id ≡ vault.old.id }
    requires held { (l : LotOf Any) × (value_at number seat.old.lots ≡ Some l) × IsLotOf seat.old.shape number l × (l.id ≡ vault.old.id) × (0 < l.len) }
    ensures lot { (l : LotOf Any) → value_at number seat.old.lots ≡ Some l → seat.new ≡ with_lots seat.old (put number (record l { len = 0 }) seat.old.lots) }
    ensures ids { (tally.new.id ≡ vault.new.id) × (vault.new.id ≡ vault.old.id) }
{
    records.with_lot(
        seat,
        number,
        &mut |lot: &mut Lot<Any>| vault.give_back(lot, tally),
    );
}

/// The seat finds this word at the record.
fn assert_word(
    rt: &impl Abort,
    records: &Records<Any>,
    seat: &mut Seat<Any>,
    number: u16,
    word: u64,
)
    requires own { IsSeatOf records.now seat.old }
    requires exists { IsRecord records.now.shape number }
    ensures { HasLooked seat.old seat.new }
{
    assert_same(rt, records.owner_word(seat, number), word);
}

/// The first seat claims record 0, carves it and passes it on the direction.
pub(super) fn give_away(
    rt: &impl Abort,
    records: &Records<Any>,
    seat: &mut Seat<Any>,
    vault: &mut Vault,
    tally: &mut Tally,
    direction: u8,
)
    requires own { IsSeatOf records.now seat.old }
    requires bare { seat.old.lots ≡ [] }
    requires names { (records.now.shape.names ≡ vault.old.id ∷ []) × (direction < DIRECTIONS) }
    requires ids { tally.old.id ≡ vault.old.id }
    ensures seat { (seat.new.table ≡ seat.old.table) × (seat.new.shape ≡ seat.old.shape) × (seat.new.process ≡ seat.old.process) × (seat.new.lots ≡ []) }
    ensures ids { (tally.new.id ≡ vault.new.id) × (vault.new.id ≡ vault.old.id) }
{
    let Ok(number) = records.claim(seat, 0) else {
        panic!(rt; "no record");
    };
    assert_eq!(rt; number, 0);
    assert_word(rt, records, seat, number, 1);
    let Some(start) = carve_at(records, seat, number, vault, tally) else {
        panic!(rt; "no room");
    };
    assert_eq!(rt; start, 0);
    records.pass(seat, number, direction);
}

/// Record 0 is in flight on direction 5, and not on direction 4.
fn miss(rt: &impl Abort, records: &Records<Any>, seat: &mut Seat<Any>)
    requires own { IsSeatOf records.now seat.old }
    requires exists { IsRecord records.now.shape 0 }
    ensures { HasLooked seat.old seat.new }
{
    let Err(word) = records.accept(seat, 0, 4) else {
        panic!(rt; "on another direction");
    };
    assert_same(rt, word, 22);
}

/// The second seat accepts record 0, but not on direction 4, gives its bytes back and vacates it.
fn take_over(
    rt: &impl Abort,
    records: &Records<Any>,
    seat: &mut Seat<Any>,
    vault: &mut Vault,
    tally: &mut Tally,
)
    requires own { IsSeatOf records.now seat.old × IsRecord records.now.shape 0 }
    requires bare { seat.old.lots ≡ [] }
    requires names { records.now.shape.names ≡ vault.old.id ∷ [] }
    requires ids { tally.old.id ≡ vault.old.id }
    ensures seat { (seat.new.table ≡ seat.old.table) × (seat.new.shape ≡ seat.old.shape) × (seat.new.process ≡ seat.old.process) × (seat.new.lots ≡ []) }
{
    miss(rt, records, seat);
    let Ok(()) = records.accept(seat, 0, 5) else {
        panic!(rt; "not in flight");
    };
    assert_word(rt, records, seat, 0, 5);
    give_back_at(records, seat, 0, vault, tally);
    records.vacate(seat, 0);
    assert_word(rt, records, seat, 0, 0);
}

/// What one of two seats has seen begins what the other has.
fn one_order(records: &Records<Any>, first: &mut Seat<Any>, second: &mut Seat<Any>)
    requires own { IsSeatOf records.now first.old × IsSeatOf records.now second.old }
    ensures same { (first.new ≡ first.old) × (second.new ≡ second.old) }
    ensures one { IsOneLog first.old.front second.old.front }
{
    records.compare(first, second);
}

/// A record goes its round, from the first place of a new bench to the second.
fn round(
    rt: &impl Abort,
    records: &Records<Any>,
    first: &mut Seat<Any>,
    second: &mut Seat<Any>,
    vault: &mut Vault,
    tally: &mut Tally,
)
    requires new { IsNewBench records.now first.old second.old vault.old tally.old }
    requires two { records.now.shape.records ≡ 2 }
    ensures { IsSeatOf records.now first.new × IsSeatOf records.now second.new }
{
    assert!(rt; records.has(1) && !records.has(2) && !records.has(256));
    give_away(rt, records, first, vault, tally, 5);
    assert_word(rt, records, first, 0, 22);
    take_over(rt, records, second, vault, tally);
    assert_same(rt, (tally.taken(), tally.back()), (32, 32));
    assert_same(rt, records.renew(first), 32);
    assert_same(rt, (first.process(), second.process()), (32, 1));
    one_order(records, first, second);
}

/// The same, and then the table is taken apart, unless a growth was refused.
fn go_round(rt: &impl Abort, alloc: Global, bench: Bench) -> Result<(), Refused>
    requires { bench.records.shape.records ≡ 2 }
{
    let Bench {
        mut vault,
        mut tally,
        records,
        mut first,
        mut second,
    } = bench;
    round(
        rt,
        &records,
        &mut first,
        &mut second,
        &mut vault,
        &mut tally,
    );
    let closed = close_both(alloc, records, first, second);
    assert_left(rt, closed, &[(0, 0), (0, 0)])
}

#[test]
fn record_words(rt: HostRuntime) -> Result<(), Fail> {
    let bench = make_bench(rt.alloc(), 64, 2, 1000).expect(&rt, "a bench");
    go_round(&rt, rt.alloc(), bench)?;
    Ok(())
}

/// A new bench of two records, and where a growth was refused, one by the same calls made again.
fn grown_bench(rt: &impl Abort, alloc: Global) -> Bench
    ensures { result.records.shape.records ≡ 2 }
{
    match make_bench(alloc, 64, 2, 1000) {
        Some(bench) => bench,
        None => make_bench(alloc, 64, 2, 1000).expect(rt, "a bench"),
    }
}

/// With any one growth refused there is no bench, or its table is not taken apart; the next bench is whole: a record goes
/// its round on it, and leaves the table as it was.
#[test]
fn growths(rt: HostRuntime) -> Result<(), Fail> {
    let bench = grown_bench(&rt, rt.alloc());
    if go_round(&rt, rt.alloc(), bench).is_ok() {
        return Ok(());
    }
    let bench = grown_bench(&rt, rt.alloc());
    go_round(&rt, rt.alloc(), bench)?;
    Ok(())
}
