// On one thread a claim takes the lowest free record, wherever the one before was found.
ghost use Rattle.std.specs.Prelude.{◌≡◌, ◌<◌, [], length};
ghost use Rattle.xh_records.specs.Seats.{IsSeatOf};

use super::{Any, Bench, assert_same, make_bench};
use std::process::Abort;
use std::test::Fail;
use xh_records::{Records, Seat};

/// The seat claims the records from one on up to another, one by one.
fn claim_run(rt: &impl Abort, records: &Records<Any>, seat: &mut Seat<Any>, from: u16, to: u16)
    requires { IsSeatOf records.now seat.old × (0 < length records.now.shape.names) }
    ensures { IsSeatOf records.now seat.new }
{
    for number in from..to {
        let Ok(found) = records.claim(seat, 0) else {
            panic!(rt; "no record");
        };
        assert_same(rt, found, number);
    }
}

/// No record of the arena is free: these are the words.
fn assert_full(rt: &impl Abort, records: &Records<Any>, seat: &mut Seat<Any>, expected: &[u64])
    requires { IsSeatOf records.now seat.old × (0 < length records.now.shape.names) }
    ensures { IsSeatOf records.now seat.new }
{
    let Err(seen) = records.claim(seat, 0) else {
        panic!(rt; "a record is free");
    };
    assert!(rt; *seen.words == *expected);
}

/// The second seat takes record 3, and leaves it once the first one has all others but the last.
fn take_again(
    rt: &impl Abort,
    records: &Records<Any>,
    first: &mut Seat<Any>,
    second: &mut Seat<Any>,
)
    requires own { IsSeatOf records.now first.old × IsSeatOf records.now second.old × (0 < length records.now.shape.names) }
    requires bare { second.old.lots ≡ [] }
{
    claim_run(rt, records, first, 0, 3);
    let Ok(low) = records.claim(second, 0) else {
        panic!(rt; "no record");
    };
    claim_run(rt, records, first, 4, 20);
    records.vacate(second, low);
    claim_run(rt, records, first, 3, 4);
    claim_run(rt, records, first, 20, 21);
    assert_full(rt, records, second, &[1; 21]);
}

#[test]
fn the_lowest_free_record_is_claimed(rt: HostRuntime) -> Result<(), Fail> {
    let Bench {
        records,
        mut first,
        mut second,
        ..
    } = make_bench(rt.alloc(), 128, 21, 1000).expect(&rt, "a bench");
    take_again(&rt, &records, &mut first, &mut second);
    Ok(())
}
