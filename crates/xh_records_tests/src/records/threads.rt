// Two seats on two threads.
ghost use Rattle.std.specs.Prelude.{◌≡◌, ◌<◌, length};
ghost use Rattle.xh_records.specs.Seats.{IsRecord, IsSeatOf};

use super::rounds::give_away;
use super::{Any, Bench, assert_left, assert_same, close_both, make_bench};
use arrayvec::ArrayVec;
use std::alloc::Global;
use std::process::Abort;
use std::test::Fail;
use std::thread::{self, Threads};
use xh_arena::Lot;
use xh_records::{Records, Refused, Seat};

/// Claims until no record is free.
fn claim_all(records: &Records<Any>, mut seat: Seat<Any>) -> (Seat<Any>, ArrayVec<u16, 64>)
    requires { IsSeatOf records.now seat × (0 < length records.now.shape.names) }
    ensures { IsSeatOf records.now result.0 }
{
    let mut claimed = ArrayVec::new();
    for round in 0..64_usize {
        let Ok(number) = records.claim(&mut seat, 0) else {
            return (seat, claimed);
        };
        claimed.push(number);
    }
    (seat, claimed)
}

/// Each seat claims on a thread of its own.
fn claim_both<R: Threads + Sync>(
    rt: &R,
    all: &Records<Any>,
    first: Seat<Any>,
    second: Seat<Any>,
) -> (
    (Seat<Any>, ArrayVec<u16, 64>),
    (Seat<Any>, ArrayVec<u16, 64>),
)
    requires { IsSeatOf all.now first × IsSeatOf all.now second × (0 < length all.now.shape.names) }
    ensures { IsSeatOf all.now result.0.0 × IsSeatOf all.now result.1.0 }
{
    thread::join(
        rt,
        move ||
            requires { IsSeatOf all.now first × (0 < length all.now.shape.names) }
            ensures { IsSeatOf all.entry.now result.0 }
        { claim_all(all, first) },
        move ||
            requires { IsSeatOf all.now second × (0 < length all.now.shape.names) }
            ensures { IsSeatOf all.entry.now result.0 }
        { claim_all(all, second) },
    )
}

/// Each of forty records was claimed once.
fn assert_once(rt: &impl Abort, one: &ArrayVec<u16, 64>, other: &ArrayVec<u16, 64>) {
    for number in 0..40_u16 {
        let (here, there) = (one.contains(&number), other.contains(&number));
        assert_same(rt, (number, here), (number, !there));
    }
    assert_same(rt, one.len() + other.len(), 40);
}

/// Unless a growth was refused, forty words are left, each of one of the two processes.
fn assert_owned(
    rt: &impl Abort,
    closed: Result<(Vec<u64>, Vec<Lot<Any>>), Refused>,
) -> Result<(), Refused> {
    match closed {
        Ok((words, _lots)) => {
            assert_same(rt, words.len(), 40);
            for word in &words {
                assert!(rt; *word == 1 || *word == 5);
            }
            Ok(())
        }
        Err(refused) => Err(refused),
    }
}

/// Forty records, and two threads: each record is claimed once.
fn claim_each<R: Abort + Threads + Sync>(rt: &R, alloc: Global) -> Result<(), Refused> {
    let Bench {
        records,
        first,
        second,
        ..
    } = make_bench(alloc, 128, 40, 1000).expect(rt, "a bench");
    let (one, other) = claim_both(rt, &records, first, second);
    assert_once(rt, &one.1, &other.1);
    let closed = close_both(alloc, records, one.0, other.0);
    assert_owned(rt, closed)
}

/// One try to accept record 0 from direction 0.
fn accept_once(records: &Records<Any>, mut seat: Seat<Any>) -> (Seat<Any>, Result<(), u64>)
    requires { IsSeatOf records.now seat × IsRecord records.now.shape 0 }
    ensures { IsSeatOf records.now result.0 }
{
    let accepted = records.accept(&mut seat, 0, 0);
    (seat, accepted)
}

/// Each seat tries once, on a thread of its own.
fn accept_both<R: Threads + Sync>(
    rt: &R,
    all: &Records<Any>,
    first: Seat<Any>,
    second: Seat<Any>,
) -> ((Seat<Any>, Result<(), u64>), (Seat<Any>, Result<(), u64>))
    requires { IsSeatOf all.now first × IsSeatOf all.now second × IsRecord all.now.shape 0 }
    ensures { IsSeatOf all.now result.0.0 × IsSeatOf all.now result.1.0 }
{
    thread::join(
        rt,
        move ||
            requires { IsSeatOf all.now first × IsRecord all.now.shape 0 }
            ensures { IsSeatOf all.entry.now result.0 }
        { accept_once(all, first) },
        move ||
            requires { IsSeatOf all.now second × IsRecord all.now.shape 0 }
            ensures { IsSeatOf all.entry.now result.0 }
        { accept_once(all, second) },
    )
}

/// One of the two processes has accepted, and the other found its word: that word.
fn word_of(rt: &impl Abort, one: Result<(), u64>, other: Result<(), u64>) -> u64 {
    let (word, expected) = match (one, other) {
        (Ok(()), Err(word)) => (word, 1),
        (Err(word), Ok(())) => (word, 5),
        _ => panic!(rt; "not one of them"),
    };
    assert_same(rt, word, expected);
    word
}

/// A block in flight, and two threads: one accepts it, and the other finds the first one's word.
fn accept_one<R: Abort + Threads + Sync>(rt: &R, alloc: Global) -> Result<(), Refused> {
    const FREE: (u64, u32) = (0, 0);
    let Bench {
        mut vault,
        mut tally,
        records,
        mut first,
        second,
    } = make_bench(alloc, 128, 8, 1000).expect(rt, "a bench");
    give_away(rt, &records, &mut first, &mut vault, &mut tally, 0);
    let (one, other) = accept_both(rt, &records, first, second);
    let word = word_of(rt, one.1, other.1);
    let closed = close_both(alloc, records, one.0, other.0);
    assert_left(
        rt,
        closed,
        &[(word, 32), FREE, FREE, FREE, FREE, FREE, FREE, FREE],
    )
}

#[test]
fn one_claim_each(rt: HostRuntime) -> Result<(), Fail> {
    for _ in 0..20 {
        claim_each(&rt, rt.alloc())?;
        accept_one(&rt, rt.alloc())?;
    }
    Ok(())
}
