//! Which channel opens, and what goes back.
ghost use Rattle.std.specs.Prelude.{IfOk, IfSome};
ghost use Rattle.xh_channel.specs.Pairs.{IsPair};

use super::calls::EndAnswer::{Count, Done, Refused as No, Sent, Taken};
use super::calls::EndCall::{Put, Shut, Take, Turn};
use super::calls::{Ends, Row as TalkStep, assert_rows, assert_same};
use arrayvec::ArrayVec;
use std::process::Abort;
use std::sync::Wait;
use std::time::Clock;
use xh_channel::{Channels, Endpoint, Hold, Unopened};
use xh_core::{Contract, Row};

/// The rows of no contract.
pub(super) const FREE: &[Row] = &[];

/// Side 0 sends any number of messages of tag 1.
pub(super) const ONE_WAY: &[Row] = &[Row {
    state: 0,
    tag: 1,
    side: 0,
    next: 0,
}];

/// A request (tag 1) by side 0, a reply (tag 2) by side 1, and again.
pub(super) const REQUEST_AND_REPLY: &[Row] = &[
    Row {
        state: 0,
        tag: 1,
        side: 0,
        next: 1,
    },
    Row {
        state: 1,
        tag: 2,
        side: 1,
        next: 0,
    },
];

fn contract_of(rt: &impl Abort, rows: &[Row]) -> Contract {
    match Contract::new(rows) {
        Ok(contract) => contract,
        Err(_refused) => panic!(rt; "the table is valid"),
    }
}

// The next channel goes by the contract of the rows; by none, where there are no rows.
fn open<R: Wait + Abort>(
    rt: &R,
    channels: &Channels,
    rows: &[Row],
) -> Result<(Endpoint, Endpoint), Unopened>
    ensures { IfOk result (λ e. IsPair e.0 e.1) }
{
    if rows.is_empty() {
        channels.open(rt)
    } else {
        channels.open_with(rt, contract_of(rt, rows))
    }
}

/// Both ends of the next channel. Where a growth is refused the same call is made again.
pub(super) fn opened<R: Wait + Abort>(rt: &R, channels: &Channels, rows: &[Row]) -> Option<Ends>
    ensures { IfSome result (λ e. IsPair e.low e.high) }
{
    let made = match open(rt, channels, rows) {
        Err(Unopened::OutOfMemory(_)) => open(rt, channels, rows),
        made => made,
    };
    match made {
        Ok((low, high)) => Some(Ends { low, high }),
        Err(_refused) => None,
    }
}

// The number of the next channel, or nothing where none opens.
fn next_number<R: Wait + Abort>(rt: &R, channels: &Channels, rows: &[Row]) -> Option<u8> {
    match opened(rt, channels, rows) {
        Some(ends) => {
            let channel = ends.low.spot().channel;
            drop(ends);
            Some(channel)
        }
        None => None,
    }
}

// The next channel has this number, or none opens.
fn assert_next<R: Wait + Abort>(rt: &R, channels: &Channels, rows: &[Row], number: Option<u8>) {
    assert_same(rt, 0, next_number(rt, channels, rows), number);
}

/// As many open as there are, each with the lowest number that is free, and then none.
pub(super) fn assert_all_open<R: Wait + Abort>(rt: &R, channels: &Channels, rows: &[Row]) {
    for channel in 0..64 {
        assert_next(rt, channels, rows, Some(channel));
    }
    assert_next(rt, channels, rows, None);
}

// The next pair of these channels is cancelled by a call on others. Its number.
fn cancel_next<R: Wait + Abort>(rt: &R, channels: &Channels, others: &Channels) -> u8 {
    match opened(rt, channels, FREE) {
        Some(ends) => {
            let channel = ends.low.spot().channel;
            others.cancel(rt, ends.low, ends.high);
            channel
        }
        None => panic!(rt; "a channel is free"),
    }
}

/// The number of a pair that is cancelled is free again; a pair of others goes back to them, and is no number of these.
pub(super) fn assert_goes_back<R: Wait + Abort>(rt: &R, channels: &Channels, others: &Channels) {
    assert_same(rt, 0, cancel_next(rt, channels, channels), 0);
    assert_next(rt, channels, FREE, Some(0));
    assert_same(rt, 1, cancel_next(rt, others, channels), 0);
    assert_next(rt, channels, FREE, Some(1));
    assert_next(rt, others, FREE, Some(0));
}

/// What opens next: the channels of these numbers, from one to the other, whose ends are kept in order; a channel of this number,
/// which is cancelled; nothing. Or the kept ends of these places are dropped, from one to the other; the number of the last kept end
/// is held; nothing is held any more.
#[derive(Clone, Copy)]
pub(super) enum Opening {
    Keeps(u8, u8),
    Cancels(u8),
    Nothing,
    Drops(usize, usize),
    Holds,
    LetsGo,
}

type KeptEnds = ArrayVec<Option<Endpoint>, 128>;

// The number of the next channel, whose ends are kept, or nothing where none opens.
fn keep_next<R: Wait + Abort>(rt: &R, channels: &Channels, kept: &mut KeptEnds) -> Option<u8> {
    match opened(rt, channels, FREE) {
        Some(Ends { low, high }) => {
            let channel = low.spot().channel;
            let _room = kept.try_push(Some(low));
            let _room = kept.try_push(Some(high));
            Some(channel)
        }
        None => None,
    }
}

fn drop_kept(kept: &mut KeptEnds, from: usize, to: usize) {
    for _ in from..to {
        drop(kept.pop_at(from));
    }
}

fn hold_last(channels: &Channels, kept: &KeptEnds) -> Option<Hold> {
    match kept.as_slice().last() {
        Some(Some(end)) => channels.hold(end.spot().channel),
        _ => None,
    }
}

fn assert_kept<R: Wait + Abort>(
    rt: &R,
    channels: &Channels,
    kept: &mut KeptEnds,
    from: u8,
    to: u8,
) {
    for channel in from..to {
        assert_same(rt, 0, keep_next(rt, channels, kept), Some(channel));
    }
}

/// Channels open, are cancelled and lose their ends as the rows say.
pub(super) fn assert_openings<R: Wait + Abort>(rt: &R, channels: &Channels, rows: &[Opening]) {
    let mut kept = KeptEnds::new();
    let mut held = None;
    for (at, row) in rows.iter().enumerate() {
        match *row {
            Opening::Keeps(from, to) => assert_kept(rt, channels, &mut kept, from, to),
            Opening::Cancels(number) => {
                assert_same(rt, at, cancel_next(rt, channels, channels), number);
            }
            Opening::Nothing => assert_same(rt, at, next_number(rt, channels, FREE), None),
            Opening::Drops(from, to) => drop_kept(&mut kept, from, to),
            Opening::Holds => held = hold_last(channels, &kept),
            Opening::LetsGo => held = None,
        }
    }
}

// The calls are made on the other channels, and are answered by the end's own, whose turn alone rises.
const ON_OTHERS: &[TalkStep] = &[
    (0, Put(1, Some(7)), Sent(1)),
    (1, Take, Taken(1, 1, Some(7))),
    (0, Shut, Done),
    (1, Take, No(15)),
    (0, Turn, Count(0)),
];

const ON_THEIR_OWN: &[TalkStep] = &[(0, Turn, Count(2))];

/// The ends of the next channel use its own room on other channels too.
pub(super) fn assert_own_room<R: Clock + Wait + Abort>(
    rt: &R,
    channels: &Channels,
    others: &Channels,
    rows: &[Row],
) {
    match opened(rt, channels, rows) {
        Some(mut ends) => {
            assert_rows(rt, others, &mut ends, ON_OTHERS);
            assert_rows(rt, channels, &mut ends, ON_THEIR_OWN);
            drop(ends);
        }
        None => panic!(rt; "a channel is free"),
    }
}
