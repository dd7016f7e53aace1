//! What an end does and what is answered, to be compared.
use arrayvec::ArrayVec;
use std::process::Abort;
use std::sync::Wait;
use std::time::{Clock, Duration};
use std::{hint, thread};
use xh_channel::{Channels, Endpoint, Message, Refused, Spot, Unsent};
use xh_model::limits::MAX_BLOCKS;

/// What an end does: a put with a tag and at most one block, a take, a shut, a look at its turn, a wait there, a rouse,
/// a rest of so many microseconds, looks until the turn has risen so often, at most so many puts of the tag 1, so many takes.
#[derive(Clone, Copy)]
pub(super) enum EndCall {
    Put(u16, Option<u16>),
    Take,
    Shut,
    Turn,
    Wait(u64),
    Rouse,
    Rest(u64),
    Follow(u64),
    Puts(u64, Manner),
    Takes(u64, Manner),
}

/// How many are put or taken: up to the first for which there is no room or no message; again until there is; as long, asleep
/// at the turn, or for a put after a rest ahead of it; each as soon as the turn has risen for it.
#[derive(Clone, Copy, PartialEq)]
pub(super) enum Manner {
    Once,
    Busily,
    Slowly,
    Promptly,
}

/// Microseconds: longer than a thread takes to fall asleep at a turn.
pub(super) const REST: u64 = 200;

/// The number of a message that was put; its number, tag and block; the number of a refusal; the turn,
/// or how many messages were put or taken; nothing.
#[derive(Clone, Copy, PartialEq)]
pub(super) enum EndAnswer {
    Sent(u64),
    Taken(u64, u16, Option<u16>),
    Refused(u8),
    Count(u64),
    Done,
}

const NONE_WAITS: EndAnswer = EndAnswer::Refused(16);

fn blocks_of(block: Option<u16>) -> ArrayVec<u16, MAX_BLOCKS> {
    let mut blocks = ArrayVec::new();
    if let Some(block) = block {
        blocks.push(block);
    }
    blocks
}

// The one block, or 65535, which none has as its number, where there are more.
fn first(blocks: &ArrayVec<u16, MAX_BLOCKS>) -> Option<u16> {
    if blocks.len() > 1 {
        return Some(u16::MAX);
    }
    blocks.first().copied()
}

fn put<R: Wait>(
    rt: &R,
    channels: &Channels,
    end: &mut Endpoint,
    tag: u16,
    block: Option<u16>,
) -> EndAnswer {
    match channels.put(rt, end, tag, blocks_of(block)) {
        Ok(no) => EndAnswer::Sent(no),
        Err(Unsent::Full) => EndAnswer::Refused(14),
        Err(Unsent::PeerClosed) => EndAnswer::Refused(15),
        Err(Unsent::Protocol) => EndAnswer::Refused(22),
    }
}

fn take<R: Wait>(rt: &R, channels: &Channels, end: &mut Endpoint) -> EndAnswer {
    match channels.take(rt, end) {
        Ok(Message { no, tag, blocks }) => EndAnswer::Taken(no, tag, first(&blocks)),
        Err(refused) => EndAnswer::Refused(xh_core::Refused::from(refused).number()),
    }
}

/// Looks at the turn until it has risen so often, and sleeps at it meanwhile, or looks without a pause.
pub(super) fn follow<R: Wait>(rt: &R, channels: &Channels, spot: Spot, last: u64, sleeps: bool) {
    for _ in rt.forever() {
        let seen = channels.turn(rt, spot);
        if seen >= last {
            break;
        }
        if sleeps {
            channels.wait(rt, spot, seen);
        } else {
            hint::spin_loop();
        }
    }
}

// The block of the message of a number.
fn block_of(no: u64) -> Option<u16> {
    Some((no % 2048) as u16)
}

/// Puts messages of the tag 1. How many were sent.
pub(super) fn put_all<R: Clock + Wait>(
    rt: &R,
    channels: &Channels,
    end: &mut Endpoint,
    most: u64,
    manner: Manner,
) -> u64 {
    let mut sent = 0u64;
    for _ in rt.forever() {
        if sent >= most {
            break;
        }
        if manner == Manner::Slowly {
            thread::sleep(rt, Duration::from_micros(REST));
        }
        let next = sent + 1;
        let answered = put(rt, channels, end, 1, block_of(next));
        if answered == EndAnswer::Sent(next) {
            sent = next;
        } else if manner != Manner::Once && answered == EndAnswer::Refused(14) {
            thread::yield_now();
        } else {
            break;
        }
    }
    sent
}

/// Takes the messages of the tag 1 after this number. The last that came in order.
pub(super) fn take_all<R: Wait>(
    rt: &R,
    channels: &Channels,
    end: &mut Endpoint,
    from: u64,
    last: u64,
    manner: Manner,
) -> u64 {
    let spot = end.spot();
    let mut taken = from;
    for _ in rt.forever() {
        if taken >= last {
            break;
        }
        let next = taken + 1;
        if manner == Manner::Promptly {
            follow(rt, channels, spot, next, false);
        }
        let seen = channels.turn(rt, spot);
        let answered = take(rt, channels, end);
        if answered == EndAnswer::Taken(next, 1, block_of(next)) {
            taken = next;
        } else if manner == Manner::Slowly && answered == NONE_WAITS {
            channels.wait(rt, spot, seen);
        } else if manner != Manner::Busily || answered != NONE_WAITS {
            break;
        }
    }
    taken
}

/// What is answered, by this end.
pub(super) fn by_end<R: Clock + Wait>(
    rt: &R,
    channels: &Channels,
    end: &mut Endpoint,
    call: EndCall,
) -> EndAnswer {
    let spot = end.spot();
    match call {
        EndCall::Put(tag, block) => return put(rt, channels, end, tag, block),
        EndCall::Take => return take(rt, channels, end),
        EndCall::Turn => return EndAnswer::Count(channels.turn(rt, spot)),
        EndCall::Puts(most, manner) => {
            return EndAnswer::Count(put_all(rt, channels, end, most, manner));
        }
        EndCall::Takes(most, manner) => {
            return EndAnswer::Count(take_all(rt, channels, end, 0, most, manner));
        }
        EndCall::Shut => channels.shut(rt, end),
        EndCall::Wait(seen) => channels.wait(rt, spot, seen),
        EndCall::Rouse => channels.rouse(rt, spot),
        EndCall::Rest(micros) => thread::sleep(rt, Duration::from_micros(micros)),
        EndCall::Follow(last) => follow(rt, channels, spot, last, false),
    }
    EndAnswer::Done
}

/// They are the same.
pub(super) fn assert_same<T: PartialEq + Drop>(rt: &impl Abort, at: usize, found: T, expected: T) {
    assert!(rt; found == expected, "call {at}");
}

/// Both ends of a channel.
#[derive(Drop)]
pub(super) struct Ends {
    pub(super) low: Endpoint,
    pub(super) high: Endpoint,
}

/// A side, a call by its end, and what is answered.
pub(super) type Row = (u8, EndCall, EndAnswer);

/// Does what the rows say of the sides in turn, by the end of each.
pub(super) fn assert_rows<R: Clock + Wait + Abort>(
    rt: &R,
    channels: &Channels,
    ends: &mut Ends,
    rows: &[Row],
) {
    for (at, (side, call, expected)) in rows.iter().enumerate() {
        let end = if *side == 0 {
            &mut ends.low
        } else {
            &mut ends.high
        };
        let answered = by_end(rt, channels, end, *call);
        assert_same(rt, at, answered, *expected);
    }
}
