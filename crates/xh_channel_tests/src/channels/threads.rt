//! Threads at one channel: one at each end, and one asleep at its turn.
use super::calls::EndAnswer::{Count, Done, Refused as No, Sent, Taken};
use super::calls::EndCall::{
    Follow, Put, Puts, Rest, Rouse, Shut, Take, Takes, Turn, Wait as WaitAt,
};
use super::calls::Manner::{Busily, Once, Promptly, Slowly};
use super::calls::{Ends, REST, Row, assert_rows, assert_same, by_end, follow, put_all, take_all};
use super::opening::{FREE, ONE_WAY, opened};
use super::scenes::{Act, Scene, play};
use std::process::Abort;
use std::sync::Wait;
use std::sync::atomic::AtomicU64;
use std::sync::atomic::Ordering::SeqCst;
use std::thread;
use std::thread::Threads;
use std::time::Clock;
use xh_channel::{Channels, Endpoint};

// Does what the rows say of one side, by its end.
fn assert_side<R: Clock + Wait + Abort>(
    rt: &R,
    channels: &Channels,
    end: &mut Endpoint,
    side: u8,
    rows: &[Row],
) {
    for (at, (of, call, expected)) in rows.iter().enumerate() {
        if *of == side {
            let answered = by_end(rt, channels, end, *call);
            assert_same(rt, at, answered, *expected);
        }
    }
}

/// Does what the rows say, each side's on a thread of its own.
pub(super) fn assert_side_by_side<R: Clock + Threads + Wait + Abort + Sync>(
    rt: &R,
    channels: &Channels,
    ends: &mut Ends,
    risen: u64,
    rows: &[Row],
) {
    let (low, high) = (&mut ends.low, &mut ends.high);
    let spot = low.spot();
    let _done = thread::join(
        rt,
        || follow(rt, channels, spot, risen, true),
        || {
            thread::join(
                rt,
                || assert_side(rt, channels, low, 0, rows),
                || assert_side(rt, channels, high, 1, rows),
            )
        },
    );
}

// Takes so many messages as they come, so that few or none wait, shuts the end in the middle of a put, and takes what waits
// then. The last message.
fn shut_and_drain<R: Wait>(rt: &R, channels: &Channels, end: &mut Endpoint, count: u64) -> u64 {
    let taken = take_all(rt, channels, end, 0, count, Busily);
    channels.shut(rt, end);
    take_all(rt, channels, end, taken, 64, Once)
}

/// One end puts while the other shuts: what was sent is taken, each message once, and at most one more that was pushed and not sent.
pub(super) fn assert_put_and_shut<R: Clock + Threads + Wait + Abort + Sync>(
    rt: &R,
    channels: &Channels,
    ends: &mut Ends,
) {
    let (low, high) = (&mut ends.low, &mut ends.high);
    let count = u64::from(low.spot().channel % 16);
    let (sent, taken) = thread::join(
        rt,
        || put_all(rt, channels, low, 16, Busily),
        || shut_and_drain(rt, channels, high, count),
    );
    let all = take_all(rt, channels, &mut ends.high, taken, 64, Once);
    assert!(rt; taken >= sent && all <= sent.wrapping_add(1));
}

// A channel that nobody used opens, and its ends go again. Meanwhile it is the only one of its number.
fn assert_next_is_alone<R: Clock + Wait + Abort>(rt: &R, channels: &Channels, open: &AtomicU64) {
    match opened(rt, channels, FREE) {
        Some(mut ends) => {
            let number = 1u64.wrapping_shl(u32::from(ends.low.spot().channel));
            assert!(rt; open.fetch_or(number, SeqCst) & number == 0);
            assert_rows(rt, channels, &mut ends, UNUSED);
            open.fetch_and(!number, SeqCst);
            drop(ends);
        }
        None => panic!(rt; "a channel is free"),
    }
}

/// So many open and go on each of eight threads.
pub(super) fn assert_each_alone<R: Clock + Threads + Wait + Abort + Sync>(
    rt: &R,
    channels: &Channels,
    count: u16,
) {
    let open = AtomicU64::new(0);
    thread::for_each_mut(
        rt,
        &mut [(); 8],
        8,
        &|_at, ()| {
            for _ in 0..count {
                assert_next_is_alone(rt, channels, &open);
            }
        },
    );
}

// What a channel answers that nobody used.
const UNUSED: &[Row] = &[
    (1, Take, No(16)),
    (0, Put(1, Some(7)), Sent(1)),
    (1, Take, Taken(1, 1, Some(7))),
    (1, Shut, Done),
    (0, Put(1, Some(8)), No(15)),
];

/// 10,000 channels by 8 threads.
#[test]
fn channels_open_while_others_close(rt: HostRuntime) {
    play(&rt, rt.alloc(), 1, Scene::EachAlone(1_250));
}

// Each message is there as soon as the turn has risen for it.
const PUT: &[Row] = &[
    (0, Puts(100, Slowly), Count(100)),
    (0, Turn, Count(100)),
    (1, Takes(100, Promptly), Count(100)),
];

// The peer is shut as soon as the turn has risen.
const SHUT: &[Row] = &[
    (0, Rest(REST), Done),
    (0, Shut, Done),
    (0, Turn, Count(1)),
    (1, Follow(1), Done),
    (1, Take, No(15)),
];

// The turn rises after the step that it tells of. A thread sleeps at the turn meanwhile, so that a rouse takes long: a step that
// came after its rouse would be looked for in vain.

#[test]
fn a_put_comes_before_its_turn(rt: HostRuntime) {
    let act = Act::SideBySide(100, PUT);
    play(&rt, rt.alloc(), 2, Scene::Each(FREE, act, 1));
}

#[test]
fn a_shut_comes_before_its_turn(rt: HostRuntime) {
    let act = Act::SideBySide(1, SHUT);
    play(&rt, rt.alloc(), 1, Scene::Each(FREE, act, 64));
}

#[test]
fn a_put_on_a_line_comes_before_its_turn(rt: HostRuntime) {
    let act = Act::SideBySide(100, PUT);
    play(&rt, rt.alloc(), 2, Scene::Each(ONE_WAY, act, 1));
}

#[test]
fn a_shut_of_a_line_comes_before_its_turn(rt: HostRuntime) {
    let act = Act::SideBySide(1, SHUT);
    play(&rt, rt.alloc(), 1, Scene::Each(ONE_WAY, act, 64));
}

// One thread sleeps at each side's turn by the time that the other ends its rest.
const LONG: u64 = 20_000;

#[test]
fn a_shut_wakes_all_that_wait(rt: HostRuntime) {
    const ROWS: &[Row] = &[
        (0, Rest(LONG), Done),
        (0, Shut, Done),
        (1, Take, No(16)),
        (1, WaitAt(0), Done),
        (1, Take, No(15)),
        (1, Turn, Count(1)),
    ];
    let act = Act::SideBySide(1, ROWS);
    play(&rt, rt.alloc(), 1, Scene::Each(FREE, act, 2));
}

#[test]
fn a_put_wakes_who_waits(rt: HostRuntime) {
    const ROWS: &[Row] = &[
        (0, Rest(LONG), Done),
        (0, Put(1, None), Sent(1)),
        (1, Take, No(16)),
        (1, WaitAt(0), Done),
        (1, Take, Taken(1, 1, None)),
        (1, Turn, Count(1)),
    ];
    let act = Act::SideBySide(1, ROWS);
    play(&rt, rt.alloc(), 1, Scene::Each(FREE, act, 2));
}

#[test]
fn a_rouse_wakes_who_waits(rt: HostRuntime) {
    const ROWS: &[Row] = &[
        (0, Rest(LONG), Done),
        (0, Rouse, Done),
        (1, Take, No(16)),
        (1, WaitAt(0), Done),
        (1, Take, No(16)),
        (1, Turn, Count(1)),
    ];
    let act = Act::SideBySide(1, ROWS);
    play(&rt, rt.alloc(), 1, Scene::Each(FREE, act, 2));
}

/// All messages come in order, from one thread to another.
#[test]
fn a_hundred_thousand_messages_come_in_order(rt: HostRuntime) {
    const ROWS: &[Row] = &[
        (0, Puts(100_000, Busily), Count(100_000)),
        (0, Turn, Count(100_000)),
        (1, Takes(100_000, Slowly), Count(100_000)),
    ];
    for depth in [1, 16] {
        let act = Act::SideBySide(0, ROWS);
        play(&rt, rt.alloc(), depth, Scene::Each(FREE, act, 1));
    }
}

#[test]
fn a_put_races_a_shut(rt: HostRuntime) {
    for _ in 0..16 {
        play(&rt, rt.alloc(), 16, Scene::Each(FREE, Act::PutAndShut, 64));
    }
}

/// PeerClosed comes after the last message: a take looks at the peer's word before it pops. The put begins once the takes do.
#[test]
fn a_take_races_a_put_and_a_shut(rt: HostRuntime) {
    const ROWS: &[Row] = &[
        (0, Follow(1), Done),
        (0, Puts(1, Once), Count(1)),
        (0, Shut, Done),
        (0, Turn, Count(3)),
        (1, Rouse, Done),
        (1, Takes(2, Busily), Count(1)),
    ];
    for _ in 0..16 {
        let act = Act::SideBySide(0, ROWS);
        play(&rt, rt.alloc(), 1, Scene::Each(FREE, act, 64));
    }
}
