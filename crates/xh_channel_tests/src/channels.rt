//! Channels by calls.
mod bells;
mod calls;
mod opening;
mod scenes;
mod threads;

use arrayvec::ArrayVec;
use calls::EndAnswer::{Count, Done, Refused as No, Sent, Taken};
use calls::EndCall::{Put, Puts, Shut, Take, Turn};
use calls::Manner::Once;
use calls::{Row, assert_same};
use opening::Opening::{Cancels, Drops, Holds, Keeps, LetsGo, Nothing};
use opening::{FREE, ONE_WAY, Opening, REQUEST_AND_REPLY};
use scenes::{Act, Scene, play};
use xh_channel::{Channels, Refused, Unsent};

/// A pair of other channels goes back there.
#[test]
fn a_cancelled_number_is_free_again(rt: HostRuntime) {
    play(&rt, rt.alloc(), 1, Scene::GoesBack);
    assert!(rt; matches!(Channels::new(rt.alloc(), 17).err(), Some(Refused::BadSize)));
}

#[test]
fn ends_use_their_own_rooms(rt: HostRuntime) {
    play(&rt, rt.alloc(), 2, Scene::OwnRooms(FREE));
    play(&rt, rt.alloc(), 2, Scene::OwnRooms(ONE_WAY));
}

#[test]
fn channels_run_out(rt: HostRuntime) {
    play(&rt, rt.alloc(), 1, Scene::AllOpen(FREE));
    play(&rt, rt.alloc(), 1, Scene::AllOpen(REQUEST_AND_REPLY));
}

/// The lowest opens of which no end is left, once each number was opened. One end keeps the number, of either side, and so does a
/// hold. A refused growth says so, and the same call then opens it.
#[test]
fn growths_of_channels_that_come_back(rt: HostRuntime) {
    const ROWS: &[Opening] = &[
        Keeps(0, 64),
        Nothing,
        Holds,
        Drops(123, 128),
        Keeps(62, 63),
        Nothing,
        LetsGo,
        Keeps(63, 64),
        Nothing,
        Drops(20, 21),
        Nothing,
        Drops(20, 21),
        Keeps(10, 11),
        Nothing,
        Drops(0, 4),
        Cancels(0),
        Cancels(0),
        Keeps(0, 2),
        Nothing,
        Drops(0, 128),
        Keeps(0, 64),
        Nothing,
    ];
    play(&rt, rt.alloc(), 1, Scene::Openings(ROWS));
}

/// One message is left and one end shut, and the channel that opens by this number has neither; nor who listened.
#[test]
fn a_channel_that_came_back_is_unused(rt: HostRuntime) {
    const ROWS: &[Row] = &[
        (1, Take, No(16)),
        (0, Take, No(16)),
        (0, Put(1, Some(7)), Sent(1)),
        (0, Put(1, Some(8)), Sent(2)),
        (0, Put(1, Some(9)), No(14)),
        (1, Take, Taken(1, 1, Some(7))),
        (1, Shut, Done),
        (0, Put(1, Some(9)), No(15)),
    ];
    for rows in [FREE, ONE_WAY] {
        play(&rt, rt.alloc(), 2, Scene::Again(rows, Act::Rows(ROWS), 128));
        play(&rt, rt.alloc(), 2, Scene::Again(rows, Act::Unheard, 128));
    }
}

#[test]
fn direction_until_shut(rt: HostRuntime) {
    const ROWS: &[Row] = &[
        (0, Put(5, None), Sent(1)),
        (0, Put(5, Some(7)), Sent(2)),
        (0, Put(5, Some(8)), No(14)),
        (0, Shut, Done),
        (1, Take, Taken(1, 5, None)),
        (1, Take, Taken(2, 5, Some(7))),
        (1, Take, No(15)),
        (1, Put(5, Some(9)), No(15)),
    ];
    play(&rt, rt.alloc(), 2, Scene::Each(FREE, Act::Rows(ROWS), 1));
}

#[test]
fn the_turn_rises_with_each_put_and_shut(rt: HostRuntime) {
    const ROWS: &[Row] = &[
        (0, Turn, Count(0)),
        (0, Put(5, Some(7)), Sent(1)),
        (1, Turn, Count(1)),
        (0, Put(5, Some(7)), No(14)),
        (1, Take, Taken(1, 5, Some(7))),
        (1, Take, No(16)),
        (1, Turn, Count(1)),
        (0, Shut, Done),
        (1, Turn, Count(2)),
        (0, Turn, Count(2)),
    ];
    play(&rt, rt.alloc(), 1, Scene::Each(FREE, Act::Rows(ROWS), 1));
}

/// With a growth refused, whichever it is, there are no channels; the same call then makes them, with their depth, and all of
/// them are free.
#[test]
fn a_refused_growth_leaves_nothing(rt: HostRuntime) {
    const ROWS: &[Row] = &[
        (0, Turn, Count(0)),
        (0, Put(5, Some(7)), Sent(1)),
        (0, Put(6, None), Sent(2)),
        (0, Put(7, Some(8)), No(14)),
        (1, Put(8, Some(9)), Sent(1)),
        (1, Take, Taken(1, 5, Some(7))),
        (1, Take, Taken(2, 6, None)),
        (1, Take, No(16)),
        (0, Take, Taken(1, 8, Some(9))),
    ];
    play(&rt, rt.alloc(), 2, Scene::Each(FREE, Act::Rows(ROWS), 1));
}

#[test]
fn contract_refusals(rt: HostRuntime) {
    const ROWS: &[Row] = &[
        (0, Put(2, Some(7)), No(22)),
        (1, Put(2, Some(7)), No(22)),
        (0, Put(1, Some(7)), Sent(1)),
        (0, Put(1, Some(7)), No(22)),
        (1, Put(1, Some(7)), No(22)),
        (1, Take, Taken(1, 1, Some(7))),
        (1, Put(2, Some(7)), Sent(1)),
        (0, Turn, Count(2)),
        (0, Take, Taken(1, 2, Some(7))),
        (0, Put(1, Some(7)), Sent(2)),
        (0, Shut, Done),
        (0, Turn, Count(4)),
        (1, Take, Taken(2, 1, Some(7))),
        (1, Take, No(15)),
        (1, Put(2, Some(7)), No(15)),
        (1, Put(1, Some(7)), No(22)),
    ];
    let act = Act::Rows(ROWS);
    play(&rt, rt.alloc(), 4, Scene::Each(REQUEST_AND_REPLY, act, 1));
}

/// The direction of side 0 is full, and has room again once one message was taken.
#[test]
fn a_channel_with_a_contract_is_full_at_its_depth(rt: HostRuntime) {
    const ONE: &[Row] = &[
        (0, Puts(64, Once), Count(1)),
        (0, Put(2, Some(7)), No(22)),
        (1, Take, Taken(1, 1, Some(1))),
        (0, Put(1, Some(7)), Sent(2)),
        (0, Put(1, Some(8)), No(14)),
        (1, Shut, Done),
        (0, Put(1, Some(8)), No(15)),
        (0, Put(2, Some(8)), No(22)),
    ];
    const SIXTEEN: &[Row] = &[
        (0, Puts(64, Once), Count(16)),
        (1, Take, Taken(1, 1, Some(1))),
        (0, Put(1, Some(7)), Sent(17)),
        (0, Put(1, Some(8)), No(14)),
    ];
    for (depth, rows) in [(1, ONE), (16, SIXTEEN)] {
        play(
            &rt,
            rt.alloc(),
            depth,
            Scene::Each(ONE_WAY, Act::Rows(rows), 1),
        );
    }
}

#[test]
fn each_refusal_has_its_text(rt: HostRuntime) {
    let back = ArrayVec::new();
    let closed = format!(in rt.alloc(); "{}", Refused::PeerClosed { back }).expect(&rt, "room");
    let full = format!(in rt.alloc(); "{}", Unsent::Full).expect(&rt, "room");
    assert_same(
        &rt,
        0,
        closed.as_str(),
        "no message waits, and the peer is shut",
    );
    assert_same(&rt, 1, full.as_str(), "the direction is full");
}
