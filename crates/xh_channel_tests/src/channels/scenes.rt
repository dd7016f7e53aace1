//! What is done on new channels. One function makes and drops them, and one the ends that are used.
use super::bells::{assert_deadlines, assert_unheard};
use super::calls::{Ends, Row as EndRow, assert_rows};
use super::opening::{
    Opening, assert_all_open, assert_goes_back, assert_openings, assert_own_room, opened,
};
use super::threads::{assert_each_alone, assert_put_and_shut, assert_side_by_side};
use std::alloc::Global;
use std::process::Abort;
use std::sync::Wait;
use std::thread::Threads;
use std::time::Clock;
use xh_channel::{Channels, Refused};
use xh_model::Row;

/// What is done at both ends of a channel that nobody else uses: rows, one after the other; rows, the ends on two threads, while
/// a third sleeps at the turn until it has risen so often; a put that races a shut; waits
/// until a time; what nobody hears who heard the channel before.
#[derive(Clone, Copy)]
pub(super) enum Act {
    Rows(&'static [EndRow]),
    SideBySide(u64, &'static [EndRow]),
    PutAndShut,
    Deadlines,
    Unheard,
}

/// What is done on new channels: an act on so many of them, one after the other, or what opens ends by itself. The channels
/// go by the contract of the rows, or by none. `Again` is `Each`, and this, `EachAlone` and `Openings` are where numbers come back.
#[derive(Clone, Copy)]
pub(super) enum Scene {
    Each(&'static [Row], Act, u8),
    AllOpen(&'static [Row]),
    GoesBack,
    OwnRooms(&'static [Row]),
    Again(&'static [Row], Act, u8),
    EachAlone(u16),
    Openings(&'static [Opening]),
}

fn act_at<R: Clock + Threads + Wait + Abort + Sync>(
    rt: &R,
    channels: &Channels,
    ends: &mut Ends,
    act: Act,
) {
    match act {
        Act::Rows(rows) => assert_rows(rt, channels, ends, rows),
        Act::SideBySide(risen, rows) => assert_side_by_side(rt, channels, ends, risen, rows),
        Act::PutAndShut => assert_put_and_shut(rt, channels, ends),
        Act::Deadlines => assert_deadlines(rt, channels, ends),
        Act::Unheard => assert_unheard(rt, channels, ends),
    }
}

fn act_on_next<R: Clock + Threads + Wait + Abort + Sync>(
    rt: &R,
    channels: &Channels,
    rows: &[Row],
    act: Act,
) {
    match opened(rt, channels, rows) {
        Some(mut ends) => {
            act_at(rt, channels, &mut ends, act);
            drop(ends);
        }
        None => panic!(rt; "a channel is free"),
    }
}

fn act_on_each<R: Clock + Threads + Wait + Abort + Sync>(
    rt: &R,
    channels: &Channels,
    rows: &[Row],
    act: Act,
    count: u8,
) {
    for _ in 0..count {
        act_on_next(rt, channels, rows, act);
    }
}

fn play_on<R: Clock + Threads + Wait + Abort + Sync>(
    rt: &R,
    channels: &Channels,
    others: &Channels,
    scene: Scene,
) {
    match scene {
        Scene::Each(rows, act, count) => act_on_each(rt, channels, rows, act, count),
        Scene::AllOpen(rows) => assert_all_open(rt, channels, rows),
        Scene::GoesBack => assert_goes_back(rt, channels, others),
        Scene::OwnRooms(rows) => assert_own_room(rt, channels, others, rows),
        Scene::Again(rows, act, count) => act_on_each(rt, others, rows, act, count),
        Scene::EachAlone(count) => assert_each_alone(rt, others, count),
        Scene::Openings(rows) => assert_openings(rt, others, rows),
    }
}

// The channels that the call makes, or where a growth was refused, the same call made again.
fn grown(alloc: Global, depth: u8) -> Result<Channels, Refused> {
    match Channels::new(alloc, depth) {
        Err(Refused::OutOfMemory) => Channels::new(alloc, depth),
        made => made,
    }
}

// As those, but their numbers come back.
fn grown_again(alloc: Global, depth: u8) -> Result<Channels, Refused> {
    let channels = grown(alloc, depth)?;
    Ok(channels.coming_back(alloc))
}

/// Plays the scene on new channels of a depth, beside others, whose numbers come back. Where a growth is refused the same call
/// is made again.
pub(super) fn play<R: Clock + Threads + Wait + Abort + Sync>(
    rt: &R,
    alloc: Global,
    depth: u8,
    scene: Scene,
) {
    let (channels, others) = (grown(alloc, depth), grown_again(alloc, depth));
    match (&channels, &others) {
        (Ok(channels), Ok(others)) => play_on(rt, channels, others, scene),
        _ => panic!(rt; "a growth is refused"),
    }
    drop(channels);
    drop(others);
}
