//! Waits until a deadline, at a turn and at the bell of a place, and what rings no bell.
use super::calls::EndCall::{Put, Take};
use super::calls::{Ends, assert_same, by_end};
use super::opening::FREE;
use super::scenes::{Act, Scene, play};
use std::process::Abort;
use std::sync::Wait;
use std::time::{Clock, Duration, Instant};
use xh_channel::{Channels, Spot};

// The time after so many milliseconds, where the clock can be read.
fn after<R: Clock>(rt: &R, millis: u64) -> Option<Instant> {
    let now = Instant::now(rt).ok()?;
    now.checked_add(Duration::from_millis(millis))
}

const SECOND: Spot = Spot {
    channel: 1,
    side: 0,
};

/// A wait returns once its time is past, at once where it was, and before where it is woken. A turn that was not seen is not
/// waited for, nor a bell.
pub(super) fn assert_deadlines<R: Clock + Wait + Abort>(
    rt: &R,
    channels: &Channels,
    ends: &mut Ends,
) {
    let spot = ends.low.spot();
    channels.listen(rt, spot, 31);
    for millis in [0, 20] {
        let soon = after(rt, millis).expect(rt, "a clock");
        channels.wait_until(rt, spot, 0, soon);
        assert!(rt; after(rt, 0) >= Some(soon));
        let later = after(rt, millis).expect(rt, "a clock");
        channels.wait_at_until(rt, 31, 0, later);
        assert!(rt; after(rt, 0) >= Some(later));
    }
    let never = after(rt, 3_600_000).expect(rt, "a clock");
    channels.rouse(rt, spot);
    channels.wait_until(rt, spot, 0, never);
    channels.wait_at_until(rt, 31, 0, never);
    channels.wait(rt, spot, u64::MAX);
    channels.wait(rt, SECOND, 1);
    channels.wait_at(rt, 30, 1);
    let seen = (channels.turn(rt, spot), channels.bell(rt, 31));
    assert_same(rt, 0, seen, (1, 1));
}

/// Who listened or waited for room at the channel before isn't rung by what is put and taken there now. It does both then.
pub(super) fn assert_unheard<R: Clock + Wait + Abort>(
    rt: &R,
    channels: &Channels,
    ends: &mut Ends,
) {
    let heard = channels.bell(rt, 31);
    let _sent = by_end(rt, channels, &mut ends.low, Put(1, None));
    let _taken = by_end(rt, channels, &mut ends.high, Take);
    assert_same(rt, 0, channels.bell(rt, 31), heard);
    channels.listen(rt, ends.low.spot(), 31);
    channels.listen(rt, ends.high.spot(), 31);
    channels.await_room(rt, ends.low.spot(), 31);
}

#[test]
fn waits_end_at_their_deadlines(rt: HostRuntime) {
    play(&rt, rt.alloc(), 1, Scene::Each(FREE, Act::Deadlines, 1));
}
