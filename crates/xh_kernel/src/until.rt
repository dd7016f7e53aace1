//! Until when a call waits: a time that never comes, or a deadline.
ghost use Rattle.std.specs.Prelude.{◌≡◌, ◌<◌, Bool, false, true};
ghost use Rattle.xh_model.specs.declared.limits.TheConstants.{PLACES};

use std::sync::Wait;
use std::time::{Clock, Instant};
use xh_channel::{Channels, Spot};

/// A time until which a call looks again and again, and how it sleeps between two looks.
pub trait Until<R: Wait> {
    /// Whether it never comes.
    ghost never: { Bool };

    /// Whether it is past, or the clock can't be read.
    fn is_past(&self, rt: &R) -> bool
        ensures { never ≡ true → result ≡ false };

    /// Sleeps while the turn of the spot's channel is `seen`.
    fn sleep(&self, rt: &R, channels: &Channels, spot: Spot, seen: u64);

    /// Sleeps while the place's bell is `seen`.
    fn sleep_at(&self, rt: &R, channels: &Channels, place: u8, seen: u64)
        requires { place < PLACES };
}

/// A time that never comes.
pub struct Never;

impl<R: Wait> Until<R> for Never {
    ghost never = { true };

    fn is_past(&self, _rt: &R) -> bool {
        false
    }

    fn sleep(&self, rt: &R, channels: &Channels, spot: Spot, seen: u64) {
        channels.wait(rt, spot, seen);
    }

    fn sleep_at(&self, rt: &R, channels: &Channels, place: u8, seen: u64) {
        channels.wait_at(rt, place, seen);
    }
}

impl<R: Wait + Clock> Until<R> for Instant {
    ghost never = { false };

    fn is_past(&self, rt: &R) -> bool {
        !matches!(Instant::now(rt), Ok(now) if now < *self)
    }

    fn sleep(&self, rt: &R, channels: &Channels, spot: Spot, seen: u64) {
        channels.wait_until(rt, spot, seen, *self);
    }

    fn sleep_at(&self, rt: &R, channels: &Channels, place: u8, seen: u64) {
        channels.wait_at_until(rt, place, seen, *self);
    }
}
