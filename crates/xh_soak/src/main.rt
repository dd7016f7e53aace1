//! Rounds of a user's program on the heap, which does at random, by a seed, all that such a program can do.
//!
//! `xh_soak SEED ROUNDS` plays so many rounds, the first by this seed and each by the next one. The first that goes wrong is the
//! last, and the status is 1; one that doesn't end is wrong too. With a third word, `scarce`, a growth of memory may be refused. At
//! last it tells how often each call was answered Ok; where 20 rounds or more have left one out, that is wrong.
#![tactic(auto)]

mod actor;
mod round;

use crate::round::{CALLS, Round};
use std::env;
use std::process::ExitCode;
use std::sync::atomic::Ordering::SeqCst;

fn main(rt: HostRuntime) -> ExitCode {
    let Ok(mut words) = env::args(&rt).map(|words| words.skip(1)) else {
        return ExitCode::from(3);
    };
    let mut number = || words.next()?.parse::<u64>().ok();
    let (Some(first), Some(rounds)) = (number(), number()) else {
        let _ = eprintln!(rt; "usage: xh_soak SEED ROUNDS [scarce]");
        return ExitCode::from(2);
    };
    let is_scarce = words.next().is_some();
    let mut round = Round::new(rt.alloc(), is_scarce);
    for seed in first..first.saturating_add(rounds) {
        let wrong = round
            .play(&rt, seed)
            .unwrap_or_else(|refused| refused.name());
        if !wrong.is_empty() && !(is_scarce && wrong == "OutOfMemory") {
            let _ = eprintln!(rt; "xh_soak: seed {seed}: {wrong}");
            return ExitCode::FAILURE;
        }
    }
    let mut is_short = false;
    for (call, count) in CALLS.split(' ').zip(round.answered.iter()) {
        let count = count.load(SeqCst);
        is_short |= count == 0;
        let _ = eprintln!(rt; "{call} {count}");
    }
    ExitCode::from(u8::from(rounds >= 20 && is_short && !is_scarce))
}
