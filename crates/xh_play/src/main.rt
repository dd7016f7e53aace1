//! Plays a script in the ways that `xheap` hasn't: all lines by the calls of one worker of a kernel, in their order; or on
//! threads, some of which wait in the middle of their calls for others.
//!
//!     xh_play calls [OPTION]..
//!     xh_play held [STEP STEP].. [OPTION]..
//!
//! The options, what is written, and the statuses are those of `xheap`. In each pair the first step waits for the second:
//! `1.0` is the first command of the process at place 1, `1.0.done` its answer, and `0.put` the point Put of place 0.
#![tactic(auto)]

mod calls;
mod held;
mod run;

use crate::run::{NAME, run_main};
use std::env;
use std::process::ExitCode;
use xh_command_line::{out_of_memory, unread_words};
use xh_script::Watched;

fn main(rt: HostRuntime) -> ExitCode {
    let alloc = rt.alloc();
    let mut input = Watched::new(rt.stdin());
    let mut out = Watched::new(rt.stdout());
    let mut err = rt.stderr();
    let arguments = match env::args(&rt) {
        Ok(arguments) => arguments,
        Err(error) => return ExitCode::from(unread_words(NAME, error.kind(), &mut err)),
    };
    let Ok(words) = arguments.collect::<Vec<String>>(alloc) else {
        return ExitCode::from(out_of_memory(NAME, &mut err));
    };
    ExitCode::from(run_main(&rt, alloc, &words, &mut input, &mut out, &mut err))
}
