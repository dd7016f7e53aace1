//! The benchmark: what calls of a process cost, and what their parts cost, or what a user would take instead.
//!
//! `xh_bench all|MEASURE ROUNDS [beside]` does so many steps of each measure that the word names, or of what stands beside it. It
//! prints a line with tabs: the measure's name, how many threads do it, the most that a step may take in hundredths of one of what
//! stands beside it, and that, piece by piece, how often, what, and of how many bytes or 0; and as an error the picoseconds of a
//! step. docs/PERFORMANCE.md tells of the measures.
#![tactic(auto)]

mod bench;
mod calls;
mod library;
mod pieces;
mod rows;

use crate::bench::{Bench, Order, config};
use crate::rows::{ROWS, Row};
use std::alloc::Global;
use std::env;
use std::process::ExitCode;
use std::sync::Wait;
use std::thread::Threads;
use std::time::Clock;
use xh_heap::run;

/// What measures run on.
trait Runtime: Threads + Wait + Clock + Sync + Print + Eprint {}

impl<R: Threads + Wait + Clock + Sync + Print + Eprint> Runtime for R {}

// Tells a measure.
fn tell<R: Runtime>(rt: &R, alloc: Global, row: Row, order: Order) -> Option<()> {
    let (name, threads, _, limit, beside) = row;
    let bench = Bench { alloc, row, order };
    let closed = run(rt, alloc, config(), threads, &bench).ok()?;
    let time = closed.answers.first().copied()??;
    print!(rt; "{name}\t{threads}\t{limit}").ok()?;
    for (times, piece) in beside {
        print!(rt; "\t{times} {piece}").ok()?;
    }
    println!(rt;).ok()?;
    eprintln!(rt; "{time}").ok()
}

// Tells the measures that the word names. None where there is none, or one was refused.
fn tell_all<R: Runtime>(rt: &R, alloc: Global, word: &str, order: Order) -> Option<()> {
    let mut told = None;
    for row in ROWS {
        if word == "all" || word == row.0 {
            told = Some(tell(rt, alloc, *row, order)?);
        }
    }
    told
}

fn main(rt: HostRuntime) -> ExitCode {
    let Some(words) = env::args(&rt).ok() else {
        return ExitCode::FAILURE;
    };
    let mut words = words.skip(1);
    let word = words.next().unwrap_or_else(|| String::new(rt.alloc()));
    let rounds = words.next().and_then(|word| word.parse::<u64>().ok());
    let order = (words.next().is_none(), rounds.unwrap_or(0));
    if tell_all(&rt, rt.alloc(), &word, order).is_some() {
        return ExitCode::SUCCESS;
    }
    let _ = eprintln!(rt; "xh_bench: {word}: no measure, or something was refused");
    ExitCode::FAILURE
}
