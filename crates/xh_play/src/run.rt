//! The words, the way that they ask for, and what is written.
ghost use Rattle.std.specs.Prelude.{◌<◌, All, IfOk, length};

use crate::calls::play_calls;
use crate::held::Holds;
use std::alloc::Global;
use std::io::{Read, Write};
use std::sync::Wait;
use std::thread::Threads;
use xh_command_line::{DONE, Options, Program, read_options, report};
use xh_core::Config;
use xh_runner::{Report, run_threads};
use xh_script::{Fault, Script, Watched};
use xh_session::{read_input, write_report};

/// Faults are told as `xheap` tells them.
pub(crate) const NAME: &str = "xheap";

const PROGRAM: Program<'static> = Program {
    name: NAME,
    about: "Plays a script in the ways that xheap hasn't.",
    detail: "calls: by one worker of a kernel. held STEP STEP..: on threads, each first step held until the second.",
    serial: "Changes nothing",
    flight: "Writes what is in flight",
    closing: "",
};

// Plays the script on threads with these holds. A hold that was not kept is the fault Gate.
fn play_held<R: Threads + Wait + Sync>(
    rt: &R,
    alloc: Global,
    script: &Script,
    config: Config,
    words: &[String],
) -> Result<Report, Fault>
    ensures { IfOk result (λ r. All (λ line. line.place < length r.names.items) r.ledger.places.items) }
{
    let holds = Holds::read(alloc, words)?;
    let report = run_threads(rt, alloc, script, config, &holds)?;
    if holds.are_kept() {
        Ok(report)
    } else {
        Err(Fault::Gate)
    }
}

// Plays the script that the reader gives in the way of these words; another way is the fault Gate.
fn play<T: Threads + Wait + Sync, R: Read, W: Write>(
    rt: &T,
    alloc: Global,
    way: &[String],
    options: &Options,
    reader: &mut Watched<R>,
    out: &mut Watched<W>,
) -> Result<(), Fault> {
    let script = read_input(alloc, options.config, reader)?.script;
    let config = options.config;
    let (first, steps) = way.split_first().ok_or(Fault::Gate)?;
    let report = match first.as_str() {
        "calls" => play_calls(rt, alloc, &script, config)?,
        "held" => play_held(rt, alloc, &script, config, steps)?,
        _ => return Err(Fault::Gate),
    };
    write_report(out, &report, options.flight)
}

/// The program: its words (the first is its own name), its input and its outputs; the answer is its status.
pub(crate) fn run_main<T: Threads + Wait + Sync, R: Read, W: Write, E: Write>(
    rt: &T,
    alloc: Global,
    words: &[String],
    reader: &mut Watched<R>,
    out: &mut Watched<W>,
    err: &mut E,
) -> u8 {
    let first = words.iter().position(|word| word.starts_with("--"));
    let at = first.unwrap_or(words.len());
    let way = words.get(1..at).unwrap_or(&[]);
    let asked = words.get(at.saturating_sub(1)..).unwrap_or(&[]);
    match read_options(alloc, PROGRAM, asked, out, err) {
        Ok(options) => match play(rt, alloc, way, &options, reader, out) {
            Ok(()) => DONE,
            Err(fault) => report(NAME, fault, err),
        },
        Err(status) => status,
    }
}
