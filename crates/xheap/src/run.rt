//! The whole program, over any reader and writers.
ghost use Rattle.std.specs.Prelude.{codes, map, string_bytes};
ghost use Rattle.xheap.specs.Status.{EndedRun, RanBy};

use std::alloc::Global;
use std::io::{Read, Write};
use std::sync::Wait;
use std::thread::Threads;
use xh_command_line::{DONE, Options, Program, read_options, report};
use xh_runner::{RunOptions, run_parallel, run_serial_as};
use xh_script::Watched;

/// The program's name.
pub(crate) const NAME: &str = "xheap";

const PROGRAM: Program<'static> = Program {
    name: NAME,
    about: "Runs a script of processes that pass blocks of memory to each other.",
    detail: "Reads a script from standard input, does its commands on an exchange heap, and writes one reply \
a command and then the ledger: what each arena holds, what each process owns, and what is in flight.",
    serial: "Does the commands one by one in the order of the script, without threads",
    flight: "Writes after the ledger a line for each direction of a channel that holds blocks: its number, how many \
blocks, and how many bytes they have",
    closing: "Example: printf 'process a\\na alloc x 40 0\\n' | xheap --serial --bytes 256\n\
Status: 0 done, 1 a fault of the script, 2 a fault of the command line, 3 out of memory, 4 reading or writing failed.",
};

/// Runs the script that the reader gives, as the options ask.
fn run<T: Threads + Wait + Sync, R: Read, W: Write, E: Write>(
    rt: &T,
    alloc: Global,
    options: Options,
    reader: &mut Watched<R>,
    out: &mut Watched<W>,
    err: &mut E,
) -> u8
    ensures { RanBy R.remaining W.contents options.serial options.flight options.config reader.old reader.new out.old out.new result }
{
    let run = RunOptions {
        config: options.config,
        flight: options.flight,
    };
    let ended = if options.serial {
        run_serial_as(alloc, reader, out, run)
    } else {
        run_parallel(rt, alloc, reader, out, run)
    };
    match ended {
        Ok(()) => DONE,
        Err(fault) => report(NAME, fault, err),
    }
}

/// The program: its words (the first is its own name), its input and its outputs; the answer is its
/// status. A fault of `err` is passed over, and so is one of `out` while help or the version is printed.
pub(crate) fn run_main<T: Threads + Wait + Sync, R: Read, W: Write, E: Write>(
    rt: &T,
    alloc: Global,
    words: &[String],
    reader: &mut Watched<R>,
    out: &mut Watched<W>,
    err: &mut E,
) -> u8
    ensures { EndedRun R.remaining W.contents (codes "xheap") (map string_bytes words.now) reader.old reader.new out.old out.new result }
{
    match read_options(alloc, PROGRAM, words, out, err) {
        Ok(options) => run(rt, alloc, options, reader, out, err),
        Err(status) => status,
    }
}
