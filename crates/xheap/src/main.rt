//! The program `xheap`: a script on standard input, its replies and its ledger on standard output.
#![tactic(auto)]

mod run;

use crate::run::{NAME, run_main};
use std::env;
use std::io::BufWriter;
use std::process::ExitCode;
use xh_command_line::{out_of_memory, unread_words};
use xh_script::Watched;

fn main(rt: HostRuntime) -> ExitCode {
    let alloc = rt.alloc();
    let mut input = Watched::new(rt.stdin());
    let mut err = rt.stderr();
    let arguments = match env::args(&rt) {
        Ok(arguments) => arguments,
        Err(error) => return ExitCode::from(unread_words(NAME, error.kind(), &mut err)),
    };
    let Ok(words) = arguments.collect::<Vec<String>>(alloc) else {
        return ExitCode::from(out_of_memory(NAME, &mut err));
    };
    let Ok(buffer) = BufWriter::new(alloc, rt.stdout()) else {
        return ExitCode::from(out_of_memory(NAME, &mut err));
    };
    let mut out = Watched::new(buffer);
    ExitCode::from(run_main(&rt, alloc, &words, &mut input, &mut out, &mut err))
}
