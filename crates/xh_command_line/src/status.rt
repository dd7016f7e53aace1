//! How a run ends: a status, and where it did not reach its end, a line on standard error.
ghost use Rattle.std.specs.Prelude.{◌≡◌, ◌≢◌};
ghost use Rattle.xh_command_line.specs.Status.{exit_status};

use std::io::{ErrorKind, Write};
use xh_script::Fault;

/// The status of a run to the end.
pub const DONE: u8 = 0;
/// A fault of the script.
pub const SCRIPT: u8 = 1;
/// A fault of the command line.
pub const WORDS: u8 = 2;
/// Memory was refused.
pub const MEMORY: u8 = 3;
/// Reading or writing failed.
pub const STREAM: u8 = 4;
/// A fault that no run of a program meets.
pub const INTERNAL: u8 = 5;

/// Reports with a line of text after the program's name, and gives a status. A fault of `err` is passed over.
pub(crate) fn told<E: Write>(program: &str, text: &str, status: u8, err: &mut E) -> u8
    ensures { result ≡ status }
{
    let _ = writeln!(err, "{program}: {text}");
    status
}

/// Reports want of memory.
pub fn out_of_memory<E: Write>(program: &str, err: &mut E) -> u8
    ensures { result ≡ MEMORY }
{
    report(program, Fault::Memory, err)
}

/// Reports that the words of the command line cannot be read: a word that is no UTF-8 is a fault of
/// the command line, unless memory was refused.
pub fn unread_words<E: Write>(program: &str, kind: ErrorKind, err: &mut E) -> u8
    ensures memory { kind ≡ ErrorKind.OutOfMemory → result ≡ MEMORY }
    ensures words { kind ≢ ErrorKind.OutOfMemory → result ≡ WORDS }
{
    if kind == ErrorKind::OutOfMemory {
        return out_of_memory(program, err);
    }
    told(
        program,
        "a word of the command line is not UTF-8",
        WORDS,
        err,
    )
}

/// Reports a fault, in the words that it has itself. A fault of `err` is passed over.
pub fn report<E: Write>(program: &str, fault: Fault, err: &mut E) -> u8
    ensures { result ≡ exit_status fault }
{
    let _ = writeln!(err, "{program}: {fault}");
    match fault {
        Fault::Script { line: _, kind: _ } => SCRIPT,
        Fault::Memory => MEMORY,
        Fault::Read | Fault::Write => STREAM,
        Fault::Gate | Fault::BadConfig => INTERNAL,
    }
}
