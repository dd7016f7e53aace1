//! The options, and what words say of them.
ghost use Rattle.std.specs.Prelude.{◌≡◌, IfErr, IfOk, MatchOption, map, string_bytes};
ghost use Rattle.clap.specs.Matches.{found_of};
ghost use Rattle.clap.specs.Values.{kind_of};
ghost use Rattle.clap.specs.Walk.{first_of, rows_of};
ghost use Rattle.xh_command_line.specs.Asked.{AskRun, HasLimits};
ghost use Rattle.xh_command_line.specs.Unasked.{IsUnasked};
ghost use Rattle.xh_command_line.specs.inner.Args.{HasParsed, IsExplained, ReadsNumber};
ghost use Rattle.xh_model.specs.declared.config.Config.{Config};
ghost use Rattle.xh_script.specs.Config.{IsScriptConfig};

use crate::command::{Program, command};
use crate::status::{DONE, WORDS, out_of_memory, told};
use clap::error::ErrorKind;
use clap::{ArgMatches, Error};
use itoa::Buffer;
use std::alloc::Global;
use std::io::Write;
use std::str::FromStr;
use xh_core::Config;
use xh_script::limits::is_in_script_limits;
use xh_script::{Watched, write_bytes};

/// What the words ask for: the limits, whether the commands are to be done one by one, and whether it is
/// to be written what is in flight.
#[derive(Drop)]
pub struct Options {
    pub config: Config,
    pub serial: bool,
    pub flight: bool,
}

/// What clap finds among the words. An error is clap's text, or want of memory.
fn parse<'a>(
    alloc: Global,
    program: Program<'a>,
    words: &'a [String],
) -> Result<ArgMatches<'a>, Error>
    ensures { HasParsed program.entry.name.now (map string_bytes words.now) result }
{
    command(alloc, program)?.try_get_matches_from(words)
}

/// The number that an option's text is, in digits, with no zero in front of others. Clap takes a `+` and
/// zeros too.
fn number<T: FromStr + itoa::Integer>(matches: &ArgMatches, name: &str) -> Option<T>
where
    T::Err: Drop,
    ensures { ReadsNumber T.from_str_gives T.text (first_of name.now (rows_of (found_of matches.now))) result }
{
    let text = matches.get_str(name)?;
    let number = text.parse().ok()?;
    let mut digits = Buffer::new();
    let is_written_so = digits.format(number) == text;
    is_written_so.then_some(number)
}

/// The limits among what was found.
fn limits(matches: &ArgMatches) -> Option<Config>
    ensures { let rows = rows_of (found_of matches.now) in
        MatchOption result ((c : Config) → IsScriptConfig c → HasLimits rows c → ⊥) (HasLimits rows) }
{
    Some(Config {
        arenas: number(matches, "arenas")?,
        bytes: number(matches, "bytes")?,
        records: number(matches, "records")?,
        depth: number(matches, "depth")?,
        wear: number(matches, "wear")?,
    })
}

/// Tells of the first number that is not in digits, as clap tells of a word that is no number.
fn misspelt<E: Write>(matches: &ArgMatches, err: &mut E) -> u8
    ensures { result ≡ WORDS }
{
    for (name, unit) in [
        ("arenas", "COUNT"),
        ("bytes", "BYTES"),
        ("records", "COUNT"),
        ("depth", "COUNT"),
        ("wear", "BYTES"),
    ] {
        if number::<u64>(matches, name).is_none() {
            let text = matches.get_str(name).unwrap_or("");
            let _ = writeln!(
                err,
                "error: invalid value '{text}' for '--{name} <{unit}>': invalid digit found in string\n\n\
                 For more information, try '--help'."
            );
            return WORDS;
        }
    }
    WORDS
}

/// Writes a text, as far as the writer takes it.
fn print<W: Write>(out: &mut Watched<W>, text: &[u8]) {
    if write_bytes(out, text).is_ok() {
        let _ = out.flush();
    }
}

/// Tells what is wrong with the words, and where a word is none of the command line where scripts come
/// from; or prints the help or the version that they ask for.
fn explain<W: Write, E: Write>(
    alloc: Global,
    program: Program<'_>,
    error: &Error,
    out: &mut Watched<W>,
    err: &mut E,
) -> u8
    ensures { IsExplained (kind_of error.now) out.old out.new result }
{
    match error.kind() {
        ErrorKind::OutOfMemory => out_of_memory(program.name, err),
        ErrorKind::DisplayHelp | ErrorKind::DisplayVersion => {
            let Ok(text) = format!(in alloc; "{error}") else {
                return out_of_memory(program.name, err);
            };
            print(out, text.as_bytes());
            DONE
        }
        kind => {
            let _ = write!(err, "{error}");
            if kind == ErrorKind::UnknownArgument {
                let _ = writeln!(
                    err,
                    "A script is read from standard input: {} < FILE",
                    program.name
                );
            }
            WORDS
        }
    }
}

/// What the words ask for; the first word is the program's own name. Where they ask for no run, `out` or
/// `err` is told what there is to say, and the error is the program's status. A fault of `err` is passed
/// over, and so is one of `out` while help or the version is printed.
///
/// Of the limits only numbers that are not in digits, and bytes that are no multiple of 16, are refused
/// here: clap refuses the others.
pub fn read_options<W: Write, E: Write>(
    alloc: Global,
    program: Program<'_>,
    words: &[String],
    out: &mut Watched<W>,
    err: &mut E,
) -> Result<Options, u8>
    ensures asked { IfOk result (λ options. AskRun program.entry.name.now (map string_bytes words.now) options × (out.new ≡ out.old)) }
    ensures unasked { IfErr result (λ status. IsUnasked program.entry.name.now (map string_bytes words.now) out.old out.new status) }
{
    let matches = match parse(alloc, program, words) {
        Ok(matches) => matches,
        Err(error) => return Err(explain(alloc, program, &error, out, err)),
    };
    let Some(config) = limits(&matches) else {
        return Err(misspelt(&matches, err));
    };
    if !is_in_script_limits(&config) {
        return Err(told(program.name, "--bytes must be a multiple of 16", WORDS, err));
    }
    Ok(Options {
        config,
        serial: matches.get_flag("serial"),
        flight: matches.get_flag("flight"),
    })
}
