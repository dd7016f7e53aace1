//! The command line, as clap has it.
ghost use Rattle.std.specs.Prelude.{◌≡◌, IfOk, codes, false};
ghost use Rattle.clap.specs.Simple.{app_of};
ghost use Rattle.clap.specs.Walk.{rule_of};
ghost use Rattle.xh_command_line.specs.Asked.{app, flag_rule, number_rule};
ghost use Rattle.xh_command_line.specs.inner.Args.{IsArg};
ghost use Rattle.xh_model.specs.declared.limits.TheConstants.{MAX_ARENAS, MAX_DEPTH, MAX_RECORDS, MAX_WEAR, UNIT};
ghost use Rattle.xh_script.specs.declared.limits.TheConstants.{MAX_ARENA_BYTES};

use clap::builder::ValueParser;
use clap::{Arg, ArgAction, Command};
use std::alloc::{AllocError, Global};
use xh_model::limits::{MAX_ARENAS, MAX_DEPTH, MAX_RECORDS, MAX_WEAR, UNIT};
use xh_script::limits::MAX_ARENA_BYTES;

const VERSION: &str = "1.0";

/// A program: its name, and what its help says of it, in a line and at length, of `--serial`, of `--flight`, and at the end.
#[derive(Clone, Copy)]
pub struct Program<'a> {
    pub name: &'a str,
    pub about: &'a str,
    pub detail: &'a str,
    pub serial: &'a str,
    pub flight: &'a str,
    pub closing: &'a str,
}

/// An option with a number from the least to the most, and the text of its default.
fn option<'a>(
    alloc: Global,
    name: &'a str,
    unit: &'a str,
    least: u64,
    most: u64,
    default: &'a str,
) -> Arg<'a>
    ensures { IsArg (number_rule name.entry.now least most default.entry.now) result }
{
    Arg::new(alloc, name)
        .long(name)
        .value_name(unit)
        .action(ArgAction::Set)
        .value_parser(ValueParser::unsigned(least, most))
        .default_value(default)
}

/// An option without a value.
fn flag<'a>(alloc: Global, name: &'a str, help: &'a str) -> Arg<'a>
    ensures { IsArg (flag_rule name.entry.now) result }
{
    Arg::new(alloc, name)
        .long(name)
        .action(ArgAction::SetTrue)
        .help(help)
}

fn arenas<'a>(alloc: Global) -> Arg<'a>
    ensures { IsArg (number_rule (codes "arenas") 1 MAX_ARENAS (codes "1")) result }
{
    option(alloc, "arenas", "COUNT", 1, u64::from(MAX_ARENAS), "1").help("Number of arenas, 1 to 8")
}

fn bytes<'a>(alloc: Global) -> Arg<'a>
    ensures { IsArg (number_rule (codes "bytes") UNIT MAX_ARENA_BYTES (codes "65536")) result }
{
    option(
        alloc,
        "bytes",
        "BYTES",
        u64::from(UNIT),
        u64::from(MAX_ARENA_BYTES),
        "65536",
    )
    .help("Size of each arena in bytes, a multiple of 16 from 16 to 1048576")
}

fn records<'a>(alloc: Global) -> Arg<'a>
    ensures { IsArg (number_rule (codes "records") 1 MAX_RECORDS (codes "256")) result }
{
    option(alloc, "records", "COUNT", 1, u64::from(MAX_RECORDS), "256").help(
        "Most blocks that an arena holds at once, 1 to 256",
    )
}

fn depth<'a>(alloc: Global) -> Arg<'a>
    ensures { IsArg (number_rule (codes "depth") 1 MAX_DEPTH (codes "4")) result }
{
    option(alloc, "depth", "COUNT", 1, u64::from(MAX_DEPTH), "4").help(
        "Most messages that wait in one direction of a channel, 1 to 16",
    )
}

fn wear<'a>(alloc: Global) -> Arg<'a>
    ensures { IsArg (number_rule (codes "wear") 0 MAX_WEAR (codes "9223372036854775807")) result }
{
    option(alloc, "wear", "BYTES", 0, MAX_WEAR, "9223372036854775807").help(
        "Most bytes that an arena ever hands out, 0 to 9223372036854775807",
    )
}

/// The command line of a program.
pub(crate) fn command<'a>(alloc: Global, program: Program<'a>) -> Result<Command<'a>, AllocError>
    ensures { IfOk result (λ c. app_of c ≡ app program.entry.name.now) }
{
    Command::new(alloc, program.name)
        .bin_name(program.name)?
        .version(VERSION)
        .about(program.about)
        .long_about(program.detail)
        .after_help(program.closing)
        .arg(flag(alloc, "serial", program.serial))?
        .arg(flag(alloc, "flight", program.flight))?
        .arg(arenas(alloc))?
        .arg(bytes(alloc))?
        .arg(records(alloc))?
        .arg(depth(alloc))?
        .arg(wear(alloc))
}
