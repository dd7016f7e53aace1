//! A script from its bytes to its replies and its ledger, on the serial machine.
ghost use Rattle.std.specs.Prelude.{◌≡◌, ◌+◌, ◌<◌, Bool, false, length, IfOk, IfErr, OnOk, Err};
ghost use Rattle.std.specs.List.{All};
ghost use Rattle.xh_model.specs.declared.limits.TheConstants.{PLACES};
ghost use Rattle.xh_script.specs.Config.{IsScriptConfig};
ghost use Rattle.xh_script.specs.declared.limits.TheConstants.{MAX_SCRIPT};
ghost use Rattle.xh_script.specs.Scripts.{listing_of};
ghost use Rattle.xh_session.specs.Ends.{Done, Stopped};
ghost use Rattle.xh_session.specs.Output.{IsMeaning, IsWrittenOut, told_text};
ghost use Rattle.xh_session.specs.Reading.{ReadsAtMost};

use crate::input::read_input;
use crate::report::{Report, write_report};
use crate::stage::Stage;
use std::alloc::Global;
use std::io::{Read, Write};
use xh_core::Config;
use xh_script::{Fault, Script, Watched};

// Runs a script on a new machine.
#[tactic(auto, unfolding(crate::specs::Output::meaning))]
fn report_of(alloc: Global, config: Config, script: &Script) -> Result<Report, Fault>
    requires { IsScriptConfig config }
    ensures told { IfOk result (λ r. (flight : Bool) → IsWrittenOut flight config (listing_of script.now) (told_text flight r)) }
    ensures places { IfOk result (λ r. (length r.names.items ≡ PLACES) × All (λ line. line.place < PLACES) r.ledger.places.items) }
    ensures memory { IfErr result (λ e. e ≡ Fault.Memory) }
{
    let mut stage = Stage::new(alloc, config, &script.contracts)?;
    let report = stage.report(alloc, script);
    drop(stage);
    Ok(report?)
}

/// What a run goes by: the limits of its machine, and whether what is in flight at its end is written
/// after the ledger.
#[derive(Clone, Copy)]
pub struct RunOptions {
    pub config: Config,
    pub flight: bool,
}

/// As `run_serial`, and with what is in flight, where the run is to tell it.
pub fn run_serial_as<R: Read, W: Write>(
    alloc: Global,
    reader: &mut Watched<R>,
    writer: &mut Watched<W>,
    run: RunOptions,
) -> Result<(), Fault>
    ensures ok { OnOk result (Done R.remaining W.contents (IsWrittenOut run.flight run.config) reader.old reader.new writer.old writer.new) }
    ensures err { IfErr result (Stopped R.remaining W.contents (IsWrittenOut run.flight run.config) run.config reader.old reader.new writer.old writer.new) }
    ensures config { ¬ IsScriptConfig run.config → result ≡ Err Fault.BadConfig }
    ensures limit { ReadsAtMost R.remaining (MAX_SCRIPT + 1) reader.old reader.new }
{
    let input = read_input(alloc, run.config, reader)?;
    let report = report_of(alloc, run.config, &input.script)?;
    write_report(writer, &report, run.flight)
}

/// Runs the script that a reader gives to its end, and writes its replies and its ledger.
///
/// The faults of reading are those of `read_input`. But for Write, a fault leaves nothing written.
pub fn run_serial<R: Read, W: Write>(
    alloc: Global,
    reader: &mut Watched<R>,
    writer: &mut Watched<W>,
    config: Config,
) -> Result<(), Fault>
    ensures ok { OnOk result (Done R.remaining W.contents (IsMeaning config) reader.old reader.new writer.old writer.new) }
    ensures err { IfErr result (Stopped R.remaining W.contents (IsMeaning config) config reader.old reader.new writer.old writer.new) }
    ensures config { ¬ IsScriptConfig config → result ≡ Err Fault.BadConfig }
    ensures limit { ReadsAtMost R.remaining (MAX_SCRIPT + 1) reader.old reader.new }
{
    let run = RunOptions {
        config,
        flight: false,
    };
    run_serial_as(alloc, reader, writer, run)
}
