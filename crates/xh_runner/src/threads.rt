//! A run of a script on threads, over a kernel that is made, used and settled here; and from bytes to bytes.
ghost use Rattle.std.specs.Prelude.{◌≡◌, ◌+◌, ◌⊎◌, All, Err, IfErr, IfOk, OnOk, false, vec_len};
ghost use Rattle.xh_calls.specs.Parts.{AreMadeBy};
ghost use Rattle.xh_runner.specs.Plays.{MayStop};
ghost use Rattle.xh_history.specs.Histories.{fresh_look};
ghost use Rattle.xh_kernel.specs.Accounts.{AreFresh};
ghost use Rattle.xh_kernel.specs.Histories.{IsLaw};
ghost use Rattle.xh_model.specs.declared.limits.TheConstants.{MAX_WORKERS, USUAL_GENERATIONS};
ghost use Rattle.xh_runner.specs.Runs.{AnswersScript, HasPlayed, HasRun, IsLedgerOf, IsReportTold, RanOn};
ghost use Rattle.xh_script.specs.Config.{IsScriptConfig};
ghost use Rattle.xh_script.specs.Scripts.{listing_of};
ghost use Rattle.xh_script.specs.declared.limits.TheConstants.{MAX_SCRIPT};
ghost use Rattle.xh_session.specs.Ends.{Done, Stopped};
ghost use Rattle.xh_session.specs.Reading.{ReadsAtMost};

use crate::run::{Played, run_on};
use crate::worker::{hire, leave_all};
use std::alloc::Global;
use std::io::{Read, Write};
use std::marker::Brand;
use std::sync::Wait;
use std::thread::Threads;
use xh_books::close_kernel;
use xh_core::Config;
use xh_kernel::{Account, Kernel, Look, Names, Parts};
use xh_model::limits::MAX_WORKERS;
use xh_place::{Gate, OpenGate};
use xh_script::limits::is_in_script_limits;
use xh_script::{Fault, Script, Watched};
use xh_session::{Report, RunOptions, read_input, write_report};

// Runs a script with a worker for each account: what was played, and what the workers had of their own.
fn run_script<N: Names + Send + Sync, R: Threads + Wait + Sync, G: Gate + Sync>(
    rt: &R,
    alloc: Global,
    kernel: &Kernel<N>,
    accounts: Vec<Account<N>>,
    looks: Vec<Look>,
    script: &Script,
    gate: &G,
) -> Result<(Played, Vec<Account<N>>, Vec<Look>), Fault>
    requires accounts { (vec_len accounts ≡ MAX_WORKERS) × AreFresh N.parts accounts.items }
    requires looks { (vec_len looks ≡ MAX_WORKERS) × All (λ l. l ≡ fresh_look N.parts.histories) looks.items }
    ensures played { IfOk result (λ r. HasPlayed N.parts N.leads (listing_of script.now) r.0.0.items r.1.items r.2.items) }
    ensures answers { IfOk result (λ r. AnswersScript (listing_of script.now) r.0.0.items r.0.1.items) }
    ensures count { IfOk result (λ r. vec_len r.1 ≡ MAX_WORKERS) }
    ensures own { IfOk result (λ r. All (λ l. l.table ≡ N.parts.histories) r.2.items) }
    ensures stopped { IfErr result (MayStop G.always) }
{
    let workers = hire(rt, alloc, kernel, gate, accounts, looks)?;
    let (machines, played) = run_on(rt, alloc, workers, script, gate)?;
    let (accounts, looks) = leave_all(alloc, machines)?;
    Ok((played, accounts, looks))
}

// Runs a script over a kernel that is made of the parts, settles it and closes its books.
fn run_named<N: Names + Send + Sync, R: Threads + Wait + Sync, G: Gate + Sync>(
    rt: &R,
    alloc: Global,
    config: Config,
    parts: Parts,
    script: &Script,
    gate: &G,
) -> Result<Report, Fault>
    requires names { parts ≡ N.parts }
    requires made { AreMadeBy config MAX_WORKERS USUAL_GENERATIONS parts }
    requires once { parts.comes_back ≡ false }
    requires law { IsLaw N.parts N.leads }
    ensures run { IfOk result (RanOn N.parts N.leads config (listing_of script.now)) }
    ensures answers { IfOk result (λ r. AnswersScript (listing_of script.now) r.answers.items r.names.items) }
    ensures ledger { IfOk result (λ r. IsLedgerOf config r.ledger r.flight.items) }
    ensures stopped { IfErr result (MayStop G.always) }
{
    let (kernel, accounts, looks) = match Kernel::<N>::new(alloc, parts) {
        Ok(made) => made,
        Err(_refused) => return Err(Fault::Memory),
    };
    let played = run_script(rt, alloc, &kernel, accounts, looks, script, gate);
    let ((answers, names), books) = close_kernel(alloc, kernel, played)?;
    Ok(Report {
        answers,
        ledger: books.ledger,
        flight: books.flight,
        names,
    })
}

/// Runs a script on threads: the head lines in order, and then the commands of each process that has a
/// place in a thread of its own; once all are joined, the commands of processes without a place are answered,
/// the kernel is settled, and its books are closed.
///
/// BadConfig where the config is outside its limits; Memory where a growth outside the commands was
/// refused, or a thread; Gate where the gate stopped a worker. A command that a growth was refused to has
/// the reply OutOfMemory, and the run goes on. A script whose workers wait for messages that nobody gives
/// doesn't end.
pub fn run_threads<R: Threads + Wait + Sync, G: Gate + Sync>(
    rt: &R,
    alloc: Global,
    script: &Script,
    config: Config,
    gate: &G,
) -> Result<Report, Fault>
    ensures run { IfOk result (HasRun config (listing_of script.now)) }
    ensures answers { IfOk result (λ r. AnswersScript (listing_of script.now) r.answers.items r.names.items) }
    ensures ledger { IfOk result (λ r. IsLedgerOf config r.ledger r.flight.items) }
    ensures config { ¬ IsScriptConfig config → result ≡ Err Fault.BadConfig }
    ensures refused { IfErr result (λ e. ((e ≡ Fault.BadConfig) × ¬ IsScriptConfig config) ⊎ MayStop G.always e) }
{
    if !is_in_script_limits(&config) {
        return Err(Fault::BadConfig);
    }
    match Parts::new(alloc, config, MAX_WORKERS) {
        Ok(parts) => run_named::<Brand, R, G>(rt, alloc, config, parts, script, gate),
        Err(_refused) => Err(Fault::Memory),
    }
}

/// As `run_serial_as`, on threads: each process that has a place does its commands in a thread of its own.
///
/// The faults of reading are those of `read_input`; Memory comes where a growth outside the commands was refused, or a
/// thread. But for Write, a fault leaves nothing written.
#[tactic(auto, using(xh_session::proofs::Ends::memory_stops, xh_session::proofs::Ends::unread_stops, xh_session::proofs::Ends::wrote_all, xh_session::proofs::Ends::wrote_part))]
pub fn run_parallel<T: Threads + Wait + Sync, R: Read, W: Write>(
    rt: &T,
    alloc: Global,
    reader: &mut Watched<R>,
    writer: &mut Watched<W>,
    run: RunOptions,
) -> Result<(), Fault>
    ensures ok { OnOk result (Done R.remaining W.contents (IsReportTold run.flight run.config) reader.old reader.new writer.old writer.new) }
    ensures err { IfErr result (Stopped R.remaining W.contents (IsReportTold run.flight run.config) run.config reader.old reader.new writer.old writer.new) }
    ensures config { ¬ IsScriptConfig run.config → result ≡ Err Fault.BadConfig }
    ensures limit { ReadsAtMost R.remaining (MAX_SCRIPT + 1) reader.old reader.new }
{
    let input = read_input(alloc, run.config, reader)?;
    let report = run_threads(rt, alloc, &input.script, run.config, &OpenGate)?;
    write_report(writer, &report, run.flight)
}
