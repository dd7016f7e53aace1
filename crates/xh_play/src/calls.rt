//! All lines of a script by the calls of one worker of a kernel.
ghost use Rattle.std.specs.Prelude.{◌≡◌, ◌<◌, All, IfOk, length, vec_len};
ghost use Rattle.xh_kernel.specs.Histories.{IsLaw};
ghost use Rattle.xh_model.specs.declared.limits.TheConstants.{PLACES};

use std::alloc::{AllocError, Global};
use std::marker::Brand;
use std::sync::Wait;
use xh_books::close_kernel;
use xh_core::Config;
use xh_kernel::{Account, Kernel, Look, Names, OpenGate, Parts};
use xh_runner::{Machine, Report, hire, leave_all};
use xh_script::{Fault, Name, NumberedReply, Script};
use xh_session::{Bindings, Session};

// The replies, and the name of the latest process of each place.
type RepliesAndNames = (Vec<NumberedReply>, Vec<Name>);

// Does the commands of all lines.
fn answer_all<M: Machine>(
    alloc: Global,
    session: &mut Session<'_, M>,
    script: &Script,
) -> Result<RepliesAndNames, AllocError>
    ensures { IfOk result (λ r. length r.1.items ≡ PLACES) }
{
    let mut answers = Vec::with_capacity(alloc, script.lines.len())?;
    for line in &script.lines {
        let reply = session.step(alloc, &line.command);
        answers.push(NumberedReply {
            line: line.number,
            reply,
        })?;
    }
    let names = session.names.processes.by_place(alloc, &script.processes)?;
    Ok((answers, names))
}

// Plays the script on a machine, which it leaves.
fn play_on<M: Machine>(
    alloc: Global,
    machine: M,
    script: &Script,
) -> Result<(RepliesAndNames, M), AllocError>
    ensures { IfOk result (λ played. length played.0.1.items ≡ PLACES) }
{
    let mut session = Session {
        machine,
        names: Bindings::new(alloc)?,
        contracts: &script.contracts,
    };
    let answered = answer_all(alloc, &mut session, script);
    let Session { machine, .. } = session;
    Ok((answered?, machine))
}

// Plays the script by the one worker of a kernel.
fn play_by_worker<N: Names, R: Wait>(
    rt: &R,
    alloc: Global,
    kernel: &Kernel<N>,
    accounts: Vec<Account<N>>,
    looks: Vec<Look>,
    script: &Script,
) -> Result<(RepliesAndNames, Vec<Account<N>>, Vec<Look>), AllocError>
    requires count { (vec_len accounts ≡ 1) × (vec_len looks ≡ 1) }
    requires own { All (λ l. l.table ≡ N.parts.histories) looks.items }
    ensures count { IfOk result (λ r. (vec_len r.1 ≡ 1) × (length r.0.1.items ≡ PLACES)) }
    ensures own { IfOk result (λ r. All (λ l. l.table ≡ N.parts.histories) r.2.items) }
{
    let mut workers = hire(rt, alloc, kernel, &OpenGate, accounts, looks)?;
    let (played, worker) = play_on(alloc, workers.remove(0), script)?;
    workers.push(worker)?;
    let (accounts, looks) = leave_all(alloc, workers)?;
    Ok((played, accounts, looks))
}

// Plays the script on a kernel of these parts.
fn play_parts<N: Names, R: Wait>(
    rt: &R,
    alloc: Global,
    parts: Parts,
    script: &Script,
) -> Result<Report, Fault>
    requires names { parts ≡ N.parts }
    requires law { IsLaw N.parts N.leads }
    requires workers { parts.workers ≡ 1 }
    ensures { IfOk result (λ r. All (λ line. line.place < length r.names.items) r.ledger.places.items) }
{
    let (kernel, accounts, looks) = match Kernel::<N>::new(alloc, parts) {
        Ok(made) => made,
        Err(_refused) => return Err(Fault::Memory),
    };
    let played = play_by_worker(rt, alloc, &kernel, accounts, looks, script);
    let ((answers, names), books) = close_kernel(alloc, kernel, played)?;
    Ok(Report {
        answers,
        ledger: books.ledger,
        flight: books.flight,
        names,
    })
}

/// Plays a script by the calls of the one worker of a new kernel. A line that waits for what no line before it sent
/// doesn't end.
pub(crate) fn play_calls<R: Wait>(
    rt: &R,
    alloc: Global,
    script: &Script,
    config: Config,
) -> Result<Report, Fault>
    ensures { IfOk result (λ r. All (λ line. line.place < length r.names.items) r.ledger.places.items) }
{
    match Parts::new(alloc, config, 1) {
        Ok(parts) => play_parts::<Brand, R>(rt, alloc, parts, script),
        Err(_refused) => Err(Fault::Memory),
    }
}
