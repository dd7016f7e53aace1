//! The run itself: the head, the workers, and what they leave.
ghost use Rattle.std.specs.Prelude.{◌≡◌, IfErr, IfOk, length, vec_len};
ghost use Rattle.xh_model.specs.declared.limits.TheConstants.{MAX_WORKERS, PLACES};
ghost use Rattle.xh_runner.specs.Plays.{AreAnswersTo, DoesLine, HasNames, MayStop, Plays, part};
ghost use Rattle.xh_runner.specs.inner.Tasks.{AllPlay, PlayScript};
ghost use Rattle.xh_session.specs.Bindings.{no_bindings};
ghost use Rattle.xh_session.specs.Plans.{world_of};

use crate::crew::work;
use crate::play::part_of;
use crate::replies::{answers_of, latest, parts_of};
use std::alloc::{AllocError, Global};
use std::sync::Wait;
use std::thread::Threads;
use xh_model::limits::{MAX_WORKERS, PLACES};
use xh_place::Gate;
use xh_script::{Fault, Line, Name, NumberedReply, Reply, Script};
use xh_session::{Bindings, Machine, Processes, Session};

/// The replies, and the name of the latest process of each place.
pub(crate) type Played = (Vec<NumberedReply>, Vec<Name>);

// Does the lines of a part in order.
#[tactic(auto, using(crate::proofs::Plays::plays_own, crate::proofs::Plays::plays_other))]
fn run_part<'a, M: Machine>(
    alloc: Global,
    head: &mut Session<'a, M>,
    processes: &Processes,
    lines: &[Line],
    number: u8,
) -> Result<Vec<Reply>, AllocError>
    ensures { IfOk result (λ r. Plays (DoesLine M.did) (world_of M.state head.old) (part processes.now number lines.now) r.items (world_of M.state head.new)) }
{
    let mut replies = Vec::with_capacity(alloc, lines.len())?;
    for line in lines {
        if part_of(processes, line) != number {
            continue;
        }
        replies.push_reserved(head.step(alloc, &line.command));
    }
    Ok(replies)
}

// Plays all lines, with the head's machine and one for each place: the machines of the places, and the answers.
fn play_all<M: Machine + Send, R: Threads + Wait + Sync, G: Gate + Sync>(
    rt: &R,
    alloc: Global,
    machines: Vec<M>,
    head: &mut Session<'_, M>,
    lines: &[Line],
    gate: &G,
) -> Result<(Vec<M>, Vec<NumberedReply>), Fault>
    requires count { vec_len machines ≡ PLACES }
    requires names { head.old.names ≡ no_bindings }
    ensures played { IfOk result (λ r. AllPlay M.state M.did head.old lines.now r.1.items machines.items head.new r.0.items) }
    ensures answers { IfOk result (λ r. AreAnswersTo lines.now r.1.items) }
    ensures stopped { IfErr result (MayStop G.always) }
{
    let first = run_part(alloc, head, &Processes::new(), lines, 0)?;
    let ready = head.names.processes;
    let dones = work(rt, alloc, machines, head, lines, gate)?;
    let last = run_part(alloc, head, &ready, lines, 1 + PLACES)?;
    let (machines, parts) = parts_of(alloc, first, dones, last)?;
    let answers = answers_of(alloc, &ready, lines, parts)?;
    Ok((machines, answers))
}

/// Runs a script with the first machine for the head and, at the end, for the processes without a place, and the others
/// for the processes that have one, each in a thread of its own: the machines, and what was played.
///
/// Memory where a growth outside the commands was refused, or a thread; Gate where the gate stopped a worker. Where
/// workers wait for messages that nobody gives, it doesn't end.
pub(crate) fn run_on<M: Machine + Send, R: Threads + Wait + Sync, G: Gate + Sync>(
    rt: &R,
    alloc: Global,
    mut machines: Vec<M>,
    script: &Script,
    gate: &G,
) -> Result<(Vec<M>, Played), Fault>
    requires { vec_len machines ≡ MAX_WORKERS }
    ensures played { IfOk result (λ o. PlayScript M.state M.did script.now o.1.0.items machines.items o.0.items) }
    ensures answers { IfOk result (λ o. AreAnswersTo script.now.lines.items o.1.0.items) }
    ensures names { IfOk result (λ o. HasNames script.now.processes.items script.now.lines.items o.1.0.items o.1.1.items × (length o.1.1.items ≡ PLACES)) }
    ensures stopped { IfErr result (MayStop G.always) }
{
    let mut head = Session {
        machine: machines.remove(0),
        names: Bindings::new(alloc)?,
        contracts: &script.contracts,
    };
    let lines = script.lines.as_slice();
    let played = play_all(rt, alloc, machines, &mut head, lines, gate);
    let Session { machine, .. } = head;
    let (mut machines, answers) = played?;
    machines.insert(0, machine)?;
    let processes = latest(lines, answers.as_slice());
    let names = processes.by_place(alloc, &script.processes)?;
    Ok((machines, (answers, names)))
}
