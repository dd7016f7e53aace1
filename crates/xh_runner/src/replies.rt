//! The replies to the lines of a script, out of those of its parts, and what they tell.
ghost use Rattle.std.specs.Prelude.{◌≡◌, ◌≤◌, [], ◌∷◌, ◌++◌, IfOk, map, replicate, suc, vec_len};
ghost use Rattle.std.specs.Vec.Iter.{into_iter_items};
ghost use Rattle.xh_runner.specs.inner.Tasks.{AreEnough, Tells};
ghost use Rattle.xh_runner.specs.Plays.{AreAnswersTo, LAST, numbers_after, processes_after, told};
ghost use Rattle.xh_model.specs.declared.limits.TheConstants.{PLACES};
ghost use Rattle.xh_session.specs.Bindings.{no_processes};

use crate::play::part_of;
use crate::task::Done;
use std::alloc::{AllocError, Global};
use std::vec::IntoIter;
use xh_core::PLACE_LINES;
use xh_model::limits::{MAX_WORKERS, PLACES};
use xh_script::{Line, NumberedReply, Reply};
use xh_session::Processes;

/// The machines of the places, and the replies of all parts. There is room for one more machine.
pub(crate) fn parts_of<M: Drop>(
    alloc: Global,
    first: Vec<Reply>,
    dones: Vec<Done<M>>,
    last: Vec<Reply>,
) -> Result<(Vec<M>, Vec<IntoIter<Reply>>), AllocError>
    requires { vec_len dones ≤ PLACES }
    ensures machines { IfOk result (λ r. r.0.items ≡ map (λ done. done.machine) dones.items) }
    ensures parts { IfOk result (λ r. map into_iter_items r.1.items ≡ first.items ∷ (map (λ done. done.replies.items) dones.items ++ last.items ∷ [])) }
{
    let mut machines = Vec::with_capacity(alloc, usize::from(MAX_WORKERS))?;
    let mut parts = Vec::with_capacity(alloc, usize::from(PLACES) + 2)?;
    parts.push_reserved(first.into_iter());
    for done in dones {
        let Done { machine, replies } = done;
        machines.push_reserved(machine);
        parts.push_reserved(replies.into_iter());
    }
    parts.push_reserved(last.into_iter());
    Ok((machines, parts))
}

/// An answer to each line: the next of the replies of its part.
pub(crate) fn answers_of(
    alloc: Global,
    processes: &Processes,
    lines: &[Line],
    mut parts: Vec<IntoIter<Reply>>,
) -> Result<Vec<NumberedReply>, AllocError>
    requires count { vec_len parts ≡ suc LAST }
    requires enough { AreEnough processes.now lines.now (map into_iter_items parts.items) }
    ensures { IfOk result (λ answers. Tells processes.now lines.now answers.items (map into_iter_items parts.items)) }
{
    let mut answers = Vec::with_capacity(alloc, lines.len())?;
    for line in lines {
        let part = usize::from(part_of(processes, line));
        let Some(reply) = parts[part].next() else {
            unreachable!()
        };
        answers.push(NumberedReply {
            line: line.number,
            reply,
        })?;
    }
    Ok(answers)
}

// The line has this reply. Where it tells that a process was started, that is the latest of its place, unless one with a
// greater number is.
fn tell(line: &Line, reply: &Reply, numbers: &mut [u16; PLACE_LINES], processes: &mut Processes)
    ensures processes { processes.new ≡ processes_after numbers.old processes.old line.now reply.now }
    ensures numbers { numbers.new ≡ numbers_after numbers.old reply.now }
{
    if let Reply::Started(number) = reply {
        let place = usize::from(number % u16::from(PLACES));
        if numbers[place] <= *number {
            numbers[place] = *number;
            processes.start(line.command.name(0), *number);
        }
    }
}

/// What the names of processes stand for once all replies were told.
pub(crate) fn latest(lines: &[Line], answers: &[NumberedReply]) -> Processes
    requires { AreAnswersTo lines.now answers.now }
    ensures { result ≡ told (replicate PLACES 0) no_processes lines.now answers.now }
{
    let mut processes = Processes::new();
    let mut numbers = [0u16; PLACE_LINES];
    for at in 0..lines.len() {
        tell(&lines[at], &answers[at].reply, &mut numbers, &mut processes);
    }
    processes
}
