//! How a worker does its task.
ghost use Rattle.std.specs.Prelude.{◌≡◌, ◌<◌, ◌≤◌, [], IfOk, IfErr};
ghost use Rattle.std.specs.List.{list_any};
ghost use Rattle.xh_model.specs.declared.limits.TheConstants.{PLACES};
ghost use Rattle.xh_runner.specs.Plays.{DoesAmong, LAST, MayStop, is_placed, names_renewed, part_of, renews};
ghost use Rattle.xh_runner.specs.inner.Tasks.{Hears, LeavesTask, PlaysAt};
ghost use Rattle.xh_session.specs.Plans.{world_of};

use crate::task::{Crew, Done, Task};
use std::alloc::Global;
use std::sync::Wait;
use xh_model::limits::PLACES;
use xh_place::Gate;
use xh_script::{Fault, Form, Line, Reply};
use xh_session::{Bindings, Machine, Processes, Session};

// Whether the process has the place of its number.
fn is_placed(processes: &Processes, process: u8) -> bool
    ensures { result ≡ is_placed processes.now process }
{
    let number = processes.number(process);
    number < u16::from(PLACES)
        && matches!(processes.process_at(number as u8), Some(latest) if latest == process)
}

/// The part of a run to which a line belongs.
pub(crate) fn part_of(processes: &Processes, line: &Line) -> u8
    ensures is { result ≡ part_of processes.now line.now }
    ensures within { result ≤ LAST }
{
    let process = line.command.name(0);
    if line.command.form.is_head() {
        0
    } else if is_placed(processes, process) {
        1 + processes.number(process) as u8
    } else {
        1 + PLACES
    }
}

// Whether the line starts the process again.
#[tactic(auto, unfolding(crate::specs::Plays::renews))]
fn renews(process: u8, line: &Line) -> bool
    ensures { result ≡ renews process line.now }
{
    matches!(line.command.form, Form::Again) && line.command.name(0) == process
}

// Whether one of the lines starts the process again.
fn is_renewed(lines: &[Line], process: u8) -> bool
    ensures { result ≡ list_any (renews process) lines.now }
{
    lines.iter().any(|line| renews(process, line))
}

// Whether the line's command names a process, not its own, that one of the lines starts again.
#[tactic(auto, unfolding(crate::specs::Plays::names_renewed))]
fn names_renewed(lines: &[Line], line: &Line) -> bool
    ensures { result ≡ names_renewed lines.now line.now }
{
    let other = line.command.name(1);
    matches!(line.command.form, Form::Kill | Form::Glance)
        && other != line.command.name(0)
        && is_renewed(lines, other)
}

// By which number the process goes by now that the line's command names, where another worker may start it again. That this
// is the latest no clause says: it would need a token for each start, kept to the end beside what was read.
fn hear<R: Wait, G>(rt: &R, crew: &Crew<'_, G>, names: &mut Bindings, line: &Line)
    ensures { Hears crew.now.lines.now line.now names.old names.new }
{
    if names_renewed(crew.lines, line) {
        let other = line.command.name(1);
        let number = crew.processes.lock(rt).number(other);
        names.processes.renumber(other, number);
    }
}

// Does a command. Where it names another process, the name stands for what it stands for at the start.
fn step<'a, M: Machine, R: Wait, G>(
    rt: &R,
    alloc: Global,
    crew: &Crew<'_, G>,
    session: &mut Session<'a, M>,
    line: &Line,
) -> Reply
    ensures { DoesAmong M.did crew.now.lines.now (world_of M.state session.old) line.now result (world_of M.state session.new) }
{
    hear(rt, crew, &mut session.names, line);
    let reply = session.step(alloc, &line.command);
    if let Reply::Started(number) = reply {
        crew.processes.lock(rt).start(line.command.name(0), number);
    }
    reply
}

// Does the commands of a place in order, as far as the gate lets them: the replies, for which there is room.
#[tactic(auto, using(crate::proofs::Plays::plays_own, crate::proofs::Plays::plays_other))]
fn play<'a, M: Machine, R: Wait, G: Gate>(
    rt: &R,
    alloc: Global,
    crew: &Crew<'_, G>,
    session: &mut Session<'a, M>,
    place: u8,
    mut replies: Vec<Reply>,
) -> Result<Vec<Reply>, Fault>
    requires { (place < PLACES) × (replies.items ≡ []) }
    ensures played { IfOk result (λ replies. PlaysAt M.did crew.now place (world_of M.state session.old) replies.items (world_of M.state session.new)) }
    ensures stopped { IfErr result (MayStop G.always) }
{
    let mut command = 0u32;
    for line in crew.lines {
        if part_of(&crew.ready.processes, line) != 1 + place {
            continue;
        }
        if !crew.gate.before(place, command) {
            return Err(Fault::Gate);
        }
        replies.push(step(rt, alloc, crew, session, line))?;
        crew.gate.after(place, command);
        command = command.saturating_add(1);
    }
    Ok(replies)
}

impl<'a, M: Machine> Task<'a, M> {
    /// Does the commands once all workers were started; none where one could not be.
    pub(crate) fn work<R: Wait, G: Gate>(
        self,
        rt: &R,
        alloc: Global,
        crew: &Crew<'_, G>,
    ) -> Result<Done<M>, Fault>
        ensures { LeavesTask M.state M.did G.always crew.now self.entry result }
    {
        if !*crew.started.lock(rt) {
            return Err(Fault::Memory);
        }
        let Task {
            mut session,
            place,
            room,
        } = self;
        let played = play(rt, alloc, crew, &mut session, place, room);
        let Session { machine, .. } = session;
        let replies = played?;
        Ok(Done { machine, replies })
    }
}
