//! A thread for each place that has a process.
ghost use Rattle.std.specs.Prelude.{◌≡◌, ◌<◌, ◌≤◌, [], IfOk, MatchResult, Some, vec_len};
ghost use Rattle.std.specs.List.{AllZip};
ghost use Rattle.xh_model.specs.declared.limits.TheConstants.{PLACES};
ghost use Rattle.xh_runner.specs.inner.Tasks.{ArePlacesDone, IsHand, IsTask, Joins, LeavesPlaces};
ghost use Rattle.xh_runner.specs.Plays.{AllZipFrom, MayStop};
ghost use Rattle.xh_session.specs.Bindings.{process_at};

use crate::play::part_of;
use crate::task::{Crew, Done, Task};
use std::alloc::{AllocError, Global};
use std::snapshot::Snapshot;
use std::sync::{Mutex, Wait};
use std::thread;
use std::thread::{Promise, PromisedHandle, Scope, Threads};
use xh_place::Gate;
use xh_script::{Fault, Line, Reply};
use xh_session::{Machine, Session};

/// That a worker's task is done, or it was stopped.
#[derive(Drop)]
struct DoesTask<'s, 'a, M, G> {
    task: Snapshot<Task<'a, M>>,
    crew: &'s Crew<'a, G>,
}

impl<'s, 'a, M: Machine, G: Gate> Promise<Result<Done<M>, Fault>> for DoesTask<'s, 'a, M, G> {
    ghost use Rattle.xh_runner.specs.inner.Tasks.{LeavesTask};

    ghost kept_by = { λ p left. LeavesTask M.state M.did G.always p.crew.now p.task.value left };
}

/// A worker of a place, or what is left of one without a process.
#[derive(Drop)]
enum Hand<'s, 'a, M: Machine, G: Gate> {
    Works(PromisedHandle<Result<Done<M>, Fault>, DoesTask<'s, 'a, M, G>>),
    Idle(Done<M>),
}

// Room for the replies of a place.
fn room_of<G>(alloc: Global, place: u8, crew: &Crew<'_, G>) -> Result<Vec<Reply>, AllocError>
    requires { place < PLACES }
    ensures { IfOk result (λ room. room.items ≡ []) }
{
    let own = |line: &&Line| part_of(&crew.ready.processes, line) == place + 1;
    Vec::with_capacity(alloc, crew.lines.iter().filter(own).count())
}

// The task of a place, with what the names of its process stand for after the head, and room for its replies.
fn task<'a, M: Machine, G>(
    alloc: Global,
    machine: M,
    place: u8,
    process: u8,
    crew: &Crew<'a, G>,
) -> Result<Task<'a, M>, AllocError>
    requires { (place < PLACES) × (process_at crew.now.ready.now.processes place ≡ Some process) }
    ensures { IfOk result (IsTask M.state crew.now place machine) }
{
    let room = room_of(alloc, place, crew)?;
    let names = crew.ready.of_process(alloc, process)?;
    Ok(Task {
        session: Session {
            machine,
            names,
            contracts: crew.contracts,
        },
        place,
        room,
    })
}

// Starts a thread for a place, if it has a process.
fn start<'s, 'a: 's, E, M: Machine + Send + 's, R: Threads + Wait + Sync + 's, G: Gate + Sync + 's>(
    scope: &Scope<'s, E>,
    rt: &'s R,
    alloc: Global,
    machine: M,
    place: u8,
    crew: &'s Crew<'a, G>,
) -> Result<Hand<'s, 'a, M, G>, AllocError>
    requires { place < PLACES }
    ensures { IfOk result (IsHand M.state M.did crew.now place machine) }
{
    let Some(process) = crew.ready.processes.process_at(place) else {
        return Ok(Hand::Idle(Done {
            machine,
            replies: Vec::new(alloc),
        }));
    };
    let task = task(alloc, machine, place, process, crew)?;
    let promise = DoesTask {
        task: Snapshot::of(&task),
        crew,
    };
    let handle = scope.spawn_with(promise, move || task.work(rt, alloc, crew))?;
    Ok(Hand::Works(handle))
}

// Starts all, as far as memory goes, and lets them work if all were started.
fn start_all<
    's,
    'a: 's,
    E,
    M: Machine + Send + 's,
    R: Threads + Wait + Sync + 's,
    G: Gate + Sync + 's,
>(
    scope: &Scope<'s, E>,
    rt: &'s R,
    alloc: Global,
    machines: Vec<M>,
    crew: &'s Crew<'a, G>,
) -> Result<Vec<Hand<'s, 'a, M, G>>, AllocError>
    requires { vec_len machines ≤ PLACES }
    ensures { IfOk result (λ hands. AllZipFrom (IsHand M.state M.did crew.now) 0 machines.items hands.items) }
{
    let mut hands = Vec::with_capacity(alloc, machines.len())?;
    let mut started = crew.started.lock(rt);
    let mut place = 0u8;
    for machine in machines {
        hands.push(start(scope, rt, alloc, machine, place, crew)?)?;
        place += 1;
    }
    *started = true;
    Ok(hands)
}

impl<'s, 'a, M: Machine, G: Gate> Hand<'s, 'a, M, G> {
    // What the place leaves.
    fn join<R: Threads>(self, rt: &R) -> Result<Done<M>, Fault>
        ensures { MatchResult result (Joins M.state M.did self.entry) (MayStop G.always) }
    {
        match self {
            Hand::Works(handle) => handle.join(rt),
            Hand::Idle(done) => Ok(done),
        }
    }
}

// Joins all, also past one that was stopped. There is room for what they leave.
fn join_all<'s, 'a: 's, M: Machine, R: Threads, G: Gate>(
    rt: &R,
    hands: Vec<Hand<'s, 'a, M, G>>,
    mut dones: Vec<Done<M>>,
) -> Result<Vec<Done<M>>, Fault>
    requires { dones.items ≡ [] }
    ensures { MatchResult result (λ dones. AllZip (Joins M.state M.did) hands.entry.items dones.items) (MayStop G.always) }
{
    let mut ended = Ok(());
    for hand in hands {
        match hand.join(rt) {
            Ok(done) => dones.push(done)?,
            Err(fault) => ended = Err(fault),
        }
    }
    ended?;
    Ok(dones)
}

/// Does the commands of the processes that have a place, each by a machine and in a thread of its own, and
/// joins all: what each machine's worker leaves, by place.
pub(crate) fn work<M: Machine + Send, R: Threads + Wait + Sync, G: Gate + Sync>(
    rt: &R,
    alloc: Global,
    machines: Vec<M>,
    head: &Session<'_, M>,
    lines: &[Line],
    gate: &G,
) -> Result<Vec<Done<M>>, Fault>
    requires { vec_len machines ≤ PLACES }
    ensures { MatchResult result (λ dones. LeavesPlaces M.state M.did head.now.names head.now.contracts.now lines.now machines.items dones.items) (MayStop G.always) }
{
    let crew = Crew {
        lines,
        contracts: head.contracts,
        ready: &head.names,
        gate,
        processes: Mutex::new(head.names.processes),
        started: Mutex::new(false),
    };
    let crew = &crew;
    thread::scope(
        thread::scope_env(),
        rt,
        |scope| -> Result<Vec<Done<M>>, Fault>
            requires { vec_len machines ≤ PLACES }
            ensures { MatchResult result (λ dones. ArePlacesDone M.state M.did crew.entry.now machines.items dones.items) (MayStop G.always) }
        {
            let dones = Vec::with_capacity(alloc, machines.len())?;
            let hands = start_all(scope, rt, alloc, machines, crew)?;
            join_all(rt, hands, dones)
        },
    )
}
