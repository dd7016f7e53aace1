//! The threads of a run: one for each worker, and those that they have started.
ghost use Rattle.std.specs.Prelude.{◌≡◌, [], All, IfOk, IfSome, List, map, vec_len};
ghost use Rattle.xh_heap.specs.Handles.{HandleOf};
ghost use Rattle.xh_heap.specs.Plans.{IsPlanned};

use crate::host::Host;
use crate::job::Team;
use crate::process::Process;
use crate::starter::{Inquiry, Starter};
use std::alloc::{AllocError, Global};
use std::array;
use std::marker::PhantomData;
use std::sync::{Mutex, Wait};
use std::thread::{self, JoinHandle, Promise, PromisedHandle, Scope, Threads};
use xh_core::Refused;
use xh_model::limits::MAX_WORKERS;

// The threads of tasks, each in its slot until it was joined. Each has a handle until it has told that it ends, so there is
// always a slot left.
type Slots = [Option<JoinHandle<()>>; MAX_WORKERS as usize];

// What a worker's thread promises: its answer came of a work by a process of such a kernel. So that is known once it was
// joined.
#[derive(Drop)]
struct Answering<P, J> {
    process: PhantomData<P>,
    job: PhantomData<J>,
}

impl<P: Process, J: Host> Promise<Option<J::Answer>> for Answering<P, J> {
    ghost kept_by = { λ _ answer. IfSome answer (λ a. J.answered a P.parts) };
}

// A worker's thread.
type Worker<P, J> = PromisedHandle<Option<<J as Host>::Answer>, Answering<P, J>>;

// What the threads of a run share.
#[derive(Drop)]
struct TaskCrew<'s, P: Process, R, J: Host> {
    rt: &'s R,
    job: &'s J,
    plan: J::Plan,
    ghost planned: { IsPlanned J.planned plan P.parts },
    starter: Starter<P, J::Task>,
    // Whether each worker has a thread: none works before.
    started: Mutex<bool>,
}

impl<'s, P: Process + Send, R: Threads + Wait + Sync, J: Host + Sync> TaskCrew<'s, P, R, J>
where
    P::Runtime: Send + Sync,
{
    fn new(rt: &'s R, job: &'s J, plan: J::Plan) -> Self
        requires { IsPlanned J.planned plan P.parts }
        ensures { result.plan ≡ plan }
    {
        TaskCrew {
            rt,
            job,
            plan,
            starter: Starter::new(),
            started: Mutex::new(false),
        }
    }

    // The work of a process; None where another has no thread.
    fn work(&self, index: usize, own: P) -> Option<J::Answer>
        ensures { IfSome result (λ a. J.answered a P.parts) }
    {
        let mut own = own;
        if !*self.started.lock(self.rt) {
            return None;
        }
        let answer = self.job.work(&self.plan, index, &mut own, &self.starter);
        self.starter.ask(self.rt, Inquiry::Ended(None));
        Some(answer)
    }

    // A task, by the process that was started for it, whose thread is in this slot.
    fn serve(&self, slot: usize, child: P, task: J::Task) {
        let mut own = child;
        self.job.serve(&self.plan, task, &mut own, &self.starter);
        self.starter.ask(self.rt, Inquiry::Ended(Some(slot)));
    }

    // Starts a thread for each process, and lets them work if all were started.
    fn start_all<'w, W>(
        &'w self,
        scope: &Scope<'w, W>,
        all: Vec<P>,
        threads: &mut Vec<Worker<P, J>>,
    ) -> Result<(), AllocError> {
        let mut all_started = self.started.lock(self.rt);
        for own in all {
            let index = threads.len();
            let promise = Answering {
                process: PhantomData,
                job: PhantomData,
            };
            threads.push(scope.spawn_with(promise, move || self.work(index, own))?)?;
        }
        *all_started = true;
        Ok(())
    }

    // Starts a thread for a task, in a slot: whether there is one.
    fn start<'w, W>(
        &'w self,
        scope: &Scope<'w, W>,
        slots: &mut Slots,
        child: P,
        task: J::Task,
    ) -> bool {
        let Some(slot) = slots.iter().position(|thread| thread.is_none()) else {
            return false;
        };
        let started = scope.spawn(move || self.serve(slot, child, task));
        slots[slot] = started.ok();
        slots[slot].is_some()
    }

    // Starts a thread for each task that is asked for, and joins it when it ends, until all workers and tasks have ended.
    fn attend<'w, W>(&'w self, scope: &Scope<'w, W>, workers: usize) {
        let mut slots: Slots = array::from_fn(|_slot| None);
        let mut working = workers;
        for _ in self.rt.forever() {
            if working == 0 && slots.iter().all(|thread| thread.is_none()) {
                return;
            }
            match self.starter.next(self.rt) {
                Inquiry::Start(child, task) => {
                    let is_started = self.start(scope, &mut slots, child, task);
                    self.starter.answer(self.rt, Inquiry::Started(is_started));
                }
                Inquiry::Ended(Some(slot)) => {
                    self.starter.answer(self.rt, Inquiry::Free);
                    if let Some(thread) = slots.get_mut(slot).and_then(|thread| thread.take()) {
                        thread.join(self.rt);
                    }
                }
                _ => {
                    self.starter.answer(self.rt, Inquiry::Free);
                    working = working.saturating_sub(1);
                }
            }
        }
    }

    // The work of all processes, each in a thread of the scope. None works where one can't be started.
    fn work_in<'w, W>(
        &'w self,
        scope: &Scope<'w, W>,
        alloc: Global,
        all: Vec<P>,
    ) -> Result<Vec<J::Answer>, AllocError>
        ensures len { IfOk result (λ v. vec_len v ≡ vec_len all) }
        ensures answers { IfOk result (λ v. All (λ a. J.answered a P.parts) v.items) }
    {
        let count = all.len();
        let answers = Vec::with_capacity(alloc, count)?;
        let mut threads = Vec::with_capacity(alloc, count)?;
        if self.start_all(scope, all, &mut threads).is_ok() {
            self.attend(scope, count);
        }
        let answers = join_all(self.rt, answers, threads);
        if answers.len() == count {
            Ok(answers)
        } else {
            Err(AllocError)
        }
    }

    // What the workers answer, by index. All threads have ended then.
    fn work_all(&self, alloc: Global, all: Vec<P>) -> Result<Vec<J::Answer>, AllocError>
        ensures len { IfOk result (λ v. vec_len v ≡ vec_len all) }
        ensures answers { IfOk result (λ v. All (λ a. J.answered a P.parts) v.items) }
    {
        thread::scope(
            thread::scope_env(),
            self.rt,
            |scope| -> Result<Vec<J::Answer>, AllocError> { self.work_in(scope, alloc, all) },
        )
    }
}

// What those of the workers answered that worked. There is room for it.
fn join_all<P: Process, R: Threads, J: Host>(
    rt: &R,
    mut answers: Vec<J::Answer>,
    threads: Vec<Worker<P, J>>,
) -> Vec<J::Answer>
    requires { answers.items ≡ [] }
    ensures { All (λ a. J.answered a P.parts) result.items }
{
    for thread in threads {
        if let Some(answer) = thread.join(rt) {
            let _ = answers.push(answer);
        }
    }
    answers
}

/// A job by these processes: its plan, and what the workers answer, by index. All threads have ended then.
pub(crate) fn work_by<P: Process + Send, R: Threads + Wait + Sync, J: Host + Sync>(
    rt: &R,
    alloc: Global,
    job: &J,
    all: Vec<P>,
) -> Result<(J::Plan, Vec<J::Answer>), Refused>
where
    P::Runtime: Send + Sync,
    ensures len { IfOk result (λ worked. vec_len worked.1 ≡ vec_len all) }
    ensures answers { IfOk result (λ worked. All (λ a. J.answered a P.parts) worked.1.items) }
    ensures planned { IfOk result (λ worked. (new : List HandleOf) × J.planned worked.0 P.parts (map P.handle all.items) new) }
{
    let count = all.len();
    let mut team = Team { all };
    let plan = job.plan(&mut team)?;
    let Team { all } = team;
    if all.len() != count {
        return Err(Refused::NoProcess);
    }
    let crew = TaskCrew::new(rt, job, plan);
    let answers = crew.work_all(alloc, all)?;
    Ok((crew.plan, answers))
}
