//! What is done on a heap where workers start threads.

ghost use Rattle.std.specs.Prelude.{IfOk, List, map};
ghost use Rattle.xh_calls.specs.Parts.{PartsOf};
ghost use Rattle.xh_heap.specs.Handles.{HandleOf};
ghost use Rattle.xh_heap.specs.Plans.{IsPlanned};

use crate::job::{Job, Team};
use crate::process::Process;
use crate::starter::Starter;
use xh_core::Refused;

/// What is done on a heap, by processes that each have an index, and by others that these start on threads of their own, each
/// for a task. A `Job` is one that starts none.
pub trait Host {
    /// As `Job::planned`.
    ghost planned: { Self.Plan → PartsOf → List HandleOf → List HandleOf → Type 0 } = { λ _ _ _ _. Unit {0} };

    /// As `Job::answered`.
    ghost answered: { Self.Answer → PartsOf → Type 0 } = { λ _ _. Unit {0} };

    /// What the workers and tasks are told: endpoints, say.
    type Plan: Sync + Drop;
    /// What a process is started for.
    type Task: Send + Drop;
    /// What a worker answers.
    type Answer: Send + Drop;

    /// As `Job::plan`.
    fn plan<P: Process>(&self, team: &mut Team<P>) -> Result<Self::Plan, Refused>
        ensures { IfOk result (λ plan. planned plan P.parts (map P.handle team.old.all.items) (map P.handle team.new.all.items)) };

    /// As `Job::work`; what it starts by `threads` works beside it, and may outlast it.
    fn work<P: Process>(
        &self,
        plan: &Self::Plan,
        index: usize,
        own: &mut P,
        threads: &Starter<P, Self::Task>,
    ) -> Self::Answer
        requires { IsPlanned planned plan.now P.parts }
        ensures { answered result P.parts };

    /// A task of a process that was started for it, on its thread. The process ends once it returns, where it didn't before.
    fn serve<P: Process>(
        &self,
        plan: &Self::Plan,
        task: Self::Task,
        own: &mut P,
        threads: &Starter<P, Self::Task>,
    )
        requires { IsPlanned planned plan.now P.parts };
}

impl<J: Job> Host for J {
    ghost planned = { J.planned };

    ghost answered = { J.answered };

    type Plan = J::Plan;

    type Task = ();

    type Answer = J::Answer;

    fn plan<P: Process>(&self, team: &mut Team<P>) -> Result<J::Plan, Refused> {
        Job::plan(self, team)
    }

    fn work<P: Process>(
        &self,
        plan: &J::Plan,
        index: usize,
        own: &mut P,
        _threads: &Starter<P, ()>,
    ) -> J::Answer {
        Job::work(self, plan, index, own)
    }

    fn serve<P: Process>(
        &self,
        _plan: &J::Plan,
        _task: (),
        _own: &mut P,
        _threads: &Starter<P, ()>,
    ) {}
}
