//! What is done on a heap.
ghost use Rattle.std.specs.Prelude.{◌≡◌, ◌<◌, ◌≤◌, HoldsAt, IfErr, IfOk, List, map, None, Some, vec_len};
ghost use Rattle.std.specs.Borrow.{sem};
ghost use Rattle.xh_calls.specs.Parts.{PartsOf};
ghost use Rattle.xh_heap.specs.Handles.{HandleOf};
ghost use Rattle.xh_heap.specs.Plans.{IsPlanned};
ghost use Rattle.xh_heap.specs.Lending.{LendsOne};
ghost use Rattle.xh_heap.specs.Teams.{OpensOwn, WiresTo, WiresTwo};

use crate::process::Process;
use crate::values::End;
use xh_core::{Contract, Refused};

/// The processes of a job, by index.
#[derive(Drop)]
pub struct Team<P> {
    pub(crate) all: Vec<P>,
}

impl<P: Process> Team<P> {
    /// The process at an index, counted from 0; all others stay as they are. NoProcess where there is none.
    pub fn at(&mut self, index: usize) -> Result<&mut P, Refused>
        ensures* writes_back { sem 𝓛 (LendsOne P.row self.entry index result) }
        ensures at { IfOk result (λ p. (index < vec_len self.old.all) × HoldsAt (λ it. p.now ≡ it) self.old.all.items index) }
        ensures none { IfErr result (λ why. (why ≡ Refused.NoProcess) × (vec_len self.old.all ≤ index)) }
    {
        match self.all.get_mut(index) {
            Some(process) => Ok(process),
            None => Err(Refused::NoProcess),
        }
    }

    /// A channel between two: side 0 is of the process at `one`, side 1 of that at `other`. NoProcess of an index, then
    /// as `Process::wire`, or as `Process::open` where both are one.
    pub fn wire(&mut self, one: usize, other: usize) -> Result<(End, End), Refused>
        ensures { WiresTwo P.parts P.leads None P.handle one other self.old.all.items self.new.all.items result }
    {
        connect(&mut self.all, one, other, None)
    }

    /// As `wire`; the channel goes by the contract.
    pub fn wire_with(
        &mut self,
        one: usize,
        other: usize,
        contract: Contract,
    ) -> Result<(End, End), Refused>
        ensures { WiresTwo P.parts P.leads (Some contract) P.handle one other self.old.all.items self.new.all.items result }
    {
        connect(&mut self.all, one, other, Some(contract))
    }
}

// A channel of two of these, by a contract or by none.
fn connect<P: Process>(
    all: &mut [P],
    one: usize,
    other: usize,
    contract: Option<Contract>,
) -> Result<(End, End), Refused>
    ensures { WiresTwo P.parts P.leads contract P.handle one other all.old all.new result }
{
    if all.len() <= one.max(other) {
        return Err(Refused::NoProcess);
    }
    if one == other {
        return open_by(&mut all[one], contract);
    }
    if one < other {
        let (low, high) = all.split_at_mut(other);
        wire_by(&mut low[one], &high[0], contract)
    } else {
        let (low, high) = all.split_at_mut(one);
        wire_by(&mut high[0], &low[other], contract)
    }
}

fn open_by<P: Process>(own: &mut P, contract: Option<Contract>) -> Result<(End, End), Refused>
    ensures { OpensOwn P.parts P.leads contract (P.handle own.old) (P.handle own.new) result }
{
    match contract {
        Some(contract) => own.open_with(contract),
        None => own.open(),
    }
}

fn wire_by<P: Process>(
    own: &mut P,
    other: &P,
    contract: Option<Contract>,
) -> Result<(End, End), Refused>
    ensures { WiresTo P.parts P.leads contract (P.handle other.now) (P.handle own.old) (P.handle own.new) result }
{
    match contract {
        Some(contract) => own.wire_with(other, contract),
        None => own.wire(other),
    }
}

/// What is done on a heap, by processes that each have an index.
pub trait Job {
    /// What is known of a plan that was made by processes of a kernel of these parts.
    ghost planned: { Self.Plan → PartsOf → List HandleOf → List HandleOf → Type 0 } = { λ _ _ _ _. Unit {0} };

    /// What is known of an answer that came of a work by a process of a kernel of these parts.
    ghost answered: { Self.Answer → PartsOf → Type 0 } = { λ _ _. Unit {0} };

    /// What the workers are told: their endpoints, say.
    type Plan: Sync + Drop;
    /// What a worker answers.
    type Answer: Send + Drop;

    /// Plans the work, on one thread, before any worker starts. A refusal ends the run.
    fn plan<P: Process>(&self, team: &mut Team<P>) -> Result<Self::Plan, Refused>
        ensures { IfOk result (λ plan. planned plan P.parts (map P.handle team.old.all.items) (map P.handle team.new.all.items)) };

    /// The work of the process at an index, on a thread of its own. The process ends once it returns, where it didn't
    /// before.
    fn work<P: Process>(&self, plan: &Self::Plan, index: usize, own: &mut P) -> Self::Answer
        requires { IsPlanned planned plan.now P.parts }
        ensures { answered result P.parts };
}
