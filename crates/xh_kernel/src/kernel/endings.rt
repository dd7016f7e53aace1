//! The ends of endpoints and of processes.
ghost use Rattle.xh_calls.specs.declared.call.Call.TheVariants as call;
ghost use Rattle.xh_calls.specs.Calls.{Looks};
ghost use Rattle.xh_kernel.specs.Accounts.{IsStill};
ghost use Rattle.xh_kernel.specs.Calls.{Calls};
ghost use Rattle.xh_kernel.specs.Did.{DidClose};
ghost use Rattle.xh_kernel.specs.Endings.{Exits, Kills};
ghost use Rattle.xh_model.specs.Words.{place_of};

use crate::account::Account;
use crate::kernel::Kernel;
use crate::locked_place::LockedPlace;
use std::snapshot::Snapshot;
use std::sync::Wait;
use xh_calls::{Names, check_start};
use xh_core::Refused;
use xh_place::Gate;

impl<N: Names> Kernel<N> {
    /// Closes the endpoint `e`: it goes, and what was on its way to it. Its peer may still take what the
    /// process had given by it. It answers the bytes reclaimed.
    ///
    /// NoProcess, Ended, NotOwned, NotEndpoint; Unfinished with the blocks left of what came with it.
    pub fn close<R: Wait, G: Gate>(
        &self,
        rt: &R,
        p: u16,
        e: u16,
        account: &mut Account<N>,
        gate: &G,
    ) -> Result<u64, Refused>
        ensures { DidClose N.leads p e result account.old account.new }
    {
        let mut guard = self.held(rt, p);
        let held: &mut LockedPlace<N> = &mut guard;
        let heap = &self.shared.heap;
        let before = Snapshot::of(&account.till.tallies);
        let answer = heap.close(rt, &mut held.place, p, e, &mut account.till, gate);
        let about = (p, e, &before, &account.till.tallies, &answer);
        held.scribe.note(&self.shared, &held.place, &mut account.front, &about, false);
        answer
    }

    /// The process ends, or goes on ending: its blocks go, at most `budget` of them, and what was on its way
    /// to its endpoints. It answers the bytes that this call reclaimed.
    ///
    /// NoProcess; Ended where the process has ended; Unfinished with the blocks left: the process is ending,
    /// and a later `exit` or `kill` goes on.
    pub fn exit<R: Wait, G: Gate>(
        &self,
        rt: &R,
        p: u16,
        budget: u16,
        account: &mut Account<N>,
        gate: &G,
    ) -> Result<u64, Refused>
        ensures { Exits N.leads p budget account.old account.new result }
    {
        let mut guard = self.held(rt, p);
        let held: &mut LockedPlace<N> = &mut guard;
        let heap = &self.shared.heap;
        let before = Snapshot::of(&account.till.tallies);
        let answer = heap.stop(rt, &mut held.place, p, budget, &mut account.till, gate);
        let about = (p, budget, &before, &account.till.tallies, &answer);
        held.scribe.note(&self.shared, &held.place, &mut account.front, &about, false);
        held.wake(rt, &self.shared);
        answer
    }

    /// The process `by` ends the process `victim`, as `exit` does.
    ///
    /// NoProcess and Ended of `by`, then as `exit` of `victim`.
    pub fn kill<R: Wait, G: Gate>(
        &self,
        rt: &R,
        by: u16,
        victim: u16,
        budget: u16,
        account: &mut Account<N>,
        gate: &G,
    ) -> Result<u64, Refused>
        ensures { Kills N.leads by victim budget account.old account.new result }
    {
        self.look_at(rt, by, account)?;
        self.exit(rt, victim, budget, account, gate)
    }

    // Whether the process runs.
    #[tactic(auto, using(xh_place::proofs::Deeds::stays_itself))]
    pub(super) fn look_at<R: Wait>(
        &self,
        rt: &R,
        p: u16,
        account: &mut Account<N>,
    ) -> Result<(), Refused>
        ensures { Calls N.leads (place_of p) (call.Look p result) IsStill (λ old new. Looks p old new result) account.old account.new }
    {
        let mut guard = self.held(rt, p);
        let held: &mut LockedPlace<N> = &mut guard;
        let answer = check_start(&held.place, p);
        let about = (p, &answer);
        held.scribe.note(&self.shared, &held.place, &mut account.front, &about, false);
        answer
    }
}
