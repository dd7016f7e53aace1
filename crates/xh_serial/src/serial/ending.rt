//! The ends of processes and of endpoints: exit, kill and close.
ghost use Rattle.std.specs.Prelude.{◌≡◌, ◌-◌, ◌<◌, [], ◌∷◌, IsOk, None, true, length};
ghost use Rattle.xh_model.specs.Reclaimed.{Frees};
ghost use Rattle.xh_model.specs.Store.{holds};
ghost use Rattle.xh_model.specs.declared.event.Holder.TheVariants.{Process};
ghost use Rattle.xh_model.specs.declared.limits.TheConstants.{MAX_BUDGET};
ghost use Rattle.xh_core.specs.Statuses.{is_over};
ghost use Rattle.xh_serial.specs.Machine.{arriving, blocks, is_current, place, restated, serial_status};
ghost use Rattle.xh_core.specs.Calls.{stop};
ghost use Rattle.xh_core.specs.Refusing.{first_refusal};
ghost use Rattle.xh_serial.specs.Commands.{IsRunning};
ghost use Rattle.xh_serial.specs.Sweeping.{SweepsOver};
ghost use Rattle.xh_serial.specs.EndingCommands.{close, exit, kill, kill_refusals, moved_last, stop_answer, stopped};

use crate::serial::Serial;
use xh_core::{Refused, Status};
use xh_model::limits::MAX_BUDGET;

impl Serial {
    /// How far a process has come: one that has ended lists nothing.
    fn set_status(&mut self, p: u16, status: Status)
        requires { is_over status ≡ true → length (place self.old.places p).blocks.items ≡ 0 }
        ensures { self.new ≡ record self.old { places = restated p status self.old.places } }
    {
        self.places.set_status(p, status);
    }

    /// A process is ended: its whole list is swept, as far as the budget goes.
    #[tactic(auto, unfolding(crate::specs::EndingCommands::stopped))]
    fn stop(&mut self, p: u16, budget: u32) -> Result<u64, Refused>
        requires { is_current self.old p ≡ true }
        ensures is { stop_answer p self.old (stopped p budget self.old) ≡ (result, self.new) }
        ensures frees { IsOk result → Frees (arriving self.old) self.old.store self.new.store (blocks self.old p) }
        ensures bound { SweepsOver p 0 budget self.old self.new }
    {
        let _start = &self.plain;
        self.set_status(p, Status::Ending);
        let bytes = self.sweep(p, 0, budget);
        let _swept = &self.plain;
        let left = self.count(p);
        if left > 0 {
            return Err(Refused::Unfinished { left: left as u32 });
        }
        self.set_status(p, Status::Ended);
        Ok(bytes)
    }

    /// A process ends: its blocks are reclaimed, and what is on its way to its endpoints; what it
    /// gave away stays. The bytes that this call reclaimed.
    ///
    /// The budget is the number of blocks that may be swept. NoProcess, Ended where the process has
    /// ended, and Unfinished where blocks are left: a later `exit` or `kill` goes on from there.
    #[tactic(auto, unfolding(crate::specs::EndingCommands::exit))]
    pub fn exit(&mut self, p: u16, budget: u32) -> Result<u64, Refused>
        ensures is { exit p budget self.old ≡ (result, self.new) }
        ensures frees { IsOk result → Frees (arriving self.old) self.old.store self.new.store (blocks self.old p) }
        ensures bound { first_refusal (stop (serial_status self.old p)) ≡ None → SweepsOver p 0 budget self.old self.new }
    {
        self.check_stop(p)?;
        self.stop(p, budget)
    }

    /// `by` ends a process, as `exit` does. NoProcess and Ended where `by` does not run, then the
    /// refusals of `exit`.
    #[tactic(auto, unfolding(crate::specs::EndingCommands::kill))]
    pub fn kill(&mut self, by: u16, victim: u16, budget: u32) -> Result<u64, Refused>
        ensures is { kill by victim budget self.old ≡ (result, self.new) }
        ensures frees { IsOk result → Frees (arriving self.old) self.old.store self.new.store (blocks self.old victim) }
        ensures bound { first_refusal (kill_refusals self.old by victim) ≡ None → SweepsOver victim 0 budget self.old self.new }
    {
        self.check_kill(by, victim)?;
        self.stop(victim, budget)
    }

    /// The entry `e` of the list goes to its end. Where it stands then.
    fn move_last(&mut self, p: u16, e: u16) -> usize
        requires runs { IsRunning self.old p }
        requires held { holds self.old.store (Process p) e ≡ true }
        ensures is { self.new ≡ moved_last p e self.old }
        ensures at { result ≡ length (blocks self.old p) - 1 }
    {
        self.places.move_last(p, e)
    }

    /// One end of a channel is closed: it and what is on its way to it are reclaimed. The bytes
    /// reclaimed. What it had put stays for the peer.
    ///
    /// NoProcess, Ended, NotOwned, NotEndpoint. It never leaves anything unfinished.
    #[tactic(auto, unfolding(crate::specs::EndingCommands::close))]
    pub fn close(&mut self, p: u16, e: u16) -> Result<u64, Refused>
        ensures is { close p e self.old ≡ (result, self.new) }
        ensures frees { IsOk result → Frees (arriving self.old) self.old.store self.new.store (e ∷ []) }
        ensures bound { IsOk result → SweepsOver p (length (blocks self.old p) - 1) MAX_BUDGET (moved_last p e self.old) self.new }
    {
        self.check_close(p, e)?;
        let _start = &self.plain;
        let from = self.move_last(p, e);
        Ok(self.sweep(p, from, MAX_BUDGET as u32))
    }
}
