//! Messages of a process, and the ends of its endpoints and of itself.
ghost use Rattle.std.specs.Prelude.{◌≡◌, IfErr};
ghost use Rattle.xh_place.specs.Calls.{Closes, Stops};
ghost use Rattle.xh_records.specs.Seats.{IsSeatOf};
ghost use Rattle.xh_place.specs.Seen.{IsSamePlace, Stays};
ghost use Rattle.xh_place.specs.Messages.{Gives, TakesAt};
ghost use Rattle.xh_calls.specs.Places.{ComesBack, IsServed, IsTillOf, status_at};

use crate::heap::{Heap, Till};
use crate::names::Names;
use crate::starting::check_number;
use std::sync::Wait;
use xh_core::Refused;
use xh_place::{Gate, Place, Taken};

impl<N: Names> Heap<N> {
    /// As `Kernel::give`, by whoever has the place's lock.
    #[tactic(auto, using(xh_place::proofs::Deeds::stays_itself, xh_place::proofs::Stayed::gave_same))]
    pub fn give<R: Wait, G: Gate>(
        &self,
        rt: &R,
        place: &mut Place,
        p: u16,
        e: u16,
        tag: u16,
        blocks: &[u16],
        gate: &G,
    ) -> Result<u64, Refused>
        requires { IsSeatOf N.parts.records place.old.seat }
        ensures same { IsSamePlace place.old place.new }
        ensures given { Gives (status_at p place.old) e tag blocks.now place.old place.new result }
    {
        check_number(place, p)?;
        place.give(&self.desk(rt, (), gate), e, tag, blocks)
    }

    /// As `Kernel::take`, by whoever has the place's lock. The answer is written where the caller keeps it.
    #[tactic(auto, using(xh_place::proofs::Deeds::stays_itself, xh_place::proofs::Stayed::took_same))]
    pub fn take<R: Wait, G: Gate>(
        &self,
        rt: &R,
        place: &mut Place,
        p: u16,
        e: u16,
        answer: &mut Result<Taken, Refused>,
        gate: &G,
    )
        requires { IsSeatOf N.parts.records place.old.seat }
        ensures same { IsSamePlace place.old place.new }
        ensures taken { TakesAt (status_at p place.old) e place.old place.new answer.new }
        ensures empty { IfErr answer.new (λ why. why ≡ Refused.Empty → Stays place.old place.new) }
    {
        match check_number(place, p) {
            Ok(()) => place.take_into(&self.desk(rt, (), gate), e, answer),
            Err(why) => *answer = Err(why),
        }
    }

    /// As `Kernel::close`, by whoever has the place's lock.
    #[tactic(auto, using(xh_place::proofs::Deeds::stays_itself, xh_place::proofs::Stayed::closed_same))]
    pub fn close<R: Wait, G: Gate>(
        &self,
        rt: &R,
        place: &mut Place,
        p: u16,
        e: u16,
        till: &mut Till,
        gate: &G,
    ) -> Result<u64, Refused>
        requires { IsServed N.parts place.old till.old }
        ensures same { IsSamePlace place.old place.new × IsTillOf N.parts till.new }
        ensures closed { ComesBack till.old till.new (λ bytes. Closes (status_at p place.old) e bytes place.old place.new result) }
    {
        check_number(place, p)?;
        let mut desk = self.lend(rt, till, gate);
        let answer = place.close_end(&mut desk, e);
        desk.vaults.end(till);
        self.tell_swept(rt);
        answer
    }

    /// As `Kernel::exit`, by whoever has the place's lock.
    #[tactic(auto, using(xh_place::proofs::Deeds::stays_itself, xh_place::proofs::Stayed::stopped_same))]
    pub fn stop<R: Wait, G: Gate>(
        &self,
        rt: &R,
        place: &mut Place,
        p: u16,
        budget: u16,
        till: &mut Till,
        gate: &G,
    ) -> Result<u64, Refused>
        requires { IsServed N.parts place.old till.old }
        ensures same { IsSamePlace place.old place.new × IsTillOf N.parts till.new }
        ensures stopped { ComesBack till.old till.new (λ bytes. Stops (status_at p place.old) budget bytes place.old place.new result) }
    {
        check_number(place, p)?;
        let mut desk = self.lend(rt, till, gate);
        let answer = place.stop(&mut desk, budget);
        desk.vaults.end(till);
        self.tell_swept(rt);
        answer
    }
}
