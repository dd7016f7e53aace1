//! How a place is reclaimed.
ghost use Rattle.std.specs.Prelude.{◌≡◌, ◌≢◌, ℕ, ◌-◌, ◌<◌, ◌⊎◌, List, [], length, IsSome, true};
ghost use Rattle.xh_core.specs.Calls.{reclaimed, stop};
ghost use Rattle.xh_core.specs.Refusing.{first_refusal};
ghost use Rattle.xh_core.specs.Statuses.{is_over};
ghost use Rattle.xh_model.specs.declared.event.Event.{Event};
ghost use Rattle.xh_model.specs.declared.limits.TheConstants.{DIRECTIONS};
ghost use Rattle.xh_place.specs.Calls.{Stops};
ghost use Rattle.xh_place.specs.Desk.{IsSameDesk, IsSeatAt};
ghost use Rattle.xh_place.specs.Vaults.{BringsBack};
ghost use Rattle.xh_place.specs.Reclaiming.{IsSwept, IsSweptSo};
ghost use Rattle.xh_place.specs.Accepting.{IsTooLate, ending_again};
ghost use Rattle.xh_place.specs.Places.{Item, shown};
ghost use Rattle.xh_place.specs.Seen.{Becomes, IsElsewhere, IsSamePlace, IsSeen, Stays};
ghost use Rattle.xh_records.specs.Seats.{IsRecord, SawAt};
ghost use Rattle.xh_core.specs.declared.status.Status.TheVariants as status;

use crate::desk::Desk;
use crate::gate::Gate;
use crate::got::Got;
use crate::outlet::Run;
use crate::place::Place;
use crate::vaults::Vaults;
use std::sync::Wait;
use xh_core::{Refused, Status};
use xh_model::limits::MAX_BUDGET;

// The bytes, or how many blocks are left.
pub(super) fn reclaimed(bytes: u64, left: u16) -> Result<u64, Refused>
    ensures { result ≡ reclaimed bytes left }
{
    if left == 0 {
        return Ok(bytes);
    }
    Err(Refused::Unfinished {
        left: u32::from(left),
    })
}

fn ending(left: u16) -> Status
    ensures { result ≡ ending_again status.Ended left }
{
    if left == 0 {
        return Status::Ended;
    }
    Status::Ending
}

// What a place goes back to that was in this state before an endpoint came.
fn ending_again(state: Status, left: u16) -> Status
    ensures { result ≡ ending_again state left }
{
    if state == Status::Ended {
        return ending(left);
    }
    state
}

impl Place {
    // How many blocks the list has from a place on. A place that is over has none.
    pub(super) fn left(&self, from: usize) -> u16
        ensures left { result ≡ length self.now.list - from }
        ensures quiet { is_over self.now.state ≡ true → self.now.list ≡ [] }
    {
        self.count().saturating_sub(from) as u16
    }

    // The place is in another state. One that is over has no block.
    fn set_state(&mut self, state: Status)
        requires { is_over state ≡ true → self.old.list ≡ [] }
        ensures state { self.new ≡ record self.old { state = state } }
        ensures quiet { is_over self.old.state ≡ true → self.old.list ≡ [] }
    {
        self.state = state;
    }

    // The block at `from` of the list goes. What waits for it, where it is an endpoint, comes to the end of
    // the list. It answers the bytes.
    fn reclaim<R: Wait, V: Vaults, G: Gate>(
        &mut self,
        desk: &mut Desk<'_, R, V, G>,
        from: usize,
        run: &mut Run<V::Lock>,
    ) -> u32
        requires at { IsSeatAt V.names desk.old self.old.seat }
        requires alive { is_over self.old.state ≢ true }
        requires some { from < length self.old.list }
        ensures same { IsSameDesk V.names V.extent desk.old desk.new }
        ensures swept { (log : List (Event × Item)) × IsSwept (IsSeen self.old.seat self.new.seat) self.old.seat.process from 1 (shown self.old.seat.lots self.old.list)
            (shown self.new.seat.lots self.new.list) result log
            × Becomes self.new.seat.lots self.new.list log self.old self.new }
        ensures back { BringsBack V.changes V.tallies result desk.old.vaults desk.new.vaults }
    {
        let r = self.blocks()[from];
        self.drain_end(desk, r, run);
        self.give_up(desk, r, run)
    }

    /// The blocks of the list from `from` on go, as far as the budget goes; what waits for an endpoint
    /// that goes comes to the end of the list, to go with them. It answers the bytes, and how many blocks
    /// are left from there.
    pub fn sweep<R: Wait, V: Vaults, G: Gate>(
        &mut self,
        desk: &mut Desk<'_, R, V, G>,
        from: usize,
        budget: u16,
    ) -> (u64, u16)
        requires at { IsSeatAt V.names desk.old self.old.seat }
        ensures same { IsSameDesk V.names V.extent desk.old desk.new }
        ensures swept { (log : List (Event × Item)) × IsSwept (IsSeen self.old.seat self.new.seat) self.old.seat.process from budget (shown self.old.seat.lots self.old.list)
            (shown self.new.seat.lots self.new.list) result.0 log
            × Becomes self.new.seat.lots self.new.list log self.old self.new × IsSweptSo from budget (shown self.old.seat.lots self.old.list) (shown self.new.seat.lots self.new.list) log }
        ensures left { result.1 ≡ length self.new.list - from }
        ensures back { BringsBack V.changes V.tallies result.0 desk.old.vaults desk.new.vaults }
    {
        let mut bytes = 0;
        let mut used = 0;
        let mut run = Run::new(desk.gate.is_open());
        while used < budget && self.left(from) > 0 {
            bytes += u64::from(self.reclaim(desk, from, &mut run));
            used += 1;
        }
        (bytes, self.left(from))
    }

    /// The process ends, or goes on ending: its blocks go, as far as the budget goes, with what was on its way to its endpoints. It answers the bytes reclaimed.
    /// NoProcess where the place is Vacant, Ended where it is Ended; Unfinished with the blocks left, and then the process is ending.
    pub fn stop<R: Wait, V: Vaults, G: Gate>(
        &mut self,
        desk: &mut Desk<'_, R, V, G>,
        budget: u16,
    ) -> Result<u64, Refused>
        requires at { IsSeatAt V.names desk.old self.old.seat }
        ensures same { IsSameDesk V.names V.extent desk.old desk.new }
        ensures stopped { (bytes : ℕ) × Stops self.old.state budget bytes self.old self.new result × BringsBack V.changes V.tallies bytes desk.old.vaults desk.new.vaults }
        ensures untouched { IsSome (first_refusal (stop self.old.state)) → desk.new.vaults ≡ desk.old.vaults }
    {
        self.state().check_stop()?;
        self.set_state(Status::Ending);
        let (bytes, left) = self.sweep(desk, 0, budget);
        self.set_state(ending(left));
        reclaimed(bytes, left)
    }

    // An endpoint comes that nobody is here for: it is swept at once.
    pub(super) fn accept_late<R: Wait, V: Vaults, G: Gate>(
        &mut self,
        desk: &mut Desk<'_, R, V, G>,
        r: u16,
        direction: u8,
    )
        requires at { IsSeatAt V.names desk.old self.old.seat × IsRecord desk.old.records.now.shape r × (direction < DIRECTIONS) }
        requires taken { self.old.state ≢ status.Vacant }
        ensures same { IsSameDesk V.names V.extent desk.old desk.new }
        ensures place { IsSamePlace self.old self.new }
        ensures swept { (Stays self.old self.new × (desk.new.vaults ≡ desk.old.vaults) × IsElsewhere (SawAt self.old.seat.shape self.old.seat.front self.new.seat.front) direction r)
            ⊎ ((bytes : ℕ) × IsTooLate direction r (ending_again self.old.state (length self.new.list)) self.old self.new bytes
            × BringsBack V.changes V.tallies bytes desk.old.vaults desk.new.vaults) }
    {
        let state = self.state();
        self.set_state(Status::Ending);
        self.sweep_late(desk, r, direction);
        self.set_state(ending_again(state, self.left(0)));
    }

    // Takes an endpoint, and sweeps it at once.
    fn sweep_late<R: Wait, V: Vaults, G: Gate>(
        &mut self,
        desk: &mut Desk<'_, R, V, G>,
        r: u16,
        direction: u8,
    )
        requires at { IsSeatAt V.names desk.old self.old.seat × IsRecord desk.old.records.now.shape r × (direction < DIRECTIONS) }
        requires alive { is_over self.old.state ≢ true }
        ensures same { IsSameDesk V.names V.extent desk.old desk.new }
        ensures swept { (Stays self.old self.new × (desk.new.vaults ≡ desk.old.vaults) × IsElsewhere (SawAt self.old.seat.shape self.old.seat.front self.new.seat.front) direction r)
            ⊎ ((bytes : ℕ) × IsTooLate direction r self.old.state self.old self.new bytes × BringsBack V.changes V.tallies bytes desk.old.vaults desk.new.vaults) }
    {
        let from = self.count();
        match self.accept(desk.records, r, direction) {
            Got::Missing { .. } => (),
            Got::Here(..) => {
                let _swept = self.sweep(desk, from, MAX_BUDGET);
            }
        }
    }
}
