//! Endpoints of a place.
ghost use Rattle.std.specs.Prelude.{◌≡◌, ◌≢◌, ℕ, ◌*◌, ◌<◌, ◌++◌, ◌∷◌, [], List, is_some, length, IsSome, OnOk, Some, MatchOption, true, false};
ghost use Rattle.xh_arena.specs.Views.{LotOf};
ghost use Rattle.xh_channel.specs.declared.message.Message.{Message};
ghost use Rattle.xh_core.specs.Calls.{arena_tests, end_tests, start};
ghost use Rattle.xh_core.specs.Refusing.{first_refusal};
ghost use Rattle.xh_core.specs.Statuses.{is_over};
ghost use Rattle.xh_model.specs.Keyed.{value_at, without};
ghost use Rattle.xh_model.specs.declared.limits.TheConstants.{DIRECTIONS, END_BYTES};
ghost use Rattle.xh_place.specs.declared.body.Body.{Body};
ghost use Rattle.xh_place.specs.Bodies.{IsEndAt, content_of};
ghost use Rattle.xh_place.specs.Calls.{Closes};
ghost use Rattle.xh_place.specs.Desk.{IsSameDesk, IsSeatAt, StaysAt};
ghost use Rattle.xh_place.specs.Endpoints.{IsDrained};
ghost use Rattle.xh_place.specs.Accepting.{Accepts, is_here};
ghost use Rattle.xh_place.specs.Opening.{IsUnopened, Opens};
ghost use Rattle.xh_place.specs.Places.{found, item_of};
ghost use Rattle.xh_place.specs.Seen.{Becomes, FindsFull, Stays, less};
ghost use Rattle.xh_place.specs.Deeds.{passed_on};
ghost use Rattle.xh_place.specs.Vaults.{BringsBack, AsksEach, IsNoPair};
ghost use Rattle.xh_records.specs.Seats.{IsRecord, IsSeatOf};
ghost use Rattle.xh_channel.specs.Pairs.{IsPair};
ghost use Rattle.xh_core.specs.Headers.{has_end};
ghost use Rattle.xh_place.specs.inner.Lots.{IsEndLot};
ghost use Rattle.xh_place.specs.inner.Draining.{Clears, Drains};
ghost use Rattle.xh_core.specs.declared.status.Status.TheVariants as status;

use crate::body::Body;
use crate::checks::{holds, test_end};
use crate::desk::Desk;
use crate::end_lots::{shut_at, spot_at};
use crate::gate::{Gate, Point};
use crate::got::Got;
use crate::list::remove;
use crate::lots::{look, pass_block, place_of};
use crate::opening::{Unopened, make_ends};
use crate::outlet::Run;
use crate::place::Place;
use crate::place::reclaiming::reclaimed;
use crate::vaults::Vaults;
use std::sync::Wait;
use xh_channel::{Endpoint, Spot};
use xh_core::{Block, Kind, Refused, Status};
use xh_model::limits::{END_BYTES, MAX_BUDGET};
use xh_records::Records;

impl Place {
    /// The channel and side of an endpoint of the list; of any other record None.
    pub fn spot(&mut self, records: &Records<Body>, r: u16) -> Option<Spot>
        requires own { IsSeatOf records.now self.old.seat }
        ensures same { Stays self.old self.new }
        ensures spot { MatchOption result (has_end (found self.old.seat r) ≡ false) (λ s. (l : LotOf Body) × (value_at r self.old.seat.lots ≡ Some l) × IsEndAt (content_of l.body) s.channel s.side) }
    {
        if !holds(records, &mut self.seat, r) {
            return None;
        }
        spot_at(records, &mut self.seat, r)
    }

    /// Both ends of a channel that was just opened, with a contract or without, come to the end of the list: side 0, then side 1, each of 32 bytes, the halves of one first fit of 64.
    /// NoProcess, Ended, NoArena, NoRecord, NoSpace, Worn; a refusal hands the ends back, and each record that was claimed is free again.
    pub fn open<R, V: Vaults, G: Gate>(
        &mut self,
        desk: &mut Desk<'_, R, V, G>,
        low: Endpoint,
        high: Endpoint,
        arena: u32,
    ) -> Result<(Block, Block), Unopened>
        requires at { IsSeatAt V.names desk.old self.old.seat }
        requires fresh { IsPair low high }
        ensures same { StaysAt V.names V.extent desk.old desk.new self.old self.new }
        ensures opened { Opens arena low high self.old self.new (V.tallies desk.old.vaults) (V.tallies desk.new.vaults) result }
        ensures asked { OnOk result (AsksEach V.changes (arena ∷ arena ∷ []) desk.old.vaults desk.new.vaults) }
        ensures why { IsUnopened (start self.old.state ++ arena_tests arena (length self.old.seat.shape.names)) ((desk.new.vaults ≡ desk.old.vaults)
            × Stays self.old self.new)
            (IsNoPair V.changes desk.old.vaults desk.new.vaults arena (2 * END_BYTES) (FindsFull 1 self.old.seat self.new.seat arena)) result }
    {
        if let Err(why) = self.state.check_start() {
            return Err(Unopened { why, low, high });
        }
        if arena >= u32::from(desk.vaults.arenas()) {
            let why = Refused::NoArena;
            return Err(Unopened { why, low, high });
        }
        let arena = arena as u8;
        let made = make_ends(desk, &mut self.seat, low, high, arena)?;
        self.list.push_reserved(made.0);
        self.list.push_reserved(made.1);
        self.total += u64::from(2 * END_BYTES);
        let len = END_BYTES;
        Ok((Block { rec: made.0, len }, Block { rec: made.1, len }))
    }

    /// As `open`, of a channel that was opened with a contract: the ends say which.
    pub fn open_with<R, V: Vaults, G: Gate>(
        &mut self,
        desk: &mut Desk<'_, R, V, G>,
        low: Endpoint,
        high: Endpoint,
        arena: u32,
    ) -> Result<(Block, Block), Unopened>
        requires at { IsSeatAt V.names desk.old self.old.seat }
        requires fresh { IsPair low high × (is_some low.contract ≡ true) }
        ensures same { StaysAt V.names V.extent desk.old desk.new self.old self.new }
        ensures opened { Opens arena low high self.old self.new (V.tallies desk.old.vaults) (V.tallies desk.new.vaults) result }
        ensures asked { OnOk result (AsksEach V.changes (arena ∷ arena ∷ []) desk.old.vaults desk.new.vaults) }
        ensures why { IsUnopened (start self.old.state ++ arena_tests arena (length self.old.seat.shape.names)) ((desk.new.vaults ≡ desk.old.vaults)
            × Stays self.old self.new)
            (IsNoPair V.changes desk.old.vaults desk.new.vaults arena (2 * END_BYTES) (FindsFull 1 self.old.seat self.new.seat arena)) result }
    {
        self.open(desk, low, high, arena)
    }

    /// An endpoint of the list is in flight on the direction from now on.
    pub fn pass_end(&mut self, records: &Records<Body>, r: u16, direction: u8)
        requires own { IsSeatOf records.now self.old.seat × (direction < DIRECTIONS) }
        requires running { self.old.state ≡ status.Running }
        requires end { has_end (found self.old.seat r) ≡ true }
        ensures { (l : LotOf Body) × (value_at r self.old.seat.lots ≡ Some l)
            × Becomes (without r self.old.seat.lots) (less r self.old.list) (passed_on self.old.seat.process direction ((r, item_of l) ∷ [])) self.old self.new }
    {
        let len = pass_block(records, &mut self.seat, r, direction);
        remove(&mut self.list, r);
        self.total -= u64::from(len);
    }

    // Whether the process runs here.
    fn is_here(&self, process: u16) -> bool
        ensures here { result ≡ is_here self.now process }
        ensures running { result ≡ true → self.now.state ≡ status.Running }
    {
        self.state() == Status::Running && self.seat.process() == process
    }

    /// Takes the endpoint `r`, which is in flight on the direction, at the end of the list, for a process that runs here.
    /// Ended where the process doesn't, and then the endpoint is closed as by `close_end`; Ended also where the place is Vacant or the record's word is another, and then nothing changes.
    pub fn accept_end<R: Wait, V: Vaults, G: Gate>(
        &mut self,
        desk: &mut Desk<'_, R, V, G>,
        process: u16,
        r: u16,
        direction: u8,
    ) -> Result<Block, Refused>
        requires at { IsSeatAt V.names desk.old self.old.seat × IsRecord desk.old.records.now.shape r × (direction < DIRECTIONS) }
        ensures same { StaysAt V.names V.extent desk.old desk.new self.old self.new }
        ensures accepted { Accepts V.changes V.tallies process r direction self.old self.new desk.old.vaults desk.new.vaults result }
    {
        if self.state() == Status::Vacant {
            return Err(Refused::Ended);
        }
        if self.is_here(process) {
            return match self.accept(desk.records, r, direction) {
                Got::Here(block, _) => Ok(block),
                Got::Missing { .. } => Err(Refused::Ended),
            };
        }
        self.accept_late(desk, r, direction);
        Err(Refused::Ended)
    }

    /// Closes the endpoint `e`: it goes, and what was on its way to it. It answers the bytes reclaimed.
    /// NoProcess, Ended, NotOwned, NotEndpoint; Unfinished with the blocks left of what came with it.
    pub fn close_end<R: Wait, V: Vaults, G: Gate>(
        &mut self,
        desk: &mut Desk<'_, R, V, G>,
        e: u16,
    ) -> Result<u64, Refused>
        requires at { IsSeatAt V.names desk.old self.old.seat }
        ensures same { IsSameDesk V.names V.extent desk.old desk.new }
        ensures closed { (bytes : ℕ) × Closes self.old.state e bytes self.old self.new result × BringsBack V.changes V.tallies bytes desk.old.vaults desk.new.vaults }
        ensures untouched { IsSome (first_refusal (start self.old.state ++ end_tests (found self.old.seat e))) → desk.new.vaults ≡ desk.old.vaults }
    {
        test_end(desk.records, &mut self.seat, self.state, e)?;
        self.move_last(e);
        let from = self.count() - 1;
        let (bytes, left) = self.sweep(desk, from, MAX_BUDGET);
        reclaimed(bytes, left)
    }

    // A block of the list goes to its end.
    fn move_last(&mut self, r: u16)
        requires { (l : LotOf Body) × (value_at r self.old.seat.lots ≡ Some l) }
        ensures { self.new ≡ record self.old { list = less r self.old.list ++ r ∷ [] } }
    {
        remove(&mut self.list, r);
        self.list.push_reserved(r);
    }

    // Takes all that waits for an endpoint of the list, with its blocks, at the end of the list.
    fn drain<R: Wait, V, G: Gate>(&mut self, desk: &Desk<'_, R, V, G>, e: u16)
        requires own { IsSeatOf desk.now.records.now self.old.seat }
        requires alive { is_over self.old.state ≢ true }
        requires end { (l : LotOf Body) × (value_at e self.old.seat.lots ≡ Some l) × IsEndLot l }
        ensures drained { (ms : List Message) × Drains (IsDrained 0) e ms self.old self.new }
    {
        for _count in 0..u64::MAX {
            let mut answer = Err(Refused::Empty);
            self.take_message(desk, e, &mut answer);
            match answer {
                Ok(_taken) => {}
                Err(_refused) => return,
            }
        }
    }

    // An endpoint is shut, and what waits for it comes to the end of the list. A data block stays. No lock of an arena is held as an endpoint is drained.
    pub(super) fn drain_end<R: Wait, V: Vaults, G: Gate>(
        &mut self,
        desk: &Desk<'_, R, V, G>,
        r: u16,
        run: &mut Run<V::Lock>,
    )
        requires own { IsSeatOf desk.now.records.now self.old.seat }
        requires alive { is_over self.old.state ≢ true }
        requires held { (l : LotOf Body) × (value_at r self.old.seat.lots ≡ Some l) }
        ensures cleared { (l m : LotOf Body) × (gained : List (ℕ × LotOf Body)) × Clears r l m gained self.old self.new }
    {
        match look(desk.records, &mut self.seat, r).kind {
            Kind::Data => return,
            Kind::End => run.end(),
        }
        shut_at(desk, &mut self.seat, r);
        desk.gate.between(place_of(&self.seat), Point::Shut);
        self.drain(desk, r);
    }
}
