//! A process's place.
ghost use Rattle.std.specs.Prelude.{◌≡◌, ◌⊎◌, ◌+◌, ◌*◌, ◌<◌, ◌≤◌, [], length, IfOk, IfErr, true};
ghost use Rattle.xh_core.specs.Statuses.{is_over};
ghost use Rattle.xh_model.specs.declared.limits.TheConstants.{GENERATIONS, MAX_ARENAS, MAX_RECORDS};
ghost use Rattle.xh_place.specs.Places.{AreBlocks, AreWhole, Lists, found, place_line, line_in, started, total_of};
ghost use Rattle.xh_place.specs.Seen.{Stays};
ghost use Rattle.xh_model.specs.Words.{generation_of};
ghost use Rattle.xh_records.specs.Seats.{IsSeatOf};
ghost use Rattle.xh_core.specs.declared.status.Status.TheVariants as status;

mod blocks;
mod endpoints;
mod messages;
mod reclaiming;

use crate::body::Body;
use crate::checks::find;
use std::alloc::Global;
use std::marker::Model;
use xh_core::{Glance, Header, PlaceLine, Refused, Status};
use xh_records::{Order, Records, Seat};

/// A place: the seat that holds the lots of its blocks, the numbers of their records in the order
/// gained, their total and how far its process has come.
#[derive(Drop)]
pub struct Place {
    seat: Seat<Body>,
    list: Order,
    total: u64,
    state: Status,
}

impl Model for Place {
    ghost use Rattle.xh_place.specs.Places.{IsPlace, PlaceSeen};

    ghost Value = { PlaceSeen };

    ghost view = { λ p. record { seat = p.seat; list = p.list.items; state = p.state } };

    ghost invariant = { λ p. IsPlace p.seat.shape p.seat.lots p.list.items p.list.capacity p.total p.state };
}

impl Place {
    /// A place that nobody has yet, on a seat that holds nothing. `room` is the number of records of all
    /// arenas, of which there are at most 8. OutOfMemory where a growth was refused.
    pub fn new(alloc: Global, seat: Seat<Body>, room: u16) -> Result<Place, Refused>
        requires empty { seat.lots ≡ [] }
        requires room { room ≡ length seat.shape.names * seat.shape.records }
        requires arenas { length seat.shape.names ≤ MAX_ARENAS }
        ensures place { IfOk result (λ p. p ≡ record { seat = seat; list = []; state = status.Vacant }) }
        ensures refused { IfErr result (λ e. e ≡ Refused.OutOfMemory) }
    {
        let list = Order::with_capacity(alloc, usize::from(room))?;
        Ok(Place {
            seat,
            list,
            total: 0,
            state: Status::Vacant,
        })
    }

    /// The place is a process's from now on: its first one, or the next, of which there are at most 2,047.
    pub fn start(&mut self, records: &Records<Body>)
        requires own { IsSeatOf records.now self.old.seat }
        requires free { (self.old.state ≡ status.Vacant) ⊎ ((self.old.state ≡ status.Ended) × (generation_of self.old.seat.process + 1 < GENERATIONS)) }
        ensures { self.new ≡ started self.old }
    {
        if let Status::Ended = self.state {
            records.renew(&mut self.seat);
        }
        self.state = Status::Running;
    }

    /// The records of its blocks, in the order gained.
    pub fn blocks(&self) -> &[u16]
        ensures list { result.now ≡ self.now.list }
        ensures blocks { AreBlocks self.now }
        ensures none { is_over self.now.state ≡ true → self.now.list ≡ [] }
    {
        self.list.as_slice()
    }

    /// How many bytes its blocks have.
    pub fn total(&self) -> u64
        ensures total { result ≡ total_of self.now }
        ensures blocks { AreBlocks self.now }
    {
        self.total
    }

    /// The number of its latest process: the place, and 32 times the generation.
    pub fn process(&self) -> u16
        ensures { result ≡ self.now.seat.process }
    {
        self.seat.process()
    }

    /// How far its process has come.
    pub fn state(&self) -> Status
        ensures { result ≡ self.now.state }
    {
        self.state
    }

    /// The length and kind of a block of the list; of any other record None.
    pub fn header(&mut self, records: &Records<Body>, r: u16) -> Option<Header>
        requires own { IsSeatOf records.now self.old.seat }
        ensures same { Stays self.old self.new }
        ensures header { result ≡ found self.old.seat r }
    {
        find(records, &mut self.seat, r)
    }

    // How many blocks the list has.
    fn count(&self) -> usize
        ensures count { result ≡ length self.now.list }
        ensures few { result ≤ MAX_ARENAS * MAX_RECORDS }
        ensures quiet { is_over self.now.state ≡ true → self.now.list ≡ [] }
    {
        self.list.len()
    }

    /// Gives the seat, which holds the blocks of the list and no others, and what the ledger says of the
    /// place, unless nobody has had it.
    pub fn end(self) -> (Seat<Body>, Option<PlaceLine>)
        ensures same { result.0 ≡ self.seat }
        ensures lists { Lists self.seat.lots self.list × AreWhole self.seat.shape self.seat.lots }
        ensures nothing { is_over self.state ≡ true → self.seat.lots ≡ [] }
        ensures line { result.1 ≡ line_in self.state (place_line self) }
    {
        let line = self.line();
        let Place {
            seat,
            list: _,
            total: _,
            state,
        } = self;
        match state {
            Status::Vacant => (seat, None),
            _ => (seat, Some(line)),
        }
    }

    // What the ledger says of it.
    fn line(&self) -> PlaceLine
        ensures { result ≡ place_line self.now }
    {
        let glance = Glance {
            process: self.process(),
            state: self.state,
            blocks: self.count() as u32,
            bytes: self.total(),
        };
        glance.line()
    }
}
