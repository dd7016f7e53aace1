//! All places of a machine. A process is at the place of its number's remainder by 32.
ghost use Rattle.std.specs.Prelude.{◌≡◌, ◌+◌, ◌%◌, ◌<◌, ◌≤◌, ◌==◌, ◌++◌, IfOk, length, replicate, slice_index_or};
ghost use Rattle.std.specs.List.{position, position_or_len, remove};
ghost use Rattle.xh_serial.specs.EndingCommands.{last};
ghost use Rattle.xh_serial.specs.Machine.{no_place, place, relisted, restated, with_last};
ghost use Rattle.xh_serial.specs.MessageCommands.{without_records};
ghost use Rattle.xh_serial.specs.PlaceCommands.{is_ready, started_at};
ghost use Rattle.xh_core.specs.Statuses.{status_of};
ghost use Rattle.xh_model.specs.declared.limits.TheConstants.{MAX_HELD, PLACES};

use crate::list::{drop_all, extend, index_of};
use crate::place::{Place, STRIDE, is_ready, number, start};
use arrayvec::ArrayVec;
use std::alloc::{AllocError, Global};
use std::marker::Model;
use xh_core::Status;
use xh_model::limits::PLACES;

/// The places, of which there are always 32.
#[derive(Drop)]
pub(crate) struct Places {
    places: Vec<Place>,
}

impl Model for Places {
    ghost use Rattle.std.specs.Prelude.{◌≡◌, List, length};
    ghost use Rattle.xh_model.specs.declared.limits.TheConstants.{PLACES};
    ghost use Rattle.xh_serial.specs.declared.place.Place.{Place};

    ghost Value = { List Place };

    ghost view = { λ p. p.places.items };

    ghost invariant = { λ p. length p.places.items ≡ PLACES };
}

/// The first place where a process can start.
fn first_ready(places: &[Place]) -> Option<usize>
    ensures { result ≡ position is_ready places.now }
{
    places.iter().position(is_ready)
}

impl Places {
    /// All places, vacant.
    pub(crate) fn vacant(alloc: Global) -> Result<Places, AllocError>
        ensures { IfOk result (λ places. places ≡ replicate PLACES no_place) }
    {
        let mut places = Vec::with_capacity(alloc, PLACES as usize)?;
        for _ in 0..PLACES {
            places.push(Place {
                blocks: ArrayVec::new(),
                status: Status::Vacant,
                generation: 0,
            })?;
        }
        Ok(Places { places })
    }

    /// How many places there are.
    pub(crate) fn len(&self) -> usize
        ensures count { result ≡ length self.now }
        ensures is { result ≡ PLACES }
    {
        self.places.len()
    }

    /// The place of this number.
    pub(crate) fn at(&self, place: usize) -> &Place
        requires { place < PLACES }
        ensures { result.now ≡ slice_index_or self.now place no_place }
    {
        &self.places[place]
    }

    /// The place of a process.
    fn of(&self, p: u16) -> &Place
        ensures { result.now ≡ place self.now p }
    {
        self.at(usize::from(p % STRIDE))
    }

    /// The records that the place of a process lists, in the order gained.
    pub(crate) fn blocks(&self, p: u16) -> &[u16]
        ensures list { result.now ≡ (place self.now p).blocks.items }
        ensures fits { length result.now ≤ MAX_HELD }
    {
        self.of(p).blocks.as_slice()
    }

    /// How far a process has come; Vacant where there is no such process.
    pub(crate) fn status(&self, p: u16) -> Status
        ensures { result ≡ status_of p (place self.now p).generation (place self.now p).status }
    {
        let place = self.of(p);
        place.status.of(p, u16::from(place.generation))
    }

    /// A process starts at the first place where one can: its number.
    pub(crate) fn start(&mut self) -> Option<u16>
        ensures { started_at (position is_ready self.old) self.old ≡ (result, self.new) }
    {
        let Some(at) = first_ready(self.places.as_slice()) else {
            return None;
        };
        let generation = start(&mut self.places[at]);
        Some(number(at, generation))
    }

    /// How far the process of a place has come.
    pub(crate) fn set_status(&mut self, p: u16, status: Status)
        ensures { self.new ≡ restated p status self.old }
    {
        self.places[usize::from(p % STRIDE)].status = status;
    }

    /// A record goes to the end of a list.
    pub(crate) fn add(&mut self, p: u16, r: u16)
        requires { length (place self.old p).blocks.items < MAX_HELD }
        ensures { self.new ≡ with_last p r self.old }
    {
        self.places[usize::from(p % STRIDE)].blocks.push(r);
    }

    /// So do these, in their order.
    pub(crate) fn add_all(&mut self, p: u16, blocks: &[u16])
        requires { length (place self.old p).blocks.items + length blocks.now ≤ MAX_HELD }
        ensures { self.new ≡ relisted p ((place self.old p).blocks.items ++ blocks.now) self.old }
    {
        extend(&mut self.places[usize::from(p % STRIDE)].blocks, blocks);
    }

    /// The entry at `at` leaves a list.
    pub(crate) fn remove_at(&mut self, p: u16, at: usize)
        requires { at < length (place self.old p).blocks.items }
        ensures { self.new ≡ relisted p (remove (place self.old p).blocks.items at) self.old }
    {
        self.places[usize::from(p % STRIDE)].blocks.remove(at);
    }

    /// A record leaves the list that it stands in.
    pub(crate) fn remove(&mut self, p: u16, r: u16)
        requires { position_or_len (λ q. q == r) (place self.old p).blocks.items < length (place self.old p).blocks.items }
        ensures { self.new ≡ relisted p (remove (place self.old p).blocks.items (position_or_len (λ q. q == r) (place self.old p).blocks.items)) self.old }
    {
        let at = index_of(self.blocks(p), r);
        self.remove_at(p, at);
    }

    /// These leave the list, wherever they stand in it.
    pub(crate) fn remove_all(&mut self, p: u16, blocks: &[u16])
        ensures { self.new ≡ relisted p (without_records blocks.now (place self.old p).blocks.items) self.old }
    {
        drop_all(&mut self.places[usize::from(p % STRIDE)].blocks, blocks);
    }

    /// A record goes to the end of the list that it stands in. Where it stands then.
    pub(crate) fn move_last(&mut self, p: u16, r: u16) -> usize
        requires { position_or_len (λ q. q == r) (place self.old p).blocks.items < length (place self.old p).blocks.items }
        ensures list { self.new ≡ relisted p (last r (place self.old p).blocks.items) self.old }
        ensures at { result + 1 ≡ length (place self.old p).blocks.items }
    {
        let at = index_of(self.blocks(p), r);
        let blocks = &mut self.places[usize::from(p % STRIDE)].blocks;
        blocks.remove(at);
        blocks.push(r);
        blocks.len() - 1
    }
}
