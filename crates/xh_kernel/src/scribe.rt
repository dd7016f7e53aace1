//! What is written down of a place: its history, and by the history's word what looks see without its lock.
ghost use Rattle.std.specs.Prelude.{◌≡◌, ◌<◌, ◌^◌, [], ◌∷◌, ◌++◌, length, true, ℕ};
ghost use Rattle.xh_calls.specs.declared.call.Call.{Call};
ghost use Rattle.xh_core.specs.Statuses.{is_over};
ghost use Rattle.xh_history.specs.Histories.{at};
ghost use Rattle.xh_kernel.specs.Calls.{LeadsOn, Noted, Steps};
ghost use Rattle.xh_kernel.specs.Histories.{Does, ComesTo, IsHistoryOf};
ghost use Rattle.xh_kernel.specs.Places.{IsSoundPlace, IsLastTold, last_glance};
ghost use Rattle.xh_kernel.specs.Words.{IsPackable, unpacked};
ghost use Rattle.xh_model.specs.declared.limits.TheConstants.{GENERATIONS};
ghost use Rattle.xh_model.specs.Words.{generation_of, place_of};
ghost use Rattle.xh_place.specs.Places.{AreBlocks, glance_of};
ghost use Rattle.xh_records.specs.Seats.{IsSeatOf};

use crate::shared::Shared;
use crate::words::pack;
use xh_calls::{Entry, Names};
use xh_core::Glance;
use xh_history::{Front, Pen};
use xh_place::Place;

/// The pen of a place's history, and the word that tells what the place was after the last call.
#[derive(Drop)]
pub(crate) struct Scribe {
    pub(crate) pen: Pen<Entry>,
    pub(crate) last: u64,
    ghost told: { last_glance pen.number pen.history ≡ unpacked pen.number last },
}

// How many blocks a place has.
fn count_of(place: &Place) -> u32
    ensures count { result ≡ length place.now.list }
    ensures few { result < 2 ^ 12 }
    ensures blocks { ∥ AreBlocks place.now ∥₁ }
    ensures none { is_over place.now.state ≡ true → length place.now.list ≡ 0 }
{
    place.blocks().len() as u32
}

// What a look sees of a place.
fn shown(place: &Place) -> Glance
    requires { generation_of place.now.seat.process < GENERATIONS }
    ensures shown { result ≡ glance_of place.now }
    ensures bounds { IsPackable result }
    ensures lawful { IsSoundPlace place.now }
{
    Glance {
        process: place.process(),
        state: place.state(),
        blocks: count_of(place),
        bytes: place.total(),
    }
}

impl Scribe {
    // The pen of a history of which the last glance is what the place is.
    pub(crate) fn new(pen: Pen<Entry>, place: &Place) -> Scribe
        requires told { IsLastTold place.now pen }
        requires process { generation_of place.now.seat.process < GENERATIONS }
        ensures same { result.pen ≡ pen }
        ensures lawful { IsSoundPlace place.now }
    {
        let last = pack(shown(place));
        Scribe { pen, last }
    }

    // Writes down a call that a worker made on the place, and tells what the place is now. Which call it was the
    // caller's proof says, by what is shown here. After a call like a read looks see the `same`: no word is made then.
    // It is inlined, so that what is shown costs nothing.
    #[inline(always)]
    pub(crate) fn note<N: Names, A>(
        &mut self,
        shared: &Shared<N>,
        place: &Place,
        front: &mut Front<Entry>,
        about: &A,
        same: bool,
    )
        ghost call: { Call }
        requires pen { self.old.pen.table ≡ N.parts.histories }
        requires front { (front.old.table ≡ N.parts.histories) × (front.old.number < N.parts.workers) }
        requires place { IsSeatOf N.parts.records place.now.seat }
        requires process { (place_of place.now.seat.process ≡ self.old.pen.number) × (generation_of place.now.seat.process < GENERATIONS) }
        requires does { ComesTo N.parts self.old.pen.number self.old.pen.history call place.now }
        requires same { same ≡ true → IsLastTold place.now self.old.pen }
        ensures pen { (self.new.pen.table ≡ N.parts.histories) × (self.new.pen.number ≡ self.old.pen.number) }
        ensures told { IsLastTold place.now self.new.pen }
        ensures lawful { IsSoundPlace place.now }
        ensures history { IsHistoryOf N.parts self.new.pen.number self.new.pen.history place.now }
        ensures one_more { self.new.pen.history ≡ self.old.pen.history ++ (front.old.number, record { call = call; glance = glance_of place.now }) ∷ [] }
        ensures whole { at front.new.fronts self.old.pen.number ≡ self.new.pen.history }
        ensures front { (front.new.table ≡ front.old.table) × (front.new.number ≡ front.old.number) }
        ensures noted { Noted self.old.pen.number call front.old.number front.old.fronts front.new.fronts }
        ensures step { (k : ℕ) → self.old.pen.number ≡ k → Steps N.leads k (at front.new.fronts k) (Does N.parts call) }
        ensures now { (k : ℕ) → self.old.pen.number ≡ k → LeadsOn N.parts N.leads k self.old.pen.history (at front.new.fronts k) place.now }
    {
        let glance = shown(place);
        let word = if same { self.last } else { pack(glance) };
        let shows = if word == self.last { None } else { Some(word) };
        shared
            .histories
            .add(&mut self.pen, front, shows, &(about, glance));
        self.last = word;
    }
}
