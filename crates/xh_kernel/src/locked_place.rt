//! What lies behind a place's lock.
ghost use Rattle.std.specs.Prelude.{◌≡◌};
ghost use Rattle.std.proofs.Props.{props};
ghost use Rattle.xh_kernel.specs.Histories.{IsHistoryOf};
ghost use Rattle.xh_kernel.specs.Kept.{IsKeptPlace};
ghost use Rattle.xh_kernel.specs.Places.{IsSoundPlace, IsLastTold};
ghost use Rattle.xh_records.specs.Seats.{IsSeatOf};

use crate::looking::Waits;
use crate::scribe::Scribe;
use std::marker::PhantomData;
use xh_calls::{Entry, Names};
use xh_history::Pen;
use xh_place::Place;

/// A place, what is written down of it, and where its process waits. Whenever the lock is free, the place's
/// history is lawful and leads to what the place is, and its last glance is what the place is.
#[derive(Drop)]
pub(crate) struct LockedPlace<N: Names> {
    pub(crate) place: Place,
    pub(crate) scribe: Scribe,
    pub(crate) waits: Waits,
    pub(crate) of: PhantomData<N>,
    ghost named: { IsSeatOf N.parts.records place.seat },
    ghost own: { scribe.pen.table ≡ N.parts.histories },
    ghost told: { IsLastTold place scribe.pen },
    ghost lawful: { IsSoundPlace place } by { Prim.hlevel (props) },
    ghost history: { IsHistoryOf N.parts scribe.pen.number scribe.pen.history place },
}

impl<N: Names> LockedPlace<N> {
    // The place, and the pen of its history.
    pub(crate) fn into_parts(self) -> (Place, Pen<Entry>)
        ensures { IsKeptPlace N.parts result.0 result.1 }
    {
        (self.place, self.scribe.pen)
    }
}
