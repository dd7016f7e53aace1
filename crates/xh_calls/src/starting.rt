//! Whether a process runs at a place, and its start.
ghost use Rattle.std.specs.Prelude.{◌≡◌, IfErr, OnOk, Some};
ghost use Rattle.xh_core.specs.declared.status.Status.TheVariants as status;
ghost use Rattle.xh_core.specs.Calls.{start, stop};
ghost use Rattle.xh_core.specs.Refusing.{Tested, first_refusal};
ghost use Rattle.xh_model.specs.Words.{place_of};
ghost use Rattle.xh_records.specs.Seats.{IsSeatOf};
ghost use Rattle.xh_records.specs.History.{StartsWith};
ghost use Rattle.xh_calls.specs.Calls.{Spawns};
ghost use Rattle.xh_calls.specs.Places.{status_at};

use crate::heap::Heap;
use crate::names::Names;
use xh_core::{Refused, Status};
use xh_model::limits::{PLACES, PROCESSES};
use xh_place::Place;

// The process is the place's latest, whose state the place's calls test. NoProcess, and Ended of one before it.
pub(crate) fn check_number(place: &Place, p: u16) -> Result<(), Refused>
    ensures latest { OnOk result (status_at p place.now ≡ place.now.state) }
    ensures unstarted { IfErr result (λ e. first_refusal (start (status_at p place.now)) ≡ Some e) }
    ensures unstopped { IfErr result (λ e. first_refusal (stop (status_at p place.now)) ≡ Some e) }
{
    let latest = place.process();
    if latest == p && p < PROCESSES {
        return Ok(());
    }
    match Status::Ended.of(p, latest / u16::from(PLACES)) {
        Status::Vacant => Err(Refused::NoProcess),
        _ => Err(Refused::Ended),
    }
}

/// The tests of a call by the process: it is the latest of the place, and runs. NoProcess, Ended.
pub fn check_start(place: &Place, p: u16) -> Result<(), Refused>
    ensures { Tested (start (status_at p place.now)) result (λ _. place.now.state ≡ status.Running) }
{
    check_number(place, p)?;
    place.state().check_start()
}

impl<N: Names> Heap<N> {
    /// The next process of the place runs now, where there is one: its number. None where one runs, or it
    /// was used as often as a place is.
    #[tactic(auto, using(crate::proofs::Started::starts, xh_place::proofs::Deeds::stays_itself))]
    pub fn spawn(&self, place: &mut Place) -> Option<u16>
        requires { IsSeatOf N.parts.records place.old.seat }
        ensures own { IsSeatOf N.parts.records place.new.seat }
        ensures longer { StartsWith place.new.seat.front place.old.seat.front }
        ensures same { place_of place.new.seat.process ≡ place_of place.old.seat.process }
        ensures spawns { Spawns N.parts.generations place.old place.new result }
    {
        let again = place.process() / u16::from(PLACES) + 1 < self.generations;
        match place.state() {
            Status::Vacant => (),
            Status::Ended if again => (),
            _ => return None,
        }
        place.start(&self.records);
        Some(place.process())
    }
}
