//! A place for processes.
ghost use Rattle.std.specs.Prelude.{◌≡◌, ◌+◌, ◌*◌, ◌<◌, true};
ghost use Rattle.xh_serial.specs.PlaceCommands.{is_ready, serial_started};
ghost use Rattle.xh_model.specs.declared.limits.TheConstants.{PLACES};

use arrayvec::ArrayVec;
use xh_core::Status;
use xh_model::limits::{MAX_HELD, PLACES, USUAL_GENERATIONS};

/// From a process's number to that of the next one at its place.
pub(crate) const STRIDE: u16 = PLACES as u16;

/// A place: the records that its process holds, in the order gained; how far the process has come;
/// and how often the place was used before.
#[derive(Drop)]
pub(crate) struct Place {
    pub(crate) blocks: ArrayVec<u16, MAX_HELD>,
    pub(crate) status: Status,
    pub(crate) generation: u8,
}

/// Whether a process can start there.
pub(crate) fn is_ready(place: &Place) -> bool
    ensures { result ≡ is_ready place.now }
{
    match place.status {
        Status::Vacant => true,
        Status::Ended => u16::from(place.generation) + 1 < USUAL_GENERATIONS,
        _ => false,
    }
}

/// The next process starts. Its generation.
pub(crate) fn start(place: &mut Place) -> u8
    requires { is_ready place.old ≡ true }
    ensures place { place.new ≡ serial_started place.old }
    ensures generation { result ≡ place.new.generation }
{
    if place.status != Status::Vacant {
        place.generation += 1;
    }
    place.status = Status::Running;
    place.generation
}

/// The number of a process.
pub(crate) fn number(place: usize, generation: u8) -> u16
    requires { place < PLACES }
    ensures { result ≡ place + PLACES * generation }
{
    place as u16 + STRIDE * u16::from(generation)
}
