//! What is in flight, direction by direction.
ghost use Rattle.std.specs.Prelude.{◌≡◌, ℕ, ◌<◌, ◌≤◌, [], None, length};
ghost use Rattle.xh_model.specs.declared.limits.TheConstants.{DIRECTIONS};
ghost use Rattle.xh_serial.specs.Machine.{end_of, on_way};
ghost use Rattle.xh_core.specs.Flight.{AreFlightLines};
ghost use Rattle.xh_serial.specs.PlaceCommands.{serial_flight, flight_of, ledger_of};

use super::books::total;
use crate::serial::Serial;
use arrayvec::ArrayVec;
use xh_core::{FLIGHT_LINES, FlightLine};
use xh_model::limits::DIRECTIONS;

impl Serial {
    /// What is in flight on a direction.
    fn flight_on(&self, direction: u8) -> FlightLine
        requires { direction < DIRECTIONS }
        ensures { result ≡ serial_flight self.now.store direction (on_way self.now direction) }
    {
        let records = self.channels.on_way(direction);
        FlightLine {
            direction,
            blocks: records.len() as u32,
            bytes: total(&self.plain, records.as_slice()),
        }
    }

    /// A line for each direction on which blocks are on their way, in rising order. Where no block
    /// is an end, since each was closed, there is none.
    pub fn flight(&self) -> ArrayVec<FlightLine, FLIGHT_LINES>
        ensures lines { result.items ≡ flight_of self.now }
        ensures sums { AreFlightLines (ledger_of self.now).flight result.items }
        ensures nothing { ((r : ℕ) → end_of self.now r ≡ None) → (result.items ≡ []) × ((ledger_of self.now).flight ≡ 0) }
    {
        let _start = &self.plain;
        let mut lines = ArrayVec::new();
        for direction in 0..DIRECTIONS {
            let line = self.flight_on(direction);
            if line.blocks != 0 {
                lines.push(line);
            }
        }
        lines
    }
}
