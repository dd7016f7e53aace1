//! Processes start, and are looked at.
ghost use Rattle.std.specs.Prelude.{◌≡◌, ◌+◌, ◌<◌};
ghost use Rattle.xh_serial.specs.PlaceCommands.{spawn, glance};

use crate::serial::Serial;
use xh_core::{Glance, Refused};
use xh_model::limits::PLACES;

impl Serial {
    /// A process starts at the lowest place that is vacant, or whose process has ended and is not
    /// of generation 127: its number, place + 32 × generation. NoPlace where there is none.
    #[tactic(auto, unfolding(crate::specs::PlaceCommands::spawn))]
    pub fn spawn(&mut self) -> Result<u16, Refused>
        ensures { spawn self.old ≡ (result, self.new) }
    {
        self.places.start().ok_or(Refused::NoPlace)
    }

    /// A look at the place of number `place`. NoProcess where it is 32 or more.
    #[tactic(auto, unfolding(crate::specs::PlaceCommands::glance))]
    pub fn glance(&self, place: u8) -> Result<Glance, Refused>
        ensures { result ≡ glance place self.now }
    {
        if place >= PLACES {
            return Err(Refused::NoProcess);
        }
        Ok(self.glance_at(usize::from(place)))
    }
}
