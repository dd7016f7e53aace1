//! The serial heap: places, channels and the bytes of blocks over the plain machine.
ghost use Rattle.std.specs.Prelude.{◌≡◌, ◌⊎◌, ◌↔◌, Err, IfOk, IfErr, OnOk};
ghost use Rattle.xh_model.specs.Config.{IsConfig};
ghost use Rattle.xh_serial.specs.PlaceCommands.{new_machine};

mod blocks;
mod books;
mod channels;
mod checks;
mod ending;
mod flight;
mod messages;
mod places;
mod sweep;

use crate::blocks::Blocks;
use crate::channels::SerialChannels;
use crate::places::Places;
use std::alloc::Global;
use std::marker::Model;
use xh_core::{Plain, Refused};
use xh_model::Config;
use xh_model::limits::MAX_RECORDS;

/// A heap whose commands are made one after the other.
///
/// A process is a number, place + 32 × generation; a record is 256 × arena + index. A direction is
/// 2 × channel + the side that it leads to.
#[derive(Drop)]
pub struct Serial {
    plain: Plain,
    blocks: Blocks,
    places: Places,
    channels: SerialChannels,
    depth: u8,
}

impl Model for Serial {
    ghost use Rattle.xh_serial.specs.Machine.{Machine, IsWhole};

    ghost Value = { Machine };

    ghost use Rattle.xh_serial.specs.View.{machine_of};

    ghost view = { machine_of };

    ghost invariant = { λ s. IsWhole (machine_of s) };
}

impl Serial {
    /// A heap without processes, channels and blocks. BadSize where the config is outside its
    /// limits, then OutOfMemory. All room but that of the blocks' bytes is made here.
    #[tactic(auto, unfolding(crate::specs::PlaceCommands::new_machine))]
    pub fn new(alloc: Global, config: Config) -> Result<Serial, Refused>
        ensures fresh { IfOk result (λ s. s ≡ new_machine config) }
        ensures limits { OnOk result (IsConfig config) }
        ensures bad_size { (result ≡ Err Refused.BadSize) ↔ (IsConfig config → ⊥) }
        ensures refused { IfErr result (λ e. (e ≡ Refused.BadSize) ⊎ (e ≡ Refused.OutOfMemory)) }
    {
        let plain = Plain::new(alloc, config)?;
        Ok(Serial {
            plain,
            blocks: Blocks::none(alloc, MAX_RECORDS * u16::from(config.arenas))?,
            places: Places::vacant(alloc)?,
            channels: SerialChannels::none(alloc)?,
            depth: config.depth,
        })
    }
}
