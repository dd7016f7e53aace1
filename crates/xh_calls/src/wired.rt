//! A channel on its way to another process.
ghost use Rattle.std.specs.Prelude.{◌<◌};
ghost use Rattle.xh_model.specs.declared.limits.TheConstants.{CHANNELS};

use xh_channel::Hold;
use xh_core::Block;

/// A channel whose side 1 is on its way: both ends' blocks, and the channel's number, which is no newer channel's while it is held.
#[derive(Drop)]
pub struct Wired {
    pub low: Block,
    pub high: Block,
    pub channel: u8,
    pub hold: Option<Hold>,
    ghost there: { channel < CHANNELS },
}
