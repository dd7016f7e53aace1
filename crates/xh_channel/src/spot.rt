//! The name of one end of a channel.
ghost use Rattle.std.specs.Prelude.{◌≡◌, ◌+◌, ◌-◌, ◌*◌, ◌<◌};
ghost use Rattle.xh_model.specs.declared.limits.TheConstants.{CHANNELS, DIRECTIONS};

/// One end of a channel: the channel, 0 to 63, and the side, 0 or 1.
#[derive(Clone, Copy, Debug, PartialEq, Eq)]
pub struct Spot {
    pub channel: u8,
    pub side: u8,
    ghost there: { (channel < CHANNELS) × (side < 2) },
}

impl Spot {
    /// The number of the direction toward this end, 0 to 127: what its peer gives comes on it.
    pub fn toward(self) -> u8
        ensures { (result ≡ 2 * self.channel + self.side) × (result < DIRECTIONS) }
    {
        2 * self.channel + self.side
    }

    /// The number of the direction away from this end, 0 to 127: what it gives goes on it.
    pub fn away(self) -> u8
        ensures { (result ≡ 2 * self.channel + 1 - self.side) × (result < DIRECTIONS) }
    {
        2 * self.channel + 1 - self.side
    }
}
