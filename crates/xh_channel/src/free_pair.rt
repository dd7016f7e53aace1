//! Both ends of a channel whose number is free.
ghost use Rattle.std.specs.Prelude.{◌≡◌, None};
ghost use Rattle.xh_channel.specs.Pairs.{IsPair};

use crate::channel_end::ChannelEnd;

/// Both ends of a channel whose number is free, without the lock of the free numbers: no type that leads back to
/// itself may have a ghost field.
#[derive(Drop)]
pub struct FreePair {
    pub low: ChannelEnd,
    pub high: ChannelEnd,
    ghost fresh: { IsPair low high },
    ghost plain: { low.contract ≡ None },
}
