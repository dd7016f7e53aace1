//! One end of a channel.
ghost use Rattle.std.specs.Prelude.{◌≡◌, is_some};
ghost use Rattle.xh_channel.specs.Agreement.{AgreesWith, ArePeers, told_all};

use crate::channel_end::{self, ChannelEnd};
use crate::free_numbers::Home;
use crate::spot::Spot;
use std::marker::Model;

/// One end of a channel. It goes from owner to owner, and whoever has it may put, take and shut.
#[derive(Drop)]
pub struct Endpoint {
    pub(crate) inner: ChannelEnd,
    // of the channels that opened it: `cancel` puts it back there
    pub(crate) home: Home,
}

impl Model for Endpoint {
    ghost use Rattle.xh_channel.specs.Endpoint.{EndpointOf};

    ghost Value = { EndpointOf };

    ghost view = { λ e. e.inner };
}

/// Shows, of both ends of a channel, that what each took is a prefix of what the other pushed, each message once, with the numbers 1, 2, .. in order.
/// It takes both ends and gives them back, each told of all that the other did. What an end was told before is no more
/// than that. All that an end pushed it also sent, but for a message that met a shut peer.
pub fn compare(one: Endpoint, other: Endpoint) -> (Endpoint, Endpoint)
    requires { ArePeers one other }
    ensures told { (result.0 ≡ told_all one other) × (result.1 ≡ told_all other one) }
    ensures agree { AgreesWith one other × AgreesWith other one }
{
    let (first, second) = channel_end::compare(one.inner, other.inner);
    let one = Endpoint {
        inner: first,
        ..one
    };
    let other = Endpoint {
        inner: second,
        ..other
    };
    (one, other)
}

impl Endpoint {
    /// Its channel, 0 to 63, and its side, 0 or 1.
    pub fn spot(&self) -> Spot
        ensures { result ≡ self.now.spot }
    {
        self.inner.spot
    }

    /// Whether its channel has a contract.
    pub fn has_contract(&self) -> bool
        ensures { result ≡ is_some self.now.contract }
    {
        self.inner.has_contract
    }
}
