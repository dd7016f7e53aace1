//! Why no channel was opened.
ghost use Rattle.std.specs.Prelude.{◌≡◌};
ghost use Rattle.xh_channel.specs.Refusals.{refusal_of};

use crate::free_numbers::{AllTaken, NoHandle};

/// Why no channel was opened, and what shows it.
#[derive(Drop)]
pub enum Unopened {
    /// Each number was found taken; and where numbers come back, none had. Number 13.
    NoChannel(AllTaken),
    /// Each number was found taken, and memory for new ends of one that came back was refused. Number 1.
    OutOfMemory(AllTaken),
    /// A count of handles ran out. This is NoChannel too.
    NoHandle(NoHandle),
}

impl From<Unopened> for xh_core::Refused {
    ghost from_gives = { λ u e. e ≡ refusal_of u };

    fn from(unopened: Unopened) -> xh_core::Refused {
        match unopened {
            Unopened::NoChannel(_) | Unopened::NoHandle(_) => xh_core::Refused::NoChannel,
            Unopened::OutOfMemory(_) => xh_core::Refused::OutOfMemory,
        }
    }
}
