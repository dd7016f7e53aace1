//! Why a call on the channels did nothing.
ghost use Rattle.std.specs.Prelude.{◌≡◌};
ghost use Rattle.xh_channel.specs.Refusals.{same_refusal};
ghost use Rattle.xh_channel.specs.declared.refused.Refused.TheVariants.{OutOfMemory};

use arrayvec::ArrayVec;
use std::alloc::AllocError;
use thiserror::Error;
use xh_model::limits::MAX_BLOCKS;

/// Why a call did nothing. The names and numbers are those of the heap's refusals.
#[derive(Drop, Debug, Error)]
pub enum Refused {
    /// A growth of memory was refused. Number 1.
    #[error("out of memory")]
    OutOfMemory,
    /// The depth is not 1 to 16. Number 2.
    #[error("the depth is not 1 to 16")]
    BadSize,
    /// No message waits, and the peer is shut. Nothing is handed back. Number 15.
    #[error("no message waits, and the peer is shut")]
    PeerClosed { back: ArrayVec<u16, MAX_BLOCKS> },
    /// No message waits. Number 16.
    #[error("no message waits")]
    Empty,
}

impl From<Refused> for xh_core::Refused {
    ghost from_gives = { λ r e. e ≡ same_refusal r };

    fn from(refused: Refused) -> xh_core::Refused {
        match refused {
            Refused::OutOfMemory => xh_core::Refused::OutOfMemory,
            Refused::BadSize => xh_core::Refused::BadSize,
            Refused::PeerClosed { back } => xh_core::Refused::PeerClosed { back },
            Refused::Empty => xh_core::Refused::Empty,
        }
    }
}

impl From<AllocError> for Refused {
    ghost from_gives = { λ _ e. e ≡ OutOfMemory };

    fn from(_error: AllocError) -> Refused {
        Refused::OutOfMemory
    }
}
