//! Why a command is refused: each refusal with its number and its name.
ghost use Rattle.std.specs.Prelude.{◌≡◌};
ghost use Rattle.xh_core.specs.Refusals.{refusal_number, name_of};
ghost use Rattle.xh_core.specs.declared.refused.Refused.TheVariants.{OutOfMemory};

use arrayvec::ArrayVec;
use std::alloc::{AllocError, AllocFailed};
use std::error::Error;
use std::fmt;
use xh_model::limits::{
    MAX_ARENAS, MAX_BLOCKS, MAX_BYTES, MAX_DEPTH, MAX_RECORDS, MAX_ROWS, PLACES, UNIT,
};

/// Why a command is refused.
#[derive(Debug, Drop)]
pub enum Refused {
    /// A growth of memory was refused.
    OutOfMemory,
    /// A size, a configuration or a count is outside its limits.
    BadSize,
    /// There is no such arena.
    NoArena,
    /// No hole of the arena holds that many bytes.
    NoSpace,
    /// Each record of the arena is taken.
    NoRecord,
    /// The process has no such block or end.
    NotOwned,
    /// The block is an endpoint.
    NotData,
    /// The block is no endpoint.
    NotEndpoint,
    /// The cut is not a multiple of 16 inside the block.
    BadCut,
    /// The bytes reach past the end of the block.
    BadRange,
    /// There is no such process.
    NoProcess,
    /// The process is ending or has ended.
    Ended,
    /// Each channel is taken.
    NoChannel,
    /// The direction holds as many messages as it may; the blocks are handed back.
    Full { back: ArrayVec<u16, MAX_BLOCKS> },
    /// The peer is closed; the blocks of a give are handed back.
    PeerClosed { back: ArrayVec<u16, MAX_BLOCKS> },
    /// No message waits.
    Empty,
    /// A message carries at most 8 blocks.
    TooMany,
    /// A block, or a name, stands twice.
    Twice,
    /// With these bytes the arena would pass what it may ever hand out.
    Worn,
    /// The budget was used up; so many blocks are left.
    Unfinished { left: u32 },
    /// Each place is taken.
    NoPlace,
    /// In this state the channel's contract allows no message with this tag from this side; the blocks
    /// are handed back.
    Protocol { back: ArrayVec<u16, MAX_BLOCKS> },
}

impl Refused {
    /// Its number, 1 to 22.
    pub fn number(&self) -> u8
        ensures { result ≡ refusal_number self.now }
    {
        match self {
            Refused::OutOfMemory => 1,
            Refused::BadSize => 2,
            Refused::NoArena => 3,
            Refused::NoSpace => 4,
            Refused::NoRecord => 5,
            Refused::NotOwned => 6,
            Refused::NotData => 7,
            Refused::NotEndpoint => 8,
            Refused::BadCut => 9,
            Refused::BadRange => 10,
            Refused::NoProcess => 11,
            Refused::Ended => 12,
            Refused::NoChannel => 13,
            Refused::Full { .. } => 14,
            Refused::PeerClosed { .. } => 15,
            Refused::Empty => 16,
            Refused::TooMany => 17,
            Refused::Twice => 18,
            Refused::Worn => 19,
            Refused::Unfinished { .. } => 20,
            Refused::NoPlace => 21,
            Refused::Protocol { .. } => 22,
        }
    }

    /// Its name, as replies print it.
    pub fn name(&self) -> &'static str
        ensures { result.now ≡ name_of self.now }
    {
        match self {
            Refused::OutOfMemory => "OutOfMemory",
            Refused::BadSize => "BadSize",
            Refused::NoArena => "NoArena",
            Refused::NoSpace => "NoSpace",
            Refused::NoRecord => "NoRecord",
            Refused::NotOwned => "NotOwned",
            Refused::NotData => "NotData",
            Refused::NotEndpoint => "NotEndpoint",
            Refused::BadCut => "BadCut",
            Refused::BadRange => "BadRange",
            Refused::NoProcess => "NoProcess",
            Refused::Ended => "Ended",
            Refused::NoChannel => "NoChannel",
            Refused::Full { .. } => "Full",
            Refused::PeerClosed { .. } => "PeerClosed",
            Refused::Empty => "Empty",
            Refused::TooMany => "TooMany",
            Refused::Twice => "Twice",
            Refused::Worn => "Worn",
            Refused::Unfinished { .. } => "Unfinished",
            Refused::NoPlace => "NoPlace",
            Refused::Protocol { .. } => "Protocol",
        }
    }
}

// What limits a size, a configuration and a count have.
fn write_limits<W: fmt::Write>(f: &mut fmt::Formatter<W>) -> fmt::Result {
    write!(
        f,
        "a block has 1 byte to as many as its arena; a configuration has 1 to {MAX_ARENAS} arenas, each of {UNIT} to {MAX_BYTES} bytes, \
         a multiple of {UNIT}, and of 1 to {MAX_RECORDS} records, and a depth of 1 to {MAX_DEPTH}; a run has 1 to {PLACES} processes; \
         a contract has 1 to {MAX_ROWS} rows"
    )
}

// By hand: the proof of a derived one takes as long as that of any call.
impl fmt::Display for Refused {
    fn fmt<W: fmt::Write>(&self, f: &mut fmt::Formatter<W>) -> fmt::Result {
        let text = match self {
            Refused::BadSize => return write_limits(f),
            Refused::Unfinished { left } => {
                return write!(f, "the budget was used up, and {left} blocks are left");
            }
            Refused::OutOfMemory => "a growth of memory was refused",
            Refused::NoArena => "there is no such arena",
            Refused::NoSpace => "no hole of the arena holds that many bytes",
            Refused::NoRecord => "each record of the arena is taken",
            Refused::NotOwned => "the process has no such block or end",
            Refused::NotData => "the block is an endpoint",
            Refused::NotEndpoint => "the block is no endpoint",
            Refused::BadCut => "the cut is not a multiple of 16 inside the block",
            Refused::BadRange => "the bytes reach past the end of the block",
            Refused::NoProcess => "there is no such process",
            Refused::Ended => "the process is ending or has ended",
            Refused::NoChannel => "each channel is taken",
            Refused::Full { .. } => "the direction holds as many messages as it may",
            Refused::PeerClosed { .. } => "the peer is closed",
            Refused::Empty => "no message waits",
            Refused::TooMany => "a message carries at most 8 blocks",
            Refused::Twice => "a block or a name stands twice",
            Refused::Worn => "with these bytes the arena would pass what it may ever hand out",
            Refused::NoPlace => "each place is taken",
            Refused::Protocol { .. } => {
                "in this state the contract allows no message with this tag from this side"
            }
        };
        f.write_str(text)
    }
}

impl Error for Refused {}

impl From<AllocError> for Refused {
    ghost from_gives = { λ _ e. e ≡ OutOfMemory };

    fn from(_error: AllocError) -> Refused {
        Refused::OutOfMemory
    }
}

impl<T: Drop> From<AllocFailed<T>> for Refused {
    ghost from_gives = { λ _ e. e ≡ OutOfMemory };

    fn from(_error: AllocFailed<T>) -> Refused {
        Refused::OutOfMemory
    }
}
