//! Why a call on an arena or a vault did nothing.
use std::error::Error;
use std::fmt;

/// Why a call did nothing. Each refusal has its number in the whole heap.
#[derive(Clone, Copy, Debug, PartialEq, Eq)]
pub enum Refused {
    /// A growth of memory was refused.
    OutOfMemory = 1,
    /// A size, or another number of a new arena or vault, is outside its limits.
    BadSize = 2,
    /// No hole holds that many bytes.
    NoSpace = 4,
    /// The cut is not a multiple of 16 inside the record's bytes.
    BadCut = 9,
    /// The bytes ever handed out would pass the limit.
    Worn = 19,
}

impl fmt::Display for Refused {
    fn fmt<W: fmt::Write>(&self, f: &mut fmt::Formatter<W>) -> fmt::Result {
        f.write_str(match self {
            Refused::OutOfMemory => "a growth of memory was refused",
            Refused::BadSize => "a number of a new arena or vault is outside its limits",
            Refused::NoSpace => "no hole holds that many bytes",
            Refused::BadCut => "the cut is not inside the record's bytes, or not a multiple of 16",
            Refused::Worn => "the bytes ever handed out would pass the limit",
        })
    }
}

impl Error for Refused {}
