use std::alloc::AllocError;
use std::error::Error;
use std::fmt;

/// Why a table of records wasn't made, or not closed. The refusal has its number in the whole heap.
#[derive(Debug, Drop)]
pub enum Refused {
    /// A growth was refused. What was handed in is dropped.
    OutOfMemory = 1,
}

impl fmt::Display for Refused {
    fn fmt<W: fmt::Write>(&self, f: &mut fmt::Formatter<W>) -> fmt::Result {
        f.write_str("a growth of memory was refused")
    }
}

impl Error for Refused {}

impl From<AllocError> for Refused {
    fn from(_error: AllocError) -> Refused {
        Refused::OutOfMemory
    }
}
