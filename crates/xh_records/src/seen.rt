use arrayvec::ArrayVec;
use std::error::Error;
use std::fmt;
use xh_model::limits::MAX_RECORDS;

// One word for each record of an arena.
const WORDS: usize = MAX_RECORDS as usize;

/// No record of the arena was found free: the owner words that the claim saw, one a record, in the
/// order of the records.
#[derive(Debug, Drop)]
pub struct Seen {
    pub words: ArrayVec<u64, WORDS>,
}

impl fmt::Display for Seen {
    fn fmt<W: fmt::Write>(&self, f: &mut fmt::Formatter<W>) -> fmt::Result {
        f.write_str("no record of the arena was found free")
    }
}

impl Error for Seen {}
