//! The limits that a machine is made with.
ghost use Rattle.std.specs.Prelude.{◌↔◌, IsTrue};
ghost use Rattle.xh_model.specs.Arena.{AreLimits};
ghost use Rattle.xh_model.specs.Config.{IsChecked, IsConfig};

use crate::limits::{MAX_ARENAS, MAX_BYTES, MAX_DEPTH, MAX_RECORDS, MAX_WEAR, UNIT};
use std::error::Error;
use std::fmt;

/// What a machine is made with: its arenas, the bytes and the records of each, the messages that may
/// wait in a direction, and the bytes that an arena may ever hand out.
#[derive(Clone, Copy, Debug)]
pub struct Config {
    pub arenas: u8,
    pub bytes: u32,
    pub records: u16,
    pub depth: u8,
    pub wear: u64,
}

/// A limit of a `Config`, by the name of its field.
#[derive(Clone, Copy, Debug, PartialEq, Eq)]
pub enum Limit {
    Arenas,
    Bytes,
    Records,
    Depth,
    Wear,
}

impl fmt::Display for Limit {
    fn fmt<W: fmt::Write>(&self, f: &mut fmt::Formatter<W>) -> fmt::Result {
        match self {
            Limit::Arenas => write!(f, "arenas: 1 to {MAX_ARENAS}"),
            Limit::Bytes => write!(f, "bytes: a multiple of {UNIT}, {UNIT} to {MAX_BYTES}"),
            Limit::Records => write!(f, "records: 1 to {MAX_RECORDS}"),
            Limit::Depth => write!(f, "depth: 1 to {MAX_DEPTH}"),
            Limit::Wear => write!(f, "wear: at most {MAX_WEAR}"),
        }
    }
}

impl Error for Limit {}

/// Whether an arena can be made with so many bytes and records, and so many bytes that it may ever
/// hand out.
pub fn is_in_arena_limits(bytes: u32, records: u16, wear: u64) -> bool
    ensures { IsTrue result ↔ AreLimits bytes records wear }
{
    let config = Config {
        arenas: 1,
        bytes,
        records,
        depth: 1,
        wear,
    };
    config.is_in_limits()
}

impl Config {
    /// The same, where a machine can be made with it; else a limit that it does not keep.
    pub fn checked(self) -> Result<Config, Limit>
        ensures { IsChecked self result }
    {
        let broken = if self.arenas < 1 || self.arenas > MAX_ARENAS {
            Limit::Arenas
        } else if self.bytes < UNIT || self.bytes > MAX_BYTES || self.bytes % UNIT != 0 {
            Limit::Bytes
        } else if self.records < 1 || self.records > MAX_RECORDS {
            Limit::Records
        } else if self.depth < 1 || self.depth > MAX_DEPTH {
            Limit::Depth
        } else if self.wear > MAX_WEAR {
            Limit::Wear
        } else {
            return Ok(self);
        };
        Err(broken)
    }

    /// Whether a machine can be made with these limits.
    pub fn is_in_limits(&self) -> bool
        ensures { IsTrue result ↔ IsConfig self.now }
    {
        match self.checked() {
            Ok(_same) => true,
            Err(_limit) => false,
        }
    }
}
