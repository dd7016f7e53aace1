//! Why a run ended.
ghost use Rattle.std.specs.Prelude.{◌≡◌};
ghost use Rattle.xh_script.specs.declared.fault.Fault.TheVariants.{Memory};
ghost use Rattle.xh_script.specs.declared.fault.Stop.TheVariants as stop;

use std::alloc::{AllocError, AllocFailed};
use std::fmt;

/// What is wrong with a line of a script, or with the whole.
#[derive(Clone, Copy, Debug, PartialEq, Eq)]
pub enum FaultKind {
    /// More bytes (a fault of line 0), commands, names of processes, names of blocks of one process
    /// or contracts than `limits` has.
    TooLong,
    /// A line of more bytes than `limits` has, without its line feed.
    LongLine,
    /// A byte of a command that is no printable ASCII.
    BadByte,
    /// An empty word, a word that is no verb, or one that is no name.
    BadWord,
    /// A command with another number of words.
    BadCount,
    /// A word that is no number, or one outside its range.
    BadNumber,
    /// A word that is no HEX: lower-case hexadecimal digits, two for each of 1 to 32 bytes.
    BadHex,
    /// A `contract`, `process` or `wire` behind another command.
    LateHead,
    /// A contract that is not valid, is declared twice, or is not declared on an earlier line.
    BadContract,
}

impl FaultKind {
    /// Its name.
    pub fn name(self) -> &'static str {
        match self {
            FaultKind::TooLong => "TooLong",
            FaultKind::LongLine => "LongLine",
            FaultKind::BadByte => "BadByte",
            FaultKind::BadWord => "BadWord",
            FaultKind::BadCount => "BadCount",
            FaultKind::BadNumber => "BadNumber",
            FaultKind::BadHex => "BadHex",
            FaultKind::LateHead => "LateHead",
            FaultKind::BadContract => "BadContract",
        }
    }
}

/// Why a run ended.
#[derive(Clone, Copy, Debug, PartialEq, Eq)]
pub enum Fault {
    /// The lowest line of the script with a fault; 0 for the script as a whole.
    Script { line: u32, kind: FaultKind },
    /// A growth of memory was refused.
    Memory,
    /// The reader failed.
    Read,
    /// The writer failed, or took nothing.
    Write,
    /// A gate answered that a worker must stop.
    Gate,
    /// The configuration is outside its limits.
    BadConfig,
}

impl fmt::Display for Fault {
    fn fmt<W: fmt::Write>(&self, f: &mut fmt::Formatter<W>) -> fmt::Result {
        match self {
            Fault::Script { line, kind } => write!(f, "line {line}: {}", kind.name()),
            Fault::Memory => f.write_str("out of memory"),
            Fault::Read => f.write_str("read failed"),
            Fault::Write => f.write_str("write failed"),
            Fault::Gate | Fault::BadConfig => f.write_str("internal fault"),
        }
    }
}

impl From<AllocError> for Fault {
    ghost from_gives = { λ _ e. e ≡ Memory };

    fn from(_error: AllocError) -> Fault {
        Fault::Memory
    }
}

impl<T: Drop> From<AllocFailed<T>> for Fault {
    ghost from_gives = { λ _ e. e ≡ Memory };

    fn from(_error: AllocFailed<T>) -> Fault {
        Fault::Memory
    }
}

/// Why a reading stops: at a fault of the script, or because a growth of memory was refused.
#[derive(Clone, Copy)]
pub enum Stop {
    Bad(FaultKind),
    Memory,
}

impl From<FaultKind> for Stop {
    ghost from_gives = { λ kind s. s ≡ stop.Bad kind };

    fn from(kind: FaultKind) -> Stop {
        Stop::Bad(kind)
    }
}

impl From<AllocError> for Stop {
    ghost from_gives = { λ _ s. s ≡ stop.Memory };

    fn from(_error: AllocError) -> Stop {
        Stop::Memory
    }
}

impl<T: Drop> From<AllocFailed<T>> for Stop {
    ghost from_gives = { λ _ s. s ≡ stop.Memory };

    fn from(_error: AllocFailed<T>) -> Stop {
        Stop::Memory
    }
}
