//! The limits of the language, each once. Contracts and code cite these.
ghost use Rattle.std.specs.Prelude.{◌↔◌, IsTrue};
ghost use Rattle.xh_script.specs.Config.{IsScriptConfig};

use xh_core::Config;
use xh_model::limits::{MAX_BLOCKS, MAX_BYTES, MAX_ROWS};

/// The bytes of an arena of a script's heap: a multiple of 16, up to this many.
pub const MAX_ARENA_BYTES: u32 = 1_048_576;

const _: () = prove!(MAX_ARENA_BYTES <= MAX_BYTES);

/// The bytes of a script.
pub const MAX_SCRIPT: usize = 1_048_576;

/// The bytes of a line, without its line feed.
pub const MAX_LINE: usize = 256;

/// The commands of a script.
pub const MAX_COMMANDS: usize = 4096;

/// The names of processes in a script.
pub const MAX_PROCESSES: usize = 64;

/// The names of blocks of one process.
pub const MAX_BLOCK_NAMES: usize = 256;

/// The contracts of a script.
pub const MAX_CONTRACTS: usize = 16;

/// The letters and digits of a NAME: 1 to this many.
pub const MAX_NAME: usize = 16;

/// The digits of a number.
pub const MAX_DIGITS: usize = 10;

/// A number: 0 to this, unless its place says less.
pub const MAX_NUMBER: u32 = 4_294_967_295;

/// The bytes that a HEX says, by two digits each: 1 to this many.
pub const MAX_HEX: usize = 32;

/// The bytes that a `read` asks for, its LEN: 1 to this many.
pub const MAX_LEN: u32 = 32;

/// A message's tag: 0 to this.
pub const MAX_TAG: u32 = 65_535;

/// The blocks that a `give` names. A message carries fewer, so that one too many can be said.
pub const MAX_GIVEN: usize = 16;

/// The words of a command, without the form's own.
pub const MAX_WORDS: usize = 19;

const _: () = prove!(MAX_WORDS == 3 + MAX_GIVEN);

const _: () = prove!(MAX_LEN as usize == MAX_HEX);

const _: () = prove!(MAX_ROWS < MAX_WORDS);

const _: () = prove!(MAX_BLOCKS < MAX_GIVEN);

/// Whether a script can be run with these limits: those of a machine, with arenas that a script may have.
pub fn is_in_script_limits(config: &Config) -> bool
    ensures { IsTrue result ↔ IsScriptConfig config.now }
{
    config.is_in_limits() && config.bytes <= MAX_ARENA_BYTES
}
