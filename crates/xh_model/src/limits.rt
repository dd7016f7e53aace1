//! The limits of an exchange heap, each once. Contracts and code cite these.

/// The unit of memory, in bytes: sizes, starts and cuts are multiples of it.
pub const UNIT: u32 = 16;

/// The arenas of a machine: 1 to this many, all of one size.
pub const MAX_ARENAS: u8 = 8;

/// The bytes of an arena: a multiple of the unit, up to this many.
pub const MAX_BYTES: u32 = 134_217_728;

/// The records of an arena: 1 to this many. A record's number is this times its arena's, and its
/// index there.
pub const MAX_RECORDS: u16 = 256;

/// The records of a machine, and so the blocks that a process may hold: at most this many.
pub const MAX_HELD: usize = 2048;

const _: () = prove!(MAX_HELD == MAX_ARENAS as usize * MAX_RECORDS as usize);

/// The bytes that an arena may ever hand out: 0 to this many.
pub const MAX_WEAR: u64 = 9_223_372_036_854_775_807;

/// The places of processes.
pub const PLACES: u8 = 32;

/// How often a place can be used at most. A process's number is its place, and the places times
/// its generation.
pub const GENERATIONS: u16 = 2047;

/// How often the serial machine uses a place, and a kernel that isn't told to use it more often.
pub const USUAL_GENERATIONS: u16 = 128;

/// The numbers of processes: those below this.
pub const PROCESSES: u16 = 65_504;

/// The channels of a machine.
pub const CHANNELS: u8 = 64;

/// The directions: twice a channel's number, and the side of the receiver.
pub const DIRECTIONS: u8 = 128;

const _: () = prove!(PROCESSES == PLACES as u16 * GENERATIONS);

const _: () = prove!(DIRECTIONS == 2 * CHANNELS);

/// The messages that may wait in a direction: 1 to this many.
pub const MAX_DEPTH: u8 = 16;

/// The messages that a direction ever carries.
pub const MAX_MESSAGES: u64 = 4_611_686_018_427_387_903;

/// The blocks that a message may carry.
pub const MAX_BLOCKS: usize = 8;

/// The budget of a sweep, in entries: 1 to this many.
pub const MAX_BUDGET: u16 = 4096;

/// The workers of a machine, each with an account: 1 to this many.
pub const MAX_WORKERS: u8 = 33;

/// The bytes that an endpoint's block takes of its arena.
pub const END_BYTES: u32 = 32;

/// The rows of a contract: 1 to this many.
pub const MAX_ROWS: usize = 16;

/// The states of a contract: those below this.
pub const STATES: u8 = 16;
