//! What a heap holds, line by line.
use arrayvec::ArrayVec;
use xh_model::limits::{MAX_ARENAS, PLACES};

/// A ledger has at most as many lines of arenas.
pub const ARENA_LINES: usize = MAX_ARENAS as usize;

/// A ledger has at most as many lines of places.
pub const PLACE_LINES: usize = PLACES as usize;

/// What a process may do: it runs, its blocks are being reclaimed, or all of them are.
#[derive(Clone, Copy, Debug, PartialEq, Eq, Default)]
pub enum State {
    #[default]
    Running,
    Ending,
    Ended,
}

/// One arena: its size, the bytes handed out now, the number of its holes, and the bytes ever
/// taken and ever given back.
#[derive(Clone, Copy, Debug, Default)]
pub struct ArenaLine {
    pub size: u32,
    pub out: u32,
    pub holes: u32,
    pub taken: u64,
    pub back: u64,
}

/// One place that isn't vacant: the number of its latest process (place + 32 × generation), its
/// state, how many blocks it holds and how many bytes these are.
#[derive(Clone, Copy, Debug, Default)]
pub struct PlaceLine {
    pub place: u8,
    pub process: u16,
    pub state: State,
    pub blocks: u32,
    pub bytes: u64,
}

/// The arenas, the places, and the sums: bytes that processes own, bytes in flight, bytes handed
/// out.
#[derive(Drop, Debug)]
pub struct Ledger {
    pub arenas: ArrayVec<ArenaLine, ARENA_LINES>,
    pub places: ArrayVec<PlaceLine, PLACE_LINES>,
    pub owned: u64,
    pub flight: u64,
    pub out: u64,
}
