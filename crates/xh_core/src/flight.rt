//! What is in flight, direction by direction.
use xh_model::limits::DIRECTIONS;

/// There are at most as many lines of directions.
pub const FLIGHT_LINES: usize = DIRECTIONS as usize;

/// One direction on which blocks are on their way: its number (twice the channel's, and the side of the
/// receiver), how many blocks these are, 1 at least, and how many bytes they have.
#[derive(Clone, Copy, Debug, Default)]
pub struct FlightLine {
    pub direction: u8,
    pub blocks: u32,
    pub bytes: u64,
}
