// What is in flight, direction by direction.
ghost use Rattle.std.specs.Prelude.{◌≡◌, ◌*◌, ◌<◌, ◌≤◌, length};
ghost use Rattle.std.specs.List.{zip};
ghost use Rattle.xh_model.specs.declared.limits.TheConstants.{DIRECTIONS, MAX_ARENAS, MAX_RECORDS};
ghost use Rattle.xh_books.specs.Flight.{flight_line, flight_lines};
ghost use Rattle.xh_books.specs.inner.Steps.{lens_of};

use arrayvec::ArrayVec;
use xh_arena::Lot;
use xh_core::{FLIGHT_LINES, FlightLine};
use xh_model::limits::DIRECTIONS;
use xh_place::Body;
use xh_records::OwnerWord;

// The line of a direction, of the records' words and lots.
fn line_of(direction: u8, words: &[u64], lots: &[Lot<Body>]) -> FlightLine
    requires direction { direction < DIRECTIONS }
    requires both { length words.now ≡ length lots.now }
    requires few { length lots.now ≤ MAX_ARENAS * MAX_RECORDS }
    ensures { result ≡ flight_line (zip words.now (lens_of lots.now)) direction }
{
    let word = OwnerWord::InFlight(direction).encode();
    let mut blocks = 0u32;
    let mut bytes = 0u64;
    for k in 0..lots.len() {
        if words[k] == word {
            blocks += 1;
            bytes += u64::from(lots[k].len());
        }
    }
    FlightLine {
        direction,
        blocks,
        bytes,
    }
}

// The lines of the directions that have a record, of the records' words and lots.
pub(crate) fn flight_lines(words: &[u64], lots: &[Lot<Body>]) -> ArrayVec<FlightLine, FLIGHT_LINES>
    requires both { length words.now ≡ length lots.now }
    requires few { length lots.now ≤ MAX_ARENAS * MAX_RECORDS }
    ensures { result.items ≡ flight_lines (zip words.now (lens_of lots.now)) }
{
    let mut lines = ArrayVec::new();
    for direction in 0..DIRECTIONS {
        let line = line_of(direction, words, lots);
        if line.blocks > 0 {
            lines.push(line);
        }
    }
    lines
}
