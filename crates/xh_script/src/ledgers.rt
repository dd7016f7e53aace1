//! How ledgers, and what is in flight, are written.
ghost use Rattle.std.specs.Prelude.{◌≡◌, ◌<◌, length};
ghost use Rattle.std.specs.List.{All};
ghost use Rattle.xh_script.specs.Watching.{WritesOrFails};
ghost use Rattle.xh_script.specs.Texts.{state_text, arena_text, arena_texts, place_text, place_texts, sum_text, sums_text, ledger_text, flight_text, flight_texts};

use crate::writing::Piece::{Number, Text};
use crate::writing::put_line;
use crate::{Fault, Name, Watched};
use std::io::Write;
use xh_core::{ArenaLine, FlightLine, Ledger, PlaceLine, State};

fn state_name(state: State) -> &'static str
    ensures { result.now ≡ state_text state }
{
    match state {
        State::Running => "running",
        State::Ending => "ending",
        State::Ended => "ended",
    }
}

#[tactic(auto, unfolding(crate::specs::Texts::arena_text))]
fn put_arena<W: Write>(
    writer: &mut Watched<W>,
    number: usize,
    arena: &ArenaLine,
) -> Result<(), Fault>
    ensures { WritesOrFails W.contents writer.old writer.new result (arena_text number arena.now) }
{
    put_line(
        writer,
        Text(b"arena"),
        &[
            Number(number as u64),
            Number(u64::from(arena.size)),
            Number(u64::from(arena.out)),
            Number(u64::from(arena.holes)),
            Number(arena.taken),
            Number(arena.back),
        ],
    )
}

fn put_arenas<W: Write>(writer: &mut Watched<W>, arenas: &[ArenaLine]) -> Result<(), Fault>
    ensures { WritesOrFails W.contents writer.old writer.new result (arena_texts 0 arenas.now) }
{
    for (number, arena) in arenas.iter().enumerate() {
        put_arena(writer, number, arena)?;
    }
    Ok(())
}

#[tactic(auto, unfolding(crate::specs::Texts::place_text))]
fn put_place<W: Write>(
    writer: &mut Watched<W>,
    names: &[Name],
    line: &PlaceLine,
) -> Result<(), Fault>
    requires { line.now.place < length names.now }
    ensures { WritesOrFails W.contents writer.old writer.new result (place_text names.now line.now) }
{
    put_line(
        writer,
        Text(b"process"),
        &[
            Text(names[usize::from(line.place)].as_bytes()),
            Text(state_name(line.state).as_bytes()),
            Number(u64::from(line.blocks)),
            Number(line.bytes),
        ],
    )
}

fn put_places<W: Write>(
    writer: &mut Watched<W>,
    names: &[Name],
    lines: &[PlaceLine],
) -> Result<(), Fault>
    requires { All (λ line. line.place < length names.now) lines.now }
    ensures { WritesOrFails W.contents writer.old writer.new result (place_texts names.now lines.now) }
{
    for line in lines {
        put_place(writer, names, line)?;
    }
    Ok(())
}

#[tactic(auto, unfolding(crate::specs::Texts::sum_text))]
fn put_sum<W: Write>(writer: &mut Watched<W>, word: &[u8], sum: u64) -> Result<(), Fault>
    ensures { WritesOrFails W.contents writer.old writer.new result (sum_text word.now sum) }
{
    put_line(writer, Text(word), &[Number(sum)])
}

fn put_sums<W: Write>(writer: &mut Watched<W>, ledger: &Ledger) -> Result<(), Fault>
    ensures { WritesOrFails W.contents writer.old writer.new result (sums_text ledger.now) }
{
    put_sum(writer, b"owned", ledger.owned)?;
    put_sum(writer, b"flight", ledger.flight)?;
    put_sum(writer, b"out", ledger.out)
}

/// Writes a ledger, with the name of the latest process of each place. Where the writer fails, or
/// takes no byte, a prefix of the text was written, and the fault is `Write`.
pub fn write_ledger<W: Write>(
    writer: &mut Watched<W>,
    ledger: &Ledger,
    names: &[Name],
) -> Result<(), Fault>
    requires { All (λ line. line.place < length names.now) ledger.now.places.items }
    ensures { WritesOrFails W.contents writer.old writer.new result (ledger_text ledger.now names.now) }
{
    put_arenas(writer, &ledger.arenas)?;
    put_places(writer, names, &ledger.places)?;
    put_sums(writer, ledger)
}

#[tactic(auto, unfolding(crate::specs::Texts::flight_text))]
fn put_flight<W: Write>(writer: &mut Watched<W>, line: &FlightLine) -> Result<(), Fault>
    ensures { WritesOrFails W.contents writer.old writer.new result (flight_text line.now) }
{
    let direction = Number(u64::from(line.direction));
    let (blocks, bytes) = (u64::from(line.blocks), line.bytes);
    put_line(
        writer,
        Text(b"direction"),
        &[direction, Number(blocks), Number(bytes)],
    )
}

/// Writes what is in flight, a line for each direction. Where the writer fails, or takes no byte, a
/// prefix of the text was written, and the fault is `Write`.
pub fn write_flight<W: Write>(writer: &mut Watched<W>, lines: &[FlightLine]) -> Result<(), Fault>
    ensures { WritesOrFails W.contents writer.old writer.new result (flight_texts lines.now) }
{
    for line in lines {
        put_flight(writer, line)?;
    }
    Ok(())
}
