//! What a run tells, and how it is written.
ghost use Rattle.std.specs.Prelude.{◌<◌, length};
ghost use Rattle.std.specs.List.{All};
ghost use Rattle.xh_script.specs.Watching.{WritesOrFails};
ghost use Rattle.xh_session.specs.Output.{told_text};

use arrayvec::ArrayVec;
use std::io::Write;
use xh_core::{FLIGHT_LINES, FlightLine, Ledger};
use xh_script::{Fault, Name, NumberedReply, Watched, write_answers, write_flight, write_ledger};

/// What a run answered: the replies in the order of the script, the ledger and what is in flight at its
/// end, and the name of the latest process of each of the 32 places; one that nobody has had is called
/// vacant, and the ledger has no line of it.
#[derive(Drop)]
pub struct Report {
    pub answers: Vec<NumberedReply>,
    pub ledger: Ledger,
    pub flight: ArrayVec<FlightLine, FLIGHT_LINES>,
    pub names: Vec<Name>,
}

/// Writes the replies, and then the ledger, and where it is asked for what is in flight, and sends all on
/// its way.
pub fn write_report<W: Write>(
    writer: &mut Watched<W>,
    report: &Report,
    flight: bool,
) -> Result<(), Fault>
    requires { All (λ line. line.place < length report.now.names.items) report.now.ledger.places.items }
    ensures { WritesOrFails W.contents writer.old writer.new result (told_text flight report.now) }
{
    let lines = if flight {
        report.flight.as_slice()
    } else {
        &[]
    };
    write_answers(writer, &report.answers)?;
    write_ledger(writer, &report.ledger, &report.names)?;
    write_flight(writer, lines)?;
    writer.flush()
}
