//! What a long run goes by: channels that come back, and frames; and how its text tells of a process.
use crate::calls::one;
use std::alloc::Global;
use xh_core::State;
use xh_heap::{Config, End, Item, Job, Process, Refused, Team, one_arena, run};

fn open_all<P: Process>(own: &mut P, alloc: Global) -> Result<Vec<(End, End)>, Refused> {
    let mut opened = Vec::with_capacity(alloc, 64)?;
    for _ in 0..64 {
        if let Ok(ends) = own.open() {
            opened.push(ends)?;
        }
    }
    Ok(opened)
}

/// How many channels can be opened; they are closed again.
fn count_free<P: Process>(own: &mut P, alloc: Global) -> Result<usize, Refused> {
    let opened = open_all(own, alloc)?;
    let count = opened.len();
    for (low, high) in opened {
        own.close(low)?;
        own.close(high)?;
    }
    Ok(count)
}

/// How many can be opened, and again, where an end is kept in a list, one waits in a message, by the ends of a third channel,
/// and one in a circle, on its way to itself; how many once the first is closed, the second too, and the third channel.
fn keep_numbers<P: Process>(own: &mut P, alloc: Global) -> Result<[usize; 5], Refused> {
    let (kept, gone) = own.open()?;
    own.close(gone)?;
    let (out, into) = own.open()?;
    let (sent, gone) = own.open()?;
    own.close(gone)?;
    own.give(&out, 1, one(Item::End(sent)))?;
    let (low, high) = own.open()?;
    own.give(&low, 1, one(Item::End(high)))?;
    own.close(low)?;
    let counts = [count_free(own, alloc)?, count_free(own, alloc)?];
    own.close(kept)?;
    let without_kept = count_free(own, alloc)?;
    let sent = own.take(&into)?.end()?;
    own.close(sent)?;
    let without_sent = count_free(own, alloc)?;
    own.close(out)?;
    own.close(into)?;
    let [first, second] = counts;
    Ok([
        first,
        second,
        without_kept,
        without_sent,
        count_free(own, alloc)?,
    ])
}

#[derive(Drop)]
struct Keeps(Global);

impl Job for Keeps {
    type Plan = ();

    type Answer = Result<[usize; 5], Refused>;

    fn plan<P: Process>(&self, _team: &mut Team<P>) -> Result<(), Refused> {
        Ok(())
    }

    fn work<P: Process>(&self, _plan: &(), _index: usize, own: &mut P) -> Self::Answer {
        keep_numbers(own, self.0)
    }
}

/// An end keeps its number wherever it is, and the circle to the last: its 32 bytes stay in flight.
#[test]
fn ends_keep_their_numbers(rt: HostRuntime) {
    let job = Keeps(rt.alloc());
    let closed = run(&rt, rt.alloc(), one_arena(8192), 1, &job).expect(&rt, "room");
    match closed.answers.first() {
        Some(Ok(counts)) => assert_eq!(rt; *counts, [60, 60, 61, 62, 63]),
        _ => panic!(rt; "refused"),
    }
    let ledger = &closed.books.ledger;
    assert_eq!(rt; (ledger.owned, ledger.flight, ledger.out), (0, 32, 32));
}

/// 3,840 x 2,160 pixels of four bytes.
const FRAME: u32 = 33_177_600;

/// A frame of an arena goes over, and all but its first 16 bytes are cut off. Whether its last byte came.
fn pass_frame<P: Process>(own: &mut P, other: &mut P, arena: u32) -> Result<bool, Refused> {
    let (out, into) = own.wire(other)?;
    let frame = own.alloc_in(arena, FRAME)?;
    own.write(&frame, FRAME - 1, &[7])?;
    own.give(&out, 1, frame)?;
    let mut head = other.take(&into)?.block()?;
    let tail = other.split(&mut head, 16)?;
    let mut last = [0];
    other.read(&tail, FRAME - 17, &mut last)?;
    if arena < 2 {
        other.free(tail)?;
    }
    Ok(last == [7])
}

/// One of each of three arenas: the heads stay, and of the frames' memory only the last; then the process is killed that has it.
struct Frames;

impl Job for Frames {
    type Plan = ();

    type Answer = Result<u64, Refused>;

    fn plan<P: Process>(&self, _team: &mut Team<P>) -> Result<(), Refused> {
        Ok(())
    }

    fn work<P: Process>(&self, _plan: &(), _index: usize, own: &mut P) -> Self::Answer {
        let mut other = own.spawn()?;
        for arena in 0..3 {
            if !pass_frame(own, &mut other, arena)? {
                return Ok(0);
            }
        }
        own.kill(other.number())
    }
}

/// The gate runs this where there is memory for three frames at once. The bytes of the kill are those of a frame, of two heads,
/// and of three ends.
#[test]
fn a_frame_is_cut(rt: HostRuntime) {
    let config = Config {
        arenas: 3,
        ..one_arena(134_217_728)
    };
    let closed = run(&rt, rt.alloc(), config, 1, &Frames).expect(&rt, "room");
    match closed.answers.first() {
        Some(Ok(bytes)) => assert_eq!(rt; *bytes, u64::from(FRAME) + 2 * 16 + 3 * 32),
        _ => panic!(rt; "refused"),
    }
    assert_eq!(rt; closed.books.ledger.out, 0);
}

/// A process that has ended, as the run left it, and one that runs or is ending.
#[test]
fn a_text_tells_each_state(rt: HostRuntime) {
    const TEXTS: &[(State, &str)] = &[
        (State::Running, "\nprocess 0 running 0 0\n"),
        (State::Ending, "\nprocess 0 ending 0 0\n"),
        (State::Ended, "\nprocess 0 ended 0 0\n"),
    ];
    let job = Keeps(rt.alloc());
    let mut closed = run(&rt, rt.alloc(), one_arena(8192), 1, &job).expect(&rt, "room");
    for (state, expected) in TEXTS {
        if let Some(line) = closed.books.ledger.places.first_mut() {
            line.state = *state;
        }
        let text = format!(in rt.alloc(); "{closed}").expect(&rt, "room");
        assert!(rt; text.as_str().contains(*expected));
    }
}
