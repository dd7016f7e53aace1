//! What there is to see without a process's lock.
ghost use Rattle.xh_kernel.specs.Looks.{SeesAll};

use crate::account::Account;
use crate::kernel::Kernel;
use crate::words::unpack;
use arrayvec::ArrayVec;
use std::fmt::{self, Formatter, Write};
use std::sync::Wait;
use xh_calls::Names;
use xh_channel::Spot;
use xh_core::{ARENA_LINES, ArenaLine, Glance, PLACE_LINES, PlaceLine, State, Status};
use xh_model::limits::PLACES;

/// What a process waits for: a message at an end, room for one that is given by an end, a message at any of several ends, or
/// bytes of an arena.
#[derive(Clone, Copy, Debug, PartialEq, Eq)]
pub enum Awaited {
    Message(Spot),
    Room(Spot),
    AnyMessage,
    Memory { arena: u32 },
}

/// A place: its latest process, how far that has come, its blocks and their bytes, and what it waits for, if it does.
#[derive(Clone, Copy, Debug, Default)]
pub struct PlaceNow {
    pub glance: Glance,
    pub awaits: Option<Awaited>,
}

/// All arenas and all 32 places, each as it was at a moment of the call, one after another. As a text it has the ledger's line for
/// each arena, and for each place that was used; behind this stands what its process awaits: `message CHANNEL SIDE`,
/// `room CHANNEL SIDE`, `messages` at several ends, or `memory ARENA`.
#[derive(Debug, Drop)]
pub struct Overview {
    pub arenas: ArrayVec<ArenaLine, ARENA_LINES>,
    pub places: ArrayVec<PlaceNow, PLACE_LINES>,
}

impl<N: Names> Kernel<N> {
    /// Each arena, under its lock, and each place by what the account has seen, as `glance` tells it.
    pub fn overview<R: Wait>(&self, rt: &R, account: &mut Account<N>) -> Overview
        ensures { SeesAll N.parts account.old account.new result }
    {
        let shared = &self.shared;
        let (seen, front) = (&mut account.till.seen, &mut account.front);
        let mut arenas = ArrayVec::new();
        for arena in 0..shared.heap.arenas.count() {
            arenas.push(shared.heap.arenas.line(rt, arena, seen));
        }
        let mut places = ArrayVec::new();
        for place in 0..PLACES {
            let glance = unpack(place, shared.histories.look_by(front, place));
            let told = self.awaiting[usize::from(place)].load(rt);
            let awaits = told.filter(|t| t.0 == glance.process).map(|t| t.1);
            places.push(PlaceNow { glance, awaits });
        }
        Overview { arenas, places }
    }
}

fn state_name(state: State) -> &'static str {
    match state {
        State::Running => "running",
        State::Ending => "ending",
        State::Ended => "ended",
    }
}

/// A line for each arena, as a ledger and an overview have it.
pub fn write_arenas<W: Write>(f: &mut Formatter<W>, all: &[ArenaLine]) -> fmt::Result {
    for (number, a) in all.iter().enumerate() {
        let (size, out, holes) = (a.size, a.out, a.holes);
        let (taken, back) = (a.taken, a.back);
        writeln!(f, "arena {number} {size} {out} {holes} {taken} {back}")?;
    }
    Ok(())
}

/// A place's line, but for its end.
pub fn write_place<W: Write>(f: &mut Formatter<W>, p: &PlaceLine) -> fmt::Result {
    let state = state_name(p.state);
    write!(f, "process {} {state} {} {}", p.process, p.blocks, p.bytes)
}

impl fmt::Display for Awaited {
    fn fmt<W: Write>(&self, f: &mut Formatter<W>) -> fmt::Result {
        match *self {
            Awaited::Message(at) => write!(f, "message {} {}", at.channel, at.side),
            Awaited::Room(at) => write!(f, "room {} {}", at.channel, at.side),
            Awaited::AnyMessage => f.write_str("messages"),
            Awaited::Memory { arena } => write!(f, "memory {arena}"),
        }
    }
}

impl fmt::Display for Overview {
    fn fmt<W: Write>(&self, f: &mut Formatter<W>) -> fmt::Result {
        write_arenas(f, self.arenas.as_slice())?;
        for seen in self.places.iter() {
            if seen.glance.state == Status::Vacant {
                continue;
            }
            write_place(f, &seen.glance.line())?;
            match seen.awaits {
                Some(awaited) => writeln!(f, " awaits {awaited}")?,
                None => writeln!(f)?,
            }
        }
        Ok(())
    }
}
