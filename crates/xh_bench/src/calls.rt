//! What a process does over and over, by its handle: each in a function of its own, which isn't inlined.

use crate::bench::{Half, Line, since};
use crate::library::send;
use crate::pieces::{filled, glanced};
use std::mem::take;
use std::time::Clock;
use xh_heap::{Item, Items, Process, Refused};

/// What a process does.
#[derive(Clone, Copy)]
pub(crate) enum Work {
    /// The first of two fills a buffer of so many bytes and sends it in a block; the second has it out and looks at each of
    /// its cache lines. One thread does both. Each process holds so many blocks besides, in another arena.
    Message(u32, u16),
    /// It makes a block of so many bytes and frees it, while it has so many others in that arena.
    AllocFree(u32, u16),
    /// The first of two gives a message of so many blocks, once there is room, and the second takes it. One thread does both.
    GiveTake(u16),
    /// It reads, or writes, all bytes of a block.
    Read(u32),
    Write(u32),
    /// It kills a process that has so many blocks.
    Kill(u16),
    /// It looks at all places and arenas.
    Overview,
    /// The first gives a block and waits for it; the second waits for it and gives it back.
    ToAndFro,
}

impl Work {
    /// How many bytes its blocks have, and how many others the process holds meanwhile.
    pub(crate) fn sizes(self) -> (u32, u16) {
        match self {
            Work::Message(bytes, others) | Work::AllocFree(bytes, others) => (bytes, others),
            Work::Read(bytes) | Work::Write(bytes) => (bytes, 0),
            _ => (0, 0),
        }
    }

    /// Does it so often, but a kill.
    pub(crate) fn call<P: Process>(self, own: &mut P, half: Half<'_>, rounds: u64) -> Option<()> {
        match self {
            Work::Message(_, _) => message(own, half, rounds),
            Work::AllocFree(bytes, _) => alloc_free(own, half.arena, bytes, rounds),
            Work::GiveTake(count) => give_take(own, half, count, rounds),
            Work::Read(_) => copy(own, half.line, true, rounds),
            Work::Write(_) => copy(own, half.line, false, rounds),
            Work::Kill(_) => None,
            Work::Overview => overview(own, rounds),
            Work::ToAndFro => to_and_fro(own, half, rounds),
        }
    }
}

/// More blocks of an arena, which the process has until it ends.
pub(crate) fn hold<P: Process>(own: &mut P, arena: u32, count: u16) -> Result<(), Refused> {
    for _ in 0..count {
        let _held = own.alloc_in(arena, 64)?;
    }
    Ok(())
}

/// Each call of a work once, by a process that has both ends. So none has a single caller in the program, of which it would be a
/// part, whatever other works there are.
pub(crate) fn each<P: Process>(own: &mut P, line: &Line) -> Option<()> {
    let block = own.alloc_in(1, 16).ok()?;
    own.write(&block, 0, &[1]).ok()?;
    own.read(&block, 0, &mut [0]).ok()?;
    own.free(block).ok()?;
    let block = own.put(&mut filled(line.alloc, &[1])?).ok()?;
    send(own, &line.ends.0, block)?;
    let block = own.take_wait(&line.ends.1).ok()?.block().ok()?;
    let _bytes = own.into_bytes(block).ok()?;
    own.give_wait(&line.ends.0, 1, Items::new()).ok()?;
    let _message = own.take_wait(&line.ends.1).ok()?;
    let victim = own.spawn().ok()?;
    own.kill(victim.number()).ok()?;
    let _seen = own.overview();
    Some(())
}

/// The nanoseconds of so many kills of a process that has so many blocks.
#[inline(never)]
pub(crate) fn kills<P: Process>(own: &mut P, blocks: u16, rounds: u64) -> Option<u64> {
    let (rt, mut nanos) = (own.rt(), 0u64);
    for _ in 0..rounds {
        let mut victim = own.spawn().ok()?;
        hold(&mut victim, 1, blocks).ok()?;
        let start = rt.monotonic().ok()?;
        own.kill(victim.number()).ok()?;
        nanos = nanos.saturating_add(since(&rt, start)?);
    }
    Some(nanos)
}

#[inline(never)]
fn message<P: Process>(own: &mut P, half: Half<'_>, rounds: u64) -> Option<()> {
    let line = half.line;
    for _ in 0..rounds {
        if half.sends {
            let block = own.put(&mut filled(line.alloc, &line.bytes)?).ok()?;
            send(own, &line.ends.0, block)?;
        }
        if half.receives {
            let block = own.take_wait(&line.ends.1).ok()?.block().ok()?;
            glanced(&own.into_bytes(block).ok()?)?;
        }
    }
    Some(())
}

#[inline(never)]
fn alloc_free<P: Process>(own: &mut P, arena: u32, bytes: u32, rounds: u64) -> Option<()> {
    for _ in 0..rounds {
        let block = own.alloc_in(arena, bytes).ok()?;
        own.free(block).ok()?;
    }
    Some(())
}

// A message of so many blocks.
fn items<P: Process>(own: &mut P, count: u16) -> Option<Items> {
    let mut items = Items::new();
    for _ in 0..count {
        let block = own.alloc_in(1, 64).ok()?;
        items.try_push(Item::Block(block)).ok()?;
    }
    Some(items)
}

#[inline(never)]
fn give_take<P: Process>(own: &mut P, half: Half<'_>, count: u16, rounds: u64) -> Option<()> {
    let ends = &half.line.ends;
    let mut items = items(own, count)?;
    for _ in 0..rounds {
        if half.sends {
            own.give_wait(&ends.0, 1, take(&mut items)).ok()?;
        }
        if half.receives {
            items = own.take_wait(&ends.1).ok()?.items;
        }
    }
    Some(())
}

#[inline(never)]
fn copy<P: Process>(own: &mut P, line: &Line, is_read: bool, rounds: u64) -> Option<()> {
    let block = own.put(&mut filled(line.alloc, &line.bytes)?).ok()?;
    let mut bytes = filled(line.alloc, &line.bytes)?;
    for _ in 0..rounds {
        if is_read {
            own.read(&block, 0, &mut bytes).ok()?;
        } else {
            own.write(&block, 0, &bytes).ok()?;
        }
    }
    Some(())
}

#[inline(never)]
fn overview<P: Process>(own: &mut P, rounds: u64) -> Option<()> {
    for _ in 0..rounds {
        let _first = own.overview().places.first()?;
    }
    Some(())
}

#[inline(never)]
fn to_and_fro<P: Process>(own: &mut P, half: Half<'_>, rounds: u64) -> Option<()> {
    let ends = &half.line.ends;
    let mut block = own.alloc_in(1, 64).ok()?;
    for _ in 0..rounds {
        if half.sends {
            send(own, &ends.0, block)?;
            block = own.take_wait(&ends.0).ok()?.block().ok()?;
        } else {
            let came = own.take_wait(&ends.1).ok()?.block().ok()?;
            send(own, &ends.1, came)?;
        }
    }
    Some(())
}
