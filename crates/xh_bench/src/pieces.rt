//! What a call is made of, or what a user would take instead: each in a function of its own, which isn't inlined.

use crate::bench::{Half, Line};
use std::alloc::Global;
use std::fmt;
use std::sync::atomic::AtomicU64;
use std::sync::atomic::Ordering::SeqCst;
use std::sync::{Mutex, Wait};

#[derive(Clone, Copy)]
pub(crate) enum Piece {
    /// A lock that nobody else wants is taken and let go.
    Lock,
    /// A word is exchanged, by a locked instruction.
    Exchange,
    Load,
    /// So many zeros are allocated and dropped.
    Zeroed(usize),
    /// So many bytes are copied.
    Copied(usize),
    /// A vector is pushed to a queue of `crossbeam_queue` and popped.
    PushPop,
    /// The first of two threads sends a message by a channel of `crossbeam_channel` and waits for one; the second waits for it
    /// and sends one.
    ToAndFro,
    /// The first fills a vector of so many bytes and sends it by a channel of `crossbeam_channel`; the second receives it,
    /// looks at each of its cache lines and drops it. One thread does both.
    Vector(usize),
    /// The same of a buffer that is popped from a queue of free ones, where there is one, and pushed back there.
    Pooled(usize),
}

impl fmt::Display for Piece {
    /// Its name, and of how many bytes, or 0.
    fn fmt<W: fmt::Write>(&self, f: &mut fmt::Formatter<W>) -> fmt::Result {
        let (name, bytes) = match self {
            Piece::Lock => ("Lock", 0),
            Piece::Exchange => ("Exchange", 0),
            Piece::Load => ("Load", 0),
            Piece::Zeroed(bytes) => ("Zeroed", *bytes),
            Piece::Copied(bytes) => ("Copied", *bytes),
            Piece::PushPop => ("PushPop", 0),
            Piece::ToAndFro => ("ToAndFro", 0),
            Piece::Vector(bytes) => ("Vector", *bytes),
            Piece::Pooled(bytes) => ("Pooled", *bytes),
        };
        write!(f, "{name} {bytes}")
    }
}

/// What is done in a step, each piece so often.
pub(crate) type Pieces = &'static [(u32, Piece)];

/// A buffer with these bytes.
pub(crate) fn filled(alloc: Global, bytes: &[u8]) -> Option<Vec<u8>> {
    let mut buffer = Vec::with_capacity(alloc, bytes.len()).ok()?;
    buffer.extend_from_slice(bytes).ok()?;
    Some(buffer)
}

/// Looks at the first byte of each cache line; None where one is not a message's.
pub(crate) fn glanced(bytes: &[u8]) -> Option<()> {
    for line in bytes.chunks(64) {
        if line.first() != Some(&7) {
            return None;
        }
    }
    Some(())
}

impl<'a> Half<'a> {
    /// Does all pieces so often, one after the other.
    pub(crate) fn beside<R: Wait>(self, rt: &R, pieces: Pieces, rounds: u64) -> Option<()> {
        for (times, piece) in pieces {
            self.once(rt, *piece, rounds.saturating_mul(u64::from(*times)))?;
        }
        Some(())
    }

    fn once<R: Wait>(self, rt: &R, piece: Piece, times: u64) -> Option<()> {
        let line = self.line;
        match piece {
            Piece::Lock => lock(rt, &Mutex::new(0), times),
            Piece::Exchange => exchange(&AtomicU64::new(0), times),
            Piece::Load => load(&AtomicU64::new(0), times),
            Piece::Zeroed(bytes) => zeroed(line.alloc, bytes, times),
            Piece::Copied(_) => copied(&line.bytes, &mut filled(line.alloc, &line.bytes)?, times),
            Piece::PushPop => push_pop(rt, line, times),
            Piece::ToAndFro => to_and_fro(rt, self, times),
            Piece::Vector(_) => vector(rt, self, times),
            Piece::Pooled(_) => pooled(rt, self, times),
        }
    }
}

#[inline(never)]
fn lock<R: Wait>(rt: &R, count: &Mutex<u64>, times: u64) -> Option<()> {
    for _ in 0..times {
        *count.lock(rt) = 1;
    }
    Some(())
}

#[inline(never)]
fn exchange(word: &AtomicU64, times: u64) -> Option<()> {
    for _ in 0..times {
        word.swap(1, SeqCst);
    }
    Some(())
}

#[inline(never)]
fn load(word: &AtomicU64, times: u64) -> Option<()> {
    for _ in 0..times {
        word.load(SeqCst);
    }
    Some(())
}

#[inline(never)]
fn zeroed(alloc: Global, bytes: usize, times: u64) -> Option<()> {
    for _ in 0..times {
        let _zeros = vec![in alloc; 0u8; bytes].ok()?;
    }
    Some(())
}

#[inline(never)]
fn copied(bytes: &[u8], room: &mut [u8], times: u64) -> Option<()> {
    for _ in 0..times {
        room.get_mut(..bytes.len())?.copy_from_slice(bytes);
    }
    Some(())
}

#[inline(never)]
fn push_pop<R: Wait>(rt: &R, line: &Line, times: u64) -> Option<()> {
    for _ in 0..times {
        line.free.push(rt, Vec::new(line.alloc)).ok()?;
        let _popped = line.free.pop(rt)?;
    }
    Some(())
}

#[inline(never)]
fn to_and_fro<R: Wait>(rt: &R, half: Half<'_>, times: u64) -> Option<()> {
    let line = half.line;
    for _ in 0..times {
        if half.sends {
            line.there.0.send(rt, Vec::new(line.alloc)).ok()?;
            let _back = line.back.1.recv(rt).ok()?;
        } else {
            let there = line.there.1.recv(rt).ok()?;
            line.back.0.send(rt, there).ok()?;
        }
    }
    Some(())
}

#[inline(never)]
fn vector<R: Wait>(rt: &R, half: Half<'_>, times: u64) -> Option<()> {
    let line = half.line;
    for _ in 0..times {
        if half.sends {
            let buffer = filled(line.alloc, &line.bytes)?;
            line.there.0.send(rt, buffer).ok()?;
        }
        if half.receives {
            glanced(&line.there.1.recv(rt).ok()?)?;
        }
    }
    Some(())
}

#[inline(never)]
fn pooled<R: Wait>(rt: &R, half: Half<'_>, times: u64) -> Option<()> {
    let line = half.line;
    for _ in 0..times {
        if half.sends {
            let mut buffer = line.free.pop(rt).unwrap_or(Vec::new(line.alloc));
            buffer.extend_from_slice(&line.bytes).ok()?;
            line.there.0.send(rt, buffer).ok()?;
        }
        if half.receives {
            let mut buffer = line.there.1.recv(rt).ok()?;
            glanced(&buffer)?;
            buffer.clear();
            line.free.push(rt, buffer).ok()?;
        }
    }
    Some(())
}
