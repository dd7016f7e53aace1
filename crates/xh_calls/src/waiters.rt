//! Who waits for memory of an arena, and who wakes them. No step takes a lock.
ghost use Rattle.std.specs.Prelude.{◌≡◌, ◌≢◌, ◌⊎◌, ◌<◌, Err, IfErr, MatchOption};
ghost use Rattle.xh_core.specs.declared.refused.Refused.TheVariants.{NoRecord, NoSpace};
ghost use Rattle.xh_model.specs.declared.limits.TheConstants.{PLACES};

use crate::heap::Heap;
use crate::names::Names;
use crossbeam_utils::CachePadded;
use std::sync::Wait;
use std::sync::atomic::AtomicU64;
use std::sync::atomic::Ordering::SeqCst;
use xh_core::Refused;
use xh_model::limits::{MAX_ARENAS, MAX_RECORDS, PLACES};

/// What an arena had none of, to a process that waits for memory of it: no free record, or not enough bytes.
#[derive(Clone, Copy, PartialEq, Eq)]
pub enum Lack {
    Record,
    Space,
}

impl Lack {
    /// What was lacking to a call that was refused so; None of any other answer.
    pub fn of<A>(answer: &Result<A, Refused>) -> Option<Lack>
        ensures { MatchOption result (IfErr answer.now (λ why. (why ≢ NoRecord) × (why ≢ NoSpace)))
            (λ _. (answer.now ≡ Err NoRecord) ⊎ (answer.now ≡ Err NoSpace)) }
    {
        match answer {
            Err(Refused::NoRecord) => Some(Lack::Record),
            Err(Refused::NoSpace) => Some(Lack::Space),
            _ => None,
        }
    }

    // The bit of a place that waits for it.
    fn bit(self, place: u8) -> u64
        requires { place < PLACES }
    {
        match self {
            Lack::Space => 1 << place,
            Lack::Record => 1 << (PLACES + place),
        }
    }
}

/// The bits of all places that wait for a record, and of all that wait.
pub(crate) const FOR_RECORDS: u64 = 0xffff_ffff_0000_0000;

const FOR_EITHER: u64 = u64::MAX;

/// A word for each arena: the bits of the places that wait for memory of it, for bytes in its low half and for a record above.
///
/// Whoever waits reads its place's bell, then sets its bit, then asks, and sleeps only while the bell is what it read. Whoever vacates
/// a record looks at the word once that is done, and clears the bits of those whose bells it rings then: it saw the bit, or another did that
/// rings after the bell was read, or the record was there before the place asked. A record that was claimed in vain is told to those
/// alone that found none: who finds a record and no space claims one in vain at each look, and two of them would wake each other for ever.
/// Where nobody waits, that is one load of a word that nobody writes.
#[derive(Drop)]
pub struct Waiters {
    words: CachePadded<[AtomicU64; MAX_ARENAS as usize]>,
}

impl Waiters {
    /// Nobody waits.
    pub fn new() -> Waiters {
        Waiters {
            words: CachePadded::new([0; MAX_ARENAS as usize].map(AtomicU64::new)),
        }
    }

    /// The next that vacates what the place lacks of the arena rings the place's bell.
    pub fn wait(&self, arena: u32, place: u8, lack: Lack)
        requires { place < PLACES }
    {
        if let Some(word) = self.words.get(arena as usize) {
            word.fetch_or(lack.bit(place), SeqCst);
        }
    }
}

impl<N: Names> Heap<N> {
    // The bells ring of the places that wait at the arena for what is `free` there.
    pub(crate) fn tell<R: Wait>(&self, rt: &R, arena: u32, free: u64) {
        let Some(word) = self.waiters.words.get(arena as usize) else {
            return;
        };
        if word.load(SeqCst) & free == 0 {
            return;
        }
        let told = word.fetch_and(!free, SeqCst) & free;
        for place in 0..PLACES {
            if (told | told >> PLACES) >> place & 1 == 1 {
                self.channels.ring(rt, place);
            }
        }
    }

    // A record is free with its bytes, where the call went well.
    #[inline(always)]
    pub(crate) fn tell_freed<R: Wait, A>(&self, rt: &R, r: u16, answer: &Result<A, Refused>) {
        if answer.is_ok() {
            self.tell(rt, u32::from(r / MAX_RECORDS), FOR_EITHER);
        }
    }

    // Records of the arena are free that a call claimed in vain, as these refusals say.
    #[inline(always)]
    pub(crate) fn tell_in_vain<R: Wait, A>(&self, rt: &R, arena: u32, answer: &Result<A, Refused>) {
        if let Err(Refused::OutOfMemory | Refused::NoSpace | Refused::Worn) = answer {
            self.tell(rt, arena, FOR_RECORDS);
        }
    }

    // Records of any arenas may be free with their bytes.
    pub(crate) fn tell_swept<R: Wait>(&self, rt: &R) {
        for arena in 0..self.arenas.count() {
            self.tell(rt, u32::from(arena), FOR_EITHER);
        }
    }
}
