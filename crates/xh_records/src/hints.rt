// Where a claim begins to look.
use crossbeam_utils::CachePadded;
use std::sync::atomic::AtomicU16;
use std::sync::atomic::Ordering::SeqCst;
use xh_model::limits::{MAX_ARENAS, MAX_RECORDS};

/// A hint for each arena: an index below which no record was free when it was stored. Others may free one since, and
/// threads may store at once. So it is advice: a claim that finds no free record from there on looks at all.
#[derive(Drop)]
pub(crate) struct Hints {
    all: CachePadded<[AtomicU16; MAX_ARENAS as usize]>,
}

impl Hints {
    /// Each is 0.
    pub(crate) fn new() -> Hints {
        Hints {
            all: CachePadded::new([0; MAX_ARENAS as usize].map(AtomicU16::new)),
        }
    }

    /// The arena's hint, or 0 where there is no such arena.
    #[inline(always)]
    pub(crate) fn of(&self, arena: u8) -> u16 {
        match self.all.get(usize::from(arena)) {
            Some(hint) => hint.load(SeqCst),
            None => 0,
        }
    }

    pub(crate) fn set(&self, arena: u8, index: u16) {
        if let Some(hint) = self.all.get(usize::from(arena)) {
            hint.store(index, SeqCst);
        }
    }

    /// The record of this number is free.
    #[inline(always)]
    pub(crate) fn lower(&self, number: u16) {
        let arena = (number / MAX_RECORDS) as u8;
        let index = number % MAX_RECORDS;
        if index < self.of(arena) {
            self.set(arena, index);
        }
    }
}
