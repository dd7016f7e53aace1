//! The free numbers of channels.
ghost use Rattle.std.specs.Prelude.{◌≡◌, ℕ, ◌+◌, ◌*◌, ◌<◌, true, false, Option, Some, None, MatchOption, MatchResult, slice_set, length};
ghost use Rattle.xh_model.specs.declared.limits.TheConstants.{CHANNELS};
ghost use Rattle.xh_channel.specs.inner.FreeNumbers.{at_place, has_depth, StandAtTheirNumbers, AllFree, NoneFree};

use crate::closed_word::ShutNote;
use crate::free_pair::FreePair;
use std::alloc::{AllocError, Global};
use std::sync::{Arc, Mutex};

/// A number is free where its pair is here.
#[derive(Drop)]
pub struct FreeNumbers {
    pairs: Vec<Option<FreePair>>,
    ghost placed: { (length pairs.items ≡ CHANNELS) × StandAtTheirNumbers pairs.items },
}

/// The free numbers of the channels of one heap. Each endpoint that is out knows them.
pub type Home = Arc<Mutex<FreeNumbers>, Global>;

/// Shows that `FreeNumbers::open` found no pair of this depth at any number. It is made nowhere else.
#[derive(Drop)]
pub struct AllTaken {
    depth: usize,
}

/// Shows that a count of handles ran out, which no run meets. It is made nowhere else.
#[derive(Drop)]
pub struct NoHandle(AllocError);

/// Shows that a pair was put back among free numbers, by a note of its closed words, which no other channel has. It is made nowhere else.
#[derive(Drop)]
pub struct Freed {
    note: ShutNote,
}

/// All numbers are free, under a lock that all ends share. Free numbers begin in no other way.
pub fn all_free(alloc: Global, pairs: Vec<Option<FreePair>>) -> Result<Home, AllocError>
    requires { (length pairs.items ≡ CHANNELS) × StandAtTheirNumbers pairs.items × AllFree pairs.items }
{
    Ok(Arc::new(alloc, Mutex::new(FreeNumbers { pairs }))?)
}

/// A handle for each end of a channel.
pub fn handles(home: &Home) -> Result<(Home, Home), NoHandle> {
    let own = Arc::try_clone(home).map_err(NoHandle)?;
    let peers = Arc::try_clone(home).map_err(NoHandle)?;
    Ok((own, peers))
}

fn fits(place: &Option<FreePair>, depth: usize) -> bool
    ensures { result ≡ has_depth depth place.now }
{
    match place {
        Some(pair) => pair.low.sender.depth() == depth,
        None => false,
    }
}

impl FreeNumbers {
    fn lowest(&self, depth: usize) -> Option<usize>
        ensures { MatchOption result (NoneFree depth self.now.pairs.items)
            (λ i. (i < CHANNELS) × (has_depth depth (at_place self.now.pairs.items i) ≡ true) × ((j : ℕ) → j < i → has_depth depth (at_place self.now.pairs.items j) ≡ false)) }
    {
        for at in 0..self.pairs.len() {
            if fits(&self.pairs[at], depth) {
                return Some(at);
            }
        }
        None
    }

    /// The pair of the lowest number that is free.
    pub fn open(&mut self, depth: usize) -> Result<FreePair, AllTaken>
        ensures { MatchResult result
            (λ p. (p.low.depth ≡ depth) × (at_place self.old.pairs.items p.low.spot.channel ≡ Some p) × (self.new.pairs.items ≡ slice_set self.old.pairs.items p.low.spot.channel None)
            × ((j : ℕ) → j < p.low.spot.channel → has_depth depth (at_place self.old.pairs.items j) ≡ false))
            (λ taken. (taken.depth ≡ depth) × (self.new.pairs ≡ self.old.pairs) × NoneFree depth self.old.pairs.items) }
    {
        let Some(at) = self.lowest(depth) else {
            return Err(AllTaken { depth });
        };
        Ok(self.pairs[at].take().unwrap())
    }

    /// The number is free again. The note is of this very channel.
    pub fn cancel(&mut self, pair: FreePair, note: ShutNote) -> Freed
        requires { note.table ≡ pair.low.closed }
        ensures free { self.new.pairs.items ≡ slice_set self.old.pairs.items pair.low.spot.channel (Some pair) }
        ensures freed { result.note ≡ note }
    {
        let channel = pair.low.spot.channel as usize;
        self.pairs[channel] = Some(pair);
        Freed { note }
    }
}
