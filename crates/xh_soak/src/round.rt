//! A round: how it goes, by its seed, what its processes share beside the heap, and what it leaves.
ghost use Rattle.std.specs.Prelude.{◌≤◌};

use std::alloc::Global;
use std::sync::atomic::AtomicU64;
use std::sync::{Mutex, Wait};
use std::thread::Threads;
use std::time::Clock;
use xh_heap::{Config, Refused, run};

/// What is counted: the calls of a process, and the start of its thread.
pub(crate) const CALLS: &str =
    "spawn start alloc alloc_in alloc_wait alloc_for put put_in into_bytes split read write with_bytes \
    with_bytes_mut free open open_with wire wire_with give give_wait give_for give_bytes_wait take \
    take_wait take_for take_bytes_wait take_any take_any_wait take_any_for close exit kill overview";

/// Numbers at random, by a seed.
#[derive(Clone, Copy)]
pub(crate) struct Chance(pub(crate) u64);

impl Chance {
    /// A number below a count, or 0.
    pub(crate) fn below(&mut self, count: u32) -> u32
        ensures { result ≤ count }
    {
        let next = self.0.wrapping_mul(6_364_136_223_846_793_005);
        self.0 = next.wrapping_add(1_442_695_040_888_963_407);
        (self.0 / 8_589_934_592) as u32 % count.max(1)
    }

    /// One of these, taken out.
    pub(crate) fn pick<T: Drop>(&mut self, of: &mut Vec<T>) -> Option<T> {
        let at = self.below(65_536) as usize % of.len().max(1);
        if of.is_empty() {
            return None;
        }
        Some(of.swap_remove(at))
    }
}

/// How a round goes, and what its processes share: how often each call was answered Ok so far, and what was wrong first.
#[derive(Drop)]
pub(crate) struct Round {
    pub(crate) alloc: Global,
    pub(crate) is_scarce: bool,
    pub(crate) seed: u64,
    pub(crate) bytes: u32,
    pub(crate) kills: bool,
    pub(crate) answered: [AtomicU64; 64],
    pub(crate) wrong: Mutex<&'static str>,
}

impl Round {
    pub(crate) fn new(alloc: Global, is_scarce: bool) -> Round {
        Round {
            alloc,
            is_scarce,
            seed: 0,
            bytes: 0,
            kills: false,
            answered: std::array::from_fn(|_| AtomicU64::new(0)),
            wrong: Mutex::new(""),
        }
    }

    /// Plays that of a seed: what was wrong, or nothing. At its end nothing is left.
    pub(crate) fn play<R: Threads + Wait + Clock + Sync>(
        &mut self,
        rt: &R,
        seed: u64,
    ) -> Result<&'static str, Refused> {
        let mut chance = Chance(seed.wrapping_mul(1024).wrapping_add(1023));
        let wears = chance.below(4) == 0;
        self.seed = seed;
        self.bytes = 16 * (chance.below(4096) + 64);
        self.kills = chance.below(2) == 0;
        let config = Config {
            arenas: 3,
            bytes: self.bytes,
            records: (chance.below(224) + 32) as u16,
            depth: (chance.below(15) + 1) as u8,
            wear: if wears { 262_144 } else { u64::MAX / 4 },
        };
        let workers = (chance.below(8) + 1) as u8;
        let ledger = run(rt, self.alloc, config, workers, &*self)?.books.ledger;
        let is_whole = ledger.arenas.iter().all(|it| it.out == 0 && it.holes == 1);
        Ok(match *self.wrong.lock(rt) {
            "" if !is_whole || ledger.owned != 0 || ledger.flight != 0 => "blocks are lost",
            wrong => wrong,
        })
    }
}
