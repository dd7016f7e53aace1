//! A glance as one word.
ghost use Rattle.std.specs.Prelude.{◌≡◌, ◌<◌};
ghost use Rattle.xh_model.specs.declared.limits.TheConstants.{PLACES};
ghost use Rattle.xh_model.specs.Words.{place_of};
ghost use Rattle.xh_kernel.specs.Words.{IsPackable, unpacked};

use xh_calls::Entry;
use xh_core::{Glance, Status};
use xh_history::Shows;
use xh_model::limits::PLACES;

/// The weight of the count of blocks; below it stands the state.
const BLOCKS: u64 = 4;

/// The weight of the bytes.
const BYTES: u64 = 16_384;

/// The weight of the process's generation.
const GENERATION: u64 = 9_007_199_254_740_992;

/// A count of blocks is below this.
const BLOCK_COUNTS: u64 = 4096;

/// A sum of bytes is below this.
const BYTE_SUMS: u64 = 549_755_813_888;

/// The generation of a process, whose number has 16 bits, is below this.
const GENERATIONS: u64 = 2048;

const _: () = prove!(BLOCKS * BLOCK_COUNTS == BYTES);

const _: () = prove!(BYTES * BYTE_SUMS == GENERATION);

const _: () = prove!(GENERATIONS * PLACES as u64 == 65_536);

/// The word of a place shows what the place is after the last call of its history.
pub struct Glances;

impl Shows<Entry> for Glances {
    ghost use Rattle.xh_model.specs.Words.{place_of};
    ghost use Rattle.xh_kernel.specs.Words.{shows};

    ghost shows = { shows };
}

pub(crate) fn pack(glance: Glance) -> u64
    requires { IsPackable glance }
    ensures { unpacked (place_of glance.process) result ≡ glance }
{
    let state = match glance.state {
        Status::Vacant => 0,
        Status::Running => 1,
        Status::Ending => 2,
        Status::Ended => 3,
    };
    let generation = glance.process / u16::from(PLACES);
    state
        + BLOCKS * u64::from(glance.blocks)
        + BYTES * glance.bytes
        + GENERATION * u64::from(generation)
}

/// What the word of a place tells.
pub(crate) fn unpack(place: u8, word: u64) -> Glance
    requires { place < PLACES }
    ensures { result ≡ unpacked place word }
{
    let state = match word % BLOCKS {
        0 => Status::Vacant,
        1 => Status::Running,
        2 => Status::Ending,
        _ => Status::Ended,
    };
    let generation = (word / GENERATION % GENERATIONS) as u16;
    Glance {
        process: u16::from(place) + PLACES as u16 * generation,
        state,
        blocks: (word / BLOCKS % BLOCK_COUNTS) as u32,
        bytes: word / BYTES % BYTE_SUMS,
    }
}
