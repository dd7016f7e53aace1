//! What the calls of all places share.
ghost use Rattle.std.specs.Prelude.{◌≡◌, ◌≤◌, is_some};
ghost use Rattle.xh_calls.specs.Places.{IsTillOf};
ghost use Rattle.xh_model.specs.declared.limits.TheConstants.{GENERATIONS, PLACES};

use crate::arenas::{Arenas, Lent};
use crate::names::Names;
use crate::waiters::Waiters;
use std::mem;
use std::sync::Wait;
use xh_arena::{Tally, Vault};
use xh_channel::Channels;
use xh_history::Front;
use xh_place::{Body, Desk};
use xh_records::Records;

/// What a worker brings to each call: its tally of each arena, and what it has seen of each arena's history.
#[derive(Drop)]
pub struct Till {
    pub tallies: Vec<Tally>,
    pub seen: Front<Vault>,
}

/// The records, the channels, the locks of the arenas and who waits for memory of them, and how often a place is used. A call reaches them with the lock of its place
/// in hand.
#[derive(Drop)]
pub struct Heap<N: Names> {
    pub records: Records<Body>,
    pub channels: Channels,
    pub arenas: Arenas<N>,
    pub waiters: Waiters,
    pub generations: u16,
    ghost named: { (records ≡ N.parts.records) × (channels.depth ≡ N.parts.depth) },
    ghost coming_back: { is_some channels.come_back ≡ N.parts.comes_back },
    ghost places: { records.shape.places ≡ PLACES },
    ghost often: { (generations ≡ N.parts.generations) × (generations ≤ GENERATIONS) },
}

impl<N: Names> Heap<N> {
    // What a call works on.
    pub(crate) fn desk<'a, R, V, G>(
        &'a self,
        rt: &'a R,
        vaults: V,
        gate: &'a G,
    ) -> Desk<'a, R, V, G>
        ensures { (result.records.now ≡ N.parts.records) × (result.vaults ≡ vaults) }
    {
        Desk {
            rt,
            records: &self.records,
            channels: &self.channels,
            vaults,
            gate,
        }
    }

    // What a call works on that asks the vaults, with what lies in the till until the end of the call.
    pub(crate) fn lend<'a, R: Wait, G>(
        &'a self,
        rt: &'a R,
        till: &mut Till,
        gate: &'a G,
    ) -> Desk<'a, R, Lent<'a, N, R>, G>
        requires { IsTillOf N.parts till.old }
        ensures { (result.records.now ≡ N.parts.records) × (result.vaults.till ≡ till.old) }
    {
        let blank = Till {
            tallies: Vec::new(*till.tallies.allocator()),
            seen: Front::blank(),
        };
        let vaults = Lent {
            rt,
            arenas: &self.arenas,
            till: mem::replace(till, blank),
        };
        self.desk(rt, vaults, gate)
    }
}
