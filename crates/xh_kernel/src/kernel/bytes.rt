//! A buffer becomes a block of a process, and a block a buffer.
ghost use Rattle.std.specs.Prelude.{◌≡◌, [], MatchResult};
ghost use Rattle.std.specs.Result.{result_map_both};
ghost use Rattle.xh_kernel.specs.Did.{DidIntoBytes, DidPut};

use crate::account::Account;
use crate::kernel::Kernel;
use crate::locked_place::LockedPlace;
use std::snapshot::Snapshot;
use std::sync::Wait;
use xh_calls::Names;
use xh_core::{Block, Refused};
use xh_place::Gate;

impl<N: Names> Kernel<N> {
    /// A new data block of these bytes of the arena, followed by zeros up to a multiple of 16. The buffer itself is the block's, and an
    /// empty one is left. It grows once where it has no room for the zeros; one whose capacity is more than an eighth above the block is
    /// shrunk, and where it stays so the answer is OutOfMemory. Refused, its bytes are as they were; its capacity may not be.
    ///
    /// NoProcess, Ended, NoArena, BadSize of no bytes or more than an arena has, NoRecord, OutOfMemory where a growth was
    /// refused, NoSpace, Worn.
    pub fn put<R: Wait, G: Gate>(
        &self,
        rt: &R,
        p: u16,
        bytes: &mut Vec<u8>,
        arena: u32,
        account: &mut Account<N>,
        gate: &G,
    ) -> Result<Block, Refused>
        ensures call { DidPut N.parts N.leads p bytes.old.items arena result account.old account.new }
        ensures bytes { MatchResult result (λ _. bytes.new.items ≡ []) (λ _. bytes.new.items ≡ bytes.old.items) }
    {
        let mut guard = self.held(rt, p);
        let held: &mut LockedPlace<N> = &mut guard;
        let heap = &self.shared.heap;
        let before = Snapshot::of(&*bytes);
        let answer = heap.put(
            rt,
            &mut held.place,
            p,
            bytes,
            arena,
            &mut account.till,
            gate,
        );
        let about = (p, &before, arena, &answer);
        held.scribe.note(&self.shared, &held.place, &mut account.front, &about, false);
        answer
    }

    /// A data block goes as by `free`; the buffer with all its bytes is the answer, with the zeros up to a multiple of 16: of a block
    /// that was put with 5 bytes 16 come back.
    ///
    /// NoProcess, Ended, NotOwned, NotData.
    pub fn into_bytes<R: Wait, G: Gate>(
        &self,
        rt: &R,
        p: u16,
        r: u16,
        account: &mut Account<N>,
        gate: &G,
    ) -> Result<Vec<u8>, Refused>
        ensures { DidIntoBytes N.leads p r (result_map_both (λ v. v.items) (λ e. e) result) account.old account.new }
    {
        let mut guard = self.held(rt, p);
        let held: &mut LockedPlace<N> = &mut guard;
        let heap = &self.shared.heap;
        let answer = heap.into_bytes(rt, &mut held.place, p, r, &mut account.till, gate);
        let about = (p, r, &answer);
        held.scribe.note(&self.shared, &held.place, &mut account.front, &about, false);
        answer
    }
}
