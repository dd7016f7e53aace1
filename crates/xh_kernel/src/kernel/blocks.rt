//! The calls of a process on its data blocks.
ghost use Rattle.std.specs.Prelude.{◌≡◌, OnErr};
ghost use Rattle.xh_kernel.specs.Did.{DidAlloc, DidFree, DidRead, DidSplit, DidWrite};
ghost use Rattle.xh_kernel.specs.Lends.{LendsAll, LendsAllMut};

use crate::account::Account;
use crate::kernel::Kernel;
use crate::locked_place::LockedPlace;
use std::alloc::Global;
use std::sync::Wait;
use xh_calls::Names;
use xh_core::{Block, Refused};
use xh_place::Gate;

impl<N: Names> Kernel<N> {
    /// A new data block of `n` bytes of the arena, rounded up to a multiple of 16, all of them zero.
    ///
    /// NoProcess, Ended, NoArena, BadSize where `n` is 0 or more than an arena has, NoRecord, OutOfMemory
    /// where a growth was refused, NoSpace, Worn.
    pub fn alloc<R: Wait, G: Gate>(
        &self,
        rt: &R,
        alloc: Global,
        p: u16,
        n: u32,
        arena: u32,
        account: &mut Account<N>,
        gate: &G,
    ) -> Result<Block, Refused>
        ensures { DidAlloc N.parts N.leads p n arena result account.old account.new }
    {
        let mut guard = self.held(rt, p);
        let held: &mut LockedPlace<N> = &mut guard;
        let heap = &self.shared.heap;
        let till = &mut account.till;
        let answer = heap.alloc(rt, alloc, &mut held.place, p, n, arena, till, gate);
        let about = (p, n, arena, &answer);
        held.scribe.note(&self.shared, &held.place, &mut account.front, &about, false);
        answer
    }

    /// Cuts a data block after its first `k` bytes, a multiple of 16: the head, which keeps its record, and
    /// the tail, of the same arena.
    ///
    /// NoProcess, Ended, NotOwned, NotData, BadCut where `k` is 0, no multiple of 16 or not less than the
    /// block has, NoRecord, OutOfMemory where a growth was refused.
    pub fn split<R: Wait, G: Gate>(
        &self,
        rt: &R,
        alloc: Global,
        p: u16,
        r: u16,
        k: u32,
        account: &mut Account<N>,
        gate: &G,
    ) -> Result<(Block, Block), Refused>
        ensures { DidSplit N.leads p r k result account.old account.new }
    {
        let mut guard = self.held(rt, p);
        let held: &mut LockedPlace<N> = &mut guard;
        let heap = &self.shared.heap;
        let answer = heap.split(rt, alloc, &mut held.place, p, r, k, &mut account.till, gate);
        let about = (p, r, k, &answer);
        held.scribe.note(&self.shared, &held.place, &mut account.front, &about, false);
        answer
    }

    /// The bytes of a data block from `at` on, as many as `out` has.
    ///
    /// NoProcess, Ended, NotOwned, NotData, BadRange where they reach past its end; `out` stays as it was
    /// then.
    pub fn read<R: Wait, G: Gate>(
        &self,
        rt: &R,
        p: u16,
        r: u16,
        at: u32,
        out: &mut [u8],
        account: &mut Account<N>,
        _gate: &G,
    ) -> Result<(), Refused>
        ensures call { DidRead N.leads p r at out.new result account.old account.new }
        ensures refused { OnErr result (out.new ≡ out.old) }
    {
        let mut guard = self.held(rt, p);
        let held: &mut LockedPlace<N> = &mut guard;
        let answer = self.shared.heap.read(&mut held.place, p, r, at, out);
        let about = (p, r, at, &*out, &answer);
        held.scribe.note(&self.shared, &held.place, &mut account.front, &about, true);
        answer
    }

    /// These bytes stand in a data block in the place of as many from `at` on.
    ///
    /// NoProcess, Ended, NotOwned, NotData, BadRange where they reach past its end.
    pub fn write<R: Wait, G: Gate>(
        &self,
        rt: &R,
        p: u16,
        r: u16,
        at: u32,
        bytes: &[u8],
        account: &mut Account<N>,
        _gate: &G,
    ) -> Result<(), Refused>
        ensures { DidWrite N.leads p r at bytes.now result account.old account.new }
    {
        let mut guard = self.held(rt, p);
        let held: &mut LockedPlace<N> = &mut guard;
        let answer = self.shared.heap.write(&mut held.place, p, r, at, bytes);
        let about = (p, r, at, bytes, &answer);
        held.scribe.note(&self.shared, &held.place, &mut account.front, &about, false);
        answer
    }

    /// One call of `f` at the bytes of a data block, all of them: what `f` answers. It is called under the place's lock,
    /// so it must not call the kernel.
    ///
    /// NoProcess, Ended, NotOwned, NotData; `f` isn't called then.
    pub fn with_bytes<R: Wait, G: Gate, A, F: FnMut(&[u8]) -> A>(
        &self,
        rt: &R,
        p: u16,
        r: u16,
        f: &mut F,
        account: &mut Account<N>,
        _gate: &G,
    ) -> Result<A, Refused>
        requires { F.IsAlwaysCallable f.old }
        ensures { LendsAll N.leads F.FnMut p r f.old f.new account.old account.new result }
    {
        let mut guard = self.held(rt, p);
        let held: &mut LockedPlace<N> = &mut guard;
        let answer = self.shared.heap.with_bytes(&mut held.place, p, r, f);
        let about = (p, r, &answer);
        held.scribe.note(&self.shared, &held.place, &mut account.front, &about, true);
        answer
    }

    /// As `with_bytes`; `f` may change the bytes where they stand. To the histories it is a write of what `f` left.
    pub fn with_bytes_mut<R: Wait, G: Gate, A, F: FnMut(&mut [u8]) -> A>(
        &self,
        rt: &R,
        p: u16,
        r: u16,
        f: &mut F,
        account: &mut Account<N>,
        _gate: &G,
    ) -> Result<A, Refused>
        requires { F.IsAlwaysCallable f.old }
        ensures { LendsAllMut N.leads F.FnMut p r f.old f.new account.old account.new result }
    {
        let mut guard = self.held(rt, p);
        let held: &mut LockedPlace<N> = &mut guard;
        let answer = self.shared.heap.with_bytes_mut(&mut held.place, p, r, f);
        let about = (p, r, &answer);
        held.scribe.note(&self.shared, &held.place, &mut account.front, &about, false);
        answer
    }

    /// A data block's bytes go back, and its record is free. It answers the bytes.
    ///
    /// NoProcess, Ended, NotOwned, NotData.
    pub fn free<R: Wait, G: Gate>(
        &self,
        rt: &R,
        p: u16,
        r: u16,
        account: &mut Account<N>,
        gate: &G,
    ) -> Result<u32, Refused>
        ensures { DidFree N.leads p r result account.old account.new }
    {
        let mut guard = self.held(rt, p);
        let held: &mut LockedPlace<N> = &mut guard;
        let heap = &self.shared.heap;
        let answer = heap.free(rt, &mut held.place, p, r, &mut account.till, gate);
        let about = (p, r, &answer);
        held.scribe.note(&self.shared, &held.place, &mut account.front, &about, false);
        answer
    }
}
