//! Channels are opened, for one process or between two.
ghost use Rattle.std.specs.Prelude.{◌<◌, IfOk, None, Some};
ghost use Rattle.xh_kernel.specs.Wires.{ClosesOne, HandsOver, OpensBoth, OpensOne, ReceivesOne, Wires};
ghost use Rattle.xh_model.specs.declared.limits.TheConstants.{CHANNELS};
ghost use Rattle.xh_records.specs.Seats.{IsRecord};

use crate::account::Account;
use crate::kernel::Kernel;
use crate::locked_place::LockedPlace;
use std::snapshot::Snapshot;
use std::sync::Wait;
use xh_calls::{Names, Wired};
use xh_core::{Block, Contract, Refused};
use xh_place::Gate;

impl<N: Names> Kernel<N> {
    /// Both ends of a new channel come to the process: side 0 and side 1, each of 32 bytes, the halves of
    /// one first fit of 64 bytes of the arena.
    ///
    /// NoProcess, Ended, NoArena, NoChannel where each channel is taken, OutOfMemory where channels come back and a
    /// growth for this one was refused, NoRecord, NoSpace, Worn.
    pub fn open<R: Wait, G: Gate>(
        &self,
        rt: &R,
        p: u16,
        arena: u32,
        account: &mut Account<N>,
        gate: &G,
    ) -> Result<(Block, Block), Refused>
        ensures { OpensBoth N.parts N.leads p arena None account.old account.new result }
    {
        self.open_by(rt, p, arena, None, account, gate)
    }

    /// As `open`; the channel goes by the contract.
    pub fn open_with<R: Wait, G: Gate>(
        &self,
        rt: &R,
        p: u16,
        arena: u32,
        contract: Contract,
        account: &mut Account<N>,
        gate: &G,
    ) -> Result<(Block, Block), Refused>
        ensures { OpensBoth N.parts N.leads p arena (Some contract) account.old account.new result }
    {
        self.open_by(rt, p, arena, Some(contract), account, gate)
    }

    /// As `open` by `p`; then side 1 goes to `q`, unless `q` is `p`.
    ///
    /// NoProcess and Ended of `p`, the same of `q`, then as `open`. Ended also where `q` ends before
    /// side 1 reaches it: then both sides are reclaimed again, where they are still to be had.
    pub fn wire<R: Wait, G: Gate>(
        &self,
        rt: &R,
        p: u16,
        q: u16,
        arena: u32,
        account: &mut Account<N>,
        gate: &G,
    ) -> Result<(Block, Block), Refused>
        ensures { Wires N.parts N.leads p q arena None account.old account.new result }
    {
        self.connect(rt, p, q, arena, None, account, gate)
    }

    /// As `wire`; the channel goes by the contract.
    pub fn wire_with<R: Wait, G: Gate>(
        &self,
        rt: &R,
        p: u16,
        q: u16,
        arena: u32,
        contract: Contract,
        account: &mut Account<N>,
        gate: &G,
    ) -> Result<(Block, Block), Refused>
        ensures { Wires N.parts N.leads p q arena (Some contract) account.old account.new result }
    {
        self.connect(rt, p, q, arena, Some(contract), account, gate)
    }

    // Opens a channel that goes by the contract, or by none.
    fn open_by<R: Wait, G: Gate>(
        &self,
        rt: &R,
        p: u16,
        arena: u32,
        contract: Option<Contract>,
        account: &mut Account<N>,
        gate: &G,
    ) -> Result<(Block, Block), Refused>
        ensures { OpensBoth N.parts N.leads p arena contract account.old account.new result }
    {
        let mut guard = self.held(rt, p);
        let held: &mut LockedPlace<N> = &mut guard;
        let heap = &self.shared.heap;
        let till = &mut account.till;
        let by = Snapshot::of(&contract);
        let answer = heap.open(rt, &mut held.place, p, arena, contract, till, gate);
        let about = (p, arena, &by, &answer);
        held.scribe.note(&self.shared, &held.place, &mut account.front, &about, false);
        answer
    }

    // Each place is locked for its part alone.
    fn connect<R: Wait, G: Gate>(
        &self,
        rt: &R,
        p: u16,
        q: u16,
        arena: u32,
        contract: Option<Contract>,
        account: &mut Account<N>,
        gate: &G,
    ) -> Result<(Block, Block), Refused>
        ensures { Wires N.parts N.leads p q arena contract account.old account.new result }
    {
        self.look_at(rt, p, account)?;
        self.look_at(rt, q, account)?;
        if p == q {
            return self.open_by(rt, p, arena, contract, account, gate);
        }
        let wired = self.open_toward(rt, p, arena, contract, account, gate)?;
        self.hand_over(rt, p, q, wired, account, gate)
    }

    // Side 0 is of the process, and side 1 on its way.
    fn open_toward<R: Wait, G: Gate>(
        &self,
        rt: &R,
        p: u16,
        arena: u32,
        contract: Option<Contract>,
        account: &mut Account<N>,
        gate: &G,
    ) -> Result<Wired, Refused>
        ensures call { OpensOne N.parts N.leads p arena contract account.old account.new result }
        ensures exists { IfOk result (λ w. IsRecord N.parts.records.shape w.high.rec) }
    {
        let mut guard = self.held(rt, p);
        let held: &mut LockedPlace<N> = &mut guard;
        let heap = &self.shared.heap;
        let till = &mut account.till;
        let by = Snapshot::of(&contract);
        let answer = heap.open_toward(rt, &mut held.place, p, arena, contract, till, gate);
        let about = (p, arena, &by, &answer);
        held.scribe.note(&self.shared, &held.place, &mut account.front, &about, false);
        answer
    }

    // Side 1 goes to `q`. Where that has ended, side 0 is closed.
    fn hand_over<R: Wait, G: Gate>(
        &self,
        rt: &R,
        p: u16,
        q: u16,
        wired: Wired,
        account: &mut Account<N>,
        gate: &G,
    ) -> Result<(Block, Block), Refused>
        requires { IsRecord N.parts.records.shape wired.high.rec }
        ensures { HandsOver N.leads p q wired account.old account.new result }
    {
        let Err(_ended) = self.receive(rt, q, wired.high.rec, wired.channel, account, gate) else {
            return Ok((wired.low, wired.high));
        };
        self.close_again(rt, p, &wired, account, gate);
        Err(Refused::Ended)
    }

    // Side 1 of the channel comes to `q`'s list, or is swept.
    fn receive<R: Wait, G: Gate>(
        &self,
        rt: &R,
        q: u16,
        r: u16,
        channel: u8,
        account: &mut Account<N>,
        gate: &G,
    ) -> Result<Block, Refused>
        requires { IsRecord N.parts.records.shape r × (channel < CHANNELS) }
        ensures { ReceivesOne N.leads q r channel account.old account.new result }
    {
        let mut guard = self.held(rt, q);
        let held: &mut LockedPlace<N> = &mut guard;
        let heap = &self.shared.heap;
        let before = Snapshot::of(&account.till.tallies);
        let answer = heap.receive(rt, &mut held.place, q, r, channel, &mut account.till, gate);
        let about = (q, r, channel, &before, &account.till.tallies, &answer);
        held.scribe.note(&self.shared, &held.place, &mut account.front, &about, false);
        answer
    }

    // Side 0 of the channel is closed, where `p` runs and still has it.
    fn close_again<R: Wait, G: Gate>(
        &self,
        rt: &R,
        p: u16,
        wired: &Wired,
        account: &mut Account<N>,
        gate: &G,
    )
        ensures { ClosesOne N.leads p wired.now account.old account.new }
    {
        let mut guard = self.held(rt, p);
        let held: &mut LockedPlace<N> = &mut guard;
        let heap = &self.shared.heap;
        let before = Snapshot::of(&account.till.tallies);
        heap.close_again(rt, &mut held.place, p, wired, &mut account.till, gate);
        let about = (p, wired, &before, &account.till.tallies);
        held.scribe.note(&self.shared, &held.place, &mut account.front, &about, false);
    }
}
