//! Channels are opened, for one process or toward another.
ghost use Rattle.std.specs.Prelude.{◌≡◌, ◌⊎◌, ◌+◌, ◌*◌, ◌<◌, ◌++◌, ◌∷◌, [], IfErr, IfOk, OnOk, false, length, true};
ghost use Rattle.xh_channel.specs.Pairs.{IsPair};
ghost use Rattle.xh_channel.specs.Endpoint.{EndpointOf};
ghost use Rattle.xh_core.specs.declared.status.Status.TheVariants as status;
ghost use Rattle.xh_core.specs.Calls.{arena_tests, start};
ghost use Rattle.xh_core.specs.Refusing.{Tested};
ghost use Rattle.xh_model.specs.declared.limits.TheConstants.{CHANNELS, END_BYTES};
ghost use Rattle.xh_place.specs.Opening.{AreListed};
ghost use Rattle.xh_records.specs.Seats.{IsSeatOf};
ghost use Rattle.xh_place.specs.Seen.{IsSamePlace, Stays};
ghost use Rattle.xh_place.specs.Tallies.{took};
ghost use Rattle.xh_records.specs.Seats.{IsRecord};
ghost use Rattle.xh_calls.specs.Channels.{GoesBy, OpensChannel};
ghost use Rattle.xh_calls.specs.Places.{AfterLooks, ComesBack, IsServed, IsTillOf, TalliesBecome, status_at};
ghost use Rattle.xh_calls.specs.Vaults.{AsksVault, Entered};
ghost use Rattle.xh_calls.specs.Wires.{ClosesAgain, HasLow, OpensToward, ReceivesOr, toward_high};

use crate::heap::{Heap, Till};
use crate::names::Names;
use crate::starting::check_start;
use crate::waiters::FOR_RECORDS;
use crate::wired::Wired;
use std::sync::Wait;
use xh_channel::Endpoint;
use xh_core::{Block, Contract, Refused};
use xh_place::{Gate, Place};

// Both ends of a new channel, with a contract or without. NoChannel; OutOfMemory, where channels come back.
fn open_channel<N: Names, R: Wait>(
    rt: &R,
    heap: &Heap<N>,
    contract: Option<Contract>,
) -> Result<(Endpoint, Endpoint), Refused>
    ensures ok { IfOk result (λ ends. IsPair ends.0 ends.1 × (ends.0.depth ≡ N.parts.depth) × GoesBy contract ends.0) }
    ensures err { IfErr result (λ e. (e ≡ Refused.NoChannel) ⊎ ((e ≡ Refused.OutOfMemory) × (N.parts.comes_back ≡ true))) }
{
    let ends = match contract {
        Some(contract) => heap.channels.open_with(rt, contract)?,
        None => heap.channels.open(rt)?,
    };
    Ok(ends)
}

impl<N: Names> Heap<N> {
    // The tests of an open that come before the channel's.
    fn test_open(&self, place: &Place, p: u16, arena: u32) -> Result<(), Refused>
        ensures tested { Tested (start (status_at p place.now) ++ arena_tests arena (length N.parts.records.shape.names)) result (λ _. Unit {0}) }
        ensures running { OnOk result (place.now.state ≡ status.Running) }
        ensures there { OnOk result (arena < length N.parts.records.shape.names) }
    {
        check_start(place, p)?;
        if arena >= u32::from(self.arenas.count()) {
            return Err(Refused::NoArena);
        }
        Ok(())
    }

    /// As `Kernel::open`, by whoever has the place's lock; the channel goes by the contract, or by none. OutOfMemory in
    /// NoChannel's place, where channels come back and memory for one was refused.
    pub fn open<R: Wait, G: Gate>(
        &self,
        rt: &R,
        place: &mut Place,
        p: u16,
        arena: u32,
        contract: Option<Contract>,
        till: &mut Till,
        gate: &G,
    ) -> Result<(Block, Block), Refused>
        requires { IsServed N.parts place.old till.old }
        ensures same { IsSamePlace place.old place.new × IsTillOf N.parts till.new }
        ensures tallies { TalliesBecome (λ _. took arena (2 * END_BYTES)) till.old till.new result }
        ensures opened { OpensChannel N.parts p arena contract place.old place.new result }
        ensures asked { OnOk result (Entered (arena ∷ arena ∷ []) till.old.seen till.new.seen) }
        ensures refused { IfErr result (AsksVault N.parts arena (2 * END_BYTES) till.old.seen till.new.seen) }
        ensures running { OnOk result (place.new.state ≡ status.Running) }
        ensures ends { IfOk result (λ ends. (low : EndpointOf) × (high : EndpointOf) × IsPair low high × AreListed low high place.new.seat ends) }
    {
        self.test_open(place, p, arena)?;
        let (low, high) = open_channel(rt, self, contract)?;
        let mut desk = self.lend(rt, till, gate);
        let answer = place.open(&mut desk, low, high, arena);
        desk.vaults.end(till);
        match answer {
            Ok(ends) => Ok(ends),
            Err(unopened) => {
                self.channels.cancel(rt, unopened.low, unopened.high);
                self.tell(rt, arena, FOR_RECORDS);
                Err(unopened.why)
            }
        }
    }

    /// As `open`; then side 1 is passed on the direction toward it, and leaves the process.
    pub fn open_toward<R: Wait, G: Gate>(
        &self,
        rt: &R,
        place: &mut Place,
        p: u16,
        arena: u32,
        contract: Option<Contract>,
        till: &mut Till,
        gate: &G,
    ) -> Result<Wired, Refused>
        requires { IsServed N.parts place.old till.old }
        ensures same { IsSamePlace place.old place.new × IsTillOf N.parts till.new }
        ensures tallies { TalliesBecome (λ _. took arena (2 * END_BYTES)) till.old till.new result }
        ensures opened { OpensToward N.parts p arena contract place.old place.new result }
        ensures asked { OnOk result (Entered (arena ∷ arena ∷ []) till.old.seen till.new.seen) }
        ensures refused { IfErr result (AsksVault N.parts arena (2 * END_BYTES) till.old.seen till.new.seen) }
        ensures exists { IfOk result (λ w. IsRecord N.parts.records.shape w.high.rec) }
    {
        let (low, high) = self.open(rt, place, p, arena, contract, till, gate)?;
        let Some(spot) = place.spot(&self.records, low.rec) else {
            unreachable!()
        };
        let channel = spot.channel;
        let hold = self.channels.hold(channel);
        place.pass_end(&self.records, high.rec, 2 * channel + 1);
        Ok(Wired {
            low,
            high,
            channel,
            hold,
        })
    }

    /// Side 1 of the channel, on its way, comes to the process's list; or it is swept where the process has
    /// ended. Ended where it didn't come.
    pub fn receive<R: Wait, G: Gate>(
        &self,
        rt: &R,
        place: &mut Place,
        q: u16,
        r: u16,
        channel: u8,
        till: &mut Till,
        gate: &G,
    ) -> Result<Block, Refused>
        requires served { IsServed N.parts place.old till.old }
        requires there { IsRecord N.parts.records.shape r × (channel < CHANNELS) }
        ensures same { IsSamePlace place.old place.new × IsTillOf N.parts till.new }
        ensures received { ComesBack till.old till.new (λ bytes. ReceivesOr q (toward_high channel) r bytes place.old place.new result) }
    {
        let toward = 2 * channel + 1;
        let mut desk = self.lend(rt, till, gate);
        let answer = place.accept_end(&mut desk, q, r, toward);
        desk.vaults.end(till);
        self.tell_swept(rt);
        answer
    }

    // Whether the record is side 0 of the channel.
    fn has_low(&self, place: &mut Place, r: u16, channel: u8) -> bool
        requires { IsSeatOf N.parts.records place.old.seat }
        ensures same { Stays place.old place.new }
        ensures yes { result ≡ true → HasLow channel r place.old }
        ensures no { result ≡ false → HasLow channel r place.old → ⊥ }
    {
        match place.spot(&self.records, r) {
            Some(spot) => spot.channel == channel && spot.side == 0,
            None => false,
        }
    }

    /// Closes side 0 of a wired channel, where the process runs and still has it. Other threads may have called for the process
    /// meanwhile: what its record has now is the same endpoint if it has the number, which is held.
    pub fn close_again<R: Wait, G: Gate>(
        &self,
        rt: &R,
        place: &mut Place,
        p: u16,
        wired: &Wired,
        till: &mut Till,
        gate: &G,
    )
        requires { IsServed N.parts place.old till.old }
        ensures same { IsSamePlace place.old place.new × IsTillOf N.parts till.new }
        ensures closed { AfterLooks place.old place.new (λ from. ComesBack till.old till.new (ClosesAgain p wired.now.channel wired.now.low.rec from place.new)) }
    {
        if let Err(_refused) = check_start(place, p) {
            return;
        }
        // Each of its blocks is whole.
        let _blocks = place.blocks();
        let r = wired.low.rec;
        if self.has_low(place, r, wired.channel) {
            let _closed = self.close(rt, place, p, r, till, gate);
        }
    }
}
