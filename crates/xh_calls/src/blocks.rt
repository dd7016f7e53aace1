//! The calls of a process on its data blocks.
ghost use Rattle.std.specs.Prelude.{◌≡◌, ◌/◌, ◌<◌, ◌∷◌, [], IfErr, MatchResult, OnErr, OnOk, length};
ghost use Rattle.xh_core.specs.Space.{rounded};
ghost use Rattle.xh_model.specs.declared.limits.TheConstants.{MAX_RECORDS};
ghost use Rattle.xh_records.specs.Seats.{IsSeatOf};
ghost use Rattle.xh_place.specs.Calls.{Allocates, FreesBlock, Lends, LendsMut, Reads, Splits, Writes};
ghost use Rattle.xh_place.specs.Seen.{IsSamePlace};
ghost use Rattle.xh_place.specs.Tallies.{gave, took};
ghost use Rattle.xh_calls.specs.Calls.{space_of};
ghost use Rattle.xh_calls.specs.Places.{IsServed, IsTillOf, TalliesBecome, status_at};
ghost use Rattle.xh_calls.specs.Vaults.{AsksVault, Entered};

use crate::heap::{Heap, Till};
use crate::names::Names;
use crate::starting::check_number;
use std::alloc::Global;
use std::sync::Wait;
use xh_core::{Block, Refused};
use xh_model::limits::MAX_RECORDS;
use xh_place::{Gate, Place};

impl<N: Names> Heap<N> {
    /// As `Kernel::alloc`, by whoever has the place's lock.
    #[tactic(auto, using(xh_place::proofs::Deeds::stays_itself))]
    pub fn alloc<R: Wait, G: Gate>(
        &self,
        rt: &R,
        alloc: Global,
        place: &mut Place,
        p: u16,
        n: u32,
        arena: u32,
        till: &mut Till,
        gate: &G,
    ) -> Result<Block, Refused>
        requires { IsServed N.parts place.old till.old }
        ensures same { IsSamePlace place.old place.new × IsTillOf N.parts till.new }
        ensures tallies { TalliesBecome (λ b. took arena b.len) till.old till.new result }
        ensures made { Allocates (status_at p place.old) (space_of N.parts) n arena place.old place.new result }
        ensures asked { OnOk result (Entered (arena ∷ []) till.old.seen till.new.seen) }
        ensures refused { IfErr result (AsksVault N.parts arena (rounded n) till.old.seen till.new.seen) }
    {
        check_number(place, p)?;
        let mut desk = self.lend(rt, till, gate);
        let answer = place.alloc(alloc, &mut desk, n, arena);
        desk.vaults.end(till);
        self.tell_in_vain(rt, arena, &answer);
        answer
    }

    /// As `Kernel::split`, by whoever has the place's lock.
    #[tactic(auto, using(xh_place::proofs::Deeds::stays_itself))]
    pub fn split<R: Wait, G: Gate>(
        &self,
        rt: &R,
        alloc: Global,
        place: &mut Place,
        p: u16,
        r: u16,
        k: u32,
        till: &mut Till,
        gate: &G,
    ) -> Result<(Block, Block), Refused>
        requires { IsServed N.parts place.old till.old }
        ensures same { IsSamePlace place.old place.new × IsTillOf N.parts till.new }
        ensures tallies { till.new.tallies.items ≡ till.old.tallies.items }
        ensures asked { MatchResult result (λ _. Entered (r / MAX_RECORDS ∷ []) till.old.seen till.new.seen) (λ _. till.new.seen ≡ till.old.seen) }
        ensures cut { Splits (status_at p place.old) r k place.old place.new result }
    {
        check_number(place, p)?;
        let mut desk = self.lend(rt, till, gate);
        let answer = place.split(alloc, &mut desk, r, k);
        desk.vaults.end(till);
        self.tell_in_vain(rt, u32::from(r / MAX_RECORDS), &answer);
        answer
    }

    /// As `Kernel::read`, by whoever has the place's lock.
    #[tactic(auto, using(xh_place::proofs::Deeds::stays_itself))]
    pub fn read(
        &self,
        place: &mut Place,
        p: u16,
        r: u16,
        at: u32,
        out: &mut [u8],
    ) -> Result<(), Refused>
        requires { IsSeatOf N.parts.records place.old.seat }
        ensures read { Reads (status_at p place.old) r at out.new place.old place.new result }
        ensures refused { OnErr result (out.new ≡ out.old) }
    {
        check_number(place, p)?;
        place.read(&self.records, r, at, out)
    }

    /// As `Kernel::write`, by whoever has the place's lock.
    #[tactic(auto, using(xh_place::proofs::Seeing::did_none))]
    pub fn write(
        &self,
        place: &mut Place,
        p: u16,
        r: u16,
        at: u32,
        bytes: &[u8],
    ) -> Result<(), Refused>
        requires { IsSeatOf N.parts.records place.old.seat }
        ensures { Writes (status_at p place.old) r at bytes.now place.old place.new result }
    {
        check_number(place, p)?;
        place.write(&self.records, r, at, bytes)
    }

    /// As `Kernel::with_bytes`, by whoever has the place's lock.
    #[tactic(auto, using(xh_place::proofs::Deeds::stays_itself))]
    pub fn with_bytes<A, F: FnMut(&[u8]) -> A>(
        &self,
        place: &mut Place,
        p: u16,
        r: u16,
        f: &mut F,
    ) -> Result<A, Refused>
        requires place { IsSeatOf N.parts.records place.old.seat }
        requires callable { F.IsAlwaysCallable f.old }
        ensures { Lends F.FnMut (status_at p place.old) r f.old f.new place.old place.new result }
    {
        check_number(place, p)?;
        place.with_bytes(&self.records, r, f)
    }

    /// As `Kernel::with_bytes_mut`, by whoever has the place's lock.
    #[tactic(auto, using(xh_place::proofs::Seeing::did_none))]
    pub fn with_bytes_mut<A, F: FnMut(&mut [u8]) -> A>(
        &self,
        place: &mut Place,
        p: u16,
        r: u16,
        f: &mut F,
    ) -> Result<A, Refused>
        requires place { IsSeatOf N.parts.records place.old.seat }
        requires callable { F.IsAlwaysCallable f.old }
        ensures { LendsMut F.FnMut (status_at p place.old) r f.old f.new place.old place.new result }
    {
        check_number(place, p)?;
        place.with_bytes_mut(&self.records, r, f)
    }

    /// As `Kernel::free`, by whoever has the place's lock.
    #[tactic(auto, using(xh_place::proofs::Deeds::stays_itself))]
    pub fn free<R: Wait, G: Gate>(
        &self,
        rt: &R,
        place: &mut Place,
        p: u16,
        r: u16,
        till: &mut Till,
        gate: &G,
    ) -> Result<u32, Refused>
        requires { IsServed N.parts place.old till.old }
        ensures same { IsSamePlace place.old place.new × IsTillOf N.parts till.new }
        ensures tallies { TalliesBecome (gave (r / MAX_RECORDS)) till.old till.new result }
        ensures asked { MatchResult result (λ _. Entered (r / MAX_RECORDS ∷ []) till.old.seen till.new.seen) (λ _. till.new.seen ≡ till.old.seen) }
        ensures arena { OnOk result (r / MAX_RECORDS < length N.parts.records.shape.names) }
        ensures freed { FreesBlock (status_at p place.old) r place.old place.new result }
    {
        check_number(place, p)?;
        let mut desk = self.lend(rt, till, gate);
        let answer = place.free(&mut desk, r);
        desk.vaults.end(till);
        self.tell_freed(rt, r, &answer);
        answer
    }
}
