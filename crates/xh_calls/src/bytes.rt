//! A buffer becomes a block, and a block a buffer.
ghost use Rattle.std.specs.Prelude.{◌≡◌, ◌/◌, ◌<◌, ◌∷◌, [], IfErr, MatchResult, OnOk, length};
ghost use Rattle.xh_core.specs.Space.{rounded};
ghost use Rattle.xh_model.specs.declared.limits.TheConstants.{MAX_RECORDS};
ghost use Rattle.xh_place.specs.Calls.{GivesUp, HasBytes, Makes};
ghost use Rattle.xh_place.specs.Seen.{IsSamePlace};
ghost use Rattle.xh_place.specs.Tallies.{gave, took};
ghost use Rattle.xh_calls.specs.Calls.{space_of};
ghost use Rattle.xh_calls.specs.Places.{IsServed, IsTillOf, TalliesBecome, status_at};
ghost use Rattle.xh_calls.specs.Vaults.{AsksVault, Entered};

use crate::heap::{Heap, Till};
use crate::names::Names;
use crate::starting::check_number;
use std::sync::Wait;
use xh_core::{Block, Refused};
use xh_place::{Gate, Place};

impl<N: Names> Heap<N> {
    /// As `Kernel::put`, by whoever has the place's lock.
    #[tactic(auto, using(xh_place::proofs::Deeds::stays_itself))]
    pub fn put<R: Wait, G: Gate>(
        &self,
        rt: &R,
        place: &mut Place,
        p: u16,
        bytes: &mut Vec<u8>,
        arena: u32,
        till: &mut Till,
        gate: &G,
    ) -> Result<Block, Refused>
        requires { IsServed N.parts place.old till.old }
        ensures same { IsSamePlace place.old place.new × IsTillOf N.parts till.new }
        ensures tallies { TalliesBecome (λ b. took arena b.len) till.old till.new result }
        ensures made { Makes (status_at p place.old) (space_of N.parts) (length bytes.old.items) bytes.old.items arena place.old place.new result }
        ensures bytes { MatchResult result (λ _. bytes.new.items ≡ []) (λ _. bytes.new.items ≡ bytes.old.items) }
        ensures asked { OnOk result (Entered (arena ∷ []) till.old.seen till.new.seen) }
        ensures refused { IfErr result (AsksVault N.parts arena (rounded (length bytes.old.items)) till.old.seen till.new.seen) }
    {
        check_number(place, p)?;
        let mut desk = self.lend(rt, till, gate);
        let answer = place.put(&mut desk, bytes, arena);
        desk.vaults.end(till);
        self.tell_in_vain(rt, arena, &answer);
        answer
    }

    /// As `Kernel::into_bytes`, by whoever has the place's lock.
    #[tactic(auto, using(xh_place::proofs::Deeds::stays_itself))]
    pub fn into_bytes<R: Wait, G: Gate>(
        &self,
        rt: &R,
        place: &mut Place,
        p: u16,
        r: u16,
        till: &mut Till,
        gate: &G,
    ) -> Result<Vec<u8>, Refused>
        requires { IsServed N.parts place.old till.old }
        ensures same { IsSamePlace place.old place.new × IsTillOf N.parts till.new }
        ensures tallies { TalliesBecome (λ v. gave (r / MAX_RECORDS) (length v.items)) till.old till.new result }
        ensures arena { OnOk result (r / MAX_RECORDS < length N.parts.records.shape.names) }
        ensures asked { MatchResult result (λ _. Entered (r / MAX_RECORDS ∷ []) till.old.seen till.new.seen) (λ _. till.new.seen ≡ till.old.seen) }
        ensures freed { GivesUp (λ v. HasBytes r place.old.seat v.items) (status_at p place.old) r place.old place.new result }
    {
        check_number(place, p)?;
        let mut desk = self.lend(rt, till, gate);
        let answer = place.into_bytes(&mut desk, r);
        desk.vaults.end(till);
        self.tell_freed(rt, r, &answer);
        answer
    }
}
