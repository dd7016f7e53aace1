//! A vault: an arena with its books.
ghost use Rattle.std.specs.Prelude.{◌≡◌, ◌≢◌, ◌⊎◌, ℕ, ◌+◌, ◌-◌, ◌<◌, ◌≤◌, ◌%◌, [], ◌∷◌, length, map, sum, replicate, slice_get, slice_set, IfOk, IfErr, OnErr, OnOk, Err, Some, None, MatchOption, ◌↔◌};
ghost use Rattle.xh_model.specs.Cover.{AreHoles, bytes_out, holes_of, length_of, run_of};
ghost use Rattle.xh_model.specs.Arena.{IsGoodCut, IsLawfulArena, lengths_of};
ghost use Rattle.xh_arena.specs.declared.parts.Part.TheVariants.{Books};
ghost use Rattle.xh_arena.specs.inner.Parts.{lots_from, tallies_from};
ghost use Rattle.xh_arena.specs.Refusals.{RefusesCarve};
ghost use Rattle.xh_arena.specs.Sharing.{IsLotOfArena, IsVaultCarved, IsVaultCut, IsVaultGivenBack};
ghost use Rattle.xh_arena.specs.Views.{AreLots, AreSummed, AreTallies, AreVaultLimits};

use crate::arena::Arena;
use crate::fits::Fits;
use crate::lot::{Lot, lots};
use crate::name::VaultName;
use crate::refused::Refused;
use crate::shares::Shares;
use crate::tally::{Tally, tallies};
use std::alloc::{AllocError, Global};
use std::marker::Model;
use xh_model::limits::{MAX_BYTES, MAX_RECORDS, MAX_WORKERS, UNIT};

/// An arena whose records' lengths are those of its lots, and whose bytes handed out and given back are those of its
/// tallies. Bytes reach a record, and leave it, only with its lot in hand.
#[derive(Drop)]
pub struct Vault {
    arena: Arena,
    shares: Shares,
}

impl Model for Vault {
    ghost use Rattle.xh_arena.specs.Views.{VaultOf};
    ghost use Rattle.xh_arena.specs.inner.Books.{IsVault, back_of, workers_of, moves_of};

    ghost Value = { VaultOf };

    ghost view = { λ v. record { id = v.shares.id; arena = v.arena; back = back_of v.shares.parts; workers = workers_of v.shares.parts; collected = moves_of v.shares.parts } };

    ghost invariant = { λ v. IsVault v.arena v.shares.parts };
}

// A new vault's lots and tallies, each with its part of the shares, and what is left of these: the books.
fn deal_shares<B: Default + Drop>(
    alloc: Global,
    records: u16,
    workers: u8,
) -> Result<(Shares, Vec<Lot<B>>, Vec<Tally>), AllocError>
    ensures books { IfOk result (λ r. r.0.parts ≡ Books (replicate records 0) 0 0 workers ∷ []) }
    ensures lots { IfOk result (λ r. AreLots B.is_default r.0.id records r.1.items) }
    ensures tallies { IfOk result (λ r. AreTallies r.0.id workers r.2.items) }
{
    let mut shares = Shares::new(alloc, records, workers)?;
    let lots = lots(alloc, &mut shares, records)?;
    let tallies = tallies(alloc, &mut shares, workers)?;
    Ok((shares, lots, tallies))
}

impl Vault {
    /// A vault over an arena of `size` bytes for `records` records that may ever hand out `wear` bytes, with its lots,
    /// all empty, in the order of the records, and a tally for each of `workers` workers.
    ///
    /// BadSize where the size is not a multiple of 16 from 16 to 2^27, the records are not 1 to 256, the wear is
    /// 2^63 or more, or the workers are not 1 to 33; then OutOfMemory where a growth was refused.
    #[tactic(auto, using(xh_model::proofs::Lengths::lengths_new, crate::proofs::Weights::weigh_none, crate::proofs::Shown::settled))]
    pub fn new<B: Default + Fits + Drop>(
        alloc: Global,
        size: u32,
        records: u16,
        wear: u64,
        workers: u8,
    ) -> Result<(Vault, Vec<Lot<B>>, Vec<Tally>), Refused>
        ensures vault { IfOk result (λ r. r.0 ≡ record {
          id = r.0.id;
          arena = record { cover = replicate size None; records = records; wear = 0; limit = wear };
          back = 0;
          workers = workers;
          collected = [];
        }) }
        ensures lots { IfOk result (λ r. AreLots B.is_default r.0.id records r.1.items) }
        ensures tallies { IfOk result (λ r. AreTallies r.0.id workers r.2.items) }
        ensures limits { OnOk result (AreVaultLimits size records wear workers) }
        ensures bad_size { (result ≡ Err Refused.BadSize) ↔ (AreVaultLimits size records wear workers → ⊥) }
        ensures lawful { IfOk result (λ r. IsLawfulArena r.0.arena) }
        ensures refused { IfErr result (λ e. (e ≡ Refused.BadSize) ⊎ (e ≡ Refused.OutOfMemory)) }
    {
        if workers < 1 || workers > MAX_WORKERS {
            return Err(Refused::BadSize);
        }
        let arena = Arena::new(alloc, size, records, wear)?;
        let Ok((shares, lots, tallies)) = deal_shares(alloc, records, workers) else {
            return Err(Refused::OutOfMemory);
        };
        Ok((Vault { arena, shares }, lots, tallies))
    }

    /// Gives the empty lot the first `n` bytes that are free in a row, counts them as taken by the tally, and answers
    /// where they begin.
    ///
    /// `n` is a multiple of 16, at least 16. NoSpace where no hole holds `n`; then Worn where the bytes ever handed out
    /// would pass the arena's limit.
    pub fn carve<B>(&mut self, lot: &mut Lot<B>, tally: &mut Tally, n: u32) -> Result<u32, Refused>
        requires ids { (lot.old.id ≡ self.old.id) × (tally.old.id ≡ self.old.id) }
        requires empty { lot.old.len ≡ 0 }
        requires some { 0 < n }
        requires multiple { n % UNIT ≡ 0 }
        ensures lot { IsLotOfArena self.old.arena lot.old }
        ensures done { IfOk result (λ at. IsVaultCarved n at self.old self.new lot.old lot.new tally.old tally.new) }
        ensures refused { IfErr result (λ e. RefusesCarve n self.old.arena e × (self.new ≡ self.old) × (lot.new ≡ lot.old) × (tally.new ≡ tally.old)) }
        ensures exact { (e : Refused) → RefusesCarve n self.old.arena e → result ≡ Err e }
        ensures lawful { IsLawfulArena self.new.arena }
    {
        self.shares.look_at(&mut lot.share);
        let start = match self.arena.carve(lot.index, n) {
            Ok(at) => at,
            Err(refused) => return Err(refused),
        };
        self.shares.set_length_of(&mut lot.share, n);
        self.shares.take_by(&mut tally.share, n);
        lot.len = n;
        tally.taken += u64::from(n);
        Ok(start)
    }

    /// Gives all of the head past its first `k` bytes to the empty tail. It cannot fail.
    ///
    /// `k` is a multiple of 16, at least 16 and below the length of the head.
    pub fn cut<B>(&mut self, head: &mut Lot<B>, tail: &mut Lot<B>, k: u32)
        requires ids { (head.old.id ≡ self.old.id) × (tail.old.id ≡ self.old.id) }
        requires empty { tail.old.len ≡ 0 }
        requires good { IsGoodCut k head.old.len }
        ensures lots { IsLotOfArena self.old.arena head.old × IsLotOfArena self.old.arena tail.old }
        ensures done { IsVaultCut k self.old self.new head.old head.new tail.old tail.new }
        ensures lawful { IsLawfulArena self.new.arena }
    {
        let rest = head.len - k;
        self.shares.set_length_of(&mut head.share, k);
        self.shares.set_length_of(&mut tail.share, rest);
        let Ok(()) = self.arena.cut(head.index, tail.index, k) else {
            unreachable!()
        };
        head.len = k;
        tail.len = rest;
    }

    /// Makes the bytes of the lot, which has some, a hole, joined with the holes beside it, and counts them as given
    /// back by the tally. It cannot fail: the lot's share is the length that the vault has in its books.
    pub fn give_back<B>(&mut self, lot: &mut Lot<B>, tally: &mut Tally)
        requires ids { (lot.old.id ≡ self.old.id) × (tally.old.id ≡ self.old.id) }
        requires some { 0 < lot.old.len }
        ensures lot { IsLotOfArena self.old.arena lot.old }
        ensures done { IsVaultGivenBack self.old self.new lot.old lot.new tally.old tally.new }
        ensures lawful { IsLawfulArena self.new.arena }
    {
        self.shares.set_length_of(&mut lot.share, 0);
        self.shares.give_back_by(&mut tally.share, lot.len);
        self.arena.give_back(lot.index);
        tally.back += u64::from(lot.len);
        lot.len = 0;
    }

    /// Changes nothing, and shows that the lot's length is the length of its record's bytes.
    pub fn audit<B>(&mut self, lot: &mut Lot<B>)
        requires { lot.old.id ≡ self.old.id }
        ensures same { (self.new ≡ self.old) × (lot.new ≡ lot.old) }
        ensures lot { IsLotOfArena self.old.arena lot.old }
    {
        self.shares.look_at(&mut lot.share);
    }

    /// Takes a tally in for good. Once each tally of the vault was taken in, what they took is what the arena handed
    /// out, and what they gave back is what came back to it.
    pub fn collect(&mut self, tally: Tally)
        requires { tally.id ≡ self.old.id }
        ensures kept { self.new ≡ record self.old { collected = record { number = tally.number; taken = tally.taken; back = tally.back } ∷ self.old.collected } }
        ensures summed { AreSummed self.new.arena.wear self.new.back self.new.workers self.new.collected }
    {
        let Tally {
            number: _,
            taken: _,
            back: _,
            share,
        } = tally;
        self.shares.keep(share);
        self.shares.look();
    }

    /// A value without bytes that says which vault this is: its lots and tallies have the same id.
    pub fn name(&mut self) -> VaultName
        ensures same { self.new ≡ self.old }
        ensures name { result ≡ self.old.id }
    {
        self.shares.name()
    }

    /// Where the bytes of the record `r` begin and how many they are, or nothing where it is empty.
    pub fn extent(&self, r: u16) -> Option<(u32, u32)>
        requires { r < self.now.arena.records }
        ensures is { result ≡ run_of r self.now.arena.cover }
        ensures length { MatchOption result (length_of r self.now.arena.cover ≡ 0) (λ run. length_of r self.now.arena.cover ≡ run.1) }
    {
        self.arena.extent(r)
    }

    /// The holes in rising order, each a start and a length. None is empty, and no two touch.
    pub fn holes(&self) -> &[(u32, u32)]
        ensures value { result.now ≡ holes_of self.now.arena.cover }
        ensures all { AreHoles self.now.arena.cover result.now }
        ensures few { length result.now ≤ MAX_RECORDS + 1 }
        ensures lawful { IsLawfulArena self.now.arena }
    {
        self.arena.holes()
    }

    /// How many bytes the records have, together.
    pub fn handed_out(&self) -> u32
        ensures out { result ≡ bytes_out self.now.arena.cover }
        ensures sum { result ≡ sum (lengths_of self.now.arena) }
        ensures books { self.now.arena.wear ≡ self.now.back + result }
    {
        self.arena.handed_out()
    }

    /// How many bytes `carve` ever handed out, which is what all tallies have taken.
    pub fn wear(&self) -> u64
        ensures wear { result ≡ self.now.arena.wear }
        ensures within_limit { self.now.arena.wear ≤ self.now.arena.limit }
        ensures summed { AreSummed result self.now.back self.now.workers self.now.collected }
    {
        self.arena.wear()
    }

    /// How many records there are, 1 to 256.
    pub fn records(&self) -> u16
        ensures records { result ≡ self.now.arena.records }
        ensures limit { (1 ≤ result) × (result ≤ MAX_RECORDS) }
    {
        self.arena.records()
    }

    /// How many bytes the arena has, handed out or not.
    pub fn size(&self) -> u32
        ensures size { result ≡ length self.now.arena.cover }
        ensures limit { (UNIT ≤ result) × (result ≤ MAX_BYTES) }
        ensures multiple { result % UNIT ≡ 0 }
    {
        self.arena.size()
    }
}
