//! An arena: its records' extents and its holes.
ghost use Rattle.std.specs.Prelude.{◌≡◌, ◌≢◌, ℕ, ◌+◌, ◌<◌, ◌≤◌, ◌%◌, ◌∷◌, [], ◌↔◌, IfOk, IfErr, OnOk, IsOk, MatchOption, ◌⊎◌, Err, None, length, replicate};
ghost use Rattle.std.specs.Box.{boxed_slice_items};
ghost use Rattle.std.specs.List.{range_with_len, sum_by};
ghost use Rattle.xh_model.specs.Cover.{AreHoles, SameRun, bytes_out, holes_of, length_of, run_of};
ghost use Rattle.xh_model.specs.Arena.{AreLimits, IsCarved, IsCut, IsGivenBack, IsGoodCut, IsLawfulArena};
ghost use Rattle.xh_arena.specs.Refusals.{RefusesCarve};

use crate::holes::{Holes, add_hole, first_hole, take_front};
use crate::refused::Refused;
use std::alloc::{AllocError, Global};
use std::boxed::BoxedSlice;
use std::marker::Model;
use xh_model::is_in_arena_limits;
use xh_model::limits::{MAX_BYTES, MAX_RECORDS, UNIT};

/// A range of bytes: the extent of each record is a run of it, and all other bytes are holes.
///
/// Records are numbered from 0. Every start, length and size is in bytes, and a multiple of 16. The holes take 2 KiB in
/// the arena itself, and each record 8 bytes, whatever the size. Neither can grow: no call but `new` takes memory.
#[derive(Drop)]
pub struct Arena {
    size: u32,
    /// By record, the start and the length; the length is 0 where the record is empty.
    extents: BoxedSlice<(u32, u32), Global>,
    /// In rising order, each a start and a length.
    holes: Holes,
    handed_out: u32,
    wear: u64,
    limit: u64,
}

impl Model for Arena {
    ghost use Rattle.std.specs.Prelude.{length};
    ghost use Rattle.std.specs.Box.{boxed_slice_items};
    ghost use Rattle.xh_model.specs.Arena.{ArenaState};
    ghost use Rattle.xh_arena.specs.inner.Layout.{IsArena, cover_of};

    ghost Value = { ArenaState };

    ghost view = { λ a. record { cover = cover_of a.size (boxed_slice_items a.extents); records = length (boxed_slice_items a.extents); wear = a.wear; limit = a.limit } };

    ghost invariant = { λ a. IsArena a.size (boxed_slice_items a.extents) a.holes.items a.handed_out a.wear a.limit };
}

/// The extents of records that are all empty.
fn no_extents(alloc: Global, count: usize) -> Result<BoxedSlice<(u32, u32), Global>, AllocError>
    ensures { IfOk result (λ extents. boxed_slice_items extents ≡ replicate count (0, 0)) }
{
    let extents = vec![in alloc; (0, 0); count]?;
    Ok(extents.into_boxed_slice())
}

/// One hole.
fn one_hole(size: u32) -> Holes
    ensures { result.items ≡ (0, size) ∷ [] }
{
    let mut holes = Holes::new();
    holes.push((0, size));
    holes
}

impl Arena {
    /// An arena of `size` bytes for `records` records, all empty, that may ever hand out `wear` bytes.
    ///
    /// The size is 16 to 2^27 and a multiple of 16, the records are 1 to 256, and the wear is below 2^63: else
    /// BadSize, before any memory is asked for. OutOfMemory only where a growth was refused. All room is taken here.
    pub fn new(alloc: Global, size: u32, records: u16, wear: u64) -> Result<Arena, Refused>
        ensures fresh { IfOk result (λ arena. arena ≡ record { cover = replicate size None; records = records; wear = 0; limit = wear }) }
        ensures limits { OnOk result (AreLimits size records wear) }
        ensures bad_size { (result ≡ Err Refused.BadSize) ↔ (AreLimits size records wear → ⊥) }
        ensures lawful { IfOk result IsLawfulArena }
        ensures empty { IfOk result (λ arena. (r : ℕ) → length_of r arena.cover ≡ 0) }
        ensures refused { IfErr result (λ e. (e ≡ Refused.BadSize) ⊎ (e ≡ Refused.OutOfMemory)) }
    {
        if !is_in_arena_limits(size, records, wear) {
            return Err(Refused::BadSize);
        }
        let Ok(extents) = no_extents(alloc, usize::from(records)) else {
            return Err(Refused::OutOfMemory);
        };
        Ok(Arena {
            size,
            extents,
            holes: one_hole(size),
            handed_out: 0,
            wear: 0,
            limit: wear,
        })
    }

    /// Gives the empty record `r` the first `n` bytes that are free in a row, and answers where they begin.
    ///
    /// `n` is a multiple of 16, at least 16. NoSpace where no hole holds `n`; then Worn where the bytes ever handed out
    /// would pass the arena's limit.
    pub fn carve(&mut self, r: u16, n: u32) -> Result<u32, Refused>
        requires known { r < self.old.records }
        requires empty { length_of r self.old.cover ≡ 0 }
        requires some { 0 < n }
        requires multiple { n % UNIT ≡ 0 }
        ensures done { IfOk result (λ at. IsCarved r n at self.old self.new) }
        ensures refused { IfErr result (λ e. RefusesCarve n self.old e × (self.new ≡ self.old)) }
        ensures exact { (e : Refused) → RefusesCarve n self.old e → result ≡ Err e }
        ensures length { OnOk result (length_of r self.new.cover ≡ n) }
        ensures others { (q : ℕ) → q ≢ r → SameRun q self.old.cover self.new.cover }
        ensures records { self.new.records ≡ self.old.records }
        ensures lawful { IsLawfulArena self.new }
    {
        let Some(at) = first_hole(&self.holes, n) else {
            return Err(Refused::NoSpace);
        };
        if self.limit - self.wear < u64::from(n) {
            return Err(Refused::Worn);
        }
        let start = take_front(&mut self.holes, at, n);
        self.extents[usize::from(r)] = (start, n);
        self.handed_out += n;
        self.wear += u64::from(n);
        Ok(start)
    }

    /// Gives all of the record `r` past its first `k` bytes to the empty record `t`.
    ///
    /// BadCut where `k` is 0, not a multiple of 16, or not below the length of `r`.
    pub fn cut(&mut self, r: u16, t: u16, k: u32) -> Result<(), Refused>
        requires known { r < self.old.records }
        requires tail_known { t < self.old.records }
        requires other { t ≢ r }
        requires empty { length_of t self.old.cover ≡ 0 }
        ensures done { OnOk result (IsCut r t k self.old self.new) }
        ensures refused { IfErr result (λ e. (e ≡ Refused.BadCut) × (self.new ≡ self.old)) }
        ensures exact { IsOk result ↔ IsGoodCut k (length_of r self.old.cover) }
        ensures others { (q : ℕ) → q ≢ r → q ≢ t → SameRun q self.old.cover self.new.cover }
        ensures records { self.new.records ≡ self.old.records }
        ensures lawful { IsLawfulArena self.new }
    {
        let (head, tail) = (usize::from(r), usize::from(t));
        let (start, length) = self.extents[head];
        if k == 0 || k % UNIT != 0 || k >= length {
            return Err(Refused::BadCut);
        }
        self.extents[head] = (start, k);
        self.extents[tail] = (start + k, length - k);
        Ok(())
    }

    /// Makes the bytes of the record `r`, which has some, a hole, joined with the holes beside it. It cannot fail.
    pub fn give_back(&mut self, r: u16)
        requires known { r < self.old.records }
        requires held { 0 < length_of r self.old.cover }
        ensures done { IsGivenBack r self.old self.new }
        ensures empty { length_of r self.new.cover ≡ 0 }
        ensures others { (q : ℕ) → q ≢ r → SameRun q self.old.cover self.new.cover }
        ensures records { self.new.records ≡ self.old.records }
        ensures lawful { IsLawfulArena self.new }
    {
        let index = usize::from(r);
        let (start, length) = self.extents[index];
        self.extents[index] = (0, 0);
        self.handed_out -= length;
        add_hole(&mut self.holes, start, length);
    }

    /// Where the bytes of the record `r` begin and how many they are, or nothing where it is empty.
    pub fn extent(&self, r: u16) -> Option<(u32, u32)>
        requires { r < self.now.records }
        ensures is { result ≡ run_of r self.now.cover }
        ensures length { MatchOption result (length_of r self.now.cover ≡ 0) (λ run. length_of r self.now.cover ≡ run.1) }
    {
        let extent = self.extents[usize::from(r)];
        if extent.1 == 0 { None } else { Some(extent) }
    }

    /// The holes in rising order, each a start and a length. None is empty, and no two touch.
    pub fn holes(&self) -> &[(u32, u32)]
        ensures value { result.now ≡ holes_of self.now.cover }
        ensures all { AreHoles self.now.cover result.now }
        ensures few { length result.now ≤ MAX_RECORDS + 1 }
        ensures lawful { IsLawfulArena self.now }
    {
        self.holes.as_slice()
    }

    /// How many bytes the records have, together.
    pub fn handed_out(&self) -> u32
        ensures out { result ≡ bytes_out self.now.cover }
        ensures sum { result ≡ sum_by (λ r. length_of r self.now.cover) (range_with_len 0 self.now.records) }
    {
        self.handed_out
    }

    /// How many bytes `carve` ever handed out. Bytes that were given back count, and a cut counts nothing.
    pub fn wear(&self) -> u64
        ensures wear { result ≡ self.now.wear }
        ensures within_limit { self.now.wear ≤ self.now.limit }
    {
        self.wear
    }

    /// How many records there are, 1 to 256.
    pub fn records(&self) -> u16
        ensures records { result ≡ self.now.records }
        ensures limit { (1 ≤ result) × (result ≤ MAX_RECORDS) }
    {
        self.extents.len() as u16
    }

    /// How many bytes the arena has, handed out or not.
    pub fn size(&self) -> u32
        ensures size { result ≡ length self.now.cover }
        ensures limit { (UNIT ≤ result) × (result ≤ MAX_BYTES) }
        ensures multiple { result % UNIT ≡ 0 }
    {
        self.size
    }
}
