//! Several events at a time, and what is read of the arenas.
ghost use Rattle.std.specs.Prelude.{◌≡◌, ◌*◌, ◌≢◌, ℕ, ◌+◌, ◌<◌, ◌≤◌, ◌/◌, ◌%◌, ◌∷◌, [], Some, None, OnOk, OnErr, MatchResult, length, true};
ghost use Rattle.xh_model.specs.declared.limits.TheConstants.{MAX_BYTES, MAX_RECORDS, PROCESSES, UNIT};
ghost use Rattle.xh_model.specs.declared.event.Event.TheVariants.{Claim, Carve, Cut, GiveBack, Vacate};
ghost use Rattle.xh_model.specs.declared.event.Holder.TheVariants.{Process};
ghost use Rattle.xh_model.specs.Store.{after, arena_at, holds, is_known, len, owner};
ghost use Rattle.xh_core.specs.Space.{free_record, space_tests};
ghost use Rattle.xh_core.specs.Gaining.{Gained};
ghost use Rattle.xh_core.specs.Refusing.{first_refusal};

use super::Plain;
use crate::refused::Refused;
use xh_model::limits::MAX_RECORDS;

impl Plain {
    /// How many arenas there are.
    pub fn arenas(&self) -> usize
        ensures { result ≡ length self.now.arenas }
    {
        self.arenas.len()
    }

    /// The bytes of an arena, handed out or not.
    pub fn size(&self, arena: u32) -> u32
        requires { arena < length self.now.arenas }
        ensures size { result ≡ length (arena_at self.now arena).cover }
        ensures limit { result ≤ MAX_BYTES }
    {
        self.arenas[arena as usize].size()
    }

    /// The bytes of a record; none where there is no such record.
    pub fn len(&self, r: u16) -> u32
        ensures { result ≡ len self.now r }
    {
        match self.extent(r) {
            Some((_, bytes)) => bytes,
            None => 0,
        }
    }

    /// The lowest record of an arena that nobody holds.
    pub fn free_record(&self, arena: u32) -> Option<u16>
        requires { arena < length self.now.arenas }
        ensures { result ≡ free_record self.now arena }
    {
        let count = self.records;
        let first = MAX_RECORDS * arena as u16;
        (first..first + count).find(|&r| self.holder(r).is_none())
    }

    /// A free record is claimed by the process `p` and gets `n` bytes, at the lowest place of its arena that has
    /// room for them. NoSpace, and Worn; each leaves all as it was.
    pub fn allocate(&mut self, p: u16, r: u16, n: u32) -> Result<(), Refused>
        requires process { p < PROCESSES }
        requires known { is_known self.old r ≡ true }
        requires free { owner self.old r ≡ None }
        requires some { 0 < n }
        requires multiple { n % UNIT ≡ 0 }
        ensures store { OnOk result (self.new ≡ after (Carve p r n) (after (Claim p r) self.old)) }
        ensures gained { OnOk result (Gained p (r ∷ []) self.old self.new) }
        ensures length { OnOk result (len self.new r ≡ n) }
        ensures others { OnOk result ((q : ℕ) → q ≢ r → len self.new q ≡ len self.old q) }
        ensures room { MatchResult result (λ _. first_refusal (space_tests self.old (r / MAX_RECORDS) n) ≡ None) (λ refused. first_refusal (space_tests self.old (r / MAX_RECORDS) n) ≡ Some refused) }
        ensures unchanged { OnErr result (self.new ≡ self.old) }
    {
        let _start = &self.records;
        self.claim(p, r);
        if let Err(refused) = self.carve(p, r, n) {
            self.vacate(p, r);
            return Err(refused);
        }
        let _open = &self.records;
        Ok(())
    }

    /// The bytes of a record that the process `p` holds are given back, and the record is free. How many they were.
    pub fn discard(&mut self, p: u16, r: u16) -> u32
        ensures store { self.new ≡ after (Vacate p r) (after (GiveBack p r) self.old) }
        ensures length { result ≡ len self.old r }
    {
        let len = self.len(r);
        self.give_back(p, r);
        self.vacate(p, r);
        len
    }

    /// A free record `t` is claimed, and gets the bytes of the record `r`, of the same arena, past its first `k`.
    pub fn part(&mut self, p: u16, r: u16, t: u16, k: u32)
        requires process { p < PROCESSES }
        requires held { holds self.old (Process p) r ≡ true }
        requires known { is_known self.old t ≡ true }
        requires free { owner self.old t ≡ None }
        requires arena { r / MAX_RECORDS ≡ t / MAX_RECORDS }
        requires some { 0 < k }
        requires multiple { k % UNIT ≡ 0 }
        requires inside { k < len self.old r }
        ensures store { self.new ≡ after (Cut p r t k) (after (Claim p t) self.old) }
        ensures gained { Gained p (t ∷ []) self.old self.new }
        ensures head { len self.new r ≡ k }
        ensures tail { len self.new t + k ≡ len self.old r }
        ensures others { (q : ℕ) → q ≢ r → q ≢ t → len self.new q ≡ len self.old q }
    {
        let _start = &self.records;
        self.claim(p, t);
        self.cut(p, r, t, k);
        let _open = &self.records;
    }
}
