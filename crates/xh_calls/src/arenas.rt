//! The locks of the arenas.
ghost use Rattle.std.specs.Prelude.{◌≡◌, ◌≤◌, ◌%◌, All, IfOk, Some, length, slice_get, vec_len};
ghost use Rattle.std.specs.Sync.Mutex.{mutex_guard_value};
ghost use Rattle.atomic_table.specs.Seated.{TableId};
ghost use Rattle.xh_arena.specs.Views.{VaultOf};
ghost use Rattle.xh_core.specs.ArenaLines.{arena_line};
ghost use Rattle.xh_model.specs.declared.limits.TheConstants.{MAX_ARENAS, MAX_BYTES, UNIT};
ghost use Rattle.xh_calls.specs.Parts.{IsOpen, IsUnused, vault_names};
ghost use Rattle.xh_calls.specs.Places.{IsTillOf};
ghost use Rattle.xh_calls.specs.Vaults.{AreKeptVaults, AreTheirs, EndsIn, Enters, IsSeenOf, Tells};
ghost use Rattle.xh_calls.specs.inner.Making.{AreFreshFrom};

use crate::heap::Till;
use crate::kept::Kept;
use crate::names::Names;
use crossbeam_utils::CachePadded;
use std::alloc::{AllocError, Global};
use std::hint;
use std::sync::{Mutex, MutexGuard, Wait};
use xh_arena::{Lot, Refused as ArenaRefused, Vault};
use xh_core::ArenaLine;
use xh_history::{Front, Histories, NobodyLooks, Pen};
use xh_place::{Body, Vaults};

/// What the ledger says of an arena.
pub fn vault_line(vault: &Vault) -> ArenaLine
    ensures { result ≡ arena_line vault.now.arena }
{
    let (out, taken) = (vault.handed_out(), vault.wear());
    ArenaLine {
        size: vault.size(),
        out,
        holes: vault.holes().len() as u32,
        taken,
        back: taken - u64::from(out),
    }
}

/// The vaults, the pens of their histories, and the histories.
type Unlocked = (Vec<Vault>, Vec<Pen<Vault>>, Histories<Vault, NobodyLooks>);

// How often an arena's lock is tried before a call sleeps for it.
const TRIES: u16 = 30;

/// One lock for each arena, on cache lines of its own, how many bytes each arena has, and the histories of the arenas.
#[derive(Drop)]
pub struct Arenas<N: Names> {
    locks: Vec<CachePadded<Mutex<Kept<N>>>>,
    size: u32,
    histories: Histories<Vault, NobodyLooks>,
    ghost counted: { (vec_len locks ≡ length N.parts.records.shape.names) × (vec_len locks ≤ MAX_ARENAS) },
    ghost recorded: { histories ≡ N.parts.vaults },
    ghost sized: { (size ≡ N.parts.size) × (size % UNIT ≡ 0) × (size ≤ MAX_BYTES) },
}

// What lies behind the lock of the arena, which knows its number, once nobody has it.
fn wait_for<'a, N: Names, R: Wait>(
    rt: &R,
    lock: &'a CachePadded<Mutex<Kept<N>>>,
    arena: u8,
) -> MutexGuard<'a, Kept<N>>
    ensures { (mutex_guard_value result).pen.number ≡ arena }
{
    for _ in rt.forever() {
        let kept = lock.lock(rt);
        if kept.number() == arena {
            return kept;
        }
    }
    unreachable!()
}

impl<N: Names> Arenas<N> {
    /// The vaults of all arenas behind their locks, beside the pens of their histories.
    pub fn new(
        alloc: Global,
        vaults: Vec<Vault>,
        size: u32,
        histories: Histories<Vault, NobodyLooks>,
        pens: Vec<Pen<Vault>>,
    ) -> Result<Arenas<N>, AllocError>
        requires sized { (size ≡ N.parts.size) × (size % UNIT ≡ 0) × (size ≤ MAX_BYTES) }
        requires names { vault_names vaults.items ≡ N.parts.records.shape.names }
        requires open_vaults { All (IsOpen N.parts) vaults.items }
        requires unused { All IsUnused vaults.items }
        requires few { vec_len vaults ≤ MAX_ARENAS }
        requires histories { (histories ≡ N.parts.vaults) × AreFreshFrom 0 pens.items N.parts.vaults }
    {
        let mut locks = Vec::with_capacity(alloc, vaults.len())?;
        let mut pens = pens.into_iter();
        for vault in vaults {
            let Some(pen) = pens.next() else {
                unreachable!()
            };
            locks.push(CachePadded::new(Mutex::new(Kept::new(vault, pen))))?;
        }
        Ok(Arenas {
            locks,
            size,
            histories,
        })
    }

    /// How many there are.
    pub fn count(&self) -> u8
        ensures { (result ≡ length N.parts.records.shape.names) × (result ≤ MAX_ARENAS) }
    {
        self.locks.len() as u8
    }

    // What lies behind the lock of the arena. It is tried for a while first: others have it for some hundred nanoseconds, and
    // whoever once waits for it by `lock` leaves it so that each unlock calls the system.
    #[inline(always)]
    fn kept<R: Wait>(&self, rt: &R, arena: u8) -> MutexGuard<'_, Kept<N>>
        requires { (id : TableId) × (slice_get N.parts.records.shape.names arena ≡ Some id) }
        ensures { (mutex_guard_value result).pen.number ≡ arena }
    {
        let lock = &self.locks[usize::from(arena)];
        for _ in 0..TRIES {
            match lock.try_lock() {
                Some(kept) if kept.number() == arena => return kept,
                _ => hint::spin_loop(),
            }
        }
        wait_for(rt, lock, arena)
    }

    // The worker enters what an arena's vault is now in the arena's history.
    #[inline(always)]
    fn enter(&self, pen: &mut Pen<Vault>, seen: &mut Front<Vault>, vault: &Vault)
        requires tables { (pen.old.table ≡ N.parts.vaults) × IsSeenOf N.parts seen.old }
        ensures same { (pen.new.table ≡ pen.old.table) × (pen.new.number ≡ pen.old.number) × IsSeenOf N.parts seen.new }
        ensures entered { (v : VaultOf) → EndsIn v pen.old.history → EndsIn vault.now pen.new.history × Enters pen.old.number v vault.now seen.old seen.new }
        ensures theirs { AreTheirs N.parts pen.old.history → AreTheirs N.parts pen.new.history }
    {
        self.histories.add(pen, seen, None, vault);
    }

    /// What the ledger says of an arena as it is at a step of the call, which the worker enters in the arena's history.
    pub fn line<R: Wait>(&self, rt: &R, arena: u8, seen: &mut Front<Vault>) -> ArenaLine
        requires there { (id : TableId) × (slice_get N.parts.records.shape.names arena ≡ Some id) }
        requires seen { IsSeenOf N.parts seen.old }
        ensures { Tells N.parts seen.old arena result seen.new }
    {
        let mut guard = self.kept(rt, arena);
        let kept: &mut Kept<N> = &mut guard;
        self.enter(&mut kept.pen, seen, &kept.vault);
        vault_line(&kept.vault)
    }

    /// The vaults, by arena, out of their locks, each of which knows its arena's number, the pens of their histories, and the
    /// histories. An error where memory was refused.
    pub fn into_vaults(self, alloc: Global) -> Result<Unlocked, AllocError>
        ensures kept { IfOk result (λ r. AreKeptVaults N.parts r.0.items r.1.items) }
        ensures few { IfOk result (λ r. vec_len r.0 ≤ MAX_ARENAS) }
        ensures histories { IfOk result (λ r. r.2 ≡ N.parts.vaults) }
    {
        let mut vaults = Vec::with_capacity(alloc, self.locks.len())?;
        let mut pens = Vec::with_capacity(alloc, self.locks.len())?;
        for lock in self.locks {
            let (vault, pen) = lock.into_inner().into_inner().into_parts();
            if usize::from(pen.number()) != vaults.len() {
                return Err(AllocError);
            }
            vaults.push(vault)?;
            pens.push(pen)?;
        }
        Ok((vaults, pens, self.histories))
    }
}

/// What the worker brings to a call. It takes an arena's lock for one carving, cut or giving back, or for a run of givings back, and enters each in the arena's history as
/// the worker's.
#[derive(Drop)]
pub(crate) struct Lent<'a, N: Names, R: Wait> {
    pub(crate) rt: &'a R,
    pub(crate) arenas: &'a Arenas<N>,
    pub(crate) till: Till,
    ghost own: { IsTillOf N.parts till },
}

impl<'a, N: Names, R: Wait> Lent<'a, N, R> {
    // What lies in the till now.
    pub(crate) fn end(self, till: &mut Till)
        ensures { (till.new ≡ self.entry.till) × IsTillOf N.parts till.new }
    {
        *till = self.till;
    }
}

impl<'a, N: Names, R: Wait> Vaults for Lent<'a, N, R> {
    type Lock = MutexGuard<'a, Kept<N>>;

    ghost use Rattle.std.specs.Sync.Mutex.{mutex_guard_value};
    ghost use Rattle.xh_calls.specs.Vaults.{Leaves};

    ghost names = { λ _. N.parts.records.shape.names };

    ghost extent = { λ _. N.parts.size };

    ghost tallies = { λ l. l.till.tallies.items };

    ghost changes = { λ old new. Leaves N.parts old.till.seen new.till.seen };

    ghost arena_of = { λ k. (mutex_guard_value k).pen.number };

    fn arenas(&self) -> u8 {
        self.arenas.count()
    }

    fn size(&self) -> u32 {
        self.arenas.size
    }

    #[inline(always)]
    fn carve(&mut self, arena: u8, lot: &mut Lot<Body>, n: u32) -> Result<u32, ArenaRefused> {
        let mut guard = self.arenas.kept(self.rt, arena);
        let kept: &mut Kept<N> = &mut guard;
        let Till { tallies, seen } = &mut self.till;
        let answer = kept.vault.carve(lot, &mut tallies[usize::from(arena)], n);
        self.arenas.enter(&mut kept.pen, seen, &kept.vault);
        answer
    }

    #[inline(always)]
    fn cut(&mut self, arena: u8, head: &mut Lot<Body>, tail: &mut Lot<Body>, k: u32) {
        let mut guard = self.arenas.kept(self.rt, arena);
        let kept: &mut Kept<N> = &mut guard;
        kept.vault.cut(head, tail, k);
        self.arenas
            .enter(&mut kept.pen, &mut self.till.seen, &kept.vault);
    }

    #[inline(always)]
    fn lock(&self, arena: u8) -> MutexGuard<'a, Kept<N>> {
        self.arenas.kept(self.rt, arena)
    }

    #[inline(always)]
    fn number_of(lock: &MutexGuard<'a, Kept<N>>) -> u8 {
        lock.number()
    }

    #[inline(always)]
    fn give_back(&mut self, lock: &mut MutexGuard<'a, Kept<N>>, arena: u8, lot: &mut Lot<Body>) {
        let kept: &mut Kept<N> = lock;
        let Till { tallies, seen } = &mut self.till;
        kept.vault.give_back(lot, &mut tallies[usize::from(arena)]);
        self.arenas.enter(&mut kept.pen, seen, &kept.vault);
    }
}
