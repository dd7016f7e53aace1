//! The locks of the places, and the calls.
ghost use Rattle.std.specs.Prelude.{◌≡◌, ◌<◌, ◌≤◌, All, IfErr, IfOk, vec_len};
ghost use Rattle.std.specs.Sync.Mutex.{mutex_guard_value};
ghost use Rattle.xh_calls.specs.inner.Making.{AreBundles};
ghost use Rattle.xh_calls.specs.Calls.{Spawns};
ghost use Rattle.xh_calls.specs.Vaults.{AreKeptVaults};
ghost use Rattle.xh_history.specs.Histories.{fresh_look, fresh_pen};
ghost use Rattle.xh_kernel.specs.Accounts.{AreFresh, IsStill};
ghost use Rattle.xh_calls.specs.declared.call.Call.TheVariants.{Spawn};
ghost use Rattle.xh_kernel.specs.Calls.{Calls};
ghost use Rattle.xh_kernel.specs.Histories.{IsLaw};
ghost use Rattle.xh_kernel.specs.inner.Making.{AreFirstSeats, ArePens, AreUnseen, IsFirstSeat};
ghost use Rattle.xh_kernel.specs.Kept.{AreKept};
ghost use Rattle.xh_kernel.specs.Looks.{HasGlanced};
ghost use Rattle.xh_kernel.specs.Waits.{SpawnsAt};
ghost use Rattle.xh_model.specs.declared.limits.TheConstants.{MAX_ARENAS, PLACES};
ghost use Rattle.xh_model.specs.Words.{place_of};
ghost use Rattle.xh_records.specs.Seats.{IsSeatOf};

mod blocks;
mod bytes;
mod channels;
mod endings;
mod memory;
mod messages;

use crate::account::Account;
use crate::locked_place::LockedPlace;
use crate::looking::{Waits, bell_of};
use crate::overview::Awaited;
use crate::parts::{Look, Parts};
use crate::scribe::Scribe;
use crate::shared::Shared;
use crate::until::Until;
use crate::words::{Glances, unpack};
use crossbeam_utils::CachePadded;
use crossbeam_utils::atomic::LockedCell;
use std::alloc::{AllocError, Global};
use std::marker::PhantomData;
use std::sync::{Mutex, MutexGuard, Wait};
use xh_arena::Vault;
use xh_calls::{Arenas, Bundle, Entry, Heap, Names, Waiters};
use xh_core::{Glance, PLACE_LINES, Refused};
use xh_history::{Front, Histories, NobodyLooks, Pen};
use xh_model::limits::PLACES;
use xh_place::{Body, Gate, Place};
use xh_records::{Records, Seat};

/// An exchange heap for many threads: a lock for each place, each arena, each line and the free numbers of
/// channels. A call on a place takes the lock of the place, then one of the others, and never those of two
/// places; a glance takes none, an overview those of the arenas. No two locks share a cache line.
#[derive(Drop)]
pub struct Kernel<N: Names> {
    pub(crate) shared: Shared<N>,
    places: Vec<CachePadded<Mutex<LockedPlace<N>>>>,
    // of each place which process sleeps there, and what it awaits
    pub(crate) awaiting: [CachePadded<LockedCell<Option<(u16, Awaited)>>>; PLACE_LINES],
    ghost all: { vec_len places ≡ PLACES },
}

/// What a kernel was: the vaults by arena, the places by number, which hold all seats of the records, the pen of
/// each place's and each arena's history, the records and the histories.
#[derive(Drop)]
pub struct Settled {
    pub vaults: Vec<Vault>,
    pub places: Vec<Place>,
    pub pens: Vec<Pen<Entry>>,
    pub records: Records<Body>,
    pub histories: Histories<Entry, Glances>,
    pub vault_pens: Vec<Pen<Vault>>,
    pub vault_histories: Histories<Vault, NobodyLooks>,
}

// The lock of a place that nobody has yet, beside the pen of its history.
fn lock_place<N: Names>(
    alloc: Global,
    records: &Records<Body>,
    seat: Seat<Body>,
    pen: Pen<Entry>,
) -> Result<CachePadded<Mutex<LockedPlace<N>>>, Refused>
    requires records { records.now ≡ N.parts.records }
    requires seat { IsFirstSeat N.parts.records seat.process seat × (seat.process < PLACES) }
    requires history { pen ≡ fresh_pen N.parts.histories seat.process }
    ensures { IfErr result (λ e. e ≡ Refused.OutOfMemory) }
{
    let room = u16::from(records.arenas()) * records.per_arena();
    let place = Place::new(alloc, seat, room)?;
    Ok(CachePadded::new(Mutex::new(LockedPlace {
        scribe: Scribe::new(pen, &place),
        place,
        waits: Waits::default(),
        of: PhantomData,
    })))
}

// A lock for each place.
fn lock_places<N: Names>(
    alloc: Global,
    records: &Records<Body>,
    seats: Vec<Seat<Body>>,
    pens: Vec<Pen<Entry>>,
) -> Result<Vec<CachePadded<Mutex<LockedPlace<N>>>>, Refused>
    requires records { records.now ≡ N.parts.records }
    requires seats { AreFirstSeats N.parts.records seats.items }
    requires pens { ArePens N.parts.histories pens.items }
    ensures count { IfOk result (λ l. vec_len l ≡ PLACES) }
    ensures refused { IfErr result (λ e. e ≡ Refused.OutOfMemory) }
{
    let mut locks = Vec::with_capacity(alloc, seats.len())?;
    for (seat, pen) in seats.into_iter().zip(pens) {
        locks.push(lock_place(alloc, records, seat, pen)?)?;
    }
    Ok(locks)
}

// An account for each bundle.
fn name_accounts<N: Names>(
    alloc: Global,
    bundles: Vec<Bundle>,
    fronts: Vec<Front<Entry>>,
    seen: Vec<Front<Vault>>,
) -> Result<Vec<Account<N>>, Refused>
    requires bundles { AreBundles N.parts.records.shape.names bundles.items }
    requires workers { vec_len bundles ≡ N.parts.workers }
    requires fronts { (vec_len fronts ≡ vec_len bundles) × AreUnseen N.parts.histories fronts.items }
    requires seen { (vec_len seen ≡ vec_len bundles) × AreUnseen N.parts.vaults seen.items }
    ensures count { IfOk result (λ v. vec_len v ≡ vec_len bundles) }
    ensures fresh { IfOk result (λ v. AreFresh N.parts v.items) }
    ensures refused { IfErr result (λ e. e ≡ Refused.OutOfMemory) }
{
    let mut accounts = Vec::with_capacity(alloc, bundles.len())?;
    let mut left = fronts.into_iter();
    let mut unseen = seen.into_iter();
    for bundle in bundles {
        let (Some(front), Some(seen)) = (left.next(), unseen.next()) else {
            unreachable!()
        };
        accounts.push(Account::named(bundle, front, seen))?;
    }
    Ok(accounts)
}

// The places out of their locks, and the pens of their histories.
fn unlock_places<N: Names>(
    alloc: Global,
    locks: Vec<CachePadded<Mutex<LockedPlace<N>>>>,
) -> Result<(Vec<Place>, Vec<Pen<Entry>>), AllocError>
    ensures count { IfOk result (λ r. vec_len r.0 ≡ vec_len locks) }
    ensures named { IfOk result (λ r. All (λ p. IsSeatOf N.parts.records p.seat) r.0.items) }
    ensures kept { IfOk result (λ r. AreKept N.parts r.0.items r.1.items) }
{
    let mut places = Vec::with_capacity(alloc, locks.len())?;
    let mut pens = Vec::with_capacity(alloc, locks.len())?;
    for lock in locks {
        let (place, pen) = lock.into_inner().into_inner().into_parts();
        places.push(place)?;
        pens.push(pen)?;
    }
    Ok((places, pens))
}

impl<N: Names> Kernel<N> {
    /// A kernel in which no process runs, with an account and a look for each worker. OutOfMemory where a
    /// growth was refused.
    pub fn new(
        alloc: Global,
        parts: Parts,
    ) -> Result<(Kernel<N>, Vec<Account<N>>, Vec<Look>), Refused>
        requires names { parts ≡ N.parts }
        requires law { IsLaw N.parts N.leads }
        ensures accounts { IfOk result (λ r. (vec_len r.1 ≡ parts.workers) × AreFresh N.parts r.1.items) }
        ensures looks { IfOk result (λ r. (vec_len r.2 ≡ parts.workers) × All (λ l. l ≡ fresh_look N.parts.histories) r.2.items) }
        ensures refused { IfErr result (λ e. e ≡ Refused.OutOfMemory) }
    {
        let records = parts.records;
        let places = lock_places(alloc, &records, parts.seats, parts.pens)?;
        let accounts = name_accounts(alloc, parts.bundles, parts.fronts, parts.seen)?;
        let (histories, pens) = (parts.vault_histories, parts.vault_pens);
        let arenas = Arenas::new(alloc, parts.vaults, parts.config.bytes, histories, pens)?;
        let heap = Heap {
            records,
            channels: parts.channels,
            arenas,
            waiters: Waiters::new(),
            generations: parts.generations,
        };
        let histories = parts.histories;
        let kernel = Kernel {
            shared: Shared { heap, histories },
            places,
            awaiting: Default::default(),
        };
        Ok((kernel, accounts, parts.looks))
    }

    // What lies behind the lock of the process's place, which knows its number.
    #[inline(always)]
    pub(crate) fn held<R: Wait>(&self, rt: &R, p: u16) -> MutexGuard<'_, LockedPlace<N>>
        ensures { (mutex_guard_value result).scribe.pen.number ≡ place_of p }
    {
        let number = p % u16::from(PLACES);
        for _ in rt.forever() {
            let held = self.places[usize::from(number)].lock(rt);
            if u16::from(held.scribe.pen.number()) == number {
                return held;
            }
        }
        unreachable!()
    }

    /// A process runs from now on at the lowest place that was found without one: nobody has had the place,
    /// or its process has ended and the place may be used again (128 times, or 2,047, as its parts say). It answers
    /// the process's number, the place and 32 times the generation. NoPlace where none was found.
    pub fn spawn<R: Wait, G: Gate>(
        &self,
        rt: &R,
        account: &mut Account<N>,
        _gate: &G,
    ) -> Result<u16, Refused>
        ensures calls { SpawnsAt N.parts N.leads account.old account.new result }
        ensures none { IfErr result (λ e. e ≡ Refused.NoPlace) }
    {
        for number in 0..PLACES {
            if let Some(p) = self.spawn_at(rt, number, account) {
                return Ok(p);
            }
        }
        Err(Refused::NoPlace)
    }

    // The next process of the place runs, where one can start there: its number.
    fn spawn_at<R: Wait>(&self, rt: &R, number: u8, account: &mut Account<N>) -> Option<u16>
        requires { number < PLACES }
        ensures { Calls N.leads number (Spawn result) IsStill (λ old new. Spawns N.parts.generations old new result) account.old account.new }
    {
        let mut guard = self.held(rt, u16::from(number));
        let held: &mut LockedPlace<N> = &mut guard;
        let answer = self.shared.heap.spawn(&mut held.place);
        let about = &answer;
        held.scribe.note(&self.shared, &held.place, &mut account.front, about, false);
        answer
    }

    /// What a place was after the latest call that it tells of: its latest process, how far that had come, how
    /// many blocks it had and of how many bytes. It is not older than what the look had seen of the place; while
    /// another call is under way the place may have changed already. The look is one of this kernel's own.
    /// NoProcess for a place of 32 or more.
    pub fn glance(&self, place: u8, look: &mut Look) -> Result<Glance, Refused>
        requires { look.old.table ≡ N.parts.histories }
        ensures same { look.new.table ≡ look.old.table }
        ensures seen { IfOk result (λ g. (place < PLACES) × HasGlanced look.old place g look.new) }
        ensures refused { IfErr result (λ e. (e ≡ Refused.NoProcess) × (PLACES ≤ place) × (look.new ≡ look.old)) }
    {
        if place >= PLACES {
            return Err(Refused::NoProcess);
        }
        Ok(unpack(place, self.shared.histories.look(look, place)))
    }

    // Sleeps until what the process awaits may be there, or the time is past. Meanwhile it can be seen what that is, by the latest
    // of its threads that sleep.
    fn sleep<R: Wait, U: Until<R>>(&self, rt: &R, until: &U, p: u16, awaited: Awaited, seen: u64) {
        let (place, channels) = (bell_of(p), &self.shared.heap.channels);
        let (cell, told) = (&self.awaiting[usize::from(place)], Some((p, awaited)));
        cell.store(rt, told);
        match awaited {
            Awaited::Message(spot) => until.sleep(rt, channels, spot, seen),
            _ => until.sleep_at(rt, channels, place, seen),
        }
        let _if_still_told: Result<_, _> = cell.compare_exchange(rt, told, None);
    }

    /// Lets the kernel go where a run fails, with all that its locks keep. Its books stay unclosed.
    pub fn discard(self) {}

    /// Takes the kernel apart and changes nothing. What a worker has seen of a place or of an arena, or a look of a place, is a
    /// beginning of the history of its pen, as `compare` shows. OutOfMemory where a growth was refused.
    pub fn settle(self, alloc: Global) -> Result<Settled, Refused>
        ensures vaults { IfOk result (λ s. AreKeptVaults N.parts s.vaults.items s.vault_pens.items) }
        ensures few { IfOk result (λ s. vec_len s.vaults ≤ MAX_ARENAS) }
        ensures places { IfOk result (λ s. All (λ p. IsSeatOf s.records p.seat) s.places.items × (vec_len s.places ≡ s.records.shape.places)) }
        ensures kept { IfOk result (λ s. AreKept N.parts s.places.items s.pens.items) }
        ensures tables { IfOk result (λ s. (s.records ≡ N.parts.records) × (s.histories ≡ N.parts.histories) × (s.vault_histories ≡ N.parts.vaults)) }
        ensures refused { IfErr result (λ e. e ≡ Refused.OutOfMemory) }
    {
        let Shared { heap, histories } = self.shared;
        let (vaults, vault_pens, vault_histories) = heap.arenas.into_vaults(alloc)?;
        let (places, pens) = unlock_places(alloc, self.places)?;
        Ok(Settled {
            vaults,
            places,
            pens,
            records: heap.records,
            histories,
            vault_pens,
            vault_histories,
        })
    }
}
