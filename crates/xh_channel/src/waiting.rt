//! What is waited for, whom a channel wakes, and what its waiters sleep on. No step takes a lock.
ghost use Rattle.std.specs.Prelude.{◌≡◌, ◌<◌, length, IfOk};
ghost use Rattle.xh_model.specs.declared.limits.TheConstants.{PLACES};
ghost use Rattle.xh_channel.specs.inner.Waiting.{is_waited_for};

use crossbeam_utils::CachePadded;
use std::alloc::{AllocError, Global};
use std::hint;
use std::sync::atomic::AtomicU64;
use std::sync::atomic::Ordering::SeqCst;
use std::sync::{Arc, Wait};
use std::time::{Clock, Duration, Instant};
use xh_model::limits::PLACES;

/// How often a waiter looks at the turn before it sleeps.
const LOOKS: u16 = 400;

/// A turn, which rises, and a bell, which rises too and is odd where a thread sleeps or is about to.
///
/// A waiter makes the bell odd, then looks at the turn, and sleeps only while the bell is what it was
/// before that look. Whoever raises the turn looks at the bell afterwards, and where it is odd moves it
/// on and wakes all. So where the turn rises after a waiter's look, the bell moves on after it too:
/// the waiter doesn't fall asleep, or is woken. A sleep compares 32 bits of the bell, as those of the
/// system do: it would be slept through where, between a waiter's look and its sleep, others fell
/// asleep at this turn and were woken 2^31 times.
#[derive(Drop)]
pub struct WaitTurn {
    count: AtomicU64,
    bell: AtomicU64,
}

// Whether a call that saw the turn `seen` goes on waiting.
fn is_waited_for(turn: u64, seen: u64) -> bool
    ensures { result ≡ is_waited_for turn seen }
{
    turn == seen && seen != u64::MAX
}

// How long it is until then: nothing where the clock can't be read.
fn left<R: Clock>(rt: &R, deadline: Instant) -> Duration {
    match Instant::now(rt) {
        Ok(now) => deadline.saturating_duration_since(now),
        Err(_refused) => Duration::ZERO,
    }
}

impl WaitTurn {
    pub fn new() -> WaitTurn {
        WaitTurn {
            count: AtomicU64::new(0),
            bell: AtomicU64::new(0),
        }
    }

    /// How often it was raised. At 2^64 - 1 it stays.
    pub fn count(&self) -> u64 {
        self.count.load(SeqCst)
    }

    /// It rises by one, and all that wait look again. Where nobody sleeps, that is one step and a load.
    pub fn raise(&self) {
        if self.count.fetch_add(1, SeqCst) == u64::MAX {
            self.count.store(u64::MAX, SeqCst);
        }
        let heard = self.bell.load(SeqCst);
        if heard % 2 == 1 && self.moves_on(heard) {
            self.bell.wake_all();
        }
    }

    // The bell goes on from `heard`, unless another thread has moved it on already.
    fn moves_on(&self, heard: u64) -> bool {
        let next = heard.wrapping_add(1);
        let moved: Result<_, _> = self.bell.compare_exchange(heard, next, SeqCst, SeqCst);
        moved.is_ok()
    }

    // Looks at the turn for a while, as long as it is waited for.
    fn look(&self, seen: u64) {
        for _ in 0..LOOKS {
            if !is_waited_for(self.count(), seen) {
                break;
            }
            hint::spin_loop();
        }
    }

    // Makes the bell odd, or where it is, sleeps until it moves on or the time is past, unless the turn has risen. Whether it hasn't.
    fn sleep<R: Wait>(&self, rt: &R, seen: u64, longest: Option<Duration>) -> bool {
        let heard = self.bell.load(SeqCst);
        let waits = is_waited_for(self.count(), seen);
        if waits && heard % 2 == 0 {
            self.moves_on(heard);
        } else if waits {
            let low = (heard & 0xffff_ffff) as u32;
            match longest {
                Some(longest) => self.bell.park_timeout(rt, low, longest),
                None => self.bell.park(rt, low),
            }
        }
        waits
    }

    /// Returns where the turn isn't `seen`, and at once where it is 2^64 - 1.
    pub fn wait<R: Wait>(&self, rt: &R, seen: u64) {
        self.look(seen);
        for _ in rt.forever() {
            if !self.sleep(rt, seen, None) {
                break;
            }
        }
    }

    /// As `wait`, and returns once the time is past. A clock that can't be read ends the wait.
    pub fn wait_until<R: Wait + Clock>(&self, rt: &R, seen: u64, deadline: Instant) {
        self.look(seen);
        for _ in rt.forever() {
            let left = left(rt, deadline);
            if left.is_zero() || !self.sleep(rt, seen, Some(left)) {
                break;
            }
        }
    }
}

/// A bell for each place: who waits at several channels sleeps at its own. A bell is a turn that rises where it rings.
#[derive(Drop)]
pub struct Bells {
    all: Vec<CachePadded<WaitTurn>>,
    ghost each: { length all.items ≡ PLACES },
}

/// The bells of a heap's places, which each channel knows.
pub type OwnBells = Arc<Bells, Global>;

// The bell of each place.
fn hang(alloc: Global) -> Result<Vec<CachePadded<WaitTurn>>, AllocError>
    ensures { IfOk result (λ v. length v.items ≡ PLACES) }
{
    let mut all = Vec::with_capacity(alloc, PLACES as usize)?;
    for _ in 0..PLACES {
        all.push(CachePadded::new(WaitTurn::new()))?;
    }
    Ok(all)
}

impl Bells {
    pub fn new(alloc: Global) -> Result<OwnBells, AllocError> {
        let all = hang(alloc)?;
        Ok(Arc::new(alloc, Bells { all })?)
    }

    pub fn of(&self, place: u8) -> &WaitTurn
        requires { place < PLACES }
    {
        &self.all[place as usize]
    }
}

/// Where no place listens.
const NOBODY: u64 = PLACES as u64;

/// A channel's turn, at each side the place that listens there, and at each the place that waits there for room.
///
/// Whoever waits at several channels listens at each, then reads its place's bell, then looks at all, and
/// sleeps only while the bell is what it read. A put raises the turn, and then rings the bells of who
/// listens: it saw the waiter listen, and the bell moves on after it was read or the look comes after the
/// put; or it didn't, and the look comes after the put too.
///
/// Whoever waits for room reads its place's bell, then is noted at its side, then gives, and sleeps only while the bell is what
/// it read. A take pops, and then looks who is noted at the other side: so one that makes room after a give found none looks after
/// the place was noted. It finds the place, or another take did since, and the one that finds it rings: the bell moves on after it was read.
#[derive(Drop)]
pub struct Signal {
    pub turn: WaitTurn,
    listeners: [AtomicU64; 2],
    // each on cache lines of its own: a take looks at one, and else only who waits writes there
    senders: [CachePadded<AtomicU64>; 2],
    bells: OwnBells,
}

/// A channel's signal, which its ends know. It lies on cache lines of its own, for threads on channels side by side.
pub type OwnSignal = Arc<CachePadded<Signal>, Global>;

impl Signal {
    pub fn new(bells: OwnBells) -> Signal {
        Signal {
            turn: WaitTurn::new(),
            listeners: [AtomicU64::new(NOBODY), AtomicU64::new(NOBODY)],
            senders: [
                CachePadded::new(AtomicU64::new(NOBODY)),
                CachePadded::new(AtomicU64::new(NOBODY)),
            ],
            bells,
        }
    }

    /// The turn rises by one, and who waits at it or listens looks again. Where nobody does, that is one step and three loads.
    pub fn raise(&self) {
        self.turn.raise();
        for listener in &self.listeners {
            let place = listener.load(SeqCst);
            if place < NOBODY {
                self.bells.of(place as u8).raise();
            }
        }
    }

    /// The place listens at the side now, and no other.
    pub fn listen(&self, side: u8, place: u8)
        requires { (side < 2) × (place < PLACES) }
    {
        let listener = &self.listeners[side as usize];
        let place = u64::from(place);
        if listener.load(SeqCst) != place {
            listener.store(place, SeqCst);
        }
    }

    /// The place waits at the side for room, and no other.
    pub fn await_room(&self, side: u8, place: u8)
        requires { (side < 2) × (place < PLACES) }
    {
        self.senders[side as usize].store(u64::from(place), SeqCst);
    }

    /// Who waits at the side for room looks again, and waits no more. Where nobody does, that is one load.
    pub fn tell_room(&self, side: u8)
        requires { side < 2 }
    {
        let sender = &self.senders[side as usize];
        if sender.load(SeqCst) < NOBODY {
            let place = sender.swap(NOBODY, SeqCst);
            if place < NOBODY {
                self.bells.of(place as u8).raise();
            }
        }
    }

    /// Nobody listens or waits for room any more: for a number without ends.
    pub fn forget(&self) {
        for side in 0..2 {
            self.listeners[side].store(NOBODY, SeqCst);
            self.senders[side].store(NOBODY, SeqCst);
        }
    }

    /// The turn rises by one, and all look again that wait at it, listen, or wait for room.
    pub fn rouse(&self) {
        self.raise();
        self.tell_room(0);
        self.tell_room(1);
    }
}
