//! A process of a kernel.
ghost use Rattle.std.specs.Prelude.{◌≡◌, IfOk, MatchResult, Ok};
ghost use Rattle.xh_kernel.specs.Waits.{SpawnsAt};

use crate::process::Process;
use crate::values::{
    Answered, AsEnd, Block, End, Load, Message, Returned, end_back, ends_at, given,
};
use std::alloc::Global;
use std::sync::{Mutex, Wait};
use std::time::{Clock, Duration, Instant};
use xh_core::{Contract, Refused};
use xh_kernel::{Account, Kernel, Names, Never, OpenGate, Overview, Spare, Started};
use xh_model::limits::MAX_BUDGET;

/// The longest that a call waits which waits for a time, in seconds.
const LONGEST: u64 = 1 << 62;

/// The accounts that no handle has.
pub(crate) type Spares<'k, N> = Mutex<Vec<Spare<'k, N>>>;

/// A process of a kernel, and an account that is its alone, by which it was started. There is room for it among the spares.
pub(crate) struct Handle<'a, 'k, N: Names, R: Wait> {
    rt: &'a R,
    alloc: Global,
    kernel: &'a Kernel<N>,
    spares: &'a Spares<'k, N>,
    account: &'k mut Account<N>,
    number: u16,
    started: Started<N>,
}

impl<'a, 'k, N: Names, R: Wait> Drop for Handle<'a, 'k, N, R> {
    fn drop(self) {
        let Handle {
            rt,
            alloc: _,
            kernel,
            spares,
            account,
            number: _,
            started,
        } = self;
        if let Ok(spare) = started.exit(rt, kernel, account) {
            let _ = spares.lock(rt).push(spare);
        }
    }
}

impl<'a, 'k, N: Names, R: Wait> Handle<'a, 'k, N, R> {
    /// A new process, by this spare, and by nothing that its account did before. NoPlace where there is no place for it.
    pub(crate) fn start(
        rt: &'a R,
        alloc: Global,
        kernel: &'a Kernel<N>,
        spares: &'a Spares<'k, N>,
        spare: Spare<'k, N>,
    ) -> Result<Handle<'a, 'k, N, R>, Refused>
        ensures started { MatchResult result (λ p. SpawnsAt N.parts N.leads spare.entry.account.now p.account.now (Ok p.number)) (λ why. why ≡ Refused.NoPlace) }
        ensures own { IfOk result (λ p. p.started.number ≡ p.number) }
    {
        match spare.start(rt, kernel) {
            Ok((started, account)) => Ok(Handle {
                rt,
                alloc,
                kernel,
                spares,
                account,
                number: started.number(),
                started,
            }),
            Err(spare) => {
                let _ = spares.lock(rt).push(spare);
                Err(Refused::NoPlace)
            }
        }
    }
}

// The time after so long; none where the clock can't be read.
fn deadline<R: Clock>(rt: &R, time: Duration) -> Option<Instant> {
    let now = Instant::now(rt).ok()?;
    now.checked_add(time.min(Duration::from_secs(LONGEST)))
}

impl<'a, 'k, N: Names, R: Wait + Clock> Process for Handle<'a, 'k, N, R> {
    ghost use Rattle.xh_heap.specs.Handles.{HandleOf};

    ghost parts = { N.parts };

    ghost leads = { N.leads };

    ghost handle = { λ p. record { number = p.number; account = p.account.now } };

    type Runtime = &'a R;

    fn rt(&self) -> &'a R {
        self.rt
    }

    fn number(&self) -> u16 {
        self.number
    }

    fn spawn(&self) -> Result<Self, Refused> {
        let Some(spare) = self.spares.lock(self.rt).pop() else {
            return Err(Refused::NoPlace);
        };
        Handle::start(self.rt, self.alloc, self.kernel, self.spares, spare)
    }

    fn alloc_in(&mut self, arena: u32, n: u32) -> Result<Block, Refused> {
        let (rt, alloc, p) = (self.rt, self.alloc, self.number);
        self.kernel
            .alloc(rt, alloc, p, n, arena, self.account, &OpenGate)
            .map(|named| Block::of(p, named))
    }

    fn alloc_wait(&mut self, arena: u32, n: u32) -> Result<Block, Refused> {
        let (rt, alloc, p) = (self.rt, self.alloc, self.number);
        self.kernel
            .alloc_until(rt, alloc, p, n, arena, &Never, self.account, &OpenGate)
            .map(|named| Block::of(p, named))
    }

    fn alloc_for(&mut self, arena: u32, n: u32, time: Duration) -> Result<Block, Refused> {
        let (rt, alloc, p) = (self.rt, self.alloc, self.number);
        let Some(deadline) = deadline(rt, time) else {
            return self.alloc_in(arena, n);
        };
        self.kernel
            .alloc_until(rt, alloc, p, n, arena, &deadline, self.account, &OpenGate)
            .map(|named| Block::of(p, named))
    }

    fn put_in(&mut self, arena: u32, bytes: &mut Vec<u8>) -> Result<Block, Refused> {
        let (rt, p) = (self.rt, self.number);
        self.kernel
            .put(rt, p, bytes, arena, self.account, &OpenGate)
            .map(|named| Block::of(p, named))
    }

    fn into_bytes(&mut self, block: Block) -> Result<Vec<u8>, Returned<Block>> {
        let (rt, p) = (self.rt, self.number);
        let rec = block.at(p);
        match self.kernel.into_bytes(rt, p, rec, self.account, &OpenGate) {
            Ok(bytes) => Ok(bytes),
            Err(why) => Err(Returned { why, value: block }),
        }
    }

    fn split(&mut self, block: &mut Block, k: u32) -> Result<Block, Refused> {
        let (rt, alloc, p) = (self.rt, self.alloc, self.number);
        let rec = block.at(p);
        match self
            .kernel
            .split(rt, alloc, p, rec, k, self.account, &OpenGate)
        {
            Ok((head, tail)) => {
                *block = Block::of(p, head);
                Ok(Block::of(p, tail))
            }
            Err(why) => Err(why),
        }
    }

    fn read(&mut self, block: &Block, at: u32, out: &mut [u8]) -> Result<(), Refused> {
        let (rt, p) = (self.rt, self.number);
        let rec = block.at(p);
        self.kernel
            .read(rt, p, rec, at, out, self.account, &OpenGate)
    }

    fn write(&mut self, block: &Block, at: u32, bytes: &[u8]) -> Result<(), Refused> {
        let (rt, p) = (self.rt, self.number);
        let rec = block.at(p);
        self.kernel
            .write(rt, p, rec, at, bytes, self.account, &OpenGate)
    }

    fn with_bytes<A, F: FnMut(&[u8]) -> A>(&mut self, block: &Block, f: F) -> Result<A, Refused> {
        let (rt, p, mut f) = (self.rt, self.number, f);
        let rec = block.at(p);
        self.kernel
            .with_bytes(rt, p, rec, &mut f, self.account, &OpenGate)
    }

    fn with_bytes_mut<A, F: FnMut(&mut [u8]) -> A>(
        &mut self,
        block: &Block,
        f: F,
    ) -> Result<A, Refused> {
        let (rt, p, mut f) = (self.rt, self.number, f);
        let rec = block.at(p);
        self.kernel
            .with_bytes_mut(rt, p, rec, &mut f, self.account, &OpenGate)
    }

    fn free(&mut self, block: Block) -> Result<u32, Returned<Block>> {
        let (rt, p) = (self.rt, self.number);
        match self
            .kernel
            .free(rt, p, block.at(p), self.account, &OpenGate)
        {
            Ok(bytes) => Ok(bytes),
            Err(why) => Err(Returned { why, value: block }),
        }
    }

    fn open(&mut self) -> Result<(End, End), Refused> {
        let (rt, p) = (self.rt, self.number);
        self.kernel
            .open(rt, p, 0, self.account, &OpenGate)
            .map(|(one, other)| (End::of(p, one), End::of(p, other)))
    }

    fn open_with(&mut self, contract: Contract) -> Result<(End, End), Refused> {
        let (rt, p) = (self.rt, self.number);
        self.kernel
            .open_with(rt, p, 0, contract, self.account, &OpenGate)
            .map(|(one, other)| (End::of(p, one), End::of(p, other)))
    }

    fn wire(&mut self, other: &Self) -> Result<(End, End), Refused> {
        let (rt, p, q) = (self.rt, self.number, other.number);
        self.kernel
            .wire(rt, p, q, 0, self.account, &OpenGate)
            .map(|(one, other)| (End::of(p, one), End::of(q, other)))
    }

    fn wire_with(&mut self, other: &Self, contract: Contract) -> Result<(End, End), Refused> {
        let (rt, p, q) = (self.rt, self.number, other.number);
        self.kernel
            .wire_with(rt, p, q, 0, contract, self.account, &OpenGate)
            .map(|(one, other)| (End::of(p, one), End::of(q, other)))
    }

    fn give<L: Load>(&mut self, end: &End, tag: u16, load: L) -> Result<u64, Returned<L::Back>> {
        let (rt, p) = (self.rt, self.number);
        let recs = load.recs(p);
        let blocks = recs.as_slice();
        let told = self
            .kernel
            .give(rt, p, end.at(p), tag, blocks, self.account, &OpenGate);
        given(p, load, told)
    }

    fn give_wait<L: Load>(
        &mut self,
        end: &End,
        tag: u16,
        load: L,
    ) -> Result<u64, Returned<L::Back>> {
        let (rt, p) = (self.rt, self.number);
        let recs = load.recs(p);
        let blocks = recs.as_slice();
        let told = self.kernel.give_until(
            rt,
            p,
            end.at(p),
            tag,
            blocks,
            &Never,
            self.account,
            &OpenGate,
        );
        given(p, load, told)
    }

    fn give_for<L: Load>(
        &mut self,
        end: &End,
        tag: u16,
        load: L,
        time: Duration,
    ) -> Result<u64, Returned<L::Back>> {
        let (rt, p) = (self.rt, self.number);
        let Some(deadline) = deadline(rt, time) else {
            return self.give(end, tag, load);
        };
        let recs = load.recs(p);
        let (e, blocks) = (end.at(p), recs.as_slice());
        let told = self
            .kernel
            .give_until(rt, p, e, tag, blocks, &deadline, self.account, &OpenGate);
        given(p, load, told)
    }

    fn take(&mut self, end: &End) -> Result<Message, Refused> {
        let (rt, p) = (self.rt, self.number);
        self.kernel
            .take(rt, p, end.at(p), self.account, &OpenGate)
            .map(|taken| Message::of(p, taken))
    }

    fn take_wait(&mut self, end: &End) -> Result<Message, Refused> {
        let (rt, p) = (self.rt, self.number);
        self.kernel
            .take_wait(rt, p, end.at(p), self.account, &OpenGate)
            .map(|taken| Message::of(p, taken))
    }

    fn take_for(&mut self, end: &End, time: Duration) -> Result<Message, Refused> {
        let (rt, p) = (self.rt, self.number);
        let Some(deadline) = deadline(rt, time) else {
            return self.take(end);
        };
        self.kernel
            .take_until(rt, p, end.at(p), &deadline, self.account, &OpenGate)
            .map(|taken| Message::of(p, taken))
    }

    fn take_any<E: AsEnd>(&mut self, ends: &[E]) -> Result<Answered, Refused> {
        let (rt, p) = (self.rt, self.number);
        let recs = ends_at(p, ends);
        let told = self
            .kernel
            .take_any(rt, p, recs.as_slice(), self.account, &OpenGate);
        Answered::of(p, told)
    }

    fn take_any_wait<E: AsEnd>(&mut self, ends: &[E]) -> Result<Answered, Refused> {
        let (rt, p) = (self.rt, self.number);
        let recs = ends_at(p, ends);
        let told = self
            .kernel
            .take_any_until(rt, p, recs.as_slice(), &Never, self.account, &OpenGate);
        Answered::of(p, told)
    }

    fn take_any_for<E: AsEnd>(&mut self, ends: &[E], time: Duration) -> Result<Answered, Refused> {
        let (rt, p) = (self.rt, self.number);
        let Some(deadline) = deadline(rt, time) else {
            return self.take_any(ends);
        };
        let recs = ends_at(p, ends);
        let looked = recs.as_slice();
        let told = self
            .kernel
            .take_any_until(rt, p, looked, &deadline, self.account, &OpenGate);
        Answered::of(p, told)
    }

    fn close(&mut self, end: End) -> Result<u64, Returned<Option<End>>> {
        let (rt, p) = (self.rt, self.number);
        match self.kernel.close(rt, p, end.at(p), self.account, &OpenGate) {
            Ok(bytes) => Ok(bytes),
            Err(why) => {
                let value = end_back(&why, end);
                Err(Returned { why, value })
            }
        }
    }

    fn exit(&mut self) -> Result<u64, Refused> {
        let (rt, p) = (self.rt, self.number);
        self.kernel.exit(rt, p, MAX_BUDGET, self.account, &OpenGate)
    }

    fn kill(&mut self, victim: u16) -> Result<u64, Refused> {
        let (rt, p) = (self.rt, self.number);
        self.kernel
            .kill(rt, p, victim, MAX_BUDGET, self.account, &OpenGate)
    }

    fn overview(&mut self) -> Overview {
        self.kernel.overview(self.rt, self.account)
    }
}
