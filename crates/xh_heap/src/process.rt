//! A process of the heap, by its handle.
ghost use Rattle.std.specs.Prelude.{◌≡◌, ◌≢◌, ◌<◌, [], IfErr, IfOk, MatchResult, None, Ok, OnErr, Some, length};
ghost use Rattle.std.specs.Result.{result_map_both};
ghost use Rattle.xh_calls.specs.Leading.{Leading};
ghost use Rattle.xh_calls.specs.Parts.{PartsOf};
ghost use Rattle.xh_core.specs.declared.Refused.TheVariants.{Empty, NoPlace, NoRecord, NoSpace};
ghost use Rattle.xh_heap.specs.ByBytes.{GivesByBytes, TakesByBytes};
ghost use Rattle.xh_heap.specs.Handles.{Acts, ActsBy, Awaits, HandleOf};
ghost use Rattle.xh_heap.specs.Plans.{IsStarted};
ghost use Rattle.xh_heap.specs.Teams.{OpensOwn, WiresTo};
ghost use Rattle.xh_heap.specs.Values.{Answers, Cuts, answered_of, block_of, end_at, end_back, ends_at, gift, message_of, plain, rec_at};
ghost use Rattle.xh_kernel.specs.Did.{DidAlloc, DidClose, DidFree, DidGive, DidIntoBytes, DidPut, DidRead, DidSplit, DidTake, DidTakeAny, DidWrite};
ghost use Rattle.xh_kernel.specs.Endings.{Exits, Kills};
ghost use Rattle.xh_kernel.specs.Lends.{LendsAll, LendsAllMut};
ghost use Rattle.xh_kernel.specs.Looks.{SeesAll};
ghost use Rattle.xh_kernel.specs.Waits.{AtLast, AtLastOf, IsNoMemory, no_room};
ghost use Rattle.xh_model.specs.declared.limits.TheConstants.{MAX_BUDGET};

use crate::by_bytes::{Came, regain, unpack};
use crate::values::{Answered, AsEnd, Block, End, Load, Message, Returned};
use std::sync::Wait;
use std::time::{Clock, Duration};
use xh_core::{Contract, Refused};
use xh_kernel::Overview;

/// The handle of a process. There is one: whoever has it does the calls of the process, and nobody else can. When it is
/// dropped the process ends, where it didn't before; whoever waits for a message of it is told PeerClosed then.
///
/// Blocks and ends are values, which the process that has them alone can name; at the handle of another they are NotOwned, also
/// once their process has ended. Each call but `spawn` and `overview` is refused Ended once the process is ending or has ended
/// (`exit` once it has ended), and the first refusal that applies, in the order told at the call. A refusal leaves everything as it
/// was, and hands back a block or an end that the call took, but where the call says otherwise.
pub trait Process: Drop {
    /// The kernel's parts, and to which places its histories lead.
    ghost parts: { PartsOf };

    ghost leads: { Leading };

    /// Its number, and its account.
    ghost handle: { Self → HandleOf };

    /// The runtime by which it waits.
    type Runtime: Wait + Clock + Copy;

    /// The runtime, for a loop without an end: `for _ in own.rt().forever()`.
    fn rt(&self) -> Self::Runtime;

    /// Its number, 0 to 65,503: its place, and 32 for each process that had the place before.
    fn number(&self) -> u16
        ensures { result ≡ (handle self.now).number };

    /// A new process, by a handle of its own. NoPlace where 33 handles are there, or each of the 32 places has a process that runs
    /// or is ending, or had its 2,047; nothing else refuses.
    fn spawn(&self) -> Result<Self, Refused>
        ensures { MatchResult result (λ p. IsStarted parts leads (handle p).number (handle p).account) (λ why. why ≡ NoPlace) };

    /// A block of `n` bytes of arena 0, as `alloc_in`.
    fn alloc(&mut self, n: u32) -> Result<Block, Refused>
        ensures { Acts (λ p. Answers (DidAlloc parts leads p n 0) (block_of p) result) (handle self.old) (handle self.new) }
    {
        self.alloc_in(0, n)
    }

    /// A new block of `n` bytes of an arena, counted from 0, rounded up to a multiple of 16, all of them zero.
    ///
    /// NoArena; BadSize where `n` is 0 or more than an arena has; NoRecord where each record of the arena is taken; OutOfMemory
    /// where a growth was refused; NoSpace where no hole holds so many; Worn where these bytes would pass what the arena may ever
    /// hand out.
    fn alloc_in(&mut self, arena: u32, n: u32) -> Result<Block, Refused>
        ensures { Acts (λ p. Answers (DidAlloc parts leads p n arena) (block_of p) result) (handle self.old) (handle self.new) };

    /// As `alloc_in`; where the arena has no record or no space, it waits, without a lock, until a record of it is free again, and
    /// asks again. That memory comes isn't promised.
    fn alloc_wait(&mut self, arena: u32, n: u32) -> Result<Block, Refused>
        ensures call { Acts (λ p. Answers (AtLastOf (DidAlloc parts leads p n arena) IsNoMemory) (block_of p) result) (handle self.old) (handle self.new) }
        ensures waits { IfErr result (λ why. (why ≢ NoRecord) × (why ≢ NoSpace)) };

    /// As `alloc_wait`; after so long it is refused NoRecord or NoSpace. Where the clock can't be read it waits no longer.
    fn alloc_for(&mut self, arena: u32, n: u32, time: Duration) -> Result<Block, Refused>
        ensures { Acts (λ p. Answers (AtLastOf (DidAlloc parts leads p n arena) IsNoMemory) (block_of p) result) (handle self.old) (handle self.new) };

    /// A block of these bytes of arena 0, as `put_in`.
    fn put(&mut self, bytes: &mut Vec<u8>) -> Result<Block, Refused>
        ensures call { Acts (λ p. Answers (DidPut parts leads p bytes.old.items 0) (block_of p) result) (handle self.old) (handle self.new) }
        ensures bytes { MatchResult result (λ _. bytes.new.items ≡ []) (λ _. bytes.new.items ≡ bytes.old.items) }
    {
        self.put_in(0, bytes)
    }

    /// A new block of these bytes of an arena, followed by zeros up to a multiple of 16. The buffer itself is the block's, and an
    /// empty one is left: no byte is copied where it has room for the zeros, and is at most an eighth larger. Refused, its bytes are
    /// as they were; its capacity may not be.
    ///
    /// NoArena; BadSize of no bytes or more than an arena has; NoRecord; OutOfMemory where a growth was refused, or the buffer
    /// stays too large; NoSpace; Worn.
    fn put_in(&mut self, arena: u32, bytes: &mut Vec<u8>) -> Result<Block, Refused>
        ensures call { Acts (λ p. Answers (DidPut parts leads p bytes.old.items arena) (block_of p) result) (handle self.old) (handle self.new) }
        ensures bytes { MatchResult result (λ _. bytes.new.items ≡ []) (λ _. bytes.new.items ≡ bytes.old.items) };

    /// A block goes, as by `free`; its buffer is the answer, with all its bytes, the zeros after those that were put too. NotOwned;
    /// NotData.
    fn into_bytes(&mut self, block: Block) -> Result<Vec<u8>, Returned<Block>>
        ensures call { ActsBy (rec_at block) (λ p r. DidIntoBytes leads p r (result_map_both (λ v. v.items) (λ e. e.why) result)) (handle self.old) (handle self.new) }
        ensures returned { IfErr result (λ e. e.value ≡ block) };

    /// Cuts a block after its first `k` bytes, which it keeps. It answers the tail.
    ///
    /// NotOwned; NotData of an endpoint; BadCut where `k` is 0, no multiple of 16, or not less than the block has; NoRecord;
    /// OutOfMemory.
    fn split(&mut self, block: &mut Block, k: u32) -> Result<Block, Refused>
        ensures { ActsBy (rec_at block.old) (λ p r. Cuts p (DidSplit leads p r k) block.old block.new result) (handle self.old) (handle self.new) };

    /// The bytes of a block from `at` on, as many as `out` has.
    ///
    /// NotOwned; NotData; BadRange where they reach past its end. `out` stays as it was then.
    fn read(&mut self, block: &Block, at: u32, out: &mut [u8]) -> Result<(), Refused>
        ensures call { ActsBy (rec_at block.now) (λ p r. DidRead leads p r at out.new result) (handle self.old) (handle self.new) }
        ensures refused { OnErr result (out.new ≡ out.old) };

    /// These bytes stand in a block from `at` on, in place of as many.
    ///
    /// NotOwned; NotData; BadRange where they reach past its end.
    fn write(&mut self, block: &Block, at: u32, bytes: &[u8]) -> Result<(), Refused>
        ensures { ActsBy (rec_at block.now) (λ p r. DidWrite leads p r at bytes.now result) (handle self.old) (handle self.new) };

    /// One call of `f` at a block's bytes, all of them, where they lie: what `f` answers. It is called under the lock of the
    /// process's place, so it must not call the heap.
    ///
    /// NotOwned; NotData. `f` isn't called then.
    fn with_bytes<A, F: FnMut(&[u8]) -> A>(&mut self, block: &Block, f: F) -> Result<A, Refused>
        requires { F.IsAlwaysCallable f }
        ensures { ActsBy (rec_at block.now) (λ p r old new. (after : F) × LendsAll leads F.FnMut p r f after old new result) (handle self.old) (handle self.new) };

    /// As `with_bytes`; `f` may change the bytes.
    fn with_bytes_mut<A, F: FnMut(&mut [u8]) -> A>(
        &mut self,
        block: &Block,
        f: F,
    ) -> Result<A, Refused>
        requires { F.IsAlwaysCallable f }
        ensures { ActsBy (rec_at block.now) (λ p r old new. (after : F) × LendsAllMut leads F.FnMut p r f after old new result) (handle self.old) (handle self.new) };

    /// A block's bytes go back, and its record is free. It answers how many bytes. NotOwned; NotData.
    fn free(&mut self, block: Block) -> Result<u32, Returned<Block>>
        ensures call { ActsBy (rec_at block) (λ p r. DidFree leads p r (plain result)) (handle self.old) (handle self.new) }
        ensures returned { IfErr result (λ e. e.value ≡ block) };

    /// Both ends of a new channel: side 0 and side 1, each a block of 32 bytes of arena 0.
    ///
    /// NoChannel where ends of 64 channels are there; OutOfMemory where a growth was refused; NoRecord; NoSpace; Worn.
    fn open(&mut self) -> Result<(End, End), Refused>
        ensures { OpensOwn parts leads None (handle self.old) (handle self.new) result };

    /// As `open`; the channel goes by the contract.
    fn open_with(&mut self, contract: Contract) -> Result<(End, End), Refused>
        ensures { OpensOwn parts leads (Some contract) (handle self.old) (handle self.new) result };

    /// A channel to another process: side 0 is this one's, side 1 the other's.
    ///
    /// Ended of the other; then as `open`. Where the other ends before side 1 reaches it, both sides are reclaimed again.
    fn wire(&mut self, other: &Self) -> Result<(End, End), Refused>
        ensures { WiresTo parts leads None (handle other.now) (handle self.old) (handle self.new) result };

    /// As `wire`; the channel goes by the contract.
    fn wire_with(&mut self, other: &Self, contract: Contract) -> Result<(End, End), Refused>
        ensures { WiresTo parts leads (Some contract) (handle other.now) (handle self.old) (handle self.new) result };

    /// Gives a block, an end or items by an end, in a message with a tag: they are the receiver's to take. It answers the message's
    /// number in its direction, counted from 1.
    ///
    /// NotOwned and NotEndpoint of the end; NotOwned of an item, as of a missing one; Twice where an item is the end; Protocol
    /// where the contract doesn't allow the message, PeerClosed, and Full where as many wait as may: these three hand back what
    /// came back, and name its records.
    fn give<L: Load>(&mut self, end: &End, tag: u16, load: L) -> Result<u64, Returned<L::Back>>
        ensures call { ActsBy (gift end.now (L.items load)) (λ p g. DidGive leads p g.0 tag g.1 (plain result)) (handle self.old) (handle self.new) }
        ensures returned { let p = (handle self.old).number in IfErr result (λ e. e.value ≡ L.back p e.why load) };

    /// As `give`; where as many messages wait as may, it waits until the peer takes, without a lock, and gives again. It is refused
    /// Full only with less than was given. In a direction that has carried its last message, 2^62 - 1, it waits on.
    fn give_wait<L: Load>(&mut self, end: &End, tag: u16, load: L) -> Result<u64, Returned<L::Back>>
        ensures call { ActsBy (gift end.now (L.items load)) (λ p g. AtLast (DidGive leads p g.0 tag g.1) (no_room g.1) (plain result)) (handle self.old) (handle self.new) }
        ensures waits { let g = gift end.now (L.items load) (handle self.old).number in plain result ≢ no_room g.1 }
        ensures returned { let p = (handle self.old).number in IfErr result (λ e. e.value ≡ L.back p e.why load) };

    /// As `give_wait`; after so long it is refused Full. Where the clock can't be read it waits no longer.
    fn give_for<L: Load>(
        &mut self,
        end: &End,
        tag: u16,
        load: L,
        time: Duration,
    ) -> Result<u64, Returned<L::Back>>
        ensures call { ActsBy (gift end.now (L.items load)) (λ p g. AtLast (DidGive leads p g.0 tag g.1) (no_room g.1) (plain result)) (handle self.old) (handle self.new) }
        ensures returned { let p = (handle self.old).number in IfErr result (λ e. e.value ≡ L.back p e.why load) };

    /// Takes the message that waits longest at an end. Its items are this process's.
    ///
    /// NotOwned; NotEndpoint; where no message waits, PeerClosed where the peer is closed, and else Empty.
    fn take(&mut self, end: &End) -> Result<Message, Refused>
        ensures { ActsBy (end_at end.now) (λ p e. Answers (DidTake leads p e) (message_of p) result) (handle self.old) (handle self.new) };

    /// As `take`; where no message waits and the peer is open, it waits, without a lock.
    fn take_wait(&mut self, end: &End) -> Result<Message, Refused>
        ensures call { ActsBy (end_at end.now) (λ p e. Answers (Awaits (DidTake leads p e)) (message_of p) result) (handle self.old) (handle self.new) }
        ensures waits { IfErr result (λ why. why ≢ Empty) };

    /// As `take_wait`; after so long it is refused Empty. Where the clock can't be read it waits no longer.
    fn take_for(&mut self, end: &End, time: Duration) -> Result<Message, Refused>
        ensures { ActsBy (end_at end.now) (λ p e. Answers (Awaits (DidTake leads p e)) (message_of p) result) (handle self.old) (handle self.new) };

    /// Looks at up to 64 ends in their order, and takes at the first that has a message: its index, and what `take` answers there.
    /// Where none has one, PeerClosed at the first whose peer is closed. Of more than 64 it names 65.
    ///
    /// TooMany; NotOwned and NotEndpoint of the first that is; Twice; Empty where no message waits and no peer is closed.
    fn take_any<E: AsEnd>(&mut self, ends: &[E]) -> Result<Answered, Refused>
        ensures call { ActsBy (ends_at E.shows ends.now) (λ p e. Answers (DidTakeAny leads p e) (answered_of p) result) (handle self.old) (handle self.new) }
        ensures at { IfOk result (λ a. a.at < length ends.now) };

    /// As `take_any`; where no message waits and no peer is closed, it waits, without a lock. It is refused Empty of no ends alone.
    fn take_any_wait<E: AsEnd>(&mut self, ends: &[E]) -> Result<Answered, Refused>
        ensures call { ActsBy (ends_at E.shows ends.now) (λ p e. Answers (Awaits (DidTakeAny leads p e)) (answered_of p) result) (handle self.old) (handle self.new) }
        ensures waits { IfErr result (λ why. why ≡ Empty → ends.now ≡ []) }
        ensures at { IfOk result (λ a. a.at < length ends.now) };

    /// As `take_any_wait`; after so long it is refused Empty. Where the clock can't be read it waits no longer.
    fn take_any_for<E: AsEnd>(&mut self, ends: &[E], time: Duration) -> Result<Answered, Refused>
        ensures call { ActsBy (ends_at E.shows ends.now) (λ p e. Answers (Awaits (DidTakeAny leads p e)) (answered_of p) result) (handle self.old) (handle self.new) }
        ensures at { IfOk result (λ a. a.at < length ends.now) };

    /// Closes an end: it goes, and what was on its way to it. The peer may still take what was given by it. It answers the bytes
    /// reclaimed.
    ///
    /// NotOwned; NotEndpoint; Unfinished where blocks that came with it are left: so many, which no value names; they are
    /// reclaimed when the process ends. The end is gone then too, and not handed back.
    fn close(&mut self, end: End) -> Result<u64, Returned<Option<End>>>
        ensures call { ActsBy (end_at end) (λ p e. DidClose leads p e (plain result)) (handle self.old) (handle self.new) }
        ensures returned { IfErr result (λ e. e.value ≡ end_back e.why end) };

    /// The process ends: its blocks are reclaimed, and what was on its way to its endpoints. What it gave stays on its way. It
    /// answers the bytes reclaimed.
    fn exit(&mut self) -> Result<u64, Refused>
        ensures { Acts (λ p old new. Exits leads p MAX_BUDGET old new result) (handle self.old) (handle self.new) };

    /// Ends another process, by its number, as `exit` does: whoever has its handle is refused Ended from then on. NoProcess and
    /// Ended of the other.
    fn kill(&mut self, victim: u16) -> Result<u64, Refused>
        ensures { Acts (λ p old new. Kills leads p victim MAX_BUDGET old new result) (handle self.old) (handle self.new) };

    /// All arenas, each as it was at a moment of the call; all places, each as a call had left it by then, of which another may be
    /// under way; and what each process waits for. It is never refused, also where the process has ended, and takes the lock of no
    /// process.
    fn overview(&mut self) -> Overview
        ensures { Acts (λ _ old new. SeesAll parts old new result) (handle self.old) (handle self.new) };

    /// A message of bytes, of arena 0, as `give_bytes_in_wait`.
    final fn give_bytes_wait(
        &mut self,
        end: &End,
        tag: u16,
        bytes: &mut Vec<u8>,
    ) -> Result<u64, Refused>
        ensures { GivesByBytes parts leads end.now tag 0 bytes.old.items bytes.new.items (λ told given. told ≢ no_room given) result (handle self.old) (handle self.new) }
    {
        self.give_bytes_in_wait(0, end, tag, bytes)
    }

    /// A message of one block of these bytes of an arena: as `put_in`, and then as `give_wait`. It waits for room alone.
    ///
    /// What `put_in` is refused, before the end is tested: the bytes are as they were. What `give_wait` is: they are what an
    /// `into_bytes` of the block that came back answered, with its zeros; none where none came back, or that was refused.
    final fn give_bytes_in_wait(
        &mut self,
        arena: u32,
        end: &End,
        tag: u16,
        bytes: &mut Vec<u8>,
    ) -> Result<u64, Refused>
        ensures { GivesByBytes parts leads end.now tag arena bytes.old.items bytes.new.items (λ told given. told ≢ no_room given) result (handle self.old) (handle self.new) }
    {
        let block = self.put_in(arena, bytes)?;
        let told = self.give_wait(end, tag, block);
        regain(self, told, bytes)
    }

    /// As `give_bytes_wait`; after so long it is refused Full. Where the clock can't be read it waits no longer.
    final fn give_bytes_for(
        &mut self,
        end: &End,
        tag: u16,
        bytes: &mut Vec<u8>,
        time: Duration,
    ) -> Result<u64, Refused>
        ensures { GivesByBytes parts leads end.now tag 0 bytes.old.items bytes.new.items (λ _ _. Unit {0}) result (handle self.old) (handle self.new) }
    {
        self.give_bytes_in_for(0, end, tag, bytes, time)
    }

    /// As `give_bytes_in_wait`; after so long it is refused Full. Where the clock can't be read it waits no longer.
    final fn give_bytes_in_for(
        &mut self,
        arena: u32,
        end: &End,
        tag: u16,
        bytes: &mut Vec<u8>,
        time: Duration,
    ) -> Result<u64, Refused>
        ensures { GivesByBytes parts leads end.now tag arena bytes.old.items bytes.new.items (λ _ _. Unit {0}) result (handle self.old) (handle self.new) }
    {
        let block = self.put_in(arena, bytes)?;
        let told = self.give_for(end, tag, block, time);
        regain(self, told, bytes)
    }

    /// As `take_wait`; of a message of one data block alone it answers the bytes, as `into_bytes` where that isn't refused.
    final fn take_bytes_wait(&mut self, end: &End) -> Result<Came, Refused>
        ensures call { TakesByBytes leads end.now result (handle self.old) (handle self.new) }
        ensures waits { IfErr result (λ why. why ≢ Empty) }
    {
        let message = self.take_wait(end)?;
        Ok(unpack(self, message))
    }

    /// As `take_bytes_wait`; after so long it is refused Empty. Where the clock can't be read it waits no longer.
    final fn take_bytes_for(&mut self, end: &End, time: Duration) -> Result<Came, Refused>
        ensures { TakesByBytes leads end.now result (handle self.old) (handle self.new) }
    {
        let message = self.take_for(end, time)?;
        Ok(unpack(self, message))
    }
}
