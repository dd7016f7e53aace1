//! The calls of a heap.
ghost use Rattle.std.specs.Prelude.{◌≡◌, length};
ghost use Rattle.std.specs.Option.{option_map};
ghost use Rattle.xh_session.specs.Questions.{Spawn, Open, Wire, Alloc, Split, Read, Write, Give, Take, Free, Close, Exit, Kill, Glance as Glancing, filled};

mod serial;

use arrayvec::ArrayVec;
use std::alloc::Global;
use xh_core::{Block, Contract, Glance, Refused};
use xh_model::limits::MAX_BLOCKS;

/// What a call tells, or why it was refused.
pub type Told<T> = Result<T, Refused>;

/// The two ends of a channel, side 0 the first.
pub type Ends = (Block, Block);

/// A message that was taken: its number in its direction, its tag, and its blocks in their order,
/// which are the taker's now. `None` stands for a block that another holds.
#[derive(Drop)]
pub struct Received {
    pub number: u64,
    pub tag: u16,
    pub blocks: ArrayVec<Option<Block>, MAX_BLOCKS>,
}

/// A heap, by a call for each command: of a process by its number, and of blocks by their records.
///
/// Each call is a question, and a machine says what it does at one: the serial machine has one caller, so it does the
/// question's command; a worker on a kernel has others beside it, so what it answers depends on them, and its `take` may
/// wait. A call that takes bytes of the host answers `OutOfMemory` where a growth was refused.
pub trait Machine: Drop {
    ghost use Rattle.xh_session.specs.Questions.{Question, AnswerTo};

    /// What is known of a machine.
    ghost State: { Type 0 };

    /// What is known of it now.
    ghost state: { Self → State };

    /// Whether a machine that was in a state may answer a question so, and be in this state then.
    ghost did: { State → (q : Question) → AnswerTo q → State → Type 0 };

    /// Starts a process at the lowest place that is free, and tells its number.
    fn spawn(&mut self) -> Told<u16>
        ensures { did (state self.old) Spawn result (state self.new) };

    /// Makes a channel, under a contract or none, whose ends are the process's; side 0 is the first.
    fn open(&mut self, process: u16, arena: u32, contract: Option<&Contract>) -> Told<Ends>
        ensures { did (state self.old) (Open process arena (option_map (λ c. c.now) contract.entry)) result (state self.new) };

    /// Makes a channel, under a contract or none: the process has side 0, and the other side 1.
    fn wire(
        &mut self,
        process: u16,
        other: u16,
        arena: u32,
        contract: Option<&Contract>,
    ) -> Told<Ends>
        ensures { did (state self.old) (Wire process other arena (option_map (λ c. c.now) contract.entry)) result (state self.new) };

    /// Gives the process a new block of the arena, of as many bytes rounded up to 16, all 0.
    fn alloc(&mut self, alloc: Global, process: u16, bytes: u32, arena: u32) -> Told<Block>
        ensures { did (state self.old) (Alloc process bytes arena) result (state self.new) };

    /// Cuts a block in two, the first of which has as many bytes as this, and keeps the record.
    fn split(&mut self, alloc: Global, process: u16, block: u16, at: u32) -> Told<(Block, Block)>
        ensures { did (state self.old) (Split process block at) result (state self.new) };

    /// Reads as many bytes as there is room.
    fn read(&mut self, process: u16, block: u16, at: u32, room: &mut [u8]) -> Told<()>
        ensures done { did (state self.old) (Read process block at (length room.old)) (filled room.new result) (state self.new) }
        ensures size { length room.new ≡ length room.old };

    /// Writes bytes into a block, from a place on.
    fn write(&mut self, process: u16, block: u16, at: u32, bytes: &[u8]) -> Told<()>
        ensures { did (state self.old) (Write process block at bytes.now) result (state self.new) };

    /// Sends blocks, and a tag, to the other end, and tells the number of the message.
    fn give(&mut self, process: u16, endpoint: u16, tag: u16, blocks: &[u16]) -> Told<u64>
        ensures { did (state self.old) (Give process endpoint tag blocks.now) result (state self.new) };

    /// Takes a message; `waits` says whether to wait for one where others can send it.
    fn take(&mut self, process: u16, endpoint: u16, waits: bool) -> Told<Received>
        ensures { did (state self.old) (Take process endpoint waits) result (state self.new) };

    /// Gives a block back, and tells its bytes.
    fn free(&mut self, process: u16, block: u16) -> Told<u32>
        ensures { did (state self.old) (Free process block) result (state self.new) };

    /// Closes an end, and tells the bytes that came back: its own, and of what was on its way to it.
    fn close(&mut self, process: u16, endpoint: u16) -> Told<u64>
        ensures { did (state self.old) (Close process endpoint) result (state self.new) };

    /// Ends the process, and tells the bytes that came back; the budget limits how many blocks one call reclaims.
    fn exit(&mut self, process: u16, budget: u32) -> Told<u64>
        ensures { did (state self.old) (Exit process budget) result (state self.new) };

    /// Ends another process so.
    fn kill(&mut self, process: u16, victim: u16, budget: u32) -> Told<u64>
        ensures { did (state self.old) (Kill process victim budget) result (state self.new) };

    /// What a place shows.
    fn glance(&mut self, place: u8) -> Told<Glance>
        ensures { did (state self.old) (Glancing place) result (state self.new) };
}
