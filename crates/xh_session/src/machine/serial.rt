//! The serial machine's calls.
ghost use Rattle.std.specs.Prelude.{◌≡◌};
ghost use Rattle.xh_session.specs.Machines.{received};

use crate::machine::{Ends, Machine, Received, Told};
use arrayvec::ArrayVec;
use std::alloc::Global;
use xh_core::{Block, Contract, Glance};
use xh_serial::{Serial, Taken};

/// A message whose blocks are all there.
fn received(message: Taken) -> Received
    ensures { result ≡ received message }
{
    let mut blocks = ArrayVec::new();
    for block in message.blocks.as_slice() {
        blocks.push(Some(*block));
    }
    Received {
        number: message.no,
        tag: message.tag,
        blocks,
    }
}

impl Machine for Serial {
    ghost use Rattle.xh_serial.specs.Machine.{Machine as MachineOf};
    ghost use Rattle.xh_session.specs.Machines.{DoesCommand};

    ghost State = { MachineOf };

    ghost state = { λ m. m };

    ghost did = { DoesCommand };

    fn spawn(&mut self) -> Told<u16> {
        Serial::spawn(self)
    }

    fn open(&mut self, process: u16, arena: u32, contract: Option<&Contract>) -> Told<Ends> {
        match contract {
            Some(contract) => self.open_with(process, arena, contract.copy()),
            None => Serial::open(self, process, arena),
        }
    }

    fn wire(
        &mut self,
        process: u16,
        other: u16,
        arena: u32,
        contract: Option<&Contract>,
    ) -> Told<Ends> {
        match contract {
            Some(contract) => self.wire_with(process, other, arena, contract.copy()),
            None => Serial::wire(self, process, other, arena),
        }
    }

    fn alloc(&mut self, alloc: Global, process: u16, bytes: u32, arena: u32) -> Told<Block> {
        Serial::alloc(self, alloc, process, bytes, arena)
    }

    fn split(&mut self, alloc: Global, process: u16, block: u16, at: u32) -> Told<(Block, Block)> {
        Serial::split(self, alloc, process, block, at)
    }

    fn read(&mut self, process: u16, block: u16, at: u32, room: &mut [u8]) -> Told<()> {
        Serial::read(self, process, block, at, room)
    }

    fn write(&mut self, process: u16, block: u16, at: u32, bytes: &[u8]) -> Told<()> {
        Serial::write(self, process, block, at, bytes)
    }

    fn give(&mut self, process: u16, endpoint: u16, tag: u16, blocks: &[u16]) -> Told<u64> {
        Serial::give(self, process, endpoint, tag, blocks)
    }

    fn take(&mut self, process: u16, endpoint: u16, _waits: bool) -> Told<Received> {
        Serial::take(self, process, endpoint).map(received)
    }

    fn free(&mut self, process: u16, block: u16) -> Told<u32> {
        Serial::free(self, process, block)
    }

    fn close(&mut self, process: u16, endpoint: u16) -> Told<u64> {
        Serial::close(self, process, endpoint)
    }

    fn exit(&mut self, process: u16, budget: u32) -> Told<u64> {
        Serial::exit(self, process, budget)
    }

    fn kill(&mut self, process: u16, victim: u16, budget: u32) -> Told<u64> {
        Serial::kill(self, process, victim, budget)
    }

    fn glance(&mut self, place: u8) -> Told<Glance> {
        Serial::glance(self, place)
    }
}
