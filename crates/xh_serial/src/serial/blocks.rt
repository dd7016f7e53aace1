//! Data blocks: they are made, cut, read, written and given back.
ghost use Rattle.std.specs.Prelude.{◌≡◌, ◌≢◌, ◌+◌, ◌*◌, ◌/◌, ◌%◌, ◌<◌, ◌≤◌, ◌==◌, Some, None, Ok, Err, IfErr, OnErr, OnOk, false, true, length};
ghost use Rattle.xh_serial.specs.Machine.{end_of};
ghost use Rattle.xh_model.specs.declared.limits.TheConstants.{MAX_BYTES};
ghost use Rattle.xh_model.specs.declared.event.Holder.TheVariants.{Process};
ghost use Rattle.xh_model.specs.Store.{holds, len};
ghost use Rattle.xh_serial.specs.BlockCommands.{alloc_heads, range_refusals, split_heads, alloc as alloc_command, free as free_command, read as read_command};
ghost use Rattle.xh_serial.specs.BlockCommands.{split as split_command, write as write_command};
ghost use Rattle.xh_core.specs.Space.{free_record, rounded};
ghost use Rattle.xh_serial.specs.Commands.{IsRunning};
ghost use Rattle.xh_core.specs.Refusing.{Tested};
ghost use Rattle.xh_serial.specs.inner.Checks.{MaySplit};

use crate::blocks::zeros;
use crate::serial::Serial;
use std::alloc::Global;
use xh_core::{Block, Refused};
use xh_model::limits::{MAX_RECORDS, UNIT};

/// The next multiple of 16.
fn round(n: u32) -> u32
    requires { n ≤ MAX_BYTES }
    ensures { result ≡ rounded n }
{
    (n + (UNIT - 1)) / UNIT * UNIT
}

impl Serial {
    /// Why an alloc is refused, or the record that it takes.
    fn check_alloc(&self, p: u16, n: u32, arena: u32) -> Result<u16, Refused>
        ensures { Tested (alloc_heads self.now p n arena) result (λ r. IsRunning self.now p × (free_record self.now.store arena ≡ Some r) × (0 < n) × (n ≤ MAX_BYTES)) }
    {
        self.check_start(p)?;
        if arena as usize >= self.plain.arenas() {
            return Err(Refused::NoArena);
        }
        if n == 0 || n > self.plain.size(arena) {
            return Err(Refused::BadSize);
        }
        match self.plain.free_record(arena) {
            Some(r) => Ok(r),
            None => Err(Refused::NoRecord),
        }
    }

    /// A data block of `n` bytes, rounded up to a multiple of 16, all zeros, from the lowest place of
    /// the arena that has room. NoProcess, Ended, NoArena, BadSize where `n` is 0 or more than the
    /// arena has, NoRecord, OutOfMemory, NoSpace and Worn, in this order; each leaves all as it was.
    pub fn alloc(&mut self, alloc: Global, p: u16, n: u32, arena: u32) -> Result<Block, Refused>
        ensures done { result ≢ Err Refused.OutOfMemory → alloc_command false p n arena self.old ≡ (result, self.new) }
        ensures refused { result ≡ Err Refused.OutOfMemory → alloc_command true p n arena self.old ≡ (result, self.new) }
    {
        let r = self.check_alloc(p, n, arena)?;
        let len = round(n);
        let bytes = zeros(alloc, len)?;
        if let Err(refused) = self.plain.allocate(p, r, len) {
            return Err(refused);
        }
        self.blocks.fill(r, bytes);
        self.places.add(p, r);
        Ok(Block { rec: r, len })
    }

    /// A data block is given back: the bytes that it had. NoProcess, Ended, NotOwned, NotData.
    #[tactic(auto, unfolding(crate::specs::BlockCommands::free))]
    pub fn free(&mut self, p: u16, r: u16) -> Result<u32, Refused>
        ensures { free_command p r self.old ≡ (result, self.new) }
    {
        self.check_free(p, r)?;
        let len = self.plain.discard(p, r);
        self.blocks.bind(r, None);
        self.places.remove(p, r);
        Ok(len)
    }

    /// Why a split is refused, or the record that it takes.
    fn check_split(&self, p: u16, r: u16, k: u32) -> Result<u16, Refused>
        ensures { Tested (split_heads self.now p r k) result (MaySplit self.now p r k) }
    {
        self.check_start(p)?;
        self.check_data(p, r)?;
        if k == 0 || k % UNIT != 0 || k >= self.plain.len(r) {
            return Err(Refused::BadCut);
        }
        match self.plain.free_record(u32::from(r / MAX_RECORDS)) {
            Some(t) => Ok(t),
            None => Err(Refused::NoRecord),
        }
    }

    /// A block is cut after its first `k` bytes, a multiple of 16: the head, which keeps its record,
    /// and the tail. NoProcess, Ended, NotOwned, NotData, BadCut where `k` is 0, no multiple of 16 or
    /// not less than the block has, NoRecord and OutOfMemory, in this order; each leaves all as it was.
    pub fn split(
        &mut self,
        alloc: Global,
        p: u16,
        r: u16,
        k: u32,
    ) -> Result<(Block, Block), Refused>
        ensures done { result ≢ Err Refused.OutOfMemory → split_command false p r k self.old ≡ (result, self.new) }
        ensures refused { result ≡ Err Refused.OutOfMemory → split_command true p r k self.old ≡ (result, self.new) }
    {
        let t = self.check_split(p, r, k)?;
        self.blocks.split(alloc, r, t, k as usize)?;
        let rest = self.plain.len(r) - k;
        self.plain.part(p, r, t, k);
        self.places.add(p, t);
        Ok((Block { rec: r, len: k }, Block { rec: t, len: rest }))
    }

    /// Why bytes of a block cannot be reached.
    fn check_range(&self, p: u16, r: u16, at: u32, count: usize) -> Result<(), Refused>
        ensures { Tested (range_refusals self.now p r at count) result (λ _. (holds self.now.store (Process p) r ≡ true) × (end_of self.now r ≡ None) × (at + count ≤ len self.now.store r)) }
    {
        self.check_start(p)?;
        self.check_data(p, r)?;
        let len = self.plain.len(r) as usize;
        if count > len || at as usize > len - count {
            return Err(Refused::BadRange);
        }
        Ok(())
    }

    /// The bytes of a block from `at` on, as many as `out` has room for. NoProcess, Ended, NotOwned,
    /// NotData, and BadRange where they reach past its end; with these `out` stays as it was.
    #[tactic(auto, unfolding(crate::specs::BlockCommands::read))]
    pub fn read(&self, p: u16, r: u16, at: u32, out: &mut [u8]) -> Result<(), Refused>
        ensures done { OnOk result (read_command p r at (length out.old) self.now ≡ (Ok out.new, self.now)) }
        ensures refused { IfErr result (λ refused. read_command p r at (length out.old) self.now ≡ (Err refused, self.now)) }
        ensures kept { OnErr result (out.new ≡ out.old) }
    {
        self.check_range(p, r, at, out.len())?;
        self.blocks.copy(r, at as usize, out);
        Ok(())
    }

    /// These bytes come in the place of as many of a block from `at` on. NoProcess, Ended, NotOwned,
    /// NotData, and BadRange where they reach past its end.
    #[tactic(auto, unfolding(crate::specs::BlockCommands::write))]
    pub fn write(&mut self, p: u16, r: u16, at: u32, bytes: &[u8]) -> Result<(), Refused>
        ensures { write_command p r at bytes.now self.old ≡ (result, self.new) }
    {
        self.check_range(p, r, at, bytes.len())?;
        self.blocks.overwrite(r, at as usize, bytes);
        Ok(())
    }
}
