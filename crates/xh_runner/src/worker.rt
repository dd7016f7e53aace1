//! A worker's calls on a kernel.
ghost use Rattle.std.specs.Prelude.{◌≡◌, ◌≤◌, All, IfOk, length, map, vec_len};
ghost use Rattle.xh_model.specs.declared.limits.TheConstants.{MAX_BLOCKS};
ghost use Rattle.xh_runner.specs.Workers.{gotten, gotten_answer, gotten_message};

use arrayvec::ArrayVec;
use std::alloc::{AllocError, Global};
use std::sync::Wait;
use xh_core::{Block, Contract, Glance, Refused};
use xh_kernel::{Account, Kernel, Look, Names};
use xh_model::limits::{MAX_BLOCKS, MAX_BUDGET};
use xh_place::{Gate, Got, Taken};
use xh_session::{Machine, Received, Told};

/// A worker on a kernel that others work on too: what its calls take besides, an account and a look of its
/// own among it.
#[derive(Drop)]
pub struct Worker<'a, N: Names, R, G> {
    pub rt: &'a R,
    pub kernel: &'a Kernel<N>,
    pub gate: &'a G,
    pub account: Account<N>,
    pub look: Look,
    ghost own: { look.table ≡ N.parts.histories },
}

fn block_of(got: &Got) -> Option<Block>
    ensures { result ≡ gotten got.now }
{
    match got {
        Got::Here(block, _) => Some(*block),
        Got::Missing { .. } => None,
    }
}

fn blocks_of(blocks: &[Got]) -> ArrayVec<Option<Block>, MAX_BLOCKS>
    requires { length blocks.now ≤ MAX_BLOCKS }
    ensures { result.items ≡ map gotten blocks.now }
{
    let mut all = ArrayVec::new();
    for block in blocks {
        all.push(block_of(block));
    }
    all
}

fn received(message: Taken) -> Received
    ensures { result ≡ gotten_message message }
{
    Received {
        number: message.no,
        tag: message.tag,
        blocks: blocks_of(message.blocks.as_slice()),
    }
}

fn answered(taken: Result<Taken, Refused>) -> Result<Received, Refused>
    ensures { result ≡ gotten_answer taken }
{
    taken.map(received)
}

impl<'a, N: Names, R: Wait, G: Gate> Machine for Worker<'a, N, R, G> {
    ghost use Rattle.xh_runner.specs.Workers.{WorkerState, did};

    ghost State = { WorkerState };

    ghost state = { λ w. record { account = w.account; look = w.look } };

    ghost did = { did N.parts N.leads };

    fn spawn(&mut self) -> Told<u16> {
        self.kernel.spawn(self.rt, &mut self.account, self.gate)
    }

    fn open(
        &mut self,
        process: u16,
        arena: u32,
        contract: Option<&Contract>,
    ) -> Told<(Block, Block)> {
        let account = &mut self.account;
        match contract {
            Some(contract) => {
                let contract = contract.copy();
                self.kernel
                    .open_with(self.rt, process, arena, contract, account, self.gate)
            }
            None => self
                .kernel
                .open(self.rt, process, arena, account, self.gate),
        }
    }

    fn wire(
        &mut self,
        process: u16,
        other: u16,
        arena: u32,
        contract: Option<&Contract>,
    ) -> Told<(Block, Block)> {
        let account = &mut self.account;
        match contract {
            Some(contract) => {
                let contract = contract.copy();
                self.kernel.wire_with(self.rt, process, other, arena, contract, account, self.gate)
            }
            None => self
                .kernel
                .wire(self.rt, process, other, arena, account, self.gate),
        }
    }

    fn alloc(&mut self, alloc: Global, process: u16, bytes: u32, arena: u32) -> Told<Block> {
        let account = &mut self.account;
        self.kernel
            .alloc(self.rt, alloc, process, bytes, arena, account, self.gate)
    }

    fn split(&mut self, alloc: Global, process: u16, block: u16, at: u32) -> Told<(Block, Block)> {
        let account = &mut self.account;
        self.kernel
            .split(self.rt, alloc, process, block, at, account, self.gate)
    }

    fn read(&mut self, process: u16, block: u16, at: u32, room: &mut [u8]) -> Told<()> {
        let account = &mut self.account;
        self.kernel
            .read(self.rt, process, block, at, room, account, self.gate)
    }

    fn write(&mut self, process: u16, block: u16, at: u32, bytes: &[u8]) -> Told<()> {
        let account = &mut self.account;
        self.kernel
            .write(self.rt, process, block, at, bytes, account, self.gate)
    }

    fn give(&mut self, process: u16, endpoint: u16, tag: u16, blocks: &[u16]) -> Told<u64> {
        let account = &mut self.account;
        self.kernel.give(self.rt, process, endpoint, tag, blocks, account, self.gate)
    }

    fn take(&mut self, process: u16, endpoint: u16, waits: bool) -> Told<Received> {
        let taken = if waits {
            self.kernel
                .take_wait(self.rt, process, endpoint, &mut self.account, self.gate)
        } else {
            self.kernel
                .take(self.rt, process, endpoint, &mut self.account, self.gate)
        };
        answered(taken)
    }

    fn free(&mut self, process: u16, block: u16) -> Told<u32> {
        self.kernel
            .free(self.rt, process, block, &mut self.account, self.gate)
    }

    fn close(&mut self, process: u16, endpoint: u16) -> Told<u64> {
        self.kernel
            .close(self.rt, process, endpoint, &mut self.account, self.gate)
    }

    fn exit(&mut self, process: u16, budget: u32) -> Told<u64> {
        let budget = budget.min(u32::from(MAX_BUDGET)) as u16;
        self.kernel
            .exit(self.rt, process, budget, &mut self.account, self.gate)
    }

    fn kill(&mut self, process: u16, victim: u16, budget: u32) -> Told<u64> {
        let account = &mut self.account;
        let budget = budget.min(u32::from(MAX_BUDGET)) as u16;
        self.kernel
            .kill(self.rt, process, victim, budget, account, self.gate)
    }

    fn glance(&mut self, place: u8) -> Told<Glance> {
        self.kernel.glance(place, &mut self.look)
    }
}

/// A worker for each account and look, in order.
pub fn hire<'a, N: Names, R, G>(
    rt: &'a R,
    alloc: Global,
    kernel: &'a Kernel<N>,
    gate: &'a G,
    accounts: Vec<Account<N>>,
    looks: Vec<Look>,
) -> Result<Vec<Worker<'a, N, R, G>>, AllocError>
    requires count { vec_len looks ≡ vec_len accounts }
    requires own { All (λ l. l.table ≡ N.parts.histories) looks.items }
    ensures count { IfOk result (λ workers. vec_len workers ≡ vec_len accounts) }
    ensures accounts { IfOk result (λ workers. map (λ w. w.account) workers.items ≡ accounts.items) }
    ensures looks { IfOk result (λ workers. map (λ w. w.look) workers.items ≡ looks.items) }
{
    let mut workers = Vec::with_capacity(alloc, accounts.len())?;
    let mut looks = looks.into_iter();
    for account in accounts {
        let Some(look) = looks.next() else {
            unreachable!()
        };
        workers.push_reserved(Worker {
            rt,
            kernel,
            gate,
            account,
            look,
        });
    }
    Ok(workers)
}

/// What the workers have of their own, in order.
pub fn leave_all<N: Names, R, G>(
    alloc: Global,
    workers: Vec<Worker<'_, N, R, G>>,
) -> Result<(Vec<Account<N>>, Vec<Look>), AllocError>
    ensures count { IfOk result (λ r. (vec_len r.0 ≡ vec_len workers.entry) × (vec_len r.1 ≡ vec_len workers.entry)) }
    ensures accounts { IfOk result (λ r. r.0.items ≡ map (λ w. w.account) workers.entry.items) }
    ensures looks { IfOk result (λ r. r.1.items ≡ map (λ w. w.look) workers.entry.items) }
    ensures own { IfOk result (λ r. All (λ l. l.table ≡ N.parts.histories) r.1.items) }
{
    let mut accounts = Vec::with_capacity(alloc, workers.len())?;
    let mut looks = Vec::with_capacity(alloc, workers.len())?;
    for worker in workers {
        let Worker { account, look, .. } = worker;
        accounts.push_reserved(account);
        looks.push_reserved(look);
    }
    Ok((accounts, looks))
}
