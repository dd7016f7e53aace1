//! A kernel by its workers, made, lent to what is tried, and let go.
ghost use Rattle.std.specs.Prelude.{◌≡◌, All, IfOk, vec_len};
ghost use Rattle.xh_kernel.specs.Histories.{IsLaw};

use crate::deadlines::assert_deadlines;
use crate::memory::{Memory, assert_memory};
use crate::passing::{assert_comes, assert_passes};
use crate::serving::assert_served;
use crate::strangers::assert_answered;
use crate::waiting::{Waiting, assert_both_woken, assert_wait};
use crate::wiring::{ClaimHold, assert_refused};
use std::alloc::Global;
use std::marker::Brand;
use std::process::Abort;
use std::sync::Wait;
use std::thread::Threads;
use std::time::{Clock, Instant};
use xh_books::close_kernel;
use xh_core::{Config, Ledger, Refused};
use xh_kernel::{Account, AnsweredAt, Kernel, Look, MAX_ENDS, Names, Never, Parts};
use xh_place::Taken;
use xh_runner::{Gate, Machine, OpenGate, Worker, hire, leave_all};

/// What a take answered: at which of the ends, the message's tag, and nothing, or the name of a refusal. The refusal of all
/// ends together is at the 64th.
pub type TookAt = (usize, u16, &'static str);

fn told(at: usize, answer: Result<Taken, Refused>) -> TookAt {
    match answer {
        Ok(message) => (at, message.tag, ""),
        Err(refused) => (at, 0, refused.name()),
    }
}

// The number of a message that was given; or the refusal, and how many blocks came back.
fn told_given(answer: Result<u64, Refused>) -> TookAt {
    match answer {
        Ok(no) => (0, (no % 65_536) as u16, ""),
        Err(refused) => (count_back(&refused), 0, refused.name()),
    }
}

fn count_back(refused: &Refused) -> usize {
    match refused {
        Refused::Full { back } | Refused::PeerClosed { back } => back.len(),
        _ => 0,
    }
}

/// What a runtime of a test gives.
pub trait Runtime: Threads + Wait + Clock + Abort + Sync {}

impl<R: Threads + Wait + Clock + Abort + Sync> Runtime for R {}

/// A machine that others work on too, so that a take, a give or an alloc may wait, without an end or until a time.
pub trait SharedMachine: Machine + Send {
    /// What a give is told: the number of the message, in the place of its tag; or how many blocks came back, and why.
    fn give_wait(&mut self, p: u16, e: u16, blocks: &[u16], until: Option<Instant>) -> TookAt;

    /// A take at one endpoint, the first.
    fn take_first(&mut self, p: u16, e: u16, until: Option<Instant>) -> TookAt;

    fn take_any_wait(&mut self, p: u16, ends: &[u16], until: Option<Instant>) -> TookAt;

    /// What an alloc of 16 bytes of arena 0 is told that waits by the clock, once the block was freed.
    fn alloc_wait<C: Wait + Clock>(
        &mut self,
        clock: &C,
        alloc: Global,
        p: u16,
        until: Option<Instant>,
    ) -> &'static str;
}

impl<'a, N: Names + Send + Sync, R: Wait + Clock + Sync, G: Gate + Sync> SharedMachine
    for Worker<'a, N, R, G> {
    fn give_wait(&mut self, p: u16, e: u16, blocks: &[u16], until: Option<Instant>) -> TookAt {
        let (rt, account, gate) = (self.rt, &mut self.account, self.gate);
        told_given(match until {
            Some(until) => self
                .kernel
                .give_until(rt, p, e, 1, blocks, &until, account, gate),
            None => self
                .kernel
                .give_until(rt, p, e, 1, blocks, &Never, account, gate),
        })
    }

    fn take_first(&mut self, p: u16, e: u16, until: Option<Instant>) -> TookAt {
        let (rt, gate) = (self.rt, self.gate);
        let answer = match until {
            Some(until) => self
                .kernel
                .take_until(rt, p, e, &until, &mut self.account, gate),
            None => self.kernel.take_wait(rt, p, e, &mut self.account, gate),
        };
        told(0, answer)
    }

    fn take_any_wait(&mut self, p: u16, ends: &[u16], until: Option<Instant>) -> TookAt {
        let (rt, gate) = (self.rt, self.gate);
        let answer = match until {
            Some(until) => self
                .kernel
                .take_any_until(rt, p, ends, &until, &mut self.account, gate),
            None => self
                .kernel
                .take_any_until(rt, p, ends, &Never, &mut self.account, gate),
        };
        match answer {
            Ok(AnsweredAt { at, answer }) => told(at, answer),
            Err(refused) => (MAX_ENDS, 0, refused.name()),
        }
    }

    fn alloc_wait<C: Wait + Clock>(
        &mut self,
        clock: &C,
        alloc: Global,
        p: u16,
        until: Option<Instant>,
    ) -> &'static str {
        let (kernel, account, gate) = (self.kernel, &mut self.account, self.gate);
        let answer = match until {
            Some(until) => kernel.alloc_until(clock, alloc, p, 16, 0, &until, account, gate),
            None => kernel.alloc_until(clock, alloc, p, 16, 0, &Never, account, gate),
        };
        let freed = match answer {
            Ok(block) => kernel.free(clock, p, block.rec, account, gate),
            Err(refused) => Err(refused),
        };
        match freed {
            Ok(_bytes) => "",
            Err(refused) => refused.name(),
        }
    }
}

/// What is tried with the workers of a kernel: messages from one thread to another; a process that waits, for a message or room,
/// or for memory; two threads of one that wait; a wire to a process that ends; waits until a time; a server of eight clients; numbers
/// of strangers.
#[derive(Clone, Copy)]
pub enum Case<'a> {
    Passes,
    Comes,
    Waits(Waiting),
    Memory(Memory<'a>),
    BothWait,
    Wires(&'a ClaimHold),
    Deadlines,
    Serves,
    Strangers,
}

fn try_case<W: SharedMachine, R: Runtime>(rt: &R, alloc: Global, workers: &mut [W], case: Case) {
    match case {
        Case::Passes => assert_passes(rt, alloc, workers),
        Case::Comes => assert_comes(rt, alloc, workers),
        Case::Waits(waiting) => assert_wait(rt, alloc, workers, waiting),
        Case::Memory(memory) => assert_memory(rt, alloc, workers, memory),
        Case::BothWait => assert_both_woken(rt, alloc, workers),
        Case::Wires(hold) => assert_refused(rt, workers, hold),
        Case::Deadlines => assert_deadlines(rt, alloc, workers),
        Case::Serves => assert_served(rt, alloc, workers),
        Case::Strangers => assert_answered(rt, alloc, workers),
    }
}

/// The case by the workers of a kernel; what they have then.
fn by_workers<N: Names + Send + Sync, R: Runtime, G: Gate + Sync>(
    rt: &R,
    alloc: Global,
    kernel: &Kernel<N>,
    gate: &G,
    accounts: Vec<Account<N>>,
    looks: Vec<Look>,
    case: Case,
) -> Result<((), Vec<Account<N>>, Vec<Look>), Refused>
    requires count { vec_len looks ≡ vec_len accounts }
    requires own { All (λ l. l.table ≡ N.parts.histories) looks.items }
    ensures count { IfOk result (λ r. vec_len r.1 ≡ vec_len accounts) }
    ensures own { IfOk result (λ r. All (λ l. l.table ≡ N.parts.histories) r.2.items) }
{
    let mut workers = hire(rt, alloc, kernel, gate, accounts, looks)?;
    try_case(rt, alloc, &mut workers, case);
    let (accounts, looks) = leave_all(alloc, workers)?;
    Ok(((), accounts, looks))
}

/// The case on a kernel of the parts; its ledger.
fn on_parts<N: Names + Send + Sync, R: Runtime, G: Gate + Sync>(
    rt: &R,
    alloc: Global,
    parts: Parts,
    gate: &G,
    case: Case,
) -> Result<Ledger, Refused>
    requires names { parts ≡ N.parts }
    requires law { IsLaw N.parts N.leads }
{
    let (kernel, accounts, looks) = Kernel::<N>::new(alloc, parts)?;
    let tried = by_workers(rt, alloc, &kernel, gate, accounts, looks, case);
    let ((), books) = close_kernel(alloc, kernel, tried)?;
    Ok(books.ledger)
}

/// The case on a new kernel for so many workers, whose calls stop for the gate; its ledger.
pub fn on_gated<R: Runtime, G: Gate + Sync>(
    rt: &R,
    alloc: Global,
    config: Config,
    workers: u8,
    gate: &G,
    case: Case,
) -> Result<Ledger, Refused> {
    let parts = Parts::new(alloc, config, workers)?;
    on_parts::<Brand, R, G>(rt, alloc, parts, gate, case)
}

/// The case on a new kernel for so many workers; its ledger.
pub fn on_new_kernel<R: Runtime>(
    rt: &R,
    alloc: Global,
    config: Config,
    workers: u8,
    case: Case,
) -> Result<Ledger, Refused> {
    on_gated(rt, alloc, config, workers, &OpenGate, case)
}

/// A configuration of one arena of so many bytes and records.
pub fn arena_of(bytes: u32, records: u16) -> Config {
    Config {
        arenas: 1,
        bytes,
        records,
        depth: 4,
        wear: 1_000_000,
    }
}
