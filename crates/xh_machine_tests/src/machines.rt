//! Both machines, made, lent to what is tried, and let go: a serial one, and a kernel by its first worker.
ghost use Rattle.std.specs.Prelude.{◌≡◌, ◌<◌, All, IfOk, vec_len};
ghost use Rattle.xh_kernel.specs.Histories.{IsLaw};

use crate::answers::{Answer, Call, assert_answers};
use crate::growths::assert_again;
use crate::ledgers::assert_same;
use crate::without_memory::assert_whole;
use std::alloc::Global;
use std::marker::Brand;
use std::process::Abort;
use std::sync::Wait;
use xh_books::close_kernel;
use xh_core::{Block, Config, Ledger, Refused};
use xh_kernel::{Account, AnsweredAt, Kernel, Look, MAX_ENDS, Names, Parts};
use xh_runner::{Gate, Machine, OpenGate, Worker, hire, leave_all};
use xh_serial::Serial;

/// A machine whose books can be looked into.
pub trait Booked: Machine {
    /// How many bytes of an arena were taken and given back. None where there is no such arena.
    fn moved(&self, arena: u8) -> Option<(u64, u64)>;

    /// How many bytes of an arena are out, and how many holes it has. None where there is no such arena.
    fn held(&mut self, arena: u8) -> Option<(u32, u32)>;
}

impl Booked for Serial {
    fn moved(&self, arena: u8) -> Option<(u64, u64)> {
        let ledger = self.ledger();
        let line = ledger.arenas.get(usize::from(arena))?;
        Some((line.taken, line.back))
    }

    fn held(&mut self, arena: u8) -> Option<(u32, u32)> {
        let ledger = self.ledger();
        let line = ledger.arenas.get(usize::from(arena))?;
        Some((line.out, line.holes))
    }
}

impl<'a, N: Names, R: Wait, G: Gate> Booked for Worker<'a, N, R, G> {
    fn moved(&self, arena: u8) -> Option<(u64, u64)> {
        self.account.moved(arena)
    }

    fn held(&mut self, arena: u8) -> Option<(u32, u32)> {
        let seen = self.kernel.overview(self.rt, &mut self.account);
        let line = seen.arenas.get(usize::from(arena))?;
        Some((line.out, line.holes))
    }
}

/// What a take answered: at which of the ends, the message's tag, and nothing, or the name of a refusal. The refusal of all
/// ends together is at the 64th.
pub type TookAt = (usize, u16, &'static str);

/// A machine with calls that no script has: a take at several endpoints, buffers that become blocks, and blocks that become
/// buffers.
pub trait BufferMachine: Booked {
    fn take_any(&mut self, p: u16, ends: &[u16]) -> TookAt;

    fn put(&mut self, p: u16, bytes: &mut Vec<u8>, arena: u32) -> Result<Block, Refused>;

    fn into_bytes(&mut self, p: u16, r: u16) -> Result<Vec<u8>, Refused>;
}

impl<'a, N: Names, R: Wait, G: Gate> BufferMachine for Worker<'a, N, R, G> {
    fn take_any(&mut self, p: u16, ends: &[u16]) -> TookAt {
        let (rt, gate) = (self.rt, self.gate);
        match self.kernel.take_any(rt, p, ends, &mut self.account, gate) {
            Ok(AnsweredAt { at, answer }) => match answer {
                Ok(message) => (at, message.tag, ""),
                Err(refused) => (at, 0, refused.name()),
            },
            Err(refused) => (MAX_ENDS, 0, refused.name()),
        }
    }

    fn put(&mut self, p: u16, bytes: &mut Vec<u8>, arena: u32) -> Result<Block, Refused> {
        let (rt, gate) = (self.rt, self.gate);
        self.kernel
            .put(rt, p, bytes, arena, &mut self.account, gate)
    }

    fn into_bytes(&mut self, p: u16, r: u16) -> Result<Vec<u8>, Refused> {
        let (rt, gate) = (self.rt, self.gate);
        self.kernel.into_bytes(rt, p, r, &mut self.account, gate)
    }
}

/// What is tried on either machine: calls and what they answer; the same, each made again where a growth was refused; calls
/// that go without memory.
#[derive(Clone, Copy)]
pub enum Trial<'a> {
    Answers(&'a [(Call<'a>, Answer)]),
    Again(&'a [(Call<'a>, Answer)]),
    WithoutMemory,
}

fn try_on<M: Booked>(rt: &impl Abort, alloc: Global, machine: &mut M, trial: Trial) {
    match trial {
        Trial::Answers(calls) => assert_answers(rt, alloc, machine, calls),
        Trial::Again(calls) => assert_again(rt, alloc, machine, calls),
        Trial::WithoutMemory => assert_whole(rt, alloc, machine),
    }
}

/// The trial on a new serial machine; its ledger.
pub fn on_serial(
    rt: &impl Abort,
    alloc: Global,
    config: Config,
    trial: Trial,
) -> Result<Ledger, Refused> {
    match Serial::new(alloc, config) {
        Ok(mut machine) => {
            try_on(rt, alloc, &mut machine, trial);
            Ok(machine.ledger())
        }
        Err(refused) => Err(refused),
    }
}

/// What is tried by the first worker of a kernel.
pub trait Case {
    fn try_by<W: BufferMachine>(&self, rt: &impl Abort, alloc: Global, worker: &mut W);
}

impl<'a> Case for Trial<'a> {
    fn try_by<W: BufferMachine>(&self, rt: &impl Abort, alloc: Global, worker: &mut W) {
        try_on(rt, alloc, worker, *self);
    }
}

/// The case by the workers of a kernel; what they have then.
fn by_workers<N: Names, R: Wait + Abort, G: Gate, C: Case>(
    rt: &R,
    alloc: Global,
    kernel: &Kernel<N>,
    gate: &G,
    accounts: Vec<Account<N>>,
    looks: Vec<Look>,
    case: &C,
) -> Result<((), Vec<Account<N>>, Vec<Look>), Refused>
    requires count { (0 < vec_len accounts) × (vec_len looks ≡ vec_len accounts) }
    requires own { All (λ l. l.table ≡ N.parts.histories) looks.items }
    ensures count { IfOk result (λ r. vec_len r.1 ≡ vec_len accounts) }
    ensures own { IfOk result (λ r. All (λ l. l.table ≡ N.parts.histories) r.2.items) }
{
    let mut workers = hire(rt, alloc, kernel, gate, accounts, looks)?;
    case.try_by(rt, alloc, &mut workers[0]);
    let (accounts, looks) = leave_all(alloc, workers)?;
    Ok(((), accounts, looks))
}

/// The case on a kernel of the parts, whose calls stop for the gate; its ledger.
fn on_parts<N: Names, R: Wait + Abort, G: Gate, C: Case>(
    rt: &R,
    alloc: Global,
    parts: Parts,
    gate: &G,
    case: &C,
) -> Result<Ledger, Refused>
    requires names { parts ≡ N.parts }
    requires law { IsLaw N.parts N.leads }
    requires workers { 0 < parts.workers }
{
    let (kernel, accounts, looks) = Kernel::<N>::new(alloc, parts)?;
    let tried = by_workers(rt, alloc, &kernel, gate, accounts, looks, case);
    let ((), books) = close_kernel(alloc, kernel, tried)?;
    Ok(books.ledger)
}

/// The case on a new kernel for so many workers, whose calls stop for the gate; its ledger.
pub fn on_gated<R: Wait + Abort, G: Gate, C: Case>(
    rt: &R,
    alloc: Global,
    config: Config,
    workers: u8,
    gate: &G,
    case: &C,
) -> Result<Ledger, Refused> {
    let parts = Parts::new(alloc, config, workers)?;
    on_parts::<Brand, R, G, C>(rt, alloc, parts, gate, case)
}

/// The case on a new kernel for one worker; its ledger.
pub fn on_new_kernel<R: Wait + Abort, C: Case>(
    rt: &R,
    alloc: Global,
    config: Config,
    case: &C,
) -> Result<Ledger, Refused> {
    on_gated(rt, alloc, config, 1, &OpenGate, case)
}

/// The case on a new kernel for one worker, which uses each place 2,047 times; its ledger.
pub fn on_long_kernel<R: Wait + Abort, C: Case>(
    rt: &R,
    alloc: Global,
    config: Config,
    case: &C,
) -> Result<Ledger, Refused> {
    let parts = Parts::new(alloc, config, 1)?.with_all_numbers();
    on_parts::<Brand, R, OpenGate, C>(rt, alloc, parts, &OpenGate, case)
}

/// Makes each call on a new serial machine and on a new kernel, compares what it answers, and then both ledgers.
pub fn assert_on<R: Wait + Abort>(rt: &R, alloc: Global, config: Config, calls: &[(Call, Answer)]) {
    let trial = Trial::Answers(calls);
    let serial = on_serial(rt, alloc, config, trial).expect(rt, "room");
    let kernel = on_new_kernel(rt, alloc, config, &trial).expect(rt, "room");
    assert_same(rt, &serial, &kernel);
}

/// A configuration of arenas of so many bytes and records.
pub fn arenas_of(arenas: u8, bytes: u32, records: u16) -> Config {
    Config {
        arenas,
        bytes,
        records,
        depth: 4,
        wear: 1000,
    }
}
