//! A job's run: a kernel is made, the job works on it, and its books are closed.
ghost use Rattle.std.specs.Prelude.{◌≡◌, ◌<◌, ◌≤◌, ℕ, All, Err, IfOk, vec_len};
ghost use Rattle.xh_kernel.specs.Accounts.{AreFresh, fresh};
ghost use Rattle.xh_kernel.specs.Histories.{IsLaw};
ghost use Rattle.xh_books.specs.Ledgers.{IsBalanced};
ghost use Rattle.xh_core.specs.Flight.{AreFlightLines};
ghost use Rattle.xh_heap.specs.Plans.{IsHired, IsPlannedAnew};
ghost use Rattle.xh_heap.specs.Runs.{AreOfKernel, AreOfOneKernel};
ghost use Rattle.xh_model.specs.Config.{IsConfig};
ghost use Rattle.xh_model.specs.declared.limits.TheConstants.{MAX_RECORDS, MAX_WEAR, PLACES};

use crate::closed::Closed;
use crate::handle::{Handle, Spares};
use crate::host::Host;
use crate::threads::work_by;
use std::alloc::Global;
use std::marker::Brand;
use std::sync::{Mutex, Wait};
use std::thread::Threads;
use std::time::Clock;
use xh_books::close_kernel;
use xh_core::{Config, Refused};
use xh_kernel::{Account, Kernel, Names, Parts, Spare};
use xh_model::limits::{MAX_RECORDS, MAX_WEAR, MAX_WORKERS, PLACES};

/// One arena of so many bytes, a multiple of 16 up to 2^27, for 256 blocks; 4 messages wait in a direction, and the arena
/// hands out bytes without end.
pub fn one_arena(bytes: u32) -> Config
    ensures { result ≡ record { arenas = 1; bytes = bytes; records = MAX_RECORDS; depth = 4; wear = MAX_WEAR } }
{
    Config {
        arenas: 1,
        bytes,
        records: MAX_RECORDS,
        depth: 4,
        wear: MAX_WEAR,
    }
}

// So many processes, each by a spare whose account is new. Those that are left are for the processes that these start.
fn hire<'a, 'k, N: Names, R: Wait>(
    rt: &'a R,
    alloc: Global,
    kernel: &'a Kernel<N>,
    spares: &'a Spares<'k, N>,
    mut left: Vec<Spare<'k, N>>,
    count: u8,
) -> Result<Vec<Handle<'a, 'k, N, R>>, Refused>
    requires { All (λ s. (k : ℕ) × (s.account.now ≡ fresh N.parts k)) left.items }
    ensures count { IfOk result (λ all. vec_len all ≡ count) }
    ensures new { IfOk result (λ all. All (λ p. IsHired N.parts N.leads p.number p.account.now) all.items) }
{
    let mut all = Vec::with_capacity(alloc, usize::from(count))?;
    for _ in 0..count {
        let Some(spare) = left.pop() else {
            return Err(Refused::NoPlace);
        };
        all.push_reserved(Handle::start(rt, alloc, kernel, spares, spare)?);
    }
    *spares.lock(rt) = left;
    Ok(all)
}

// A job by so many processes of this kernel: its plan, and what they answer.
fn work_on<'s, 'k, N: Names + Send + Sync, R: Threads + Wait + Clock + Sync, J: Host + Sync>(
    rt: &'s R,
    alloc: Global,
    kernel: &'s Kernel<N>,
    accounts: &'k mut [Account<N>],
    count: u8,
    job: &'s J,
) -> Result<(J::Plan, Vec<J::Answer>), Refused>
    requires { AreFresh N.parts accounts.old }
    ensures len { IfOk result (λ worked. vec_len worked.1 ≡ count) }
    ensures answers { IfOk result (λ worked. All (λ a. J.answered a N.parts) worked.1.items) }
    ensures planned { IfOk result (λ worked. IsPlannedAnew J.planned worked.0 N.parts N.leads count) }
{
    let left = Spare::all(alloc, accounts)?;
    let spares = Mutex::new(Vec::new(alloc));
    let all = hire(rt, alloc, kernel, &spares, left, count)?;
    work_by(rt, alloc, job, all)
}

// As `run`, over the kernel of these parts.
fn run_named<N: Names + Send + Sync, R: Threads + Wait + Clock + Sync, J: Host + Sync>(
    rt: &R,
    alloc: Global,
    parts: Parts,
    count: u8,
    job: &J,
) -> Result<Closed<J::Plan, J::Answer>, Refused>
    requires names { parts ≡ N.parts }
    requires law { IsLaw N.parts N.leads }
    ensures answers { IfOk result (λ c. vec_len c.answers ≡ count) }
    ensures balanced { IfOk result (λ c. IsBalanced c.books.ledger) }
    ensures lines { IfOk result (λ c. AreFlightLines c.books.ledger.flight c.books.flight.items) }
    ensures closed { IfOk result (λ c. AreOfKernel J.planned J.answered N.parts N.leads count c) }
{
    let (kernel, mut accounts, looks) = Kernel::<N>::new(alloc, parts)?;
    let worked = work_on(rt, alloc, &kernel, &mut accounts, count, job);
    let (worked, books) = close_kernel(alloc, kernel, Ok::<_, Refused>((worked, accounts, looks)))?;
    let (plan, answers) = worked?;
    Ok(Closed {
        plan,
        answers,
        books,
    })
}

/// Runs a job by so many processes, 1 to 32, on a heap of its own, and closes the books, once all threads have ended.
///
/// BadSize where the configuration or the count is outside its limits, then what the plan was refused. OutOfMemory where a growth
/// was refused before the work, or a thread could not be made: no worker begins then; or at closing, after all work.
pub fn run<R: Threads + Wait + Clock + Sync, J: Host + Sync>(
    rt: &R,
    alloc: Global,
    config: Config,
    count: u8,
    job: &J,
) -> Result<Closed<J::Plan, J::Answer>, Refused>
    ensures sizes { (IsConfig config → 0 < count → count ≤ PLACES → ⊥) → result ≡ Err Refused.BadSize }
    ensures answers { IfOk result (λ c. vec_len c.answers ≡ count) }
    ensures balanced { IfOk result (λ c. IsBalanced c.books.ledger) }
    ensures lines { IfOk result (λ c. AreFlightLines c.books.ledger.flight c.books.flight.items) }
    ensures closed { IfOk result (λ c. AreOfOneKernel J.planned J.answered config count c) }
{
    if count == 0 || count > PLACES {
        return Err(Refused::BadSize);
    }
    let parts = Parts::new(alloc, config, MAX_WORKERS)?;
    let renewed = parts.with_all_numbers().with_channels_that_come_back(alloc);
    run_named::<Brand, R, J>(rt, alloc, renewed, count, job)
}
