//! Calls by the numbers of strangers: four threads act as the same two processes, and as one that has ended and one that never
//! ran, at any record.
use crate::ends::Ender::{Alloc, Free, Give, Take};
use crate::ends::{end_late, seed_of};
use crate::machines::{Case, Runtime, SharedMachine, arena_of, on_new_kernel};
use std::alloc::Global;
use std::sync::atomic::AtomicU64;
use std::sync::atomic::Ordering::SeqCst;
use std::thread;
use xh_runner::Machine;

// Many calls, of which none is done of 2, which has ended, and of 3, which never ran. The bytes that are taken, less those that
// come back, are added.
fn are_answered<M: Machine>(alloc: Global, machine: &mut M, at: u64, held: &AtomicU64) -> bool {
    (0..2048u64).all(|round| {
        let seed = seed_of((round % 64) as u16).wrapping_mul(2 * (at % 4 + 4 * (round / 64)) + 1);
        let (p, r) = (((seed >> 20) % 4) as u16, ((seed >> 30) % 20) as u16);
        let (call, bytes) = match (seed >> 40) % 4 {
            0 => (Alloc(p, 16), 16),
            1 => (Free(p, r), 0u64.wrapping_sub(16)),
            2 => (Give(p, p, 0, Some(r)), 0),
            _ => (Take(p, p), 0),
        };
        let is_done = end_late(alloc, machine, call, 0, 0);
        held.fetch_add(if is_done { bytes } else { 0 }, SeqCst);
        p < 2 || !is_done
    })
}

/// Processes 0 and 1 share a channel by their ends 0 and 1, whose 64 bytes come back with all that are left.
pub fn assert_answered<W: SharedMachine, R: Runtime>(rt: &R, alloc: Global, workers: &mut [W]) {
    let Some((mine, others)) = workers.split_first_mut() else {
        panic!(rt; "no worker");
    };
    let started = (mine.spawn(), mine.spawn(), mine.spawn(), mine.exit(2, 1));
    assert!(rt; matches!(started, (Ok(0), Ok(1), Ok(2), Ok(0))));
    let wired = mine.wire(0, 1, 0, None);
    assert!(rt; wired.is_ok());
    let (held, right) = (AtomicU64::new(64), AtomicU64::new(0));
    thread::for_each_mut(
        rt,
        others,
        4,
        &|at, worker| {
            let is_right = are_answered(alloc, worker, at as u64, &held);
            right.fetch_add(u64::from(is_right), SeqCst);
        },
    );
    let left = (
        mine.exit(0, 4_096).unwrap_or(0),
        mine.exit(1, 4_096).unwrap_or(0),
    );
    assert!(rt; right.load(SeqCst) == 4 && held.load(SeqCst) == left.0.wrapping_add(left.1));
}

#[test]
fn numbers_of_strangers(rt: HostRuntime) {
    let ledger = on_new_kernel(&rt, rt.alloc(), arena_of(256, 16), 5, Case::Strangers);
    assert!(&rt; matches!(ledger, Ok(ledger) if ledger.out == 0));
}
