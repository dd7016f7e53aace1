//! A vault's calls with figures.
mod hand;

use crate::answers::TableAnswer;
use crate::answers::TableAnswer::{At, Bytes, Has, No, Nothing, Number, Run};
use crate::records::Any;
use hand::Call::{Audit, Books, Carve, GiveBack, Hole, Moved, Records, Size};
use hand::{Call, assert_answers, collect, made};
use std::alloc::Global;
use std::process::Abort;
use xh_arena::{Refused, Vault};

#[test]
fn worn_vault(rt: HostRuntime) {
    const CALLS: &[(u8, Call, TableAnswer)] = &[
        (0, Audit, Has(0, None, 0)),
        (1, Audit, Has(1, None, 0)),
        (0, Carve(64), At(0)),
        (0, GiveBack, Nothing),
        (1, Carve(32), No(Refused::Worn)),
        (0, Moved, Bytes(64, 64)),
        (1, Moved, Bytes(0, 0)),
        (0, Books, Bytes(64, 0)),
        (0, Size, Number(64)),
        (0, Hole(0), Run(0, 64)),
        (0, Hole(1), Nothing),
    ];
    let mut hand = made(rt.alloc()).expect(&rt, "no vault");
    assert_answers(&rt, &mut hand, CALLS);
    collect(hand);
}

/// Why no vault for so many workers is made.
fn refusal(alloc: Global, workers: u8) -> Option<Refused> {
    Vault::new::<Any>(alloc, 64, 4, 80, workers).err()
}

#[test]
fn workers_are_1_to_33(rt: HostRuntime) {
    for workers in [0, 34] {
        assert_eq!(rt; refusal(rt.alloc(), workers), Some(Refused::BadSize));
    }
}

/// Makes a vault and looks at it, unless a growth was refused.
fn is_made(rt: &impl Abort, alloc: Global) -> bool {
    const CALLS: &[(u8, Call, TableAnswer)] = &[
        (0, Size, Number(64)),
        (0, Records, Number(4)),
        (0, Books, Bytes(0, 0)),
        (0, Hole(0), Run(0, 64)),
        (0, Hole(1), Nothing),
        (0, Audit, Has(0, None, 0)),
        (1, Audit, Has(1, None, 0)),
        (0, Moved, Bytes(0, 0)),
        (1, Moved, Bytes(0, 0)),
    ];
    match made(alloc) {
        Ok(mut hand) => {
            assert_answers(rt, &mut hand, CALLS);
            true
        }
        Err(refused) => {
            assert_eq!(rt; refused, Refused::OutOfMemory);
            false
        }
    }
}

/// Where one growth is refused, whichever it is, one of two calls is out of memory, and the other makes a whole vault.
#[test]
fn growths_of_new(rt: HostRuntime) {
    let first = is_made(&rt, rt.alloc());
    let second = is_made(&rt, rt.alloc());
    assert!(rt; first || second);
}
