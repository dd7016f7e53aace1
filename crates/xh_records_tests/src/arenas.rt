//! An arena's calls with figures.
mod calls;

use crate::answers::TableAnswer;
use crate::answers::TableAnswer::{At, Bytes, Nothing, Number, Run};
use calls::Call::{Books, Carve, GiveBack, Hole, Records, Size};
use calls::{Call, assert_answers};
use std::alloc::Global;
use std::process::Abort;
use xh_arena::{Arena, Refused};

#[test]
fn holes_merge(rt: HostRuntime) {
    const CALLS: &[(Call, TableAnswer)] = &[
        (Carve(0, 16), At(0)),
        (Carve(1, 16), At(16)),
        (Carve(2, 16), At(32)),
        (GiveBack(1), Nothing),
        (Hole(0), Run(16, 16)),
        (Hole(1), Run(48, 208)),
        (Hole(2), Nothing),
        (GiveBack(0), Nothing),
        (Hole(0), Run(0, 32)),
        (Hole(1), Run(48, 208)),
        (Hole(2), Nothing),
        (GiveBack(2), Nothing),
        (Hole(0), Run(0, 256)),
        (Hole(1), Nothing),
        (Books, Bytes(48, 0)),
    ];
    let mut arena = Arena::new(rt.alloc(), 256, 8, 1000).expect(&rt, "room");
    assert_answers(&rt, &mut arena, CALLS);
    assert_eq!(rt;
        Arena::new(rt.alloc(), 40, 8, 1000).err(),
        Some(Refused::BadSize)
    );
}

/// Makes an arena and looks at it, unless a growth was refused.
fn is_made(rt: &impl Abort, alloc: Global) -> bool {
    const CALLS: &[(Call, TableAnswer)] = &[
        (Size, Number(256)),
        (Records, Number(8)),
        (Books, Bytes(0, 0)),
        (Hole(0), Run(0, 256)),
        (Hole(1), Nothing),
        (Carve(7, 256), At(0)),
    ];
    match Arena::new(alloc, 256, 8, 1000) {
        Ok(mut arena) => {
            assert_answers(rt, &mut arena, CALLS);
            true
        }
        Err(refused) => {
            assert_eq!(rt; refused, Refused::OutOfMemory);
            false
        }
    }
}

/// Where one growth is refused, whichever it is, one of two calls is out of memory, and the other makes a whole arena.
#[test]
fn growths_of_new(rt: HostRuntime) {
    let first = is_made(&rt, rt.alloc());
    let second = is_made(&rt, rt.alloc());
    assert!(rt; first || second);
}
