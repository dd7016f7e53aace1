//! Buffers that become blocks, and blocks that become buffers.
use crate::answers::Answer::{Block, Bytes, Done, No, Number, Two};
use crate::answers::Call::{Exit, Open, Read, Spawn, Write};
use crate::growths::is_lacking;
use crate::machines::{arenas_of, on_new_kernel};
use crate::steps::{Step, Steps};
use xh_core::Config;

/// Five bytes and zeros; a buffer as it is; one with room for too many. Each refusal, in their order.
const STEPS: &[Step] = &[
    Step::Call(Spawn, Number(0)),
    Step::Call(Spawn, Number(1)),
    Step::Call(Exit(1, 1), Number(0)),
    Step::Put(2, &[], 0, 9, No("NoProcess")),
    Step::Put(1, &[], 0, 9, No("Ended")),
    Step::Put(0, &[], 0, 9, No("NoArena")),
    Step::Put(0, &[], 16, 0, No("BadSize")),
    Step::Put(0, &[7; 257], 257, 0, No("BadSize")),
    Step::Put(0, &[1, 2, 3, 4, 5], 5, 0, Block(0, 16)),
    Step::Put(0, &[9; 32], 32, 0, Block(1, 32)),
    Step::Put(0, &[8; 31], 1024, 0, Block(2, 32)),
    Step::Put(0, &[7; 177], 177, 0, No("NoSpace")),
    Step::Call(Read(0, 0, 2, 6), Bytes([3, 4, 5, 0, 0, 0])),
    Step::Call(Write(0, 0, 15, &[6]), Done),
    Step::Out(2, 0, Err("NoProcess")),
    Step::Out(1, 0, Err("Ended")),
    Step::Out(0, 0, Ok(&[1, 2, 3, 4, 5, 0, 0, 0, 0, 0, 0, 0, 0, 0, 0, 6])),
    Step::Out(0, 0, Err("NotOwned")),
    Step::Call(Open(0, 0), Two(0, 32, 3, 32)),
    Step::Out(0, 3, Err("NotData")),
    Step::Put(0, &[7], 16, 0, No("NoRecord")),
    Step::Out(0, 1, Ok(&[9; 32])),
    Step::Put(0, &[7; 17], 17, 0, No("Worn")),
    Step::Put(0, &[7; 16], 16, 0, Block(1, 16)),
    Step::Call(Exit(0, 16), Number(112)),
];

/// Whichever growth is refused, the bytes stay, and the same put then goes well.
#[test]
fn growths_of_put(rt: HostRuntime) {
    let config = Config {
        wear: 160,
        ..arenas_of(1, 256, 4)
    };
    let mut ledger = on_new_kernel(&rt, rt.alloc(), config, &Steps(STEPS));
    if is_lacking(&ledger) {
        ledger = on_new_kernel(&rt, rt.alloc(), config, &Steps(STEPS));
    }
    assert!(&rt; matches!(ledger, Ok(ledger) if ledger.out == 0));
}
