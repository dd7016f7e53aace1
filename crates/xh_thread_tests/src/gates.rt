//! A gate that stops a worker.
use crate::machines::arena_of;
use std::test::Fail;
use xh_runner::{Gate, Point, run_threads};
use xh_script::{Fault, read_script};

/// Stops the worker of place 0 ahead of its first command.
#[derive(Drop)]
struct StopsFirst;

impl Gate for StopsFirst {
    fn before(&self, place: u8, command: u32) -> bool {
        place != 0 || command != 0
    }

    fn after(&self, _place: u8, _command: u32) {}

    fn between(&self, _place: u8, _point: Point) {}
}

/// A gate that stops a worker ends the run with its fault.
#[test]
fn gate_stops_a_worker(rt: HostRuntime) -> Result<(), Fail> {
    let script = read_script(rt.alloc(), b"process a\na alloc x 16 0\n")?;
    let ended = run_threads(&rt, rt.alloc(), &script, arena_of(256, 256), &StopsFirst);
    assert!(&rt; matches!(ended, Err(Fault::Gate)));
    Ok(())
}
