//! Runs of whole scripts: bytes in, bytes out.
#![tactic(auto)]

mod crew;
mod play;
mod replies;
mod run;
mod task;
mod threads;
mod worker;

pub use threads::{run_parallel, run_threads};
pub use worker::{Worker, hire, leave_all};
pub use xh_place::{Gate, OpenGate, Point};
pub use xh_session::{
    Input, Machine, Received, Report, RunOptions, read_input, run_serial, run_serial_as,
};
