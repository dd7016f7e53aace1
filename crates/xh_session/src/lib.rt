//! The commands of a script on a machine: the calls of a heap as one trait, what names stand for, and a run on the serial machine.
#![tactic(auto)]

mod bindings;
mod input;
mod machine;
mod report;
mod serial;
mod session;
mod stage;

pub use bindings::{Bindings, Processes};
pub use input::{Input, read_input};
pub use machine::{Ends, Machine, Received, Told};
pub use report::{Report, write_report};
pub use serial::{RunOptions, run_serial, run_serial_as};
pub use session::Session;
