//! The exchange heap for a program that begins here: `run` makes a heap with a process for each worker, lets a job
//! plan and then do their work, each on a thread of its own, and closes the books.
#![tactic(auto)]

mod by_bytes;
mod closed;
mod handle;
mod host;
mod job;
mod process;
mod running;
mod starter;
mod threads;
mod values;

pub use by_bytes::Came;
pub use closed::Closed;
pub use host::Host;
pub use job::{Job, Team};
pub use process::Process;
pub use running::{one_arena, run};
pub use starter::Starter;
pub use std::time::Duration;
pub use values::{Answered, AsEnd, Block, End, Item, Items, Load, Message, Returned};
pub use xh_books::Books;
pub use xh_core::{Config, Contract, Glance, Limit, Refused, Row, Status};
pub use xh_kernel::{Awaited, Overview, PlaceNow, Spot};
