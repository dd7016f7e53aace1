//! The kernel: the locks of the places, whole calls and their histories, accounts and settling.
#![tactic(auto)]

mod account;
mod finishing;
mod kernel;
mod locked_place;
mod looking;
mod overview;
mod parts;
mod scribe;
mod shared;
mod spare;
mod until;
mod words;

pub use account::Account;
pub use finishing::compare;
pub use kernel::{Kernel, Settled};
pub use overview::{Awaited, Overview, PlaceNow, write_arenas, write_place};
pub use parts::{Look, Parts};
pub use spare::{Spare, Started};
pub use until::{Never, Until};
pub use words::Glances;
pub use xh_calls::{AnsweredAt, Call, Entry, MAX_ENDS, Names};
pub use xh_channel::Spot;
pub use xh_core::Block;
pub use xh_place::{Gate, Got, OpenGate, Point, Taken};
