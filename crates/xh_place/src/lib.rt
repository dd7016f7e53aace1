//! A process's place: its list, its total and its state.
#![tactic(auto)]

mod body;
mod bytes;
mod checks;
mod desk;
mod end_lots;
mod gate;
mod giving;
mod got;
mod list;
mod lots;
mod opening;
mod outlet;
mod place;
mod vaults;

pub use body::Body;
pub use desk::Desk;
pub use gate::{Gate, OpenGate, Point};
pub use got::{Got, Taken};
pub use opening::Unopened;
pub use place::Place;
pub use vaults::Vaults;
pub use xh_core::{Header, Kind};
