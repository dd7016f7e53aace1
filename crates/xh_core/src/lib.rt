//! The plain machine: the ownership and the arenas, event by event; contracts of channels, and two ends
//! that talk under one; and the words in which every layer answers.
//!
//! A line such as `let _start = &self.plain;` only reads a field: it opens the struct for the proof,
//! which knows the type's invariant from there on. It stands where a method calls nothing but methods,
//! or may end before it reads a field.
#![tactic(auto)]

mod block;
mod contract;
mod flight;
mod glance;
mod header;
mod ledger;
mod plain;
mod refused;
mod status;
mod talk;
mod talk_end;
mod turn;
mod twice;

pub use block::Block;
pub use contract::Contract;
pub use flight::{FLIGHT_LINES, FlightLine};
pub use glance::Glance;
pub use header::{Header, Kind};
pub use ledger::{ARENA_LINES, ArenaLine, Ledger, PLACE_LINES, PlaceLine, State};
pub use plain::Plain;
pub use refused::Refused;
pub use status::Status;
pub use talk::Talk;
pub use turn::Turn;
pub use twice::is_twice;
pub use xh_model::{Config, Event, Holder, Limit, Outcome, Row};
