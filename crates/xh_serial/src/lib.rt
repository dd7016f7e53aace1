//! The serial machine: the whole heap on one thread, command by command.
//!
//! A line such as `let _start = &self.plain;` only reads a field: it opens the struct for the proof,
//! which knows the type's invariant from there on. It stands where a method calls nothing but methods,
//! or may end before it reads a field.
#![tactic(auto)]

mod blocks;
mod channels;
mod line;
mod list;
mod message;
mod place;
mod places;
mod serial;
mod several;

pub use message::Taken;
pub use serial::Serial;
