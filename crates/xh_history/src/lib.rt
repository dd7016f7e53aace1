//! One history a place: which calls were made on it, by which workers, in their one order. It is there for the
//! proofs alone, and is made of no bytes; but one word a place shows its last call to those who look without a lock.
#![tactic(auto)]

mod histories;
mod seats;
mod steps;
mod view;

pub use histories::Histories;
pub use seats::{Front, Look, Pen};
pub use steps::{NobodyLooks, Shows};
pub use view::View;
