//! Owner words and slots of the records of all arenas: over every schedule each record has one holder.
#![tactic(auto)]

mod closing;
mod hints;
mod laws;
mod lending;
mod making;
mod order;
mod plays;
mod records;
mod refused;
mod rule;
mod seat;
mod seen;
mod shape;
mod token;
mod view;
mod word;

pub use laws::events_are_the_cores;
pub use order::Order;
pub use records::Records;
pub use refused::Refused;
pub use seat::Seat;
pub use seen::Seen;
pub use shape::Shape;
pub use view::View;
pub use word::OwnerWord;
