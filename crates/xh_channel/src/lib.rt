//! The channels: their directions, their endpoints, and shutting.
#![tactic(auto)]

mod channel_end;
mod channels;
mod closed_rule;
mod closed_word;
mod counts;
mod endpoint;
mod free_numbers;
mod free_pair;
mod hold;
mod line;
mod line_end;
mod line_rule;
mod line_seat;
mod line_steps;
mod message;
mod queue_end;
mod queue_rule;
mod refused;
mod spot;
mod unopened;
mod unsent;
mod waiting;

pub use channels::Channels;
pub use endpoint::{Endpoint, compare};
pub use free_numbers::Freed;
pub use hold::Hold;
pub use line::Line;
pub use message::Message;
pub use refused::Refused;
pub use spot::Spot;
pub use unopened::Unopened;
pub use unsent::Unsent;
