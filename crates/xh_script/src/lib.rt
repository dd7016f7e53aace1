//! The language of scripts: how a script is read, and how replies, ledgers and what is in flight are written.
#![tactic(auto)]

mod command;
mod fault;
mod form;
mod hex;
mod ledgers;
pub mod limits;
mod line;
mod name;
mod name_table;
mod numeral;
mod replies;
mod rows;
mod script;
mod so_far;
mod split;
mod streams;
mod writing;

pub use command::{Command, Line, Word};
use fault::Stop;
pub use fault::{Fault, FaultKind};
pub use form::{Form, Sort};
pub use ledgers::{write_flight, write_ledger};
pub use name::Name;
pub use replies::{NumberedReply, Reply, write_answers, write_reply};
pub use script::{Script, read_script};
pub use streams::Watched;
pub use writing::put as write_bytes;
