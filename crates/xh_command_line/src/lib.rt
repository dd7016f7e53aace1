//! The command line of the programs: the options that their words name, and the statuses that they end with.
#![tactic(auto)]

mod command;
mod options;
mod status;

pub use command::Program;
pub use options::{Options, read_options};
pub use status::{
    DONE, INTERNAL, MEMORY, SCRIPT, STREAM, WORDS, out_of_memory, report, unread_words,
};
