//! Closing the books: the ledger of what a kernel held, exact once its workers are joined.
#![tactic(auto)]

mod auditing;
mod closing;
mod collecting;
mod flight;
mod lines;

pub use closing::{Books, close_books, close_kernel};
