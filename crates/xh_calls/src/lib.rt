//! The calls of a process on its place, by whoever has the place's lock: what all places share, and what
//! each call does.
#![tactic(auto)]

mod arenas;
mod blocks;
mod bytes;
mod call;
mod channels;
mod heap;
mod kept;
mod making;
mod messages;
mod names;
mod several;
mod starting;
mod waiters;
mod wired;

pub use arenas::{Arenas, vault_line};
pub use call::{Call, Entry};
pub use heap::{Heap, Till};
pub use making::{Bundle, Makings, make_vaults};
pub use names::Names;
pub use several::{AnsweredAt, MAX_ENDS};
pub use starting::check_start;
pub use waiters::{Lack, Waiters};
pub use wired::Wired;
