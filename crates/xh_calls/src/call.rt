//! The calls of a place, and what its history has of each.
use crate::several::AnsweredAt;
use crate::wired::Wired;
use std::collections::LinkedList;
use xh_core::{Block, Contract, Glance, Refused};
use xh_place::Taken;

/// A call on a place, with its words in the order in which the kernel takes them, and its answer last.
/// No value of it is made: it stands in the histories, which are there for the proofs alone.
pub enum Call {
    /// None where no process could start at the place.
    Spawn(Option<u16>),
    /// The look of a kill or a wire, whether the process runs.
    Look(u16, Result<(), Refused>),
    Alloc(u16, u32, u32, Result<Block, Refused>),
    /// With the bytes that the buffer had before it.
    Put(u16, LinkedList<u8>, u32, Result<Block, Refused>),
    Split(u16, u16, u32, Result<(Block, Block), Refused>),
    /// With the bytes that the buffer has after it.
    Read(u16, u16, u32, LinkedList<u8>, Result<(), Refused>),
    Write(u16, u16, u32, LinkedList<u8>, Result<(), Refused>),
    Free(u16, u16, Result<u32, Refused>),
    IntoBytes(u16, u16, Result<LinkedList<u8>, Refused>),
    Open(u16, u32, Option<Contract>, Result<(Block, Block), Refused>),
    /// The first step of a wire, which leaves side 1 on its way.
    OpenToward(u16, u32, Option<Contract>, Result<Wired, Refused>),
    /// The second: side 1 of the channel, by its record, comes to the process. With the bytes that came
    /// back where it was swept.
    Receive(u16, u16, u8, u64, Result<Block, Refused>),
    /// The third, where side 1 came too late: side 0, by its record, and the bytes that came back.
    CloseAgain(u16, u16, u8, u64),
    Give(u16, u16, u16, LinkedList<u16>, Result<u64, Refused>),
    Take(u16, u16, Result<Taken, Refused>),
    TakeAny(u16, LinkedList<u16>, Result<AnsweredAt, Refused>),
    /// With the bytes that came back.
    Close(u16, u16, u64, Result<u64, Refused>),
    /// An exit or a kill: the process, the budget, and the bytes that came back.
    Stop(u16, u16, u64, Result<u64, Refused>),
}

/// What a place's history has: a call, and what the place is after it to those who look without its lock.
pub struct Entry {
    pub call: Call,
    pub glance: Glance,
}
