// The line of a channel with a contract, in the one slot of a table. Its first word is the lock: 0 at home, 1 out, 2 out and waited for. No value of a `LinePart` is made.
use crate::counts::Counts;
use crate::line::Line;
use crate::message::Message;
use atomic_table::{Join, Play, Split, Table, TableRule};
use std::alloc::Global;
use std::collections::LinkedList;
use xh_model::Row;

/// What a side did: the contract's rows and the depth that it goes by, its state, what it put and took, and whether it was shut.
pub struct LineAccount {
    pub rows: LinkedList<Row>,
    pub depth: u64,
    pub state: u64,
    pub sent: LinkedList<Message>,
    pub got: LinkedList<Message>,
    pub shut: bool,
}

/// What a seat knows. It owns the account of its side, or that of both sides, and knows its peer's while it holds the line.
/// `told` and `peer_told` are no more than what the peer and its own side did.
pub struct LinePart {
    pub side: u64,
    pub owns: bool,
    pub both: bool,
    pub holds: bool,
    pub own: LineAccount,
    pub peer: LineAccount,
    pub told: Counts,
    pub peer_told: Counts,
}

pub struct Keeping;

impl TableRule<Option<Line>, LinePart, ()> for Keeping {
    ghost use Rattle.xh_channel.specs.inner.LineRule.{IsKeptLine, both_sides};

    ghost holds = { λ _ s. IsKeptLine s };

    ghost first = { λ _. both_sides };
}

/// Takes the line, where it is at home.
pub struct Locks;

impl Play<Option<Line>, LinePart> for Locks {
    ghost use Rattle.xh_channel.specs.inner.LineRule.{Locked};

    ghost then = { Locked };
}

/// Gives the line back, the accounts are what it says now, and the seat has seen whether its peer is shut.
pub struct Settles;

impl Play<Option<Line>, LinePart> for Settles {
    ghost use Rattle.xh_channel.specs.inner.LineRule.{Settled};

    ghost then = { Settled };
}

/// The seat of both sides is told all that they did.
pub struct ComparesLines;

impl Play<Option<Line>, LinePart> for ComparesLines {
    ghost use Rattle.xh_channel.specs.inner.LineRule.{Compared};

    ghost then = { Compared };
}

/// The seat of both sides keeps side 0, and a new one has side 1.
pub struct Sides;

impl Split<LinePart> for Sides {
    ghost use Rattle.xh_channel.specs.inner.LineRule.{low_side, high_side};

    ghost left = { low_side };

    ghost right = { high_side };
}

/// The seat of side 0 has both sides.
pub struct BothSides;

impl Join<LinePart> for BothSides {
    ghost use Rattle.xh_channel.specs.inner.LineRule.{joined_sides, no_part};

    ghost both = { joined_sides };

    ghost spent = { no_part };
}

pub type LineTable = Table<Option<Line>, LinePart, (), Keeping, Global>;
