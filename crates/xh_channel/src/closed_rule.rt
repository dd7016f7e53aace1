// The closed words of a channel, one for each side: 0 open, 1 shut. No value of a `Sight` is made.
use atomic_table::{Join, Play, Split, Table, TableRule};
use std::alloc::Global;

/// The words from `from` to `upto` of the channel are for this seat alone to store. It knows of the side `from`, and of its peer, whether they were shut.
pub struct Sight {
    pub channel: u64,
    pub from: u64,
    pub upto: u64,
    pub shut: bool,
    pub peer_shut: bool,
}

pub struct Shutting;

impl TableRule<(), Sight, u8> for Shutting {
    ghost use Rattle.std.specs.Prelude.{false};
    ghost use Rattle.xh_channel.specs.inner.ClosedWords.{sight, ShowsWords};

    ghost holds = { λ _ s. ShowsWords s };

    ghost first = { λ channel. sight channel 0 2 false false };
}

/// The seat of both words keeps side 1's, and a new one has side 0's.
pub struct Words;

impl Split<Sight> for Words {
    ghost use Rattle.std.specs.Prelude.{false};
    ghost use Rattle.xh_channel.specs.inner.ClosedWords.{sight};

    ghost left = { λ v. sight v.channel 1 2 false false };

    ghost right = { λ v. sight v.channel 0 1 false false };
}

/// A new seat tells the peer what this one knows.
pub struct Tells;

impl Split<Sight> for Tells {
    ghost use Rattle.xh_channel.specs.inner.ClosedWords.{told};

    ghost left = { λ v. v };

    ghost right = { told };
}

/// A seat hears what its peer tells, and stays. Were it told to be shut and isn't, it would have a sight that no words show.
pub struct Hears;

impl Join<Sight> for Hears {
    ghost use Rattle.std.specs.Prelude.{false};
    ghost use Rattle.xh_channel.specs.inner.ClosedWords.{sight, hearing};

    ghost both = { hearing };

    ghost spent = { sight 0 0 0 false false };
}

/// A load, by a seat whose sight some words show.
pub struct Shown;

impl Play<(), Sight> for Shown {
    ghost use Rattle.xh_channel.specs.inner.ClosedWords.{IsShown};

    ghost then = { IsShown };
}

/// The seat's word is 1 now.
pub struct Shuts;

impl Play<(), Sight> for Shuts {
    ghost use Rattle.xh_channel.specs.inner.ClosedWords.{Shut};

    ghost then = { Shut };
}

/// A load of the peer's word.
pub struct LooksAtPeer;

impl Play<(), Sight> for LooksAtPeer {
    ghost use Rattle.xh_channel.specs.inner.ClosedWords.{Looked};

    ghost then = { Looked };
}

pub type ClosedTable = Table<(), Sight, u8, Shutting, Global>;
