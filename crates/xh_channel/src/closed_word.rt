// An end's closed word.
ghost use Rattle.std.specs.Prelude.{◌≡◌, ◌-◌, ◌||◌, true, false, IfOk};
ghost use Rattle.xh_channel.specs.inner.ClosedWords.{own_shut, peer_seen_shut};

use crate::closed_rule::{ClosedTable, Hears, LooksAtPeer, Shown, Shuts, Sight, Tells, Words};
use atomic_table::{Seat, Table};
use std::alloc::{AllocError, Global};
use std::marker::Model;
use std::sync::Arc;

/// The seat of a side's closed word. Contracts see whether it was shut, and whether it saw its peer's shut.
#[derive(Drop)]
pub struct ClosedWord {
    words: Arc<ClosedTable, Global>,
    seat: Seat<(), Sight>,
    side: u8,
}

impl Model for ClosedWord {
    ghost use Rattle.std.specs.Arc.{arc_value};
    ghost use Rattle.xh_channel.specs.inner.ClosedWords.{IsWordSeat, ClosedView};

    ghost Value = { ClosedView };

    ghost view = { λ s. record { table = s.seat.table_id; channel = s.seat.me.0.channel; side = s.side; shut = s.seat.me.0.shut; peer_shut = s.seat.me.0.peer_shut } };

    ghost invariant = { λ s. IsWordSeat (arc_value s.words).shared.table_id s.seat.table_id s.seat.me s.side };
}

/// What an end tells its peer: whether that was seen shut, and whether it is shut itself.
#[derive(Drop)]
pub struct ShutNote {
    seat: Seat<(), Sight>,
}

impl Model for ShutNote {
    ghost use Rattle.std.specs.Prelude.{◌≡◌, []};
    ghost use Rattle.xh_channel.specs.inner.ClosedWords.{ClosedView};

    ghost Value = { ClosedView };

    ghost view = { λ n. record { table = n.seat.table_id; channel = n.seat.me.0.channel; side = n.seat.me.0.from; shut = n.seat.me.0.shut; peer_shut = n.seat.me.0.peer_shut } };

    ghost invariant = { λ n. n.seat.me.1 ≡ [] };
}

impl ClosedWord {
    /// Those of both sides of a channel, in a new table.
    #[tactic(auto, using(crate::proofs::ClosedSteps::splits))]
    pub fn pair(alloc: Global, channel: u8) -> Result<(ClosedWord, ClosedWord), AllocError>
        ensures words { IfOk result (λ s. (s.1.table ≡ s.0.table) × (s.0.channel ≡ channel) × (s.0.side ≡ 0) × (s.1.channel ≡ channel) × (s.1.side ≡ 1)) }
        ensures open { IfOk result (λ s. (s.0.shut ≡ false) × (s.0.peer_shut ≡ false) × (s.1.shut ≡ false) × (s.1.peer_shut ≡ false)) }
    {
        let (table, mut high) = Table::of_words(alloc, &[0; 2], &channel)?;
        let words = Arc::new(alloc, table)?;
        let also = Arc::try_clone(&words)?;
        let low = words.shared.split_seat::<Words>(&mut high);
        let low = ClosedWord {
            words,
            seat: low,
            side: 0,
        };
        let high = ClosedWord {
            words: also,
            seat: high,
            side: 1,
        };
        Ok((low, high))
    }

    /// Stores 1.
    pub fn shut(&mut self)
        ensures { self.new ≡ own_shut self.old }
    {
        let table = &self.words;
        table
            .shared
            .store::<Shuts>(&mut self.seat, self.side as usize, 1);
    }

    /// Tells the peer what it knows.
    #[tactic(auto, using(crate::proofs::ClosedSteps::tells))]
    pub fn note(&mut self) -> ShutNote
        ensures note { (result.table ≡ self.old.table) × (result.side ≡ 1 - self.old.side) × (result.shut ≡ self.old.peer_shut) × (result.peer_shut ≡ self.old.shut) }
        ensures same { self.new ≡ self.old }
    {
        let table = &self.words;
        ShutNote {
            seat: table.shared.split_seat::<Tells>(&mut self.seat),
        }
    }

    /// Hears what the peer tells, and shows that it was shut where the peer saw so.
    #[tactic(auto, using(crate::proofs::ClosedSteps::hears))]
    pub fn hear(&mut self, note: ShutNote)
        requires { (note.table ≡ self.old.table) × (note.side ≡ self.old.side) }
        ensures heard { self.new ≡ record self.old { peer_shut = self.old.peer_shut || note.peer_shut } }
        ensures shut { note.shut ≡ true → self.old.shut ≡ true }
    {
        let table = &self.words;
        table.shared.join_seat::<Hears>(&mut self.seat, note.seat);
        table.shared.load::<Shown>(&mut self.seat, 0);
    }

    /// Whether the peer's word is 1.
    pub fn peer_is_shut(&mut self) -> bool
        ensures shut { result ≡ true → self.new ≡ peer_seen_shut self.old }
        ensures open { result ≡ false → (self.new ≡ self.old) × (self.old.peer_shut ≡ false) }
    {
        let peer = 1 - self.side;
        let table = &self.words;
        table
            .shared
            .load::<LooksAtPeer>(&mut self.seat, peer as usize)
            == 1
    }
}
