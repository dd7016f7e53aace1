ghost use Rattle.std.specs.Prelude.{◌≡◌, ◌≤◌, ℕ, Some, length};
ghost use Rattle.xh_arena.specs.Views.{LotOf};
ghost use Rattle.xh_model.specs.Keyed.{value_at};
ghost use Rattle.xh_records.specs.Showing.{IsLotOf};
ghost use Rattle.xh_records.specs.Seats.{IsRecord};

use crate::order::Order;
use crate::token::Token;
use std::marker::Model;
use xh_arena::Lot;

/// It stands for one process, and holds the slots of the records that the process owns. It may go to
/// another thread.
#[derive(Drop)]
pub struct Seat<B> {
    pub(crate) token: Token<B>,
    // The slots, in the order of the token's list.
    pub(crate) order: Order,
    pub(crate) process: u16,
}

impl<B> Model for Seat<B> {
    ghost use Rattle.xh_records.specs.Seats.{Held};
    ghost use Rattle.xh_records.specs.inner.Views.{front_in};
    ghost use Rattle.xh_records.specs.inner.Tokens.{IsSeat, numbered};

    ghost Value = { Held B };

    ghost view = { λ s. record {
      table = s.token.table_id;
      id = s.token.id;
      shape = s.token.me.0.shape;
      process = s.process;
      lots = numbered s.token.me.0.shape.records s.token.me.1;
      front = front_in s.token.me.0;
    } };

    ghost invariant = { λ s. IsSeat s.process s.order.items s.order.capacity s.token.table_id.slots s.token.me };
}

impl<B> Seat<B> {
    /// The number of the process that it stands for: its place, and 32 times its generation.
    pub fn process(&self) -> u16
        ensures { result ≡ self.now.process }
    {
        self.process
    }

    /// How many records it holds. Each is a record of the table, and the seat has that record's own
    /// lot.
    pub fn count(&self) -> usize
        ensures count { result ≡ length self.now.lots }
        ensures few { result ≤ self.now.table.slots }
        ensures lots { (r : ℕ) (l : LotOf B) → value_at r self.now.lots ≡ Some l → IsRecord self.now.shape r × IsLotOf self.now.shape r l }
    {
        self.order.len()
    }
}
