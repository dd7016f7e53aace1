// Makes the table, and a seat for each place.
ghost use Rattle.std.specs.Prelude.{◌≡◌, ℕ, ◌<◌, ◌≤◌, [], length, IfOk, Some, map, replicate};
ghost use mathlib.Core.Option.{some};
ghost use lib.ListN.{get_elem?};
ghost use Rattle.xh_arena.specs.Views.{LotOf};
ghost use Rattle.xh_model.specs.declared.limits.TheConstants.{PLACES};
ghost use Rattle.xh_records.specs.Showing.{IsEmpty, IsLotAt, IsSmall};
ghost use Rattle.xh_records.specs.Seats.{Held};
ghost use Rattle.xh_records.specs.inner.Views.{dealer};

use crate::order::Order;
use crate::plays::Deal;
use crate::refused::Refused;
use crate::rule::Showing;
use crate::seat::Seat;
use crate::shape::Shape;
use crate::token::{Board, Token};
use crate::view::View;
use atomic_table::Table;
use std::alloc::{AllocError, Global};
use xh_arena::{Fits, Lot};

/// The table itself, which its seats share.
pub(crate) type LotTable<B> = Table<Option<Lot<B>>, View<B>, Shape, Showing<B>, Global>;

// A word of no holder and a slot for each lot.
fn homes_of<L: Drop>(alloc: Global, lots: Vec<L>) -> Result<(Vec<u64>, Vec<Option<L>>), AllocError>
    ensures { IfOk result (λ h. (h.0.items ≡ replicate (length lots.items) 0) × (h.1.items ≡ map Some lots.items)) }
{
    let words = vec![in alloc; 0u64; lots.len()]?;
    let slots = lots.into_iter().map(|lot| Some(lot)).collect(alloc)?;
    Ok((words, slots))
}

// The table over empty lots, each record free, and one token that stands for all places.
pub(crate) fn table_of<B: Fits + Drop>(
    alloc: Global,
    lots: Vec<Lot<B>>,
    shape: &Shape,
) -> Result<(LotTable<B>, Token<B>), Refused>
    requires limits { (shape.now.places ≤ PLACES) × IsSmall shape.now }
    requires empty { (k : ℕ) (l : LotOf B) → get_elem? lots.items k ≡ some l → IsLotAt shape.now k l × IsEmpty B.is_fit l }
    ensures { IfOk result (λ t. (t.0.shared.table_id.words ≡ length lots.items) × (t.0.shared.table_id.slots ≡ length lots.items) × (t.0.shared.key ≡ shape.now)
        × (t.1.table_id ≡ t.0.shared.table_id) × (t.1.me.0 ≡ dealer shape.now 0 shape.now.places)) }
{
    let (words, slots) = homes_of(alloc, lots)?;
    match Table::new(alloc, words.as_slice(), slots, shape) {
        Ok(made) => Ok(made),
        Err(_refused) => Err(Refused::OutOfMemory),
    }
}

// A seat for each of the places that the token stands for, with room for so many slots.
pub(crate) fn seats_of<B: Fits>(
    alloc: Global,
    board: &Board<B>,
    all: &mut Token<B>,
    count: usize,
    places: u8,
) -> Result<Vec<Seat<B>>, AllocError>
    requires own { (all.old.table_id ≡ board.now.table_id) × (0 < board.now.table_id.words) }
    requires room { board.now.table_id.slots ≤ count }
    requires view { all.old.me.0 ≡ dealer board.now.key 0 places }
    requires small { IsSmall board.now.key }
    ensures long { IfOk result (λ seats. length seats.items ≡ places) }
    ensures seats { IfOk result (λ seats. (k : ℕ) (x : Held B) → get_elem? seats.items k ≡ some x → (x.table ≡ board.now.table_id) × (x.shape ≡ board.now.key) × (x.process ≡ k)
        × (x.lots ≡ []) × (x.front ≡ [])) }
{
    let mut seats = Vec::with_capacity(alloc, usize::from(places))?;
    for place in 0..places {
        let order = Order::with_capacity(alloc, count)?;
        let token = board.split_seat::<Deal>(all);
        let process = u16::from(place);
        seats.push_reserved(Seat {
            token,
            order,
            process,
        });
    }
    Ok(seats)
}
