// Takes the table apart.
ghost use Rattle.std.specs.Prelude.{◌≡◌, ℕ, ◌+◌, ◌<◌, ◌≤◌, [], length, slice_get, slice_index_or, slice_set, true, false, Some, None, IfOk, vec_len, vec_capacity};
ghost use Rattle.std.specs.Slots.{slots_items, slots_filled, slots_len, IsFull as IsWhole};
ghost use mathlib.Core.Option.{some};
ghost use lib.ListN.{get_elem?};
ghost use Rattle.xh_arena.specs.Views.{LotOf};
ghost use Rattle.xh_model.specs.Keyed.{Among};
ghost use Rattle.xh_records.specs.Seats.{Ends, Held, IsSeatOf, lot_in};
ghost use Rattle.xh_records.specs.inner.Views.{indices, view_of};
ghost use Rattle.xh_records.specs.inner.Gathering.{slot_at, or_else, IsGathered};

use crate::plays::Whole;
use crate::records::Records;
use crate::refused::Refused;
use crate::seat::Seat;
use crate::token::{Board, Token, join};
use atomic_table::Closed;
use std::alloc::{AllocError, Global};
use xh_arena::{Fits, Lot};

// Slots with no lot.
fn nones<L: Drop>(alloc: Global, count: usize) -> Result<Vec<Option<L>>, AllocError>
    ensures { IfOk result (λ v. (vec_len v ≡ count) × ((k : ℕ) → slot_at v.items k ≡ None)) }
{
    let mut held = Vec::with_capacity(alloc, count)?;
    for _ in 0..count {
        held.push_reserved(None);
    }
    Ok(held)
}

// Room for the words and the lots of so many slots, and as many slots with no lot.
fn room_for<L: Drop>(
    alloc: Global,
    count: usize,
) -> Result<(Vec<u64>, Vec<L>, Vec<Option<L>>), AllocError>
    ensures room { IfOk result (λ r. (r.0.items ≡ []) × (r.1.items ≡ []) × (count ≤ vec_capacity r.0) × (count ≤ vec_capacity r.1)) }
    ensures slots { IfOk result (λ r. (vec_len r.2 ≡ count) × ((k : ℕ) → slot_at r.2.items k ≡ None)) }
{
    let words = Vec::with_capacity(alloc, count)?;
    let lots = Vec::with_capacity(alloc, count)?;
    let held = nones(alloc, count)?;
    Ok((words, lots, held))
}

// Takes the lot of a slot: the one that was held, or else the one at home.
fn lot_left<L: Drop>(
    closed: &mut Closed<Option<L>, Global>,
    held: &mut Vec<Option<L>>,
    slot: usize,
) -> L
    requires home { (slot < slots_len closed.old.slots) × (slice_index_or (slots_filled closed.old.slots) slot false ≡ true) }
    requires held { slot < vec_len held.old }
    requires some_lot { (l : L) × (or_else (slot_at held.old.items slot) (slot_at (slots_items closed.old.slots) slot) ≡ Some l) }
    ensures lot { or_else (slot_at held.old.items slot) (slot_at (slots_items closed.old.slots) slot) ≡ Some result }
    ensures closed { (slots_items closed.new.slots ≡ slots_items closed.old.slots) × (slots_filled closed.new.slots ≡ slice_set (slots_filled closed.old.slots) slot false)
        × (slots_len closed.new.slots ≡ slots_len closed.old.slots) × (closed.new.words ≡ closed.old.words) }
    ensures held { held.new.items ≡ slice_set held.old.items slot None }
{
    let home = closed.take(slot);
    let lot = held[slot].take();
    lot.or(home).unwrap()
}

// Reads all words, and takes for each slot the lot that was held, or else the one at home.
fn unload<L: Drop>(
    mut closed: Closed<Option<L>, Global>,
    mut held: Vec<Option<L>>,
    mut words: Vec<u64>,
    mut lots: Vec<L>,
) -> (Vec<u64>, Vec<L>)
    requires full { IsWhole closed.words × IsWhole closed.slots × (slots_len closed.words ≡ slots_len closed.slots) × (vec_len held ≡ slots_len closed.slots) }
    requires room { (words.items ≡ []) × (lots.items ≡ []) × (slots_len closed.slots ≤ vec_capacity words) × (slots_len closed.slots ≤ vec_capacity lots) }
    requires some_lot { (k : ℕ) → k < slots_len closed.slots → (l : L) × (or_else (slot_at held.items k) (slot_at (slots_items closed.slots) k) ≡ Some l) }
    ensures words { result.0.items ≡ slots_items closed.words }
    ensures long { length result.1.items ≡ slots_len closed.slots }
    ensures lots { (k : ℕ) (l : L) → get_elem? result.1.items k ≡ some l → or_else (slot_at held.items k) (slot_at (slots_items closed.slots) k) ≡ Some l }
{
    for slot in 0..closed.slot_count() {
        words.push_reserved(closed.word(slot));
        lots.push_reserved(lot_left(&mut closed, &mut held, slot));
    }
    closed.free();
    (words, lots)
}

// Takes a seat's lots out of its slots, and gives its whole view.
fn empty_out<B: Fits + Drop>(
    board: &Board<B>,
    seat: Seat<B>,
    held: &mut Vec<Option<Lot<B>>>,
) -> Token<B>
    requires own { (seat.table ≡ board.now.table_id) × (0 < board.now.table_id.words) }
    requires long { vec_len held.old ≡ board.now.table_id.slots }
    ensures token { (result.table_id ≡ seat.table) × (result.me ≡ (view_of seat, [])) }
    ensures long { vec_len held.new ≡ vec_len held.old }
    ensures full { (k : ℕ) → Among (indices seat) k → (l : LotOf B) × (lot_in k seat ≡ Some l) }
    ensures lots { (k : ℕ) → k < vec_len held.old → slot_at held.new.items k ≡ or_else (lot_in k seat) (slot_at held.old.items k) }
{
    let Seat {
        mut token,
        order,
        process: _,
    } = seat;
    for k in 0..order.len() {
        let at = order.as_slice()[k];
        let slot = usize::from(at);
        let lot = board.exchange(&mut token, slot, None);
        held[slot] = lot;
        token.turn();
    }
    board.split_seat::<Whole>(&mut token)
}

// Empties all seats, and joins their views.
fn join_all<B: Fits + Drop>(
    board: &Board<B>,
    mut seats: Vec<Seat<B>>,
    held: &mut Vec<Option<Lot<B>>>,
) -> Token<B>
    requires own { (k : ℕ) (x : Held B) → get_elem? seats.items k ≡ some x → x.table ≡ board.now.table_id }
    requires some_seat { (0 < vec_len seats) × (0 < board.now.table_id.words) }
    requires long { vec_len held.old ≡ board.now.table_id.slots }
    requires none { (k : ℕ) → k < vec_len held.old → slot_at held.old.items k ≡ None }
    ensures token { (result.table_id ≡ board.now.table_id) × (result.me.1 ≡ []) }
    ensures gathered { IsGathered 0 seats.items result.me.0 held.new.items }
    ensures long { vec_len held.new ≡ vec_len held.old }
{
    let Some(last) = seats.pop() else {
        unreachable!()
    };
    let mut token = empty_out(board, last, held);
    while let Some(seat) = seats.pop() {
        let other = empty_out(board, seat, held);
        join(board, &mut token, other);
    }
    token
}

impl<B: Fits + Drop> Records<B> {
    /// Takes the table apart, with the seats of all its places in any order: the owner word of each
    /// record, and its lot, which its seat had or which was at home, in the order of the records.
    /// OutOfMemory where a growth was refused; all that was handed in is then dropped.
    pub fn close(
        self,
        alloc: Global,
        seats: Vec<Seat<B>>,
    ) -> Result<(Vec<u64>, Vec<Lot<B>>), Refused>
        requires own { (k : ℕ) (x : Held B) → slice_get seats.items k ≡ Some x → IsSeatOf self x }
        requires all { vec_len seats ≡ self.shape.places }
        ensures { IfOk result (λ r. Ends B.is_fit self.shape seats.items r.0.items r.1.items) }
    {
        let (words, lots, mut held) = room_for(alloc, self.table.slot_count())?;
        let token = join_all(&self.table.shared, seats, &mut held);
        let Records {
            table,
            arenas: _,
            records: _,
            hints: _,
        } = self;
        Ok(unload(table.close_with(token), held, words, lots))
    }
}
