// Lends the lots of records that a seat holds.
ghost use Rattle.std.specs.Prelude.{◌≡◌, ◌≢◌, ◌∷◌, ℕ, Some, Option};
ghost use Rattle.std.specs.Borrow.{MutBor};
ghost use Rattle.std.specs.Fn.{CalledAtMut, CalledAtPairMut};
ghost use mathlib.Core.Option.{some};
ghost use lib.ListN.{get_elem?};
ghost use Rattle.xh_arena.specs.Views.{LotOf};
ghost use Rattle.xh_model.specs.Keyed.{put, value_at};
ghost use Rattle.xh_records.specs.Showing.{IsLotOf};
ghost use Rattle.xh_records.specs.Seats.{IsSeatOf, IsRecord, with_lots};
ghost use Rattle.xh_records.specs.inner.Tokens.{IsListed, in_slot};

use crate::records::Records;
use crate::seat::Seat;
use crate::token::{Board, Token, turn_by, turn_to};
use xh_arena::{Fits, Lot};

// One call of `f` at `x`.
fn call_at<X, A, F: FnMut(&mut X) -> A>(f: &mut F, x: &mut X) -> A
    requires { (lent : MutBor X) → lent.now ≡ x.old → F.pre f.old lent }
    ensures { CalledAtMut F.FnMut f.old x.old result f.new x.new }
{
    f(x)
}

// One call of `f` at `x` and `y`.
fn call_at_two<X, A, F: FnMut(&mut X, &mut X) -> A>(f: &mut F, x: &mut X, y: &mut X) -> A
    requires { (p q : MutBor X) → p.now ≡ x.old → q.now ≡ y.old → F.pre f.old p q }
    ensures { CalledAtPairMut F.FnMut f.old x.old y.old result f.new x.new y.new }
{
    f(x, y)
}

// One call of `f` at the lot in a slot that the token holds, where it lies. The list keeps its order.
fn call_in<B: Fits, A, F: FnMut(&mut Lot<B>) -> A>(
    board: &Board<B>,
    token: &mut Token<B>,
    order: &[u16],
    slot: u16,
    f: &mut F,
) -> A
    requires own { token.old.table_id ≡ board.now.table_id }
    requires listed { IsListed order.now token.old.me.1 slot }
    requires lot { (l : LotOf B) × (in_slot slot token.old.me.1 ≡ Some l) × ((lent : MutBor (LotOf B)) → lent.now ≡ l → F.pre f.old lent) }
    ensures token { (token.new.table_id ≡ token.old.table_id) × (token.new.id ≡ token.old.id) }
    ensures called { (l : LotOf B) × (left : LotOf B) × (in_slot slot token.old.me.1 ≡ Some l) × CalledAtMut F.FnMut f.old l result f.new left
        × (token.new.me ≡ (token.old.me.0, put slot (Some left) token.old.me.1)) }
{
    let k = turn_to(token, order, slot);
    let Some(lot) = token.slot_mut(board, usize::from(slot)) else {
        unreachable!()
    };
    let answer = call_at(f, lot);
    turn_by(token, order.len() - k);
    answer
}

// Puts a lot or nothing into a slot that the token holds, and gives what was there. The list keeps its order.
#[inline(always)]
fn swap_slot<B: Fits>(
    board: &Board<B>,
    token: &mut Token<B>,
    order: &[u16],
    slot: u16,
    new: Option<Lot<B>>,
) -> Option<Lot<B>>
    requires own { token.old.table_id ≡ board.now.table_id }
    requires listed { IsListed order.now token.old.me.1 slot }
    ensures token { (token.new.table_id ≡ token.old.table_id) × (token.new.id ≡ token.old.id) × (token.new.me ≡ (token.old.me.0, put slot new token.old.me.1)) }
    ensures value { result ≡ in_slot slot token.old.me.1 }
{
    let k = turn_to(token, order, slot);
    let found = board.exchange(token, usize::from(slot), new);
    turn_by(token, order.len() - k);
    found
}

impl<B: Fits + Drop> Records<B> {
    /// Lends the lot of a record that the seat holds to one call of `f`, and gives its answer. `f`
    /// leaves the lot of that record there.
    pub fn with_lot<A, F: FnMut(&mut Lot<B>) -> A>(
        &self,
        seat: &mut Seat<B>,
        number: u16,
        f: &mut F,
    ) -> A
        requires own { IsSeatOf self.now seat.old }
        requires exists { IsRecord self.now.shape number }
        requires held { (l : LotOf B) × (value_at number seat.old.lots ≡ Some l) × ((lent : MutBor (LotOf B)) → lent.now ≡ l → F.pre f.old lent)
            × ((answer : A) (after : F) (left : LotOf B) → CalledAtMut F.FnMut f.old l answer after left → IsLotOf seat.old.shape number left) }
        ensures { (l : LotOf B) × (left : LotOf B) × (value_at number seat.old.lots ≡ Some l) × CalledAtMut F.FnMut f.old l result f.new left
            × (seat.new ≡ with_lots seat.old (put number left seat.old.lots)) }
    {
        let board = &self.table.shared;
        let slot = self.slot_of(number);
        call_in(board, &mut seat.token, seat.order.as_slice(), slot, f)
    }

    /// Lends the lots of two different records that the seat holds to one call of `f`, and gives its
    /// answer. `f` leaves the lot of each record in its place.
    pub fn with_two<A, F: FnMut(&mut Lot<B>, &mut Lot<B>) -> A>(
        &self,
        seat: &mut Seat<B>,
        first: u16,
        second: u16,
        f: &mut F,
    ) -> A
        requires own { IsSeatOf self.now seat.old }
        requires exists { IsRecord self.now.shape first × IsRecord self.now.shape second × (first ≢ second) }
        requires held { (l m : LotOf B) × (value_at first seat.old.lots ≡ Some l) × (value_at second seat.old.lots ≡ Some m) × ((x y : MutBor (LotOf B)) → x.now ≡ l → y.now ≡ m → F.pre f.old x y)
            × ((answer : A) (after : F) (left also : LotOf B) → CalledAtPairMut F.FnMut f.old l m answer after left also → IsLotOf seat.old.shape first left × IsLotOf seat.old.shape second also) }
        ensures { (l m left also : LotOf B) × (value_at first seat.old.lots ≡ Some l) × (value_at second seat.old.lots ≡ Some m) × CalledAtPairMut F.FnMut f.old l m result f.new left also
            × (seat.new ≡ with_lots seat.old (put second also (put first left seat.old.lots))) }
    {
        let board = &self.table.shared;
        let i = self.slot_of(first);
        let j = self.slot_of(second);
        let order = seat.order.as_slice();
        // The kit's table lends one slot at a time.
        let mut also = swap_slot(board, &mut seat.token, order, j, None).unwrap();
        let k = turn_to(&mut seat.token, order, i);
        let Some(left) = seat.token.slot_mut(board, usize::from(i)) else {
            unreachable!()
        };
        let answer = call_at_two(f, left, &mut also);
        turn_by(&mut seat.token, order.len() - k);
        drop(swap_slot(board, &mut seat.token, order, j, Some(also)));
        answer
    }
}
