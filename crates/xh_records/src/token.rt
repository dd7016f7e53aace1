// Single steps of a token: on the word in one slot and what the slot has, and those that change views alone.
ghost use Rattle.std.specs.Prelude.{◌≡◌, ◌≢◌, ℕ, ◌+◌, ◌-◌, ◌<◌, ◌≤◌, ◌==◌, false, List, [], ◌∷◌, ◌++◌, length, slice_index, Some, Option, OnOk, IfErr};
ghost use mathlib.Core.Option.{none, some};
ghost use prog.Atomic.{either};
ghost use lib.ListN.{get_elem?};
ghost use Rattle.atomic_table.specs.Table.{step, Allows};
ghost use Rattle.xh_arena.specs.Views.{LotOf};
ghost use Rattle.xh_model.specs.Words.{word_of, IsHolder};
ghost use Rattle.xh_model.specs.Keyed.{without};
ghost use Rattle.xh_records.specs.declared.token.TheConstants.{NEAR};
ghost use Rattle.xh_records.specs.Deeds.{Arrives, Deed};
ghost use Rattle.xh_records.specs.Encoding.{holder_of};
ghost use Rattle.xh_records.specs.Showing.{Shown, IsLotAt, Owns, Sits};
ghost use Rattle.xh_records.specs.inner.Events.{IsAway, IsHomeLot};
ghost use Rattle.xh_records.specs.declared.view.View.{View};
ghost use Rattle.xh_records.specs.inner.Views.{IsAlone, front_in, gained, joined, lost, note_of};
ghost use Rattle.xh_records.specs.inner.Steps.{IsOthers, SeesMore, process_in};
ghost use Rattle.xh_records.specs.History.{IsOneLog};
ghost use Rattle.xh_records.specs.inner.Tokens.{IsListed, IsTurned, in_slot, turns};

use crate::plays::{Both, Compares, Gives, Takes};
use crate::rule::Showing;
use crate::shape::Shape;
use crate::view::View;
use crate::word::OwnerWord;
use atomic_table::{Play, Shared};
use xh_arena::{Fits, Lot};

/// The table, as all threads share it.
pub(crate) type Board<B> = Shared<Option<Lot<B>>, View<B>, Shape, Showing<B>>;

/// What a seat has at the table: its view, and its slots. The table calls that a seat, too.
pub(crate) type Token<B> = atomic_table::Seat<Option<Lot<B>>, View<B>>;

// Turns the token's list so many times.
pub(crate) fn turn_by<B>(token: &mut Token<B>, count: usize)
    ensures { (token.new.table_id ≡ token.old.table_id) × (token.new.id ≡ token.old.id) × (token.new.me ≡ (token.old.me.0, turns count token.old.me.1)) }
{
    for done in 0..count {
        token.turn();
    }
}

// How many slots are compared at once: a place in the middle of many is found some eight times sooner so.
const NEAR: usize = 32;

// Whether one of the slots from k on, so many, is this one. It compares all of them, which takes less time than stopping early.
fn is_near(order: &[u16], k: usize, slot: u16) -> bool
    requires { k + NEAR ≤ length order.now }
    ensures { result ≡ false → (j : ℕ) → k ≤ j → j < k + NEAR → slice_index order.now j ≢ slot }
{
    let mut near = false;
    for at in k..k + NEAR {
        near |= order[at] == slot;
    }
    near
}

// An end behind the slot's place, and near it, seen from the end of the order.
fn skip_far(order: &[u16], slot: u16) -> usize
    requires { (k : ℕ) × (get_elem? order.now k ≡ some slot) }
    ensures { (k : ℕ) × (k < result) × (result ≤ length order.now) × (get_elem? order.now k ≡ some slot) }
{
    let mut end = order.len();
    while end >= NEAR && !is_near(order, end - NEAR, slot) {
        end -= NEAR;
    }
    end
}

// Where the slot stands in the order: at its end, at its front, or else as seen from its end.
#[tactic(auto, using(crate::proofs::Elements::in_range))]
fn position(order: &[u16], slot: u16) -> usize
    requires { (k : ℕ) × (get_elem? order.now k ≡ some slot) }
    ensures { get_elem? order.now result ≡ some slot }
{
    let last = order.len() - 1;
    if order[last] == slot {
        return last;
    }
    if order[0] == slot {
        return 0;
    }
    let mut k = skip_far(order, slot) - 1;
    while order[k] != slot {
        k -= 1;
    }
    k
}

// Where the slot stands, by a search that ends with the order: the compiler leaves it out where the answer serves the proof alone.
#[inline(always)]
fn plain_position(order: &[u16], slot: u16) -> usize
    requires { (k : ℕ) × (get_elem? order.now k ≡ some slot) }
    ensures { get_elem? order.now result ≡ some slot }
{
    for k in 0..order.len() {
        if order[k] == slot {
            return k;
        }
    }
    0
}

// Turns the token's list until this slot is first, and answers where it stood: as many turns as stood from there on bring the list back.
#[inline(always)]
pub(crate) fn turn_to<B>(token: &mut Token<B>, order: &[u16], slot: u16) -> usize
    requires { IsListed order.now token.old.me.1 slot }
    ensures same { (token.new.table_id ≡ token.old.table_id) × (token.new.id ≡ token.old.id) × (token.new.me.0 ≡ token.old.me.0) }
    ensures place { (result < length order.now) × (get_elem? order.now result ≡ some slot) }
    ensures turned { IsTurned slot token.old.me.1 token.new.me.1 (length order.now - result) }
{
    let k = plain_position(order, slot);
    turn_by(token, k);
    k
}

// Takes the slot of a record that it finds free, or in flight, for a process, behind the token's other slots. The error is the word that it found, which says something else.
pub(crate) fn take_slot<B: Fits>(
    board: &Board<B>,
    token: &mut Token<B>,
    slot: u16,
    from: OwnerWord,
    process: u16,
) -> Result<(), u64>
    requires own { token.old.table_id ≡ board.now.table_id }
    requires inside { (slot < board.now.table_id.words) × (slot < board.now.table_id.slots) }
    requires process { IsAlone token.old.me.0 process }
    requires away { IsAway (holder_of from) }
    ensures same { (token.new.table_id ≡ token.old.table_id) × (token.new.id ≡ token.old.id) }
    ensures taken { OnOk result ((l : LotOf B) × (others : List (Deed B)) × (token.new.me ≡ (gained token.old.me.0 slot process (holder_of from) l others, token.old.me.1 ++ (slot, Some l) ∷ []))
        × IsOthers token.old.me.0 others × IsLotAt token.old.me.0.shape slot l × IsHomeLot B.is_fit (holder_of from) l
        × ((p : ℕ) → Owns token.old.me.0 slot p → ⊥) × Arrives (front_in token.new.me.0)) }
    ensures missed { IfErr result (λ word. (word ≢ word_of (holder_of from)) × SeesMore slot word token.old.me token.new.me) }
{
    let wanted = from.encode();
    let owned = OwnerWord::Owned(process).encode();
    let at = usize::from(slot);
    let found = board.compare_exchange::<Takes>(token, at, wanted, owned);
    if found != wanted {
        return Err(found);
    }
    token.turn();
    Ok(())
}

// Stores the word of a record whose lot goes home. It answers where the slot stood in the order, and the lot's bytes.
pub(crate) fn give_slot<B: Fits>(
    board: &Board<B>,
    token: &mut Token<B>,
    order: &[u16],
    slot: u16,
    to: OwnerWord,
) -> (usize, u32)
    requires own { (token.old.table_id ≡ board.now.table_id) × (slot < board.now.table_id.words) }
    requires listed { IsListed order.now token.old.me.1 slot }
    requires away { IsAway (holder_of to) × IsHolder (holder_of to) }
    requires lot { (l : LotOf B) × (in_slot slot token.old.me.1 ≡ Some l) × IsLotAt token.old.me.0.shape slot l × IsHomeLot B.is_fit (holder_of to) l }
    requires owned { (p : ℕ) × IsAlone token.old.me.0 p × Owns token.old.me.0 slot p }
    ensures token { (token.new.table_id ≡ token.old.table_id) × (token.new.id ≡ token.old.id) }
    ensures given { (others : List (Deed B)) × IsOthers token.old.me.0 others × ((l : LotOf B) → in_slot slot token.old.me.1 ≡ Some l → token.new.me ≡
        (lost token.old.me.0 slot (process_in token.old.me.0) (holder_of to) l others, without slot token.old.me.1)) }
    ensures place { get_elem? order.now result.0 ≡ some slot }
    ensures len { (l : LotOf B) → in_slot slot token.old.me.1 ≡ Some l → result.1 ≡ l.len }
{
    let k = position(order, slot);
    turn_by(token, k);
    let at = usize::from(slot);
    let Some(lot) = token.slot_mut(board, at) else {
        unreachable!()
    };
    let len = lot.len();
    let word = to.encode();
    board.store::<Gives>(token, at, word);
    turn_by(token, order.len() - k - 1);
    (k, len)
}

// The other token, which has no slot, gives its view to this one, which stands for a place.
pub(crate) fn join<B: Fits>(board: &Board<B>, token: &mut Token<B>, other: Token<B>)
    requires own { (token.old.table_id ≡ board.now.table_id) × (other.table_id ≡ board.now.table_id) × (0 < board.now.table_id.words) }
    requires empty { other.me.1 ≡ [] }
    requires place { (p : ℕ) × Sits token.old.me.0 p }
    ensures token { (token.new.table_id ≡ token.old.table_id) × (token.new.id ≡ token.old.id) × (token.new.me ≡ (joined token.old.me.0 other.me.0, token.old.me.1)) }
{
    board.join_seat::<Both>(token, other);
}

// Shows that of what the token has seen and what the note tells one is a beginning of the other.
pub(crate) fn compare_note<B: Fits>(board: &Board<B>, token: &mut Token<B>, other: Token<B>)
    requires own { (token.old.table_id ≡ board.now.table_id) × (other.table_id ≡ board.now.table_id) × (0 < board.now.table_id.words) × (0 < board.now.table_id.slots) }
    requires note { (v : View B) × (other.me ≡ (note_of v, [])) }
    requires process { (p : ℕ) × IsAlone token.old.me.0 p }
    ensures token { (token.new.table_id ≡ token.old.table_id) × (token.new.id ≡ token.old.id) × (token.new.me ≡ token.old.me) }
    ensures one { IsOneLog (front_in token.old.me.0) (front_in other.me.0) }
{
    join(board, token, other);
    board.load::<Compares>(token, 0);
}
