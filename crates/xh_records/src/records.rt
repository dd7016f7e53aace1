ghost use Rattle.std.specs.Prelude.{◌≡◌, ◌≢◌, ℕ, ◌+◌, ◌*◌, ◌/◌, ◌%◌, ◌<◌, ◌≤◌, [], ◌∷◌, ◌++◌, length, slice_get, slice_index, None, Some, IfOk, IfErr, OnErr, OnOk, MatchBool};
ghost use mathlib.Core.Option.{none};
ghost use Rattle.xh_arena.specs.Views.{LotOf};
ghost use Rattle.xh_model.specs.declared.event.Event.TheVariants.{Claim, Vacate, Pass, Accept};
ghost use Rattle.xh_model.specs.declared.event.Holder.TheVariants.{Direction};
ghost use Rattle.xh_model.specs.declared.limits.TheConstants.{DIRECTIONS, GENERATIONS, MAX_ARENAS, MAX_RECORDS, PLACES};
ghost use Rattle.xh_model.specs.Slots.{index_of};
ghost use Rattle.xh_model.specs.Words.{word_of, IsHolder, IsWord, generation_of};
ghost use Rattle.xh_model.specs.Keyed.{Among, keys, value_at, without};
ghost use Rattle.xh_records.specs.Encoding.{holder_of};
ghost use Rattle.xh_records.specs.Showing.{IsLotOf, IsEmpty, IsFull};
ghost use Rattle.xh_records.specs.History.{IsOneLog};
ghost use Rattle.xh_records.specs.Seats.{SawTaken};
ghost use Rattle.xh_records.specs.inner.Events.{taking, giving, IsAway, IsHomeLot};

use crate::hints::Hints;
use crate::making::{LotTable, seats_of, table_of};
use crate::plays::{LooksAtRecord, Notes, Renews};
use crate::refused::Refused;
use crate::seat::Seat;
use crate::seen::Seen;
use crate::shape::Shape;
use crate::token::{compare_note, give_slot, take_slot};
use crate::word::OwnerWord;
use arrayvec::ArrayVec;
use std::alloc::Global;
use std::collections::LinkedList;
use std::marker::Model;
use xh_arena::{Fits, Lot, VaultName};
use xh_model::limits::{MAX_RECORDS, PLACES};

/// The owner words of all records, and the slots of their lots.
#[derive(Drop)]
pub struct Records<B: Fits> {
    pub(crate) table: LotTable<B>,
    pub(crate) arenas: u8,
    pub(crate) records: u16,
    pub(crate) hints: Hints,
}

impl<B: Fits> Model for Records<B> {
    ghost use Rattle.xh_records.specs.Seats.{RecordsOf};
    ghost use Rattle.xh_records.specs.inner.Tokens.{IsTable};

    ghost Value = { RecordsOf };

    ghost view = { λ r. record { table = r.table.shared.table_id; shape = r.table.shared.key } };

    ghost invariant = { λ r. IsTable r.table.shared.table_id r.table.shared.key r.arenas r.records };
}

// A claim that goes so far past a hint moves it. With up to so many blocks in an arena no hint is stored.
const FAR: u16 = 16;

// The number of a record of an arena.
fn number_at(arena: u8, index: u16) -> u16
    requires { index < MAX_RECORDS }
    ensures { (result / MAX_RECORDS ≡ arena) × (result % MAX_RECORDS ≡ index) }
{
    u16::from(arena) * MAX_RECORDS + index
}

impl<B: Fits + Drop> Records<B> {
    ghost use Rattle.xh_records.specs.Deeds.{Arrives};
    ghost use Rattle.xh_records.specs.Seats.{Held, IsSeatOf, IsRecord, HasGained, HasLooked, HasLost, HasSeenWord};

    /// A table over the empty lots of whole vaults, one after the other, each of `records` lots (1 to
    /// 256), which have these names; and a seat for each of the `places` (1 to 32) at its first
    /// generation. Each record is free. OutOfMemory where a growth was refused.
    pub fn new(
        alloc: Global,
        lots: Vec<Lot<B>>,
        names: LinkedList<VaultName>,
        records: u16,
        places: u8,
    ) -> Result<(Records<B>, Vec<Seat<B>>), Refused>
        requires limits { (0 < records) × (records ≤ MAX_RECORDS) × (0 < places) × (places ≤ PLACES) }
        requires few { length names ≤ MAX_ARENAS }
        requires whole { (0 < length lots.items) × (length lots.items ≡ length names * records) }
        requires empty { (k : ℕ) (l : LotOf B) → slice_get lots.items k ≡ Some l → (l.index ≡ k % records) × (slice_get names (k / records) ≡ Some l.id) × IsEmpty B.is_fit l }
        ensures shape { IfOk result (λ r. r.0.shape ≡ record { records = records; places = places; names = names }) }
        ensures slots { IfOk result (λ r. r.0.table.slots ≡ length lots.items) }
        ensures seats { IfOk result (λ r. (length r.1.items ≡ places) × ((k : ℕ) (x : Held B) → slice_get r.1.items k ≡ Some x → IsSeatOf r.0 x
            × (x.process ≡ k) × (x.lots ≡ []) × (x.front ≡ []))) }
    {
        let count = lots.len();
        let arenas = names.len();
        let shape = Shape {
            records: u64::from(records),
            places: u64::from(places),
            names,
        };
        let (table, mut dealer) = table_of(alloc, lots, &shape)?;
        let seats = seats_of(alloc, &table.shared, &mut dealer, count, places)?;
        let all = Records {
            table,
            arenas: arenas as u8,
            records,
            hints: Hints::new(),
        };
        Ok((all, seats))
    }

    /// How many arenas there are.
    pub fn arenas(&self) -> u8
        ensures { (result ≡ length self.now.shape.names) × (result ≤ MAX_ARENAS) }
    {
        self.arenas
    }

    /// How many records each arena has.
    pub fn per_arena(&self) -> u16
        ensures { (result ≡ self.now.shape.records) × (0 < result) × (result ≤ MAX_RECORDS) × (self.now.table.slots ≡ length self.now.shape.names * self.now.shape.records) }
    {
        self.records
    }

    /// Whether there is a record of this number: 256 times its arena, and its index there.
    pub fn has(&self, number: u16) -> bool
        ensures { MatchBool result (IsRecord self.now.shape number) (IsRecord self.now.shape number → ⊥) }
    {
        number / MAX_RECORDS < u16::from(self.arenas) && number % MAX_RECORDS < self.records
    }

    // Where a record's word and slot are.
    pub(crate) fn slot_of(&self, number: u16) -> u16
        requires { IsRecord self.now.shape number }
        ensures index { result ≡ index_of self.now.shape.records number }
        ensures inside { (result < self.now.table.words) × (result < self.now.table.slots) }
    {
        number / MAX_RECORDS * self.records + number % MAX_RECORDS
    }

    // One compare on a record's word, which takes the record where it finds it as wanted. The error is the word that it found, which says something else.
    fn take(&self, seat: &mut Seat<B>, number: u16, from: OwnerWord) -> Result<(), u64>
        requires own { IsSeatOf self.now seat.old }
        requires exists { IsRecord self.now.shape number }
        requires away { IsAway (holder_of from) }
        ensures arrives { OnOk result (Arrives seat.new.front) }
        ensures taken { OnOk result (HasGained (taking seat.old.process number (holder_of from)) (IsHomeLot B.is_fit (holder_of from)) seat.old seat.new) }
        ensures fresh { OnOk result (Among (keys seat.old.lots) number → ⊥) }
        ensures missed { IfErr result (λ word. (word ≢ word_of (holder_of from)) × HasSeenWord number word seat.old seat.new) }
    {
        let slot = self.slot_of(number);
        match take_slot(
            &self.table.shared,
            &mut seat.token,
            slot,
            from,
            seat.process,
        ) {
            Ok(()) => {
                seat.order.push_reserved(slot);
                Ok(())
            }
            Err(word) => Err(word),
        }
    }

    // One store on the word of a record that the seat holds, whose lot goes home. It answers the lot's bytes.
    fn give(&self, seat: &mut Seat<B>, number: u16, to: OwnerWord) -> u32
        requires own { IsSeatOf self.now seat.old }
        requires exists { IsRecord self.now.shape number }
        requires away { IsAway (holder_of to) × IsHolder (holder_of to) }
        requires held { (l : LotOf B) × (value_at number seat.old.lots ≡ Some l) × IsHomeLot B.is_fit (holder_of to) l }
        ensures given { (l : LotOf B) → value_at number seat.old.lots ≡ Some l → HasLost (giving seat.old.process number (holder_of to)) l seat.old seat.new }
        ensures len { (l : LotOf B) → value_at number seat.old.lots ≡ Some l → result ≡ l.len }
    {
        let slot = self.slot_of(number);
        let board = &self.table.shared;
        let (k, len) = give_slot(board, &mut seat.token, seat.order.as_slice(), slot, to);
        seat.order.remove(k);
        len
    }

    // Takes a record that it finds free, and whose word is at this slot. The error is the word that it found, which isn't that of a free record. A look at a record that is taken costs
    // much less than a compare.
    #[inline(always)]
    fn claim_at(&self, seat: &mut Seat<B>, slot: usize, number: u16) -> Result<(), u64>
        requires own { IsSeatOf self.now seat.old }
        requires exists { IsRecord self.now.shape number }
        requires at { (slot ≡ index_of self.now.shape.records number) × (slot < self.now.table.words) × (slot < self.now.table.slots) }
        ensures claimed { OnOk result (HasGained (Claim seat.old.process number) (IsEmpty B.is_fit) seat.old seat.new) }
        ensures fresh { OnOk result (Among (keys seat.old.lots) number → ⊥) }
        ensures missed { IfErr result (λ word. (word ≢ 0) × HasSeenWord number word seat.old seat.new) }
    {
        let word = self.word_at(seat, slot, number);
        if word != OwnerWord::Free.encode() {
            return Err(word);
        }
        self.take(seat, number, OwnerWord::Free)
    }

    // The same from index 0 on, in one round, which gathers the words. (Not inlined its answer would be cleared at each claim.)
    #[inline(always)]
    fn claim_seen(&self, seat: &mut Seat<B>, arena: u8) -> Result<u16, Seen>
        requires own { IsSeatOf self.now seat.old }
        requires arena { arena < length self.now.shape.names }
        ensures record { IfOk result (λ r. (r / MAX_RECORDS ≡ arena) × (r % MAX_RECORDS < self.now.shape.records)) }
        ensures claimed { IfOk result (λ r. HasGained (Claim seat.old.process r) (IsEmpty B.is_fit) seat.old seat.new) }
        ensures fresh { IfOk result (λ r. Among (keys seat.old.lots) r → ⊥) }
        ensures seen { IfErr result (λ s. SawTaken arena s.words.items seat.old seat.new) }
        ensures missed { OnErr result (HasLooked seat.old seat.new) }
    {
        let mut seen = Seen {
            words: ArrayVec::new(),
        };
        let records = self.records;
        let start = self.slot_of(number_at(arena, 0));
        for index in 0..records {
            let number = number_at(arena, index);
            match self.claim_at(seat, usize::from(start) + usize::from(index), number) {
                Ok(()) => {
                    self.hints.set(arena, index);
                    return Ok(number);
                }
                Err(word) => seen.words.push(word),
            }
        }
        Err(seen)
    }

    /// Takes a record of the arena that it finds free. It begins at a hint, and looks at all where it
    /// finds none from there on: on one thread it takes the lowest. Its lot is empty: no bytes, and a
    /// blank body. The error has a word for each record, as it was at some moment of the call, none of them free.
    // (The words' room is 2 KiB. Gathered in the first round it would be cleared at each claim, and not inlined moved where
    // nobody reads it.)
    #[inline(always)]
    pub fn claim(&self, seat: &mut Seat<B>, arena: u8) -> Result<u16, Seen>
        requires own { IsSeatOf self.now seat.old }
        requires arena { arena < length self.now.shape.names }
        ensures record { IfOk result (λ r. (r / MAX_RECORDS ≡ arena) × (r % MAX_RECORDS < self.now.shape.records)) }
        ensures claimed { IfOk result (λ r. HasGained (Claim seat.old.process r) (IsEmpty B.is_fit) seat.old seat.new) }
        ensures fresh { IfOk result (λ r. Among (keys seat.old.lots) r → ⊥) }
        ensures seen { IfErr result (λ s. SawTaken arena s.words.items seat.old seat.new) }
        ensures missed { OnErr result (HasLooked seat.old seat.new) }
    {
        let records = self.records;
        let first = self.slot_of(number_at(arena, 0));
        let hint = self.hints.of(arena);
        for index in hint..records {
            let r = number_at(arena, index);
            match self.claim_at(seat, usize::from(first) + usize::from(index), r) {
                Ok(()) => {
                    if index - hint >= FAR {
                        self.hints.set(arena, index);
                    }
                    return Ok(r);
                }
                Err(_word) => (),
            }
        }
        self.claim_seen(seat, arena)
    }

    /// Takes a record that is in flight on the direction (0 to 127). Its lot is as the pass before left
    /// it, in what the seat has seen. The error is the word that it found, which says something else.
    pub fn accept(&self, seat: &mut Seat<B>, number: u16, direction: u8) -> Result<(), u64>
        requires own { IsSeatOf self.now seat.old }
        requires exists { IsRecord self.now.shape number × (direction < DIRECTIONS) }
        ensures accepted { OnOk result (HasGained (Accept seat.old.process number direction) (IsFull B.is_fit) seat.old seat.new) }
        ensures arrives { OnOk result (Arrives seat.new.front) }
        ensures fresh { OnOk result (Among (keys seat.old.lots) number → ⊥) }
        ensures missed { IfErr result (λ word. (word ≢ word_of (Some (Direction direction))) × HasSeenWord number word seat.old seat.new) }
    {
        self.take(seat, number, OwnerWord::InFlight(direction))
    }

    /// Puts a record that the seat holds, whose lot is well formed, in flight on the direction (0 to
    /// 127). It answers the lot's bytes.
    pub fn pass(&self, seat: &mut Seat<B>, number: u16, direction: u8) -> u32
        requires own { IsSeatOf self.now seat.old }
        requires exists { IsRecord self.now.shape number × (direction < DIRECTIONS) }
        requires held { (l : LotOf B) × (value_at number seat.old.lots ≡ Some l) × IsFull B.is_fit l }
        ensures passed { (l : LotOf B) × (value_at number seat.old.lots ≡ Some l) × HasLost (Pass seat.old.process number direction) l seat.old seat.new }
        ensures len { (l : LotOf B) → value_at number seat.old.lots ≡ Some l → result ≡ l.len }
    {
        self.give(seat, number, OwnerWord::InFlight(direction))
    }

    /// Makes a record that the seat holds free. Its lot is empty, so that no free record keeps memory:
    /// no bytes, and a blank body.
    pub fn vacate(&self, seat: &mut Seat<B>, number: u16)
        requires own { IsSeatOf self.now seat.old }
        requires exists { IsRecord self.now.shape number }
        requires held { (l : LotOf B) × (value_at number seat.old.lots ≡ Some l) × IsEmpty B.is_fit l }
        ensures vacated { (l : LotOf B) × (value_at number seat.old.lots ≡ Some l) × HasLost (Vacate seat.old.process number) l seat.old seat.new }
    {
        self.give(seat, number, OwnerWord::Free);
        self.hints.lower(number);
    }

    // The word at a slot, which is the record's.
    #[inline(always)]
    fn word_at(&self, seat: &mut Seat<B>, slot: usize, number: u16) -> u64
        requires own { IsSeatOf self.now seat.old }
        requires exists { IsRecord self.now.shape number }
        requires at { (slot ≡ index_of self.now.shape.records number) × (slot < self.now.table.words) × (slot < self.now.table.slots) }
        ensures { HasSeenWord number result seat.old seat.new }
    {
        let board = &self.table.shared;
        board.load::<LooksAtRecord>(&mut seat.token, slot)
    }

    /// A record's word at one moment, by any seat: `OwnerWord::decode` says what it means. It names the
    /// seat's own process exactly where the seat holds the record.
    pub fn owner_word(&self, seat: &mut Seat<B>, number: u16) -> u64
        requires own { IsSeatOf self.now seat.old }
        requires exists { IsRecord self.now.shape number }
        ensures { HasSeenWord number result seat.old seat.new }
    {
        let slot = usize::from(self.slot_of(number));
        self.word_at(seat, slot, number)
    }

    /// The seat, which holds no record, stands for the next generation of its place, at most 2,046. The
    /// answer is the new process number.
    pub fn renew(&self, seat: &mut Seat<B>) -> u16
        requires own { IsSeatOf self.now seat.old }
        requires empty { seat.old.lots ≡ [] }
        requires generation { generation_of seat.old.process + 1 < GENERATIONS }
        ensures process { result ≡ seat.old.process + PLACES }
        ensures renewed { seat.new ≡ record seat.old { process = seat.old.process + PLACES } }
    {
        self.table.shared.load::<Renews>(&mut seat.token, 0);
        seat.process += u16::from(PLACES);
        seat.process
    }

    /// Shows that of what two seats have seen, one is a beginning of the other: all events have one
    /// order.
    pub fn compare(&self, first: &mut Seat<B>, second: &mut Seat<B>)
        requires own { IsSeatOf self.now first.old × IsSeatOf self.now second.old }
        ensures same { (first.new ≡ first.old) × (second.new ≡ second.old) }
        ensures one { IsOneLog first.old.front second.old.front }
    {
        let board = &self.table.shared;
        let told = board.split_seat::<Notes>(&mut second.token);
        compare_note(board, &mut first.token, told);
    }
}
