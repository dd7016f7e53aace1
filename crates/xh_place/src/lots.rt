// What a place does to the lots of its seat.
ghost use Rattle.std.specs.Prelude.{◌≡◌, ◌≢◌, ℕ, MatchResult, ◌+◌, ◌-◌, ◌*◌, ◌%◌, ◌/◌, ◌<◌, ◌≤◌, ◌++◌, ◌∷◌, [], Some, IfOk, IfErr, OnOk, OnErr, slice_get, length, true, vec_capacity};
ghost use Rattle.xh_arena.specs.Views.{LotOf};
ghost use Rattle.xh_model.specs.Arena.{IsGoodCut};
ghost use Rattle.xh_model.specs.Keyed.{Among, keys, value_at, put, without};
ghost use Rattle.xh_model.specs.declared.limits.TheConstants.{DIRECTIONS, MAX_BYTES, MAX_RECORDS, UNIT};
ghost use Rattle.xh_place.specs.Bodies.{bytes, head_of, content_of, fits_in, kind_of};
ghost use Rattle.xh_place.specs.Calls.{padded};
ghost use Rattle.xh_place.specs.Desk.{IsSameDesk, IsSeatAt};
ghost use Rattle.xh_place.specs.Places.{IsBlock, item_of, header_of};
ghost use Rattle.xh_place.specs.Seen.{Acts, Arrived, FindsFull, LetsGo};
ghost use Rattle.xh_place.specs.Splitting.{IsUncut};
ghost use Rattle.xh_place.specs.Tallies.{gave, took};
ghost use Rattle.xh_place.specs.Vaults.{Asks, IsNoBlock, IsRefusedAt};
ghost use Rattle.xh_place.specs.declared.body.Body.{Body};
ghost use Rattle.xh_place.specs.inner.Lots.{CutsLot, IsData};
ghost use Rattle.xh_records.specs.Seats.{IsSeatOf, IsRecord, SawAt, with_lots};
ghost use Rattle.xh_records.specs.Showing.{IsLotOf, IsFull};
ghost use Rattle.xh_place.specs.Deeds.{accepted_on, claimed, passed_on, vacated};
ghost use Rattle.xh_place.specs.inner.Answers.{reason_of};
ghost use Rattle.xh_place.specs.declared.body.Body.TheVariants.{Nothing};
ghost use Rattle.xh_core.specs.declared.header.Kind.TheVariants as kind;

use crate::body::Body;
use crate::bytes::rest_of;
use crate::desk::Desk;
use crate::gate::{Gate, Point};
use crate::outlet::Outlet;
use crate::vaults::Vaults;
use std::alloc::Global;
use std::mem;
use xh_arena::{Lot, Refused as ArenaRefused};
use xh_core::{Header, Kind, Refused};
use xh_model::limits::{MAX_RECORDS, PLACES};
use xh_records::{Records, Seat};

// Gives the buffer room for `n` bytes, and for no more than an eighth above them. It says whether it has.
fn fit(buffer: &mut Vec<u8>, n: usize) -> bool
    requires { (length buffer.old.items ≤ n) × (n ≤ MAX_BYTES) }
    ensures items { buffer.new.items ≡ buffer.old.items }
    ensures room { result ≡ true → (n ≤ vec_capacity buffer.new) × (vec_capacity buffer.new ≤ n + n / 8) }
{
    let most = n + n / 8;
    buffer.shrink_to(most);
    buffer.reserve_exact(n - buffer.len()).is_ok() && buffer.capacity() <= most
}

// Hands out the buffer, which has room for them, with zeros up to `n` bytes, and leaves an empty one.
fn fill_up(buffer: &mut Vec<u8>, n: u32) -> Vec<u8>
    requires { (length buffer.old.items ≤ n) × (n ≤ vec_capacity buffer.old) }
    ensures filled { result.items ≡ padded n buffer.old.items }
    ensures left { buffer.new.items ≡ [] }
{
    let Ok(()) = buffer.resize(n as usize, 0) else {
        unreachable!()
    };
    let empty = Vec::new(*buffer.allocator());
    mem::replace(buffer, empty)
}

// The record's lot gets `n` bytes, and the buffer, which has room for them, with zeros up to there.
fn fill<R, V: Vaults, G>(
    desk: &mut Desk<'_, R, V, G>,
    seat: &mut Seat<Body>,
    r: u16,
    n: u32,
    buffer: &mut Vec<u8>,
) -> Result<(), ArenaRefused>
    requires at { IsSeatAt V.names desk.old seat.old }
    requires held { (l : LotOf Body) × (value_at r seat.old.lots ≡ Some l) × (l.len ≡ 0) × IsRecord seat.old.shape r × IsLotOf seat.old.shape r l }
    requires size { (0 < n) × (n % UNIT ≡ 0) }
    requires room { (length buffer.old.items ≤ n) × (n ≤ vec_capacity buffer.old) }
    ensures same { IsSameDesk V.names V.extent desk.old desk.new }
    ensures seat { OnOk result ((l : LotOf Body) → value_at r seat.old.lots ≡ Some l → (m : LotOf Body) × (m ≡ record l { len = n; body = m.body })
        × (content_of m.body ≡ bytes (padded n buffer.old.items)) × (seat.new ≡ with_lots seat.old (put r m seat.old.lots))) }
    ensures buffer { MatchResult result (λ _. buffer.new.items ≡ []) (λ _. buffer.new.items ≡ buffer.old.items) }
    ensures taken { OnOk result (V.tallies desk.new.vaults ≡ took (r / MAX_RECORDS) n (V.tallies desk.old.vaults)) }
    ensures refused { OnErr result ((seat.new ≡ seat.old) × (V.tallies desk.new.vaults ≡ V.tallies desk.old.vaults)) }
    ensures asked { OnOk result (Asks V.changes (r / MAX_RECORDS) desk.old.vaults desk.new.vaults) }
    ensures why { IfErr result (IsRefusedAt V.changes desk.old.vaults desk.new.vaults (r / MAX_RECORDS) n) }
{
    let arena = (r / MAX_RECORDS) as u8;
    let vaults = &mut desk.vaults;
    desk.records.with_lot(
        seat,
        r,
        &mut |lot: &mut Lot<Body>| -> Result<(), ArenaRefused>
            requires ids { slice_get (V.names vaults.now) arena ≡ Some lot.old.id }
            requires empty { lot.old.len ≡ 0 }
            requires size { (0 < n) × (n % UNIT ≡ 0) }
            requires room { (length buffer.now.items ≤ n) × (n ≤ vec_capacity buffer.now) }
            ensures same { (V.names vaults.exit.now ≡ V.names vaults.entry.now) × (V.extent vaults.exit.now ≡ V.extent vaults.entry.now) }
            ensures lot { OnOk result ((lot.new ≡ record lot.old { len = n; body = lot.new.body }) × (content_of lot.new.body ≡ bytes (padded n buffer.entry.now.items))) }
            ensures buffer { MatchResult result (λ _. buffer.exit.now.items ≡ []) (λ _. buffer.exit.now.items ≡ buffer.entry.now.items) }
            ensures tallies { MatchResult result (λ _. V.tallies vaults.exit.now ≡ took arena n (V.tallies vaults.entry.now)) (λ _. V.tallies vaults.exit.now ≡ V.tallies vaults.entry.now) }
            ensures refused { OnErr result (lot.new ≡ lot.old) }
            ensures asked { OnOk result (Asks V.changes arena vaults.entry.now vaults.exit.now) }
            ensures why { IfErr result (IsRefusedAt V.changes vaults.entry.now vaults.exit.now arena n) }
        {
            vaults.carve(arena, lot, n)?;
            *lot.body_mut() = Body::Data(fill_up(buffer, n));
            Ok(())
        },
    )
}

// The bytes of the record's lot go back, and its body goes to the outlet. It answers the bytes.
#[inline(always)]
fn empty<R, V: Vaults, G, E: Outlet<V>>(
    desk: &mut Desk<'_, R, V, G>,
    seat: &mut Seat<Body>,
    r: u16,
    out: &mut E,
) -> u32
    requires at { IsSeatAt V.names desk.old seat.old }
    requires held { (l : LotOf Body) × (value_at r seat.old.lots ≡ Some l) × IsBlock seat.old.shape r l }
    ensures same { IsSameDesk V.names V.extent desk.old desk.new }
    ensures emptied { (l : LotOf Body) → value_at r seat.old.lots ≡ Some l → (seat.new ≡ with_lots seat.old (put r (record l { len = 0; body = Nothing }) seat.old.lots))
        × (V.tallies desk.new.vaults ≡ gave (r / MAX_RECORDS) l.len (V.tallies desk.old.vaults)) × (r / MAX_RECORDS < length (V.tallies desk.old.vaults)) × (result ≡ l.len) × E.has out.new l.body }
    ensures asked { Asks V.changes (r / MAX_RECORDS) desk.old.vaults desk.new.vaults }
{
    let arena = (r / MAX_RECORDS) as u8;
    let vaults = &mut desk.vaults;
    desk.records.with_lot(
        seat,
        r,
        &mut |lot: &mut Lot<Body>| -> u32
            requires ids { slice_get (V.names vaults.now) arena ≡ Some lot.old.id }
            requires some { 0 < lot.old.len }
            ensures same { (V.names vaults.exit.now ≡ V.names vaults.entry.now) × (V.extent vaults.exit.now ≡ V.extent vaults.entry.now) }
            ensures lot { lot.new ≡ record lot.old { len = 0; body = Nothing } }
            ensures tallies { (V.tallies vaults.exit.now ≡ gave arena lot.old.len (V.tallies vaults.entry.now)) × (arena < length (V.tallies vaults.entry.now)) }
            ensures bytes { result ≡ lot.old.len }
            ensures body { E.has out.exit.now lot.old.body }
            ensures asked { Asks V.changes arena vaults.entry.now vaults.exit.now }
        {
            let len = lot.len();
            out.empty(vaults, arena, lot);
            len
        },
    )
}

pub(crate) fn reason(refused: ArenaRefused) -> Refused
    ensures { result ≡ reason_of refused }
{
    match refused {
        ArenaRefused::OutOfMemory => Refused::OutOfMemory,
        ArenaRefused::BadSize => Refused::BadSize,
        ArenaRefused::NoSpace => Refused::NoSpace,
        ArenaRefused::BadCut => Refused::BadCut,
        ArenaRefused::Worn => Refused::Worn,
    }
}

// The place of a seat.
pub(crate) fn place_of(seat: &Seat<Body>) -> u8 {
    (seat.process() % PLACES as u16) as u8
}

// Claims a record of the arena, and gives it `n` bytes and the buffer, with zeros up to there. They are made only once the bytes are
// carved: a refusal costs no more for a large block.
#[inline(always)]
pub(crate) fn make_block<R, V: Vaults, G: Gate>(
    desk: &mut Desk<'_, R, V, G>,
    seat: &mut Seat<Body>,
    buffer: &mut Vec<u8>,
    n: u32,
    arena: u8,
) -> Result<u16, Refused>
    requires at { IsSeatAt V.names desk.old seat.old }
    requires arena { arena < length seat.old.shape.names }
    requires size { (0 < n) × (n % UNIT ≡ 0) × (n ≤ MAX_BYTES) × (length buffer.old.items ≤ n) }
    ensures same { IsSameDesk V.names V.extent desk.old desk.new }
    ensures arena { IfOk result (λ r. r / MAX_RECORDS ≡ arena) }
    ensures block { IfOk result (λ r. (l : LotOf Body) × (Among (keys seat.old.lots) r → ⊥)
        × Acts (claimed seat.old.process (r ∷ [])) (seat.old.lots ++ (r, l) ∷ []) seat.old seat.new × IsBlock seat.old.shape r l
        × (l.len ≡ n) × (content_of l.body ≡ bytes (padded n buffer.old.items))) }
    ensures buffer { MatchResult result (λ _. buffer.new.items ≡ []) (λ _. buffer.new.items ≡ buffer.old.items) }
    ensures taken { OnOk result (V.tallies desk.new.vaults ≡ took arena n (V.tallies desk.old.vaults)) }
    ensures refused { OnErr result (LetsGo (λ claims. length claims ≤ 1) arena seat.old seat.new × (V.tallies desk.new.vaults ≡ V.tallies desk.old.vaults)) }
    ensures asked { OnOk result (Asks V.changes arena desk.old.vaults desk.new.vaults) }
    ensures why { IfErr result (IsNoBlock V.changes desk.old.vaults desk.new.vaults arena n (FindsFull 0 seat.old seat.new arena)) }
{
    let Ok(r) = desk.records.claim(seat, arena) else {
        return Err(Refused::NoRecord);
    };
    desk.gate.between(place_of(seat), Point::Claimed);
    if !fit(buffer, n as usize) {
        desk.records.vacate(seat, r);
        return Err(Refused::OutOfMemory);
    }
    let filled = fill(desk, seat, r, n, buffer);
    let Err(refused) = filled else {
        return Ok(r);
    };
    desk.records.vacate(seat, r);
    Err(reason(refused))
}

// Gives a block's bytes back, and makes its record free. It answers the bytes, and what the block carried goes to the outlet.
#[inline(always)]
pub(crate) fn give_up<R, V: Vaults, G: Gate, E: Outlet<V>>(
    desk: &mut Desk<'_, R, V, G>,
    seat: &mut Seat<Body>,
    r: u16,
    out: &mut E,
) -> u32
    requires at { IsSeatAt V.names desk.old seat.old }
    requires held { (l : LotOf Body) × (value_at r seat.old.lots ≡ Some l) × IsBlock seat.old.shape r l }
    ensures same { IsSameDesk V.names V.extent desk.old desk.new }
    ensures seat { Acts (vacated seat.old.process r) (without r seat.old.lots) seat.old seat.new }
    ensures back { (l : LotOf Body) → value_at r seat.old.lots ≡ Some l → (V.tallies desk.new.vaults ≡ gave (r / MAX_RECORDS) l.len (V.tallies desk.old.vaults))
        × (r / MAX_RECORDS < length (V.tallies desk.old.vaults)) × (result ≡ l.len) × E.has out.new l.body }
    ensures asked { Asks V.changes (r / MAX_RECORDS) desk.old.vaults desk.new.vaults }
{
    let len = empty(desk, seat, r, out);
    desk.gate.between(place_of(seat), Point::Returned);
    desk.records.vacate(seat, r);
    len
}

// The length and kind of a lot's block.
#[inline(always)]
pub(crate) fn header_of(lot: &Lot<Body>) -> Header
    requires { IsFull fits_in lot.now }
    ensures { result ≡ header_of (item_of lot.now) }
{
    let len = lot.len();
    let kind = match lot.body() {
        Body::Data(_) => Kind::Data,
        Body::End(_) => Kind::End,
        Body::Nothing => unreachable!(),
    };
    Header { len, kind }
}

// The length and kind of the record's block.
#[tactic(auto, using(xh_model::proofs::Keyed::put_same))]
pub(crate) fn look(records: &Records<Body>, seat: &mut Seat<Body>, r: u16) -> Header
    requires own { IsSeatOf records.now seat.old × IsRecord records.now.shape r }
    requires held { (l : LotOf Body) × (value_at r seat.old.lots ≡ Some l) × IsLotOf seat.old.shape r l × IsFull fits_in l }
    ensures same { seat.new ≡ seat.old }
    ensures header { (l : LotOf Body) → value_at r seat.old.lots ≡ Some l → result ≡ header_of (item_of l) }
{
    records.with_lot(
        seat,
        r,
        &mut |lot: &mut Lot<Body>| -> Header
            requires { IsFull fits_in lot.old }
            ensures lot { lot.new ≡ lot.old }
            ensures seen { result ≡ header_of (item_of lot.old) }
        { header_of(lot) },
    )
}

// Accepts a record, and looks at its lot. The error is the word that was seen.
pub(crate) fn accept_block(
    records: &Records<Body>,
    seat: &mut Seat<Body>,
    r: u16,
    direction: u8,
) -> Result<Header, u64>
    requires own { IsSeatOf records.now seat.old × IsRecord records.now.shape r × (direction < DIRECTIONS) }
    ensures here { IfOk result (λ s. (l : LotOf Body) × (Among (keys seat.old.lots) r → ⊥)
        × Acts (accepted_on seat.old.process direction ((r, item_of l) ∷ [])) (seat.old.lots ++ (r, l) ∷ []) seat.old seat.new × IsBlock seat.old.shape r l × (s ≡ header_of (item_of l))
        × Arrived seat.old.process seat.old.front seat.new.front r direction (item_of l)) }
    ensures missing { IfErr result (λ word. (word ≢ 2 + 4 * direction) × Acts [] seat.old.lots seat.old seat.new × SawAt seat.old.shape seat.old.front seat.new.front r word) }
{
    records.accept(seat, r, direction)?;
    Ok(look(records, seat, r))
}

// Passes a record on the direction. It answers the bytes.
pub(crate) fn pass_block(
    records: &Records<Body>,
    seat: &mut Seat<Body>,
    r: u16,
    direction: u8,
) -> u32
    requires own { IsSeatOf records.now seat.old × IsRecord records.now.shape r × (direction < DIRECTIONS) }
    requires held { (l : LotOf Body) × (value_at r seat.old.lots ≡ Some l) × IsFull fits_in l }
    ensures { (l : LotOf Body) × (value_at r seat.old.lots ≡ Some l) × Acts (passed_on seat.old.process direction ((r, item_of l) ∷ [])) (without r seat.old.lots) seat.old seat.new
        × (result ≡ l.len) }
{
    records.pass(seat, r, direction)
}

// The second record's lot gets the bytes of the first one's past the first `k`, and its body the other.
fn part<R, V: Vaults, G>(
    desk: &mut Desk<'_, R, V, G>,
    seat: &mut Seat<Body>,
    pair: (u16, u16),
    k: u32,
    body: &mut Body,
)
    requires own { IsSeatOf desk.old.records.now seat.old × IsRecord desk.old.records.now.shape pair.0 × IsRecord desk.old.records.now.shape pair.1 × (pair.0 ≢ pair.1) }
    requires held { (l m : LotOf Body) × (value_at pair.0 seat.old.lots ≡ Some l) × (value_at pair.1 seat.old.lots ≡ Some m) × IsLotOf seat.old.shape pair.0 l × IsLotOf seat.old.shape pair.1 m
        × (slice_get (V.names desk.old.vaults) (pair.0 / MAX_RECORDS) ≡ Some l.id) × (m.id ≡ l.id) × (m.len ≡ 0) × IsGoodCut k l.len × (fits_in l.body l.len ≡ true)
        × (kind_of (content_of l.body) ≡ kind.Data) }
    ensures same { IsSameDesk V.names V.extent desk.old desk.new × (V.tallies desk.new.vaults ≡ V.tallies desk.old.vaults) }
    ensures asked { Asks V.changes (pair.0 / MAX_RECORDS) desk.old.vaults desk.new.vaults }
    ensures parted { (l m : LotOf Body) → value_at pair.0 seat.old.lots ≡ Some l → value_at pair.1 seat.old.lots ≡ Some m → (h : LotOf Body) × (h ≡ record l { len = k; body = h.body })
        × (content_of h.body ≡ head_of k (content_of l.body)) × (seat.new ≡ with_lots seat.old (put pair.1 (record m { len = l.len - k; body = body.old }) (put pair.0 h seat.old.lots))) }
{
    let arena = (pair.0 / MAX_RECORDS) as u8;
    let vaults = &mut desk.vaults;
    desk.records.with_two(
        seat,
        pair.0,
        pair.1,
        &mut |head: &mut Lot<Body>, tail: &mut Lot<Body>|
            requires ids { (slice_get (V.names vaults.now) arena ≡ Some head.old.id) × (tail.old.id ≡ head.old.id) }
            requires empty { tail.old.len ≡ 0 }
            requires good { IsGoodCut k head.old.len × (fits_in head.old.body head.old.len ≡ true) × (kind_of (content_of head.old.body) ≡ kind.Data) }
            ensures same { (V.names vaults.exit.now ≡ V.names vaults.entry.now) × (V.extent vaults.exit.now ≡ V.extent vaults.entry.now) }
            ensures tallies { V.tallies vaults.exit.now ≡ V.tallies vaults.entry.now }
            ensures head { head.new ≡ record head.old { len = k; body = head.new.body } }
            ensures content { content_of head.new.body ≡ head_of k (content_of head.old.body) }
            ensures tail { tail.new ≡ record tail.old { len = head.old.len - k; body = body.entry.now } }
            ensures asked { Asks V.changes arena vaults.entry.now vaults.exit.now }
        {
            vaults.cut(arena, head, tail, k);
            mem::swap(tail.body_mut(), body);
            let Body::Data(buffer) = head.body_mut() else {
                unreachable!()
            };
            buffer.truncate(k as usize);
            buffer.shrink_to_fit();
        },
    )
}

// Claims a record of the block's arena, and gives it the block's bytes past the first `k`, with a buffer
// of their own.
pub(crate) fn cut_block<R, V: Vaults, G: Gate>(
    alloc: Global,
    desk: &mut Desk<'_, R, V, G>,
    seat: &mut Seat<Body>,
    r: u16,
    k: u32,
) -> Result<u16, Refused>
    requires own { IsSeatOf desk.old.records.now seat.old }
    requires names { V.names desk.old.vaults ≡ seat.old.shape.names }
    requires held { (l : LotOf Body) × (value_at r seat.old.lots ≡ Some l) × IsBlock seat.old.shape r l × IsData l × IsGoodCut k l.len }
    ensures same { IsSameDesk V.names V.extent desk.old desk.new }
    ensures tallies { V.tallies desk.new.vaults ≡ V.tallies desk.old.vaults }
    ensures cut { IfOk result (λ t. (l : LotOf Body) → value_at r seat.old.lots ≡ Some l → CutsLot seat.old seat.new r k l t) }
    ensures asked { OnOk result (Asks V.changes (r / MAX_RECORDS) desk.old.vaults desk.new.vaults) }
    ensures refused { OnErr result (LetsGo (λ claims. length claims ≤ 1) (r / MAX_RECORDS) seat.old seat.new × (desk.new.vaults ≡ desk.old.vaults)) }
    ensures why { IfErr result (IsUncut (FindsFull 0 seat.old seat.new (r / MAX_RECORDS))) }
{
    let Ok(t) = desk.records.claim(seat, (r / MAX_RECORDS) as u8) else {
        return Err(Refused::NoRecord);
    };
    desk.gate.between(place_of(seat), Point::Claimed);
    let Some(buffer) = rest_of(alloc, desk.records, seat, r, k as usize) else {
        desk.records.vacate(seat, t);
        return Err(Refused::OutOfMemory);
    };
    let mut body = Body::Data(buffer);
    part(desk, seat, (r, t), k, &mut body);
    drop(body);
    Ok(t)
}
