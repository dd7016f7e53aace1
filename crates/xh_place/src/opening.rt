// What opening does to the seat: two records get 32 bytes each, and the two ends of a channel.
ghost use Rattle.std.specs.Prelude.{◌≡◌, ◌≢◌, ℕ, ◌∷◌, ◌++◌, [], ◌+◌, ◌*◌, ◌/◌, ◌<◌, ◌≤◌, length, Some, IfOk, IfErr, OnOk, OnErr, MatchOption, MatchResult, slice_get};
ghost use Rattle.xh_arena.specs.Views.{LotOf};
ghost use Rattle.xh_channel.specs.Endpoint.{EndpointOf};
ghost use Rattle.xh_model.specs.Keyed.{Among, keys, put, value_at, without};
ghost use Rattle.xh_place.specs.Deeds.{vacated};
ghost use Rattle.xh_model.specs.declared.limits.TheConstants.{END_BYTES, MAX_RECORDS};
ghost use Rattle.xh_place.specs.Bodies.{fits_in};
ghost use Rattle.xh_place.specs.Desk.{IsSameDesk, IsSeatAt};
ghost use Rattle.xh_place.specs.Endpoints.{end_block};
ghost use Rattle.xh_place.specs.Places.{item_of};
ghost use Rattle.xh_place.specs.Tallies.{took};
ghost use Rattle.xh_place.specs.Vaults.{AsksEach, IsNoPair, IsRefusedAt};
ghost use Rattle.xh_place.specs.declared.body.Body.{Body};
ghost use Rattle.xh_place.specs.Seen.{Acts, FindsFull, LetsGo};
ghost use Rattle.xh_records.specs.History.{StartsWith};
ghost use Rattle.xh_records.specs.Seats.{IsRecord, IsSeatOf, with_lots};
ghost use Rattle.xh_records.specs.Showing.{IsEmpty};
ghost use Rattle.xh_place.specs.declared.body.Body.TheVariants.{End};
ghost use Rattle.xh_place.specs.inner.TwoRecords.{AreClaimed, AreEmpty, AreMade};

use crate::body::Body;
use crate::desk::Desk;
use crate::gate::{Gate, Point};
use crate::lots::{place_of, reason};
use crate::vaults::Vaults;
use std::mem;
use xh_arena::{Lot, Refused as ArenaRefused};
use xh_channel::Endpoint;
use xh_core::Refused;
use xh_model::limits::{END_BYTES, MAX_RECORDS};
use xh_records::{Records, Seat};

/// Why an open was refused. It hands the ends back.
#[derive(Drop)]
pub struct Unopened {
    pub why: Refused,
    pub low: Endpoint,
    pub high: Endpoint,
}

// The first record's lot gets 64 bytes, of which the second's gets half; each gets a body.
fn halve<R, V: Vaults, G>(
    desk: &mut Desk<'_, R, V, G>,
    seat: &mut Seat<Body>,
    pair: (u16, u16),
    first: &mut Body,
    second: &mut Body,
) -> Result<(), ArenaRefused>
    requires at { IsSeatAt V.names desk.old seat.old }
    requires held { (l m : LotOf Body) × AreEmpty seat.old pair.0 pair.1 l m }
    ensures same { IsSameDesk V.names V.extent desk.old desk.new }
    ensures halved { OnOk result ((l m : LotOf Body) → value_at pair.0 seat.old.lots ≡ Some l → value_at pair.1 seat.old.lots ≡ Some m
        → seat.new ≡ with_lots seat.old (put pair.1 (record m { len = END_BYTES; body = second.old }) (put pair.0 (record l { len = END_BYTES; body = first.old }) seat.old.lots))) }
    ensures taken { OnOk result (V.tallies desk.new.vaults ≡ took (pair.0 / MAX_RECORDS) (2 * END_BYTES) (V.tallies desk.old.vaults)) }
    ensures refused { OnErr result ((seat.new ≡ seat.old) × (V.tallies desk.new.vaults ≡ V.tallies desk.old.vaults) × (first.new ≡ first.old) × (second.new ≡ second.old)) }
    ensures asked { OnOk result (AsksEach V.changes (pair.0 / MAX_RECORDS ∷ pair.0 / MAX_RECORDS ∷ []) desk.old.vaults desk.new.vaults) }
    ensures why { IfErr result (IsRefusedAt V.changes desk.old.vaults desk.new.vaults (pair.0 / MAX_RECORDS) (2 * END_BYTES)) }
{
    let arena = (pair.0 / MAX_RECORDS) as u8;
    let vaults = &mut desk.vaults;
    desk.records.with_two(
        seat,
        pair.0,
        pair.1,
        &mut |low: &mut Lot<Body>, high: &mut Lot<Body>| -> Result<(), ArenaRefused>
            requires ids { (slice_get (V.names vaults.now) arena ≡ Some low.old.id) × (high.old.id ≡ low.old.id) }
            requires empty { (low.old.len ≡ 0) × (high.old.len ≡ 0) }
            ensures same { (V.names vaults.exit.now ≡ V.names vaults.entry.now) × (V.extent vaults.exit.now ≡ V.extent vaults.entry.now) }
            ensures low { OnOk result (low.new ≡ record low.old { len = END_BYTES; body = first.entry.now }) }
            ensures high { OnOk result (high.new ≡ record high.old { len = END_BYTES; body = second.entry.now }) }
            ensures tallies { MatchResult result (λ _. V.tallies vaults.exit.now ≡ took arena (2 * END_BYTES) (V.tallies vaults.entry.now))
                (λ _. V.tallies vaults.exit.now ≡ V.tallies vaults.entry.now) }
            ensures refused { OnErr result ((low.new ≡ low.old) × (high.new ≡ high.old)
                × (first.exit.now ≡ first.entry.now) × (second.exit.now ≡ second.entry.now)) }
            ensures asked { OnOk result (AsksEach V.changes (arena ∷ arena ∷ []) vaults.entry.now vaults.exit.now) }
            ensures why { IfErr result (IsRefusedAt V.changes vaults.entry.now vaults.exit.now arena (2 * END_BYTES)) }
        {
            vaults.carve(arena, low, 2 * END_BYTES)?;
            vaults.cut(arena, low, high, END_BYTES);
            mem::swap(low.body_mut(), first);
            mem::swap(high.body_mut(), second);
            Ok(())
        },
    )
}

// Claims two records of the arena.
fn claim_two<G: Gate>(
    records: &Records<Body>,
    seat: &mut Seat<Body>,
    arena: u8,
    gate: &G,
) -> Option<(u16, u16)>
    requires own { IsSeatOf records.now seat.old }
    requires arena { arena < length seat.old.shape.names }
    ensures seen { StartsWith seat.new.front seat.old.front }
    ensures claimed { MatchOption result (FindsFull 1 seat.old seat.new arena) (λ r. (l m : LotOf Body) × AreClaimed arena seat.old seat.new r.0 r.1 l m) }
{
    let Ok(r) = records.claim(seat, arena) else {
        return None;
    };
    gate.between(place_of(seat), Point::Claimed);
    let Ok(t) = records.claim(seat, arena) else {
        records.vacate(seat, r);
        return None;
    };
    gate.between(place_of(seat), Point::Claimed);
    Some((r, t))
}

// Two records that were claimed are free again.
fn vacate_two(records: &Records<Body>, seat: &mut Seat<Body>, r: u16, t: u16)
    requires own { IsSeatOf records.now seat.old × IsRecord records.now.shape r × IsRecord records.now.shape t × (t ≢ r) }
    requires held { (l m : LotOf Body) × (value_at r seat.old.lots ≡ Some l) × (value_at t seat.old.lots ≡ Some m) × IsEmpty fits_in l × IsEmpty fits_in m }
    ensures free { Acts (vacated seat.old.process t ++ vacated seat.old.process r) (without r (without t seat.old.lots)) seat.old seat.new }
{
    records.vacate(seat, t);
    records.vacate(seat, r);
}

// The endpoint that a body is.
fn end_in(body: Body) -> Endpoint
    requires { (p : EndpointOf) × (body ≡ End p) }
    ensures { body ≡ End result }
{
    match body {
        Body::End(end) => end,
        Body::Nothing => unreachable!(),
        Body::Data(_bytes) => unreachable!(),
    }
}

// Two records that were claimed get 32 bytes and an end each.
fn fit_ends<R, V: Vaults, G>(
    desk: &mut Desk<'_, R, V, G>,
    seat: &mut Seat<Body>,
    pair: (u16, u16),
    low: Endpoint,
    high: Endpoint,
) -> Result<(), Unopened>
    requires at { IsSeatAt V.names desk.old seat.old }
    requires held { (l m : LotOf Body) × AreEmpty seat.old pair.0 pair.1 l m }
    ensures same { IsSameDesk V.names V.extent desk.old desk.new }
    ensures fitted { OnOk result ((l m : LotOf Body) → value_at pair.0 seat.old.lots ≡ Some l → value_at pair.1 seat.old.lots ≡ Some m
        → seat.new ≡ with_lots seat.old (put pair.1 (record m { len = END_BYTES; body = End high }) (put pair.0 (record l { len = END_BYTES; body = End low }) seat.old.lots))) }
    ensures taken { OnOk result (V.tallies desk.new.vaults ≡ took (pair.0 / MAX_RECORDS) (2 * END_BYTES) (V.tallies desk.old.vaults)) }
    ensures asked { OnOk result (AsksEach V.changes (pair.0 / MAX_RECORDS ∷ pair.0 / MAX_RECORDS ∷ []) desk.old.vaults desk.new.vaults) }
    ensures refused { IfErr result (λ u. (seat.new ≡ seat.old) × (V.tallies desk.new.vaults ≡ V.tallies desk.old.vaults) × (u.low ≡ low) × (u.high ≡ high)) }
    ensures why { IfErr result (λ u. IsNoPair V.changes desk.old.vaults desk.new.vaults (pair.0 / MAX_RECORDS) (2 * END_BYTES) ⊥ u.why) }
{
    let mut first = Body::End(low);
    let mut second = Body::End(high);
    let halved = halve(desk, seat, pair, &mut first, &mut second);
    let Err(refused) = halved else {
        drop(first);
        drop(second);
        return Ok(());
    };
    let low = end_in(first);
    let high = end_in(second);
    let why = reason(refused);
    Err(Unopened { why, low, high })
}

// Claims two records of the arena, and gives each half of 64 bytes and an end.
pub(crate) fn make_ends<R, V: Vaults, G: Gate>(
    desk: &mut Desk<'_, R, V, G>,
    seat: &mut Seat<Body>,
    low: Endpoint,
    high: Endpoint,
    arena: u8,
) -> Result<(u16, u16), Unopened>
    requires at { IsSeatAt V.names desk.old seat.old }
    requires arena { arena < length seat.old.shape.names }
    ensures same { IsSameDesk V.names V.extent desk.old desk.new }
    ensures made { IfOk result (λ r. (l m : LotOf Body) × AreMade arena seat.old seat.new r.0 r.1 l m × (item_of l ≡ end_block low) × (item_of m ≡ end_block high)) }
    ensures taken { OnOk result (V.tallies desk.new.vaults ≡ took arena (2 * END_BYTES) (V.tallies desk.old.vaults)) }
    ensures asked { OnOk result (AsksEach V.changes (arena ∷ arena ∷ []) desk.old.vaults desk.new.vaults) }
    ensures refused { IfErr result (λ u. LetsGo (λ claims. length claims ≤ 2) arena seat.old seat.new × (V.tallies desk.new.vaults ≡ V.tallies desk.old.vaults) × (u.low ≡ low) × (u.high ≡ high)) }
    ensures why { IfErr result (λ u. IsNoPair V.changes desk.old.vaults desk.new.vaults arena (2 * END_BYTES) (FindsFull 1 seat.old seat.new arena) u.why) }
    ensures seen { StartsWith seat.new.front seat.old.front }
{
    let Some((r, t)) = claim_two(desk.records, seat, arena, desk.gate) else {
        let why = Refused::NoRecord;
        return Err(Unopened { why, low, high });
    };
    let fitted = fit_ends(desk, seat, (r, t), low, high);
    let Err(unopened) = fitted else {
        return Ok((r, t));
    };
    vacate_two(desk.records, seat, r, t);
    Err(unopened)
}
