// What a place does to an endpoint, in its lot.
ghost use Rattle.std.specs.Prelude.{◌≡◌, ◌<◌, ◌≤◌, MatchOption, Some, length};
ghost use Rattle.xh_arena.specs.Views.{LotOf};
ghost use Rattle.xh_model.specs.Keyed.{value_at, put};
ghost use Rattle.xh_core.specs.declared.header.Kind.TheVariants as kind;
ghost use Rattle.xh_model.specs.declared.limits.TheConstants.{DIRECTIONS, MAX_BLOCKS};
ghost use Rattle.xh_place.specs.Bodies.{IsEndAt, content_of, fits_in, kind_of, direction_toward};
ghost use Rattle.xh_channel.specs.Calls.{EndpointPuts, EndpointShuts, EndpointTakes};
ghost use Rattle.xh_place.specs.declared.body.Body.{Body};
ghost use Rattle.xh_place.specs.Endpoints.{EndDoes};
ghost use Rattle.xh_place.specs.inner.Lots.{IsEndLot};
ghost use Rattle.xh_records.specs.Seats.{IsSeatOf, IsRecord, with_lots};
ghost use Rattle.xh_records.specs.Showing.{IsFull, IsLotOf};

use crate::body::Body;
use crate::desk::Desk;
use arrayvec::ArrayVec;
use std::sync::Wait;
use xh_arena::Lot;
use xh_channel::{Message, Refused as NoMessage, Spot, Unsent};
use xh_records::{Records, Seat};

// The channel and side of the record's block, if it is an endpoint.
#[tactic(auto, using(xh_model::proofs::Keyed::put_same))]
pub(crate) fn spot_at(records: &Records<Body>, seat: &mut Seat<Body>, r: u16) -> Option<Spot>
    requires own { IsSeatOf records.now seat.old × IsRecord records.now.shape r }
    requires held { (l : LotOf Body) × (value_at r seat.old.lots ≡ Some l) × IsLotOf seat.old.shape r l × IsFull fits_in l }
    ensures same { seat.new ≡ seat.old }
    ensures spot { (l : LotOf Body) → value_at r seat.old.lots ≡ Some l
        → MatchOption result (kind_of (content_of l.body) ≡ kind.Data) (λ s. IsEndAt (content_of l.body) s.channel s.side) }
{
    records.with_lot(
        seat,
        r,
        &mut |lot: &mut Lot<Body>| -> Option<Spot>
            requires { IsFull fits_in lot.old }
            ensures same { lot.new ≡ lot.old }
            ensures spot { MatchOption result (kind_of (content_of lot.old.body) ≡ kind.Data) (λ s. IsEndAt (content_of lot.old.body) s.channel s.side) }
        {
            match lot.body() {
                Body::End(end) => Some(end.spot()),
                Body::Nothing | Body::Data(_) => None,
            }
        },
    )
}

// The blocks of a message.
fn listed(blocks: &[u16]) -> ArrayVec<u16, 8>
    requires { length blocks.now ≤ MAX_BLOCKS }
    ensures { result ≡ record { items = blocks.now } }
{
    let mut list = ArrayVec::new();
    let Ok(()) = list.try_extend_from_slice(blocks) else {
        unreachable!()
    };
    list
}

// Puts a message by the endpoint.
pub(crate) fn put_at<R: Wait, V, G>(
    desk: &Desk<'_, R, V, G>,
    seat: &mut Seat<Body>,
    e: u16,
    tag: u16,
    given: &[u16],
) -> Result<u64, Unsent>
    requires own { IsSeatOf desk.now.records.now seat.old × IsRecord desk.now.records.now.shape e }
    requires few { length given.now ≤ MAX_BLOCKS }
    requires held { (l : LotOf Body) × (value_at e seat.old.lots ≡ Some l) × IsLotOf seat.old.shape e l × IsEndLot l }
    ensures { (l : LotOf Body) → value_at e seat.old.lots ≡ Some l → (m : LotOf Body) × EndDoes (EndpointPuts tag (record { items = given.now }) result) l m
        × (seat.new ≡ with_lots seat.old (put e m seat.old.lots)) }
{
    let (rt, channels) = (desk.rt, desk.channels);
    desk.records.with_lot(
        seat,
        e,
        &mut |lot: &mut Lot<Body>|
            requires { IsEndLot lot.old × (length given.now ≤ MAX_BLOCKS) }
            ensures { EndDoes (EndpointPuts tag (record { items = given.entry.now }) result) lot.old lot.new }
        {
            let Body::End(end) = lot.body_mut() else {
                unreachable!()
            };
            channels.put(rt, end, tag, listed(given))
        },
    )
}

// Takes the first message for the record's block, if it is an endpoint: with the answer goes the direction. The answer is
// large: it is put where the caller lends room, and in a function of its own, since each move of it costs.
#[inline(never)]
pub(crate) fn take_at<R: Wait, V, G>(
    desk: &Desk<'_, R, V, G>,
    seat: &mut Seat<Body>,
    e: u16,
) -> (Result<Message, NoMessage>, Option<u8>)
    requires own { IsSeatOf desk.now.records.now seat.old × IsRecord desk.now.records.now.shape e }
    requires held { (l : LotOf Body) × (value_at e seat.old.lots ≡ Some l) × IsLotOf seat.old.shape e l × IsFull fits_in l }
    ensures direction { (l : LotOf Body) → value_at e seat.old.lots ≡ Some l
        → MatchOption result.1 (kind_of (content_of l.body) ≡ kind.Data)
        (λ d. (kind_of (content_of l.body) ≡ kind.End) × (d ≡ direction_toward (content_of l.body)) × (d < DIRECTIONS)) }
    ensures seat { (l : LotOf Body) → value_at e seat.old.lots ≡ Some l
        → (m : LotOf Body) × MatchOption result.1 (m ≡ l) (λ _. EndDoes (EndpointTakes result.0) l m) × (seat.new ≡ with_lots seat.old (put e m seat.old.lots)) }
{
    let (rt, channels) = (desk.rt, desk.channels);
    let mut taken = Err(NoMessage::Empty);
    let direction = desk.records.with_lot(
        seat,
        e,
        &mut |lot: &mut Lot<Body>| -> Option<u8>
            requires { IsFull fits_in lot.old }
            ensures lot { MatchOption result (lot.new ≡ lot.old) (λ _. EndDoes (EndpointTakes taken.exit) lot.old lot.new) }
            ensures direction { MatchOption result (kind_of (content_of lot.old.body) ≡ kind.Data)
                (λ d. (kind_of (content_of lot.old.body) ≡ kind.End) × (d ≡ direction_toward (content_of lot.old.body)) × (d < DIRECTIONS)) }
        {
            match lot.body_mut() {
                Body::End(end) => {
                    let spot = end.spot();
                    taken = channels.take(rt, end);
                    Some(spot.toward())
                }
                Body::Nothing | Body::Data(_) => None,
            }
        },
    );
    (taken, direction)
}

// Shuts the endpoint.
pub(crate) fn shut_at<R: Wait, V, G>(desk: &Desk<'_, R, V, G>, seat: &mut Seat<Body>, e: u16)
    requires own { IsSeatOf desk.now.records.now seat.old × IsRecord desk.now.records.now.shape e }
    requires held { (l : LotOf Body) × (value_at e seat.old.lots ≡ Some l) × IsLotOf seat.old.shape e l × IsEndLot l }
    ensures { (l : LotOf Body) → value_at e seat.old.lots ≡ Some l → (m : LotOf Body) × EndDoes EndpointShuts l m × (seat.new ≡ with_lots seat.old (put e m seat.old.lots)) }
{
    let (rt, channels) = (desk.rt, desk.channels);
    desk.records.with_lot(
        seat,
        e,
        &mut |lot: &mut Lot<Body>|
            requires { IsEndLot lot.old }
            ensures { EndDoes EndpointShuts lot.old lot.new }
        {
            let Body::End(end) = lot.body_mut() else {
                unreachable!()
            };
            channels.shut(rt, end);
        },
    )
}
