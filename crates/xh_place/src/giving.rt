// What a give does to the seat: its blocks leave it, and some come back.
ghost use Rattle.xh_channel.specs.Calls.{EndpointPuts};
ghost use Rattle.std.specs.Prelude.{MatchResult, ◌++◌, ◌≡◌, ◌≢◌, ℕ, List, map, ◌+◌, ◌*◌, ◌<◌, ◌≤◌, [], length, Some, None, OnOk, OnErr};
ghost use Rattle.xh_arena.specs.Views.{LotOf};
ghost use Rattle.xh_model.specs.Keyed.{Among, Distinct, value_at};
ghost use Rattle.xh_model.specs.declared.limits.TheConstants.{DIRECTIONS, MAX_BLOCKS};
ghost use Rattle.xh_place.specs.Bodies.{IsEndAt, away, content_of};
ghost use Rattle.xh_place.specs.Endpoints.{AreGot, EndDoes, record_got};
ghost use Rattle.xh_place.specs.Messages.{refusal};
ghost use Rattle.xh_place.specs.Places.{IsBlock, lens, shown};
ghost use Rattle.xh_place.specs.Seen.{Acts, IsSeenAfter};
ghost use Rattle.xh_place.specs.declared.got.Got.{Got};
ghost use Rattle.xh_place.specs.declared.body.Body.{Body};
ghost use Rattle.xh_records.specs.Seats.{IsSeatOf, IsRecord};
ghost use Rattle.arrayvec.specs.ArrayVec.{ArrayVec};
ghost use Rattle.xh_place.specs.Deeds.{accepted_on, passed_on};
ghost use Rattle.xh_place.specs.inner.Lots.{item_in};
ghost use Rattle.xh_place.specs.inner.Lists.{AreBack, CameBack, IsSeenBy};

use crate::body::Body;
use crate::desk::Desk;
use crate::end_lots::put_at;
use crate::gate::{Gate, Point};
use crate::lots::{accept_block, pass_block, place_of};
use arrayvec::ArrayVec;
use std::sync::Wait;
use xh_channel::{Spot, Unsent};
use xh_core::Refused;
use xh_records::{Records, Seat};

// The records go in flight on the direction, one after another. It answers their bytes.
pub(crate) fn pass_all(
    records: &Records<Body>,
    seat: &mut Seat<Body>,
    given: &[u16],
    direction: u8,
) -> u64
    requires own { IsSeatOf records.now seat.old × (direction < DIRECTIONS) }
    requires distinct { Distinct given.now }
    requires few { length given.now ≤ MAX_BLOCKS }
    requires held { (r : ℕ) → Among given.now r → (l : LotOf Body) × (value_at r seat.old.lots ≡ Some l) × IsBlock seat.old.shape r l }
    ensures passed { Acts (passed_on seat.old.process direction (shown seat.old.lots given.now)) seat.new.lots seat.old seat.new }
    ensures gone { (r : ℕ) → Among given.now r → value_at r seat.new.lots ≡ None }
    ensures others { (r : ℕ) → (Among given.now r → ⊥) → value_at r seat.new.lots ≡ value_at r seat.old.lots }
    ensures bytes { result ≡ lens given.now (λ r. value_at r seat.old.lots) }
{
    let mut bytes = 0;
    for k in 0..given.len() {
        bytes += u64::from(pass_block(records, seat, given[k], direction));
    }
    bytes
}

// A record that is in flight on the direction comes back. It answers the bytes, and 0 where it doesn't.
fn accept_into(
    records: &Records<Body>,
    seat: &mut Seat<Body>,
    back: &mut ArrayVec<u16, 8>,
    r: u16,
    direction: u8,
) -> u32
    requires own { IsSeatOf records.now seat.old × IsRecord records.now.shape r × (direction < DIRECTIONS) }
    requires room { length back.old.items < MAX_BLOCKS }
    ensures { CameBack direction r seat.old seat.new back.old.items back.new.items result }
{
    let Ok(header) = accept_block(records, seat, r, direction) else {
        return 0;
    };
    back.push(r);
    header.len
}

// Those of the records that are in flight on the direction come back. It answers them, and their bytes.
pub(crate) fn accept_back(
    records: &Records<Body>,
    seat: &mut Seat<Body>,
    given: &[u16],
    direction: u8,
) -> (ArrayVec<u16, 8>, u64)
    requires own { IsSeatOf records.now seat.old × (direction < DIRECTIONS) }
    requires few { length given.now ≤ MAX_BLOCKS }
    requires distinct { Distinct given.now }
    requires gone { (r : ℕ) → Among given.now r → value_at r seat.old.lots ≡ None }
    requires records { (r : ℕ) → Among given.now r → IsRecord records.now.shape r }
    ensures came { Acts (accepted_on seat.old.process direction (shown seat.new.lots result.0.items)) seat.new.lots seat.old seat.new }
    ensures seen { (gots : List Got) × (map record_got gots ≡ given.now) × AreGot (IsSeenBy seat.old seat.new) direction (shown seat.new.lots result.0.items) gots }
    ensures back { AreBack given.now result.0.items seat.new }
    ensures others { (r : ℕ) → (Among given.now r → ⊥) → value_at r seat.new.lots ≡ value_at r seat.old.lots }
    ensures bytes { result.1 ≡ lens given.now (λ r. value_at r seat.new.lots) }
{
    let mut back = ArrayVec::new();
    let mut bytes = 0;
    for k in 0..given.len() {
        bytes += u64::from(accept_into(records, seat, &mut back, given[k], direction));
    }
    (back, bytes)
}

/// What a give came to: the answer of the put, the blocks that came back after a refusal, the bytes that
/// were passed, and those that came back.
pub(crate) struct Given {
    pub(crate) put: Result<u64, Unsent>,
    pub(crate) back: ArrayVec<u16, 8>,
    pub(crate) lost: u64,
    pub(crate) gained: u64,
}

// Passes the blocks and puts the message: the put's answer, the direction on which the blocks are, and
// their bytes.
fn post<R: Wait, V, G: Gate>(
    desk: &Desk<'_, R, V, G>,
    seat: &mut Seat<Body>,
    e: u16,
    spot: Spot,
    tag: u16,
    given: &[u16],
) -> (Result<u64, Unsent>, u8, u64)
    requires own { IsSeatOf desk.now.records.now seat.old }
    requires end { (l : LotOf Body) × (value_at e seat.old.lots ≡ Some l) × IsBlock seat.old.shape e l × IsEndAt (content_of l.body) spot.channel spot.side }
    requires few { length given.now ≤ MAX_BLOCKS }
    requires distinct { Distinct given.now × (Among given.now e → ⊥) }
    requires held { (r : ℕ) → Among given.now r → (l : LotOf Body) × (value_at r seat.old.lots ≡ Some l) × IsBlock seat.old.shape r l }
    ensures direction { (result.1 ≡ away (item_in (value_at e seat.old.lots)).content) × (result.1 < DIRECTIONS) }
    ensures passed { Acts (passed_on seat.old.process result.1 (shown seat.old.lots given.now)) seat.new.lots seat.old seat.new }
    ensures end { (l : LotOf Body) → value_at e seat.old.lots ≡ Some l → (m : LotOf Body) × (value_at e seat.new.lots ≡ Some m)
        × EndDoes (EndpointPuts tag (record { items = given.now }) result.0) l m × IsBlock seat.old.shape e m }
    ensures gone { (r : ℕ) → Among given.now r → value_at r seat.new.lots ≡ None }
    ensures others { (r : ℕ) → (Among given.now r → ⊥) → e ≢ r → value_at r seat.new.lots ≡ value_at r seat.old.lots }
    ensures bytes { result.2 ≡ lens given.now (λ r. value_at r seat.old.lots) }
{
    let direction = spot.away();
    let bytes = pass_all(desk.records, seat, given, direction);
    desk.gate.between(place_of(seat), Point::Passed);
    let put = put_at(desk, seat, e, tag, given);
    desk.gate.between(place_of(seat), Point::Put);
    (put, direction, bytes)
}

// Passes the blocks, puts the message, and takes the blocks back where the put is refused.
pub(crate) fn give_all<R: Wait, V, G: Gate>(
    desk: &Desk<'_, R, V, G>,
    seat: &mut Seat<Body>,
    e: u16,
    spot: Spot,
    tag: u16,
    given: &[u16],
) -> Given
    requires own { IsSeatOf desk.now.records.now seat.old }
    requires end { (l : LotOf Body) × (value_at e seat.old.lots ≡ Some l) × IsBlock seat.old.shape e l × IsEndAt (content_of l.body) spot.channel spot.side }
    requires few { length given.now ≤ MAX_BLOCKS }
    requires distinct { Distinct given.now × (Among given.now e → ⊥) }
    requires held { (r : ℕ) → Among given.now r → (l : LotOf Body) × (value_at r seat.old.lots ≡ Some l) × IsBlock seat.old.shape r l }
    ensures moved { Acts (passed_on seat.old.process (away (item_in (value_at e seat.old.lots)).content) (shown seat.old.lots given.now)
        ++ accepted_on seat.old.process (away (item_in (value_at e seat.old.lots)).content) (shown seat.new.lots result.back.items)) seat.new.lots seat.old seat.new }
    ensures end { (l : LotOf Body) → value_at e seat.old.lots ≡ Some l → (m : LotOf Body) × (value_at e seat.new.lots ≡ Some m)
        × EndDoes (EndpointPuts tag (record { items = given.now }) result.put) l m × IsBlock seat.old.shape e m }
    ensures others { (r : ℕ) → (Among given.now r → ⊥) → e ≢ r → value_at r seat.new.lots ≡ value_at r seat.old.lots }
    ensures back { AreBack given.now result.back.items seat.new }
    ensures lost { result.lost ≡ lens given.now (λ r. value_at r seat.old.lots) }
    ensures gained { result.gained ≡ lens given.now (λ r. value_at r seat.new.lots) }
    ensures sent { OnOk result.put (result.back.items ≡ []) }
    ensures seen { OnErr result.put ((gots : List Got) × (map record_got gots ≡ given.now)
        × AreGot (IsSeenAfter (away (item_in (value_at e seat.old.lots)).content) seat.old.process seat.old.shape seat.old.front seat.new.front)
        (away (item_in (value_at e seat.old.lots)).content) (shown seat.new.lots result.back.items) gots) }
{
    let (put, direction, lost) = post(desk, seat, e, spot, tag, given);
    let Err(unsent) = put else {
        return Given {
            put,
            back: ArrayVec::new(),
            lost,
            gained: 0,
        };
    };
    let (back, gained) = accept_back(desk.records, seat, given, direction);
    Given {
        put: Err(unsent),
        back,
        lost,
        gained,
    }
}

// The answer of a give: the put's, with what came back.
pub(crate) fn answer(put: Result<u64, Unsent>, back: ArrayVec<u16, 8>) -> Result<u64, Refused>
    ensures { MatchResult put (λ no. result ≡ Ok no) (λ unsent. result ≡ Err (refusal back unsent)) }
{
    match put {
        Ok(no) => Ok(no),
        Err(Unsent::Protocol) => Err(Refused::Protocol { back }),
        Err(Unsent::PeerClosed) => Err(Refused::PeerClosed { back }),
        Err(Unsent::Full) => Err(Refused::Full { back }),
    }
}
