// The tests of calls, and what they look at: functions of the seat.
ghost use Rattle.std.specs.Prelude.{◌≡◌, ◌++◌, ◌∷◌, ◌<◌, ◌≤◌, [], Some, is_none, is_some, length};
ghost use Rattle.std.specs.List.{list_all};
ghost use Rattle.xh_arena.specs.Views.{LotOf};
ghost use Rattle.xh_core.specs.Calls.{data_tests, end_tests, given_tests, split_tests, start};
ghost use Rattle.xh_core.specs.declared.header.Kind.TheVariants as kind;
ghost use Rattle.xh_core.specs.declared.refused.Refused.TheVariants.{NotOwned};
ghost use Rattle.xh_core.specs.declared.status.Status.TheVariants as status;
ghost use Rattle.xh_core.specs.Refusing.{Tested};
ghost use Rattle.xh_model.specs.Arena.{IsGoodCut};
ghost use Rattle.xh_model.specs.Keyed.{value_at};
ghost use Rattle.xh_model.specs.declared.limits.TheConstants.{MAX_BLOCKS};
ghost use Rattle.xh_place.specs.Bodies.{IsEndAt, content_of, kind_of};
ghost use Rattle.xh_place.specs.Places.{AreWhole, found};
ghost use Rattle.xh_place.specs.Seen.{Acts};
ghost use Rattle.xh_place.specs.declared.body.Body.{Body};
ghost use Rattle.xh_records.specs.Seats.{IsSeatOf};

use crate::body::Body;
use crate::end_lots::spot_at;
use crate::lots::look;
use xh_channel::Spot;
use xh_core::{Header, Kind, Refused, Status, is_twice};
use xh_model::limits::{MAX_BLOCKS, UNIT};
use xh_records::{OwnerWord, Records, Seat};

// Whether the seat holds the record, as its word says.
pub(crate) fn holds(records: &Records<Body>, seat: &mut Seat<Body>, r: u16) -> bool
    requires own { IsSeatOf records.now seat.old }
    requires whole { AreWhole seat.old.shape seat.old.lots }
    ensures same { Acts [] seat.old.lots seat.old seat.new }
    ensures holds { result ≡ is_some (value_at r seat.old.lots) }
{
    if !records.has(r) {
        return false;
    }
    records.owner_word(seat, r) == OwnerWord::Owned(seat.process()).encode()
}

// Whether the seat holds each of the records.
fn holds_all(records: &Records<Body>, seat: &mut Seat<Body>, blocks: &[u16]) -> bool
    requires own { IsSeatOf records.now seat.old }
    requires whole { AreWhole seat.old.shape seat.old.lots }
    ensures same { Acts [] seat.old.lots seat.old seat.new }
    ensures all { result ≡ list_all (λ r. is_some (value_at r seat.old.lots)) blocks.now }
{
    for r in blocks {
        if !holds(records, seat, *r) {
            return false;
        }
    }
    true
}

// The length and kind of the record's block, where the seat holds it.
pub(crate) fn find(records: &Records<Body>, seat: &mut Seat<Body>, r: u16) -> Option<Header>
    requires own { IsSeatOf records.now seat.old }
    requires whole { AreWhole seat.old.shape seat.old.lots }
    ensures same { Acts [] seat.old.lots seat.old seat.new }
    ensures found { result ≡ found seat.old r }
{
    if !holds(records, seat, r) {
        return None;
    }
    Some(look(records, seat, r))
}

// The tests of a call on a block.
#[inline(always)]
pub(crate) fn test_block(
    records: &Records<Body>,
    seat: &mut Seat<Body>,
    state: Status,
    r: u16,
) -> Result<(), Refused>
    requires own { IsSeatOf records.now seat.old }
    requires whole { AreWhole seat.old.shape seat.old.lots }
    ensures same { Acts [] seat.old.lots seat.old seat.new }
    ensures tested { Tested (start state ++ (is_none (found seat.old r), NotOwned) ∷ []) result (λ _. (l : LotOf Body) × (value_at r seat.old.lots ≡ Some l)) }
{
    state.check_start()?;
    if !holds(records, seat, r) {
        return Err(Refused::NotOwned);
    }
    Ok(())
}

// The tests of a call on a data block.
#[inline(always)]
pub(crate) fn test_data(
    records: &Records<Body>,
    seat: &mut Seat<Body>,
    state: Status,
    r: u16,
) -> Result<Header, Refused>
    requires own { IsSeatOf records.now seat.old }
    requires whole { AreWhole seat.old.shape seat.old.lots }
    ensures same { Acts [] seat.old.lots seat.old seat.new }
    ensures tested { Tested (start state ++ data_tests (found seat.old r)) result
        (λ s. (l : LotOf Body) × (value_at r seat.old.lots ≡ Some l) × (s.len ≡ l.len) × (kind_of (content_of l.body) ≡ kind.Data)) }
{
    state.check_start()?;
    let Some(header) = find(records, seat, r) else {
        return Err(Refused::NotOwned);
    };
    if header.kind == Kind::End {
        return Err(Refused::NotData);
    }
    Ok(header)
}

// The tests of a split: the block's length.
pub(crate) fn test_cut(
    records: &Records<Body>,
    seat: &mut Seat<Body>,
    state: Status,
    r: u16,
    k: u32,
) -> Result<u32, Refused>
    requires own { IsSeatOf records.now seat.old }
    requires whole { AreWhole seat.old.shape seat.old.lots }
    ensures same { Acts [] seat.old.lots seat.old seat.new }
    ensures tested { Tested (start state ++ split_tests (found seat.old r) k) result
        (λ n. (l : LotOf Body) × (value_at r seat.old.lots ≡ Some l) × (kind_of (content_of l.body) ≡ kind.Data) × (l.len ≡ n) × IsGoodCut k n) }
{
    let header = test_data(records, seat, state, r)?;
    if k == 0 || k % UNIT != 0 || k >= header.len {
        return Err(Refused::BadCut);
    }
    Ok(header.len)
}

// The tests of a call on an endpoint: its channel and side.
pub(crate) fn test_end(
    records: &Records<Body>,
    seat: &mut Seat<Body>,
    state: Status,
    e: u16,
) -> Result<Spot, Refused>
    requires own { IsSeatOf records.now seat.old }
    requires whole { AreWhole seat.old.shape seat.old.lots }
    ensures same { Acts [] seat.old.lots seat.old seat.new }
    ensures tested { Tested (start state ++ end_tests (found seat.old e)) result
        (λ s. (state ≡ status.Running) × ((l : LotOf Body) × (value_at e seat.old.lots ≡ Some l) × IsEndAt (content_of l.body) s.channel s.side)) }
{
    state.check_start()?;
    if !holds(records, seat, e) {
        return Err(Refused::NotOwned);
    }
    let Some(spot) = spot_at(records, seat, e) else {
        return Err(Refused::NotEndpoint);
    };
    Ok(spot)
}

// The tests of a give on its blocks.
pub(crate) fn test_given(
    records: &Records<Body>,
    seat: &mut Seat<Body>,
    e: u16,
    blocks: &[u16],
) -> Result<(), Refused>
    requires own { IsSeatOf records.now seat.old }
    requires whole { AreWhole seat.old.shape seat.old.lots }
    ensures same { Acts [] seat.old.lots seat.old seat.new }
    ensures tested { Tested (given_tests (λ r. is_some (value_at r seat.old.lots)) e blocks.now) result (λ _. length blocks.now ≤ MAX_BLOCKS) }
{
    if blocks.len() > MAX_BLOCKS {
        return Err(Refused::TooMany);
    }
    if !holds_all(records, seat, blocks) {
        return Err(Refused::NotOwned);
    }
    if blocks.contains(&e) || is_twice(blocks) {
        return Err(Refused::Twice);
    }
    Ok(())
}
