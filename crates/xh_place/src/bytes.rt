// What a place does to the bytes of a data block, in its lot.
ghost use Rattle.std.specs.Fn.{CalledAt, CalledAtMut};
ghost use Rattle.std.specs.Prelude.{◌≡◌, ◌+◌, ◌<◌, ◌≤◌, Some, IfSome, OnErr, length, true};
ghost use Rattle.xh_arena.specs.Views.{LotOf};
ghost use Rattle.xh_core.specs.Calls.{range_tests};
ghost use Rattle.xh_core.specs.declared.header.Kind.TheVariants as kind;
ghost use Rattle.xh_core.specs.Refusing.{Tested};
ghost use Rattle.xh_model.specs.Keyed.{value_at, put};
ghost use Rattle.xh_place.specs.Bodies.{bytes, content_of, fits_in, kind_of, bytes_part, patched, tail_of};
ghost use Rattle.xh_place.specs.Calls.{bytes_in, made_of};
ghost use Rattle.xh_place.specs.Places.{header_of, item_of};
ghost use Rattle.xh_place.specs.declared.body.Body.{Body};
ghost use Rattle.xh_place.specs.inner.Lots.{IsData};
ghost use Rattle.xh_records.specs.Seats.{IsSeatOf, IsRecord, with_lots};
ghost use Rattle.xh_records.specs.Showing.{IsFull, IsLotOf};

use crate::body::Body;
use crate::lots::header_of;
use std::alloc::Global;
use xh_arena::Lot;
use xh_core::{Header, Kind, Refused};
use xh_records::{Records, Seat};

// The tests of a call on `count` bytes of a block from `at` on.
#[inline(always)]
fn check_range(header: Header, at: u32, count: usize) -> Result<(), Refused>
    ensures { Tested (range_tests (Some header) at count) result (λ _. (header.kind ≡ kind.Data) × (at + count ≤ header.len)) }
{
    if header.kind == Kind::End {
        return Err(Refused::NotData);
    }
    let len = header.len as usize;
    if count > len || at as usize > len - count {
        return Err(Refused::BadRange);
    }
    Ok(())
}

// Its bytes from `at` on, as many as `out` has, where it is a data block that has them.
#[tactic(auto, using(xh_model::proofs::Keyed::put_same))]
pub(crate) fn read_lot(
    records: &Records<Body>,
    seat: &mut Seat<Body>,
    r: u16,
    at: u32,
    out: &mut [u8],
) -> Result<(), Refused>
    requires own { IsSeatOf records.now seat.old × IsRecord records.now.shape r }
    requires held { (l : LotOf Body) × (value_at r seat.old.lots ≡ Some l) × IsLotOf seat.old.shape r l × IsFull fits_in l }
    ensures same { seat.new ≡ seat.old }
    ensures read { (l : LotOf Body) → value_at r seat.old.lots ≡ Some l → Tested (range_tests (Some (header_of (item_of l))) at (length out.old)) result
        (λ _. (kind_of (content_of l.body) ≡ kind.Data) × (out.new ≡ bytes_part at (length out.old) (content_of l.body))) }
    ensures refused { OnErr result (out.new ≡ out.old) }
{
    records.with_lot(
        seat,
        r,
        &mut |lot: &mut Lot<Body>| -> Result<(), Refused>
            requires { IsFull fits_in lot.old }
            ensures lot { lot.new ≡ lot.old }
            ensures read { Tested (range_tests (Some (header_of (item_of lot.old))) at (length out.entry.now)) result
                (λ _. (kind_of (content_of lot.old.body) ≡ kind.Data) × (out.exit.now ≡ bytes_part at (length out.entry.now) (content_of lot.old.body))) }
            ensures refused { OnErr result (out.exit.now ≡ out.entry.now) }
        {
            check_range(header_of(lot), at, out.len())?;
            let Body::Data(buffer) = lot.body() else {
                unreachable!()
            };
            let at = at as usize;
            out.copy_from_slice(&buffer.as_slice()[at..at + out.len()]);
            Ok(())
        },
    )
}

// These bytes stand in it in the place of as many from `at` on, where it is a data block that has them.
#[tactic(auto, using(xh_model::proofs::Keyed::put_same))]
pub(crate) fn write_lot(
    records: &Records<Body>,
    seat: &mut Seat<Body>,
    r: u16,
    at: u32,
    bytes: &[u8],
) -> Result<(), Refused>
    requires own { IsSeatOf records.now seat.old × IsRecord records.now.shape r }
    requires held { (l : LotOf Body) × (value_at r seat.old.lots ≡ Some l) × IsLotOf seat.old.shape r l × IsFull fits_in l }
    ensures written { (l : LotOf Body) → value_at r seat.old.lots ≡ Some l → Tested (range_tests (Some (header_of (item_of l))) at (length bytes.now)) result
        (λ _. IsData l × (at + length bytes.now ≤ l.len) × ((m : LotOf Body) × (m ≡ record l { body = m.body }) × (content_of m.body ≡ patched at bytes.now (content_of l.body))
        × (seat.new ≡ with_lots seat.old (put r m seat.old.lots)))) }
    ensures refused { OnErr result (seat.new ≡ seat.old) }
{
    records.with_lot(
        seat,
        r,
        &mut |lot: &mut Lot<Body>| -> Result<(), Refused>
            requires { IsFull fits_in lot.old }
            ensures written { Tested (range_tests (Some (header_of (item_of lot.old))) at (length bytes.entry.now)) result
                (λ _. IsData lot.old × (at + length bytes.entry.now ≤ lot.old.len) × (lot.new ≡ record lot.old { body = lot.new.body })
                × (content_of lot.new.body ≡ patched at bytes.entry.now (content_of lot.old.body))) }
            ensures refused { OnErr result (lot.new ≡ lot.old) }
        {
            check_range(header_of(lot), at, bytes.len())?;
            let Body::Data(buffer) = lot.body_mut() else {
                unreachable!()
            };
            let at = at as usize;
            buffer.as_mut_slice()[at..at + bytes.len()].copy_from_slice(bytes);
            Ok(())
        },
    )
}

// One call of `f` at all its bytes, where it is a data block.
#[tactic(auto, using(xh_model::proofs::Keyed::put_same))]
pub(crate) fn show_lot<A, F: FnMut(&[u8]) -> A>(
    records: &Records<Body>,
    seat: &mut Seat<Body>,
    r: u16,
    f: &mut F,
) -> Result<A, Refused>
    requires own { IsSeatOf records.now seat.old × IsRecord records.now.shape r }
    requires held { (l : LotOf Body) × (value_at r seat.old.lots ≡ Some l) × IsLotOf seat.old.shape r l × IsFull fits_in l }
    requires callable { F.IsAlwaysCallable f.old }
    ensures same { seat.new ≡ seat.old }
    ensures shown { (l : LotOf Body) → value_at r seat.old.lots ≡ Some l → Tested (range_tests (Some (header_of (item_of l))) 0 0) result
        (λ a. (item_of l ≡ made_of (bytes_in (content_of l.body))) × CalledAt F.FnMut f.old (bytes_in (content_of l.body)) a f.new) }
    ensures refused { OnErr result (f.new ≡ f.old) }
{
    records.with_lot(
        seat,
        r,
        &mut |lot: &mut Lot<Body>| -> Result<A, Refused>
            requires { IsFull fits_in lot.old × F.IsAlwaysCallable f.now }
            ensures lot { lot.new ≡ lot.old }
            ensures shown { Tested (range_tests (Some (header_of (item_of lot.old))) 0 0) result
                (λ a. (item_of lot.old ≡ made_of (bytes_in (content_of lot.old.body))) × CalledAt F.FnMut f.entry.now (bytes_in (content_of lot.old.body)) a f.exit.now) }
            ensures refused { OnErr result (f.exit.now ≡ f.entry.now) }
        {
            check_range(header_of(lot), 0, 0)?;
            let Body::Data(buffer) = lot.body() else {
                unreachable!()
            };
            Ok(f(buffer.as_slice()))
        },
    )
}

// One call of `f` at all its bytes, where it is a data block, and as many as `f` leaves stand in their place.
#[tactic(auto, using(xh_model::proofs::Keyed::put_same))]
pub(crate) fn lend_lot<A, F: FnMut(&mut [u8]) -> A>(
    records: &Records<Body>,
    seat: &mut Seat<Body>,
    r: u16,
    f: &mut F,
) -> Result<A, Refused>
    requires own { IsSeatOf records.now seat.old × IsRecord records.now.shape r }
    requires held { (l : LotOf Body) × (value_at r seat.old.lots ≡ Some l) × IsLotOf seat.old.shape r l × IsFull fits_in l }
    requires callable { F.IsAlwaysCallable f.old }
    ensures lent { (l : LotOf Body) → value_at r seat.old.lots ≡ Some l → Tested (range_tests (Some (header_of (item_of l))) 0 0) result
        (λ a. (item_of l ≡ made_of (bytes_in (content_of l.body))) × ((m : LotOf Body) × CalledAtMut F.FnMut f.old (bytes_in (content_of l.body)) a f.new (bytes_in (content_of m.body))
        × (m ≡ record l { body = m.body }) × (item_of m ≡ made_of (bytes_in (content_of m.body))) × (seat.new ≡ with_lots seat.old (put r m seat.old.lots)))) }
    ensures refused { OnErr result ((seat.new ≡ seat.old) × (f.new ≡ f.old)) }
{
    records.with_lot(
        seat,
        r,
        &mut |lot: &mut Lot<Body>| -> Result<A, Refused>
            requires { IsFull fits_in lot.old × F.IsAlwaysCallable f.now }
            ensures lent { Tested (range_tests (Some (header_of (item_of lot.old))) 0 0) result
                (λ a. (item_of lot.old ≡ made_of (bytes_in (content_of lot.old.body)))
                × CalledAtMut F.FnMut f.entry.now (bytes_in (content_of lot.old.body)) a f.exit.now (bytes_in (content_of lot.new.body))
                × (lot.new ≡ record lot.old { body = lot.new.body }) × (item_of lot.new ≡ made_of (bytes_in (content_of lot.new.body)))) }
            ensures refused { OnErr result ((lot.new ≡ lot.old) × (f.exit.now ≡ f.entry.now)) }
        {
            check_range(header_of(lot), 0, 0)?;
            let Body::Data(buffer) = lot.body_mut() else {
                unreachable!()
            };
            Ok(f(buffer.as_mut_slice()))
        },
    )
}

// The bytes that a data block carried.
pub(crate) fn bytes_of(body: Body, len: u32) -> Vec<u8>
    requires { (fits_in body len ≡ true) × (0 < len) × (kind_of (content_of body) ≡ kind.Data) }
    ensures { (length result.items ≡ len) × (content_of body ≡ bytes result.items) }
{
    match body {
        Body::Data(bytes) => bytes,
        Body::Nothing => unreachable!(),
        Body::End(_end) => unreachable!(),
    }
}

// Its bytes past the first `k`, in a buffer of their own.
#[tactic(auto, using(xh_model::proofs::Keyed::put_same))]
pub(crate) fn rest_of(
    alloc: Global,
    records: &Records<Body>,
    seat: &mut Seat<Body>,
    r: u16,
    k: usize,
) -> Option<Vec<u8>>
    requires own { IsSeatOf records.now seat.old × IsRecord records.now.shape r }
    requires held { (l : LotOf Body) × (value_at r seat.old.lots ≡ Some l) × IsLotOf seat.old.shape r l × IsData l × (k ≤ l.len) }
    ensures same { seat.new ≡ seat.old }
    ensures bytes { (l : LotOf Body) → value_at r seat.old.lots ≡ Some l → IfSome result (λ v. bytes v.items ≡ tail_of k (content_of l.body)) }
{
    records.with_lot(
        seat,
        r,
        &mut |lot: &mut Lot<Body>|
            requires { IsData lot.old × (k ≤ lot.old.len) }
            ensures lot { lot.new ≡ lot.old }
            ensures bytes { IfSome result (λ v. bytes v.items ≡ tail_of k (content_of lot.old.body)) }
        {
            let Body::Data(buffer) = lot.body() else {
                unreachable!()
            };
            let mut copy = Vec::new(alloc);
            copy.extend_from_slice(&buffer.as_slice()[k..]).ok()?;
            Some(copy)
        },
    )
}
