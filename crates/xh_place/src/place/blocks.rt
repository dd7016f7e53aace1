//! Data blocks of a place.
ghost use Rattle.xh_place.specs.Deeds.{vacated};
ghost use Rattle.std.specs.Prelude.{◌≡◌, ◌≢◌, ℕ, ◌+◌, ◌/◌, ◌%◌, ◌<◌, ◌≤◌, ◌++◌, [], length, Some, IfErr, IfOk, MatchResult, OnErr, OnOk};
ghost use Rattle.xh_arena.specs.Views.{LotOf};
ghost use Rattle.xh_core.specs.Calls.{data_tests, split_tests, start};
ghost use Rattle.xh_core.specs.Refusing.{Tested};
ghost use Rattle.xh_model.specs.Arena.{IsGoodCut};
ghost use Rattle.xh_model.specs.Keyed.{Distinct, value_at, without};
ghost use Rattle.xh_model.specs.declared.limits.TheConstants.{MAX_BYTES, MAX_RECORDS, UNIT};
ghost use Rattle.xh_place.specs.declared.body.Body.{Body};
ghost use Rattle.xh_place.specs.Bodies.{content_of, kind_of};
ghost use Rattle.xh_place.specs.Desk.{IsSameDesk, IsSeatAt, StaysAt};
ghost use Rattle.xh_place.specs.Reclaiming.{HasGivenBack};
ghost use Rattle.xh_place.specs.Places.{AreWhole, IsBlock, found};
ghost use Rattle.xh_place.specs.Seen.{Acts, Becomes, less};
ghost use Rattle.xh_records.specs.Seats.{IsSeatOf};
ghost use Rattle.xh_place.specs.Tallies.{gave, took};
ghost use Rattle.xh_place.specs.Vaults.{Asks};
ghost use Rattle.xh_core.specs.Space.{rounded};
ghost use Rattle.xh_place.specs.Calls.{Allocates, FreesBlock, GivesUp, HasBytes, Lends, LendsMut, Makes, Reads, Splits, Writes, space_at};
ghost use Rattle.xh_core.specs.declared.header.Kind.TheVariants as kind;

use crate::body::Body;
use crate::bytes::{bytes_of, lend_lot, read_lot, show_lot, write_lot};
use crate::checks::{test_block, test_cut, test_data};
use crate::desk::Desk;
use crate::gate::Gate;
use crate::list::remove;
use crate::lots::{cut_block, give_up, make_block};
use crate::outlet::Outlet;
use crate::place::Place;
use crate::vaults::Vaults;
use std::alloc::Global;
use xh_core::{Block, Refused};
use xh_model::limits::UNIT;
use xh_records::Records;

// In multiples of 16.
fn round_up(n: u32) -> u32
    requires { (0 < n) × (n ≤ MAX_BYTES) }
    ensures result { result ≡ rounded n }
    ensures room { (n ≤ result) × (result % UNIT ≡ 0) × (result ≤ MAX_BYTES) }
    ensures least { (size : ℕ) → size % UNIT ≡ 0 → n ≤ size → result ≤ size }
{
    (n + (UNIT - 1)) / UNIT * UNIT
}

impl Place {
    /// Gives a new data block of `n` bytes, rounded up to a multiple of 16, all of them zero, at the end of
    /// the list. NoProcess where nobody has had the place, Ended, NoArena, BadSize where `n` is 0 or more than an
    /// arena has, NoRecord, OutOfMemory where a growth was refused, NoSpace and Worn, in this order.
    pub fn alloc<R, V: Vaults, G: Gate>(
        &mut self,
        alloc: Global,
        desk: &mut Desk<'_, R, V, G>,
        n: u32,
        arena: u32,
    ) -> Result<Block, Refused>
        requires at { IsSeatAt V.names desk.old self.old.seat }
        ensures same { StaysAt V.names V.extent desk.old desk.new self.old self.new }
        ensures made { Allocates self.old.state (space_at V.changes V.extent (length self.old.seat.shape.names) desk.old.vaults desk.new.vaults) n arena self.old self.new result }
        ensures tallies { MatchResult result (λ b. V.tallies desk.new.vaults ≡ took arena b.len (V.tallies desk.old.vaults)) (λ _. V.tallies desk.new.vaults ≡ V.tallies desk.old.vaults) }
        ensures asked { OnOk result (Asks V.changes arena desk.old.vaults desk.new.vaults) }
        ensures untouched { IfErr result (λ e. e ≢ Refused.NoSpace → e ≢ Refused.Worn → desk.new.vaults ≡ desk.old.vaults) }
    {
        let mut zeros = Vec::new(alloc);
        self.make(desk, &mut zeros, n as usize, arena)
    }

    /// As `alloc`, of a block of these bytes, up to a multiple of 16 followed by zeros: the buffer itself is the block's, and an empty
    /// one is left. It grows once where it has no room for the zeros; one whose capacity is more than an eighth above the block is
    /// shrunk, and where that isn't done it is refused as OutOfMemory. Refused, the bytes are as they were; the capacity may not be.
    pub fn put<R, V: Vaults, G: Gate>(
        &mut self,
        desk: &mut Desk<'_, R, V, G>,
        bytes: &mut Vec<u8>,
        arena: u32,
    ) -> Result<Block, Refused>
        requires at { IsSeatAt V.names desk.old self.old.seat }
        ensures same { StaysAt V.names V.extent desk.old desk.new self.old self.new }
        ensures made { Makes self.old.state (space_at V.changes V.extent (length self.old.seat.shape.names) desk.old.vaults desk.new.vaults)
            (length bytes.old.items) bytes.old.items arena self.old self.new result }
        ensures tallies { MatchResult result (λ b. V.tallies desk.new.vaults ≡ took arena b.len (V.tallies desk.old.vaults)) (λ _. V.tallies desk.new.vaults ≡ V.tallies desk.old.vaults) }
        ensures asked { OnOk result (Asks V.changes arena desk.old.vaults desk.new.vaults) }
        ensures untouched { IfErr result (λ e. e ≢ Refused.NoSpace → e ≢ Refused.Worn → desk.new.vaults ≡ desk.old.vaults) }
        ensures bytes { MatchResult result (λ _. bytes.new.items ≡ []) (λ _. bytes.new.items ≡ bytes.old.items) }
    {
        let n = bytes.len();
        self.make(desk, bytes, n, arena)
    }

    // A new block of `n` bytes, which begins with those of the buffer, and the buffer is left empty.
    #[inline(always)]
    fn make<R, V: Vaults, G: Gate>(
        &mut self,
        desk: &mut Desk<'_, R, V, G>,
        buffer: &mut Vec<u8>,
        n: usize,
        arena: u32,
    ) -> Result<Block, Refused>
        requires at { IsSeatAt V.names desk.old self.old.seat }
        requires room { length buffer.old.items ≤ n }
        ensures same { StaysAt V.names V.extent desk.old desk.new self.old self.new }
        ensures made { Makes self.old.state (space_at V.changes V.extent (length self.old.seat.shape.names) desk.old.vaults desk.new.vaults)
            n buffer.old.items arena self.old self.new result }
        ensures tallies { MatchResult result (λ b. V.tallies desk.new.vaults ≡ took arena b.len (V.tallies desk.old.vaults)) (λ _. V.tallies desk.new.vaults ≡ V.tallies desk.old.vaults) }
        ensures asked { OnOk result (Asks V.changes arena desk.old.vaults desk.new.vaults) }
        ensures untouched { IfErr result (λ e. e ≢ Refused.NoSpace → e ≢ Refused.Worn → desk.new.vaults ≡ desk.old.vaults) }
        ensures buffer { MatchResult result (λ _. buffer.new.items ≡ []) (λ _. buffer.new.items ≡ buffer.old.items) }
    {
        self.state.check_start()?;
        if arena >= u32::from(desk.vaults.arenas()) {
            return Err(Refused::NoArena);
        }
        if n == 0 || n > desk.vaults.size() as usize {
            return Err(Refused::BadSize);
        }
        let arena = arena as u8;
        let len = round_up(n as u32);
        let rec = make_block(desk, &mut self.seat, buffer, len, arena)?;
        self.list.push_reserved(rec);
        self.total += u64::from(len);
        Ok(Block { rec, len })
    }

    // A block's bytes go back, and its record is free. It answers the bytes, and what the block carried goes to the outlet.
    #[inline(always)]
    pub(super) fn give_up<R, V: Vaults, G: Gate, E: Outlet<V>>(
        &mut self,
        desk: &mut Desk<'_, R, V, G>,
        r: u16,
        out: &mut E,
    ) -> u32
        requires at { IsSeatAt V.names desk.old self.old.seat }
        requires listed { (l : LotOf Body) × (value_at r self.old.seat.lots ≡ Some l) }
        ensures same { IsSameDesk V.names V.extent desk.old desk.new }
        ensures list { Becomes (without r self.old.seat.lots) (less r self.old.list) (vacated self.old.seat.process r) self.old self.new }
        ensures once { Distinct self.old.list }
        ensures back { (V.tallies desk.new.vaults ≡ gave (r / MAX_RECORDS) result (V.tallies desk.old.vaults)) × HasGivenBack result (V.tallies desk.old.vaults) (V.tallies desk.new.vaults) }
        ensures asked { Asks V.changes (r / MAX_RECORDS) desk.old.vaults desk.new.vaults }
        ensures block { (l : LotOf Body) → value_at r self.old.seat.lots ≡ Some l → IsBlock self.old.seat.shape r l × (result ≡ l.len) × E.has out.new l.body }
    {
        remove(&mut self.list, r);
        let len = give_up(desk, &mut self.seat, r, out);
        self.total -= u64::from(len);
        len
    }

    /// A data block's bytes go back, and its record is free. It answers the bytes. NoProcess, Ended, NotOwned, NotData.
    pub fn free<R, V: Vaults, G: Gate>(
        &mut self,
        desk: &mut Desk<'_, R, V, G>,
        r: u16,
    ) -> Result<u32, Refused>
        requires at { IsSeatAt V.names desk.old self.old.seat }
        ensures same { StaysAt V.names V.extent desk.old desk.new self.old self.new }
        ensures freed { FreesBlock self.old.state r self.old self.new result }
        ensures tallies { MatchResult result (λ n. V.tallies desk.new.vaults ≡ gave (r / MAX_RECORDS) n (V.tallies desk.old.vaults)) (λ _. V.tallies desk.new.vaults ≡ V.tallies desk.old.vaults) }
        ensures arena { OnOk result (r / MAX_RECORDS < length self.old.seat.shape.names) }
        ensures asked { MatchResult result (λ _. Asks V.changes (r / MAX_RECORDS) desk.old.vaults desk.new.vaults) (λ _. desk.new.vaults ≡ desk.old.vaults) }
    {
        self.release(desk, r, &mut ())
    }

    /// As `free`. It answers the block's buffer with all its bytes, so with the zeros up to a multiple of 16.
    pub fn into_bytes<R, V: Vaults, G: Gate>(
        &mut self,
        desk: &mut Desk<'_, R, V, G>,
        r: u16,
    ) -> Result<Vec<u8>, Refused>
        requires at { IsSeatAt V.names desk.old self.old.seat }
        ensures same { StaysAt V.names V.extent desk.old desk.new self.old self.new }
        ensures freed { GivesUp (λ v. HasBytes r self.old.seat v.items) self.old.state r self.old self.new result }
        ensures tallies { MatchResult result (λ v. V.tallies desk.new.vaults ≡ gave (r / MAX_RECORDS) (length v.items) (V.tallies desk.old.vaults))
            (λ _. V.tallies desk.new.vaults ≡ V.tallies desk.old.vaults) }
        ensures arena { OnOk result (r / MAX_RECORDS < length self.old.seat.shape.names) }
        ensures asked { MatchResult result (λ _. Asks V.changes (r / MAX_RECORDS) desk.old.vaults desk.new.vaults) (λ _. desk.new.vaults ≡ desk.old.vaults) }
    {
        let mut body = Body::Nothing;
        let len = self.release(desk, r, &mut body)?;
        Ok(bytes_of(body, len))
    }

    // A data block's bytes go back, and its record is free. What it carried goes to the outlet.
    #[inline(always)]
    fn release<R, V: Vaults, G: Gate, E: Outlet<V>>(
        &mut self,
        desk: &mut Desk<'_, R, V, G>,
        r: u16,
        out: &mut E,
    ) -> Result<u32, Refused>
        requires at { IsSeatAt V.names desk.old self.old.seat }
        ensures same { StaysAt V.names V.extent desk.old desk.new self.old self.new }
        ensures freed { FreesBlock self.old.state r self.old self.new result }
        ensures tallies { MatchResult result (λ n. V.tallies desk.new.vaults ≡ gave (r / MAX_RECORDS) n (V.tallies desk.old.vaults)) (λ _. V.tallies desk.new.vaults ≡ V.tallies desk.old.vaults) }
        ensures arena { OnOk result (r / MAX_RECORDS < length self.old.seat.shape.names) }
        ensures asked { MatchResult result (λ _. Asks V.changes (r / MAX_RECORDS) desk.old.vaults desk.new.vaults) (λ _. desk.new.vaults ≡ desk.old.vaults) }
        ensures body { IfOk result (λ n. (l : LotOf Body) × (value_at r self.old.seat.lots ≡ Some l) × IsBlock self.old.seat.shape r l × (kind_of (content_of l.body) ≡ kind.Data) × (n ≡ l.len)
            × E.has out.new l.body) }
    {
        test_data(desk.records, &mut self.seat, self.state, r)?;
        Ok(self.give_up(desk, r, out))
    }

    /// Cuts a data block after its first `k` bytes, a multiple of 16: the head, which keeps its record and
    /// its place in the list, and the tail, at its end. NoProcess, Ended, NotOwned, NotData, BadCut where `k` is 0, no
    /// multiple of 16 or not less than the block has, NoRecord, and OutOfMemory where a growth was refused,
    /// in this order.
    pub fn split<R, V: Vaults, G: Gate>(
        &mut self,
        alloc: Global,
        desk: &mut Desk<'_, R, V, G>,
        r: u16,
        k: u32,
    ) -> Result<(Block, Block), Refused>
        requires at { IsSeatAt V.names desk.old self.old.seat }
        ensures same { StaysAt V.names V.extent desk.old desk.new self.old self.new }
        ensures cut { Splits self.old.state r k self.old self.new result }
        ensures tallies { V.tallies desk.new.vaults ≡ V.tallies desk.old.vaults }
        ensures asked { MatchResult result (λ _. Asks V.changes (r / MAX_RECORDS) desk.old.vaults desk.new.vaults) (λ _. desk.new.vaults ≡ desk.old.vaults) }
    {
        let len = test_cut(desk.records, &mut self.seat, self.state, r, k)?;
        let rec = cut_block(alloc, desk, &mut self.seat, r, k)?;
        self.list.push_reserved(rec);
        let len = len - k;
        Ok((Block { rec: r, len: k }, Block { rec, len }))
    }

    /// The bytes of a data block from `at` on, as many as `out` has. NoProcess, Ended, NotOwned, NotData, and BadRange
    /// where they reach past its end; `out` stays as it was then.
    pub fn read(
        &mut self,
        records: &Records<Body>,
        r: u16,
        at: u32,
        out: &mut [u8],
    ) -> Result<(), Refused>
        requires { IsSeatOf records.now self.old.seat }
        ensures read { Reads self.old.state r at out.new self.old self.new result }
        ensures refused { OnErr result (out.new ≡ out.old) }
    {
        test_block(records, &mut self.seat, self.state, r)?;
        read_lot(records, &mut self.seat, r, at, out)
    }

    /// These bytes stand in a data block in the place of as many from `at` on. NoProcess, Ended, NotOwned, NotData, and
    /// BadRange where they reach past its end.
    pub fn write(
        &mut self,
        records: &Records<Body>,
        r: u16,
        at: u32,
        bytes: &[u8],
    ) -> Result<(), Refused>
        requires { IsSeatOf records.now self.old.seat }
        ensures { Writes self.old.state r at bytes.now self.old self.new result }
    {
        test_block(records, &mut self.seat, self.state, r)?;
        write_lot(records, &mut self.seat, r, at, bytes)
    }

    /// One call of `f` at the bytes of a data block, all of them. It gives what `f` answers. NoProcess, Ended, NotOwned
    /// and NotData, in this order; `f` isn't called then.
    pub fn with_bytes<A, F: FnMut(&[u8]) -> A>(
        &mut self,
        records: &Records<Body>,
        r: u16,
        f: &mut F,
    ) -> Result<A, Refused>
        requires own { IsSeatOf records.now self.old.seat }
        requires callable { F.IsAlwaysCallable f.old }
        ensures { Lends F.FnMut self.old.state r f.old f.new self.old self.new result }
    {
        test_block(records, &mut self.seat, self.state, r)?;
        show_lot(records, &mut self.seat, r, f)
    }

    /// As `with_bytes`; `f` may change the bytes where they stand.
    pub fn with_bytes_mut<A, F: FnMut(&mut [u8]) -> A>(
        &mut self,
        records: &Records<Body>,
        r: u16,
        f: &mut F,
    ) -> Result<A, Refused>
        requires own { IsSeatOf records.now self.old.seat }
        requires callable { F.IsAlwaysCallable f.old }
        ensures { LendsMut F.FnMut self.old.state r f.old f.new self.old self.new result }
    {
        test_block(records, &mut self.seat, self.state, r)?;
        lend_lot(records, &mut self.seat, r, f)
    }
}
