//! The table in a vault, with the vault's seat.
ghost use Rattle.std.specs.Prelude.{◌≡◌, [], ◌∷◌, ◌++◌, IfOk};
ghost use Rattle.xh_arena.specs.inner.Holding.{view_in};
ghost use Rattle.xh_arena.specs.inner.Parts.{first_parts, part_in, IsOne, under, top, below, AreOfOneWhole, with_length, with_taken, with_back};

use crate::name::VaultName;
use crate::parts::{Change, Changes, Law, Nothing, OffTheTop, OnTop, Under, View};
use atomic_table::{Badge, Seat, Table};
use std::alloc::{AllocError, Global};
use std::marker::{Brand, Model};
use std::mem;

/// A vault's shares. Contracts see the parts that the vault itself has.
#[derive(Drop)]
pub struct Shares {
    table: Table<(), View, (u16, u8), Law, Global>,
    seat: Seat<(), View>,
}

impl Model for Shares {
    ghost use Rattle.std.specs.Prelude.{◌≡◌};
    ghost use Rattle.xh_arena.specs.inner.Holding.{Holding};

    ghost Value = { Holding };

    ghost view = { λ s. record { id = s.seat.table_id; parts = s.seat.me.0 } };

    ghost invariant = { λ s. (s.seat.table_id ≡ s.table.shared.table_id) × (s.table.shared.table_id.words ≡ 1) };
}

impl Shares {
    /// All parts of a new vault.
    pub fn new(alloc: Global, records: u16, workers: u8) -> Result<Shares, AllocError>
        ensures { IfOk result (λ s. s.parts ≡ first_parts records workers) }
    {
        let (table, seat) = Table::of_words(alloc, &[0], &(records, workers))?;
        Ok(Shares { table, seat })
    }

    /// The parts of a share go before the vault's own.
    #[tactic(auto, using(crate::proofs::Moves::joins))]
    fn join(&mut self, share: &mut Badge<View>)
        requires { (share.old.table_id ≡ self.old.id) × (share.old.views ≡ view_in share.old.views ∷ []) }
        ensures { (self.new.id ≡ self.old.id) × (self.new.parts ≡ view_in share.old.views ++ self.old.parts) × (share.new.views ≡ []) }
    {
        let badge = mem::replace(share, Badge::blank());
        let table = &self.table;
        table
            .shared
            .join_seat::<OnTop>(&mut self.seat, badge.into_seat());
    }

    /// The first part goes to a share.
    #[tactic(auto, using(crate::proofs::Moves::splits))]
    pub fn split(&mut self) -> Badge<View>
        ensures { (self.new.id ≡ self.old.id) × (self.new.parts ≡ below self.old.parts) × (result.table_id ≡ self.old.id) × (result.views ≡ top self.old.parts ∷ []) }
    {
        let table = &self.table;
        table
            .shared
            .split_seat::<OffTheTop>(&mut self.seat)
            .into_badge()
    }

    /// The vault's own parts are changed, and what they were is of one whole.
    fn play<C: Change>(&mut self)
        ensures { (self.new.id ≡ self.old.id) × (self.new.parts ≡ C.change self.old.parts) × AreOfOneWhole self.old.parts }
    {
        let table = &self.table;
        table.shared.load::<Changes<C>>(&mut self.seat, 0);
    }

    /// Shows that the vault's own parts are of one whole.
    pub fn look(&mut self)
        ensures { (self.new ≡ self.old) × AreOfOneWhole self.old.parts }
    {
        self.play::<Brand>();
    }

    /// A share of nothing.
    #[tactic(auto, using(crate::proofs::Moves::splits_nothing))]
    pub fn name(&mut self) -> VaultName
        ensures same { self.new ≡ self.old }
        ensures name { result ≡ self.old.id }
    {
        let table = &self.table;
        let seat = table.shared.split_seat::<Nothing>(&mut self.seat);
        VaultName::of(seat.into_badge())
    }

    /// The part of a share that is taken in for good goes under the vault's own.
    #[tactic(auto, using(crate::proofs::Moves::joins_under))]
    pub fn keep(&mut self, share: Badge<View>)
        requires { (share.table_id ≡ self.old.id) × IsOne share.views }
        ensures { (self.new.id ≡ self.old.id) × (self.new.parts ≡ under self.old.parts (part_in share.views ∷ [])) }
    {
        let table = &self.table;
        table
            .shared
            .join_seat::<Under>(&mut self.seat, share.into_seat());
    }

    /// The share's part and the vault's own are changed together, and what they were is of one whole. The number is for
    /// the proof alone.
    fn change<C: Change>(&mut self, share: &mut Badge<View>, amount: u32)
        requires { (share.old.table_id ≡ self.old.id) × IsOne share.old.views }
        ensures same { (self.new.id ≡ self.old.id) × (share.new.table_id ≡ share.old.table_id) }
        ensures fits { AreOfOneWhole (part_in share.old.views ∷ self.old.parts) }
        ensures changed { let all = C.change (part_in share.old.views ∷ self.old.parts) in (self.new.parts ≡ below all) × (share.new.views ≡ top all ∷ []) }
    {
        self.join(share);
        self.play::<C>();
        *share = self.split();
    }

    /// Shows that the share and the vault's own parts are of one whole.
    pub fn look_at(&mut self, share: &mut Badge<View>)
        requires { (share.old.table_id ≡ self.old.id) × IsOne share.old.views }
        ensures same { (self.new ≡ self.old) × (share.new.table_id ≡ share.old.table_id) × (share.new.views ≡ share.old.views) }
        ensures fits { AreOfOneWhole (part_in share.old.views ∷ self.old.parts) }
    {
        self.change::<Brand>(share, 0);
    }

    /// The lot of the share has a new length, and its book too. What it had belongs to one whole.
    pub fn set_length_of(&mut self, share: &mut Badge<View>, len: u32)
        requires { (share.old.table_id ≡ self.old.id) × IsOne share.old.views }
        ensures same { (self.new.id ≡ self.old.id) × (share.new.table_id ≡ share.old.table_id) }
        ensures fits { AreOfOneWhole (part_in share.old.views ∷ self.old.parts) }
        ensures changed { let all = with_length len (part_in share.old.views ∷ self.old.parts) in (self.new.parts ≡ below all) × (share.new.views ≡ top all ∷ []) }
    {
        self.change::<Brand>(share, len);
    }

    /// The tally of the share has taken so many bytes more, and so has the vault's book.
    pub fn take_by(&mut self, share: &mut Badge<View>, bytes: u32)
        requires { (share.old.table_id ≡ self.old.id) × IsOne share.old.views }
        ensures same { (self.new.id ≡ self.old.id) × (share.new.table_id ≡ share.old.table_id) }
        ensures fits { AreOfOneWhole (part_in share.old.views ∷ self.old.parts) }
        ensures changed { let all = with_taken bytes (part_in share.old.views ∷ self.old.parts) in (self.new.parts ≡ below all) × (share.new.views ≡ top all ∷ []) }
    {
        self.change::<Brand>(share, bytes);
    }

    /// The tally of the share has given so many bytes more back, and so has the vault's book.
    pub fn give_back_by(&mut self, share: &mut Badge<View>, bytes: u32)
        requires { (share.old.table_id ≡ self.old.id) × IsOne share.old.views }
        ensures same { (self.new.id ≡ self.old.id) × (share.new.table_id ≡ share.old.table_id) }
        ensures fits { AreOfOneWhole (part_in share.old.views ∷ self.old.parts) }
        ensures changed { let all = with_back bytes (part_in share.old.views ∷ self.old.parts) in (self.new.parts ≡ below all) × (share.new.views ≡ top all ∷ []) }
    {
        self.change::<Brand>(share, bytes);
    }
}
