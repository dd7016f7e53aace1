//! A record's share, with the body that travels with it.
ghost use Rattle.std.specs.Prelude.{◌≡◌, ◌++◌, IfOk, drop, replicate};
ghost use Rattle.xh_arena.specs.inner.Parts.{lots_from};
ghost use Rattle.xh_arena.specs.Views.{AreLots};

use crate::parts::View;
use crate::shares::Shares;
use atomic_table::Badge;
use std::alloc::{AllocError, Global};
use std::marker::Model;

/// One record of a vault: its length is always the length of its record's bytes, wherever the lot lies.
#[derive(Drop)]
pub struct Lot<B> {
    pub(crate) index: u16,
    pub(crate) len: u32,
    body: B,
    pub(crate) share: Badge<View>,
}

impl<B> Model for Lot<B> {
    ghost use Rattle.std.specs.Prelude.{◌≡◌, [], ◌∷◌};
    ghost use Rattle.xh_arena.specs.declared.parts.Part.TheVariants.{Length};
    ghost use Rattle.xh_arena.specs.Views.{LotOf};

    ghost Value = { LotOf B };

    ghost view = { λ l. record { id = l.share.table_id; index = l.index; len = l.len; body = l.body } };

    ghost invariant = { λ l. l.share.views ≡ (Length l.index l.len ∷ []) ∷ [] };
}

impl<B> Lot<B> {
    /// The number of its record in the vault's arena.
    pub fn record(&self) -> u16
        ensures { result ≡ self.now.index }
    {
        self.index
    }

    /// How many bytes its record has: a multiple of 16, or 0.
    pub fn len(&self) -> u32
        ensures { result ≡ self.now.len }
    {
        self.len
    }

    /// What travels with the record.
    pub fn body(&self) -> &B
        ensures { result.now ≡ self.now.body }
    {
        &self.body
    }
}

impl<B> Lot<B> {
    ghost use Rattle.std.specs.Prelude.{◌≡◌};
    ghost use Rattle.std.specs.Borrow.{Lends, sem};
    ghost use Rattle.xh_arena.specs.contracts.lot.Lot.{the_row};

    /// What travels with the record, to be changed.
    pub fn body_mut(&mut self) -> &mut B
        ensures* writes_back { sem 𝓛 (Lends (the_row B.row) B.row self.entry result (λ b. record self.old { body = b })) }
        ensures value { result.now ≡ self.old.body }
    {
        &mut self.body
    }
}

/// A lot for each of the first parts.
pub(crate) fn lots<B: Default + Drop>(
    alloc: Global,
    shares: &mut Shares,
    records: u16,
) -> Result<Vec<Lot<B>>, AllocError>
    requires { shares.old.parts ≡ lots_from 0 (replicate records 0) ++ drop records shares.old.parts }
    ensures made { IfOk result (λ v. AreLots B.is_default shares.old.id records v.items) }
    ensures rest { IfOk result (λ _. (shares.new.id ≡ shares.old.id) × (shares.new.parts ≡ drop records shares.old.parts)) }
{
    let mut all = Vec::with_capacity(alloc, usize::from(records))?;
    for index in 0..records {
        let lot = Lot {
            index,
            len: 0,
            body: B::default(),
            share: shares.split(),
        };
        all.push(lot)?;
    }
    Ok(all)
}
