//! A worker's shares of one vault.
ghost use Rattle.std.specs.Prelude.{◌≡◌, ◌++◌, IfOk, drop, replicate};
ghost use Rattle.xh_arena.specs.inner.Parts.{tallies_from};
ghost use Rattle.xh_arena.specs.Views.{AreTallies};

use crate::parts::View;
use crate::shares::Shares;
use atomic_table::Badge;
use std::alloc::{AllocError, Global};
use std::marker::Model;

/// What one worker has taken from a vault and given back.
#[derive(Drop)]
pub struct Tally {
    pub(crate) number: u8,
    pub(crate) taken: u64,
    pub(crate) back: u64,
    pub(crate) share: Badge<View>,
}

impl Model for Tally {
    ghost use Rattle.std.specs.Prelude.{◌≡◌, [], ◌∷◌};
    ghost use Rattle.xh_arena.specs.declared.parts.Part.TheVariants.{Moved};
    ghost use Rattle.xh_arena.specs.Views.{TallyOf};

    ghost Value = { TallyOf };

    ghost view = { λ t. record { id = t.share.table_id; number = t.number; taken = t.taken; back = t.back } };

    ghost invariant = { λ t. t.share.views ≡ (Moved t.number t.taken t.back ∷ []) ∷ [] };
}

impl Tally {
    /// How many bytes were ever carved with it.
    pub fn taken(&self) -> u64
        ensures { result ≡ self.now.taken }
    {
        self.taken
    }

    /// How many bytes were ever given back with it.
    pub fn back(&self) -> u64
        ensures { result ≡ self.now.back }
    {
        self.back
    }
}

/// A tally for each of the first parts.
pub(crate) fn tallies(
    alloc: Global,
    shares: &mut Shares,
    workers: u8,
) -> Result<Vec<Tally>, AllocError>
    requires { shares.old.parts ≡ tallies_from 0 (replicate workers (0, 0)) ++ drop workers shares.old.parts }
    ensures made { IfOk result (λ v. AreTallies shares.old.id workers v.items) }
    ensures rest { IfOk result (λ _. (shares.new.id ≡ shares.old.id) × (shares.new.parts ≡ drop workers shares.old.parts)) }
{
    let mut all = Vec::with_capacity(alloc, usize::from(workers))?;
    for number in 0..workers {
        let tally = Tally {
            number,
            taken: 0,
            back: 0,
            share: shares.split(),
        };
        all.push(tally)?;
    }
    Ok(all)
}
