// The lots of the closed table are those of the vaults.
ghost use Rattle.std.specs.Prelude.{◌≡◌, ◌*◌, ◌<◌, All, length};
ghost use Rattle.xh_calls.specs.Parts.{vault_names};
ghost use Rattle.xh_books.specs.Ledgers.{all_lengths};
ghost use Rattle.xh_books.specs.inner.Steps.{AreAt, lens_of};

use xh_arena::{Lot, Vault};
use xh_place::Body;

// Shows of vaults that the lots, with so many records an arena, are theirs, length by length.
#[tactic(auto, using(crate::proofs::Audited::audited))]
pub(crate) fn audit(vaults: &mut [Vault], lots: &mut [Lot<Body>], records: usize)
    requires some { 0 < records }
    requires long { length lots.old ≡ length vaults.old * records }
    requires each { All (λ v. v.arena.records ≡ records) vaults.old }
    requires at { AreAt records (vault_names vaults.old) lots.old }
    ensures { lens_of lots.old ≡ all_lengths vaults.old }
{
    for k in 0..lots.len() {
        vaults[k / records].audit(&mut lots[k]);
    }
}
