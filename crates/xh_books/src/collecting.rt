// The vaults take in the accounts.
ghost use Rattle.std.specs.Prelude.{◌≡◌, [], ◌∷◌, All, length, vec_len};
ghost use Rattle.xh_calls.specs.Parts.{IsOpen, vault_names};
ghost use Rattle.xh_place.specs.Tallies.{ids_of};
ghost use Rattle.xh_kernel.specs.Finished.{tallies_of};
ghost use Rattle.xh_books.specs.inner.Steps.{AreGathered, with_all};

use xh_arena::{Tally, Vault};
use xh_kernel::{Account, Names};

// Each vault takes in the tally of its arena.
#[tactic(auto, using(crate::proofs::Collected::as_many))]
fn collect_tallies(vaults: &mut [Vault], tallies: Vec<Tally>)
    requires { ids_of tallies.items ≡ vault_names vaults.old }
    ensures count { length vaults.new ≡ length vaults.old }
    ensures each { vaults.new ≡ with_all 0 (tallies.items ∷ []) vaults.old }
{
    let mut arena = 0usize;
    for tally in tallies {
        vaults[arena].collect(tally);
        arena += 1;
    }
}

// The vaults with all accounts taken in, which are those of all workers.
pub(crate) fn gather<N: Names>(mut vaults: Vec<Vault>, accounts: Vec<Account<N>>) -> Vec<Vault>
    requires names { vault_names vaults.items ≡ N.parts.records.shape.names }
    requires open_vaults { All (IsOpen N.parts) vaults.items }
    requires all { vec_len accounts ≡ N.parts.workers }
    ensures { AreGathered N.parts.records.shape.records (tallies_of accounts.items) 0 vaults.items result.items }
{
    for account in accounts {
        collect_tallies(vaults.as_mut_slice(), account.into_tallies());
    }
    vaults
}
