//! What the workers of a kernel have seen, once they are done.
ghost use Rattle.std.specs.Prelude.{◌≡◌, ◌↔◌, All, IfErr, IfOk, length, true, vec_len};
ghost use Rattle.xh_calls.specs.Vaults.{AreInOrder};
ghost use Rattle.xh_history.specs.Histories.{StartsWith, at};
ghost use Rattle.xh_kernel.specs.Finished.{HasSeenAll, HasSeenEach, HaveSeen, tallies_of};
ghost use Rattle.xh_model.specs.declared.limits.TheConstants.{PLACES};

use crate::account::Account;
use crate::parts::Look;
use crate::words::Glances;
use xh_arena::Vault;
use xh_calls::{Entry, Names};
use xh_core::Refused;
use xh_history::{Front, Histories, NobodyLooks, Pen, Shows};
use xh_model::limits::PLACES;

// Whether these are the pens of all places, in order.
fn are_in_order(pens: &[Pen<Entry>]) -> bool
    ensures { (result ≡ true) ↔ ((length pens.now ≡ PLACES) × AreInOrder pens.now) }
{
    if pens.len() != usize::from(PLACES) {
        return false;
    }
    for place in 0..PLACES {
        if pens[usize::from(place)].number() != place {
            return false;
        }
    }
    true
}

// Compares what a worker has seen with each pen.
fn compare_front<E, S: Shows<E>>(
    histories: &Histories<E, S>,
    pens: &mut [Pen<E>],
    front: &mut Front<E>,
)
    requires table { front.old.table ≡ histories.now }
    requires pens { All (λ p. p.table ≡ histories.now) pens.old × AreInOrder pens.old }
    ensures same { (pens.new ≡ pens.old) × (front.new ≡ record front.old { fronts = front.new.fronts }) }
    ensures seen { HasSeenEach pens.old front.old.number front.old.fronts }
{
    for pen in pens.iter_mut() {
        histories.compare(pen, front);
    }
}

// Compares an account with the pen of each place and of each arena.
fn compare_account<N: Names>(
    histories: &Histories<Entry, Glances>,
    pens: &mut [Pen<Entry>],
    vault_histories: &Histories<Vault, NobodyLooks>,
    vault_pens: &mut [Pen<Vault>],
    account: &mut Account<N>,
)
    requires tables { (histories.now ≡ N.parts.histories) × (vault_histories.now ≡ N.parts.vaults) }
    requires pens { All (λ p. p.table ≡ N.parts.histories) pens.old × AreInOrder pens.old }
    requires vault_pens { All (λ p. p.table ≡ N.parts.vaults) vault_pens.old × AreInOrder vault_pens.old }
    ensures same { (pens.new ≡ pens.old) × (vault_pens.new ≡ vault_pens.old) × (account.new.tallies ≡ account.old.tallies) }
    ensures seen { HasSeenAll pens.old vault_pens.old account.old }
{
    compare_front(histories, pens, &mut account.front);
    compare_front(vault_histories, vault_pens, &mut account.till.seen);
}

// Compares all accounts.
fn compare_accounts<N: Names>(
    histories: &Histories<Entry, Glances>,
    pens: &mut [Pen<Entry>],
    vault_histories: &Histories<Vault, NobodyLooks>,
    vault_pens: &mut [Pen<Vault>],
    accounts: &mut [Account<N>],
)
    requires tables { (histories.now ≡ N.parts.histories) × (vault_histories.now ≡ N.parts.vaults) }
    requires pens { All (λ p. p.table ≡ N.parts.histories) pens.old × AreInOrder pens.old }
    requires vault_pens { All (λ p. p.table ≡ N.parts.vaults) vault_pens.old × AreInOrder vault_pens.old }
    ensures same { (pens.new ≡ pens.old) × (tallies_of accounts.new ≡ tallies_of accounts.old) }
    ensures seen { All (HasSeenAll pens.old vault_pens.old) accounts.old }
{
    for account in accounts.iter_mut() {
        compare_account(histories, pens, vault_histories, vault_pens, account);
    }
}

// Compares a look with the pen of each place.
fn compare_look(histories: &Histories<Entry, Glances>, pens: &mut [Pen<Entry>], look: &mut Look)
    requires pens { All (λ p. p.table ≡ histories.now) pens.old }
    requires look { look.old.table ≡ histories.now }
    ensures same { (pens.new ≡ pens.old) × (look.new ≡ look.old) }
    ensures looked { All (λ p. StartsWith p.history (at look.old.fronts p.number)) pens.old }
{
    for pen in pens.iter_mut() {
        histories.compare_look(pen, look);
    }
}

// Compares all looks.
fn compare_looks(histories: &Histories<Entry, Glances>, pens: &mut [Pen<Entry>], looks: Vec<Look>)
    requires pens { All (λ p. p.table ≡ histories.now) pens.old }
    requires looks { All (λ l. l.table ≡ histories.now) looks.items }
    ensures looked { All (λ l. All (λ p. StartsWith p.history (at l.fronts p.number)) pens.old) looks.items }
{
    for mut look in looks {
        compare_look(histories, pens, &mut look);
    }
}

/// The accounts of a kernel that was settled, once each was compared with the pen of each of its places and arenas, as each look
/// was with those of the places. They are handed in in any order. A kernel keeps its places in order; since no lock tells which
/// place is behind it, that is looked at here: else the answer is OutOfMemory.
pub fn compare<N: Names>(
    histories: &Histories<Entry, Glances>,
    mut pens: Vec<Pen<Entry>>,
    vault_histories: &Histories<Vault, NobodyLooks>,
    mut vault_pens: Vec<Pen<Vault>>,
    mut accounts: Vec<Account<N>>,
    looks: Vec<Look>,
) -> Result<Vec<Account<N>>, Refused>
    requires tables { (histories.now ≡ N.parts.histories) × (vault_histories.now ≡ N.parts.vaults) }
    requires pens { All (λ p. p.table ≡ N.parts.histories) pens.items }
    requires vault_pens { All (λ p. p.table ≡ N.parts.vaults) vault_pens.items × AreInOrder vault_pens.items }
    requires looks { All (λ l. l.table ≡ N.parts.histories) looks.items }
    ensures count { IfOk result (λ r. vec_len r ≡ vec_len accounts) }
    ensures same { IfOk result (λ r. tallies_of r.items ≡ tallies_of accounts.items) }
    ensures seen { IfOk result (λ _. HaveSeen accounts.items looks.items pens.items vault_pens.items) }
    ensures refused { IfErr result (λ e. e ≡ Refused.OutOfMemory) }
{
    let all = pens.as_mut_slice();
    if !are_in_order(all) {
        return Err(Refused::OutOfMemory);
    }
    let arenas = vault_pens.as_mut_slice();
    let each = accounts.as_mut_slice();
    compare_accounts(histories, all, vault_histories, arenas, each);
    compare_looks(histories, all, looks);
    Ok(accounts)
}
