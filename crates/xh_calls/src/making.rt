// How the parts of a kernel are made: its vaults with their lots and names, and each worker's tallies.
ghost use Rattle.std.specs.Prelude.{◌≡◌, ◌+◌, ◌∷◌, ◌++◌, [], IfErr, IfOk, OnOk, length, vec_len};
ghost use Rattle.xh_arena.specs.Views.{AreTallies};
ghost use Rattle.xh_calls.specs.inner.Making.{AreBundles, AreMakings};

use std::alloc::{AllocError, Global};
use std::collections::LinkedList;
use xh_arena::{Lot, Tally, Vault, VaultName};
use xh_core::{Config, Refused};
use xh_place::Body;

/// A worker's number, and its tallies, one for each arena.
#[derive(Drop)]
pub struct Bundle {
    pub number: u8,
    pub tallies: Vec<Tally>,
}

/// What a kernel is made of before it has records.
#[derive(Drop)]
pub struct Makings {
    pub vaults: Vec<Vault>,
    pub lots: Vec<Lot<Body>>,
    pub names: LinkedList<VaultName>,
    pub bundles: Vec<Bundle>,
}

// Room behind a worker's tallies, which nobody writes, of more than a cache line: so no two workers write
// one line.
const SPARE_TALLIES: usize = 3;

// A bundle without tallies for each worker.
fn empty_bundles(alloc: Global, workers: u8, arenas: u8) -> Result<Vec<Bundle>, AllocError>
    ensures count { IfOk result (λ b. vec_len b ≡ workers) }
    ensures each { IfOk result (λ b. AreBundles [] b.items) }
{
    let mut bundles = Vec::with_capacity(alloc, usize::from(workers))?;
    for number in 0..workers {
        let tallies = Vec::with_capacity(alloc, usize::from(arenas) + SPARE_TALLIES)?;
        bundles.push(Bundle { number, tallies })?;
    }
    Ok(bundles)
}

// Each worker's bundle gets its tally of one more vault.
fn deal_tallies(
    names: &LinkedList<VaultName>,
    vault: &Vault,
    bundles: &mut [Bundle],
    tallies: Vec<Tally>,
) -> Result<(), AllocError>
    requires count { vec_len tallies ≡ length bundles.old }
    requires bundles { AreBundles names.now bundles.old }
    requires tallies { AreTallies vault.now.id (vec_len tallies) tallies.items }
    ensures count { length bundles.new ≡ length bundles.old }
    ensures each { OnOk result (AreBundles (names.now ++ vault.now.id ∷ []) bundles.new) }
{
    let mut number = 0usize;
    for tally in tallies {
        bundles[number].tallies.push(tally)?;
        number += 1;
    }
    Ok(())
}

// One more vault.
fn add_vault(
    alloc: Global,
    config: Config,
    workers: u8,
    makings: Makings,
) -> Result<Makings, Refused>
    requires makings { AreMakings workers config.records config.bytes config.wear makings.vaults.items makings.lots.items makings.names }
    requires bundles { (vec_len makings.bundles ≡ workers) × AreBundles makings.names makings.bundles.items }
    ensures count { IfOk result (λ m. (vec_len m.vaults ≡ vec_len makings.vaults + 1) × (vec_len m.bundles ≡ workers)) }
    ensures makings { IfOk result (λ m. AreMakings workers config.records config.bytes config.wear m.vaults.items m.lots.items m.names) }
    ensures bundles { IfOk result (λ m. AreBundles m.names m.bundles.items) }
    ensures refused { IfErr result (λ e. e ≡ Refused.OutOfMemory) }
{
    let Makings {
        mut vaults,
        mut lots,
        mut names,
        mut bundles,
    } = makings;
    let made = Vault::new::<Body>(alloc, config.bytes, config.records, config.wear, workers);
    let Ok((mut vault, mut more, tallies)) = made else {
        return Err(Refused::OutOfMemory);
    };
    deal_tallies(&names, &vault, bundles.as_mut_slice(), tallies)?;
    names.push_back(vault.name())?;
    lots.append(&mut more)?;
    vaults.push(vault)?;
    Ok(Makings {
        vaults,
        lots,
        names,
        bundles,
    })
}

/// The vaults of all arenas with their lots and names, and the bundles of all workers, within the limits
/// of both.
pub fn make_vaults(alloc: Global, config: Config, workers: u8) -> Result<Makings, Refused>
    ensures count { IfOk result (λ m. (vec_len m.vaults ≡ config.arenas) × (vec_len m.bundles ≡ workers)) }
    ensures makings { IfOk result (λ m. AreMakings workers config.records config.bytes config.wear m.vaults.items m.lots.items m.names) }
    ensures bundles { IfOk result (λ m. AreBundles m.names m.bundles.items) }
    ensures refused { IfErr result (λ e. e ≡ Refused.OutOfMemory) }
{
    let mut makings = Makings {
        vaults: Vec::new(alloc),
        lots: Vec::new(alloc),
        names: LinkedList::new(alloc),
        bundles: empty_bundles(alloc, workers, config.arenas)?,
    };
    for _ in 0..config.arenas {
        makings = add_vault(alloc, config, workers, makings)?;
    }
    Ok(makings)
}
