//! What a kernel is made of.
ghost use Rattle.std.specs.Prelude.{◌≡◌, ◌⊎◌, ◌↔◌, Err, IfErr, IfOk, OnOk, false, true};
ghost use Rattle.xh_calls.specs.Parts.{AreMadeBy, ArePartsLimits};
ghost use Rattle.xh_model.specs.declared.limits.TheConstants.{GENERATIONS, USUAL_GENERATIONS};

use crate::words::Glances;
use std::alloc::Global;
use std::marker::Model;
use xh_arena::Vault;
use xh_calls::{Bundle, Entry, make_vaults};
use xh_channel::Channels;
use xh_core::{Config, Refused};
use xh_history::{Front, Histories, NobodyLooks, Pen};
use xh_model::limits::{GENERATIONS, MAX_WORKERS, PLACES, USUAL_GENERATIONS};
use xh_place::Body;
use xh_records::{Records, Seat};

/// What someone has seen of the places who makes no calls.
pub type Look = xh_history::Look<Entry>;

/// All that a kernel is made of, not yet behind locks.
#[derive(Drop)]
pub struct Parts {
    pub(crate) vaults: Vec<Vault>,
    pub(crate) records: Records<Body>,
    pub(crate) seats: Vec<Seat<Body>>,
    pub(crate) channels: Channels,
    pub(crate) bundles: Vec<Bundle>,
    pub(crate) histories: Histories<Entry, Glances>,
    pub(crate) pens: Vec<Pen<Entry>>,
    pub(crate) fronts: Vec<Front<Entry>>,
    pub(crate) looks: Vec<Look>,
    pub(crate) vault_histories: Histories<Vault, NobodyLooks>,
    pub(crate) vault_pens: Vec<Pen<Vault>>,
    pub(crate) seen: Vec<Front<Vault>>,
    pub(crate) config: Config,
    pub(crate) generations: u16,
}

impl Model for Parts {
    ghost use Rattle.std.specs.Prelude.{is_some, vec_len};
    ghost use Rattle.xh_calls.specs.Parts.{PartsOf};
    ghost use Rattle.xh_kernel.specs.inner.Making.{AreParts, parts_of};

    ghost Value = { PartsOf };

    ghost view = { λ p. parts_of p.records (vec_len p.bundles) p.config p.channels.depth (is_some p.channels.come_back) p.generations p.histories p.vault_histories };

    ghost invariant = { λ p. AreParts (parts_of p.records (vec_len p.bundles) p.config p.channels.depth (is_some p.channels.come_back) p.generations p.histories p.vault_histories)
        p.vaults.items p.seats.items p.bundles.items p.pens.items p.fronts.items p.looks.items p.vault_pens.items p.seen.items };
}

// The parts of a kernel within its limits.
fn make_parts(alloc: Global, config: Config, workers: u8) -> Result<Parts, Refused>
    requires { ArePartsLimits config workers }
    ensures refused { IfErr result (λ e. e ≡ Refused.OutOfMemory) }
    ensures parts { IfOk result (AreMadeBy config workers USUAL_GENERATIONS) }
    ensures once { IfOk result (λ p. p.comes_back ≡ false) }
{
    let makings = make_vaults(alloc, config, workers)?;
    let made = Records::new(alloc, makings.lots, makings.names, config.records, PLACES);
    let Ok((records, seats)) = made else {
        return Err(Refused::OutOfMemory);
    };
    let channels = Channels::new(alloc, config.depth)?;
    let (histories, pens, fronts, looks) = Histories::new(alloc, workers, workers)?;
    let (vault_histories, vault_pens, seen, _looks) = Histories::new(alloc, workers, 0)?;
    Ok(Parts {
        vaults: makings.vaults,
        records,
        seats,
        channels,
        bundles: makings.bundles,
        histories,
        pens,
        fronts,
        looks,
        vault_histories,
        vault_pens,
        seen,
        config,
        generations: USUAL_GENERATIONS,
    })
}

impl Parts {
    /// The parts of an empty kernel of 32 places, each used 128 times, and 64 channels, for so many workers,
    /// 1 to 33, each of which gets an account and a look.
    ///
    /// BadSize where the configuration or the count of workers is outside its limits; then OutOfMemory
    /// where a growth was refused.
    pub fn new(alloc: Global, config: Config, workers: u8) -> Result<Parts, Refused>
        ensures limits { OnOk result (ArePartsLimits config workers) }
        ensures bad_size { (result ≡ Err Refused.BadSize) ↔ (ArePartsLimits config workers → ⊥) }
        ensures refused { IfErr result (λ e. (e ≡ Refused.BadSize) ⊎ (e ≡ Refused.OutOfMemory)) }
        ensures parts { IfOk result (AreMadeBy config workers USUAL_GENERATIONS) }
        ensures once { IfOk result (λ p. p.comes_back ≡ false) }
    {
        if !config.is_in_limits() || workers == 0 || workers > MAX_WORKERS {
            return Err(Refused::BadSize);
        }
        make_parts(alloc, config, workers)
    }

    /// The same, of a kernel that uses each place as often as there are numbers for its processes: 2,047 times.
    pub fn with_all_numbers(self) -> Parts
        ensures { result ≡ record self { generations = GENERATIONS } }
    {
        Parts {
            generations: GENERATIONS,
            ..self
        }
    }

    /// The same, of a kernel whose channels come back once neither end exists any more (`Channels::coming_back`). Its openings
    /// are told OutOfMemory where memory for a channel was refused.
    pub fn with_channels_that_come_back(self, alloc: Global) -> Parts
        ensures { result ≡ record self { comes_back = true } }
    {
        Parts {
            channels: self.channels.coming_back(alloc),
            ..self
        }
    }
}
