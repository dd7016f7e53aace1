//! What a worker has taken and given back, and what it has seen of the histories.
ghost use Rattle.std.specs.Prelude.{◌≡◌, ◌<◌, slice_get};
ghost use Rattle.xh_calls.specs.inner.Making.{AreFreshTallies};
ghost use Rattle.xh_history.specs.Histories.{fresh_front};
ghost use Rattle.xh_kernel.specs.Accounts.{fresh, moved_of};
ghost use Rattle.xh_place.specs.Tallies.{ids_of};

use std::marker::{Model, PhantomData};
use xh_arena::{Tally, Vault};
use xh_calls::{Bundle, Entry, Names, Till};
use xh_history::Front;

/// A worker's tally of each arena, and of each place's and each arena's history what the worker has seen. It tells how many
/// bytes of each arena the worker ever took and gave back.
#[derive(Drop)]
pub struct Account<N: Names> {
    number: u8,
    pub(crate) till: Till,
    pub(crate) front: Front<Entry>,
    // Unused: accounts lie beside each other, and no cache line has parts of two.
    room: [u64; 16],
    of: PhantomData<N>,
}

impl<N: Names> Model for Account<N> {
    ghost use Rattle.std.specs.Prelude.{◌≡◌, ◌<◌};
    ghost use Rattle.xh_kernel.specs.Accounts.{AccountOf};
    ghost use Rattle.xh_calls.specs.Places.{IsTillOf};

    ghost Value = { AccountOf };

    ghost view = { λ a. record { number = a.number; tallies = a.till.tallies.items; fronts = a.front.fronts; looks = a.front.looks; vaults = a.till.seen } };

    ghost invariant = { λ a. IsTillOf N.parts a.till × (a.front.table ≡ N.parts.histories) × (a.front.number ≡ a.number) × (a.number < N.parts.workers) };
}

impl<N: Names> Account<N> {
    // The account of a bundle of the kernel's own, and of a worker who has seen nothing.
    pub(crate) fn named(bundle: Bundle, front: Front<Entry>, seen: Front<Vault>) -> Account<N>
        requires tallies { AreFreshTallies N.parts.records.shape.names bundle.number bundle.tallies.items }
        requires front { front ≡ fresh_front N.parts.histories bundle.number }
        requires seen { seen ≡ fresh_front N.parts.vaults bundle.number }
        requires worker { bundle.number < N.parts.workers }
        ensures { result ≡ fresh N.parts bundle.number }
    {
        Account {
            number: bundle.number,
            till: Till {
                tallies: bundle.tallies,
                seen,
            },
            front,
            room: [0; 16],
            of: PhantomData,
        }
    }

    /// The worker's number, counted from 0.
    pub fn number(&self) -> u8
        ensures { result ≡ self.now.number }
    {
        self.number
    }

    /// How many bytes of an arena the worker ever took and gave back. None where there is no such arena.
    pub fn moved(&self, arena: u8) -> Option<(u64, u64)>
        ensures { result ≡ moved_of (slice_get self.now.tallies arena) }
    {
        let tally = self.till.tallies.get(usize::from(arena))?;
        Some((tally.taken(), tally.back()))
    }

    /// The tallies, by arena.
    pub fn into_tallies(self) -> Vec<Tally>
        ensures items { result.items ≡ self.tallies }
        ensures names { ids_of result.items ≡ N.parts.records.shape.names }
    {
        self.till.tallies
    }
}
