//! What lies behind an arena's lock.
ghost use Rattle.std.specs.Prelude.{◌≡◌};
ghost use Rattle.xh_calls.specs.Parts.{IsUnused, IsVaultOf};
ghost use Rattle.xh_calls.specs.Vaults.{IsKeptVault};
ghost use Rattle.xh_history.specs.Histories.{fresh_pen};

use crate::names::Names;
use std::marker::{Model, PhantomData};
use xh_arena::Vault;
use xh_history::Pen;

/// The vault of an arena, and the pen of the arena's history, which knows its number.
#[derive(Drop)]
pub struct Kept<N: Names> {
    pub(crate) vault: Vault,
    pub(crate) pen: Pen<Vault>,
    of: PhantomData<N>,
}

impl<N: Names> Model for Kept<N> {
    ghost use Rattle.xh_calls.specs.Vaults.{IsKeptVault, KeptOf};

    ghost Value = { KeptOf };

    ghost view = { λ k. record { vault = k.vault; pen = k.pen } };

    ghost invariant = { λ k. IsKeptVault N.parts k.vault k.pen };
}

impl<N: Names> Kept<N> {
    // The vault of the pen's arena, on which nothing was called yet.
    pub(crate) fn new(vault: Vault, pen: Pen<Vault>) -> Kept<N>
        requires vault { IsVaultOf N.parts pen.number vault }
        requires unused { IsUnused vault }
        requires pen { pen ≡ fresh_pen N.parts.vaults pen.number }
    {
        Kept {
            vault,
            pen,
            of: PhantomData,
        }
    }

    // The arena's number.
    pub(crate) fn number(&self) -> u8
        ensures { result ≡ self.now.pen.number }
    {
        self.pen.number()
    }

    // The vault, and the pen of its arena's history.
    pub(crate) fn into_parts(self) -> (Vault, Pen<Vault>)
        ensures { IsKeptVault N.parts result.0 result.1 }
    {
        (self.vault, self.pen)
    }
}
