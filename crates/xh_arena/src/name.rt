//! A value without bytes that says which vault it is of.
ghost use Rattle.std.specs.Prelude.{◌≡◌};

use crate::parts::View;
use atomic_table::Badge;
use std::marker::Model;

/// Says which vault it is of, and no more: contracts see it as the id that the vault, its lots and its tallies share.
#[derive(Drop)]
pub struct VaultName {
    share: Badge<View>,
}

impl Model for VaultName {
    ghost use Rattle.atomic_table.specs.Seated.{TableId};

    ghost Value = { TableId };

    ghost view = { λ n. n.share.table_id };
}

impl VaultName {
    /// The name in a share, which may be of nothing.
    pub(crate) fn of(share: Badge<View>) -> VaultName
        ensures { result ≡ share.table_id }
    {
        VaultName { share }
    }
}
