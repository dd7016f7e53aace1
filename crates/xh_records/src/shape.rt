use std::collections::LinkedList;
use xh_arena::VaultName;

/// How the records lie: how many each arena has (1 to 256), how many process places there are (1 to
/// 32), and the name of each arena's vault.
#[derive(Drop)]
pub struct Shape {
    pub records: u64,
    pub places: u64,
    pub names: LinkedList<VaultName>,
}
