//! What the calls of all places share.
ghost use Rattle.std.specs.Prelude.{◌≡◌};
ghost use Rattle.xh_kernel.specs.Histories.{IsLaw};

use crate::words::Glances;
use xh_calls::{Entry, Heap, Names};
use xh_history::Histories;

/// What the calls work on, and the histories. A call reaches them with the lock of its place in hand.
#[derive(Drop)]
pub(crate) struct Shared<N: Names> {
    pub(crate) heap: Heap<N>,
    pub(crate) histories: Histories<Entry, Glances>,
    ghost named: { histories ≡ N.parts.histories },
    ghost law: { IsLaw N.parts N.leads },
}
