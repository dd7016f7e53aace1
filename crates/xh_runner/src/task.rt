//! A worker's task, and what it leaves.
ghost use Rattle.std.specs.Prelude.{◌≡◌, ◌<◌, []};
ghost use Rattle.xh_model.specs.declared.limits.TheConstants.{PLACES};

use std::sync::Mutex;
use xh_core::Contract;
use xh_script::{Line, Reply};
use xh_session::{Bindings, Processes, Session};

/// What all workers of a run share: the lines of the script, its contracts, what the names stood for after the head,
/// the gate, what the names of processes stand for by now, and whether all workers could be started.
#[derive(Drop)]
pub(crate) struct Crew<'a, G> {
    pub(crate) lines: &'a [Line],
    pub(crate) contracts: &'a [Contract],
    pub(crate) ready: &'a Bindings,
    pub(crate) gate: &'a G,
    pub(crate) processes: Mutex<Processes>,
    pub(crate) started: Mutex<bool>,
}

/// The commands of the process that has the place from the head on; room for their replies.
#[derive(Drop)]
pub(crate) struct Task<'a, M> {
    pub(crate) session: Session<'a, M>,
    pub(crate) place: u8,
    pub(crate) room: Vec<Reply>,
    ghost new: { (place < PLACES) × (room.items ≡ []) },
}

/// What a worker leaves that was not stopped: its machine, and the replies.
#[derive(Drop)]
pub(crate) struct Done<M> {
    pub(crate) machine: M,
    pub(crate) replies: Vec<Reply>,
}
