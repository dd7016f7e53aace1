//! How far a process has come.
ghost use Rattle.std.specs.Prelude.{◌≡◌, ◌⊎◌};
ghost use Rattle.xh_core.specs.declared.status.Status.TheVariants as status;
ghost use Rattle.xh_core.specs.Calls.{start, stop};
ghost use Rattle.xh_core.specs.Refusing.{Tested};
ghost use Rattle.xh_core.specs.Statuses.{status_of};

use crate::refused::Refused;
use xh_model::limits::{PLACES, PROCESSES};

/// What a place is: never used yet, or a process that runs, is being reclaimed, or has ended.
#[derive(Clone, Copy, Debug, PartialEq, Eq, Default)]
pub enum Status {
    #[default]
    Vacant,
    Running,
    Ending,
    Ended,
}

impl Status {
    /// How far the process `p` has come, at whose place the latest process is of this generation, and
    /// has come so far. Vacant where there is no such process.
    pub fn of(self, p: u16, generation: u16) -> Status
        ensures { result ≡ status_of p generation self }
    {
        let own = p / u16::from(PLACES);
        if p >= PROCESSES || generation < own {
            return Status::Vacant;
        }
        if generation == own {
            self
        } else {
            Status::Ended
        }
    }

    /// The first tests of a call by a process: NoProcess where there is none, Ended where it does not
    /// run.
    pub fn check_start(self) -> Result<(), Refused>
        ensures { Tested (start self) result (λ _. self ≡ status.Running) }
    {
        match self {
            Status::Vacant => Err(Refused::NoProcess),
            Status::Running => Ok(()),
            Status::Ending | Status::Ended => Err(Refused::Ended),
        }
    }

    /// The tests of an end of a process: NoProcess where there is none, Ended where it has ended.
    pub fn check_stop(self) -> Result<(), Refused>
        ensures { Tested (stop self) result (λ _. (self ≡ status.Running) ⊎ (self ≡ status.Ending)) }
    {
        match self {
            Status::Vacant => Err(Refused::NoProcess),
            Status::Running | Status::Ending => Ok(()),
            Status::Ended => Err(Refused::Ended),
        }
    }
}
