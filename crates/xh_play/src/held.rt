//! A gate that holds steps of a run until others came.
use crossbeam_utils::Backoff;
use std::alloc::Global;
use std::sync::atomic::{AtomicBool, Ordering};
use xh_runner::{Gate, Point};
use xh_script::Fault;

/// How often a step that is held looks for the other.
const TURNS: u64 = 1_000_000_000;

/// The words of steps, by their codes: the points, and of a process's commands, up to the ninth, each and then its answer.
const STEPS: [&str; 24] = [
    "claimed", "passed", "put", "popped", "shut", "returned", "0", "0.done", "1", "1.done", "2",
    "2.done", "3", "3.done", "4", "4.done", "5", "5.done", "6", "6.done", "7", "7.done", "8",
    "8.done",
];

/// The code of the first command.
const FIRST: u32 = 6;

/// A place, and the code of a step of its process.
#[derive(Clone, Copy, PartialEq, Eq)]
struct StepAt {
    place: u8,
    code: u32,
}

/// The first step waits until the second has come.
#[derive(Drop)]
struct Wait {
    held: StepAt,
    other: StepAt,
    came: AtomicBool,
}

/// Which steps wait, and whether one did so in vain.
#[derive(Drop)]
pub(crate) struct Holds {
    waits: Vec<Wait>,
    missed: AtomicBool,
}

// The step that a word says.
fn read_step(word: &str) -> Option<StepAt> {
    let (place, step) = word.split_once('.')?;
    let code = STEPS.iter().position(|known| *known == step)?;
    Some(StepAt {
        place: place.parse::<u8>().ok()?,
        code: code as u32,
    })
}

// The wait that two words say.
fn read_wait(held: &str, other: &str) -> Result<Wait, Fault> {
    match (read_step(held), read_step(other)) {
        (Some(held), Some(other)) => Ok(Wait {
            held,
            other,
            came: AtomicBool::new(false),
        }),
        _ => Err(Fault::Gate),
    }
}

impl Wait {
    // Whether the other step comes within so many turns.
    fn is_over(&self) -> bool {
        let backoff = Backoff::new();
        for _ in 0..TURNS {
            if self.came.load(Ordering::SeqCst) {
                return true;
            }
            backoff.snooze();
        }
        false
    }
}

impl Holds {
    /// The waits that pairs of words say; what says none is Gate.
    pub(crate) fn read(alloc: Global, words: &[String]) -> Result<Holds, Fault> {
        let mut waits = Vec::new(alloc);
        for pair in words.chunks(2) {
            match (pair.first(), pair.get(1)) {
                (Some(held), Some(other)) => waits.push(read_wait(held, other)?)?,
                _ => return Err(Fault::Gate),
            }
        }
        Ok(Holds {
            waits,
            missed: AtomicBool::new(false),
        })
    }

    /// Whether each step came for which another was to wait, and none waited in vain.
    pub(crate) fn are_kept(&self) -> bool {
        let mut kept = !self.missed.load(Ordering::SeqCst);
        for wait in &self.waits {
            kept &= wait.came.load(Ordering::SeqCst);
        }
        kept
    }

    // A step came.
    fn tell(&self, step: StepAt) {
        for wait in &self.waits {
            if wait.other == step {
                wait.came.store(true, Ordering::SeqCst);
            }
        }
    }

    // Holds the step, if it is to wait.
    fn hold(&self, step: StepAt) {
        for wait in &self.waits {
            if wait.held == step && !wait.is_over() {
                self.missed.store(true, Ordering::SeqCst);
            }
        }
    }
}

// A command, or its answer.
fn of_command(place: u8, command: u32, answers: u32) -> StepAt {
    let code = FIRST.saturating_add(command.saturating_mul(2));
    StepAt {
        place,
        code: code.saturating_add(answers),
    }
}

// The code of a point.
fn code_of(point: Point) -> u32 {
    match point {
        Point::Claimed => 0,
        Point::Passed => 1,
        Point::Put => 2,
        Point::Popped => 3,
        Point::Shut => 4,
        Point::Returned => 5,
    }
}

/// A command has come once it goes on, a point when it is reached: so one may wait for the other.
impl Gate for Holds {
    fn before(&self, place: u8, command: u32) -> bool {
        let step = of_command(place, command, 0);
        self.hold(step);
        self.tell(step);
        true
    }

    fn after(&self, place: u8, command: u32) {
        self.tell(of_command(place, command, 1));
    }

    fn between(&self, place: u8, point: Point) {
        let code = code_of(point);
        let step = StepAt { place, code };
        self.tell(step);
        self.hold(step);
    }
}
