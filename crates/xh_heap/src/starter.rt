//! How a worker has a thread started: it asks the run's own thread, which waits for that. It can't start one itself:
//! it is generic over its process, and what a thread is sent would rest on a bound that is known of the run's own
//! thread alone.
ghost use Rattle.std.specs.Prelude.{◌≡◌, IfErr};
ghost use Rattle.xh_core.specs.declared.refused.Refused.TheVariants as refused;

use crate::process::Process;
use std::mem::replace;
use std::sync::{Condvar, Mutex, Wait};
use xh_core::Refused;

/// What is asked of the run's own thread, by one at a time, and what it answers.
#[derive(Drop)]
pub(crate) enum Inquiry<P, T> {
    /// Nothing is asked.
    Free,
    /// A thread, for a process and its task.
    Start(P, T),
    /// Whether there is one now.
    Started(bool),
    /// To be forgotten: a thread that is about to end, a worker's or that of a slot.
    Ended(Option<usize>),
    /// It is being done.
    Taken,
}

/// What starts threads for the processes of a run.
#[derive(Drop)]
pub struct Starter<P, T> {
    desk: Mutex<Inquiry<P, T>>,
    changed: Condvar,
}

impl<P: Drop, T: Drop> Starter<P, T> {
    pub(crate) fn new() -> Starter<P, T> {
        Starter {
            desk: Mutex::new(Inquiry::Free),
            changed: Condvar::new(),
        }
    }

    // Waits until the desk is so, and puts this there: what was there.
    fn exchange<R: Wait, F: Fn(&Inquiry<P, T>) -> bool>(
        &self,
        rt: &R,
        is_so: F,
        put: Inquiry<P, T>,
    ) -> Inquiry<P, T>
        requires { F.IsAlwaysCallable is_so }
    {
        let desk = self.desk.lock(rt);
        let mut desk = self.changed.wait_while(rt, desk, |desk| !is_so(desk));
        self.changed.notify_all();
        replace(&mut *desk, put)
    }

    /// Asks, once nobody else does.
    pub(crate) fn ask<R: Wait>(&self, rt: &R, asked: Inquiry<P, T>) {
        self.exchange(rt, |desk| matches!(desk, Inquiry::Free), asked);
    }

    /// What is asked next, `Start` or `Ended`: to be answered.
    pub(crate) fn next<R: Wait>(&self, rt: &R) -> Inquiry<P, T> {
        let is_asked = |desk: &Inquiry<P, T>| matches!(
            desk,
            Inquiry::Start(_, _) | Inquiry::Ended(_)
        );
        self.exchange(rt, is_asked, Inquiry::Taken)
    }

    /// Answers it, by `Started` or `Free`.
    pub(crate) fn answer<R: Wait>(&self, rt: &R, answer: Inquiry<P, T>) {
        self.exchange(rt, |_desk| true, answer);
    }
}

impl<P: Process, T: Drop> Starter<P, T> {
    /// Starts a thread on which the child does its task. It is joined before the run's books are closed, and the child ends with
    /// the task, where it didn't before: a kill ends the process, and its thread once a call is told Ended.
    ///
    /// OutOfMemory where no thread could be made: the child has ended then.
    pub fn start(&self, child: P, task: T) -> Result<(), Refused>
        ensures { IfErr result (λ why. why ≡ refused.OutOfMemory) }
    {
        let rt = child.rt();
        self.ask(&rt, Inquiry::Start(child, task));
        let is_answered = |desk: &Inquiry<P, T>| matches!(desk, Inquiry::Started(_));
        match self.exchange(&rt, is_answered, Inquiry::Free) {
            Inquiry::Started(true) => Ok(()),
            _ => Err(Refused::OutOfMemory),
        }
    }
}
