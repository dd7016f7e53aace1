//! A script on the serial machine, step by step.
ghost use Rattle.std.specs.Prelude.{◌≡◌, ◌⊎◌, ◌<◌, length, IfOk, IfErr, OnOk};
ghost use Rattle.std.specs.List.{All};
ghost use Rattle.xh_model.specs.Config.{IsConfig};
ghost use Rattle.xh_model.specs.declared.limits.TheConstants.{PLACES};
ghost use Rattle.xh_serial.specs.PlaceCommands.{flight_of};
ghost use Rattle.xh_script.specs.Scripts.{listing_of};
ghost use Rattle.xh_session.specs.Meaning.{new_world, step, answers, world_after};
ghost use Rattle.xh_session.specs.Output.{run_text, text_of};

use crate::bindings::Bindings;
use crate::report::Report;
use crate::session::Session;
use std::alloc::{AllocError, Global};
use std::marker::Model;
use xh_core::{Config, Contract, Refused};
use xh_script::{Fault, Line, NumberedReply, Reply, Script};
use xh_serial::Serial;

/// A serial machine, what the names of a script stand for, and the script's contracts: what the
/// commands were done on so far.
#[derive(Drop)]
pub(crate) struct Stage<'a> {
    session: Session<'a, Serial>,
}

impl<'a> Model for Stage<'a> {
    ghost use Rattle.xh_serial.specs.Machine.{Machine as MachineOf};
    ghost use Rattle.xh_session.specs.Plans.{World, world_of};

    ghost Value = { World MachineOf };

    ghost view = { λ s. world_of (λ m. m) s.session };
}

impl<'a> Stage<'a> {
    /// A new machine, on which no command was done yet.
    pub(crate) fn new(
        alloc: Global,
        config: Config,
        contracts: &'a [Contract],
    ) -> Result<Stage<'a>, Fault>
        ensures fresh { IfOk result (λ stage. stage ≡ new_world config contracts.entry.now) }
        ensures refused { IfErr result (λ e. ((e ≡ Fault.BadConfig) × ¬ IsConfig config) ⊎ (e ≡ Fault.Memory)) }
    {
        let names = Bindings::new(alloc)?;
        let machine = match Serial::new(alloc, config) {
            Ok(machine) => machine,
            Err(Refused::BadSize) => return Err(Fault::BadConfig),
            Err(_refused) => return Err(Fault::Memory),
        };
        Ok(Stage {
            session: Session {
                machine,
                names,
                contracts,
            },
        })
    }

    /// Does the command of one more line.
    #[tactic(auto, using(crate::proofs::Plans::stepped))]
    fn step(&mut self, alloc: Global, line: &Line) -> Result<NumberedReply, AllocError>
        ensures reply { IfOk result (λ answered. answered ≡ record { line = line.now.number; reply = (step self.old line.now.command).0 }) }
        ensures after { OnOk result (self.new ≡ (step self.old line.now.command).1) }
    {
        let reply = self.session.step(alloc, &line.command);
        if let Reply::No(Refused::OutOfMemory) = reply {
            return Err(AllocError);
        }
        Ok(NumberedReply {
            line: line.number,
            reply,
        })
    }

    // Does the commands of lines in order. Want of memory ends the run.
    fn run(&mut self, alloc: Global, lines: &[Line]) -> Result<Vec<NumberedReply>, AllocError>
        ensures answers { IfOk result (λ replies. replies.items ≡ answers self.old lines.now) }
        ensures after { OnOk result (self.new ≡ world_after self.old lines.now) }
    {
        let mut replies = Vec::with_capacity(alloc, lines.len())?;
        for line in lines {
            let answered = self.step(alloc, line)?;
            replies.push_reserved(answered);
        }
        Ok(replies)
    }

    /// Does a script's commands, and tells what they leave.
    pub(crate) fn report(&mut self, alloc: Global, script: &Script) -> Result<Report, AllocError>
        ensures text { IfOk result (λ r. text_of r ≡ run_text self.old (listing_of script.now)) }
        ensures flight { IfOk result (λ r. r.flight.items ≡ flight_of (world_after self.old script.now.lines.items).machine) }
        ensures places { IfOk result (λ r. (length r.names.items ≡ PLACES) × All (λ line. line.place < PLACES) r.ledger.places.items) }
    {
        let answers = self.run(alloc, &script.lines)?;
        let names = self
            .session
            .names
            .processes
            .by_place(alloc, &script.processes)?;
        Ok(Report {
            answers,
            ledger: self.session.machine.ledger(),
            flight: self.session.machine.flight(),
            names,
        })
    }
}
