//! A script on a machine, command by command.
#![tactic(auto, unfolding(crate::specs::Plans::plan_by))]

ghost use Rattle.std.specs.Prelude.{◌≡◌, ◌%◌, ◌≤◌, length, option_map};
ghost use Rattle.xh_model.specs.declared.limits.TheConstants.{PLACES};
ghost use Rattle.xh_script.specs.declared.limits.TheConstants.{MAX_WORDS};
ghost use Rattle.xh_session.specs.Plans.{DoesForm, FollowsPlan, contract_at, give_plan, reply_of, look_shown, take_plan, world_of};

use crate::bindings::Bindings;
use crate::machine::Machine;
use arrayvec::ArrayVec;
use std::alloc::Global;
use xh_core::{Contract, Glance, Refused, Status};
use xh_model::limits::{MAX_BUDGET, PLACES};
use xh_script::limits::{MAX_HEX, MAX_LEN, MAX_TAG};
use xh_script::{Command, Form, Reply, Word};

/// A machine, what the names of a script stand for, and the script's contracts by number.
#[derive(Drop)]
pub struct Session<'a, M> {
    pub machine: M,
    pub names: Bindings,
    pub contracts: &'a [Contract],
}

/// What a place shows of a process; Ended where it shows a later one.
fn shown(number: u16, look: Result<Glance, Refused>) -> Result<Glance, Refused>
    ensures { result ≡ look_shown number look }
{
    match look {
        Ok(look) if look.process != number => Err(Refused::Ended),
        look => look,
    }
}

fn place_of(number: u16) -> u8
    ensures { result ≡ number % PLACES }
{
    (number % u16::from(PLACES)) as u8
}

fn contract_at<'a>(contracts: &'a [Contract], number: Option<u8>) -> Option<&'a Contract>
    ensures { option_map (λ c. c.now) result ≡ contract_at contracts.now number }
{
    contracts.get(usize::from(number?))
}

/// A refusal is a reply too.
fn reply_of(answer: Result<Reply, Refused>) -> Reply
    ensures { result ≡ reply_of answer }
{
    answer.unwrap_or_else(Reply::No)
}

impl<'a, M: Machine> Session<'a, M> {
    /// Does a command: asks the machine what its plan asks, and replies what that says of the answer.
    pub fn step(&mut self, alloc: Global, c: &Command) -> Reply
        ensures { DoesForm M.did c.now.form c.now.words.items (world_of M.state self.old) result (world_of M.state self.new) }
    {
        match c.form {
            Form::Contract => Reply::done(&[]),
            Form::Process => reply_of(self.process(c)),
            Form::Wire => reply_of(self.wire(c)),
            Form::Open => reply_of(self.open(c)),
            Form::Alloc => reply_of(self.alloc(alloc, c)),
            Form::Split => reply_of(self.split(alloc, c)),
            Form::Read => reply_of(self.read(c)),
            Form::Write => reply_of(self.write(c)),
            Form::Give => self.give(c.name(0), c.name(1), c.number(2), c.from(3)),
            Form::Take => reply_of(self.take(false, c)),
            Form::Await => reply_of(self.take(true, c)),
            Form::Free => reply_of(self.free(c)),
            Form::Close => reply_of(self.close(c)),
            Form::Exit => reply_of(self.exit(c)),
            Form::Kill => reply_of(self.kill(c)),
            Form::Glance => reply_of(self.glance(c)),
            Form::Again => reply_of(self.again(c)),
        }
    }

    fn process(&mut self, c: &Command) -> Result<Reply, Refused>
        ensures { DoesForm M.did Form.Process c.now.words.items (world_of M.state self.old) (reply_of result) (world_of M.state self.new) }
    {
        if self.names.processes.has_place(c.name(0)) {
            return Err(Refused::Twice);
        }
        let number = self.machine.spawn()?;
        self.names.processes.start(c.name(0), number);
        Ok(Reply::Started(number))
    }

    fn wire(&mut self, c: &Command) -> Result<Reply, Refused>
        ensures { DoesForm M.did Form.Wire c.now.words.items (world_of M.state self.old) (reply_of result) (world_of M.state self.new) }
    {
        let number = self.names.processes.number(c.name(0));
        let other = self.names.processes.number(c.name(2));
        let contract = contract_at(self.contracts, c.contract(5));
        let (first, second) = self.machine.wire(number, other, c.number(4), contract)?;
        self.names.blocks.bind(c.name(0), c.name(1), Some(first));
        self.names.blocks.bind(c.name(2), c.name(3), Some(second));
        Ok(Reply::done(&[]))
    }

    fn open(&mut self, c: &Command) -> Result<Reply, Refused>
        ensures { DoesForm M.did Form.Open c.now.words.items (world_of M.state self.old) (reply_of result) (world_of M.state self.new) }
    {
        let number = self.names.processes.number(c.name(0));
        let contract = contract_at(self.contracts, c.contract(4));
        let (first, second) = self.machine.open(number, c.number(3), contract)?;
        self.names.blocks.bind(c.name(0), c.name(1), Some(first));
        self.names.blocks.bind(c.name(0), c.name(2), Some(second));
        Ok(Reply::done(&[]))
    }

    fn alloc(&mut self, alloc: Global, c: &Command) -> Result<Reply, Refused>
        ensures { DoesForm M.did Form.Alloc c.now.words.items (world_of M.state self.old) (reply_of result) (world_of M.state self.new) }
    {
        let number = self.names.processes.number(c.name(0));
        let made = self.machine.alloc(alloc, number, c.number(2), c.number(3))?;
        self.names.blocks.bind(c.name(0), c.name(1), Some(made));
        Ok(Reply::done(&[u64::from(made.len)]))
    }

    fn split(&mut self, alloc: Global, c: &Command) -> Result<Reply, Refused>
        ensures { DoesForm M.did Form.Split c.now.words.items (world_of M.state self.old) (reply_of result) (world_of M.state self.new) }
    {
        let number = self.names.processes.number(c.name(0));
        let rec = self.names.blocks.record_of(c.name(0), c.name(1));
        let (head, rest) = self.machine.split(alloc, number, rec, c.number(2))?;
        self.names.blocks.bind(c.name(0), c.name(3), Some(rest));
        Ok(Reply::done(&[u64::from(head.len), u64::from(rest.len)]))
    }

    fn read(&mut self, c: &Command) -> Result<Reply, Refused>
        ensures { DoesForm M.did Form.Read c.now.words.items (world_of M.state self.old) (reply_of result) (world_of M.state self.new) }
    {
        let number = self.names.processes.number(c.name(0));
        let rec = self.names.blocks.record_of(c.name(0), c.name(1));
        let mut bytes = [0u8; MAX_HEX];
        let room = &mut bytes[..c.number(3).min(MAX_LEN) as usize];
        self.machine.read(number, rec, c.number(2), room)?;
        let mut read = ArrayVec::new();
        let _ = read.try_extend_from_slice(room);
        Ok(Reply::Bytes(read))
    }

    fn write(&mut self, c: &Command) -> Result<Reply, Refused>
        ensures { DoesForm M.did Form.Write c.now.words.items (world_of M.state self.old) (reply_of result) (world_of M.state self.new) }
    {
        let number = self.names.processes.number(c.name(0));
        let rec = self.names.blocks.record_of(c.name(0), c.name(1));
        self.machine.write(number, rec, c.number(2), c.bytes(3))?;
        Ok(Reply::done(&[]))
    }

    /// Of a refused give, the names of the blocks that were not handed back are unbound.
    #[tactic(auto, using(crate::proofs::BlockNames::without_none))]
    fn give(&mut self, process: u8, endpoint: u8, tag: u32, words: &[Word]) -> Reply
        requires { length words.now ≤ MAX_WORDS }
        ensures { FollowsPlan M.did (give_plan self.old.names process endpoint tag words.now) (world_of M.state self.old) result (world_of M.state self.new) }
    {
        let number = self.names.processes.number(process);
        let rec = self.names.blocks.record_of(process, endpoint);
        let records = self.names.blocks.records_of(process, words);
        let sent = records.as_slice();
        let tag = tag.min(MAX_TAG) as u16;
        match self.machine.give(number, rec, tag, sent) {
            Ok(message) => {
                self.names.blocks.unbind_each(process, sent, &[]);
                Reply::done(&[message])
            }
            Err(refused) => {
                if let Refused::Full { back }
                | Refused::PeerClosed { back }
                | Refused::Protocol { back } = &refused
                {
                    self.names
                        .blocks
                        .unbind_each(process, sent, back.as_slice());
                }
                Reply::NotGiven(refused)
            }
        }
    }

    /// Takes a message, and waits for one where others can send it.
    fn take(&mut self, waits: bool, c: &Command) -> Result<Reply, Refused>
        ensures { FollowsPlan M.did (take_plan waits self.old.names c.now.words.items) (world_of M.state self.old) (reply_of result) (world_of M.state self.new) }
    {
        let number = self.names.processes.number(c.name(0));
        let rec = self.names.blocks.record_of(c.name(0), c.name(1));
        let message = self.machine.take(number, rec, waits)?;
        let blocks = message.blocks.as_slice();
        self.names.blocks.bind_each(c.name(0), c.from(2), blocks);
        let mut lengths = ArrayVec::new();
        for block in blocks {
            lengths.push(block.map(|block| block.len));
        }
        Ok(Reply::Taken {
            number: message.number,
            tag: message.tag,
            blocks: lengths,
        })
    }

    fn free(&mut self, c: &Command) -> Result<Reply, Refused>
        ensures { DoesForm M.did Form.Free c.now.words.items (world_of M.state self.old) (reply_of result) (world_of M.state self.new) }
    {
        let number = self.names.processes.number(c.name(0));
        let rec = self.names.blocks.record_of(c.name(0), c.name(1));
        let len = self.machine.free(number, rec)?;
        self.names.blocks.unbind(c.name(0), rec);
        Ok(Reply::done(&[u64::from(len)]))
    }

    fn close(&mut self, c: &Command) -> Result<Reply, Refused>
        ensures { DoesForm M.did Form.Close c.now.words.items (world_of M.state self.old) (reply_of result) (world_of M.state self.new) }
    {
        let number = self.names.processes.number(c.name(0));
        let rec = self.names.blocks.record_of(c.name(0), c.name(1));
        let bytes = self.machine.close(number, rec)?;
        self.names.blocks.unbind(c.name(0), rec);
        Ok(Reply::done(&[bytes]))
    }

    fn exit(&mut self, c: &Command) -> Result<Reply, Refused>
        ensures { DoesForm M.did Form.Exit c.now.words.items (world_of M.state self.old) (reply_of result) (world_of M.state self.new) }
    {
        let number = self.names.processes.number(c.name(0));
        let budget = c.number_or(1, u32::from(MAX_BUDGET));
        let bytes = self.machine.exit(number, budget)?;
        Ok(Reply::done(&[bytes]))
    }

    fn kill(&mut self, c: &Command) -> Result<Reply, Refused>
        ensures { DoesForm M.did Form.Kill c.now.words.items (world_of M.state self.old) (reply_of result) (world_of M.state self.new) }
    {
        let by = self.names.processes.number(c.name(0));
        let victim = self.names.processes.number(c.name(1));
        let budget = c.number_or(2, u32::from(MAX_BUDGET));
        let bytes = self.machine.kill(by, victim, budget)?;
        Ok(Reply::done(&[bytes]))
    }

    fn glance(&mut self, c: &Command) -> Result<Reply, Refused>
        ensures { DoesForm M.did Form.Glance c.now.words.items (world_of M.state self.old) (reply_of result) (world_of M.state self.new) }
    {
        if !self.names.processes.has_place(c.name(0))
            || !self.names.processes.has_place(c.name(1))
        {
            return Err(Refused::NoProcess);
        }
        let number = self.names.processes.number(c.name(1));
        let look = shown(number, self.machine.glance(place_of(number)))?;
        Ok(Reply::done(&[u64::from(look.blocks), look.bytes]))
    }

    fn again(&mut self, c: &Command) -> Result<Reply, Refused>
        ensures { DoesForm M.did Form.Again c.now.words.items (world_of M.state self.old) (reply_of result) (world_of M.state self.new) }
    {
        if !self.names.processes.has_place(c.name(0)) {
            return Err(Refused::NoProcess);
        }
        let number = self.names.processes.number(c.name(0));
        if let Ok(look) = shown(number, self.machine.glance(place_of(number)))
            && !matches!(look.state, Status::Ended)
        {
            return Err(Refused::Twice);
        }
        let number = self.machine.spawn()?;
        self.names.processes.start(c.name(0), number);
        self.names.blocks.unbind_all(c.name(0));
        Ok(Reply::Started(number))
    }
}
