//! What has been read of a script, and how a line is added to it.
ghost use Rattle.std.specs.Prelude.{◌≡◌, ◌<◌, ◌≤◌, [], IfOk, length, map, replicate};
ghost use Rattle.xh_script.specs.inner.Stops.{WordGives};
ghost use Rattle.xh_script.specs.Numbering.{contract_in, word_in, words_in, is_word_known, are_known, declared, placed};
ghost use Rattle.xh_script.specs.Scripts.{after_line, with_words, with_command, nothing_read, listing_of, listing_so_far};
ghost use Rattle.xh_script.specs.declared.limits.TheConstants.{MAX_PROCESSES, MAX_WORDS};

use crate::form::{FormShape, Sort};
use crate::hex::bytes_at;
use crate::limits::{
    MAX_BLOCK_NAMES, MAX_COMMANDS, MAX_CONTRACTS, MAX_LINE, MAX_PROCESSES, MAX_WORDS,
};
use crate::line::{are_filled, check_all, has_printable, is_skipped, take_form};
use crate::name_table::NameTable;
use crate::numeral::number_between;
use crate::rows::{contract_of, rows_in};
use crate::split::pieces;
use crate::{Command, FaultKind, Form, Line, Name, Script, Stop, Word};
use arrayvec::ArrayVec;
use std::alloc::{AllocError, Global};
use std::marker::Model;
use xh_core::Contract;

/// What has been read of a script: the commands; the names of processes, of the blocks of each
/// process by number, and of contracts; the contracts; and whether a command came that is no head
/// line.
#[derive(Drop)]
pub(crate) struct SoFar {
    lines: Vec<Line>,
    processes: NameTable,
    blocks: Vec<NameTable>,
    declared: NameTable,
    contracts: Vec<Contract>,
    begun: bool,
}

impl Model for SoFar {
    ghost use Rattle.std.specs.Prelude.{◌≡◌, ◌≤◌, length};
    ghost use Rattle.xh_script.specs.SoFar.{SoFar};
    ghost use Rattle.xh_script.specs.declared.limits.TheConstants.{MAX_PROCESSES, MAX_CONTRACTS};

    ghost Value = { SoFar };

    ghost view = { λ r. record { lines = r.lines.items; processes = r.processes; blocks = r.blocks.items; declared = r.declared; contracts = r.contracts.items; begun = r.begun } };

    ghost invariant = { λ r. (length r.processes ≤ MAX_PROCESSES) × (length r.blocks.items ≡ MAX_PROCESSES) × (length r.declared ≤ MAX_CONTRACTS) };
}

/// What the words of a line say.
type LineWords = ArrayVec<Word, MAX_WORDS>;

/// No block names yet, of each process by number.
fn no_names(alloc: Global) -> Result<Vec<NameTable>, AllocError>
    ensures { IfOk result (λ v. v.items ≡ replicate MAX_PROCESSES []) }
{
    let mut blocks = Vec::new(alloc);
    for made in 0..MAX_PROCESSES {
        blocks.push(NameTable::new(alloc))?;
    }
    Ok(blocks)
}

impl SoFar {
    /// Nothing, with room for so many commands.
    pub(crate) fn new(alloc: Global, room: usize) -> Result<SoFar, AllocError>
        ensures { IfOk result (λ r. r ≡ nothing_read) }
    {
        Ok(SoFar {
            lines: Vec::with_capacity(alloc, room)?,
            processes: NameTable::new(alloc),
            blocks: no_names(alloc)?,
            declared: NameTable::new(alloc),
            contracts: Vec::new(alloc),
            begun: false,
        })
    }

    /// The number of the contract that a word names, which an earlier line declares.
    #[tactic(auto, unfolding(crate::specs::Numbering::contract_in))]
    fn contract(&self, word: &[u8]) -> Result<u8, FaultKind>
        ensures { result ≡ contract_in self.now word.now }
    {
        let name = Name::read(word)?;
        self.declared.number(&name).ok_or(FaultKind::BadContract)
    }

    /// What a word of a sort says, where `process` was named last; and the process that is named last
    /// then.
    #[tactic(auto, unfolding(crate::specs::Numbering::word_in, crate::specs::Numbering::process_said, crate::specs::Numbering::block_in), using(crate::proofs::Readings::stops_then))]
    fn word(&mut self, process: u8, sort: Sort, word: &[u8]) -> Result<(u8, Word), Stop>
        requires { process < MAX_PROCESSES }
        ensures gives { WordGives (λ w. (w.0, w.1, self.new)) result (word_in self.old process sort word.now) }
        ensures within { IfOk result (λ w. w.0 < MAX_PROCESSES) }
    {
        match sort {
            Sort::Process => {
                let number = self.processes.enter(MAX_PROCESSES, &Name::read(word)?)?;
                Ok((number, Word::Name(number)))
            }
            Sort::Block => {
                let names = &mut self.blocks[usize::from(process)];
                let number = names.enter(MAX_BLOCK_NAMES, &Name::read(word)?)?;
                Ok((process, Word::Name(number)))
            }
            Sort::Contract => Ok((process, Word::Name(self.contract(word)?))),
            Sort::Number { least, most } => {
                let number = number_between(least, most, word)?;
                Ok((process, Word::Number(number)))
            }
            Sort::Bytes => Ok((process, Word::Bytes(bytes_at(word)?))),
            Sort::Row => Err(Stop::Bad(FaultKind::BadContract)),
        }
    }

    /// Adds what words say, from left to right.
    fn add_words(
        &mut self,
        shape: &FormShape,
        words: &[&[u8]],
        said: &mut LineWords,
    ) -> Result<(), Stop>
        requires none { said.old.items ≡ [] }
        requires room { length words.now ≤ MAX_WORDS }
        ensures { WordGives (λ _. (said.new.items, self.new)) result (words_in self.old 0 shape.now 0 (map (λ w. w.now) words.now)) }
    {
        let mut process = 0;
        for (i, word) in words.iter().enumerate() {
            let (named, one) = self.word(process, shape.sort(i), word)?;
            process = named;
            said.push(one);
        }
        Ok(())
    }

    /// Whether a contract that a word of this sort names is declared on an earlier line.
    fn is_known(&self, sort: Sort, word: &[u8]) -> bool
        ensures { result ≡ is_word_known self.now sort word.now }
    {
        match sort {
            Sort::Contract => self.contract(word).is_ok(),
            _ => true,
        }
    }

    fn are_known(&self, shape: &FormShape, words: &[&[u8]]) -> bool
        ensures { result ≡ are_known self.now shape.now 0 (map (λ w. w.now) words.now) }
    {
        for (i, word) in words.iter().enumerate() {
            if !self.is_known(shape.sort(i), word) {
                return false;
            }
        }
        true
    }

    /// The contract that a line declares.
    #[tactic(auto, unfolding(crate::specs::Numbering::declared), using(crate::proofs::Readings::stops_then))]
    fn declare(&mut self, alloc: Global, words: &[&[u8]], said: &mut LineWords) -> Result<(), Stop>
        requires none { said.old.items ≡ [] }
        requires room { length words.now ≤ MAX_WORDS }
        ensures { WordGives (λ _. (said.new.items, self.new)) result (declared self.old (map (λ w. w.now) words.now)) }
    {
        let [first, rows @ ..] = words else {
            return Err(Stop::Bad(FaultKind::BadContract));
        };
        let name = Name::read(first)?;
        let Some(contract) = contract_of(&rows_in(alloc, rows)?) else {
            return Err(Stop::Bad(FaultKind::BadContract));
        };
        if self.declared.number(&name).is_some() {
            return Err(Stop::Bad(FaultKind::BadContract));
        }
        let number = self.declared.enter(MAX_CONTRACTS, &name)?;
        self.contracts.push(contract)?;
        said.push(Word::Name(number));
        Ok(())
    }

    /// What the words of a form say, once they are checked, where their place in the script allows it.
    #[tactic(auto, unfolding(crate::specs::Numbering::placed), using(crate::proofs::Readings::stops_then))]
    fn place(
        &mut self,
        alloc: Global,
        form: Form,
        words: &[&[u8]],
        said: &mut LineWords,
    ) -> Result<(), Stop>
        requires { said.old.items ≡ [] }
        ensures { WordGives (λ _. (said.new.items, self.new)) result (placed self.old form (map (λ w. w.now) words.now)) }
    {
        let shape = form.shape();
        check_all(alloc, &shape, words)?;
        let head = form.is_head();
        if head && self.begun {
            return Err(Stop::Bad(FaultKind::LateHead));
        }
        if matches!(form, Form::Contract) {
            return self.declare(alloc, words, said);
        }
        if !self.are_known(&shape, words) {
            return Err(Stop::Bad(FaultKind::BadContract));
        }
        self.begun = self.begun || !head;
        self.add_words(&shape, words, said)
    }

    /// Adds a command.
    #[tactic(auto, unfolding(crate::specs::Scripts::with_command))]
    fn push(&mut self, number: u32, form: Form, words: LineWords) -> Result<(), Stop>
        ensures { WordGives (λ _. self.new) result (with_command self.old number form words.items) }
    {
        if self.lines.len() >= MAX_COMMANDS {
            return Err(Stop::Bad(FaultKind::TooLong));
        }
        let command = Command { form, words };
        self.lines.push(Line { number, command })?;
        Ok(())
    }

    /// Adds what the words of a line say.
    #[tactic(auto, unfolding(crate::specs::Scripts::with_words), using(crate::proofs::Readings::stops_then))]
    fn add_line(&mut self, alloc: Global, number: u32, words: &mut Vec<&[u8]>) -> Result<(), Stop>
        ensures { WordGives (λ _. self.new) result (with_words self.old number (map (λ w. w.now) words.old.items)) }
    {
        if !are_filled(words) {
            return Err(Stop::Bad(FaultKind::BadWord));
        }
        let form = take_form(words)?;
        let mut said = ArrayVec::new();
        self.place(alloc, form, words, &mut said)?;
        self.push(number, form, said)
    }

    /// Reads one more line.
    #[tactic(auto, unfolding(crate::specs::Scripts::after_line), using(crate::proofs::Readings::stops_then))]
    pub(crate) fn read(&mut self, alloc: Global, number: u32, line: &[u8]) -> Result<(), Stop>
        ensures { WordGives (λ _. self.new) result (after_line self.old number line.now) }
    {
        if line.len() > MAX_LINE {
            return Err(Stop::Bad(FaultKind::LongLine));
        }
        if is_skipped(line) {
            return Ok(());
        }
        if !has_printable(line) {
            return Err(Stop::Bad(FaultKind::BadByte));
        }
        let mut words = pieces(alloc, line, b' ')?;
        self.add_line(alloc, number, &mut words)
    }

    /// The script that has been read.
    pub(crate) fn into_script(self) -> Script
        ensures { listing_of result ≡ listing_so_far self }
    {
        Script {
            lines: self.lines,
            processes: self.processes.into_names(),
            contracts: self.contracts,
        }
    }
}
