//! Commands: what the lines of a script say.
ghost use Rattle.std.specs.Prelude.{◌≡◌, ◌≤◌, drop, length};
ghost use Rattle.xh_script.specs.declared.limits.TheConstants.{MAX_WORDS};
ghost use Rattle.xh_script.specs.Operands.{name_in, name, number, number_or, contract, bytes};

use crate::Form;
use crate::limits::{MAX_HEX, MAX_WORDS};
use arrayvec::ArrayVec;

/// What a word of a line says.
#[derive(Debug, Drop)]
pub enum Word {
    /// A name's number: a process's is its place among the names of processes, a block's that among
    /// the names of its process's blocks, a contract's that among the contracts.
    Name(u8),
    Number(u32),
    /// At least one byte.
    Bytes(ArrayVec<u8, MAX_HEX>),
}

impl Default for Word {
    fn default() -> Word {
        Word::Number(0)
    }
}

/// A command: its form, and what its words say, in the order of the form's row in the table.
#[derive(Drop)]
pub struct Command {
    pub form: Form,
    pub words: ArrayVec<Word, MAX_WORDS>,
}

/// A command with the number of its line, from 1 on; lines without a command count too.
#[derive(Drop)]
pub struct Line {
    pub number: u32,
    pub command: Command,
}

impl Word {
    /// The number of the name that the word is.
    pub fn name(&self) -> u8
        ensures { result ≡ name_in self.now }
    {
        match self {
            Word::Name(name) => *name,
            _ => 0,
        }
    }
}

impl Command {
    /// The number of the process or of the block that the word at `i` names.
    pub fn name(&self, i: usize) -> u8
        ensures { result ≡ name self.now.words.items i }
    {
        match self.words.get(i) {
            Some(word) => word.name(),
            None => 0,
        }
    }

    /// The number that the word at `i` says.
    pub fn number(&self, i: usize) -> u32
        ensures { result ≡ number self.now.words.items i }
    {
        self.number_or(i, 0)
    }

    /// The number that the word at `i` says, or another one where the line ends before it.
    pub fn number_or(&self, i: usize, other: u32) -> u32
        ensures { result ≡ number_or self.now.words.items i other }
    {
        match self.words.get(i) {
            Some(Word::Number(number)) => *number,
            _ => other,
        }
    }

    /// The number of the contract that the word at `i` names, if the line has one.
    pub fn contract(&self, i: usize) -> Option<u8>
        ensures { result ≡ contract self.now.words.items i }
    {
        match self.words.get(i) {
            Some(Word::Name(number)) => Some(*number),
            _ => None,
        }
    }

    /// The bytes that the word at `i` says.
    pub fn bytes(&self, i: usize) -> &[u8]
        ensures { result.now ≡ bytes self.now.words.items i }
    {
        match self.words.get(i) {
            Some(Word::Bytes(bytes)) => bytes.as_slice(),
            _ => &[],
        }
    }

    /// The words from the one at `i` on.
    pub fn from(&self, i: usize) -> &[Word]
        ensures is { result.now ≡ drop i self.now.words.items }
        ensures within { length result.now ≤ MAX_WORDS }
    {
        match self.words.get(i..) {
            Some(words) => words,
            None => &[],
        }
    }
}
