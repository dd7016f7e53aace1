//! What the names of a script stand for.
ghost use Rattle.std.specs.Prelude.{◌≡◌, ◌+◌, ◌%◌, ◌≤◌, ◌==◌, if◌then◌else◌, length, codes, IfOk};
ghost use Rattle.xh_serial.specs.MessageCommands.{without_records};
ghost use Rattle.xh_session.specs.Bindings.{no_bindings, no_processes, names_of, number_at, has_place, with_started, renumbered, process_at, name_or_vacant, names_by_place};
ghost use Rattle.xh_session.specs.BlockNames.{row_of, names_alone, record_at, records_of, bound_block, bound_each, cleared, unbound, unbound_each, unbound_all};
ghost use Rattle.xh_model.specs.declared.limits.TheConstants.{PLACES};
ghost use Rattle.xh_script.specs.declared.limits.TheConstants.{MAX_WORDS, MAX_BLOCK_NAMES};
ghost use Rattle.xh_session.specs.declared.bindings.TheConstants.{NOTHING};

use arrayvec::ArrayVec;
use std::alloc::{AllocError, Global};
use std::marker::Model;
use xh_core::{Block, PLACE_LINES};
use xh_model::limits::PLACES;
use xh_script::limits::{MAX_BLOCK_NAMES, MAX_PROCESSES, MAX_WORDS};
use xh_script::{Name, Word};

/// No process has this number, and no block this record: it stands for a process without a place,
/// and for a name that is bound to nothing.
pub(crate) const NOTHING: u16 = 65_535;

/// The number of each process, by its name, and the name of the latest process of each place.
#[derive(Clone, Copy)]
pub struct Processes {
    numbers: [u16; MAX_PROCESSES],
    pub(crate) latest: [u8; PLACE_LINES],
}

/// The record of each name for a block: a row for each process, from the process `first` on.
#[derive(Drop)]
pub(crate) struct BlockNames {
    first: u8,
    rows: Vec<[u16; MAX_BLOCK_NAMES]>,
}

impl Model for BlockNames {
    ghost use Rattle.xh_session.specs.BlockNames.{BlockNames};

    ghost Value = { BlockNames };

    ghost view = { λ s. record { first = s.first; rows = s.rows.items } };
}

/// What the names of a script stand for.
#[derive(Drop)]
pub struct Bindings {
    pub processes: Processes,
    pub(crate) blocks: BlockNames,
}

// The entries that are this record become nothing. Every entry is written, so that the compiler can do many at once.
fn clear(entries: &mut [u16], rec: u16)
    ensures { entries.new ≡ cleared rec entries.old }
{
    for entry in entries.iter_mut() {
        *entry = if *entry == rec { NOTHING } else { *entry };
    }
}

#[tactic(auto, unfolding(xh_script::specs::Sorts::name_at))]
fn vacant() -> Name
    ensures { result ≡ codes "vacant" }
{
    match Name::read(b"vacant") {
        Ok(name) => name,
        Err(_) => unreachable!(),
    }
}

impl Processes {
    /// No process has a place.
    #[tactic(auto, unfolding(crate::specs::Bindings::no_processes))]
    pub fn new() -> Processes
        ensures { result ≡ no_processes }
    {
        Processes {
            numbers: [NOTHING; MAX_PROCESSES],
            latest: [0; PLACE_LINES],
        }
    }

    /// The number of a process, or `NOTHING` where no `process` line gave it a place.
    pub fn number(&self, process: u8) -> u16
        ensures { result ≡ number_at self.now process }
    {
        self.numbers
            .get(usize::from(process))
            .copied()
            .unwrap_or(NOTHING)
    }

    /// Whether a `process` line gave the process a place.
    pub(crate) fn has_place(&self, process: u8) -> bool
        ensures { result ≡ has_place self.now process }
    {
        self.number(process) != NOTHING
    }

    /// The process that has a place, where one has it.
    pub fn process_at(&self, place: u8) -> Option<u8>
        ensures { result ≡ process_at self.now place }
    {
        let process = *self.latest.get(usize::from(place))?;
        (self.number(process) == u16::from(place)).then_some(process)
    }

    /// The process has this number from now on.
    pub fn renumber(&mut self, process: u8, number: u16)
        ensures { self.new ≡ renumbered self.old process number }
    {
        let process = usize::from(process);
        if process < MAX_PROCESSES {
            self.numbers[process] = number;
        }
    }

    /// The process has this number, and is the latest of its place.
    pub fn start(&mut self, process: u8, number: u16)
        ensures { self.new ≡ with_started self.old process number }
    {
        self.renumber(process, number);
        self.latest[usize::from(number % u16::from(PLACES))] = process;
    }

    /// The names of the processes by place, 32 of them, from the names by number.
    #[tactic(auto, unfolding(crate::specs::Bindings::name_or_vacant))]
    pub fn by_place(&self, alloc: Global, processes: &[Name]) -> Result<Vec<Name>, AllocError>
        ensures names { IfOk result (λ names. names.items ≡ names_by_place processes.now self.now) }
        ensures count { IfOk result (λ names. length names.items ≡ PLACES) }
    {
        let name = |process: &u8| match processes.get(usize::from(*process)) {
            Some(name) => name.copy(),
            None => vacant(),
        };
        self.latest.iter().map(name).collect(alloc)
    }
}

impl Bindings {
    /// No process has a place, and no name is bound.
    #[tactic(auto, unfolding(crate::specs::Bindings::no_bindings))]
    pub fn new(alloc: Global) -> Result<Bindings, AllocError>
        ensures { IfOk result (λ names. names ≡ no_bindings) }
    {
        Ok(Bindings {
            processes: Processes::new(),
            blocks: BlockNames {
                first: 0,
                rows: vec![in alloc; [NOTHING; MAX_BLOCK_NAMES]; MAX_PROCESSES]?,
            },
        })
    }

    /// What the processes stand for, and the names of one of them for blocks.
    pub fn of_process(&self, alloc: Global, process: u8) -> Result<Bindings, AllocError>
        ensures { IfOk result (λ names. names ≡ names_of self.now process) }
    {
        Ok(Bindings {
            processes: self.processes,
            blocks: self.blocks.of_process(alloc, process)?,
        })
    }
}

impl BlockNames {
    // Which row is the process's; past the last where its names are not here.
    #[tactic(auto, unfolding(crate::specs::BlockNames::row_of))]
    fn row_of(&self, process: u8) -> usize
        ensures { result ≡ row_of self.now process }
    {
        process
            .checked_sub(self.first)
            .map_or(self.rows.len(), usize::from)
    }

    // The names of the process alone.
    fn of_process(&self, alloc: Global, process: u8) -> Result<BlockNames, AllocError>
        ensures { IfOk result (λ names. names ≡ names_alone self.now process) }
    {
        let row = self.row_of(process).min(self.rows.len());
        let end = self.rows.len().min(row + 1);
        Ok(BlockNames {
            first: process,
            rows: Vec::from_slice(alloc, &self.rows[row..end])?,
        })
    }

    /// The record of a block's name, or `NOTHING` where it is bound to none.
    pub(crate) fn record_of(&self, process: u8, block: u8) -> u16
        ensures { result ≡ record_at self.now process block }
    {
        match self.rows.get(self.row_of(process)) {
            Some(row) => row[usize::from(block)],
            None => NOTHING,
        }
    }

    /// The records of the names that words say.
    pub(crate) fn records_of(&self, process: u8, words: &[Word]) -> ArrayVec<u16, MAX_WORDS>
        requires { length words.now ≤ MAX_WORDS }
        ensures { result.items ≡ records_of self.now process words.now }
    {
        let mut found = ArrayVec::new();
        for word in words {
            found.push(self.record_of(process, word.name()));
        }
        found
    }

    /// The name stands for this block, and stays as it was where the block is missing.
    pub(crate) fn bind(&mut self, process: u8, name: u8, block: Option<Block>)
        ensures { self.new ≡ bound_block self.old process name block }
    {
        let row = self.row_of(process);
        if let Some(block) = block
            && row < self.rows.len()
        {
            self.rows[row][usize::from(name)] = block.rec;
        }
    }

    /// The names that words say stand for the blocks of a message, from left to right. Names past the
    /// last block and those of missing blocks stay as they were; blocks past the last name have none.
    #[tactic(auto, using(crate::proofs::BlockNames::bound_each_end))]
    pub(crate) fn bind_each(&mut self, process: u8, words: &[Word], message: &[Option<Block>])
        ensures { self.new ≡ bound_each self.old process words.now message.now }
    {
        let count = words.len().min(message.len());
        for i in 0..count {
            self.bind(process, words[i].name(), message[i]);
        }
    }

    /// Each name of the process that stands for this record is bound to nothing.
    pub(crate) fn unbind(&mut self, process: u8, rec: u16)
        ensures { self.new ≡ unbound self.old process rec }
    {
        let row = self.row_of(process);
        if row < self.rows.len() {
            clear(&mut self.rows[row], rec);
        }
    }

    /// Each name of the process that stands for one of these records, and for none that came back, is bound to nothing.
    pub(crate) fn unbind_each(&mut self, process: u8, records: &[u16], back: &[u16])
        ensures { self.new ≡ unbound_each self.old process (without_records back.now records.now) }
    {
        for rec in records {
            if !back.contains(rec) {
                self.unbind(process, *rec);
            }
        }
    }

    /// All names of the process are bound to nothing.
    pub(crate) fn unbind_all(&mut self, process: u8)
        ensures { self.new ≡ unbound_all self.old process }
    {
        let row = self.row_of(process);
        if row < self.rows.len() {
            self.rows[row] = [NOTHING; MAX_BLOCK_NAMES];
        }
    }
}
