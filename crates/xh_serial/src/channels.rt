//! The channels: the two directions of each, and its contract.
ghost use Rattle.std.specs.Prelude.{◌≡◌, ℕ, ◌+◌, ◌-◌, ◌*◌, ◌/◌, ◌%◌, ◌<◌, ◌≤◌, ◌==◌, [], IfOk, None, Some, false, is_none, length, replicate, slice_set, slice_index_or};
ghost use Rattle.xh_model.specs.declared.limits.TheConstants.{CHANNELS, DIRECTIONS, MAX_BLOCKS, MAX_DEPTH, MAX_MESSAGES};
ghost use Rattle.xh_serial.specs.Lines.{carried, contract_of, drained_state, first_state, is_full, line, new_line, next_state, no_line, no_message, peer, put_line};
ghost use Rattle.xh_serial.specs.Lines.{shut_in, tags_of, taken_line, told_line, way_in};
ghost use Rattle.xh_serial.specs.inner.Channeling.{IsSound};
ghost use Rattle.std.specs.List.{remove};

use crate::line::{Line, ROOM};
use crate::list::{extend, listed};
use crate::message::Message;
use arrayvec::ArrayVec;
use std::alloc::{AllocError, Global};
use std::marker::Model;
use xh_core::Contract;
use xh_model::limits::{CHANNELS, DIRECTIONS, MAX_BLOCKS, MAX_MESSAGES};

/// As many records as may wait in a direction.
const WAITING: usize = ROOM * MAX_BLOCKS;

/// All channels, opened or not.
#[derive(Drop)]
pub(crate) struct SerialChannels {
    /// By direction.
    lines: Vec<Line>,
    /// By channel.
    contracts: Vec<Option<Contract>>,
    /// How many were opened.
    opened: u8,
}

impl Model for SerialChannels {
    ghost use Rattle.std.specs.Prelude.{◌≡◌, length};
    ghost use Rattle.xh_model.specs.declared.limits.TheConstants.{CHANNELS, DIRECTIONS};
    ghost use Rattle.xh_serial.specs.inner.Channeling.{ChannelsOf};

    ghost Value = { ChannelsOf };

    ghost view = { λ c. record { lines = c.lines.items; contracts = c.contracts.items; opened = c.opened } };

    ghost invariant = { λ c. (length c.lines.items ≡ DIRECTIONS) × (length c.contracts.items ≡ CHANNELS) };
}

/// The other direction of a channel.
pub(crate) fn peer(d: u8) -> u8
    requires { d < DIRECTIONS }
    ensures is { result ≡ peer d }
    ensures within { result < DIRECTIONS }
{
    if d % 2 == 0 { d + 1 } else { d - 1 }
}

/// The state in which both ends of a channel begin.
fn first_state(contract: &Option<Contract>) -> u8
    ensures state { result ≡ first_state contract.now }
    ensures sound { IsSound contract.now }
{
    match contract {
        Some(contract) => contract.first(),
        None => 0,
    }
}

/// A direction on which nothing was put.
fn new_line(state: u8) -> Line
    ensures { result ≡ record { shut = false; state = state; put = 0; waiting = record { items = [] } } }
{
    Line {
        shut: false,
        state,
        put: 0,
        waiting: ArrayVec::new(),
    }
}

/// The state of an end after a message with this tag, which `side` put; without a contract the same.
/// None where the contract allows no such message.
fn next_state(contract: &Option<Contract>, side: u8, state: u8, tag: u16) -> Option<u8>
    ensures { result ≡ next_state contract.now side state tag }
{
    match contract {
        Some(contract) => contract.allows(state, tag, side),
        None => Some(state),
    }
}

/// The state after all of these messages.
fn state_at_end(contract: &Option<Contract>, side: u8, state: u8, messages: &[Message]) -> u8
    ensures { result ≡ drained_state contract.now side state (tags_of messages.now) }
{
    let mut end = state;
    for message in messages {
        end = next_state(contract, side, end, message.tag).unwrap_or(end);
    }
    end
}

/// The records in messages, front first.
fn carried(messages: &ArrayVec<Message, ROOM>) -> ArrayVec<u16, WAITING>
    ensures { result.items ≡ carried messages.now.items }
{
    let mut list = ArrayVec::new();
    for message in messages.as_slice() {
        extend(&mut list, message.blocks.as_slice());
    }
    list
}

/// The message at the front of a direction leaves it.
fn take_first(line: &mut Line) -> Message
    requires { 0 < length line.old.waiting.items }
    ensures front { result ≡ slice_index_or line.old.waiting.items 0 no_message }
    ensures rest { line.new ≡ record line.old { waiting = record { items = remove line.old.waiting.items 0 } } }
{
    line.waiting.remove(0)
}

/// The directions of all channels.
fn new_lines(alloc: Global) -> Result<Vec<Line>, AllocError>
    ensures { IfOk result (λ lines. lines.items ≡ replicate DIRECTIONS no_line) }
{
    let mut lines = Vec::with_capacity(alloc, DIRECTIONS as usize)?;
    for _ in 0..DIRECTIONS {
        lines.push(new_line(0))?;
    }
    Ok(lines)
}

/// No contract for any channel.
fn no_contracts(alloc: Global) -> Result<Vec<Option<Contract>>, AllocError>
    ensures { IfOk result (λ contracts. contracts.items ≡ replicate CHANNELS None) }
{
    let mut contracts = Vec::with_capacity(alloc, CHANNELS as usize)?;
    for _ in 0..CHANNELS {
        contracts.push(None)?;
    }
    Ok(contracts)
}

impl SerialChannels {
    /// No channel is opened yet.
    pub(crate) fn none(alloc: Global) -> Result<SerialChannels, AllocError>
        ensures { IfOk result (λ channels. channels ≡ record { lines = replicate DIRECTIONS no_line; contracts = replicate CHANNELS None; opened = 0 }) }
    {
        Ok(SerialChannels {
            lines: new_lines(alloc)?,
            contracts: no_contracts(alloc)?,
            opened: 0,
        })
    }

    /// How many channels were opened.
    pub(crate) fn opened(&self) -> u8
        ensures { result ≡ self.now.opened }
    {
        self.opened
    }

    /// The messages that wait in a direction, front first.
    pub(crate) fn waiting(&self, d: u8) -> &[Message]
        requires { d < DIRECTIONS }
        ensures { result.now ≡ (line self.now.lines d).waiting.items }
    {
        self.lines[usize::from(d)].waiting.as_slice()
    }

    /// The records on their way in a direction, front first.
    pub(crate) fn on_way(&self, d: u8) -> ArrayVec<u16, WAITING>
        requires { d < DIRECTIONS }
        ensures { result.items ≡ carried (line self.now.lines d).waiting.items }
    {
        carried(&self.lines[usize::from(d)].waiting)
    }

    /// Whether the end that a direction leads to is closed.
    pub(crate) fn is_shut(&self, d: u8) -> bool
        requires { d < DIRECTIONS }
        ensures { result ≡ (line self.now.lines d).shut }
    {
        self.lines[usize::from(d)].shut
    }

    /// Whether the end at `d` goes by a contract that allows it no such message now.
    pub(crate) fn is_against(&self, d: u8, tag: u16) -> bool
        requires { d < DIRECTIONS }
        ensures { result ≡ is_none (next_state (contract_of self.now.contracts d) (d % 2) (line self.now.lines d).state tag) }
    {
        let state = self.lines[usize::from(d)].state;
        next_state(&self.contracts[usize::from(d / 2)], d % 2, state, tag).is_none()
    }

    /// Whether a direction takes no further message.
    pub(crate) fn is_full(&self, d: u8, depth: u8) -> bool
        requires { d < DIRECTIONS }
        ensures { result ≡ is_full depth (line self.now.lines d) }
    {
        let line = &self.lines[usize::from(d)];
        line.waiting.len() >= usize::from(depth) || line.put >= MAX_MESSAGES
    }

    /// The next channel begins, under its contract, if it has one. Its number.
    pub(crate) fn open(&mut self, contract: Option<Contract>) -> u8
        requires { self.old.opened < CHANNELS }
        ensures number { result ≡ self.old.opened }
        ensures lines { self.new.lines ≡ slice_set (slice_set self.old.lines (2 * self.old.opened) (new_line contract)) (2 * self.old.opened + 1) (new_line contract) }
        ensures contracts { self.new.contracts ≡ slice_set self.old.contracts self.old.opened contract }
        ensures opened { self.new.opened ≡ self.old.opened + 1 }
        ensures sound { IsSound contract }
    {
        let channel = self.opened;
        let low = 2 * usize::from(channel);
        let state = first_state(&contract);
        self.lines[low] = new_line(state);
        self.lines[low + 1] = new_line(state);
        self.contracts[usize::from(channel)] = contract;
        self.opened = channel + 1;
        channel
    }

    /// The end that puts a message is in its contract's next state.
    pub(crate) fn tell(&mut self, own: u8, tag: u16)
        requires { own < DIRECTIONS }
        ensures { self.new ≡ record self.old { lines = slice_set self.old.lines own (told_line (contract_of self.old.contracts own) (own % 2) tag (line self.old.lines own)) } }
    {
        let line = &mut self.lines[usize::from(own)];
        let contract = &self.contracts[usize::from(own / 2)];
        line.state = next_state(contract, own % 2, line.state, tag).unwrap_or(line.state);
    }

    /// A message goes to the back of a direction. Its number.
    pub(crate) fn put(&mut self, to: u8, tag: u16, blocks: &[u16]) -> u64
        requires there { to < DIRECTIONS }
        requires few { length blocks.now ≤ MAX_BLOCKS }
        requires room { length (line self.old.lines to).waiting.items < MAX_DEPTH }
        requires more { (line self.old.lines to).put < MAX_MESSAGES }
        ensures is { self.new ≡ record self.old { lines = slice_set self.old.lines to (put_line tag blocks.now (line self.old.lines to)) } }
        ensures number { result ≡ (line self.old.lines to).put + 1 }
    {
        let line = &mut self.lines[usize::from(to)];
        let no = line.put + 1;
        line.put = no;
        line.waiting.push(Message {
            no,
            tag,
            blocks: listed(blocks),
        });
        no
    }

    /// The front message of a direction, which moves its contract's state.
    pub(crate) fn take_front(&mut self, d: u8) -> Message
        requires there { d < DIRECTIONS }
        requires some { 0 < length (line self.old.lines d).waiting.items }
        ensures front { result ≡ slice_index_or (line self.old.lines d).waiting.items 0 no_message }
        ensures is { self.new ≡ record self.old { lines = slice_set self.old.lines d (taken_line (contract_of self.old.contracts d) (1 - d % 2) result.tag (line self.old.lines d)) } }
    {
        let line = &mut self.lines[usize::from(d)];
        let message = take_first(line);
        let contract = &self.contracts[usize::from(d / 2)];
        line.state = next_state(contract, 1 - d % 2, line.state, message.tag).unwrap_or(line.state);
        message
    }

    /// The end that a direction leads to is closed, as if it had taken what waited: the records in it.
    pub(crate) fn shut(&mut self, end: Option<u8>) -> ArrayVec<u16, WAITING>
        requires { (d : ℕ) → end ≡ Some d → d < DIRECTIONS }
        ensures records { result.items ≡ way_in self.old.lines end }
        ensures lines { self.new ≡ record self.old { lines = shut_in self.old.contracts self.old.lines end } }
    {
        let Some(d) = end else {
            return ArrayVec::new();
        };
        let line = &mut self.lines[usize::from(d)];
        let contract = &self.contracts[usize::from(d / 2)];
        let records = carried(&line.waiting);
        line.state = state_at_end(contract, 1 - d % 2, line.state, line.waiting.as_slice());
        line.shut = true;
        line.waiting.clear();
        records
    }
}
