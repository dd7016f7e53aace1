//! All channels of a heap.
ghost use Rattle.std.specs.Prelude.{◌≡◌, ℕ, ◌+◌, ◌*◌, ◌<◌, ◌≤◌, ◌⊎◌, true, false, is_some, length, IfOk, IfErr, IfSome, None, Some};
ghost use Rattle.xh_model.specs.Rows.{row_at};
ghost use Rattle.xh_model.specs.declared.limits.TheConstants.{CHANNELS, MAX_DEPTH, MAX_MESSAGES, PLACES};
ghost use Rattle.xh_channel.specs.Calls.{EndpointPuts, EndpointShuts, EndpointTakes, IsUnopened};
ghost use Rattle.xh_channel.specs.inner.FreeNumbers.{StandAtTheirNumbers, at_place, has_depth};
ghost use Rattle.xh_channel.specs.Pairs.{IsPair};
ghost use Rattle.xh_channel.specs.Queues.{IsNewDirection};
ghost use Rattle.xh_channel.specs.declared.refused.Refused.TheVariants.{OutOfMemory, BadSize};

use crate::channel_end::{self, ChannelEnd};
use crate::closed_word::ClosedWord;
use crate::endpoint::Endpoint;
use crate::free_numbers::{AllTaken, Freed, Home, all_free, handles};
use crate::free_pair::FreePair;
use crate::hold::Hold;
use crate::line_seat::LineSeat;
use crate::message::Message;
use crate::queue_end::{QueueEnd, direction};
use crate::refused::Refused;
use crate::spot::Spot;
use crate::unopened::Unopened;
use crate::unsent::Unsent;
use crate::waiting::{Bells, OwnBells, OwnSignal, Signal};
use arrayvec::ArrayVec;
use crossbeam_utils::CachePadded;
use std::alloc::{AllocError, Global};
use std::sync::{Arc, Wait};
use std::time::{Clock, Instant};
use xh_core::Contract;
use xh_model::limits::{CHANNELS, MAX_BLOCKS, MAX_DEPTH};

/// All channels of a heap. They are shared by reference.
#[derive(Drop)]
pub struct Channels {
    depth: u8,
    home: Home,
    signals: Vec<OwnSignal>,
    bells: OwnBells,
    // whether numbers come back, and by what memory
    come_back: Option<Global>,
    ghost deep: { (1 ≤ depth) × (depth ≤ MAX_DEPTH) },
    ghost each: { length signals.items ≡ CHANNELS },
}

// What an end sends by, and what it receives by.
type Queues = (QueueEnd, QueueEnd);

// Those of both ends of a channel.
fn queues(alloc: Global, depth: usize) -> Result<(Queues, Queues), AllocError>
    requires { 0 < depth }
    ensures { IfOk result (λ q. IsNewDirection depth q.0.0 q.1.1 × IsNewDirection depth q.1.0 q.0.1) }
{
    let there = direction(alloc, depth)?;
    let back = direction(alloc, depth)?;
    Ok(((there.0, back.1), (back.0, there.1)))
}

// Both ends of a new channel of this number.
fn pair(
    alloc: Global,
    depth: usize,
    channel: u8,
    signal: &OwnSignal,
) -> Result<FreePair, AllocError>
    requires { (0 < depth) × (channel < CHANNELS) }
    ensures { IfOk result (λ p. (p.low.spot.channel ≡ channel) × (p.low.depth ≡ depth)) }
{
    let words = ClosedWord::pair(alloc, channel);
    let queues = queues(alloc, depth);
    let lines = LineSeat::pair(alloc);
    let own: Result<_, _> = Arc::try_clone(signal);
    let peers: Result<_, _> = Arc::try_clone(signal);
    let (Ok(words), Ok(queues), Ok(lines), Ok(own), Ok(peers)) = (words, queues, lines, own, peers)
    else {
        return Err(AllocError);
    };
    let spot = Spot { channel, side: 0 };
    let low = ChannelEnd::new(spot, queues.0, words.0, lines.0, own);
    let spot = Spot { channel, side: 1 };
    let high = ChannelEnd::new(spot, queues.1, words.1, lines.1, peers);
    Ok(FreePair { low, high })
}

// The pair of each number.
fn pairs(
    alloc: Global,
    depth: usize,
    signals: &Vec<OwnSignal>,
) -> Result<Vec<Option<FreePair>>, AllocError>
    requires { (0 < depth) × (length signals.now.items ≡ CHANNELS) }
    ensures { IfOk result (λ v. (length v.items ≡ CHANNELS) × StandAtTheirNumbers v.items × ((i : ℕ) → i < CHANNELS → has_depth depth (at_place v.items i) ≡ true)) }
{
    let mut pairs = Vec::with_capacity(alloc, CHANNELS as usize)?;
    for channel in 0..CHANNELS {
        let signal = &signals[channel as usize];
        pairs.push(Some(pair(alloc, depth, channel, signal)?))?;
    }
    Ok(pairs)
}

// The signal of each number.
fn signals(alloc: Global, bells: &OwnBells) -> Result<Vec<OwnSignal>, AllocError>
    ensures { IfOk result (λ v. length v.items ≡ CHANNELS) }
{
    let mut signals = Vec::with_capacity(alloc, CHANNELS as usize)?;
    for _ in 0..CHANNELS {
        let signal = Signal::new(Arc::try_clone(bells)?);
        signals.push(Arc::new(alloc, CachePadded::new(signal))?)?;
    }
    Ok(signals)
}

impl Channels {
    /// All 64 channels, none of them open. `depth` is the number of messages that may wait in a
    /// direction, 1 to 16, and else BadSize. OutOfMemory where a growth is refused.
    pub fn new(alloc: Global, depth: u8) -> Result<Channels, Refused>
        ensures ok { IfOk result (λ c. (c.depth ≡ depth) × (1 ≤ depth) × (depth ≤ MAX_DEPTH)) }
        ensures once { IfOk result (λ c. c.come_back ≡ None) }
        ensures err { IfErr result (λ r. ((r ≡ BadSize) × ((depth ≡ 0) ⊎ (MAX_DEPTH < depth))) ⊎ ((r ≡ OutOfMemory) × (1 ≤ depth) × (depth ≤ MAX_DEPTH))) }
    {
        if depth == 0 || depth > MAX_DEPTH {
            return Err(Refused::BadSize);
        }
        let bells = Bells::new(alloc)?;
        let signals = signals(alloc, &bells)?;
        let pairs = pairs(alloc, depth as usize, &signals)?;
        Ok(Channels {
            depth,
            home: all_free(alloc, pairs)?,
            signals,
            bells,
            come_back: None,
        })
    }

    /// From now on the number of a channel comes back once neither of its ends exists any more: see `open`.
    pub fn coming_back(mut self, alloc: Global) -> Channels
        ensures { result ≡ record self { come_back = Some alloc } }
    {
        self.come_back = Some(alloc);
        self
    }

    // The lowest number of which no end exists any more, nor a free pair or a hold: its signal has no other owner.
    fn lowest_gone(&self) -> Option<u8>
        ensures { IfSome result (λ channel. channel < CHANNELS) }
    {
        for channel in 0..CHANNELS {
            if Arc::strong_count(&self.signals[channel as usize]) == 1 {
                return Some(channel);
            }
        }
        None
    }

    // New ends of the lowest number that has none, by whoever has the lock of the free numbers: nobody else makes ends of it meanwhile.
    fn renewed(&self, alloc: Global, taken: AllTaken) -> Result<FreePair, Unopened>
        ensures ok { IfOk result (λ p. p.low.depth ≡ self.now.depth) }
        ensures err { IfErr result (IsUnopened taken.depth true) }
    {
        let Some(channel) = self.lowest_gone() else {
            return Err(Unopened::NoChannel(taken));
        };
        let signal = &self.signals[channel as usize];
        signal.forget();
        pair(alloc, self.depth as usize, channel, signal).map_err(|_error| Unopened::OutOfMemory(
            taken,
        ))
    }

    // The pair of the lowest number that is free, or that came back.
    fn open_pair<R: Wait>(&self, rt: &R) -> Result<FreePair, Unopened>
        ensures ok { IfOk result (λ p. p.low.depth ≡ self.now.depth) }
        ensures err { IfErr result (IsUnopened self.now.depth (is_some self.now.come_back)) }
    {
        let mut free = self.home.lock(rt);
        match (free.open(self.depth as usize), self.come_back) {
            (Ok(pair), _) => Ok(pair),
            (Err(taken), Some(alloc)) => self.renewed(alloc, taken),
            (Err(taken), None) => Err(Unopened::NoChannel(taken)),
        }
    }

    /// Both ends of the lowest channel that is free, side 0 first, with nothing put, nothing taken and neither shut. Where none
    /// is free NoChannel; or where numbers come back, new ends of the lowest channel of which no end exists any more, with room of
    /// their own: NoChannel where there is none, OutOfMemory where memory for them was refused. An end that is kept keeps its
    /// number, wherever it is: on its way, also to itself.
    pub fn open<R: Wait>(&self, rt: &R) -> Result<(Endpoint, Endpoint), Unopened>
        ensures ok { IfOk result (λ ends. IsPair ends.0 ends.1 × (ends.0.depth ≡ self.now.depth) × (ends.0.contract ≡ None)) }
        ensures err { IfErr result (IsUnopened self.now.depth (is_some self.now.come_back)) }
    {
        let (own, peers) = handles(&self.home).map_err(Unopened::NoHandle)?;
        let FreePair { low, high } = self.open_pair(rt)?;
        let low = Endpoint {
            inner: low,
            home: own,
        };
        let high = Endpoint {
            inner: high,
            home: peers,
        };
        Ok((low, high))
    }

    /// As `open`, of a channel that goes by the contract. Both ends begin in its first state.
    pub fn open_with<R: Wait>(
        &self,
        rt: &R,
        contract: Contract,
    ) -> Result<(Endpoint, Endpoint), Unopened>
        ensures ok { IfOk result (λ ends. IsPair ends.0 ends.1 × (ends.0.depth ≡ self.now.depth)) }
        ensures contract { IfOk result (λ ends. (ends.0.contract ≡ Some contract) × (ends.0.state ≡ (row_at contract 0).state)) }
        ensures err { IfErr result (IsUnopened self.now.depth (is_some self.now.come_back)) }
    {
        let (low, high) = self.open(rt)?;
        let (first, second) = channel_end::begin(rt, low.inner, high.inner, contract, self.depth);
        let low = Endpoint {
            inner: first,
            ..low
        };
        let high = Endpoint {
            inner: second,
            ..high
        };
        Ok((low, high))
    }

    /// The number of a channel that was never used is free again, where it was opened: of a pair of
    /// another heap's channels it is free there, and no number of these. A contract is gone with it.
    /// What is answered shows that this very pair was put back.
    pub fn cancel<R: Wait>(&self, rt: &R, low: Endpoint, high: Endpoint) -> Freed
        requires { IsPair low high }
        ensures freed { result.note.table ≡ low.closed }
    {
        let Endpoint { inner: low, home } = low;
        let mut low = low.without_contract();
        let high = high.inner.without_contract();
        let note = low.word.note();
        home.lock(rt).cancel(FreePair { low, high }, note)
    }

    /// Keeps a channel's number from coming back. None where the count of handles has run out, which no run meets.
    pub fn hold(&self, channel: u8) -> Option<Hold>
        requires { channel < CHANNELS }
    {
        let signal: Result<_, _> = Arc::try_clone(&self.signals[channel as usize]);
        let Ok(signal) = signal else {
            return None;
        };
        Some(Hold { signal })
    }

    /// Puts a message, and answers its number, which is the count of this end's puts: it is at the back of what was sent.
    /// On a channel with a contract the message moves this end's state, and Protocol comes first, exactly where the contract
    /// doesn't allow the message in that state. Then PeerClosed where the peer was seen shut, then Full where as many messages as
    /// the depth were found to wait or the direction has carried 2^62 - 1 of them: this end has put the depth more than it was
    /// told were taken. After PeerClosed on a channel without a contract the shut end may still take
    /// a message with the numbers of these blocks, where it was shut between the push and the second look: who has a block is
    /// what its owner word says.
    pub fn put<R: Wait>(
        &self,
        rt: &R,
        end: &mut Endpoint,
        tag: u16,
        blocks: ArrayVec<u16, MAX_BLOCKS>,
    ) -> Result<u64, Unsent>
        ensures put { EndpointPuts tag blocks result end.old end.new }
        ensures last { IfOk result (λ no. no ≤ MAX_MESSAGES) }
    {
        let no = end.inner.put(rt, tag, blocks)?;
        end.inner.signal.raise();
        Ok(no)
    }

    /// Takes the message at the front, which comes next after those that were taken; on a channel with a contract it moves this
    /// end's state. With none, PeerClosed where the peer was seen shut before it looked for one, and else Empty: this end has taken all
    /// that it was told were put. An end that was shut still takes what is left.
    pub fn take<R: Wait>(&self, rt: &R, end: &mut Endpoint) -> Result<Message, Refused>
        ensures taken { EndpointTakes result end.old end.new }
    {
        let taken = end.inner.take(rt);
        if taken.is_ok() {
            end.inner.signal.tell_room(1 - end.inner.spot.side);
        }
        taken
    }

    /// Shuts this end: no later put toward it succeeds.
    pub fn shut<R: Wait>(&self, rt: &R, end: &mut Endpoint)
        ensures { EndpointShuts end.old end.new }
    {
        end.inner.shut(rt);
        end.inner.signal.rouse();
    }

    /// The channel's turn rises by one, and all that wait there look again, for room too. For whoever ends a process
    /// without shutting its endpoint: the process may wait at the endpoint's spot, and no put comes.
    pub fn rouse<R: Wait>(&self, _rt: &R, spot: Spot) {
        self.signals[spot.channel as usize].rouse();
    }

    /// How many puts that succeeded, shuts and calls of `rouse` there were at the channels of this number. At 2^64 - 1 it stays.
    /// To wait for a message, first read the turn, then take, and where nothing waits call `wait` with
    /// the turn that was read: a put between the take and the `wait` isn't slept through.
    pub fn turn<R: Wait>(&self, _rt: &R, spot: Spot) -> u64 {
        self.signals[spot.channel as usize].turn.count()
    }

    /// Returns where the channel's turn isn't `seen`, and at once where it is 2^64 - 1. Only a put that
    /// succeeds, a shut and `rouse` end a wait: nothing else that happens to the waiter's process does.
    pub fn wait<R: Wait>(&self, rt: &R, spot: Spot, seen: u64) {
        self.signals[spot.channel as usize].turn.wait(rt, seen);
    }

    /// As `wait`, and returns once the time is past, or where the clock can't be read.
    pub fn wait_until<R: Wait + Clock>(&self, rt: &R, spot: Spot, seen: u64, deadline: Instant) {
        let signal = &self.signals[spot.channel as usize];
        signal.turn.wait_until(rt, seen, deadline);
    }

    /// From now on all that raises the turn of the spot's channel rings this place's bell as well, until
    /// another place listens at the spot, or the channel's number comes back.
    pub fn listen<R: Wait>(&self, _rt: &R, spot: Spot, place: u8)
        requires { place < PLACES }
    {
        self.signals[spot.channel as usize].listen(spot.side, place);
    }

    /// The next take of what the spot's end put rings this place's bell once, as does the next shut of either end, or `rouse`, where that comes
    /// first; unless another place waits for room at the spot by then. To wait for room, read the bell, call this, then put,
    /// and where that is Full call `wait_at` with the bell that was read: a take after the put isn't slept through.
    pub fn await_room<R: Wait>(&self, _rt: &R, spot: Spot, place: u8)
        requires { place < PLACES }
    {
        self.signals[spot.channel as usize].await_room(spot.side, place);
    }

    /// The place's bell rings, and all that wait at it look again.
    pub fn ring<R: Wait>(&self, _rt: &R, place: u8)
        requires { place < PLACES }
    {
        self.bells.of(place).raise();
    }

    /// How often the place's bell rang. At 2^64 - 1 it stays. To wait for a message at any of several spots,
    /// first listen at each, then read the bell, then take at each, and where nothing waits at any call
    /// `wait_at` with the bell that was read: a put after its take isn't slept through.
    pub fn bell<R: Wait>(&self, _rt: &R, place: u8) -> u64
        requires { place < PLACES }
    {
        self.bells.of(place).count()
    }

    /// Returns where the place's bell isn't `seen`, and at once where it is 2^64 - 1.
    pub fn wait_at<R: Wait>(&self, rt: &R, place: u8, seen: u64)
        requires { place < PLACES }
    {
        self.bells.of(place).wait(rt, seen);
    }

    /// As `wait_at`, and returns once the time is past, or where the clock can't be read.
    pub fn wait_at_until<R: Wait + Clock>(&self, rt: &R, place: u8, seen: u64, deadline: Instant)
        requires { place < PLACES }
    {
        self.bells.of(place).wait_until(rt, seen, deadline);
    }
}
