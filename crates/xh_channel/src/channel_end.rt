//! One end of a channel, apart from where its number is free again.
ghost use Rattle.std.specs.Prelude.{◌≡◌, ◌+◌, ◌*◌, ◌<◌, ◌≤◌, true, false, is_some, length, OnErr, IfOk, MatchBool};
ghost use Rattle.xh_model.specs.declared.limits.TheConstants.{MAX_DEPTH, MAX_MESSAGES};
ghost use Rattle.xh_channel.specs.Agreement.{AgreesWith, ArePeers, told_all};
ghost use Rattle.xh_channel.specs.Calls.{EndpointPuts, EndpointShuts, EndpointTakes};
ghost use Rattle.xh_channel.specs.LineSeats.{IsBlank};
ghost use Rattle.xh_channel.specs.Pairs.{IsPair, IsUnused, ruled_by, unruled};
ghost use Rattle.xh_channel.specs.inner.Ends.{AreIdle, IsUnsent};

use crate::closed_word::ClosedWord;
use crate::line_seat::{self, LineSeat};
use crate::message::Message;
use crate::queue_end::{self, QueueEnd};
use crate::refused::Refused;
use crate::spot::Spot;
use crate::unsent::Unsent;
use crate::waiting::OwnSignal;
use arrayvec::ArrayVec;
use std::marker::Model;
use std::sync::Wait;
use xh_core::Contract;
use xh_model::limits::{MAX_BLOCKS, MAX_MESSAGES};

/// One end of a channel.
#[derive(Drop)]
pub struct ChannelEnd {
    pub(crate) spot: Spot,
    // with a contract the line carries the messages, and the queues nothing
    pub(crate) has_contract: bool,
    pub(crate) sender: QueueEnd,
    receiver: QueueEnd,
    pub(crate) word: ClosedWord,
    // how many messages it sent
    pub(crate) put: u64,
    line: LineSeat,
    // its channel's, also where it is used on other channels
    pub(crate) signal: OwnSignal,
}

impl Model for ChannelEnd {
    ghost use Rattle.xh_channel.specs.Endpoint.{EndpointOf};
    ghost use Rattle.xh_channel.specs.inner.Ends.{IsEnd, endpoint_of};

    ghost Value = { EndpointOf };

    ghost view = { λ e. endpoint_of e.spot e.has_contract e.sender e.receiver e.word e.put e.line };

    ghost invariant = { λ e. IsEnd e.spot e.has_contract e.sender e.receiver e.word e.put e.line };
}

/// Both ends of a channel without a contract go by the contract from now on, from its first state.
pub fn begin<R: Wait>(
    rt: &R,
    low: ChannelEnd,
    high: ChannelEnd,
    contract: Contract,
    depth: u8,
) -> (ChannelEnd, ChannelEnd)
    requires pair { IsPair low high × (is_some low.contract ≡ false) }
    requires depth { (low.depth ≡ depth) × (1 ≤ depth) × (depth ≤ MAX_DEPTH) }
    ensures { (result.0 ≡ ruled_by contract low) × (result.1 ≡ ruled_by contract high) }
{
    let (line, peers) = LineSeat::begin(rt, low.line, high.line, contract, depth);
    let low = ChannelEnd {
        has_contract: true,
        line,
        ..low
    };
    let high = ChannelEnd {
        has_contract: true,
        line: peers,
        ..high
    };
    (low, high)
}

// As `compare`, by both queues and the closed words.
fn compare_queues(one: ChannelEnd, other: ChannelEnd) -> (ChannelEnd, ChannelEnd)
    requires { ArePeers one other × (is_some one.contract ≡ false) }
    ensures told { (result.0 ≡ told_all one other) × (result.1 ≡ told_all other one) }
    ensures agree { AgreesWith one other × AgreesWith other one }
{
    let (sender, receiver) = queue_end::compare(one.sender, other.receiver);
    let (peers, theirs) = queue_end::compare(other.sender, one.receiver);
    let mut one = ChannelEnd {
        sender,
        receiver: theirs,
        ..one
    };
    let mut other = ChannelEnd {
        sender: peers,
        receiver,
        ..other
    };
    let note = one.word.note();
    one.word.hear(other.word.note());
    other.word.hear(note);
    (one, other)
}

// As `compare`, by the line, side 0 first.
fn compare_lines(low: ChannelEnd, high: ChannelEnd) -> (ChannelEnd, ChannelEnd)
    requires { ArePeers low high × (is_some low.contract ≡ true) × (low.spot.side ≡ 0) }
    ensures told { (result.0 ≡ told_all low high) × (result.1 ≡ told_all high low) }
    ensures agree { AgreesWith low high × AgreesWith high low }
{
    let (line, peers) = line_seat::compare(low.line, high.line);
    let low = ChannelEnd { line, ..low };
    let high = ChannelEnd {
        line: peers,
        ..high
    };
    (low, high)
}

/// Shows, of both ends of a channel, that what each took is a prefix of what the other pushed, and tells each what the other did.
pub fn compare(one: ChannelEnd, other: ChannelEnd) -> (ChannelEnd, ChannelEnd)
    requires { ArePeers one other }
    ensures told { (result.0 ≡ told_all one other) × (result.1 ≡ told_all other one) }
    ensures agree { AgreesWith one other × AgreesWith other one }
{
    if !one.has_contract {
        return compare_queues(one, other);
    }
    if one.spot.side == 0 {
        return compare_lines(one, other);
    }
    let (other, one) = compare_lines(other, one);
    (one, other)
}

impl ChannelEnd {
    /// An end with nothing put and nothing taken, of a channel without a contract.
    pub fn new(
        spot: Spot,
        queues: (QueueEnd, QueueEnd),
        word: ClosedWord,
        line: LineSeat,
        signal: OwnSignal,
    ) -> ChannelEnd
        requires own { (word.channel ≡ spot.channel) × (word.side ≡ spot.side) × (line.side ≡ spot.side) }
        requires roles { (queues.0.role.pushes ≡ true) × (queues.1.role.pops ≡ true) }
        requires new { AreIdle queues.0 queues.1 word × IsBlank line }
        ensures spot { (result.spot ≡ spot) × (result.depth ≡ queues.0.depth) }
        ensures tables { (result.out ≡ queues.0.queue) × (result.into ≡ queues.1.queue) × (result.closed ≡ word.table) × (result.line ≡ line.table) }
        ensures unused { IsUnused result × (result ≡ unruled result) }
    {
        let (sender, receiver) = queues;
        ChannelEnd {
            spot,
            has_contract: false,
            sender,
            receiver,
            word,
            put: 0,
            line,
            signal,
        }
    }

    /// The channel has no contract any more.
    pub fn without_contract(self) -> ChannelEnd
        requires { IsUnused self }
        ensures { result ≡ unruled self }
    {
        ChannelEnd {
            has_contract: false,
            ..self
        }
    }

    /// Looks again, after a push: where the peer is shut by now, the message doesn't count as sent.
    pub fn stays_sent(&mut self) -> bool
        requires { (is_some self.old.contract ≡ false) × (0 < length self.old.sent) × (self.old.peer_shut ≡ false) }
        ensures { MatchBool result (self.new ≡ self.old) (IsUnsent self.old self.new) }
    {
        let stays = !self.word.peer_is_shut();
        if !stays {
            self.put -= 1;
        }
        stays
    }

    /// Looks at the peer's word, pushes, and looks again.
    pub fn put_on_queue<R: Wait>(
        &mut self,
        rt: &R,
        tag: u16,
        blocks: ArrayVec<u16, MAX_BLOCKS>,
    ) -> Result<u64, Unsent>
        requires { is_some self.old.contract ≡ false }
        ensures put { EndpointPuts tag blocks result self.old self.new }
        ensures last { IfOk result (λ no. no ≤ MAX_MESSAGES) }
    {
        if self.word.peer_is_shut() {
            return Err(Unsent::PeerClosed);
        }
        if self.put == MAX_MESSAGES {
            return Err(Unsent::Full);
        }
        let no = self.put + 1;
        let pushed = self.sender.push(rt, Message { no, tag, blocks });
        if pushed.is_err() {
            return Err(Unsent::Full);
        }
        self.put = no;
        if !self.stays_sent() {
            return Err(Unsent::PeerClosed);
        }
        Ok(no)
    }

    // Pops. Where nothing comes it answers by what a look before the pop saw of the peer, and looks no more.
    fn pop_after_look<R: Wait>(&mut self, rt: &R, closed: bool) -> Result<Message, Refused>
        requires { (is_some self.old.contract ≡ false) × (closed ≡ self.old.peer_shut) }
        ensures taken { EndpointTakes result self.old self.new }
        ensures seen { (self.new.peer_shut ≡ self.old.peer_shut) × OnErr result (self.new ≡ self.old) }
    {
        match self.receiver.pop(rt) {
            Some(message) => Ok(message),
            None if closed => Err(Refused::PeerClosed {
                back: ArrayVec::new(),
            }),
            None => Err(Refused::Empty),
        }
    }

    /// Looks at the peer's word, and then pops.
    pub fn take_from_queue<R: Wait>(&mut self, rt: &R) -> Result<Message, Refused>
        requires { is_some self.old.contract ≡ false }
        ensures taken { EndpointTakes result self.old self.new }
    {
        let closed = self.word.peer_is_shut();
        self.pop_after_look(rt, closed)
    }

    // A put on the line.
    fn put_on_line<R: Wait>(
        &mut self,
        rt: &R,
        tag: u16,
        blocks: ArrayVec<u16, MAX_BLOCKS>,
    ) -> Result<u64, Unsent>
        requires { is_some self.old.contract ≡ true }
        ensures put { EndpointPuts tag blocks result self.old self.new }
        ensures last { IfOk result (λ no. no ≤ MAX_MESSAGES) }
    {
        match self.line.put(rt, tag, blocks) {
            Ok(no) => {
                self.put = no;
                Ok(no)
            }
            Err(unsent) => Err(unsent),
        }
    }

    /// A put on the queue, or on the line where the channel has a contract.
    pub fn put<R: Wait>(
        &mut self,
        rt: &R,
        tag: u16,
        blocks: ArrayVec<u16, MAX_BLOCKS>,
    ) -> Result<u64, Unsent>
        ensures put { EndpointPuts tag blocks result self.old self.new }
        ensures last { IfOk result (λ no. no ≤ MAX_MESSAGES) }
    {
        if self.has_contract {
            self.put_on_line(rt, tag, blocks)
        } else {
            self.put_on_queue(rt, tag, blocks)
        }
    }

    /// Takes from the queue, or from the line where the channel has a contract.
    pub fn take<R: Wait>(&mut self, rt: &R) -> Result<Message, Refused>
        ensures taken { EndpointTakes result self.old self.new }
    {
        if self.has_contract {
            self.line.take(rt)
        } else {
            self.take_from_queue(rt)
        }
    }

    /// The shut of its word, or of its side of the line where the channel has a contract.
    pub fn shut<R: Wait>(&mut self, rt: &R)
        ensures { EndpointShuts self.old self.new }
    {
        if self.has_contract {
            self.line.shut(rt);
        } else {
            self.word.shut();
        }
    }
}
