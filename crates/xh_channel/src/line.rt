//! The line of a channel with a contract, as it lies under the channel's lock.
ghost use Rattle.std.specs.Prelude.{◌≡◌, ◌-◌, ◌<◌, ◌≤◌, length, IfOk, OnErr};
ghost use Rattle.xh_model.specs.Rows.{IsValid};
ghost use Rattle.xh_model.specs.declared.limits.TheConstants.{MAX_DEPTH, MAX_MESSAGES};
ghost use Rattle.xh_channel.specs.Lines.{EndsAreInStep, Follows, IsNewLine, IsLineOrderly, LinePuts, LineShuts, LineTakes, PutsBetween, TakesBetween, waiting};

use crate::line_end::LineEnd;
use crate::message::Message;
use crate::refused::Refused;
use crate::unsent::Unsent;
use arrayvec::ArrayVec;
use std::marker::Model;
use xh_core::Contract;
use xh_model::limits::{MAX_BLOCKS, MAX_MESSAGES};

/// Both directions of a channel, its contract, and both ends' states and counts: side 0 is the left
/// end, side 1 the right one.
#[derive(Drop)]
pub struct Line {
    contract: Contract,
    depth: usize,
    left: LineEnd,
    right: LineEnd,
}

impl Model for Line {
    ghost use Rattle.xh_channel.specs.Lines.{Lined, IsLine};

    ghost Value = { Lined };

    ghost view = { λ l. record { rows = l.contract; depth = l.depth; left = l.left; right = l.right } };

    ghost invariant = { λ l. IsLine l.contract l.depth l.left l.right };
}

fn put_between(
    contract: &Contract,
    depth: usize,
    side: u8,
    own: &mut LineEnd,
    peer: &mut LineEnd,
    tag: u16,
    blocks: ArrayVec<u16, MAX_BLOCKS>,
) -> Result<u64, Unsent>
    requires depth { (depth ≤ MAX_DEPTH) × (length (waiting peer.old) ≤ depth) }
    requires order { Follows own.old peer.old × (own.old.counts.put ≤ MAX_MESSAGES) }
    requires valid { IsValid contract.now }
    requires step { EndsAreInStep contract.now side own.old peer.old }
    ensures put { PutsBetween contract.now depth side own.old own.new peer.old peer.new tag blocks result }
    ensures order { Follows own.new peer.new × (own.new.counts.put ≤ MAX_MESSAGES) }
    ensures step { EndsAreInStep contract.now side own.new peer.new }
    ensures depth { length (waiting peer.new) ≤ depth }
    ensures rest { (waiting own.new ≡ waiting own.old) × (peer.new.counts ≡ peer.old.counts) × (peer.new.state ≡ peer.old.state) }
    ensures refused { OnErr result ((peer.new ≡ peer.old) × (own.new ≡ own.old)) }
{
    let Some(next) = contract.allows(own.state, tag, side) else {
        return Err(Unsent::Protocol);
    };
    if peer.counts.shut {
        return Err(Unsent::PeerClosed);
    }
    if peer.waiting.len() == depth || own.counts.put == MAX_MESSAGES {
        return Err(Unsent::Full);
    }
    let no = own.counts.put + 1;
    peer.waiting.push(Message { no, tag, blocks });
    own.counts.put = no;
    own.state = next;
    Ok(no)
}

fn take_between(
    contract: &Contract,
    side: u8,
    own: &mut LineEnd,
    peer: &LineEnd,
) -> Result<Message, Refused>
    requires side { side < 2 }
    requires order { Follows peer.now own.old }
    requires step { EndsAreInStep contract.now side own.old peer.now }
    ensures taken { TakesBetween contract.now side own.old own.new peer.now result }
    ensures order { Follows peer.now own.new }
    ensures step { EndsAreInStep contract.now side own.new peer.now }
    ensures depth { length (waiting own.new) ≤ length (waiting own.old) }
    ensures refused { OnErr result (own.new ≡ own.old) }
{
    if own.waiting.is_empty() {
        if peer.counts.shut {
            let back = ArrayVec::new();
            return Err(Refused::PeerClosed { back });
        }
        return Err(Refused::Empty);
    }
    let message = own.waiting.remove(0);
    let Some(next) = contract.allows(own.state, message.tag, 1 - side) else {
        unreachable!()
    };
    own.counts.taken += 1;
    own.state = next;
    Ok(message)
}

impl Line {
    /// Nothing waits, neither side is shut, and both ends are in the first state. The depth is how
    /// many messages may wait in a direction.
    pub fn new(contract: Contract, depth: u8) -> Line
        requires { (1 ≤ depth) × (depth ≤ MAX_DEPTH) }
        ensures { IsNewLine contract depth result }
    {
        let state = contract.first();
        Line {
            contract,
            depth: usize::from(depth),
            left: LineEnd::new(state),
            right: LineEnd::new(state),
        }
    }

    /// The number of the message, from 1, which went to the back. Protocol where the state of this
    /// end does not allow it, then PeerClosed where the peer is shut, then Full where as many wait
    /// as the depth or the direction has carried its last message. Each changes nothing.
    pub fn put(
        &mut self,
        side: u8,
        tag: u16,
        blocks: ArrayVec<u16, MAX_BLOCKS>,
    ) -> Result<u64, Unsent>
        requires { side < 2 }
        ensures put { LinePuts self.old self.new side tag blocks result }
        ensures last { IfOk result (λ no. no ≤ MAX_MESSAGES) }
        ensures refused { OnErr result (self.new ≡ self.old) }
        ensures orderly { IsLineOrderly self.new }
    {
        let (contract, depth) = (&self.contract, self.depth);
        if side == 0 {
            put_between(
                contract,
                depth,
                0,
                &mut self.left,
                &mut self.right,
                tag,
                blocks,
            )
        } else {
            put_between(
                contract,
                depth,
                1,
                &mut self.right,
                &mut self.left,
                tag,
                blocks,
            )
        }
    }

    /// The message at the front toward this side, also after its shut. Where none waits, PeerClosed
    /// if the peer is shut, else Empty; both change nothing.
    pub fn take(&mut self, side: u8) -> Result<Message, Refused>
        requires { side < 2 }
        ensures taken { LineTakes self.old self.new side result }
        ensures last { IfOk result (λ m. m.no ≤ MAX_MESSAGES) }
        ensures refused { OnErr result (self.new ≡ self.old) }
        ensures orderly { IsLineOrderly self.new }
    {
        if side == 0 {
            take_between(&self.contract, 0, &mut self.left, &self.right)
        } else {
            take_between(&self.contract, 1, &mut self.right, &self.left)
        }
    }

    /// No later put toward this side succeeds.
    pub fn shut(&mut self, side: u8)
        requires { side < 2 }
        ensures shut { LineShuts self.old self.new side }
        ensures orderly { IsLineOrderly self.new }
    {
        if side == 0 {
            self.left.counts.shut = true;
        } else {
            self.right.counts.shut = true;
        }
    }
}
