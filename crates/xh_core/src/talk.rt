//! Two ends that talk under a contract, without a machine round them.
ghost use Rattle.std.specs.Prelude.{◌≡◌, ◌-◌, ◌<◌, cond, IfSome, IsSome, slice_get};
ghost use Rattle.xh_model.specs.Rows.{allowed, IsValid};
ghost use Rattle.xh_core.specs.Talks.{side_of_talk, waiting, new_talk, can_put, can_take, after_put, with_tag, after_take, talk_after, turn_outcome, talk_after_all, side_of, AreSided, AreInStep, IsOrderly};

use crate::contract::Contract;
use crate::talk_end::TalkEnd;
use crate::turn::Turn;
use arrayvec::ArrayVec;
use std::marker::Model;
use xh_model::Outcome;

/// A channel's two ends under a contract, of which only tags are kept: side 0 is the left end, side
/// 1 the right one.
#[derive(Drop)]
pub struct Talk {
    contract: Contract,
    left: TalkEnd,
    right: TalkEnd,
}

impl Model for Talk {
    ghost use Rattle.xh_model.specs.Rows.{IsValid};
    ghost use Rattle.xh_core.specs.Talks.{Talked, AreInStep};

    ghost Value = { Talked };

    ghost view = { λ t. record { rows = t.contract; left = t.left; right = t.right } };

    ghost invariant = { λ t. IsValid t.contract × AreInStep t.contract 0 t.left t.right };
}

fn put_tag(
    contract: &Contract,
    side: u8,
    tag: u16,
    own: &mut TalkEnd,
    peer: &mut TalkEnd,
) -> Outcome
    requires valid { IsValid contract.now }
    requires step { AreInStep contract.now side own.old peer.old }
    ensures outcome { result ≡ cond (can_put contract.now side tag own.old peer.old) Outcome.Done Outcome.Refused }
    ensures own { own.new ≡ cond (can_put contract.now side tag own.old peer.old) (after_put contract.now side tag own.old) own.old }
    ensures peer { peer.new ≡ cond (can_put contract.now side tag own.old peer.old) (with_tag tag peer.old) peer.old }
    ensures step { AreInStep contract.now side own.new peer.new }
{
    let Some(next) = contract.allows(own.state, tag, side) else {
        return Outcome::Refused;
    };
    if peer.waiting.is_full() {
        return Outcome::Refused;
    }
    peer.waiting.push(tag);
    own.state = next;
    Outcome::Done
}

fn take_tag(contract: &Contract, side: u8, own: &mut TalkEnd, peer: &TalkEnd) -> Outcome
    requires side { side < 2 }
    requires step { AreInStep contract.now side own.old peer.now }
    ensures outcome { result ≡ cond (can_take own.old) Outcome.Done Outcome.Refused }
    ensures own { own.new ≡ cond (can_take own.old) (after_take contract.now side own.old) own.old }
    ensures step { AreInStep contract.now side own.new peer.now }
{
    if own.waiting.is_empty() {
        return Outcome::Refused;
    }
    let tag = own.waiting.remove(0);
    let Some(next) = contract.allows(own.state, tag, 1 - side) else {
        unreachable!()
    };
    own.state = next;
    Outcome::Done
}

impl Talk {
    /// Nothing waits, and both ends are in the first state.
    pub fn new(contract: Contract) -> Talk
        ensures { result ≡ new_talk contract }
    {
        let state = contract.first();
        Talk {
            contract,
            left: TalkEnd::new(state),
            right: TalkEnd::new(state),
        }
    }

    /// One turn. A put is refused where the state of its end does not allow it or 16 messages wait,
    /// a take where nothing waits. A refused turn changes nothing.
    #[tactic(auto, unfolding(crate::specs::Talks::talk_after, crate::specs::Talks::turn_outcome))]
    pub fn turn(&mut self, turn: Turn) -> Outcome
        requires { side_of turn < 2 }
        ensures outcome { result ≡ turn_outcome turn self.old }
        ensures after { self.new ≡ talk_after turn self.old }
        ensures orderly { IsOrderly self.new }
    {
        match turn {
            Turn::Put(0, tag) => put_tag(&self.contract, 0, tag, &mut self.left, &mut self.right),
            Turn::Put(_, tag) => put_tag(&self.contract, 1, tag, &mut self.right, &mut self.left),
            Turn::Take(0) => take_tag(&self.contract, 0, &mut self.left, &self.right),
            Turn::Take(_) => take_tag(&self.contract, 1, &mut self.right, &self.left),
        }
    }

    /// The turns in order. After any list of them the front message toward an end is one that its
    /// state allows, and messages wait for one end at most.
    pub fn run(&mut self, turns: &[Turn])
        requires { AreSided turns.now }
        ensures after { self.new ≡ talk_after_all turns.now self.old }
        ensures orderly { IsOrderly self.new }
    {
        for turn in turns {
            self.turn(*turn);
        }
        let _end = &self.left;
    }

    /// The state of the end of this side, 0 to 15.
    pub fn state(&self, side: u8) -> u8
        requires { side < 2 }
        ensures { result ≡ (side_of_talk self.now side).state }
    {
        if side == 0 {
            self.left.state
        } else {
            self.right.state
        }
    }

    /// The tag of the message at the front toward this side, if one waits.
    pub fn front(&self, side: u8) -> Option<u16>
        requires { side < 2 }
        ensures front { result ≡ slice_get (waiting (side_of_talk self.now side)) 0 }
        ensures allowed { IfSome result (λ tag. IsSome (allowed self.now.rows (side_of_talk self.now side).state tag (1 - side))) }
    {
        if side == 0 {
            self.left.waiting.first().copied()
        } else {
            self.right.waiting.first().copied()
        }
    }
}
