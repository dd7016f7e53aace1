//! Messages of a process: what it gives and takes, at once, once it can, or until a time.
ghost use Rattle.std.specs.Prelude.{◌≡◌, ◌≢◌, [], Err, IfErr, true};
ghost use Rattle.xh_core.specs.declared.refused.Refused.TheVariants as refused;
ghost use Rattle.xh_kernel.specs.Did.{DidGive, DidTake, DidTakeAny};
ghost use Rattle.xh_kernel.specs.Waits.{AtLast, no_room};

use crate::account::Account;
use crate::kernel::Kernel;
use crate::looking::is_empty;
use crate::overview::Awaited;
use crate::until::{Never, Until};
use std::sync::Wait;
use xh_calls::{AnsweredAt, Names};
use xh_core::Refused;
use xh_place::{Gate, Taken};

impl<N: Names> Kernel<N> {
    /// Gives blocks of the process, by its endpoint `e`, in a message with a tag. It answers the
    /// message's number.
    ///
    /// NoProcess, Ended, NotOwned and NotEndpoint of the endpoint, TooMany of more than 8 blocks, NotOwned of a
    /// block, Twice where a block stands twice or is the endpoint; Protocol where the channel's contract
    /// doesn't allow the message, PeerClosed, Full: these name the blocks that came back.
    pub fn give<R: Wait, G: Gate>(
        &self,
        rt: &R,
        p: u16,
        e: u16,
        tag: u16,
        blocks: &[u16],
        account: &mut Account<N>,
        gate: &G,
    ) -> Result<u64, Refused>
        ensures { DidGive N.leads p e tag blocks.now result account.old account.new }
    {
        let mut held = self.held(rt, p);
        let answer = held.give(rt, &self.shared, p, e, tag, blocks, account, gate);
        held.wake(rt, &self.shared);
        answer
    }

    /// Takes the first message of the direction toward the endpoint `e`. Its blocks are the
    /// process's.
    ///
    /// NoProcess, Ended, NotOwned, NotEndpoint; then, where no message waits, PeerClosed or Empty.
    // (not inlined: it is optimized by itself then, and a take takes less time)
    #[inline(never)]
    pub fn take<R: Wait, G: Gate>(
        &self,
        rt: &R,
        p: u16,
        e: u16,
        account: &mut Account<N>,
        gate: &G,
    ) -> Result<Taken, Refused>
        ensures { DidTake N.leads p e result account.old account.new }
    {
        let mut held = self.held(rt, p);
        let mut answer = Err(Refused::Empty);
        held.take(rt, &self.shared, p, e, &mut answer, account, gate);
        answer
    }

    /// As `take`; where no message waits and the peer is not closed, it waits for one, without a lock, and
    /// looks again once it is woken. A process that ends meanwhile is answered Ended.
    ///
    /// NoProcess, Ended, NotOwned, NotEndpoint, PeerClosed.
    pub fn take_wait<R: Wait, G: Gate>(
        &self,
        rt: &R,
        p: u16,
        e: u16,
        account: &mut Account<N>,
        gate: &G,
    ) -> Result<Taken, Refused>
        ensures calls { AtLast (DidTake N.leads p e) (Err refused.Empty) result account.old account.new }
        ensures waits { IfErr result (λ why. why ≢ refused.Empty) }
    {
        self.take_until(rt, p, e, &Never, account, gate)
    }

    /// Looks at the endpoints in the order given, takes at the first that has a message, and answers its
    /// index and what `take` answers of it. Where none has one, PeerClosed with the index of the first whose
    /// peer is closed, if there is any, and else Empty.
    ///
    /// NoProcess, Ended, TooMany of more than 64 endpoints, NotOwned and NotEndpoint of the first that is,
    /// Twice, Empty.
    pub fn take_any<R: Wait, G: Gate>(
        &self,
        rt: &R,
        p: u16,
        ends: &[u16],
        account: &mut Account<N>,
        gate: &G,
    ) -> Result<AnsweredAt, Refused>
        ensures { DidTakeAny N.leads p ends.now result account.old account.new }
    {
        let mut held = self.held(rt, p);
        held.take_any(rt, &self.shared, p, ends, account, gate)
    }

    /// As `take_wait`, until a time: where no message waits once it is past, it answers Empty. A clock that can't be read ends
    /// the wait too.
    ///
    /// NoProcess, Ended, NotOwned, NotEndpoint, PeerClosed, Empty.
    pub fn take_until<R: Wait, G: Gate, U: Until<R>>(
        &self,
        rt: &R,
        p: u16,
        e: u16,
        until: &U,
        account: &mut Account<N>,
        gate: &G,
    ) -> Result<Taken, Refused>
        ensures calls { AtLast (DidTake N.leads p e) (Err refused.Empty) result account.old account.new }
        ensures waits { U.never ≡ true → IfErr result (λ why. why ≢ refused.Empty) }
    {
        let shared = &self.shared;
        let mut answer = Err(Refused::Empty);
        // whether a wait follows a look in vain: the first look finds a message, mostly
        let mut waits = false;
        for _ in rt.forever() {
            let past = until.is_past(rt);
            let mut held = self.held(rt, p);
            let turn = held.look_for(rt, shared, p, e, waits, &mut answer, account, gate);
            drop(held);
            if past || !is_empty(&answer) {
                return answer;
            }
            if let Some((spot, seen)) = turn {
                self.sleep(rt, until, p, Awaited::Message(spot), seen);
            }
            waits = true;
        }
        unreachable!()
    }

    /// As `take_any`; where no message waits and no peer is closed, it waits for one until a time, without a lock, and looks again
    /// once it is woken. A process that ends meanwhile is answered Ended. Empty is answered at once of no endpoints, and of others
    /// once the time is past; a clock that can't be read ends the wait too.
    ///
    /// NoProcess, Ended, TooMany, NotOwned, NotEndpoint, Twice, Empty.
    pub fn take_any_until<R: Wait, G: Gate, U: Until<R>>(
        &self,
        rt: &R,
        p: u16,
        ends: &[u16],
        until: &U,
        account: &mut Account<N>,
        gate: &G,
    ) -> Result<AnsweredAt, Refused>
        ensures calls { AtLast (DidTakeAny N.leads p ends.now) (Err refused.Empty) result account.old account.new }
        ensures waits { U.never ≡ true → IfErr result (λ why. why ≡ refused.Empty → ends.now ≡ []) }
    {
        for _ in rt.forever() {
            let past = until.is_past(rt);
            let mut held = self.held(rt, p);
            let (answer, bell) = held.search(rt, &self.shared, p, ends, account, gate);
            drop(held);
            let Some(seen) = bell else {
                return answer;
            };
            if past {
                return answer;
            }
            self.sleep(rt, until, p, Awaited::AnyMessage, seen);
        }
        unreachable!()
    }

    /// As `give`; where the direction is full and all blocks came back, it waits until the receiver takes, or until a time, without
    /// a lock, and gives again. Each give in vain stands in the place's history. A process that ends meanwhile is answered Ended,
    /// and PeerClosed comes once the peer is closed. A clock that can't be read ends the wait too.
    ///
    /// NoProcess, Ended, NotOwned, NotEndpoint, TooMany, NotOwned, Twice, Protocol, PeerClosed; Full with all blocks once the time is
    /// past, and where a block didn't come back, with those that did. In a direction that has carried its last message, 2^62 - 1, it
    /// waits on.
    pub fn give_until<R: Wait, G: Gate, U: Until<R>>(
        &self,
        rt: &R,
        p: u16,
        e: u16,
        tag: u16,
        blocks: &[u16],
        until: &U,
        account: &mut Account<N>,
        gate: &G,
    ) -> Result<u64, Refused>
        ensures calls { AtLast (DidGive N.leads p e tag blocks.now) (no_room blocks.now) result account.old account.new }
        ensures waits { U.never ≡ true → result ≢ no_room blocks.now }
    {
        let shared = &self.shared;
        // whether the take that makes room is to ring: a give that finds room at once asks for nothing
        let mut asks = false;
        for _ in rt.forever() {
            let past = until.is_past(rt);
            let mut held = self.held(rt, p);
            let (answer, bell) = held.send(rt, shared, p, e, tag, blocks, asks, account, gate);
            drop(held);
            let Some((seen, spot)) = bell else {
                return answer;
            };
            if past {
                return answer;
            }
            if let Some(spot) = spot {
                self.sleep(rt, until, p, Awaited::Room(spot), seen);
            }
            asks = !asks;
        }
        unreachable!()
    }
}
