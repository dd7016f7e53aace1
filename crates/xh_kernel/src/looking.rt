//! Looks for a message and for room, and where a process waits.
ghost use Rattle.std.specs.Prelude.{◌≡◌, ◌≢◌, ◌<◌, [], Err, IfErr, IfNone, MatchBool, MatchOption, None, true};
ghost use Rattle.xh_calls.specs.Places.{status_at};
ghost use Rattle.xh_core.specs.Calls.{start};
ghost use Rattle.xh_core.specs.Refusing.{first_refusal};
ghost use Rattle.xh_kernel.specs.Did.{DidGive, DidTake, DidTakeAny};
ghost use Rattle.xh_kernel.specs.Waits.{no_room};
ghost use Rattle.xh_model.specs.Words.{place_of};
ghost use Rattle.xh_model.specs.declared.limits.TheConstants.{PLACES};
ghost use Rattle.xh_place.specs.Seen.{Stays};

use crate::account::Account;
use crate::locked_place::LockedPlace;
use crate::shared::Shared;
use std::sync::Wait;
use xh_calls::{AnsweredAt, Names, check_start};
use xh_channel::Spot;
use xh_core::Refused;
use xh_model::limits::PLACES;
use xh_place::{Gate, Taken};

/// Where the process of a place waits for a message, by the latest of its threads that waits so at one endpoint; and whether one
/// waits at the bell of the place: for a message at several endpoints, or for room.
#[derive(Drop, Default)]
pub(crate) struct Waits {
    pub(crate) at: Option<Spot>,
    pub(crate) bell: bool,
}

// The number of the bell that a process waits at: its place's.
pub(crate) fn bell_of(p: u16) -> u8
    ensures { result < PLACES }
{
    (p % u16::from(PLACES)) as u8
}

// Whether no message waits.
pub(crate) fn is_empty<A>(answer: &Result<A, Refused>) -> bool
    ensures { MatchBool result (answer.now ≡ Err Refused.Empty) (IfErr answer.now (λ why. why ≢ Refused.Empty)) }
{
    matches!(answer, Err(Refused::Empty))
}

// Whether there was no room and all blocks came back.
fn is_in_vain(answer: &Result<u64, Refused>, given: &[u16]) -> bool
    ensures { MatchBool result (answer.now ≡ no_room given.now) (answer.now ≢ no_room given.now) }
{
    match answer {
        Err(Refused::Full { back }) => back.as_slice() == given,
        _ => false,
    }
}

impl<N: Names> LockedPlace<N> {
    // Who waits here looks again: its process ended, or an endpoint may have left it.
    pub(crate) fn wake<R: Wait>(&mut self, rt: &R, shared: &Shared<N>)
        ensures { (self.new.place ≡ self.old.place) × (self.new.scribe ≡ self.old.scribe) }
    {
        if let Some(spot) = self.waits.at {
            shared.heap.channels.rouse(rt, spot);
        }
        if self.waits.bell {
            shared.heap.channels.ring(rt, bell_of(self.place.process()));
        }
        self.waits = Waits::default();
    }

    // The spot of the endpoint, if the process has it.
    pub(crate) fn spot(&mut self, shared: &Shared<N>, e: u16) -> Option<Spot>
        ensures { Stays self.old.place self.new.place × (self.new.scribe ≡ self.old.scribe) }
    {
        self.place.spot(&shared.heap.records, e)
    }

    // A message of the endpoint. The answer has 160 bytes, and is written where its caller keeps it.
    #[inline(always)]
    pub(crate) fn take<R: Wait, G: Gate>(
        &mut self,
        rt: &R,
        shared: &Shared<N>,
        p: u16,
        e: u16,
        answer: &mut Result<Taken, Refused>,
        account: &mut Account<N>,
        gate: &G,
    )
        requires { self.old.scribe.pen.number ≡ place_of p }
        ensures { DidTake N.leads p e answer.new account.old account.new }
    {
        let heap = &shared.heap;
        heap.take(rt, &mut self.place, p, e, answer, gate);
        let about = (p, e, &*answer);
        self.scribe
            .note(shared, &self.place, &mut account.front, &about, false);
    }

    // Where the process waits at the endpoint, if it runs and has it, and the turn there. A process that has ended leaves what
    // the place's next one wrote.
    fn turn_at<R: Wait>(
        &mut self,
        rt: &R,
        shared: &Shared<N>,
        p: u16,
        e: u16,
    ) -> Option<(Spot, u64)>
        ensures { Stays self.old.place self.new.place × (self.new.scribe ≡ self.old.scribe) }
    {
        check_start(&self.place, p).ok()?;
        self.waits.at = None;
        let spot = self.spot(shared, e)?;
        Some((spot, shared.heap.channels.turn(rt, spot)))
    }

    // One look for a message. Where it is to be waited for the turn at the endpoint is read first; with a look in vain go where to
    // wait and that turn, so that a put, a shut and an end of the process that come after it raise the turn past what was read.
    // Where the process waits then is written down, so that its end finds it.
    pub(crate) fn look_for<R: Wait, G: Gate>(
        &mut self,
        rt: &R,
        shared: &Shared<N>,
        p: u16,
        e: u16,
        waits: bool,
        answer: &mut Result<Taken, Refused>,
        account: &mut Account<N>,
        gate: &G,
    ) -> Option<(Spot, u64)>
        requires { self.old.scribe.pen.number ≡ place_of p }
        ensures { DidTake N.leads p e answer.new account.old account.new }
    {
        let turn = if waits {
            self.turn_at(rt, shared, p, e)
        } else {
            None
        };
        self.take(rt, shared, p, e, answer, account, gate);
        let (spot, seen) = turn?;
        if !is_empty(answer) {
            return None;
        }
        self.waits.at = Some(spot);
        Some((spot, seen))
    }

    // A message of the first of the endpoints that has one.
    pub(crate) fn take_any<R: Wait, G: Gate>(
        &mut self,
        rt: &R,
        shared: &Shared<N>,
        p: u16,
        ends: &[u16],
        account: &mut Account<N>,
        gate: &G,
    ) -> Result<AnsweredAt, Refused>
        requires { self.old.scribe.pen.number ≡ place_of p }
        ensures call { DidTakeAny N.leads p ends.now result account.old account.new }
        ensures empty { IfErr result (λ why. why ≡ Refused.Empty → first_refusal (start (status_at p self.old.place)) ≡ None) }
    {
        let answer = shared.heap.take_any(rt, &mut self.place, p, ends, gate);
        let about = (p, ends, &answer);
        self.scribe
            .note(shared, &self.place, &mut account.front, &about, false);
        answer
    }

    // The place listens at each of the endpoints; then the bell is read. Of no endpoints none is waited for, nor by a process
    // that doesn't run.
    fn listen<R: Wait>(&mut self, rt: &R, shared: &Shared<N>, p: u16, ends: &[u16]) -> Option<u64>
        ensures same { Stays self.old.place self.new.place × (self.new.scribe ≡ self.old.scribe) }
        ensures none { IfNone result (first_refusal (start (status_at p self.old.place)) ≡ None → ends.now ≡ []) }
    {
        if ends.is_empty() {
            return None;
        }
        check_start(&self.place, p).ok()?;
        let bell = bell_of(p);
        for e in ends {
            if let Some(spot) = self.spot(shared, *e) {
                shared.heap.channels.listen(rt, spot, bell);
            }
        }
        Some(shared.heap.channels.bell(rt, bell))
    }

    // One look at several endpoints. With one in vain goes what the bell was before it, so that a put, a shut and an end of the
    // process that come after it ring the bell past what was read.
    pub(crate) fn search<R: Wait, G: Gate>(
        &mut self,
        rt: &R,
        shared: &Shared<N>,
        p: u16,
        ends: &[u16],
        account: &mut Account<N>,
        gate: &G,
    ) -> (Result<AnsweredAt, Refused>, Option<u64>)
        requires { self.old.scribe.pen.number ≡ place_of p }
        ensures call { DidTakeAny N.leads p ends.now result.0 account.old account.new }
        ensures vain { MatchOption result.1 (IfErr result.0 (λ why. why ≡ Refused.Empty → ends.now ≡ [])) (λ _. result.0 ≡ Err Refused.Empty) }
    {
        let bell = self.listen(rt, shared, p, ends);
        let answer = self.take_any(rt, shared, p, ends, account, gate);
        let Some(seen) = bell else {
            return (answer, None);
        };
        if !is_empty(&answer) {
            return (answer, None);
        }
        self.waits.bell = true;
        (answer, Some(seen))
    }

    // Blocks of the process, by the endpoint.
    pub(crate) fn give<R: Wait, G: Gate>(
        &mut self,
        rt: &R,
        shared: &Shared<N>,
        p: u16,
        e: u16,
        tag: u16,
        blocks: &[u16],
        account: &mut Account<N>,
        gate: &G,
    ) -> Result<u64, Refused>
        requires { self.old.scribe.pen.number ≡ place_of p }
        ensures { DidGive N.leads p e tag blocks.now result account.old account.new }
    {
        let heap = &shared.heap;
        let answer = heap.give(rt, &mut self.place, p, e, tag, blocks, gate);
        let about = (p, e, tag, blocks, &answer);
        self.scribe
            .note(shared, &self.place, &mut account.front, &about, false);
        answer
    }

    // Asks that the next take of what the endpoint put rings the place's bell: the endpoint's spot, if the process has it.
    fn ask<R: Wait>(&mut self, rt: &R, shared: &Shared<N>, p: u16, e: u16) -> Option<Spot>
        ensures { Stays self.old.place self.new.place × (self.new.scribe ≡ self.old.scribe) }
    {
        let spot = self.spot(shared, e)?;
        shared.heap.channels.await_room(rt, spot, bell_of(p));
        Some(spot)
    }

    // One look for room. Of a look in vain is told what the bell was; where it asks a take, a shut and an end of the process
    // that come after the look ring it past that, and the endpoint's spot is told too. Who waits here looks again after any other, as after `Kernel::give`.
    pub(crate) fn send<R: Wait, G: Gate>(
        &mut self,
        rt: &R,
        shared: &Shared<N>,
        p: u16,
        e: u16,
        tag: u16,
        blocks: &[u16],
        asks: bool,
        account: &mut Account<N>,
        gate: &G,
    ) -> (Result<u64, Refused>, Option<(u64, Option<Spot>)>)
        requires { self.old.scribe.pen.number ≡ place_of p }
        ensures call { DidGive N.leads p e tag blocks.now result.0 account.old account.new }
        ensures vain { MatchOption result.1 (result.0 ≢ no_room blocks.now) (λ _. result.0 ≡ no_room blocks.now) }
    {
        let seen = shared.heap.channels.bell(rt, bell_of(p));
        let spot = if asks {
            self.ask(rt, shared, p, e)
        } else {
            None
        };
        let answer = self.give(rt, shared, p, e, tag, blocks, account, gate);
        if !is_in_vain(&answer, blocks) {
            self.wake(rt, shared);
            return (answer, None);
        }
        self.waits.bell = true;
        (answer, Some((seen, spot)))
    }
}
