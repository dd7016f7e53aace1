//! A take at any of several endpoints of a process.
ghost use Rattle.xh_core.specs.declared.refused.Refused.TheVariants as refused;
ghost use Rattle.xh_core.specs.Refusing.{Tested};
ghost use Rattle.xh_records.specs.Seats.{IsSeatOf};
ghost use Rattle.xh_place.specs.Seen.{IsSamePlace, Stays};
ghost use Rattle.xh_calls.specs.Places.{AfterLooks};
ghost use Rattle.xh_calls.specs.inner.Looking.{AreEnds, AreReady};
ghost use Rattle.xh_place.specs.Places.{found};
ghost use Rattle.xh_calls.specs.Several.{TakesAny, TakesFirst, each_end, several_tests};

use crate::heap::Heap;
use crate::names::Names;
use crate::starting::check_start;
use std::sync::Wait;
use xh_core::{Kind, Refused, is_twice};
use xh_place::{Body, Gate, Place, Taken};
use xh_records::Records;

/// A process takes at so many endpoints at once, at most.
pub const MAX_ENDS: usize = 64;

/// What the take of one of several endpoints answered, and the endpoint's index: a message, or that its peer is closed.
#[derive(Drop, Debug)]
pub struct AnsweredAt {
    pub at: usize,
    pub answer: Result<Taken, Refused>,
}

// Each is an endpoint of the process.
#[tactic(auto, using(xh_place::proofs::Deeds::stays_itself))]
fn test_each(records: &Records<Body>, place: &mut Place, ends: &[u16]) -> Result<(), Refused>
    requires { IsSeatOf records.now place.old.seat }
    ensures same { Stays place.old place.new }
    ensures tested { Tested (each_end (found place.old.seat) ends.now) result (λ _. AreEnds (found place.old.seat) ends.now) }
{
    let Some((e, rest)) = ends.split_first() else {
        return Ok(());
    };
    let Some(header) = place.header(records, *e) else {
        return Err(Refused::NotOwned);
    };
    if header.kind == Kind::Data {
        return Err(Refused::NotEndpoint);
    }
    test_each(records, place, rest)
}

// The tests of a take at several endpoints.
#[tactic(auto, using(xh_place::proofs::Deeds::stays_itself, xh_core::proofs::Firsts::first_append, xh_core::proofs::Firsts::first_later))]
fn test_several(
    records: &Records<Body>,
    place: &mut Place,
    p: u16,
    ends: &[u16],
) -> Result<(), Refused>
    requires { IsSeatOf records.now place.old.seat }
    ensures same { Stays place.old place.new }
    ensures tested { Tested (several_tests p place.old ends.now) result (λ _. AreReady p place.old ends.now) }
{
    check_start(place, p)?;
    if ends.len() > MAX_ENDS {
        return Err(Refused::TooMany);
    }
    test_each(records, place, ends)?;
    if is_twice(ends) {
        return Err(Refused::Twice);
    }
    Ok(())
}

impl<N: Names> Heap<N> {
    // Takes at each of the endpoints, until one has a message. Where none has, the first whose peer is closed answers.
    fn take_first<R: Wait, G: Gate>(
        &self,
        rt: &R,
        place: &mut Place,
        p: u16,
        ends: &[u16],
        gate: &G,
    ) -> Result<AnsweredAt, Refused>
        requires own { IsSeatOf N.parts.records place.old.seat }
        requires ready { AreReady p place.old ends.now }
        ensures same { IsSamePlace place.old place.new }
        ensures taken { TakesFirst p ends.now place.old place.new result }
    {
        let mut closed = None;
        for (at, e) in ends.iter().enumerate() {
            let mut answer = Err(Refused::Empty);
            self.take(rt, place, p, *e, &mut answer, gate);
            let why = match answer {
                Ok(taken) => {
                    return Ok(AnsweredAt {
                        at,
                        answer: Ok(taken),
                    });
                }
                Err(why) => why,
            };
            if let Refused::Empty = why {
                continue;
            }
            closed = closed.or(Some((at, why)));
        }
        match closed {
            Some((at, why)) => Ok(AnsweredAt {
                at,
                answer: Err(why),
            }),
            None => Err(Refused::Empty),
        }
    }

    /// As `Kernel::take_any`, by whoever has the place's lock.
    pub fn take_any<R: Wait, G: Gate>(
        &self,
        rt: &R,
        place: &mut Place,
        p: u16,
        ends: &[u16],
        gate: &G,
    ) -> Result<AnsweredAt, Refused>
        requires { IsSeatOf N.parts.records place.old.seat }
        ensures same { IsSamePlace place.old place.new }
        ensures taken { AfterLooks place.old place.new (λ from. TakesAny p ends.now from place.new result) }
    {
        test_several(&self.records, place, p, ends)?;
        self.take_first(rt, place, p, ends, gate)
    }
}
