//! Messages that a place gives and takes.
ghost use Rattle.std.specs.Prelude.{◌≡◌, ◌≢◌, ℕ, ◌<◌, ◌≤◌, List, [], ◌∷◌, length, Err, Some, IfErr, MatchBool, MatchResult, map, true};
ghost use Rattle.xh_arena.specs.Views.{LotOf};
ghost use Rattle.xh_core.specs.Headers.{has_end};
ghost use Rattle.xh_core.specs.declared.refused.Refused.TheVariants.{NotEndpoint};
ghost use Rattle.xh_core.specs.Statuses.{is_over};
ghost use Rattle.xh_model.specs.Keyed.{Among, Distinct, value_at};
ghost use Rattle.xh_model.specs.declared.limits.TheConstants.{DIRECTIONS, MAX_BLOCKS};
ghost use Rattle.xh_place.specs.Bodies.{IsEndAt, content_of};
ghost use Rattle.xh_place.specs.Endpoints.{AreGot, record_got};
ghost use Rattle.xh_place.specs.Messages.{Gives, IsSent, IsTaken, IsUntaken, TakesAt};
ghost use Rattle.xh_place.specs.Places.{found};
ghost use Rattle.xh_place.specs.inner.Answers.{Comes};
ghost use Rattle.xh_place.specs.inner.Lots.{items_of};
ghost use Rattle.xh_place.specs.inner.Draining.{GainsAll};
ghost use Rattle.xh_place.specs.Seen.{IsSeen, Stays};
ghost use Rattle.xh_place.specs.declared.body.Body.{Body};
ghost use Rattle.xh_records.specs.Seats.{IsRecord, IsSeatOf};
ghost use Rattle.xh_core.specs.declared.status.Status.TheVariants as status;

use crate::body::Body;
use crate::checks::{test_block, test_end, test_given};
use crate::desk::Desk;
use crate::end_lots::take_at;
use crate::gate::{Gate, Point};
use crate::giving::{Given, answer, give_all};
use crate::got::{Got, Taken};
use crate::list::settle;
use crate::lots::{accept_block, place_of};
use crate::place::Place;
use arrayvec::ArrayVec;
use std::sync::Wait;
use xh_channel::{Message, Spot};
use xh_core::{Block, Header, Refused};
use xh_records::Records;

impl Place {
    /// Gives blocks of the list, by the endpoint `e`, in a message with a tag. It answers the message's number.
    /// NoProcess and Ended are of the process; NotOwned and NotEndpoint of the endpoint; then TooMany of more than 8 blocks, NotOwned of a block, Twice. Protocol, PeerClosed and Full name the
    /// blocks that came back.
    pub fn give<R: Wait, V, G: Gate>(
        &mut self,
        desk: &Desk<'_, R, V, G>,
        e: u16,
        tag: u16,
        blocks: &[u16],
    ) -> Result<u64, Refused>
        requires own { IsSeatOf desk.now.records.now self.old.seat }
        ensures given { Gives self.old.state e tag blocks.now self.old self.new result }
    {
        let spot = test_end(desk.records, &mut self.seat, self.state, e)?;
        test_given(desk.records, &mut self.seat, e, blocks)?;
        self.send(desk, e, spot, tag, blocks)
    }

    // Passes the blocks of a give, puts the message, and settles the list with what came back.
    fn send<R: Wait, V, G: Gate>(
        &mut self,
        desk: &Desk<'_, R, V, G>,
        e: u16,
        spot: Spot,
        tag: u16,
        given: &[u16],
    ) -> Result<u64, Refused>
        requires own { IsSeatOf desk.now.records.now self.old.seat }
        requires running { self.old.state ≡ status.Running }
        requires end { (l : LotOf Body) × (value_at e self.old.seat.lots ≡ Some l) × IsEndAt (content_of l.body) spot.channel spot.side }
        requires few { length given.now ≤ MAX_BLOCKS }
        requires given { Distinct given.now × (Among given.now e → ⊥) }
        requires held { (r : ℕ) → Among given.now r → (l : LotOf Body) × (value_at r self.old.seat.lots ≡ Some l) }
        ensures sent { IsSent e tag given.now self.old self.new result }
    {
        let Given {
            put,
            back,
            lost,
            gained,
        } = give_all(desk, &mut self.seat, e, spot, tag, given);
        settle(&mut self.list, given, back.as_slice());
        self.total = self.total - lost + gained;
        answer(put, back)
    }

    /// Takes the first message of the direction toward the endpoint `e`. Its blocks come to the end of the list.
    /// NoProcess, Ended, NotOwned, NotEndpoint; then PeerClosed or Empty where no message waits.
    pub fn take<R: Wait, V, G: Gate>(
        &mut self,
        desk: &Desk<'_, R, V, G>,
        e: u16,
    ) -> Result<Taken, Refused>
        requires own { IsSeatOf desk.now.records.now self.old.seat }
        ensures taken { TakesAt self.old.state e self.old self.new result }
        ensures empty { IfErr result (λ u. u ≡ Refused.Empty → Stays self.old self.new) }
    {
        let mut answer = Err(Refused::Empty);
        self.take_into(desk, e, &mut answer);
        answer
    }

    /// As `take`. The answer is large: it is written where the caller keeps it, since each move of it costs.
    pub fn take_into<R: Wait, V, G: Gate>(
        &mut self,
        desk: &Desk<'_, R, V, G>,
        e: u16,
        answer: &mut Result<Taken, Refused>,
    )
        requires own { IsSeatOf desk.now.records.now self.old.seat }
        ensures taken { TakesAt self.old.state e self.old self.new answer.new }
        ensures empty { IfErr answer.new (λ u. u ≡ Refused.Empty → Stays self.old self.new) }
    {
        match test_block(desk.records, &mut self.seat, self.state, e) {
            Ok(()) => self.take_message(desk, e, answer),
            Err(why) => *answer = Err(why),
        }
    }

    // Takes the first message for a block of the list, and its blocks. NotEndpoint where it isn't an endpoint.
    #[inline(always)]
    pub(super) fn take_message<R: Wait, V, G: Gate>(
        &mut self,
        desk: &Desk<'_, R, V, G>,
        e: u16,
        answer: &mut Result<Taken, Refused>,
    )
        requires own { IsSeatOf desk.now.records.now self.old.seat }
        requires alive { is_over self.old.state ≢ true }
        requires held { (l : LotOf Body) × (value_at e self.old.seat.lots ≡ Some l) }
        ensures taken { MatchBool (has_end (found self.old.seat e)) (MatchResult answer.new (IsTaken e self.old self.new) (IsUntaken e self.old self.new))
            ((answer.new ≡ Err NotEndpoint) × Stays self.old self.new) }
    {
        let (taken, way) = take_at(desk, &mut self.seat, e);
        let Some(direction) = way else {
            *answer = Err(Refused::NotEndpoint);
            return;
        };
        let message = match taken {
            Ok(message) => message,
            Err(none) => {
                *answer = Err(Refused::from(none));
                return;
            }
        };
        desk.gate.between(place_of(&self.seat), Point::Popped);
        let mut taken = Taken {
            no: message.no,
            tag: message.tag,
            blocks: ArrayVec::new(),
        };
        self.take_all(desk.records, &message, direction, &mut taken.blocks);
        *answer = Ok(taken);
    }

    // Takes a block that is in flight on the direction, at the end of the list.
    // (It makes the answer of a take at once: as a result it would be moved once more, which costs a message of eight blocks a twentieth.)
    pub(super) fn accept(&mut self, records: &Records<Body>, r: u16, direction: u8) -> Got
        requires own { IsSeatOf records.now self.old.seat × IsRecord records.now.shape r × (direction < DIRECTIONS) }
        requires alive { is_over self.old.state ≢ true }
        ensures record { record_got result ≡ r }
        ensures got { Comes self.old self.new direction r result }
    {
        match accept_block(records, &mut self.seat, r, direction) {
            Ok(Header { len, kind }) => {
                self.list.push_reserved(r);
                self.total += u64::from(len);
                Got::Here(Block { rec: r, len }, kind)
            }
            Err(word) => Got::Missing { rec: r, word },
        }
    }

    // Takes a block of a message, at the end of the list. A record that doesn't exist is free.
    fn take_one(&mut self, records: &Records<Body>, r: u16, direction: u8) -> Got
        requires own { IsSeatOf records.now self.old.seat × (direction < DIRECTIONS) }
        requires alive { is_over self.old.state ≢ true }
        ensures got { (gained : List (ℕ × LotOf Body)) × GainsAll direction gained self.old self.new × AreGot (IsSeen self.old.seat self.new.seat) direction (items_of gained) (result ∷ []) }
        ensures record { record_got result ≡ r }
    {
        if !records.has(r) {
            return Got::Missing { rec: r, word: 0 };
        }
        self.accept(records, r, direction)
    }

    // Takes the blocks of a message, at the end of the list: what each answers, in their order.
    fn take_all(
        &mut self,
        records: &Records<Body>,
        message: &Message,
        direction: u8,
        got: &mut ArrayVec<Got, 8>,
    )
        requires own { IsSeatOf records.now self.old.seat × (direction < DIRECTIONS) }
        requires alive { is_over self.old.state ≢ true }
        requires empty { got.old.items ≡ [] }
        ensures got { (gained : List (ℕ × LotOf Body)) × GainsAll direction gained self.old self.new × AreGot (IsSeen self.old.seat self.new.seat) direction (items_of gained) got.new.items }
        ensures records { map record_got got.new.items ≡ message.now.blocks.items }
    {
        for k in 0..message.blocks.len() {
            let r = message.blocks[k];
            got.push(self.take_one(records, r, direction));
        }
    }
}
