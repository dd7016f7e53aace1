//! The table of histories.
ghost use Rattle.std.specs.Prelude.{◌≡◌, ◌<◌, ◌∷◌, [], ◌++◌, ◌*◌, All, ℕ, suc, IfOk, length, vec_len, slice_index_or, slice_set, unwrap_or};
ghost use Rattle.xh_history.specs.Histories.{FrontOf, HasSeen, PenOf, Sees, IsLastShown, StartsWith, at, fresh_front, fresh_look, fresh_pen};
ghost use Rattle.xh_history.specs.inner.Views.{Looked, ShowsNext, all_words, place_of_word, signed, stride};
ghost use Rattle.xh_model.specs.declared.limits.TheConstants.{PLACES};

use crate::seats::{Front, Look, Pen};
use crate::steps::{
    Adds, FirstPlace, FirstWorker, Looks, OneHistory, Onlooker, Says, Shows, TakesIn,
};
use crate::view::View;
use atomic_table::{Badge, Seat, Shared, Table};
use std::alloc::{AllocError, Global};
use std::marker::{Brand, Model};
use std::mem;
use xh_model::limits::PLACES;

/// How many words lie from one place's word to the next's: those of a cache line, so that threads
/// that store the words of their places don't wait for each other.
const STRIDE: usize = 8;

// The word of a place. Word 0 is nobody's: each step that parts or joins seats reads it.
fn word_at(place: u8) -> usize
    requires { place < PLACES }
    ensures word { result ≡ stride * suc place }
    ensures place { place_of_word result ≡ place }
{
    (usize::from(place) + 1) * STRIDE
}

// The place's word. The seat has seen the place's history to its end then.
#[inline(always)]
fn sight<E, S: Shows<E>>(
    shared: &Shared<(), View<E>, (), OneHistory<S>>,
    seat: &mut Seat<(), View<E>>,
    place: u8,
) -> u64
    requires table { (seat.old.table_id ≡ shared.now.table_id) × (shared.now.table_id.words ≡ all_words) }
    requires place { (place < PLACES) × (length seat.old.me.0.fronts ≡ PLACES) }
    ensures { (seat.new.table_id ≡ seat.old.table_id) × Looked S.shows place seat.old.me result seat.new.me }
{
    shared.load::<Looks<S>>(seat, word_at(place))
}

/// The one history of each place, and the word that shows its last call. Its calls are of a type of which no value
/// is made.
#[derive(Drop)]
pub struct Histories<E, S: Shows<E>> {
    table: Table<(), View<E>, (), OneHistory<S>, Global>,
}

impl<E, S: Shows<E>> Model for Histories<E, S> {
    ghost use Rattle.std.specs.Prelude.{◌≡◌};
    ghost use Rattle.atomic_table.specs.Seated.{TableId};
    ghost use Rattle.xh_history.specs.inner.Views.{all_words};

    ghost Value = { TableId };

    ghost view = { λ h. h.table.shared.table_id };

    ghost invariant = { λ h. h.table.shared.table_id.words ≡ all_words };
}

impl<E, S: Shows<E>> Histories<E, S> {
    /// Empty histories: the pen of each place, the fronts of so many workers, and so many looks.
    #[tactic(auto, using(crate::proofs::Keeping::splits))]
    pub fn new(
        alloc: Global,
        workers: u8,
        looks: u8,
    ) -> Result<(Histories<E, S>, Vec<Pen<E>>, Vec<Front<E>>, Vec<Look<E>>), AllocError>
        ensures pens { IfOk result (λ r. (vec_len r.1 ≡ PLACES) × ((k : ℕ) (d : PenOf E) → k < PLACES → slice_index_or r.1.items k d ≡ fresh_pen r.0 k)) }
        ensures fronts { IfOk result (λ r. (vec_len r.2 ≡ workers) × ((k : ℕ) (d : FrontOf E) → k < workers → slice_index_or r.2.items k d ≡ fresh_front r.0 k)) }
        ensures looks { IfOk result (λ r. (vec_len r.3 ≡ looks) × All (λ l. l ≡ fresh_look r.0) r.3.items) }
    {
        let (table, mut first) = Table::of_words(alloc, &[0; (PLACES as usize + 1) * STRIDE], &())?;
        let mut lookers = Vec::with_capacity(alloc, usize::from(looks))?;
        let mut fronts = Vec::with_capacity(alloc, usize::from(workers))?;
        let mut pens = Vec::with_capacity(alloc, usize::from(PLACES))?;
        for _ in 0..looks {
            let seat = table.shared.split_seat::<Onlooker>(&mut first);
            lookers.push_reserved(Look { seat });
        }
        for number in 0..workers {
            let seat = table.shared.split_seat::<FirstWorker>(&mut first);
            fronts.push_reserved(Front {
                badge: seat.into_badge(),
            });
        }
        for place in 0..PLACES {
            let seat = table.shared.split_seat::<FirstPlace>(&mut first);
            pens.push_reserved(Pen {
                seat,
                number: place,
            });
        }
        Ok((Histories { table }, pens, fronts, lookers))
    }

    // The worker adds these calls, and sees the place's history to its end. The place's word becomes this one, or
    // stays. What seats know changes by a step on a word alone: so the pen's seat takes in the worker's, and one
    // store, or a load where the word stays, sees both.
    #[inline(always)]
    #[tactic(auto, using(crate::proofs::Keeping::joins, crate::proofs::Keeping::splits))]
    fn step<C: Says<E>>(&self, pen: &mut Pen<E>, front: &mut Front<E>, word: Option<u64>)
        requires tables { (pen.old.table ≡ self.now) × (front.old.table ≡ self.now) }
        requires shown { ShowsNext S.shows pen.old.number pen.old.history (pen.old.history ++ signed front.old.number C.calls) word }
        ensures pen { pen.new ≡ record pen.old { history = pen.old.history ++ signed front.old.number C.calls } }
        ensures front { front.new ≡ record front.old { fronts = slice_set front.old.fronts pen.old.number pen.new.history } }
        ensures seen { HasSeen front.old.number (at front.old.fronts pen.old.number) pen.old.history }
        ensures whole { at front.new.fronts pen.new.number ≡ pen.new.history }
    {
        let shared = &self.table.shared;
        let badge = mem::replace(&mut front.badge, Badge::blank());
        shared.join_seat::<TakesIn>(&mut pen.seat, badge.into_seat());
        let index = word_at(pen.number);
        match word {
            Some(word) => shared.store::<Adds<C>>(&mut pen.seat, index, word),
            None => {
                shared.load::<Adds<C>>(&mut pen.seat, index);
            }
        }
        front.badge = shared.split_seat::<FirstWorker>(&mut pen.seat).into_badge();
    }

    /// Shows that what the worker has seen of the pen's place is a beginning of the place's one history,
    /// in which all of the worker's calls stand. The worker has seen it to its end then.
    pub fn compare(&self, pen: &mut Pen<E>, front: &mut Front<E>)
        requires { (pen.old.table ≡ self.now) × (front.old.table ≡ self.now) }
        ensures same { pen.new ≡ pen.old }
        ensures front { front.new ≡ record front.old { fronts = slice_set front.old.fronts pen.old.number pen.old.history } }
        ensures seen { HasSeen front.old.number (at front.old.fronts pen.old.number) pen.old.history }
        ensures whole { at front.new.fronts pen.new.number ≡ pen.new.history }
    {
        self.step::<Brand>(pen, front, None);
    }

    /// One more call on the pen's place, which the worker made. The place's word becomes this one; with none it stays.
    /// Which call it is the caller's proof says, by what is shown here. It is inlined, so that what is shown need
    /// not lie in memory.
    #[inline(always)]
    #[tactic(auto, using(crate::proofs::Keeping::last_push))]
    pub fn add<A>(&self, pen: &mut Pen<E>, front: &mut Front<E>, word: Option<u64>, _about: &A)
        ghost call: { E }
        requires tables { (pen.old.table ≡ self.now) × (front.old.table ≡ self.now) }
        requires shown { (n : ℕ) → IsLastShown S.shows pen.old.number pen.old.history n → S.shows pen.old.number (unwrap_or word n) call }
        ensures pen { pen.new ≡ record pen.old { history = pen.old.history ++ (front.old.number, call) ∷ [] } }
        ensures front { front.new ≡ record front.old { fronts = slice_set front.old.fronts pen.old.number pen.new.history } }
        ensures seen { HasSeen front.old.number (at front.old.fronts pen.old.number) pen.old.history }
        ensures whole { at front.new.fronts pen.new.number ≡ pen.new.history }
    {
        self.step::<Brand>(pen, front, word);
    }

    /// The place's word, which shows the last call of its history.
    pub fn look(&self, look: &mut Look<E>, place: u8) -> u64
        requires { (look.old.table ≡ self.now) × (place < PLACES) }
        ensures same { look.new ≡ record look.old { fronts = look.new.fronts; looks = suc look.old.looks } }
        ensures seen { Sees S.shows look.old.fronts place result look.new.fronts }
    {
        sight(&self.table.shared, &mut look.seat, place)
    }

    /// As `look`, by a worker: all that is new to it are calls of others.
    pub fn look_by(&self, front: &mut Front<E>, place: u8) -> u64
        requires { (front.old.table ≡ self.now) × (place < PLACES) }
        ensures same { front.new ≡ record front.old { fronts = front.new.fronts; looks = suc front.old.looks } }
        ensures seen { Sees S.shows front.old.fronts place result front.new.fronts }
        ensures own { HasSeen front.old.number (at front.old.fronts place) (at front.new.fronts place) }
    {
        let shared = &self.table.shared;
        let mut seat = mem::replace(&mut front.badge, Badge::blank()).into_seat();
        let word = sight(shared, &mut seat, place);
        front.badge = seat.into_badge();
        word
    }

    /// Shows that what the look has seen of the pen's place is a beginning of the place's one history.
    #[tactic(auto, using(crate::proofs::Keeping::splits, crate::proofs::Keeping::joins))]
    pub fn compare_look(&self, pen: &mut Pen<E>, look: &mut Look<E>)
        requires { (pen.old.table ≡ self.now) × (look.old.table ≡ self.now) }
        ensures same { (pen.new ≡ pen.old) × (look.new ≡ look.old) }
        ensures begins { StartsWith pen.old.history (at look.old.fronts pen.old.number) }
    {
        let shared = &self.table.shared;
        let seen = shared.split_seat::<Onlooker>(&mut look.seat);
        shared.join_seat::<TakesIn>(&mut pen.seat, seen);
        sight(shared, &mut pen.seat, pen.number);
    }
}
