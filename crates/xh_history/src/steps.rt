// The rule of the table of histories, and its kinds of step.
use crate::view::View;
use atomic_table::{Join, Play, Split, TableRule};
use std::marker::{Brand, PhantomData};

/// Which word of a place shows a call of its history.
pub trait Shows<E> {
    ghost use Rattle.std.specs.Prelude.{ℕ};

    /// `shows p n e`: the word `n` of the place `p` shows the call `e`.
    ghost shows: { ℕ → ℕ → E → Type 0 };
}

/// Each word does: nobody looks.
pub struct NobodyLooks;

impl<E> Shows<E> for NobodyLooks {
    ghost shows = { λ _ _ _. Unit {0} };
}

pub struct OneHistory<S> {
    shows: PhantomData<S>,
}

impl<E, S: Shows<E>> TableRule<(), View<E>, ()> for OneHistory<S> {
    ghost use Rattle.xh_history.specs.inner.Views.{AreKeptHistories, view_from};

    ghost holds = { λ _ s. AreKeptHistories S.shows s };

    ghost first = { λ _. view_from 0 0 };
}

/// The first place goes to a seat of its own.
pub struct FirstPlace;

impl<E> Split<View<E>> for FirstPlace {
    ghost use Rattle.std.specs.Prelude.{suc};
    ghost use Rattle.xh_history.specs.inner.Views.{given_before, kept_from};

    ghost left = { λ v. kept_from (suc v.place) v.worker v };

    ghost right = { λ v. given_before (suc v.place) v.worker v };
}

/// The first worker goes to a seat of its own.
pub struct FirstWorker;

impl<E> Split<View<E>> for FirstWorker {
    ghost use Rattle.std.specs.Prelude.{suc};
    ghost use Rattle.xh_history.specs.inner.Views.{given_before, kept_from};

    ghost left = { λ v. kept_from v.place (suc v.worker) v };

    ghost right = { λ v. given_before v.place (suc v.worker) v };
}

/// The new seat adds nothing, and has seen as much.
pub struct Onlooker;

impl<E> Split<View<E>> for Onlooker {
    ghost use Rattle.xh_history.specs.inner.Views.{given_before, kept_from};

    ghost left = { λ v. kept_from v.place v.worker v };

    ghost right = { λ v. given_before v.place v.worker v };
}

/// The seat of a place takes in that of a worker, or what a look has seen.
pub struct TakesIn;

impl<E> Join<View<E>> for TakesIn {
    ghost use Rattle.xh_history.specs.inner.Views.{both, spent};

    ghost both = { both };

    ghost spent = { spent };
}

/// The calls that a step adds, which the proof names.
pub trait Says<E> {
    ghost use Rattle.std.specs.Prelude.{List};

    ghost calls: { List E };
}

impl<E> Says<E> for Brand {
    ghost use Rattle.std.specs.Prelude.{[]};

    ghost calls = { [] };
}

/// The worker adds these calls to the history of the place, of which it had seen a beginning.
pub struct Adds<C> {
    says: PhantomData<C>,
}

impl<E, C: Says<E>> Play<(), View<E>> for Adds<C> {
    ghost use Rattle.xh_history.specs.inner.Views.{Added};

    ghost then = { Added C.calls };
}

/// A place's history is seen to its end.
pub struct Looks<S> {
    shows: PhantomData<S>,
}

impl<E, S: Shows<E>> Play<(), View<E>> for Looks<S> {
    ghost use Rattle.xh_history.specs.inner.Views.{Looked, place_of_word};

    ghost then = { λ s. Looked S.shows (place_of_word s.word) };
}
