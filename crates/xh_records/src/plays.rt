// What each kind of step does, and tells its seat.
use crate::view::View;
use atomic_table::{Join, Play, Split};
use xh_arena::{Fits, Lot};

/// Claim, from free, or accept, from in flight.
pub(crate) struct Takes;

impl<B: Fits> Play<Option<Lot<B>>, View<B>> for Takes {
    ghost use Rattle.xh_records.specs.inner.Steps.{took_slot};

    ghost then = { took_slot B.is_fit };
}

/// Pass, to in flight, or vacate, to free.
pub(crate) struct Gives;

impl<B> Play<Option<Lot<B>>, View<B>> for Gives {
    ghost use Rattle.xh_records.specs.inner.Steps.{gave_slot};

    ghost then = { gave_slot };
}

/// A plain load.
pub(crate) struct LooksAtRecord;

impl<B> Play<Option<Lot<B>>, View<B>> for LooksAtRecord {
    ghost use Rattle.xh_records.specs.inner.Steps.{looked};

    ghost then = { looked };
}

/// The next generation.
pub(crate) struct Renews;

impl<B> Play<Option<Lot<B>>, View<B>> for Renews {
    ghost use Rattle.xh_records.specs.inner.Steps.{aged};

    ghost then = { aged };
}

/// The first place goes to a new seat.
pub(crate) struct Deal;

impl<B> Split<View<B>> for Deal {
    ghost use Rattle.xh_records.specs.inner.Views.{dealt_from, dealt};

    ghost left = { dealt_from };

    ghost right = { dealt };
}

/// The whole view goes to a new seat, which holds no slot.
pub(crate) struct Whole;

impl<B> Split<View<B>> for Whole {
    ghost use Rattle.xh_records.specs.inner.Views.{spent};

    ghost left = { λ _. spent };

    ghost right = { λ v. v };
}

/// What one has seen goes to a new seat, which stands for no place.
pub(crate) struct Notes;

impl<B> Split<View<B>> for Notes {
    ghost use Rattle.xh_records.specs.inner.Views.{note_of};

    ghost left = { λ v. v };

    ghost right = { note_of };
}

/// A plain load, by a seat that was told what another had seen: part of the other's view, which stands for no
/// place, was joined into its own. Here it sees that the rule holds of both.
pub(crate) struct Compares;

impl<B> Play<Option<Lot<B>>, View<B>> for Compares {
    ghost use Rattle.xh_records.specs.inner.Steps.{compared};

    ghost then = { compared };
}

/// Two views become one.
pub(crate) struct Both;

impl<B> Join<View<B>> for Both {
    ghost use Rattle.xh_records.specs.inner.Views.{joined, spent};

    ghost both = { joined };

    ghost spent = { spent };
}
