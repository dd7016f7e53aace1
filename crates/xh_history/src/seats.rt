//! The seats at the table: who writes a place's history, who makes calls, and who only looks.
ghost use Rattle.std.specs.Prelude.{◌≡◌, ◌<◌};
ghost use Rattle.xh_history.specs.Histories.{no_front};
ghost use Rattle.xh_model.specs.declared.limits.TheConstants.{PLACES};

use crate::view::View;
use atomic_table::{Badge, Seat};
use std::marker::Model;

/// The one seat that writes the history of its place, and knows it whole.
#[derive(Drop)]
pub struct Pen<E> {
    pub(crate) seat: Seat<(), View<E>>,
    pub(crate) number: u8,
}

impl<E> Model for Pen<E> {
    ghost use Rattle.xh_history.specs.Histories.{PenOf};
    ghost use Rattle.xh_history.specs.inner.Views.{IsPen};

    ghost Value = { PenOf E };

    ghost view = { λ p. record { table = p.seat.table_id; number = p.number; history = p.seat.me.0.history } };

    ghost invariant = { λ p. IsPen p.number p.seat.me.0 };
}

impl<E> Pen<E> {
    /// The place whose history it writes.
    pub fn number(&self) -> u8
        ensures number { result ≡ self.now.number }
        ensures place { result < PLACES }
    {
        self.number
    }
}

/// Of each place the beginning of its history that the worker has seen, in which all of the worker's own
/// calls stand. It has no bytes.
#[derive(Drop)]
pub struct Front<E> {
    pub(crate) badge: Badge<View<E>>,
}

impl<E> Model for Front<E> {
    ghost use Rattle.xh_history.specs.Histories.{FrontOf};
    ghost use Rattle.xh_history.specs.inner.Views.{IsFrontOrNone, front_of};

    ghost Value = { FrontOf E };

    ghost view = { λ f. front_of f.badge.table_id f.badge.views };

    ghost invariant = { λ f. IsFrontOrNone f.badge.views };
}

impl<E> Front<E> {
    /// Of nobody: what stands where a worker's own was taken from, for as long as it is lent.
    pub fn blank() -> Front<E>
        ensures { result ≡ no_front }
    {
        Front {
            badge: Badge::blank(),
        }
    }
}

/// A seat that adds nothing. Of each place it has seen a beginning of the place's history, by so many looks. It has
/// no bytes.
#[derive(Drop)]
pub struct Look<E> {
    pub(crate) seat: Seat<(), View<E>>,
}

impl<E> Model for Look<E> {
    ghost use Rattle.xh_history.specs.Histories.{LookOf};
    ghost use Rattle.xh_history.specs.inner.Views.{IsOnlooker};

    ghost Value = { LookOf E };

    ghost view = { λ l. record { table = l.seat.table_id; fronts = l.seat.me.0.fronts; looks = l.seat.me.0.looks } };

    ghost invariant = { λ l. IsOnlooker l.seat.me.0 };
}
