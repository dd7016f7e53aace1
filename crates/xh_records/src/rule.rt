// The table's rule: words, home lots and views show an ownership.
use crate::shape::Shape;
use crate::view::View;
use atomic_table::TableRule;
use std::marker::PhantomData;
use xh_arena::{Fits, Lot};

pub struct Showing<B> {
    body: PhantomData<B>,
}

impl<B: Fits> TableRule<Option<Lot<B>>, View<B>, Shape> for Showing<B> {
    ghost use Rattle.xh_records.specs.Showing.{Shown};
    ghost use Rattle.xh_records.specs.inner.Views.{all_places};

    ghost holds = { Shown B.is_fit };

    ghost first = { all_places };
}
