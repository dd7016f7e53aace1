use crate::shape::Shape;
use std::collections::LinkedList;
use xh_arena::Lot;
use xh_model::Event;

/// What a seat at the table knows: the processes that it stands for, each a place with its generation,
/// the records that it holds, each by its index beside the process that owns it, and for each place a
/// front: the beginning of the one log of all deeds that the seat has seen, each an event beside the
/// lot that its process took or gave by it. There is a front for each place, and not one for all, since a join
/// has no way to show which of two is longer. No value of it is made.
pub struct View<B> {
    pub shape: Shape,
    pub processes: LinkedList<u64>,
    pub records: LinkedList<(u64, u64)>,
    pub fronts: LinkedList<(u64, LinkedList<(Event, Lot<B>)>)>,
}
