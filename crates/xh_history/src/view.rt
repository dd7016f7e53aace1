//! What a seat at the table of histories knows.
use std::collections::LinkedList;

/// The places whose one history the seat writes, from one to before another, and that history; and the
/// workers for which it has seen the places, from one to before another, of each place the beginning
/// of its history that was seen, and how often the seat looked. A call stands beside the number of its
/// worker. No value of it is made.
pub struct View<E> {
    pub place: u64,
    pub places_end: u64,
    pub history: LinkedList<(u64, E)>,
    pub worker: u64,
    pub workers_end: u64,
    pub fronts: LinkedList<LinkedList<(u64, E)>>,
    pub looks: u64,
}
