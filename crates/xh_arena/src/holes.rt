//! The sorted list of an arena's holes: how one is found, shortened and put in again.
ghost use Rattle.std.specs.Prelude.{◌≡◌, ◌+◌, ◌<◌, ◌≤◌, ◌++◌, All, length, take, drop, nat_le, slice_index_or};
ghost use Rattle.std.specs.List.{position};
ghost use Rattle.std.specs.List.Sorted.{IsNonDecreasingBy};
ghost use Rattle.arrayvec.specs.ArrayVec.{array_vec_len};
ghost use Rattle.xh_arena.specs.inner.Layout.{hole_place, join_above, join_run, shrunk};

use arrayvec::ArrayVec;
use xh_model::limits::{MAX_BYTES, MAX_RECORDS};

/// How many holes there is room for: an arena has at most one more than records, so that another always fits.
pub(crate) const ROOM: usize = 258;

const _: () = prove!(ROOM == MAX_RECORDS as usize + 2);

/// The holes of an arena in rising order, each a start and a length. They lie in the value itself.
pub(crate) type Holes = ArrayVec<(u32, u32), ROOM>;

/// The first hole of at least `n` bytes.
pub(crate) fn first_hole(holes: &[(u32, u32)], n: u32) -> Option<usize>
    ensures { result ≡ position (λ hole. nat_le n hole.1) holes.now }
{
    holes.iter().position(|hole| n <= hole.1)
}

/// Where a run from `start` on belongs among the holes: before the first that does not end before it.
fn place_of(holes: &[(u32, u32)], start: u32) -> usize
    requires { IsNonDecreasingBy (λ hole. hole.0 + hole.1) holes.now }
    ensures place { result ≡ hole_place start holes.now }
    ensures in_list { result ≤ length holes.now }
{
    holes.partition_point(|hole| u64::from(hole.0) + u64::from(hole.1) < u64::from(start))
}

/// Takes `n` bytes from the front of the hole at `at`, and says where they begin.
#[tactic(auto, using(crate::proofs::HoleRuns::refilled, crate::proofs::HoleRuns::shrunk_set))]
pub(crate) fn take_front(holes: &mut Holes, at: usize, n: u32) -> u32
    requires in_list { at < length holes.old.items }
    requires fits { n ≤ (slice_index_or holes.old.items at (0, 0)).1 }
    requires within { All (λ hole. hole.0 + hole.1 ≤ MAX_BYTES) holes.old.items }
    ensures start { result ≡ (slice_index_or holes.old.items at (0, 0)).0 }
    ensures items { holes.new.items ≡ take at holes.old.items ++ (shrunk n (slice_index_or holes.old.items at (0, 0)) ++ drop (at + 1) holes.old.items) }
{
    let (start, length) = holes[at];
    if length == n {
        holes.remove(at);
    } else {
        holes[at] = (start + n, length - n);
    }
    start
}

/// Joins the hole at `at` with the next one, where that begins at its end.
fn join_next(holes: &mut Holes, at: usize)
    requires in_list { at < length holes.old.items }
    requires within { All (λ hole. hole.0 + hole.1 ≤ MAX_BYTES) holes.old.items }
    ensures { let hole = slice_index_or holes.old.items at (0, 0) in holes.new.items ≡ take at holes.old.items ++ join_above hole.0 hole.1 (drop (at + 1) holes.old.items) }
{
    let (start, length) = holes[at];
    if at + 1 == holes.len() {
        return;
    }
    let (next, more) = holes[at + 1];
    if next == start + length {
        holes[at] = (start, length + more);
        holes.remove(at + 1);
    }
}

/// Puts a run in among the holes, joined with those that it touches.
#[tactic(auto, using(crate::proofs::HoleRuns::refilled, crate::proofs::Steps::set_above))]
pub(crate) fn add_hole(holes: &mut Holes, start: u32, length: u32)
    requires room { array_vec_len holes.old < ROOM }
    requires rising { IsNonDecreasingBy (λ hole. hole.0 + hole.1) holes.old.items }
    requires within { All (λ hole. hole.0 + hole.1 ≤ MAX_BYTES) holes.old.items }
    requires run { start + length ≤ MAX_BYTES }
    ensures { let at = hole_place start holes.old.items in holes.new.items ≡ take at holes.old.items ++ join_run start length (drop at holes.old.items) }
{
    let at = place_of(holes, start);
    if at == holes.len() {
        holes.push((start, length));
        return;
    }
    let (first, bytes) = holes[at];
    if first + bytes == start {
        holes[at] = (first, bytes + length);
        join_next(holes, at);
    } else if first == start + length {
        holes[at] = (start, length + bytes);
    } else {
        holes.insert(at, (start, length));
    }
}
