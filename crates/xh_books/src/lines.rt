// The lines of a ledger.
ghost use Rattle.std.specs.Prelude.{◌≡◌, ◌+◌, ◌<◌, ◌≤◌, ◌++◌, [], All, IfOk, OnOk, length, map, sum, vec_len};
ghost use Rattle.std.specs.List.{cons_option, sum_by};
ghost use Rattle.arrayvec.specs.ArrayVec.{array_vec_len};
ghost use Rattle.xh_model.specs.declared.limits.TheConstants.{MAX_ARENAS, PLACES};
ghost use Rattle.xh_model.specs.Arena.{lengths_of};
ghost use Rattle.xh_books.specs.inner.Steps.{IsListed, closed_line};
ghost use Rattle.xh_books.specs.Ledgers.{all_lengths, bytes_owned, place_lines};

use arrayvec::ArrayVec;
use std::alloc::{AllocError, Global};
use xh_arena::Vault;
use xh_calls::vault_line;
use xh_core::{ARENA_LINES, ArenaLine, PLACE_LINES, PlaceLine};
use xh_place::{Body, Place};
use xh_records::Seat;

// The line of an arena, of a vault that took in all its tallies.
fn arena_line(vault: &Vault) -> ArenaLine
    requires { length vault.now.collected ≡ vault.now.workers }
    ensures line { result ≡ closed_line vault.now }
    ensures out { result.out ≡ sum (lengths_of vault.now.arena) }
    ensures balanced { result.taken ≡ result.back + result.out }
{
    // These show what the tallies say.
    let (_out, _taken) = (vault.handed_out(), vault.wear());
    vault_line(vault)
}

// The lines of all arenas.
pub(crate) fn arena_lines(vaults: &[Vault]) -> ArrayVec<ArenaLine, ARENA_LINES>
    requires few { length vaults.now ≤ MAX_ARENAS }
    requires full { All (λ v. length v.collected ≡ v.workers) vaults.now }
    ensures lines { result.items ≡ map closed_line vaults.now }
    ensures out { sum_by (λ a. a.out) result.items ≡ sum (all_lengths vaults.now) }
    ensures balanced { All (λ a. a.taken ≡ a.back + a.out) result.items }
{
    let mut lines = ArrayVec::new();
    for vault in vaults {
        lines.push(arena_line(vault));
    }
    lines
}

// One line more, where there is one.
fn push_line(lines: &mut ArrayVec<PlaceLine, PLACE_LINES>, line: Option<PlaceLine>)
    requires { array_vec_len lines.old < PLACES }
    ensures { lines.new.items ≡ lines.old.items ++ cons_option line [] }
{
    if let Some(line) = line {
        lines.push(line);
    }
}

// The seats of all places, and the lines of those that somebody has had.
pub(crate) fn end_places(
    alloc: Global,
    places: Vec<Place>,
) -> Result<(Vec<Seat<Body>>, ArrayVec<PlaceLine, PLACE_LINES>), AllocError>
    requires { vec_len places ≤ PLACES }
    ensures seats { IfOk result (λ r. r.0.items ≡ map (λ p. p.seat) places.items) }
    ensures whole { OnOk result (All IsListed places.items) }
    ensures lines { IfOk result (λ r. r.1.items ≡ place_lines places.items) }
    ensures owned { IfOk result (λ r. sum_by (λ l. l.bytes) r.1.items ≡ bytes_owned places.items) }
{
    let mut seats = Vec::with_capacity(alloc, places.len())?;
    let mut lines = ArrayVec::new();
    for place in places {
        // A look at a place shows that each record stands once in its list.
        let _bytes = place.total();
        let (seat, line) = place.end();
        seats.push(seat)?;
        push_line(&mut lines, line);
    }
    Ok((seats, lines))
}
