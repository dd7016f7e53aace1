//! Closing the books.
ghost use Rattle.std.specs.Prelude.{◌≡◌, ◌⊎◌, ◌+◌, ◌<◌, ◌≤◌, All, Err, IfErr, IfOk, Ok, length, vec_len};
ghost use Rattle.std.specs.List.{sum_by};
ghost use Rattle.xh_calls.specs.Parts.{IsOpen, vault_names};
ghost use Rattle.xh_kernel.specs.Finished.{tallies_of};
ghost use Rattle.xh_model.specs.declared.limits.TheConstants.{MAX_ARENAS, PLACES};
ghost use Rattle.xh_records.specs.Seats.{IsSeatOf};
ghost use Rattle.xh_books.specs.Closing.{AreClosed, HasArenasOf};
ghost use Rattle.xh_core.specs.Flight.{AreFlightLines};
ghost use Rattle.xh_books.specs.Flight.{IsInFlight};
ghost use Rattle.xh_books.specs.inner.Steps.{TellFlight};
ghost use Rattle.xh_books.specs.Ledgers.{IsBalanced, all_lengths, arena_lines, bytes_in_flight, bytes_owned, place_lines};

use crate::auditing::audit;
use crate::collecting::gather;
use crate::flight::flight_lines;
use crate::lines::{arena_lines, end_places};
use arrayvec::ArrayVec;
use std::alloc::{AllocError, Global};
use xh_arena::Vault;
use xh_core::{
    ARENA_LINES, ArenaLine, FLIGHT_LINES, FlightLine, Ledger, PLACE_LINES, PlaceLine, Refused,
};
use xh_kernel::{Account, Kernel, Look, Names, compare};
use xh_place::{Body, Place};
use xh_records::Records;

/// The books of a closed kernel: its ledger, and a line for each direction that holds blocks, in rising order.
#[derive(Drop, Debug)]
pub struct Books {
    pub ledger: Ledger,
    pub flight: ArrayVec<FlightLine, FLIGHT_LINES>,
}

// What a table of records left: the lines of the directions, and those of the places.
type Left = (
    ArrayVec<FlightLine, FLIGHT_LINES>,
    ArrayVec<PlaceLine, PLACE_LINES>,
);

// Ends all places, closes the table of their records, and shows of the vaults that its lots are theirs.
fn close_table(
    alloc: Global,
    vaults: &mut [Vault],
    records: Records<Body>,
    places: Vec<Place>,
) -> Result<Left, Refused>
    requires few { length records.shape.names ≤ MAX_ARENAS }
    requires vaults { (vault_names vaults.old ≡ records.shape.names) × All (λ v. v.arena.records ≡ records.shape.records) vaults.old }
    requires places { All (λ p. IsSeatOf records p.seat) places.items × (vec_len places ≡ records.shape.places) }
    ensures flight { IfOk result (λ r. TellFlight records.shape places.items (all_lengths vaults.old) r.0.items) }
    ensures lines { IfOk result (λ r. r.1.items ≡ place_lines places.items) }
    ensures owned { IfOk result (λ r. sum_by (λ l. l.bytes) r.1.items ≡ bytes_owned places.items) }
    ensures refused { IfErr result (λ e. e ≡ Refused.OutOfMemory) }
{
    let each = usize::from(records.per_arena());
    let (seats, lines) = end_places(alloc, places)?;
    let Ok((words, mut lots)) = records.close(alloc, seats) else {
        return Err(Refused::OutOfMemory);
    };
    let flight = flight_lines(words.as_slice(), lots.as_slice());
    audit(vaults, lots.as_mut_slice(), each);
    Ok((flight, lines))
}

// The ledger of these lines. What is in flight is computed by the law that it is what is out and not owned, and
// proved to be the sum over the records in no list.
pub(crate) fn ledger(
    arenas: ArrayVec<ArenaLine, ARENA_LINES>,
    places: ArrayVec<PlaceLine, PLACE_LINES>,
) -> Ledger
    requires { sum_by (λ p. p.bytes) places.items ≤ sum_by (λ a. a.out) arenas.items }
    ensures lines { (result.arenas ≡ arenas) × (result.places ≡ places) }
    ensures owned { result.owned ≡ sum_by (λ p. p.bytes) places.items }
    ensures out { result.out ≡ sum_by (λ a. a.out) arenas.items }
    ensures all { result.out ≡ result.owned + result.flight }
{
    let out = arenas
        .as_slice()
        .iter()
        .map(|line| u64::from(line.out))
        .sum();
    let owned = places.as_slice().iter().map(|line| line.bytes).sum();
    Ledger {
        arenas,
        places,
        owned,
        flight: out - owned,
        out,
    }
}

/// Closes the books of a kernel that was settled, with the accounts of all its workers: the vaults by
/// arena, the places by number, which hold all seats of the records, and the records. The accounts may
/// come in any order.
///
/// The ledger is exact, and so are the lines of the directions: whoever holds a record with bytes is a place or
/// a direction, and whatever one of them holds has bytes. OutOfMemory where a growth was refused; all that was
/// handed in is then dropped.
pub fn close_books<N: Names>(
    alloc: Global,
    vaults: Vec<Vault>,
    places: Vec<Place>,
    records: Records<Body>,
    accounts: Vec<Account<N>>,
) -> Result<Books, Refused>
    requires vaults { (vault_names vaults.items ≡ N.parts.records.shape.names) × All (IsOpen N.parts) vaults.items }
    requires few { vec_len vaults ≤ MAX_ARENAS }
    requires places { All (λ p. IsSeatOf records p.seat) places.items × (vec_len places ≡ records.shape.places) }
    requires records { records ≡ N.parts.records }
    requires accounts { vec_len accounts ≡ N.parts.workers }
    ensures arenas { IfOk result (λ b. b.ledger.arenas.items ≡ arena_lines (tallies_of accounts.items) 0 vaults.items) }
    ensures places { IfOk result (λ b. b.ledger.places.items ≡ place_lines places.items) }
    ensures owned { IfOk result (λ b. b.ledger.owned ≡ bytes_owned places.items) }
    ensures flight { IfOk result (λ b. b.ledger.flight ≡ bytes_in_flight places.items records.shape.records 0 (all_lengths vaults.items)) }
    ensures balanced { IfOk result (λ b. IsBalanced b.ledger) }
    ensures in_flight { IfOk result (λ b. IsInFlight records.shape places.items (all_lengths vaults.items) b.flight.items) }
    ensures lines { IfOk result (λ b. AreFlightLines b.ledger.flight b.flight.items) }
    ensures refused { IfErr result (λ e. e ≡ Refused.OutOfMemory) }
{
    let mut vaults = gather(vaults, accounts);
    let arenas = arena_lines(vaults.as_slice());
    let (flight, places) = close_table(alloc, vaults.as_mut_slice(), records, places)?;
    let ledger = ledger(arenas, places);
    Ok(Books { ledger, flight })
}

/// Ends a kernel by what was done on it: takes it apart, compares what its workers have seen with the histories of its
/// places and arenas, and closes its books. What was done is an answer, with the accounts and the looks of all workers; or it
/// failed, and the kernel is let go. Answers with the books what was done.
///
/// The error of what was done, and that of a refused growth where one was refused here.
pub fn close_kernel<N: Names, A: Drop, E: From<AllocError>>(
    alloc: Global,
    kernel: Kernel<N>,
    done: Result<(A, Vec<Account<N>>, Vec<Look>), E>,
) -> Result<(A, Books), E>
    requires accounts { IfOk done (λ d. vec_len d.1 ≡ N.parts.workers) }
    requires looks { IfOk done (λ d. All (λ l. l.table ≡ N.parts.histories) d.2.items) }
    ensures closed { IfOk result (λ r. (d : _) × (done ≡ Ok d) × (r.0 ≡ d.0) × AreClosed N.parts d.1.items d.2.items r.1.ledger r.1.flight.items) }
    ensures arenas { IfOk result (λ r. HasArenasOf N.parts r.1.ledger) }
    ensures places { IfOk result (λ r. All (λ line. line.place < PLACES) r.1.ledger.places.items) }
    ensures balanced { IfOk result (λ r. IsBalanced r.1.ledger) }
    ensures lines { IfOk result (λ r. AreFlightLines r.1.ledger.flight r.1.flight.items) }
    ensures refused { IfErr result (λ e. (done ≡ Err e) ⊎ ((why : _) × E.from_gives why e)) }
{
    match done {
        Ok((answer, accounts, looks)) => {
            let Ok(settled) = kernel.settle(alloc) else {
                return Err(E::from(AllocError));
            };
            let (histories, arenas) = (settled.histories, settled.vault_histories);
            let (pens, vault_pens) = (settled.pens, settled.vault_pens);
            let Ok(accounts) = compare(&histories, pens, &arenas, vault_pens, accounts, looks)
            else {
                return Err(E::from(AllocError));
            };
            let (vaults, places) = (settled.vaults, settled.places);
            match close_books(alloc, vaults, places, settled.records, accounts) {
                Ok(books) => Ok((answer, books)),
                Err(_refused) => Err(E::from(AllocError)),
            }
        }
        Err(error) => {
            kernel.discard();
            Err(error)
        }
    }
}
