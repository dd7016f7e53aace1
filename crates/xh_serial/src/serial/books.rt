//! What the ledger tells: the arenas, the places, and the sums of their bytes.
ghost use Rattle.std.specs.Prelude.{◌≡◌, ◌+◌, ◌<◌, ◌≤◌, ◌*◌, All, length, slice_index_or};
ghost use Rattle.std.specs.List.{sum_by};
ghost use Rattle.xh_core.specs.Statuses.{is_vacant};
ghost use Rattle.xh_serial.specs.Machine.{no_place};
ghost use Rattle.xh_serial.specs.PlaceCommands.{serial_glance, ledger_of, serial_places, total};
ghost use Rattle.xh_model.specs.declared.limits.TheConstants.{MAX_HELD, PLACES};

use crate::place::number;
use crate::serial::Serial;
use arrayvec::ArrayVec;
use xh_core::{Glance, Ledger, PLACE_LINES, PlaceLine, Plain, Status};

fn is_unused(glance: &Glance) -> bool
    ensures { result ≡ is_vacant glance.now.state }
{
    match glance.state {
        Status::Vacant => true,
        _ => false,
    }
}

/// The bytes of records.
pub(super) fn total(plain: &Plain, records: &[u16]) -> u64
    requires { length records.now ≤ MAX_HELD }
    ensures is { result ≡ total plain.now records.now }
    ensures most { result ≤ MAX_HELD * u32.MAX }
{
    let mut sum = 0u64;
    for record in records {
        sum += u64::from(plain.len(*record));
    }
    sum
}

impl Serial {
    /// A look at a place.
    pub(super) fn glance_at(&self, at: usize) -> Glance
        requires { at < PLACES }
        ensures { result ≡ serial_glance at (slice_index_or self.now.places at no_place) self.now.store }
    {
        let place = self.places.at(at);
        Glance {
            process: number(at, place.generation),
            state: place.status,
            blocks: place.blocks.len() as u32,
            bytes: total(&self.plain, place.blocks.as_slice()),
        }
    }

    /// The bytes that processes own.
    fn owned(&self) -> u64
        ensures { result ≡ sum_by (λ place. total self.now.store place.blocks.items) self.now.places }
    {
        let mut sum = 0u64;
        for at in 0..self.places.len() {
            sum += total(&self.plain, self.places.at(at).blocks.as_slice());
        }
        sum
    }

    /// A line for each place that was ever used.
    fn place_lines(&self) -> ArrayVec<PlaceLine, PLACE_LINES>
        ensures lines { result.items ≡ serial_places self.now.store 0 self.now.places }
        ensures places { All (λ line. line.place < PLACES) result.items }
    {
        let mut lines = ArrayVec::new();
        for at in 0..self.places.len() {
            let glance = self.glance_at(at);
            if !is_unused(&glance) {
                lines.push(glance.line());
            }
        }
        lines
    }

    /// What the heap holds now, line by line.
    pub fn ledger(&self) -> Ledger
        ensures fields { result ≡ ledger_of self.now }
        ensures sums { result.out ≡ result.owned + result.flight }
        ensures arenas { All (λ line. line.out + line.back ≡ line.taken) result.arenas.items }
        ensures places { All (λ line. line.place < PLACES) result.places.items }
    {
        let out = self.plain.handed_out();
        let held = self.owned();
        let flight = out - held;
        Ledger {
            arenas: self.plain.arena_lines(),
            places: self.place_lines(),
            owned: held,
            flight,
            out,
        }
    }
}
