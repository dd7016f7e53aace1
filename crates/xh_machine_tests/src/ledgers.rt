//! Ledgers that are compared.
use std::process::Abort;
use xh_core::{ArenaLine, Ledger, PlaceLine, State};

/// What a line of an arena tells.
fn of_arena(line: &ArenaLine) -> (u32, u32, u32, u64, u64) {
    (line.size, line.out, line.holes, line.taken, line.back)
}

/// What a line of a place tells.
fn of_place(line: &PlaceLine) -> (u16, State, u32, u64) {
    (line.process, line.state, line.blocks, line.bytes)
}

fn assert_same_arenas(rt: &impl Abort, one: &[ArenaLine], other: &[ArenaLine]) {
    assert_eq!(rt; one.len(), other.len());
    for (line, other_line) in one.iter().zip(other.iter()) {
        assert!(rt; of_arena(line) == of_arena(other_line));
    }
}

fn assert_same_places(rt: &impl Abort, one: &[PlaceLine], other: &[PlaceLine]) {
    assert_eq!(rt; one.len(), other.len());
    for (line, other_line) in one.iter().zip(other.iter()) {
        assert!(rt; of_place(line) == of_place(other_line));
    }
}

/// Both ledgers have the same lines, and so the same sums.
pub fn assert_same(rt: &impl Abort, one: &Ledger, other: &Ledger) {
    assert_same_arenas(rt, one.arenas.as_slice(), other.arenas.as_slice());
    assert_same_places(rt, one.places.as_slice(), other.places.as_slice());
    assert_eq!(rt;
        (one.owned, one.flight, one.out),
        (other.owned, other.flight, other.out)
    );
}
