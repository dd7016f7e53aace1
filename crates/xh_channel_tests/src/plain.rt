//! Events by calls: a block on its way, and a machine that is made again.
use std::alloc::Global;
use std::process::Abort;
use xh_core::{Config, Event, Holder, Outcome, Plain, Refused};

const TWO_ARENAS: Config = Config {
    arenas: 2,
    bytes: 64,
    records: 4,
    depth: 1,
    wear: 1_000,
};

/// An event that is done, or one that is refused; a record and who holds it; a record that no one holds.
#[derive(Clone, Copy)]
enum Row {
    Done(Event),
    Refused(Event),
    Held(u16, Holder),
    Free(u16),
}

fn is_done(plain: &mut Plain, event: Event) -> bool {
    matches!(plain.step(event), Outcome::Done)
}

fn is_held(plain: &Plain, r: u16, by: Holder) -> bool {
    match (plain.holder(r), by) {
        (Some(Holder::Process(p)), Holder::Process(q)) => p == q,
        (Some(Holder::Direction(d)), Holder::Direction(e)) => d == e,
        _ => false,
    }
}

fn is_so(plain: &mut Plain, row: Row) -> bool {
    match row {
        Row::Done(event) => is_done(plain, event),
        Row::Refused(event) => !is_done(plain, event),
        Row::Held(r, by) => is_held(plain, r, by),
        Row::Free(r) => plain.holder(r).is_none(),
    }
}

fn assert_rows(rt: &impl Abort, plain: &mut Plain, rows: &[Row]) {
    for (at, row) in rows.iter().enumerate() {
        assert!(rt; is_so(plain, *row), "row {at}");
    }
}

/// A new machine of a Config goes through all rows.
fn assert_on(rt: &impl Abort, alloc: Global, config: Config, rows: &[Row]) {
    let mut plain = Plain::new(alloc, config).expect(rt, "room");
    assert_rows(rt, &mut plain, rows);
}

/// A block that is claimed, carved, passed, accepted by another process and freed by it.
#[test]
fn plain_events(rt: HostRuntime) {
    const ROWS: &[Row] = &[
        Row::Done(Event::Claim(0, 0)),
        Row::Done(Event::Carve(0, 0, 32)),
        Row::Done(Event::Pass(0, 0, 1)),
        Row::Refused(Event::Accept(1, 0, 0)),
        Row::Done(Event::Accept(1, 0, 1)),
        Row::Held(0, Holder::Process(1)),
        Row::Refused(Event::Vacate(1, 0)),
        Row::Done(Event::GiveBack(1, 0)),
        Row::Done(Event::Vacate(1, 0)),
        Row::Free(0),
    ];
    let config = Config {
        arenas: 1,
        ..TWO_ARENAS
    };
    assert_on(&rt, rt.alloc(), config, ROWS);
}

/// A new machine of a Config, and where a growth was refused, the one of the same call made again.
fn grown(rt: &impl Abort, alloc: Global, config: Config) -> Plain {
    match Plain::new(alloc, config) {
        Ok(plain) => plain,
        Err(refused) => {
            assert!(rt; matches!(refused, Refused::OutOfMemory));
            Plain::new(alloc, config).expect(rt, "room")
        }
    }
}

/// With one growth refused, whichever it is, the call says so, and the same call after it gives a machine with all of its
/// arenas, records and bytes: `rt try --test --fail-alloc N` refuses the N-th.
#[test]
fn a_refused_growth_leaves_nothing(rt: HostRuntime) {
    const ROWS: &[Row] = &[
        Row::Free(0),
        Row::Free(259),
        Row::Done(Event::Claim(0, 0)),
        Row::Done(Event::Carve(0, 0, 64)),
        Row::Done(Event::Claim(1, 1)),
        Row::Refused(Event::Carve(1, 1, 16)),
        Row::Done(Event::Claim(1, 259)),
        Row::Done(Event::Carve(1, 259, 64)),
        Row::Refused(Event::Claim(1, 260)),
        Row::Done(Event::Pass(1, 259, 127)),
        Row::Held(0, Holder::Process(0)),
        Row::Held(259, Holder::Direction(127)),
    ];
    let mut plain = grown(&rt, rt.alloc(), TWO_ARENAS);
    assert_rows(&rt, &mut plain, ROWS);
}
