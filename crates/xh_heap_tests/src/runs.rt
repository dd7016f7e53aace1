//! Whole runs: their limits, refused plans, handles that are dropped, and refused growths.
use crate::calls::{ASK, code, length, tag_at, tag_of, waiting};
use std::process::Abort;
use std::time::Duration;
use xh_heap::{
    Closed, Config, Contract, End, Items, Job, Limit, Overview, Process, Refused, Team, one_arena,
    run,
};

/// The first of two waits for messages of the second, which gives two, and ends; the others do nothing.
struct WaitsTwice;

type Heard = Result<[u64; 3], Refused>;

impl Job for WaitsTwice {
    type Plan = (End, End);

    type Answer = Heard;

    fn plan<P: Process>(&self, team: &mut Team<P>) -> Result<(End, End), Refused> {
        team.wire(0, 1)
    }

    fn work<P: Process>(&self, (into, out): &(End, End), index: usize, own: &mut P) -> Heard {
        if index == 0 {
            let first = tag_of(own.take_wait(into));
            let second = tag_at(own.take_any_wait(&[into]));
            return Ok([first, second, tag_of(own.take_wait(into))]);
        }
        if index == 1 {
            let block = own.alloc(48)?;
            own.give(out, 1, block)?;
            own.give(out, 2, Items::new())?;
        }
        Ok([0; 3])
    }
}

/// Whoever waits for a message of a process whose handle is dropped is told PeerClosed; the books say that all ended,
/// and that what went over came back: the channel's 64 bytes, and a block of 48.
#[test]
fn a_dropped_handle_ends_its_process(rt: HostRuntime) {
    const LEDGER: &str =
        "arena 0 1024 0 1 112 112\nprocess 0 ended 0 0\nprocess 1 ended 0 0\nowned 0\nflight 0\nout 0";
    let closed = run(&rt, rt.alloc(), one_arena(1024), 2, &WaitsTwice).expect(&rt, "room");
    assert_eq!(rt; told(closed.answers.first()), [1, 2, 1015]);
    let text = format!(in rt.alloc(); "{closed}").expect(&rt, "room");
    assert_eq!(rt; text.as_str(), LEDGER);
}

/// The second gives the first a message under a contract, when it is planned; then each takes bytes by its number.
struct Planned;

impl Job for Planned {
    type Plan = [u64; 4];

    type Answer = (usize, u64);

    fn plan<P: Process>(&self, team: &mut Team<P>) -> Result<[u64; 4], Refused> {
        let (out, into) = team.wire_with(1, 0, Contract::new(ASK)?)?;
        Ok([
            code(team.at(1)?.give(&out, 4, Items::new())),
            code(team.at(1)?.give(&out, 5, Items::new())),
            tag_of(team.at(0)?.take(&into)),
            code(team.at(0)?.give(&into, 5, Items::new())),
        ])
    }

    fn work<P: Process>(&self, _plan: &[u64; 4], index: usize, own: &mut P) -> (usize, u64) {
        let size = u32::from(own.number()).wrapping_mul(16).wrapping_add(16);
        (index, code(own.alloc(size).map(length)))
    }
}

/// A plan finds each process by its index, and its contract holds. Each work is done once, by the process of its index: beside
/// the channel's 64 bytes they take 16, 32 and 48.
#[test]
fn each_does_its_work_once(rt: HostRuntime) {
    const ARENA: &str = "arena 0 1024 0 1 160 160\n";
    let closed = run(&rt, rt.alloc(), one_arena(1024), 3, &Planned).expect(&rt, "room");
    assert_eq!(rt; closed.plan, [1022, 1, 5, 1022]);
    assert_eq!(rt;
        closed.answers.as_slice(),
        [(0, 16), (1, 32), (2, 48)].as_slice()
    );
    let text = format!(in rt.alloc(); "{closed}").expect(&rt, "room");
    assert!(rt; text.as_str().starts_with(ARENA));
}

/// The first waits for a message of the second, which waits for room toward it, a third at several ends, a fourth for memory. The
/// last, which waits for a word in vain, sees so at a deadline, and ends the first and the fourth, and so the waits of the others.
#[derive(Drop)]
struct WatchedRun<R>(R);

impl<R: Print + Drop> Job for WatchedRun<R> {
    type Plan = [(End, End); 4];

    type Answer = Result<Overview, Refused>;

    fn plan<P: Process>(&self, team: &mut Team<P>) -> Result<Self::Plan, Refused> {
        let (first, second) = (team.wire(0, 1)?, team.wire(1, 0)?);
        Ok([first, second, team.wire(2, 0)?, team.wire(4, 0)?])
    }

    fn work<P: Process>(&self, ends: &Self::Plan, index: usize, own: &mut P) -> Self::Answer {
        let (end, _) = &ends[index.min(3)];
        match index {
            0 => drop(own.take_wait(end)?),
            1 => {
                for _ in 0..5 {
                    own.give_wait(end, 0, Items::new())?;
                }
            }
            2 => drop(own.take_any_wait(&[end])?),
            3 => drop(own.alloc_wait(0, 1024)?),
            _ => {
                for _ in own.rt().forever() {
                    let _nobody_gives = own.take_for(end, Duration::from_millis(20));
                    let seen = own.overview();
                    if waiting(&seen) == 4 {
                        let _ = println!(self.0; "{seen}");
                        own.kill(0)?;
                        own.kill(3)?;
                        return Ok(seen);
                    }
                }
            }
        }
        Err(Refused::Empty)
    }
}

/// Each is told to wait where it does, and ends by the kill.
#[test]
fn who_waits_is_seen(rt: HostRuntime) {
    const SEEN: &str =
        "arena 0 1024 256 1 256 0\nprocess 0 running 4 128 awaits message 0 0\nprocess 1 running 2 64 awaits room 1 0\n\
    process 2 running 1 32 awaits messages\nprocess 3 running 0 0 awaits memory 0\nprocess 4 running 1 32\n";
    let mut closed = run(&rt, rt.alloc(), one_arena(1024), 5, &WatchedRun(&rt)).expect(&rt, "room");
    let seen = closed.answers.pop().expect(&rt, "the last");
    let text = format!(in rt.alloc(); "{}", seen.expect(&rt, "an overview")).expect(&rt, "room");
    assert_eq!(rt; text.as_str(), SEEN);
}

/// A run of which a thread is refused begins no work, and says so. The gate refuses each in turn.
#[test]
fn threads_of_a_run(rt: HostRuntime) {
    match run(&rt, rt.alloc(), one_arena(1024), 5, &WatchedRun(&rt)) {
        Ok(closed) => assert!(rt; matches!(closed.answers.first(), Some(Err(Refused::Ended)))),
        Err(refused) => {
            assert_eq!(rt; refused.name(), "OutOfMemory");
            let _ = println!(rt; "{refused}");
        }
    }
}

/// What a run is refused, by the bytes of its arena and the count of its processes. With one process the plan finds no
/// second.
#[test]
fn limits_of_runs(rt: HostRuntime) {
    const LIMITS: &[(u32, u8, u64)] = &[
        (1024, 0, 1002),
        (1024, 33, 1002),
        (1000, 2, 1002),
        (32, 2, 1004),
        (1024, 1, 1011),
        (1024, 32, 0),
    ];
    for (bytes, count, expected) in LIMITS {
        let ran = run(&rt, rt.alloc(), one_arena(*bytes), *count, &WaitsTwice);
        assert_eq!(rt; code(ran.map(|_closed| 0)), *expected);
    }
}

/// The arenas, bytes, records, depth and wear of a configuration, and the limit that it doesn't keep.
type Checked = (u8, u32, u16, u8, u64, Option<Limit>);

/// Each field below its limits, at them, and above.
const CHECKED: &[Checked] = &[
    (0, 16, 1, 1, 0, Some(Limit::Arenas)),
    (1, 16, 1, 1, 0, None),
    (8, 16, 1, 1, 0, None),
    (9, 16, 1, 1, 0, Some(Limit::Arenas)),
    (1, 0, 1, 1, 0, Some(Limit::Bytes)),
    (1, 15, 1, 1, 0, Some(Limit::Bytes)),
    (1, 17, 1, 1, 0, Some(Limit::Bytes)),
    (1, 32, 1, 1, 0, None),
    (1, 134_217_712, 1, 1, 0, None),
    (1, 134_217_728, 1, 1, 0, None),
    (1, 134_217_744, 1, 1, 0, Some(Limit::Bytes)),
    (1, 16, 0, 1, 0, Some(Limit::Records)),
    (1, 16, 256, 1, 0, None),
    (1, 16, 257, 1, 0, Some(Limit::Records)),
    (1, 16, 1, 0, 0, Some(Limit::Depth)),
    (1, 16, 1, 16, 0, None),
    (1, 16, 1, 17, 0, Some(Limit::Depth)),
    (1, 16, 1, 1, 9_223_372_036_854_775_807, None),
    (1, 16, 1, 1, 9_223_372_036_854_775_808, Some(Limit::Wear)),
];

/// How each limit is told.
const LIMIT_TEXTS: &[(Limit, &str)] = &[
    (Limit::Arenas, "arenas: 1 to 8"),
    (Limit::Bytes, "bytes: a multiple of 16, 16 to 134217728"),
    (Limit::Records, "records: 1 to 256"),
    (Limit::Depth, "depth: 1 to 16"),
    (Limit::Wear, "wear: at most 9223372036854775807"),
];

/// A configuration tells which limit it doesn't keep, and a limit what it is.
#[test]
fn limits_of_a_configuration(rt: HostRuntime) {
    for (arenas, bytes, records, depth, wear, expected) in CHECKED {
        let config = Config {
            arenas: *arenas,
            bytes: *bytes,
            records: *records,
            depth: *depth,
            wear: *wear,
        };
        assert_eq!(rt; config.checked().err(), *expected);
    }
    for (limit, expected) in LIMIT_TEXTS {
        let text = format!(in rt.alloc(); "{limit}").expect(&rt, "room");
        assert_eq!(rt; text.as_str(), *expected);
    }
}

/// What a worker answered.
fn told(answer: Option<&Heard>) -> [u64; 3] {
    match answer {
        Some(Ok(heard)) => *heard,
        _ => [0; 3],
    }
}

/// Whether a run was whole. Else memory was refused to it, or to the second worker, whose end the first was told.
fn is_whole(rt: &impl Abort, ran: &Result<Closed<(End, End), Heard>, Refused>) -> bool {
    match ran {
        Ok(closed) => {
            let first = told(closed.answers.first());
            assert!(rt; first == [1, 2, 1015] || first == [1015; 3]);
            first == [1, 2, 1015]
        }
        Err(refused) => {
            assert_eq!(rt; refused.name(), "OutOfMemory");
            false
        }
    }
}

/// With a growth refused a run says so, or the worker that asked for it; the next run is whole.
#[test]
fn growths_of_a_run(rt: HostRuntime) {
    let first = run(&rt, rt.alloc(), one_arena(1024), 2, &WaitsTwice);
    if !is_whole(&rt, &first) {
        let second = run(&rt, rt.alloc(), one_arena(1024), 2, &WaitsTwice);
        assert!(rt; is_whole(&rt, &second));
    }
}
