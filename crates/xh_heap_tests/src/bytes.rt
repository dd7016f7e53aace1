//! Messages of bytes, each given or taken by one call.
use crate::calls::{ASK, code, one, waiting};
use std::alloc::Global;
use std::process::Abort;
use xh_heap::{
    Came, Closed, Config, Contract, Duration, End, Item, Items, Job, Process, Refused, Team,
    one_arena, run,
};

/// What came: its number, its tag, how many bytes it has, and the first; or of another message how many items, and 256. Of a
/// refusal its code, as the last.
fn shown(came: Result<Came, Refused>) -> [u64; 4] {
    match came {
        Ok(Came::Bytes { no, tag, bytes }) => {
            let first = bytes.first().copied().unwrap_or(0);
            [no, u64::from(tag), bytes.len() as u64, u64::from(first)]
        }
        Ok(Came::Message(message)) => {
            let count = message.items.len() as u64;
            [message.no, u64::from(message.tag), count, 256]
        }
        Err(why) => [0, 0, 0, code(Err::<u64, Refused>(why))],
    }
}

/// What a give answered, how many bytes it left, and the first and the sixth of them.
fn left(answer: Result<u64, Refused>, bytes: &[u8]) -> [u64; 4] {
    let byte = |at: usize| u64::from(bytes.get(at).copied().unwrap_or(0));
    [code(answer), bytes.len() as u64, byte(0), byte(5)]
}

/// Messages go over by each form while there is room; behind four the bytes come back.
fn forms<P: Process>(own: &mut P, other: &mut P, alloc: Global) -> Result<[[u64; 4]; 7], Refused> {
    let (out, into) = own.wire(other)?;
    let mut bytes = vec![in alloc; 7u8; 5]?;
    let first = left(own.give_bytes_wait(&out, 1, &mut bytes), &bytes);
    let mut bytes = vec![in alloc; 8u8; 16]?;
    own.give_bytes_in_wait(1, &out, 2, &mut bytes)?;
    let mut bytes = vec![in alloc; 9u8; 17]?;
    own.give_bytes_for(&out, 3, &mut bytes, Duration::ZERO)?;
    let mut bytes = vec![in alloc; 10u8; 32]?;
    own.give_bytes_in_for(1, &out, 4, &mut bytes, Duration::ZERO)?;
    let mut bytes = vec![in alloc; 11u8; 5]?;
    let full = own.give_bytes_for(&out, 5, &mut bytes, Duration::ZERO);
    Ok([
        first,
        left(full, &bytes),
        shown(other.take_bytes_wait(&into)),
        shown(other.take_bytes_for(&into, Duration::ZERO)),
        shown(other.take_bytes_wait(&into)),
        shown(other.take_bytes_wait(&into)),
        shown(other.take_bytes_for(&into, Duration::ZERO)),
    ])
}

/// What is refused hands its bytes back, as they were where the put was refused, which comes first: of no arena, of no space. Then
/// of an end of another, by a contract, of a peer that is closed, and once the process has ended. The process is left with its end
/// alone.
fn refusals<P: Process>(
    own: &mut P,
    other: &mut P,
    alloc: Global,
) -> Result<[[u64; 4]; 7], Refused> {
    let (out, into) = own.wire_with(other, Contract::new(ASK)?)?;
    let mut bytes = vec![in alloc; 7u8; 5]?;
    let no_arena = left(own.give_bytes_in_wait(2, &into, 5, &mut bytes), &bytes);
    let whole = own.alloc_in(1, 4096)?;
    let no_space = left(own.give_bytes_in_wait(1, &into, 5, &mut bytes), &bytes);
    own.free(whole)?;
    let not_owned = left(own.give_bytes_wait(&into, 5, &mut bytes), &bytes);
    let protocol = left(own.give_bytes_in_wait(1, &out, 4, &mut bytes), &bytes);
    other.close(into)?;
    let closed = left(own.give_bytes_wait(&out, 5, &mut bytes), &bytes);
    let back = own.exit()?;
    let ended = left(own.give_bytes_wait(&out, 5, &mut bytes), &bytes);
    Ok([
        no_arena,
        no_space,
        not_owned,
        protocol,
        closed,
        ended,
        [back, 0, 0, 0],
    ])
}

/// What isn't one data block is the message: none, an end, and two blocks.
fn others<P: Process>(own: &mut P, other: &mut P) -> Result<[[u64; 4]; 7], Refused> {
    let (out, into) = own.wire(other)?;
    let (_low, high) = own.open()?;
    own.give(&out, 1, Items::new())?;
    own.give(&out, 2, high)?;
    let mut both = one(Item::Block(own.alloc(16)?));
    let _ = both.try_push(Item::Block(own.alloc(32)?));
    own.give(&out, 3, both)?;
    let block = own.alloc(48)?;
    own.give(&out, 4, block)?;
    let none = shown(other.take_bytes_wait(&into));
    let end = other.take_bytes_wait(&into)?;
    let two = shown(other.take_bytes_wait(&into));
    let bytes = other.take_bytes_wait(&into)?.bytes()?;
    own.close(out)?;
    Ok([
        none,
        shown(Ok(end)),
        two,
        [0, 0, bytes.len() as u64, 0],
        shown(other.take_bytes_wait(&into)),
        [0; 4],
        [0; 4],
    ])
}

/// All of these, by a process and one that it starts; the second of them ends by the refusals.
#[derive(Drop)]
struct Calls(Global);

impl Job for Calls {
    type Plan = ();

    type Answer = Result<[[[u64; 4]; 7]; 3], Refused>;

    fn plan<P: Process>(&self, _team: &mut Team<P>) -> Result<(), Refused> {
        Ok(())
    }

    fn work<P: Process>(&self, _plan: &(), _index: usize, own: &mut P) -> Self::Answer {
        let mut other = own.spawn()?;
        let mut third = own.spawn()?;
        Ok([
            forms(own, &mut other, self.0)?,
            refusals(&mut third, &mut other, self.0)?,
            others(own, &mut other)?,
        ])
    }
}

#[test]
fn bytes_in_one_call(rt: HostRuntime) {
    const EXPECTED: [[[u64; 4]; 7]; 3] = [
        [
            [1, 0, 0, 0],
            [1014, 16, 11, 0],
            [1, 1, 16, 7],
            [2, 2, 16, 8],
            [3, 3, 32, 9],
            [4, 4, 32, 10],
            [0, 0, 0, 1016],
        ],
        [
            [1003, 5, 7, 0],
            [1004, 5, 7, 0],
            [1006, 16, 7, 0],
            [1022, 16, 7, 0],
            [1015, 16, 7, 0],
            [1012, 16, 7, 0],
            [32, 0, 0, 0],
        ],
        [
            [1, 1, 0, 256],
            [2, 2, 1, 256],
            [3, 3, 2, 256],
            [0, 0, 48, 0],
            [0, 0, 0, 1015],
            [0; 4],
            [0; 4],
        ],
    ];
    let config = Config {
        arenas: 2,
        ..one_arena(4096)
    };
    let mut closed = run(&rt, rt.alloc(), config, 1, &Calls(rt.alloc())).expect(&rt, "room");
    let answer = closed.answers.pop().expect(&rt, "a worker");
    assert_eq!(rt; answer.expect(&rt, "room"), EXPECTED);
}

/// The first waits for room, and is killed by the second once it does.
#[derive(Drop)]
struct KilledInIt(Global);

impl Job for KilledInIt {
    type Plan = (End, End);

    type Answer = Result<(u64, usize), Refused>;

    fn plan<P: Process>(&self, team: &mut Team<P>) -> Result<(End, End), Refused> {
        team.wire(0, 1)
    }

    fn work<P: Process>(
        &self,
        (out, _into): &(End, End),
        index: usize,
        own: &mut P,
    ) -> Self::Answer {
        if index == 0 {
            let mut bytes = vec![in self.0; 7u8; 5]?;
            for _ in 0..4 {
                own.give(out, 0, Items::new())?;
            }
            let told = code(own.give_bytes_wait(out, 1, &mut bytes));
            return Ok((told, bytes.len()));
        }
        let (idle, _other) = own.open()?;
        for _ in own.rt().forever() {
            let _nobody_gives = own.take_for(&idle, Duration::from_millis(1));
            let seen = own.overview();
            if waiting(&seen) == 1 {
                own.kill(0)?;
                return Ok((0, 0));
            }
        }
        unreachable!()
    }
}

/// Whoever is killed while it waits for room has no bytes left: they were its block's.
#[test]
fn a_kill_takes_the_bytes(rt: HostRuntime) {
    let job = KilledInIt(rt.alloc());
    let closed = run(&rt, rt.alloc(), one_arena(1024), 2, &job).expect(&rt, "room");
    assert!(rt; matches!(closed.answers.first(), Some(Ok((1012, 0)))));
}

/// Bytes go over within one process: what was answered, how many were left, and how many came.
#[derive(Drop)]
struct Sends(Global);

impl Job for Sends {
    type Plan = ();

    type Answer = Result<[u64; 3], Refused>;

    fn plan<P: Process>(&self, _team: &mut Team<P>) -> Result<(), Refused> {
        Ok(())
    }

    fn work<P: Process>(&self, _plan: &(), _index: usize, own: &mut P) -> Self::Answer {
        let (out, into) = own.open()?;
        let mut bytes = vec![in self.0; 7u8; 5]?;
        let given = code(own.give_bytes_wait(&out, 1, &mut bytes));
        let came = shown(own.take_bytes_for(&into, Duration::ZERO));
        Ok([given, bytes.len() as u64, came[2]])
    }
}

type Sent = Result<Closed<(), Result<[u64; 3], Refused>>, Refused>;

/// Whether the bytes came. Else memory was refused to the run, to the worker, or to its put, which left the bytes.
fn is_sent(rt: &impl Abort, ran: &Sent) -> bool {
    match ran {
        Ok(closed) => match closed.answers.first() {
            Some(Ok(sent)) => {
                assert!(rt; *sent == [1, 0, 16] || *sent == [1001, 5, 0]);
                *sent == [1, 0, 16]
            }
            _ => false,
        },
        Err(refused) => {
            assert_eq!(rt; refused.name(), "OutOfMemory");
            false
        }
    }
}

/// Whichever growth is refused, the bytes stay where they were not given; the next run gives them.
#[test]
fn growths_of_bytes(rt: HostRuntime) {
    let job = Sends(rt.alloc());
    let first = run(&rt, rt.alloc(), one_arena(1024), 1, &job);
    if !is_sent(&rt, &first) {
        let second = run(&rt, rt.alloc(), one_arena(1024), 1, &job);
        assert!(rt; is_sent(&rt, &second));
    }
}
