//! Each call of a process, with ample memory.
use std::alloc::Global;
use xh_heap::{
    Answered, Block, Config, Contract, Duration, Item, Items, Job, Message, Overview, Process,
    Refused, Returned, Row, Team, one_arena, run,
};

/// A number that a call answered, or 1000 and the number of its refusal.
pub fn code<E: Into<Refused>>(answer: Result<u64, E>) -> u64 {
    match answer {
        Ok(number) => number,
        Err(why) => {
            let refused: Refused = why.into();
            1000 + u64::from(refused.number())
        }
    }
}

/// How many bytes a block has.
pub fn length(block: Block) -> u64 {
    u64::from(block.len())
}

/// The tag of a message.
pub fn tag_of(answer: Result<Message, Refused>) -> u64 {
    match answer {
        Ok(message) => u64::from(message.tag),
        Err(why) => code(Err::<u64, Refused>(why)),
    }
}

/// How many processes wait.
pub fn waiting(seen: &Overview) -> usize {
    seen.places.iter().filter(|s| s.awaits.is_some()).count()
}

/// The same, and 100 for each end before its own.
pub fn tag_at(answer: Result<Answered, Refused>) -> u64 {
    code(answer.map(|a| {
        let before = (a.at as u64).wrapping_mul(100);
        before.wrapping_add(tag_of(a.answer))
    }))
}

/// Blocks are made, cut, written, read and freed.
fn blocks<P: Process>(own: &mut P) -> Result<[u64; 8], Refused> {
    let mut head = own.alloc(40)?;
    let len = head.len();
    let other = own.alloc_in(1, 16)?;
    let tail = own.split(&mut head, 16)?;
    own.write(&tail, 30, b"ab")?;
    let mut bytes = [0; 3];
    own.read(&tail, 29, &mut bytes)?;
    Ok([
        u64::from(len),
        code(own.split(&mut head, 16).map(length)),
        u64::from(head.len()),
        u64::from(tail.len()),
        u64::from(bytes[2]),
        u64::from(own.free(tail)?),
        u64::from(own.free(other)?),
        code(own.alloc_in(2, 16).map(length)),
    ])
}

/// A message's items: one of them.
pub fn one(item: Item) -> Items {
    let mut items = Items::new();
    items.push(item);
    items
}

/// Messages go over, and takes find them, or nothing within a time that is nothing.
fn messages<P: Process>(one: &mut P, other: &mut P) -> Result<[u64; 8], Refused> {
    let (out, into) = one.wire(other)?;
    let block = one.alloc(16)?;
    let first = one.give(&out, 7, block)?;
    let second = one.give(&out, 8, Items::new())?;
    let message = other.take(&into)?;
    let tag = message.tag;
    other.free(message.block()?)?;
    Ok([
        first,
        second,
        u64::from(tag),
        tag_at(other.take_any(&[&into])),
        tag_at(other.take_any(&[&into])),
        tag_of(other.take_for(&into, Duration::ZERO)),
        tag_at(other.take_any_for(&[&into], Duration::ZERO)),
        code(other.take(&out).map(|message| message.no)),
    ])
}

/// Messages go over while there is room; behind four a block comes back, and goes once one was taken.
fn rooms<P: Process>(own: &mut P, other: &mut P) -> Result<[u64; 8], Refused> {
    let (out, into) = own.wire(other)?;
    let first = code(own.give_wait(&out, 1, Items::new()));
    let second = code(own.give_for(&out, 2, Items::new(), Duration::ZERO));
    let third = code(own.give(&out, 3, Items::new()));
    let fourth = code(own.give_wait(&out, 4, Items::new()));
    let block = one(Item::Block(own.alloc(16)?));
    let (full, block) = back(own.give_for(&out, 5, block, Duration::ZERO))?;
    let taken = tag_of(other.take_wait(&into));
    let fifth = code(own.give_wait(&out, 6, block));
    other.take_any(&[into])?;
    Ok([
        first,
        second,
        third,
        fourth,
        full,
        taken,
        fifth,
        code(own.close(out)),
    ])
}

/// Side 0 asks by the tag 5, and side 1 answers by 6.
pub const ASK: &[Row] = &[
    Row {
        state: 0,
        tag: 5,
        side: 0,
        next: 1,
    },
    Row {
        state: 1,
        tag: 6,
        side: 1,
        next: 0,
    },
];

/// Channels of one process and of two, under a contract and without one; an end is closed.
fn channels<P: Process>(own: &mut P, other: &mut P) -> Result<[u64; 8], Refused> {
    let (low, high) = own.open()?;
    own.give(&low, 3, Items::new())?;
    let (ruled, _) = own.open_with(Contract::new(ASK)?)?;
    let (wired, at_other) = own.wire_with(other, Contract::new(ASK)?)?;
    Ok([
        tag_of(own.take(&high)),
        code(own.give(&ruled, 4, Items::new())),
        code(own.give(&ruled, 5, Items::new())),
        code(own.give(&wired, 4, Items::new())),
        code(own.give(&wired, 5, Items::new())),
        tag_of(other.take(&at_other)),
        code(own.close(low)),
        tag_of(own.take(&high)),
    ])
}

/// What a refused call handed back, and the number of its refusal.
fn back<V: Drop>(answer: Result<u64, Returned<V>>) -> Result<(u64, V), Refused> {
    match answer {
        Ok(_number) => Err(Refused::Empty),
        Err(Returned { why, value }) => Ok((u64::from(why.number()), value)),
    }
}

/// Values name nothing at another's handle, and come back from what is refused; what goes over is what it was.
fn values<P: Process>(own: &mut P, other: &mut P) -> Result<[u64; 8], Refused> {
    let (out, into) = own.wire(other)?;
    let (low, high) = own.open()?;
    let block = own.alloc(16)?;
    let read = code(other.read(&block, 0, &mut [0]).map(|_read| 0));
    let (freed, block) = back(other.free(block).map(u64::from))?;
    let missing = code(own.give(&low, 1, one(Item::Missing)));
    let mut both = one(Item::Block(block));
    let _ = both.try_push(Item::End(high));
    let given = code(own.give(&out, 1, both));
    let mut items = other.take(&into)?.items.into_iter();
    let (Some(Item::Block(block)), Some(Item::End(end))) = (items.next(), items.next()) else {
        return Err(Refused::Empty);
    };
    own.give(&low, 9, Items::new())?;
    let (closed, into) = back(own.close(into))?;
    other.close(into.ok_or(Refused::NotOwned)?)?;
    let mine = own.alloc(32)?;
    let (lost, mine) = back(own.give(&out, 2, mine))?;
    Ok([
        read,
        freed,
        missing,
        given,
        tag_of(other.take(&end)),
        closed,
        lost,
        u64::from(own.free(mine.ok_or(Refused::NotOwned)?)?) + u64::from(other.free(block)?),
    ])
}

/// Starts so many processes, and keeps them until all are there.
fn spawn_all<P: Process>(own: &P, alloc: Global, count: u8) -> Result<u64, Refused> {
    let mut kept = Vec::new(alloc);
    for _ in 0..count {
        kept.push(own.spawn()?)?;
    }
    Ok(0)
}

/// Processes end, or are killed, and a block of one names nothing to whoever has its record next; of 33 handles 30 are left, which
/// come back, and so do the places.
fn endings<P: Process>(own: &mut P, other: &mut P, alloc: Global) -> Result<[u64; 8], Refused> {
    let mut third = own.spawn()?;
    let old = third.alloc(16)?;
    let killed = code(own.kill(third.number()));
    let again = own.alloc(16)?;
    let stale = code(own.free(old).map(u64::from));
    own.free(again)?;
    other.exit()?;
    Ok([
        u64::from(third.number()),
        killed,
        code(third.alloc(16).map(length)),
        stale,
        code(own.kill(77)),
        code(spawn_all(own, alloc, 30)),
        code(spawn_all(own, alloc, 31)),
        u64::from(own.spawn()?.number()),
    ])
}

/// A block is filled and looked at where it lies; not by another process, nor by one that has ended.
fn in_place<P: Process>(own: &mut P, ended: &mut P) -> Result<[u64; 8], Refused> {
    let block = own.alloc(32)?;
    let mut next = own.spawn()?;
    let count = own.with_bytes_mut(&block, |bytes: &mut [u8]| {
        bytes.fill(7);
        bytes.len() as u64
    })?;
    let mut last = [0];
    own.read(&block, 31, &mut last)?;
    let first = own.with_bytes(&block, |bytes: &[u8]| bytes.first().copied())?;
    Ok([
        count,
        u64::from(last[0]),
        first.map_or(0, u64::from),
        code(next.with_bytes(&block, |_: &[u8]| 0)),
        code(next.with_bytes_mut(&block, |_: &mut [u8]| 0)),
        code(ended.with_bytes(&block, |_: &[u8]| 0)),
        code(ended.with_bytes_mut(&block, |_: &mut [u8]| 0)),
        code(own.free(block).map(u64::from)),
    ])
}

/// Bytes become a block without a copy, and come back with the zeros behind them; what is refused keeps its bytes. Where no memory
/// comes, a wait for it ends.
fn buffers<P: Process>(own: &mut P, alloc: Global) -> Result<[u64; 8], Refused> {
    let mut bytes = vec![in alloc; 7u8; 5]?;
    let block = own.put(&mut bytes)?;
    let left = bytes.len() as u64;
    let none = code(own.put(&mut bytes).map(length));
    let len = block.len();
    let back = own.into_bytes(block)?;
    let mut large = vec![in alloc; 0u8; 5000]?;
    let full = own.alloc_wait(1, 4096)?;
    Ok([
        left,
        none,
        u64::from(len),
        back.len() as u64,
        u64::from(back.get(4).copied().unwrap_or(0)),
        code(own.put_in(1, &mut large).map(length)),
        code(own.alloc_for(1, 16, Duration::ZERO).map(length)),
        u64::from(own.free(full)?),
    ])
}

/// All of these, by a process and one that it starts, which has ended before the last.
#[derive(Drop)]
struct Calls(Global);

impl Job for Calls {
    type Plan = ();

    type Answer = Result<[[u64; 8]; 8], Refused>;

    fn plan<P: Process>(&self, _team: &mut Team<P>) -> Result<(), Refused> {
        Ok(())
    }

    fn work<P: Process>(&self, _plan: &(), _index: usize, own: &mut P) -> Self::Answer {
        let mut other = own.spawn()?;
        Ok([
            blocks(own)?,
            messages(own, &mut other)?,
            rooms(own, &mut other)?,
            channels(own, &mut other)?,
            values(own, &mut other)?,
            buffers(own, self.0)?,
            endings(own, &mut other, self.0)?,
            in_place(own, &mut other)?,
        ])
    }
}

#[test]
fn each_call(rt: HostRuntime) {
    const EXPECTED: [[u64; 8]; 8] = [
        [48, 1009, 16, 32, 98, 32, 16, 1003],
        [1, 2, 7, 8, 1016, 1016, 1016, 1006],
        [1, 2, 3, 4, 14, 1, 5, 32],
        [3, 1022, 1, 1022, 1, 5, 32, 1015],
        [1006, 6, 1006, 1, 9, 6, 15, 48],
        [0, 1002, 16, 16, 7, 1002, 1004, 4096],
        [2, 16, 1012, 1006, 1011, 0, 1021, 97],
        [32, 7, 7, 1006, 1006, 1012, 1012, 32],
    ];
    let config = Config {
        arenas: 2,
        ..one_arena(4096)
    };
    let mut closed = run(&rt, rt.alloc(), config, 1, &Calls(rt.alloc())).expect(&rt, "room");
    let answer = closed.answers.pop().expect(&rt, "a worker");
    assert_eq!(rt; answer.expect(&rt, "room"), EXPECTED);
}
