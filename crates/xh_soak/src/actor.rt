//! A process that acts at random, and judges what it is answered.
ghost use Rattle.xh_heap.specs.declared.values.End.{End};

use crate::round::{CALLS, Chance, Round};
use std::sync::atomic::Ordering::SeqCst;
use std::time::Duration;
use xh_heap::{
    Answered, AsEnd, Block, Came, Contract, End, Host, Item, Items, Message, Process, Refused,
    Returned, Row, Starter, Team,
};

/// An end, its name, and how many messages were given and taken by it. A name is a multiple of 4, its side, and 2 more where the
/// channel is one between a process and its child.
#[derive(Drop)]
pub(crate) struct Line {
    end: End,
    name: u16,
    counts: [u64; 2],
}

fn fresh(end: End, name: u16) -> Line {
    let counts = [0; 2];
    Line { end, name, counts }
}

impl AsEnd for Line {
    ghost shows = { λ line. line.end };

    fn as_end(&self) -> &End {
        &self.end
    }
}

/// What a process begins with: ends, and how often it acts.
pub(crate) type Task = (Vec<Line>, u32);

/// What a process has: ends, and blocks, each with the stamp that it begins and ends in.
#[derive(Drop)]
struct Actor<'a, 'b, 'c, P: Process> {
    own: &'a mut P,
    threads: &'b Starter<P, Task>,
    round: &'c Round,
    chance: Chance,
    lines: Vec<Line>,
    blocks: Vec<(Block, u64)>,
}

impl Host for Round {
    type Plan = ();

    type Task = Task;

    type Answer = ();

    fn plan<P: Process>(&self, _: &mut Team<P>) -> Result<(), Refused> {
        Ok(())
    }

    fn work<P: Process>(&self, _: &(), _: usize, own: &mut P, threads: &Starter<P, Task>) {
        self.serve(&(), (Vec::new(self.alloc), 500), own, threads);
    }

    fn serve<P: Process>(&self, _: &(), task: Task, own: &mut P, threads: &Starter<P, Task>) {
        let seed = self.seed.wrapping_add(65_536 * u64::from(own.number()));
        let (lines, acts) = task;
        Actor {
            own,
            threads,
            round: self,
            chance: Chance(seed),
            lines,
            blocks: Vec::new(self.alloc),
        }
        .play(acts);
    }
}

// A call of the process: what it was answered, if Ok.
macro_rules! ask {
    ($actor:ident, $call:ident($($word:expr),*)) => {{
        let told = $actor.own.$call($($word),*);
        $actor.judge(stringify!($call), told)
    }};
}

// The stamp of the first item of a message to an end of this name, to which so many were given before.
fn sent(to: u16, given: u64) -> u64 {
    let message = given.wrapping_mul(65_536).wrapping_add(u64::from(to));
    message.wrapping_mul(256)
}

// What a take at several ends answers, and at which.
fn came(told: Result<Answered, Refused>, at: &mut usize) -> Result<Came, Refused> {
    let answered = told?;
    *at = answered.at;
    answered.answer.map(Came::Message)
}

impl<'a, 'b, 'c, P: Process> Actor<'a, 'b, 'c, P> {
    // Acts, and takes from its children until each has ended. It waits without an end for them alone, and they for it. What it has
    // then goes with it.
    fn play(&mut self, acts: u32) {
        for _ in 0..acts {
            let _ = self.act(acts);
        }
        for _ in self.own.rt().forever() {
            self.lines.retain(|it| it.name % 4 == 2);
            if self.take(true).is_none() {
                break;
            }
        }
        for _ in 0..self.blocks.len() {
            let _ = self.pick();
        }
        if self.chance.below(2) == 0 {
            let _ = ask!(self, exit());
        }
    }

    fn act(&mut self, acts: u32) -> Option<()> {
        match self.chance.below(64) {
            0..=16 => self.make(),
            17..=31 => self.change(),
            32..=43 => self.give(),
            44..=56 => self.take(false),
            57..=59 => self.start(acts / 4),
            60 => {
                let line = self.chance.pick(&mut self.lines)?;
                ask!(self, close(line.end)).map(|_bytes| ())
            }
            61 => {
                let seen = Ok::<_, Refused>(self.own.overview());
                self.judge("overview", seen).map(|_seen| ())
            }
            _ if self.round.kills => {
                let number = self.chance.below(256) as u16;
                ask!(self, kill(number)).map(|_bytes| ())
            }
            _ => None,
        }
    }

    fn claim(&self, is_so: bool, wrong: &'static str) {
        let mut first = self.round.wrong.lock(&self.own.rt());
        if !is_so && first.is_empty() {
            *first = wrong;
        }
    }

    // Counts an answer of a call. A refusal has to be one that may come in such a round, and not for want of what the call waits for.
    fn judge<T: Drop, E: Into<Refused>>(&self, call: &str, told: Result<T, E>) -> Option<T> {
        let why = match told {
            Ok(value) => {
                let at = CALLS.split(' ').position(|it| it == call)?;
                self.round.answered.get(at)?.fetch_add(1, SeqCst);
                return Some(value);
            }
            Err(refused) => Into::<Refused>::into(refused).name(),
        };
        let is_so = match why {
            "NoSpace" | "NoRecord" => call != "alloc_wait",
            "Full" | "Empty" => !call.ends_with("_wait"),
            "BadCut" | "NoChannel" | "NoPlace" | "PeerClosed" | "Protocol" | "Worn" => true,
            "Ended" | "NoProcess" => self.round.kills,
            "OutOfMemory" => self.round.is_scarce,
            _ => false,
        };
        self.claim(is_so, why);
        None
    }

    // One of the last arena goes at once: all wait for its memory, and who has some waits for nobody.
    fn make(&mut self) -> Option<()> {
        let most = self.round.bytes / (self.chance.below(64) * self.chance.below(64) + 1);
        let n = self.chance.below(most).saturating_add(1);
        let (how, arena) = (self.chance.below(6), self.chance.below(2));
        let mut bytes = Vec::new(self.round.alloc);
        bytes.resize(n.div_ceil(16) as usize * 16, 7).ok()?;
        let block = match how {
            0 => ask!(self, alloc(n)),
            1 => ask!(self, alloc_in(arena, n)),
            2 => ask!(self, alloc_for(arena, n, Duration::from_millis(1))),
            3 => ask!(self, alloc_wait(2, n)),
            4 => ask!(self, put(&mut bytes)),
            _ => ask!(self, put_in(arena, &mut bytes)),
        }?;
        let byte = if how > 3 { 7 } else { 0 };
        let is_filled = |bytes: &[u8]| bytes.iter().all(|it| *it == byte);
        let is_so = ask!(self, with_bytes(&block, is_filled)) != Some(false);
        self.claim(is_so, "a new block has other bytes");
        if how == 3 {
            return ask!(self, free(block)).map(|_bytes| ());
        }
        self.keep(block)
    }

    // What was made or cut gets a stamp of its own.
    fn keep(&mut self, block: Block) -> Option<()> {
        let stamp = u64::from(self.chance.below(u32::MAX));
        let _ = ask!(self, with_bytes_mut(&block, |bytes| bytes.fill(9)));
        self.stamp(&block, stamp);
        self.blocks.push((block, stamp)).ok()
    }

    fn stamp(&mut self, block: &Block, stamp: u64) {
        for at in [0, block.len().saturating_sub(8)] {
            let _ = ask!(self, write(block, at, &stamp.to_le_bytes()));
        }
    }

    // One of its blocks, which has its stamp.
    fn pick(&mut self) -> Option<Block> {
        let (block, stamp) = self.chance.pick(&mut self.blocks)?;
        for at in [0, block.len().saturating_sub(8)] {
            let mut word = [0; 8];
            let is_read = ask!(self, read(&block, at, &mut word)).is_some();
            self.claim(!is_read || word == stamp.to_le_bytes(), "another stamp");
        }
        Some(block)
    }

    // Lets a block go, or cuts it.
    fn change(&mut self) -> Option<()> {
        let mut block = self.pick()?;
        match self.chance.below(3) {
            0 => ask!(self, free(block)).map(|_bytes| ()),
            1 => ask!(self, into_bytes(block)).map(|_bytes| ()),
            _ => {
                let k = self.chance.below(block.len() / 16).saturating_mul(16);
                if let Some(tail) = ask!(self, split(&mut block, k)) {
                    let _ = self.keep(tail);
                }
                self.keep(block)
            }
        }
    }

    // At times side 0 alone may give, and no end.
    fn rules(&mut self) -> Option<Contract> {
        let rules = Contract::new(&[Row::default()]).ok();
        rules.filter(|_| self.chance.below(4) == 0)
    }

    fn open(&mut self) -> Option<(Line, Line)> {
        let (low, high) = match self.rules() {
            Some(rules) => ask!(self, open_with(rules)),
            None => ask!(self, open()),
        }?;
        let name = 4 * self.chance.below(16_383) as u16;
        Some((fresh(low, name), fresh(high, name + 1)))
    }

    // Starts a child on a thread, with a channel to it.
    fn start(&mut self, acts: u32) -> Option<()> {
        let child = ask!(self, spawn())?;
        let (low, high) = match self.rules() {
            Some(rules) => ask!(self, wire_with(&child, rules)),
            None => ask!(self, wire(&child)),
        }?;
        let name = 4 * self.chance.below(16_383) as u16 + 2;
        let mut lines = Vec::new(self.round.alloc);
        lines.push(fresh(high, name + 1)).ok()?;
        self.lines.push(fresh(low, name)).ok()?;
        let told = self.threads.start(child, (lines, acts));
        self.judge("start", told)
    }

    // Gives blocks, and at times an end of a new channel, named by the tag.
    fn give(&mut self) -> Option<()> {
        let mut line = self.chance.pick(&mut self.lines)?;
        let (stamp, mut items, mut tag) = (sent(line.name ^ 1, line.counts[0]), Items::new(), 0);
        if self.chance.below(4) == 0
            && let Some((low, high)) = self.open()
        {
            tag = high.name;
            let _ = items.try_push(Item::End(high.end));
            let _ = self.lines.push(low);
        }
        for _ in 0..self.chance.below(8) {
            if let Some(block) = self.pick() {
                self.stamp(&block, stamp.wrapping_add(items.len() as u64));
                let _ = items.try_push(Item::Block(block));
            }
        }
        if let Some(no) = self.send(&line, tag, items, stamp) {
            line.counts[0] = line.counts[0].wrapping_add(1);
            self.claim(no == line.counts[0], "a message has another number");
        }
        self.lines.push(line).ok()
    }

    // To its parent, which takes at its end at the latest, it waits for room; else for a time, or not. What comes back it has again.
    fn send(&mut self, line: &Line, tag: u16, items: Items, stamp: u64) -> Option<u64> {
        let (how, time) = (self.chance.below(2), Duration::from_millis(1));
        let (is_up, end) = (line.name % 4 == 3, &line.end);
        let (call, told) = match how {
            _ if is_up && items.is_empty() => {
                let mut bytes = stamp.to_le_bytes().repeat(self.round.alloc, 2).ok()?;
                let told = self.own.give_bytes_wait(end, tag, &mut bytes);
                let returned = |why| Returned { why, value: items };
                ("give_bytes_wait", told.map_err(returned))
            }
            _ if is_up => ("give_wait", self.own.give_wait(end, tag, items)),
            0 => ("give", self.own.give(end, tag, items)),
            _ => ("give_for", self.own.give_for(end, tag, items, time)),
        };
        let (told, back) = match told {
            Ok(no) => (Ok(no), Items::new()),
            Err(Returned { why, value }) => (Err(why), value),
        };
        self.unpack(back, tag, stamp);
        self.judge(call, told)
    }

    // Takes at an end, or at several. It waits, or for a time, or takes at once. One whose peer is closed is closed too.
    fn take(&mut self, waits: bool) -> Option<()> {
        let (how, time) = (self.chance.below(4), Duration::from_millis(1));
        let mut at = self.chance.below(65_536) as usize % self.lines.len().max(1);
        let (own, end) = (&mut *self.own, &self.lines.get(at)?.end);
        let ends = &self.lines[..self.lines.len().min(64)];
        let (call, told) = match how {
            0 if waits => ("take_wait", own.take_wait(end).map(Came::Message)),
            1 if waits => ("take_bytes_wait", own.take_bytes_wait(end)),
            _ if waits => ("take_any_wait", came(own.take_any_wait(ends), &mut at)),
            0 => ("take", own.take(end).map(Came::Message)),
            1 => ("take_for", own.take_for(end, time).map(Came::Message)),
            2 => ("take_any", came(own.take_any(ends), &mut at)),
            _ => ("take_any_for", came(own.take_any_for(ends, time), &mut at)),
        };
        let is_closed = matches!(told, Err(Refused::PeerClosed { .. }));
        let came = self.judge(call, told);
        if is_closed && at < self.lines.len() {
            let line = self.lines.swap_remove(at);
            return ask!(self, close(line.end)).map(|_bytes| ());
        }
        self.read(at, came?)
    }

    // A message is the next one, and of bytes it is as it was sent.
    fn read(&mut self, at: usize, came: Came) -> Option<()> {
        let line = self.lines.get_mut(at)?;
        let stamp = sent(line.name, line.counts[1]);
        line.counts[1] = line.counts[1].wrapping_add(1);
        let (word, next) = (stamp.to_le_bytes(), line.counts[1]);
        let no = match came {
            Came::Bytes { no, bytes, .. } => {
                let is_so = bytes.starts_with(&word) && bytes.ends_with(&word);
                self.claim(is_so, "other bytes came");
                no
            }
            Came::Message(Message { no, tag, items }) => {
                self.unpack(items, tag, stamp);
                no
            }
        };
        self.claim(no == next, "a message is not the next one");
        Some(())
    }

    // What came, or came back. A block has its stamp, which is read when it is picked.
    fn unpack(&mut self, items: Items, tag: u16, stamp: u64) {
        for (at, item) in items.into_iter().enumerate() {
            let stamp = stamp.wrapping_add(at as u64);
            match item {
                Item::Block(block) => drop(self.blocks.push((block, stamp))),
                Item::End(end) => drop(self.lines.push(fresh(end, tag))),
                Item::Missing => self.claim(self.round.kills, "an item is missing"),
            }
        }
    }
}
