//! A server, and clients that come and go, at most 8 at once: each is a process on a thread of its own. Of 20 clients one goes
//! before its answer, one is killed, and one asks what the channel's contract refuses. The server lives on.
//!
//! `xh_server CLIENTS` has so many clients, and else 1,000.
#![tactic(auto)]

use std::alloc::Global;
use std::env;
use std::sync::Mutex;
use xh_heap::{
    Answered, Contract, Duration, End, Host, Items, Message, Process, Refused, Row, Starter, Team,
    one_arena, run,
};

/// Side 1, a client, asks by the tag 5; side 0, the server, answers by 6.
const TALK: &[Row] = &[
    Row {
        state: 0,
        tag: 5,
        side: 1,
        next: 1,
    },
    Row {
        state: 1,
        tag: 6,
        side: 0,
        next: 0,
    },
];

#[derive(Drop)]
struct Server {
    alloc: Global,
    clients: u32,
    // How many were answered, left, were refused, and were killed.
    ends: Mutex<[u32; 4]>,
}

// A client asks, by the process that is to be killed, itself or none: whether it waited for the answer, which came.
fn ask<P: Process>(own: &mut P, alloc: Global, server: &End, turn: u32) -> Result<bool, Refused> {
    let victim = if turn == 1 { own.number() } else { 0 };
    let mut request = Vec::from_slice(alloc, &victim.to_le_bytes())?;
    own.give_bytes_wait(server, if turn == 2 { 6 } else { 5 }, &mut request)?;
    if turn > 0 {
        own.take_wait(server)?;
    }
    Ok(turn > 0)
}

// A request is answered, unless it is to kill. Its bytes are the heap's no more, whatever comes of it.
fn answer<P: Process>(own: &mut P, client: &End, request: Message) -> Result<u64, Refused> {
    let bytes = own.into_bytes(request.block()?)?;
    match bytes.as_slice() {
        [0, 0, ..] => Ok(own.give(client, 6, Items::new())?),
        [low, high, ..] => own.kill(u16::from_le_bytes([*low, *high])),
        _ => Err(Refused::BadSize),
    }
}

impl Host for Server {
    type Plan = ();

    type Task = (End, u32);

    type Answer = Result<u32, Refused>;

    fn plan<P: Process>(&self, _team: &mut Team<P>) -> Result<(), Refused> {
        Ok(())
    }

    // Lets each client in, once there is a place, and answers all until they went: how many came.
    fn work<P: Process>(
        &self,
        _plan: &(),
        _index: usize,
        own: &mut P,
        threads: &Starter<P, (End, u32)>,
    ) -> Result<u32, Refused> {
        let (idle, _other) = own.open()?;
        let (mut ends, mut came) = (Vec::new(self.alloc), 0u32);
        for _ in own.rt().forever() {
            let is_room = came < self.clients && ends.len() < 8;
            if is_room && let Ok(client) = own.spawn() {
                let (end, its) = own.wire_with(&client, Contract::new(TALK)?)?;
                threads.start(client, (its, came % 20))?;
                ends.push(end)?;
                came = came.wrapping_add(1);
            } else if !ends.is_empty() {
                let Answered { at, answer: asked } = own.take_any_wait(&ends)?;
                match asked {
                    Ok(request) => drop(answer(own, &ends[at], request)),
                    Err(_closed) => drop(own.close(ends.swap_remove(at))?),
                }
                ends.rotate_left(1.min(ends.len()));
            } else if came < self.clients {
                let _nobody_gives = own.take_for(&idle, Duration::from_millis(1));
            } else {
                return Ok(came);
            }
        }
        unreachable!()
    }

    fn serve<P: Process>(&self, _: &(), task: (End, u32), own: &mut P, _: &Starter<P, (End, u32)>) {
        let end = match ask(own, self.alloc, &task.0, task.1) {
            Ok(true) => 0,
            Ok(false) => 1,
            Err(Refused::Ended) => 3,
            Err(_refused) => 2,
        };
        let mut ends = self.ends.lock(&own.rt());
        ends[end] = ends[end].wrapping_add(1);
    }
}

fn main(rt: HostRuntime) -> anyhow::Result<()> {
    let word = env::args(&rt)?.nth(1);
    let clients = word.and_then(|word| word.parse().ok()).unwrap_or(1_000);
    let server = Server {
        alloc: rt.alloc(),
        clients,
        ends: Mutex::new([0; 4]),
    };
    let closed = run(&rt, rt.alloc(), one_arena(65_536).checked()?, 1, &server)?;
    let ledger = &closed.books.ledger;
    let [answered, left, refused, killed] = *server.ends.lock(&rt);
    println!(rt; "clients {:?}\nanswered {answered}", closed.answers)?;
    println!(rt; "left {left}\nrefused {refused}\nkilled {killed}")?;
    println!(rt; "owned {}\nflight {}", ledger.owned, ledger.flight)?;
    Ok(())
}
