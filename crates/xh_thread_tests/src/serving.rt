//! A server of eight clients, on nine threads. Each client is killed once it was answered often enough, with a request on its
//! way, and another takes its place.
use crate::machines::{Case, Runtime, SharedMachine, arena_of, on_new_kernel};
use std::alloc::Global;
use std::sync::Wait;
use std::sync::atomic::AtomicU64;
use std::sync::atomic::Ordering::SeqCst;
use std::thread;
use xh_core::Refused;

const CLIENTS: usize = 8;

const REQUESTS: u16 = 128;

/// A client's process, its end, and the server's.
#[derive(Clone, Copy)]
struct Client {
    p: u16,
    e: u16,
    theirs: u16,
}

/// What the threads share: the server's process, the first clients, the ends of those that are new, each above 2^16, and how many
/// requests were answered.
#[derive(Drop)]
struct ServerBoard {
    server: u16,
    first: Vec<Client>,
    new: Vec<AtomicU64>,
    answered: AtomicU64,
}

fn enter<W: SharedMachine>(worker: &mut W, server: u16) -> Result<Client, Refused> {
    let p = worker.spawn()?;
    let (mine, other) = worker.wire(p, server, 0, None)?;
    Ok(Client {
        p,
        e: mine.rec,
        theirs: other.rec,
    })
}

fn make_board<W: SharedMachine>(alloc: Global, worker: &mut W) -> Result<ServerBoard, Refused> {
    let server = worker.spawn()?;
    let mut first = Vec::with_capacity(alloc, CLIENTS)?;
    let mut new = Vec::with_capacity(alloc, CLIENTS)?;
    for _ in 0..CLIENTS {
        first.push(enter(worker, server)?)?;
        new.push(AtomicU64::new(0))?;
    }
    Ok(ServerBoard {
        server,
        first,
        new,
        answered: AtomicU64::new(0),
    })
}

// Asks so often, each time once it was answered. How often the answer was right.
fn ask<W: SharedMachine>(worker: &mut W, client: Client) -> u64 {
    let Client { p, e, theirs: _ } = client;
    let mut right = 0;
    for tag in 0..REQUESTS {
        let _given = worker.give(p, e, tag, &[]);
        if worker.take_first(p, e, None) != (0, tag, "") {
            break;
        }
        right = u64::from(tag) + 1;
    }
    let _unanswered = worker.give(p, e, REQUESTS, &[]);
    right
}

// A client asks, another enters, the first is killed, and the other does as the first did.
fn be_clients<W: SharedMachine>(worker: &mut W, board: &ServerBoard, at: usize) {
    let (Some(first), Some(new)) = (board.first.get(at).copied(), board.new.get(at)) else {
        return;
    };
    board.answered.fetch_add(ask(worker, first), SeqCst);
    let entered = enter(worker, board.server);
    if let Ok(second) = &entered {
        new.store(65_536 + u64::from(second.theirs), SeqCst);
    }
    let _killed = worker.kill(board.server, first.p, 4096);
    if let Ok(second) = entered {
        board.answered.fetch_add(ask(worker, second), SeqCst);
        let _killed = worker.kill(board.server, second.p, 4096);
    }
}

// The server's ends of the clients that have entered come to the list.
fn admit(board: &ServerBoard, ends: &mut Vec<u16>) {
    for new in &board.new {
        let end = new.swap(0, SeqCst);
        if end != 0 {
            let _full = ends.push((end % 65_536) as u16);
        }
    }
}

// Answers each request with its tag, until the last client is gone.
fn serve<W: SharedMachine, R: Wait>(
    rt: &R,
    worker: &mut W,
    board: &ServerBoard,
    ends: &mut Vec<u16>,
) -> Result<(), Refused> {
    for _ in rt.forever() {
        if ends.is_empty() {
            break;
        }
        let (at, tag, refused) = worker.take_any_wait(board.server, ends, None);
        let Some(e) = ends.get(at).copied() else {
            break;
        };
        if refused == "" {
            let _gone = worker.give(board.server, e, tag, &[]);
            ends.rotate_left(1);
        } else {
            worker.close(board.server, e)?;
            ends.retain(|end| *end != e);
            admit(board, ends);
        }
    }
    Ok(())
}

fn be_server<W: SharedMachine, R: Wait>(
    rt: &R,
    alloc: Global,
    worker: &mut W,
    board: &ServerBoard,
) -> Result<(), Refused> {
    let mut ends = Vec::with_capacity(alloc, 2 * CLIENTS)?;
    for client in &board.first {
        ends.push(client.theirs)?;
    }
    serve(rt, worker, board, &mut ends)
}

/// Each of nine other workers has a thread, the last the server's. Each request was answered.
pub fn assert_served<W: SharedMachine, R: Runtime>(rt: &R, alloc: Global, workers: &mut [W]) {
    let Some((mine, others)) = workers.split_first_mut() else {
        panic!(rt; "no worker");
    };
    let board = make_board(alloc, mine).expect(rt, "clients");
    thread::for_each_mut(
        rt,
        others,
        9,
        &|at, worker| {
            if at < CLIENTS {
                be_clients(worker, &board, at);
            } else {
                let _served = be_server(rt, alloc, worker, &board);
            }
        },
    );
    assert_eq!(rt; board.answered.load(SeqCst), 2 * 8 * u64::from(REQUESTS));
}

/// A server takes at the ends of its clients, some of which are killed and replaced.
#[test]
fn clients_are_served(rt: HostRuntime) {
    let ledger = on_new_kernel(&rt, rt.alloc(), arena_of(4096, 64), 10, Case::Serves);
    assert!(&rt; ledger.is_ok());
}
