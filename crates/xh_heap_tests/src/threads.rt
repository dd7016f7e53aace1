//! Workers and tasks that start threads.
use crate::calls::code;
use xh_heap::{End, Host, Items, Process, Refused, Starter, Team, one_arena, run};

/// A worker starts a process on a thread, that the next, and so on, as many as the plan says: each tells the one before how many
/// there are from it on.
struct Chain;

impl Host for Chain {
    type Plan = u16;

    type Task = (End, u16);

    type Answer = u64;

    fn plan<P: Process>(&self, _team: &mut Team<P>) -> Result<u16, Refused> {
        Ok(3)
    }

    fn work<P: Process>(
        &self,
        plan: &u16,
        _index: usize,
        own: &mut P,
        threads: &Starter<P, (End, u16)>,
    ) -> u64 {
        code(lengthen(own, threads, *plan).map(u64::from))
    }

    fn serve<P: Process>(
        &self,
        _plan: &u16,
        (before, left): (End, u16),
        own: &mut P,
        threads: &Starter<P, (End, u16)>,
    ) {
        if let Ok(count) = lengthen(own, threads, left) {
            let _number = own.give(&before, count.wrapping_add(1), Items::new());
        }
    }
}

/// How many processes come behind this one, which are so many.
fn lengthen<P: Process>(
    own: &mut P,
    threads: &Starter<P, (End, u16)>,
    left: u16,
) -> Result<u16, Refused> {
    if left == 0 {
        return Ok(0);
    }
    let next = own.spawn()?;
    let (end, its) = own.wire(&next)?;
    threads.start(next, (its, left.wrapping_sub(1)))?;
    Ok(own.take_wait(&end)?.tag)
}

/// A task starts the next by the plan, and all are there in the books, with what they had.
#[test]
fn a_task_starts_the_next(rt: HostRuntime) {
    const LEDGER: &str = "arena 0 1024 0 1 192 192\nprocess 0 ended 0 0\nprocess 1 ended 0 0\n\
        process 2 ended 0 0\nprocess 3 ended 0 0\nowned 0\nflight 0\nout 0";
    let closed = run(&rt, rt.alloc(), one_arena(1024), 1, &Chain).expect(&rt, "room");
    assert_eq!(rt; closed.answers.as_slice(), [3].as_slice());
    let text = format!(in rt.alloc(); "{closed}").expect(&rt, "room");
    assert_eq!(rt; text.as_str(), LEDGER);
}

/// A run of which a thread is refused ends: as a run, or by what its worker was told.
#[test]
fn threads_of_tasks(rt: HostRuntime) {
    match run(&rt, rt.alloc(), one_arena(1024), 1, &Chain) {
        Ok(closed) => {
            let answer = closed.answers.first().copied();
            assert_eq!(rt; closed.books.ledger.owned, 0);
            if answer != Some(3) {
                assert!(rt; answer == Some(1001) || answer == Some(1015));
                let _ = println!(rt; "{}", Refused::OutOfMemory);
            }
        }
        Err(refused) => {
            assert_eq!(rt; refused.name(), "OutOfMemory");
            let _ = println!(rt; "{refused}");
        }
    }
}
