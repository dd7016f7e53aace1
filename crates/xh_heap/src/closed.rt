//! What a run leaves.

use std::fmt::{self, Formatter, Write};
use xh_books::Books;
use xh_kernel::{write_arenas, write_place};

/// What a run answers: the job's plan, what each worker answered, by index, and the closed books. As a text it is the
/// ledger: a line for each arena (its number, size, bytes out, holes, bytes ever taken, bytes ever given back), one for
/// each place that was used (the number of its latest process, its state, blocks, bytes), and the sums in bytes: what
/// processes own, what is in flight, and what is out.
#[derive(Debug, Drop)]
pub struct Closed<P, A> {
    pub plan: P,
    pub answers: Vec<A>,
    pub books: Books,
}

impl<P, A> fmt::Display for Closed<P, A> {
    fn fmt<W: Write>(&self, f: &mut Formatter<W>) -> fmt::Result {
        let ledger = &self.books.ledger;
        write_arenas(f, ledger.arenas.as_slice())?;
        for line in ledger.places.iter() {
            write_place(f, line)?;
            writeln!(f)?;
        }
        let (owned, flight, out) = (ledger.owned, ledger.flight, ledger.out);
        write!(f, "owned {owned}\nflight {flight}\nout {out}")
    }
}
