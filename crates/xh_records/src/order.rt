ghost use Rattle.std.specs.Prelude.{◌≡◌, ◌<◌, ◌≤◌, [], ◌∷◌, ◌++◌, length, IfOk};
ghost use Rattle.std.specs.List.{remove};

use std::alloc::{AllocError, Global};
use std::marker::Model;

/// Numbers in the order in which they came. The first one goes without a move of the others.
#[derive(Drop)]
pub struct Order {
    all: Vec<u16>,
    // Those before it are gone.
    start: usize,
}

impl Model for Order {
    ghost use Rattle.std.specs.Prelude.{◌≤◌, drop};
    ghost use Rattle.std.specs.Vec.{vec_capacity, vec_len};
    ghost use Rattle.xh_records.specs.Order.{OrderOf};

    ghost Value = { OrderOf };

    ghost view = { λ o. record { items = drop o.start o.all.items; capacity = vec_capacity o.all } };

    ghost invariant = { λ o. o.start ≤ vec_len o.all };
}

impl Order {
    /// No number, and room for so many. OutOfMemory where the growth was refused.
    pub fn with_capacity(alloc: Global, capacity: usize) -> Result<Order, AllocError>
        ensures { IfOk result (λ o. o ≡ record { items = []; capacity = capacity }) }
    {
        let all = Vec::with_capacity(alloc, capacity)?;
        Ok(Order { all, start: 0 })
    }

    /// How many numbers there are.
    pub fn len(&self) -> usize
        ensures { result ≡ length self.now.items }
    {
        self.all.len() - self.start
    }

    /// The numbers.
    pub fn as_slice(&self) -> &[u16]
        ensures { result.now ≡ self.now.items }
    {
        &self.all[self.start..]
    }

    /// Puts a number behind the others. Where the room at the end is used up, that of the numbers that
    /// are gone is taken.
    pub fn push_reserved(&mut self, number: u16)
        requires { length self.old.items < self.old.capacity }
        ensures items { self.new.items ≡ self.old.items ++ number ∷ [] }
        ensures capacity { self.new.capacity ≡ self.old.capacity }
    {
        if self.all.len() == self.all.capacity() {
            drop(self.all.drain(..self.start));
            self.start = 0;
        }
        self.all.push_reserved(number);
    }

    /// Takes the number at an index out.
    pub fn remove(&mut self, k: usize)
        requires { k < length self.old.items }
        ensures items { self.new.items ≡ remove self.old.items k }
        ensures capacity { self.new.capacity ≡ self.old.capacity }
    {
        if k == 0 {
            self.start += 1;
            return;
        }
        self.all.remove(self.start + k);
    }
}
