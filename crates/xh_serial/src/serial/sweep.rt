//! Reclaiming: entry by entry, as far as a budget goes.
ghost use Rattle.std.specs.Prelude.{◌≡◌, ◌+◌, ◌≤◌, ◌<◌, true, length};
ghost use Rattle.xh_model.specs.Store.{all_out};
ghost use Rattle.xh_model.specs.declared.limits.TheConstants.{MAX_HELD};
ghost use Rattle.xh_serial.specs.Machine.{blocks, is_current};
ghost use Rattle.xh_serial.specs.Sweeping.{sweep, sweep_one};

use crate::serial::Serial;
use crate::several::accept_from;

impl Serial {
    /// How many records `p` holds.
    pub(super) fn count(&self, p: u16) -> usize
        requires { is_current self.now p ≡ true }
        ensures value { result ≡ length (blocks self.now p) }
        ensures fits { result ≤ MAX_HELD }
    {
        self.places.blocks(p).len()
    }

    /// The entry at `from` of the list of `p` is swept. The bytes given back.
    pub(super) fn sweep_one(&mut self, p: u16, from: usize) -> u32
        requires { from < length (blocks self.old p) }
        ensures is { self.new ≡ sweep_one p from self.old }
        ensures bytes { result + all_out self.new.store ≡ all_out self.old.store }
        ensures current { is_current self.new p ≡ true }
    {
        let r = self.places.blocks(p)[from];
        let end = self.blocks.end(r);
        let came = self.channels.shut(end);
        accept_from(&mut self.plain, p, end, came.as_slice());
        self.places.add_all(p, came.as_slice());
        let bytes = self.plain.discard(p, r);
        self.blocks.bind(r, None);
        self.places.remove_at(p, from);
        bytes
    }

    /// The list of `p` is swept from `from` on, as far as the budget goes. The bytes given back.
    pub(super) fn sweep(&mut self, p: u16, from: usize, budget: u32) -> u64
        requires { is_current self.old p ≡ true }
        ensures is { self.new ≡ sweep p from budget self.old }
        ensures bytes { result + all_out self.new.store ≡ all_out self.old.store }
        ensures current { is_current self.new p ≡ true }
    {
        let mut bytes = 0u64;
        let mut left = budget;
        while left > 0 && from < self.count(p) {
            bytes += u64::from(self.sweep_one(p, from));
            left -= 1;
        }
        bytes
    }
}
