//! Why a command is refused: each check makes its tests in their order.
ghost use Rattle.std.specs.Prelude.{◌≡◌, ◌*◌, ◌<◌, Some, None, true};
ghost use Rattle.std.specs.List.{list_all};
ghost use Rattle.xh_model.specs.declared.event.Holder.TheVariants.{Process};
ghost use Rattle.xh_model.specs.Store.{holds};
ghost use Rattle.xh_serial.specs.Machine.{end_of, is_current, serial_status};
ghost use Rattle.xh_serial.specs.Commands.{header_found, IsRunning};
ghost use Rattle.xh_core.specs.Calls.{data_tests, end_tests, start, stop};
ghost use Rattle.xh_core.specs.Refusing.{Tested};
ghost use Rattle.xh_serial.specs.BlockCommands.{free_refusals};
ghost use Rattle.xh_serial.specs.EndingCommands.{close_refusals, kill_refusals};
ghost use Rattle.xh_serial.specs.MessageCommands.{give_refusals, take_refusals};
ghost use Rattle.xh_serial.specs.inner.Checks.{MayGive, MayTake};

use crate::channels::peer;
use crate::list::listed;
use crate::serial::Serial;
use arrayvec::ArrayVec;
use xh_core::{Refused, is_twice};
use xh_model::Holder;
use xh_model::limits::MAX_BLOCKS;

impl Serial {
    /// NoProcess and Ended: the process is none, or does not run.
    pub(super) fn check_start(&self, p: u16) -> Result<(), Refused>
        ensures { Tested (start (serial_status self.now p)) result (λ _. IsRunning self.now p) }
    {
        self.places.status(p).check_start()
    }

    /// NoProcess and Ended: the process is none, or has ended.
    pub(super) fn check_stop(&self, p: u16) -> Result<(), Refused>
        ensures { Tested (stop (serial_status self.now p)) result (λ _. is_current self.now p ≡ true) }
    {
        self.places.status(p).check_stop()
    }

    /// What a kill tests.
    pub(super) fn check_kill(&self, by: u16, victim: u16) -> Result<(), Refused>
        ensures { Tested (kill_refusals self.now by victim) result (λ _. is_current self.now victim ≡ true) }
    {
        self.check_start(by)?;
        self.check_stop(victim)
    }

    /// NotOwned and NotEndpoint, or the direction toward the endpoint `e` of `p`.
    pub(super) fn check_end(&self, p: u16, e: u16) -> Result<u8, Refused>
        ensures { Tested (end_tests (header_found self.now p e)) result (λ d. (holds self.now.store (Process p) e ≡ true) × (end_of self.now e ≡ Some d) × (d < 2 * self.now.opened)) }
    {
        if !self.plain.holds(Holder::Process(p), e) {
            return Err(Refused::NotOwned);
        }
        match self.blocks.end(e) {
            Some(d) => Ok(d),
            None => Err(Refused::NotEndpoint),
        }
    }

    /// NotOwned and NotData of a block.
    pub(super) fn check_data(&self, p: u16, r: u16) -> Result<(), Refused>
        ensures { Tested (data_tests (header_found self.now p r)) result (λ _. (holds self.now.store (Process p) r ≡ true) × (end_of self.now r ≡ None)) }
    {
        if !self.plain.holds(Holder::Process(p), r) {
            return Err(Refused::NotOwned);
        }
        if self.blocks.end(r).is_some() {
            return Err(Refused::NotData);
        }
        Ok(())
    }

    /// What a close tests.
    pub(super) fn check_close(&self, p: u16, e: u16) -> Result<(), Refused>
        ensures { Tested (close_refusals self.now p e) result (λ _. IsRunning self.now p × (holds self.now.store (Process p) e ≡ true)) }
    {
        self.check_start(p)?;
        self.check_end(p, e)?;
        Ok(())
    }

    /// What a free tests.
    pub(super) fn check_free(&self, p: u16, r: u16) -> Result<(), Refused>
        ensures { Tested (free_refusals self.now p r) result (λ _. IsRunning self.now p × (holds self.now.store (Process p) r ≡ true) × (end_of self.now r ≡ None)) }
    {
        self.check_start(p)?;
        self.check_data(p, r)
    }

    /// Whether the process holds each of these.
    fn holds_all(&self, p: u16, blocks: &[u16]) -> bool
        ensures { result ≡ list_all (λ r. holds self.now.store (Process p) r) blocks.now }
    {
        blocks
            .iter()
            .all(|r| self.plain.holds(Holder::Process(p), *r))
    }

    /// What a take tests, or the direction that it takes from.
    pub(super) fn check_take(&self, p: u16, e: u16) -> Result<u8, Refused>
        ensures { Tested (take_refusals self.now p e) result (MayTake self.now p e) }
    {
        self.check_start(p)?;
        let d = self.check_end(p, e)?;
        if self.channels.waiting(d).is_empty() {
            if self.channels.is_shut(peer(d)) {
                return Err(Refused::PeerClosed {
                    back: ArrayVec::new(),
                });
            }
            return Err(Refused::Empty);
        }
        Ok(d)
    }

    /// What a give tests, or the direction toward `e`.
    pub(super) fn check_give(&self, p: u16, e: u16, tag: u16, blocks: &[u16]) -> Result<u8, Refused>
        ensures { Tested (give_refusals self.now p e tag blocks.now) result (MayGive self.now p e tag blocks.now) }
    {
        self.check_start(p)?;
        let d = self.check_end(p, e)?;
        if blocks.len() > MAX_BLOCKS {
            return Err(Refused::TooMany);
        }
        if !self.holds_all(p, blocks) {
            return Err(Refused::NotOwned);
        }
        if blocks.contains(&e) || is_twice(blocks) {
            return Err(Refused::Twice);
        }
        let back = listed(blocks);
        if self.channels.is_against(d, tag) {
            return Err(Refused::Protocol { back });
        }
        if self.channels.is_shut(peer(d)) {
            return Err(Refused::PeerClosed { back });
        }
        if self.channels.is_full(peer(d), self.depth) {
            return Err(Refused::Full { back });
        }
        Ok(d)
    }
}
