//! Messages: give and take.
ghost use Rattle.std.specs.Prelude.{◌≡◌, ℕ, ◌-◌, ◌/◌, ◌%◌, ◌<◌, IfOk, IsSome};
ghost use Rattle.xh_serial.specs.Lines.{IsNumbered, contract_of, line, next_state};
ghost use Rattle.xh_serial.specs.Commands.{toward};
ghost use Rattle.xh_serial.specs.MessageCommands.{HasOrderlyLines, give, take};

use crate::channels::peer;
use crate::message::Taken;
use crate::serial::Serial;
use crate::several::{accept_all, describe, pass_all};
use xh_core::Refused;

impl Serial {
    /// Between any two calls: under a contract the front message toward each end is one that its state allows, and
    /// messages wait for one of the two ends at most; in each direction the numbers of those that wait are consecutive.
    pub fn lines_are_orderly(&self)
        ensures orderly { HasOrderlyLines self.now }
        ensures numbered { (d : ℕ) → IsNumbered (line self.now.lines d) }
    {
        let _open = &self.plain;
    }

    /// Puts a message at the back of the direction toward the other end. Its number there.
    ///
    /// NoProcess, Ended, NotOwned and NotEndpoint of `e`, TooMany (8 blocks at most), NotOwned of a
    /// block, Twice, Protocol, PeerClosed, Full. The last three hand all the blocks back.
    #[tactic(auto, unfolding(crate::specs::MessageCommands::give))]
    pub fn give(&mut self, p: u16, e: u16, tag: u16, blocks: &[u16]) -> Result<u64, Refused>
        ensures { give p e tag blocks.now self.old ≡ (result, self.new) }
    {
        let _start = &self.plain;
        let own = self.check_give(p, e, tag, blocks)?;
        let to = peer(own);
        pass_all(&mut self.plain, p, to, blocks);
        self.places.remove_all(p, blocks);
        self.channels.tell(own, tag);
        Ok(self.channels.put(to, tag, blocks))
    }

    /// Takes the first message of the direction toward `e`; its blocks are the taker's now.
    ///
    /// NoProcess, Ended, NotOwned, NotEndpoint, and where nothing waits PeerClosed or Empty.
    #[tactic(auto, unfolding(crate::specs::MessageCommands::take))]
    pub fn take(&mut self, p: u16, e: u16) -> Result<Taken, Refused>
        ensures is { take p e self.old ≡ (result, self.new) }
        ensures allowed { IfOk result (λ taken.
            IsSome (next_state (contract_of self.old.contracts (toward self.old e)) (1 - toward self.old e % 2) (line self.old.lines (toward self.old e)).state taken.tag)) }
    {
        let _start = &self.plain;
        let d = self.check_take(p, e)?;
        let message = self.channels.take_front(d);
        let blocks = describe(&self.plain, &message.blocks);
        accept_all(&mut self.plain, p, d, message.blocks.as_slice());
        self.places.add_all(p, message.blocks.as_slice());
        Ok(Taken {
            no: message.no,
            tag: message.tag,
            blocks,
        })
    }

    /// The same: on this heap nothing waits, so Empty is answered where `take` answers it.
    pub fn take_wait(&mut self, p: u16, e: u16) -> Result<Taken, Refused>
        ensures is { take p e self.old ≡ (result, self.new) }
        ensures allowed { IfOk result (λ taken.
            IsSome (next_state (contract_of self.old.contracts (toward self.old e)) (1 - toward self.old e % 2) (line self.old.lines (toward self.old e)).state taken.tag)) }
    {
        self.take(p, e)
    }
}
