//! Channels are opened, for one process or between two.
ghost use Rattle.std.specs.Prelude.{◌≡◌, ◌+◌, ◌*◌, ◌<◌, Some, None, length};
ghost use Rattle.xh_serial.specs.ChannelCommands.{open_channel, wire_channel, wire_heads};
ghost use Rattle.xh_serial.specs.Commands.{IsRunning};
ghost use Rattle.xh_core.specs.Refusing.{Tested};
ghost use Rattle.xh_model.specs.declared.limits.TheConstants.{CHANNELS};

use super::Serial;
use xh_core::{Block, Contract, Refused};
use xh_model::limits::{CHANNELS, END_BYTES};

impl Serial {
    /// NoProcess and Ended of both processes, NoArena and NoChannel.
    fn check_wire(&self, p: u16, q: u16, arena: u32) -> Result<(), Refused>
        ensures { Tested (wire_heads self.now p q arena) result (λ _. IsRunning self.now p × IsRunning self.now q × (arena < length self.now.store.arenas) × (self.now.opened < CHANNELS)) }
    {
        self.check_start(p)?;
        self.check_start(q)?;
        if arena as usize >= self.plain.arenas() {
            return Err(Refused::NoArena);
        }
        if self.channels.opened() >= CHANNELS {
            return Err(Refused::NoChannel);
        }
        Ok(())
    }

    /// A channel of `p`'s, whose side 1 goes to `q`.
    fn connect(
        &mut self,
        p: u16,
        q: u16,
        arena: u32,
        contract: Option<Contract>,
    ) -> Result<(Block, Block), Refused>
        ensures { wire_channel p q arena contract self.old ≡ (result, self.new) }
    {
        self.check_wire(p, q, arena)?;
        let (r, t) = self.plain.allocate_ends(p, arena)?;
        let channel = self.channels.open(contract);
        self.blocks.bind(r, Some(2 * channel));
        self.blocks.bind(t, Some(2 * channel + 1));
        self.plain.hand_over(p, q, t, 2 * channel + 1);
        self.places.add(p, r);
        self.places.add(q, t);
        Ok((
            Block {
                rec: r,
                len: END_BYTES,
            },
            Block {
                rec: t,
                len: END_BYTES,
            },
        ))
    }

    /// A new channel, the lowest that was not opened, whose two ends `p` holds: side 0 and side 1,
    /// the halves of one run of 64 bytes of the arena. NoProcess, Ended, NoArena, NoChannel,
    /// NoRecord, NoSpace and Worn, in this order; each leaves all as it was.
    pub fn open(&mut self, p: u16, arena: u32) -> Result<(Block, Block), Refused>
        ensures { open_channel p arena None self.old ≡ (result, self.new) }
    {
        self.connect(p, p, arena, None)
    }

    /// The same, and both ends go by a contract, from its first state on.
    pub fn open_with(
        &mut self,
        p: u16,
        arena: u32,
        contract: Contract,
    ) -> Result<(Block, Block), Refused>
        ensures { open_channel p arena (Some contract) self.old ≡ (result, self.new) }
    {
        self.connect(p, p, arena, Some(contract))
    }

    /// A new channel as by `open`, of which `p` holds side 0 and `q` side 1. NoProcess and Ended of
    /// `p`, the same of `q`, and then as `open`. With `p` and `q` the same it is `open`.
    pub fn wire(&mut self, p: u16, q: u16, arena: u32) -> Result<(Block, Block), Refused>
        ensures { wire_channel p q arena None self.old ≡ (result, self.new) }
    {
        self.connect(p, q, arena, None)
    }

    /// The same, and both ends go by a contract, from its first state on.
    pub fn wire_with(
        &mut self,
        p: u16,
        q: u16,
        arena: u32,
        contract: Contract,
    ) -> Result<(Block, Block), Refused>
        ensures { wire_channel p q arena (Some contract) self.old ≡ (result, self.new) }
    {
        self.connect(p, q, arena, Some(contract))
    }
}
