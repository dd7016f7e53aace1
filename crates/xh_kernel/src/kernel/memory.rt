//! A process waits for memory of an arena.
ghost use Rattle.std.specs.Prelude.{◌≡◌, ◌≢◌, IfErr, true};
ghost use Rattle.xh_core.specs.declared.refused.Refused.TheVariants as refused;
ghost use Rattle.xh_kernel.specs.Did.{DidAlloc};
ghost use Rattle.xh_kernel.specs.Waits.{AtLastOf, IsNoMemory};

use crate::account::Account;
use crate::kernel::Kernel;
use crate::looking::bell_of;
use crate::overview::Awaited;
use crate::until::Until;
use std::alloc::Global;
use std::sync::Wait;
use xh_calls::{Lack, Names};
use xh_core::{Block, Refused};
use xh_place::Gate;

impl<N: Names> Kernel<N> {
    // The bell of the process's place as it is; who vacates what it lacks of the arena, and its end, ring it after that.
    fn hear<R: Wait>(&self, rt: &R, p: u16, arena: u32, lack: Lack) -> u64 {
        let mut held = self.held(rt, p);
        let heap = &self.shared.heap;
        let seen = heap.channels.bell(rt, bell_of(p));
        held.waits.bell = true;
        heap.waiters.wait(arena, bell_of(p), lack);
        seen
    }

    /// As `alloc`; where the arena has no free record or no space, it waits until a record of it is vacated, or until a time, without
    /// a lock, and asks again. Each asking in vain stands in the place's history. A process that ends meanwhile is answered Ended.
    /// That memory comes isn't promised. A clock that can't be read ends the wait too.
    ///
    /// NoProcess, Ended, NoArena, BadSize, OutOfMemory, Worn; NoRecord and NoSpace once the time is past.
    pub fn alloc_until<R: Wait, G: Gate, U: Until<R>>(
        &self,
        rt: &R,
        alloc: Global,
        p: u16,
        n: u32,
        arena: u32,
        until: &U,
        account: &mut Account<N>,
        gate: &G,
    ) -> Result<Block, Refused>
        ensures calls { AtLastOf (DidAlloc N.parts N.leads p n arena) IsNoMemory result account.old account.new }
        ensures waits { U.never ≡ true → IfErr result (λ why. (why ≢ refused.NoRecord) × (why ≢ refused.NoSpace)) }
    {
        // what it last found lacking, and now waits for: an alloc that finds memory at once waits for nothing
        let mut lack = None;
        for _ in rt.forever() {
            let past = until.is_past(rt);
            let seen = match lack {
                Some(lack) => self.hear(rt, p, arena, lack),
                None => 0,
            };
            let answer = self.alloc(rt, alloc, p, n, arena, account, gate);
            let lacking = Lack::of(&answer);
            let Some(found) = lacking else {
                return answer;
            };
            if past {
                return answer;
            }
            if lack == lacking {
                self.sleep(rt, until, p, Awaited::Memory { arena }, seen);
            }
            lack = Some(found);
        }
        unreachable!()
    }
}
