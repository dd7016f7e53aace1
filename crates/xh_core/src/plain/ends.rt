//! The records of a channel's two ends.
ghost use Rattle.std.specs.Prelude.{◌≡◌, ◌<◌, IfOk, None, OnErr, MatchResult, Some, length};
ghost use Rattle.xh_model.specs.declared.limits.TheConstants.{PROCESSES};
ghost use Rattle.xh_model.specs.Store.{IsLawful};
ghost use Rattle.xh_core.specs.Space.{pair_tests};
ghost use Rattle.xh_core.specs.Pairing.{Paired, moved};
ghost use Rattle.xh_core.specs.Refusing.{first_refusal};

use super::Plain;
use crate::refused::Refused;
use xh_model::limits::END_BYTES;

impl Plain {
    /// The two lowest free records of an arena are claimed by the process `p` and get 32 bytes each, the halves of
    /// one run of 64. NoRecord, NoSpace and Worn; each leaves all as it was.
    pub fn allocate_ends(&mut self, p: u16, arena: u32) -> Result<(u16, u16), Refused>
        requires process { p < PROCESSES }
        requires arena { arena < length self.old.arenas }
        ensures done { IfOk result (λ ends. Paired p arena ends.0 ends.1 self.old self.new) }
        ensures tests { MatchResult result (λ _. first_refusal (pair_tests p self.old arena) ≡ None) (λ refused. first_refusal (pair_tests p self.old arena) ≡ Some refused) }
        ensures unchanged { OnErr result (self.new ≡ self.old) }
    {
        let _start = &self.records;
        let Some(r) = self.free_record(arena) else {
            return Err(Refused::NoRecord);
        };
        self.claim(p, r);
        let next = self.free_record(arena);
        self.vacate(p, r);
        let Some(t) = next else {
            return Err(Refused::NoRecord);
        };
        if let Err(refused) = self.allocate(p, r, 2 * END_BYTES) {
            return Err(refused);
        }
        self.part(p, r, t, END_BYTES);
        Ok((r, t))
    }

    /// The process `p` passes the record `t` on the direction `d`, and the process `q` accepts it; where they are one
    /// process nothing is done.
    pub fn hand_over(&mut self, p: u16, q: u16, t: u16, d: u8)
        ensures store { self.new ≡ moved p q t d self.old }
        ensures lawful { IsLawful self.new }
    {
        if p != q {
            self.pass(p, t, d);
            self.accept(q, t, d);
        }
        let _open = &self.records;
    }
}
