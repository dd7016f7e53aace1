//! What is read of one record.
ghost use Rattle.std.specs.Prelude.{◌≡◌, ◌%◌, MatchOption, None, cond};
ghost use Rattle.xh_model.specs.Cover.{run_of};
ghost use Rattle.xh_model.specs.Store.{arena_of, is_known, len};
ghost use Rattle.xh_model.specs.declared.limits.TheConstants.{MAX_RECORDS};

use super::Plain;
use xh_model::limits::MAX_RECORDS;

impl Plain {
    /// Where the bytes of the record `r` (256 × arena + index) begin in its arena, and how many they
    /// are: `None` where it is free, or where there is no such record.
    pub fn extent(&self, r: u16) -> Option<(u32, u32)>
        ensures is { result ≡ cond (is_known self.now r) (run_of (r % MAX_RECORDS) (arena_of self.now r).cover) None }
        ensures length { MatchOption result (len self.now r ≡ 0) (λ run. len self.now r ≡ run.1) }
    {
        let _open = &self.records;
        if !self.knows(r) {
            return None;
        }
        self.arenas[usize::from(r / MAX_RECORDS)].extent(r % MAX_RECORDS)
    }
}
