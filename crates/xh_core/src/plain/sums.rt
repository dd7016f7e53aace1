//! The bytes that a plain machine has handed out.
ghost use Rattle.std.specs.Prelude.{◌≡◌, ◌≤◌, length};
ghost use Rattle.std.specs.List.{sum_by};
ghost use Rattle.xh_model.specs.declared.limits.TheConstants.{MAX_ARENAS};
ghost use Rattle.xh_model.specs.Cover.{bytes_out};
ghost use Rattle.xh_model.specs.Store.{all_out};

use crate::plain::Plain;
use xh_arena::Arena;

/// The bytes handed out, over these arenas.
fn sum_of(arenas: &[Arena]) -> u64
    requires { length arenas.now ≤ MAX_ARENAS }
    ensures { result ≡ sum_by (λ a. bytes_out a.cover) arenas.now }
{
    let mut sum = 0u64;
    for arena in arenas {
        sum += u64::from(arena.handed_out());
    }
    sum
}

impl Plain {
    /// The bytes handed out now, over all arenas.
    pub fn handed_out(&self) -> u64
        ensures { result ≡ all_out self.now }
    {
        sum_of(&self.arenas)
    }
}
