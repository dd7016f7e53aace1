//! The ledger's lines of the arenas.
ghost use Rattle.std.specs.Prelude.{◌≡◌, ◌+◌, ◌≤◌, All, length, map};
ghost use Rattle.xh_model.specs.declared.limits.TheConstants.{MAX_ARENAS};
ghost use Rattle.xh_core.specs.ArenaLines.{arena_line};
ghost use Rattle.xh_core.specs.Wearing.{IsWithinWear};

use crate::ledger::{ARENA_LINES, ArenaLine};
use crate::plain::Plain;
use arrayvec::ArrayVec;
use xh_arena::Arena;

fn arena_line(arena: &Arena) -> ArenaLine
    requires { IsWithinWear arena.now }
    ensures line { result ≡ arena_line arena.now }
    ensures sum { result.out + result.back ≡ result.taken }
{
    let out = arena.handed_out();
    let taken = arena.wear();
    ArenaLine {
        size: arena.size(),
        out,
        holes: arena.holes().len() as u32,
        taken,
        back: taken - u64::from(out),
    }
}

fn lines_of(arenas: &[Arena]) -> ArrayVec<ArenaLine, ARENA_LINES>
    requires few { length arenas.now ≤ MAX_ARENAS }
    requires carved { All IsWithinWear arenas.now }
    ensures lines { result.items ≡ map arena_line arenas.now }
    ensures sums { All (λ line. line.out + line.back ≡ line.taken) result.items }
{
    let mut lines = ArrayVec::new();
    for arena in arenas {
        lines.push(arena_line(arena));
    }
    lines
}

impl Plain {
    /// A line for each arena.
    pub fn arena_lines(&self) -> ArrayVec<ArenaLine, ARENA_LINES>
        ensures lines { result.items ≡ map arena_line self.now.arenas }
        ensures sums { All (λ line. line.out + line.back ≡ line.taken) result.items }
    {
        lines_of(&self.arenas)
    }
}
