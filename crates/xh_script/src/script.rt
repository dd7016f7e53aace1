//! Scripts, and how they are read.
ghost use Rattle.std.specs.Prelude.{◌≤◌, ◌==◌, length};
ghost use Rattle.xh_script.specs.Scripts.{at_line, after_line, after_lines, nothing_read, script_of, listing_of, ReadingGives};
ghost use Rattle.std.specs.List.{slice_split};
ghost use Rattle.xh_script.specs.declared.limits.TheConstants.{MAX_SCRIPT};

use crate::limits::{MAX_COMMANDS, MAX_SCRIPT};
use crate::so_far::SoFar;
use crate::split::pieces;
use crate::{Fault, FaultKind, Line, Name, Stop};
use std::alloc::Global;
use xh_core::Contract;

/// The commands of a script in order, the names of its processes by number, and its contracts by
/// number.
#[derive(Drop)]
pub struct Script {
    pub lines: Vec<Line>,
    pub processes: Vec<Name>,
    pub contracts: Vec<Contract>,
}

/// Reads one more line, and gives its number with a fault.
fn read_line(alloc: Global, so_far: &mut SoFar, number: u32, line: &[u8]) -> Result<(), Fault>
    ensures { ReadingGives (λ _. so_far.new) result (at_line number (after_line so_far.old number line.now)) }
{
    match so_far.read(alloc, number, line) {
        Ok(()) => Ok(()),
        Err(Stop::Bad(kind)) => Err(Fault::Script { line: number, kind }),
        Err(Stop::Memory) => Err(Fault::Memory),
    }
}

/// Reads all lines of a text.
fn read_lines(alloc: Global, text: &[u8]) -> Result<SoFar, Fault>
    requires { length text.now ≤ MAX_SCRIPT }
    ensures { ReadingGives (λ r. r) result (after_lines nothing_read 1 (slice_split (λ b. b == 10) text.now)) }
{
    let lines = pieces(alloc, text, b'\n')?;
    let mut so_far = SoFar::new(alloc, lines.len().min(MAX_COMMANDS))?;
    for (i, line) in lines.iter().enumerate() {
        read_line(alloc, &mut so_far, i as u32 + 1, line)?;
    }
    Ok(so_far)
}

/// The script that a text is: its commands, the names of its processes and its contracts. A fault
/// is that of the lowest line with one; `Memory` comes only where a growth was refused.
#[tactic(auto, unfolding(crate::specs::Scripts::script_of), using(crate::proofs::Readings::fails_then))]
pub fn read_script(alloc: Global, text: &[u8]) -> Result<Script, Fault>
    ensures { ReadingGives listing_of result (script_of text.now) }
{
    if text.len() > MAX_SCRIPT {
        return Err(Fault::Script {
            line: 0,
            kind: FaultKind::TooLong,
        });
    }
    let so_far = read_lines(alloc, text)?;
    Ok(so_far.into_script())
}
