//! Names in the order in which they first come.
ghost use Rattle.std.specs.Prelude.{◌≡◌, ◌≤◌, ◌<◌, [], IfOk, IfSome, length};
ghost use Rattle.xh_script.specs.inner.Stops.{WordGives};
ghost use Rattle.xh_script.specs.Names.{number_in, entered};
ghost use Rattle.xh_script.specs.declared.limits.TheConstants.{MAX_BLOCK_NAMES};

use crate::{FaultKind, Name, Stop};
use std::alloc::Global;
use std::marker::Model;

/// Different names, at most as many as a process has for its blocks. The number of a name is its place among them.
#[derive(Drop)]
pub(crate) struct NameTable {
    names: Vec<Name>,
}

impl Model for NameTable {
    ghost use Rattle.std.specs.Prelude.{◌≤◌, ℕ, List, length};
    ghost use Rattle.xh_script.specs.declared.limits.TheConstants.{MAX_BLOCK_NAMES};

    ghost Value = { List (List ℕ) };

    ghost view = { λ n. n.names.items };

    ghost invariant = { λ n. length n.names.items ≤ MAX_BLOCK_NAMES };
}

impl NameTable {
    /// No names.
    pub(crate) fn new(alloc: Global) -> NameTable
        ensures { result ≡ [] }
    {
        NameTable {
            names: Vec::new(alloc),
        }
    }

    /// The number of a name that is among these.
    pub(crate) fn number(&self, name: &Name) -> Option<u8>
        ensures is { result ≡ number_in self.now name.now }
        ensures within { IfSome result (λ n. n < length self.now) }
    {
        for number in 0..self.names.len() {
            if self.names[number].as_bytes() == name.as_bytes() {
                return Some(number as u8);
            }
        }
        None
    }

    /// The number of a name, which comes behind the others if it is new.
    #[tactic(auto, unfolding(crate::specs::Names::entered))]
    pub(crate) fn enter(&mut self, most: usize, name: &Name) -> Result<u8, Stop>
        requires { most ≤ MAX_BLOCK_NAMES }
        ensures gives { WordGives (λ n. (n, self.new)) result (entered most self.old name.now) }
        ensures within { length self.old ≤ most → IfOk result (λ n. n < most) }
        ensures short { length self.old ≤ most → length self.new ≤ most }
    {
        if let Some(number) = self.number(name) {
            return Ok(number);
        }
        let number = self.names.len();
        if number >= most {
            return Err(Stop::Bad(FaultKind::TooLong));
        }
        self.names.push(name.copy())?;
        Ok(number as u8)
    }

    /// The names in their order.
    pub(crate) fn into_names(self) -> Vec<Name>
        ensures { result.items ≡ self }
    {
        self.names
    }
}
