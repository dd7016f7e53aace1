//! Names of processes and of blocks.
ghost use Rattle.std.specs.Prelude.{◌≡◌, ◌≤◌, List, ℕ, length};
ghost use Rattle.xh_script.specs.Words.{is_name, is_keyword, is_name_byte};
ghost use Rattle.xh_script.specs.Sorts.{name_at};
ghost use Rattle.std.specs.List.{list_all};
ghost use Rattle.xh_script.specs.declared.limits.TheConstants.{MAX_NAME};

use crate::FaultKind;
use crate::limits::MAX_NAME;
use arrayvec::ArrayVec;
use std::marker::Model;

/// A name: a lower-case letter, and then such letters or digits, 16 in all at most.
#[derive(Drop)]
pub struct Name {
    letters: ArrayVec<u8, MAX_NAME>,
}

impl Model for Name {
    ghost Value = { List ℕ };

    ghost view = { λ n. n.letters.items };
}

impl Default for Name {
    fn default() -> Name {
        Name {
            letters: ArrayVec::new(),
        }
    }
}

fn is_keyword(word: &[u8]) -> bool
    ensures { result ≡ is_keyword word.now }
{
    word == b"process".as_slice() || word == b"wire".as_slice() || word == b"contract".as_slice()
}

fn has_name_bytes(word: &[u8]) -> bool
    ensures { result ≡ list_all is_name_byte word.now }
{
    word.iter()
        .all(|b| b.is_ascii_lowercase() || b.is_ascii_digit())
}

/// Whether a word is a name.
pub(crate) fn is_name(word: &[u8]) -> bool
    ensures { result ≡ is_name word.now }
{
    !word.is_empty()
        && word.len() <= MAX_NAME
        && word[0].is_ascii_lowercase()
        && has_name_bytes(word)
        && !is_keyword(word)
}

/// The same bytes once more.
fn copy_of<const N: usize>(bytes: &[u8]) -> ArrayVec<u8, N>
    requires { length bytes.now ≤ N }
    ensures { result.items ≡ bytes.now }
{
    let mut copy = ArrayVec::new();
    let _ = copy.try_extend_from_slice(bytes);
    copy
}

impl Name {
    /// The name that a word is, else `BadWord`.
    #[tactic(auto, unfolding(crate::specs::Sorts::name_at))]
    pub fn read(word: &[u8]) -> Result<Name, FaultKind>
        ensures { result ≡ name_at word.now }
    {
        if !is_name(word) {
            return Err(FaultKind::BadWord);
        }
        Ok(Name {
            letters: copy_of(word),
        })
    }

    /// Its letters.
    pub fn as_bytes(&self) -> &[u8]
        ensures { result.now ≡ self.now }
    {
        &self.letters
    }

    /// The same name once more.
    pub fn copy(&self) -> Name
        ensures { result ≡ self.now }
    {
        Name {
            letters: copy_of(self.letters.as_slice()),
        }
    }
}
