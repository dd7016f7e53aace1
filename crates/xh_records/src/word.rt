//! The one encoding of owner words.
ghost use Rattle.std.specs.Prelude.{◌≡◌, IfSome, IfNone, Some};
ghost use Rattle.xh_model.specs.Words.{word_of, IsHolder, IsWord};

use xh_model::limits::{DIRECTIONS, PROCESSES};

/// What an owner word says of its record.
#[derive(Clone, Copy, Debug, PartialEq, Eq)]
pub enum OwnerWord {
    /// Nobody holds it.
    Free,
    /// The process of this number does, 0 to 65,503.
    Owned(u16),
    /// It is in flight on this direction, 0 to 127.
    InFlight(u8),
}

impl OwnerWord {
    ghost use Rattle.xh_records.specs.Encoding.{holder_of};

    /// The word: its kind, and four times its number.
    pub fn encode(self) -> u64
        ensures { result ≡ word_of (holder_of self) }
    {
        match self {
            OwnerWord::Free => 0,
            OwnerWord::Owned(process) => 1 + 4 * u64::from(process),
            OwnerWord::InFlight(direction) => 2 + 4 * u64::from(direction),
        }
    }

    /// What the word says, or nothing where no record ever has that word.
    pub fn decode(word: u64) -> Option<OwnerWord>
        ensures some { IfSome result (λ w. IsHolder (holder_of w) × (word ≡ word_of (holder_of w))) }
        ensures none { IfNone result (IsWord word → ⊥) }
        ensures round_trip { (w : OwnerWord) → IsHolder (holder_of w) → word ≡ word_of (holder_of w) → result ≡ Some w }
    {
        let number = word / 4;
        match word % 4 {
            0 if number == 0 => Some(OwnerWord::Free),
            1 if number < u64::from(PROCESSES) => Some(OwnerWord::Owned(number as u16)),
            2 if number < u64::from(DIRECTIONS) => Some(OwnerWord::InFlight(number as u8)),
            _ => None,
        }
    }
}
