//! Numbers.
ghost use Rattle.std.specs.Prelude.{◌≡◌, ◌<◌, ◌≤◌, length, IfOk};
ghost use Rattle.std.specs.List.{list_all};
ghost use Rattle.xh_script.specs.Words.{is_digit, has_no_zero_in_front, is_numeral, value_of};
ghost use Rattle.xh_script.specs.Sorts.{number_between};
ghost use Rattle.xh_script.specs.declared.limits.TheConstants.{MAX_DIGITS};

use crate::FaultKind;
use crate::limits::MAX_DIGITS;

fn has_no_zero_in_front(word: &[u8]) -> bool
    requires { 0 < length word.now }
    ensures { result ≡ has_no_zero_in_front word.now }
{
    word.len() == 1 || word[0] != b'0'
}

fn has_digits(word: &[u8]) -> bool
    ensures { result ≡ list_all is_digit word.now }
{
    word.iter().all(|b| b.is_ascii_digit())
}

/// Whether a word is digits, with no zero in front of others.
fn is_numeral(word: &[u8]) -> bool
    ensures { result ≡ is_numeral word.now }
{
    !word.is_empty() && word.len() <= MAX_DIGITS && has_no_zero_in_front(word) && has_digits(word)
}

/// What digits say.
fn value_of(digits: &[u8]) -> u64
    requires { length digits.now ≤ MAX_DIGITS }
    ensures { result ≡ value_of digits.now }
{
    let mut value = 0u64;
    for b in digits {
        value = value * 10 + u64::from(b.saturating_sub(b'0'));
    }
    value
}

/// The number that a word is, if it is in this range.
#[tactic(auto, unfolding(crate::specs::Sorts::number_between))]
pub(crate) fn number_between(low: u32, high: u32, word: &[u8]) -> Result<u32, FaultKind>
    ensures is { result ≡ number_between low high word.now }
    ensures within { IfOk result (λ n. n ≤ high) }
{
    if !is_numeral(word) {
        return Err(FaultKind::BadNumber);
    }
    let number = value_of(word);
    if u64::from(low) <= number && number <= u64::from(high) {
        Ok(number as u32)
    } else {
        Err(FaultKind::BadNumber)
    }
}
