//! Hexadecimal digits.
ghost use Rattle.std.specs.Prelude.{◌≡◌, ◌≤◌, ◌*◌, length};
ghost use Rattle.std.specs.List.{list_all};
ghost use Rattle.xh_script.specs.Words.{is_hex_letter, is_hex_digit, is_hex, hex_value, hex_bytes};
ghost use Rattle.xh_script.specs.Sorts.{bytes_at};
ghost use Rattle.xh_script.specs.declared.limits.TheConstants.{MAX_HEX};

use crate::FaultKind;
use crate::limits::MAX_HEX;
use arrayvec::ArrayVec;

fn is_hex_digit(b: u8) -> bool
    ensures { result ≡ is_hex_digit b }
{
    b.is_ascii_digit() || (b'a' <= b && b <= b'f')
}

fn has_hex_digits(word: &[u8]) -> bool
    ensures { result ≡ list_all is_hex_digit word.now }
{
    word.iter().all(|b| is_hex_digit(*b))
}

/// Whether a word is hexadecimal digits in lower case, two for each byte, of one byte or more.
fn is_hex(word: &[u8]) -> bool
    ensures { result ≡ is_hex word.now }
{
    2 <= word.len() && word.len() <= 2 * MAX_HEX && word.len() % 2 == 0 && has_hex_digits(word)
}

/// What a hexadecimal digit says.
fn hex_value(b: u8) -> u8
    ensures is { result ≡ hex_value b }
    ensures small { result ≤ 15 }
{
    if b.is_ascii_digit() {
        b - b'0'
    } else if b'a' <= b && b <= b'f' {
        b - b'a' + 10
    } else {
        0
    }
}

/// The bytes that pairs of hexadecimal digits say.
fn hex_bytes(word: &[u8]) -> ArrayVec<u8, MAX_HEX>
    requires { length word.now ≤ 2 * MAX_HEX }
    ensures { result.items ≡ hex_bytes word.now }
{
    let mut bytes = ArrayVec::new();
    for i in 0..word.len() / 2 {
        bytes.push(16 * hex_value(word[2 * i]) + hex_value(word[2 * i + 1]));
    }
    bytes
}

/// The bytes that a word says in hexadecimal digits.
#[tactic(auto, unfolding(crate::specs::Sorts::bytes_at))]
pub(crate) fn bytes_at(word: &[u8]) -> Result<ArrayVec<u8, MAX_HEX>, FaultKind>
    ensures { result ≡ bytes_at word.now }
{
    if is_hex(word) {
        Ok(hex_bytes(word))
    } else {
        Err(FaultKind::BadHex)
    }
}
