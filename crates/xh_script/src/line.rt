//! The words of a line: the form that they say, and whether each is of the sort that the form asks for.
ghost use Rattle.std.specs.Prelude.{◌≡◌, ◌≤◌, ◌+◌, IfOk, length, map};
ghost use Rattle.std.specs.List.{list_all};
ghost use Rattle.xh_script.specs.inner.Stops.{WordGives};
ghost use Rattle.xh_script.specs.Grammar.{is_printable, is_skipped, is_filled, said, check_all};
ghost use Rattle.xh_script.specs.Sorts.{check};
ghost use Rattle.xh_script.specs.declared.limits.TheConstants.{MAX_WORDS};

use crate::form::{FormShape, HEADS, Sort, VERBS, form_among};
use crate::hex::bytes_at;
use crate::name::is_name;
use crate::numeral::number_between;
use crate::rows::row_at;
use crate::{FaultKind, Form, Name, Stop};
use std::alloc::Global;

/// Whether a line has printable bytes alone.
pub(crate) fn has_printable(line: &[u8]) -> bool
    ensures { result ≡ list_all is_printable line.now }
{
    line.iter().all(|b| 0x20 <= *b && *b <= 0x7e)
}

/// Whether a line says nothing.
pub(crate) fn is_skipped(line: &[u8]) -> bool
    ensures { result ≡ is_skipped line.now }
{
    match line.first() {
        Some(b) => *b == b'#',
        None => true,
    }
}

/// Whether no word is empty.
pub(crate) fn are_filled(words: &[&[u8]]) -> bool
    ensures { result ≡ list_all is_filled (map (λ w. w.now) words.now) }
{
    for word in words {
        if word.is_empty() {
            return false;
        }
    }
    true
}

/// The form that the words of a line say. Its own word is taken out of them.
pub(crate) fn take_form(words: &mut Vec<&[u8]>) -> Result<Form, Stop>
    ensures { WordGives (λ form. (form, map (λ w. w.now) words.new.items)) result (said (map (λ w. w.now) words.old.items)) }
{
    let (form, own) = match words.as_slice() {
        [] => return Err(Stop::Bad(FaultKind::BadWord)),
        [first, ..] if !is_name(first) => (form_among(HEADS, first)?, 0),
        [_, verb, ..] => (form_among(VERBS, verb)?, 1),
        [_] => return Err(Stop::Bad(FaultKind::BadCount)),
    };
    words.remove(own);
    Ok(form)
}

/// Whether a word is of a sort, or what is wrong with it.
#[tactic(auto, unfolding(crate::specs::Sorts::check), using(crate::proofs::Readings::stops_then))]
fn check(alloc: Global, sort: Sort, word: &[u8]) -> Result<(), Stop>
    ensures { WordGives (λ _. tt) result (check sort word.now) }
{
    match sort {
        Sort::Process | Sort::Block | Sort::Contract => {
            Name::read(word)?;
        }
        Sort::Number { least, most } => {
            number_between(least, most, word)?;
        }
        Sort::Bytes => {
            bytes_at(word)?;
        }
        Sort::Row => {
            row_at(alloc, word)?;
        }
    }
    Ok(())
}

/// Whether words are those that a row asks for, or what is wrong with them: their count, or the first
/// that is not of its sort.
#[tactic(auto, unfolding(crate::specs::Grammar::check_all))]
pub(crate) fn check_all(alloc: Global, shape: &FormShape, words: &[&[u8]]) -> Result<(), Stop>
    requires { (length shape.now.words + shape.now.most ≤ MAX_WORDS) × (shape.now.least ≤ shape.now.most) }
    ensures checked { WordGives (λ _. tt) result (check_all shape.now (map (λ w. w.now) words.now)) }
    ensures count { IfOk result (λ _. length words.now ≤ MAX_WORDS) }
{
    if !shape.has_count(words.len()) {
        return Err(Stop::Bad(FaultKind::BadCount));
    }
    for (i, word) in words.iter().enumerate() {
        check(alloc, shape.sort(i), word)?;
    }
    Ok(())
}
