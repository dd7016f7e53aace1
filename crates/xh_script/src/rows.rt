//! Rows of contracts, and the contracts that they are.
ghost use Rattle.std.specs.Prelude.{◌≡◌, ◌≤◌, Some, None, if◌then◌else◌, length, map};
ghost use Rattle.xh_script.specs.Sorts.{row_said, row_of, row_of_word};
ghost use Rattle.xh_script.specs.Numbering.{rows_in};
ghost use Rattle.xh_script.specs.Tables.{is_table};
ghost use Rattle.xh_script.specs.inner.Stops.{WordGives};
ghost use Rattle.xh_script.specs.declared.limits.TheConstants.{MAX_WORDS};

use crate::limits::{MAX_TAG, MAX_WORDS};
use crate::numeral::number_between;
use crate::split::pieces;
use crate::{FaultKind, Stop};
use arrayvec::ArrayVec;
use std::alloc::Global;
use xh_core::Contract;
use xh_model::Row;
use xh_model::limits::STATES;

#[tactic(auto, unfolding(crate::specs::Sorts::row_said))]
fn row_said(state: &[u8], tag: &[u8], side: &[u8], next: &[u8]) -> Result<Row, FaultKind>
    ensures { result ≡ row_said state.now tag.now side.now next.now }
{
    let last = u32::from(STATES) - 1;
    Ok(Row {
        state: number_between(0, last, state)? as u8,
        tag: number_between(0, MAX_TAG, tag)? as u16,
        side: number_between(0, 1, side)? as u8,
        next: number_between(0, last, next)? as u8,
    })
}

#[tactic(auto, unfolding(crate::specs::Sorts::row_of))]
fn row_of(numbers: &[&[u8]]) -> Result<Row, FaultKind>
    ensures { result ≡ row_of (map (λ w. w.now) numbers.now) }
{
    let [state, tag, side, next] = numbers else {
        return Err(FaultKind::BadNumber);
    };
    row_said(state, tag, side, next)
}

/// The row that a word says.
pub(crate) fn row_at(alloc: Global, word: &[u8]) -> Result<Row, Stop>
    ensures { WordGives (λ row. row) result (row_of_word word.now) }
{
    let numbers = pieces(alloc, word, b':')?;
    Ok(row_of(&numbers)?)
}

/// The rows that words say.
#[tactic(auto, using(crate::proofs::Readings::stops_then))]
pub(crate) fn rows_in(alloc: Global, words: &[&[u8]]) -> Result<ArrayVec<Row, MAX_WORDS>, Stop>
    requires { length words.now ≤ MAX_WORDS }
    ensures { WordGives (λ rows. rows.items) result (rows_in (map (λ w. w.now) words.now)) }
{
    let mut rows = ArrayVec::new();
    for word in words {
        rows.push(row_at(alloc, word)?);
    }
    Ok(rows)
}

/// The contract of these rows, if they are one.
#[tactic(auto, using(crate::proofs::TableLemmas::table_true, crate::proofs::TableLemmas::table_false))]
pub(crate) fn contract_of(rows: &[Row]) -> Option<Contract>
    ensures { result ≡ (if is_table rows.now then Some rows.now else None) }
{
    Contract::new(rows).ok()
}
