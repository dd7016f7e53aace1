//! Which message may follow which.
ghost use Rattle.std.specs.Prelude.{◌≡◌, MatchBool, IfOk, IfErr, OnOk};
ghost use Rattle.xh_model.specs.Rows.{row_at, IsRow, IsInRange, IsValid, Agree, allowed};
ghost use Rattle.xh_core.specs.Tables.{IsNoContract};

use crate::refused::Refused;
use arrayvec::ArrayVec;
use std::marker::Model;
use xh_model::Row;
use xh_model::limits::{MAX_ROWS, STATES};

/// A valid table of 1 to 16 rows. The first row's state is the first state.
#[derive(Drop)]
pub struct Contract {
    rows: ArrayVec<Row, MAX_ROWS>,
}

impl Model for Contract {
    ghost use Rattle.std.specs.Prelude.{List};
    ghost use Rattle.xh_model.specs.declared.row.Row.{Row};
    ghost use Rattle.xh_model.specs.Rows.{IsInRange, IsValid};

    ghost Value = { List Row };

    ghost view = { λ c. c.rows.items };

    ghost invariant = { λ c. IsInRange c.rows.items × IsValid c.rows.items };
}

fn is_row(row: &Row) -> bool
    ensures { MatchBool result (IsRow row.now) (¬ IsRow row.now) }
{
    row.state < STATES && row.side <= 1 && row.next < STATES
}

/// Whether two rows may stand in one table.
fn agree(a: &Row, b: &Row) -> bool
    ensures { MatchBool result (Agree a.now b.now) (¬ Agree a.now b.now) }
{
    a.state != b.state || a.side == b.side && a.tag != b.tag
}

fn is_in_range(rows: &[Row]) -> bool
    ensures { MatchBool result (IsInRange rows.now) (¬ IsInRange rows.now) }
{
    if rows.is_empty() || rows.len() > MAX_ROWS {
        return false;
    }
    for at in 0..rows.len() {
        if !is_row(&rows[at]) {
            return false;
        }
    }
    true
}

fn is_valid(rows: &[Row]) -> bool
    ensures { MatchBool result (IsValid rows.now) (¬ IsValid rows.now) }
{
    for at in 0..rows.len() {
        for before in 0..at {
            if !agree(&rows[before], &rows[at]) {
                return false;
            }
        }
    }
    true
}

impl Contract {
    /// The contract of these rows. BadSize where there are none or more than 16, or one has a state
    /// above 15 or a side above 1; then Protocol, with nothing handed back, where the table is not
    /// valid.
    pub fn new(rows: &[Row]) -> Result<Contract, Refused>
        ensures is { IfOk result (λ c. c ≡ rows.now) }
        ensures lawful { OnOk result (IsInRange rows.now × IsValid rows.now) }
        ensures refused { IfErr result (IsNoContract rows.now) }
    {
        if !is_in_range(rows) {
            return Err(Refused::BadSize);
        }
        if !is_valid(rows) {
            return Err(Refused::Protocol {
                back: ArrayVec::new(),
            });
        }
        let mut kept = ArrayVec::new();
        let Ok(()) = kept.try_extend_from_slice(rows) else {
            unreachable!()
        };
        Ok(Contract { rows: kept })
    }

    /// The state in which both ends of a channel begin, 0 to 15.
    pub fn first(&self) -> u8
        ensures state { result ≡ (row_at self.now 0).state }
        ensures lawful { IsInRange self.now × IsValid self.now }
    {
        self.rows[0].state
    }

    /// The state after a message with this tag, put by this side in this state; none where the
    /// contract does not allow it.
    pub fn allows(&self, state: u8, tag: u16, side: u8) -> Option<u8>
        ensures { result ≡ allowed self.now state tag side }
    {
        for row in self.rows.as_slice() {
            if row.state == state && row.tag == tag && row.side == side {
                return Some(row.next);
            }
        }
        None
    }

    /// The same contract once more, for another channel.
    pub fn copy(&self) -> Contract
        ensures { result ≡ self.now }
    {
        let Ok(rows) = self.rows.clone() else {
            unreachable!()
        };
        Contract { rows }
    }
}
