//! Handler rows, and the table made of them.

ghost use Rattle.std.specs.Prelude.{◌≡◌, ◌≤◌, ◌+◌, length, not, position, is_none, true, IfErr, IfOk, IfSome, OnOk};
ghost use Rattle.handlers.specs.Handlers.{LeadsWithin, is_within_one};
ghost use Rattle.handlers.specs.Nesting.{IsFirst, RefusesRows, are_sound, is_broken_at, lesser_of, memory_fault};
ghost use Rattle.std.specs.List.{count_by};
ghost use Rattle.handlers.specs.Innermost.{covers, handles, width, handler_of};
ghost use Rattle.handlers.specs.Searching.{ComparesPlaces};

use crate::searching::Index;
use crate::{Holders, Probes, first_crossing};
use base::faults::{MEMORY_REFUSED, TABLES_DISAGREE};
use std::alloc::{AllocError, Global};
use std::marker::Model;
use std::sync::ledger::Ledger;

/// One handler: an exception raised at an instruction from `start` on and before `end_` goes on at `target`.
#[derive(Clone, Copy, PartialEq, Eq, Debug)]
pub struct Row {
    /// The first instruction covered.
    pub start: u16,
    /// The instruction after the last one covered.
    pub end_: u16,
    /// The number of the exception handled, or 0 for all.
    pub exception: u16,
    /// The handler's first instruction.
    pub target: u16,
}

impl Row {
    pub(crate) fn covers(&self, place: u16) -> bool
        ensures { result ≡ covers place self.now }
    {
        self.start <= place && place < self.end_
    }

    pub(crate) fn handles(&self, exception: u16) -> bool
        ensures { result ≡ handles exception self.now }
    {
        self.exception == 0 || self.exception == exception
    }

    // Whether it covers a place, and one subprogram holds its region and its target.
    fn is_within_one(&self, holders: &Holders) -> bool
        ensures { result ≡ is_within_one holders.now self.now }
    {
        let start = usize::from(self.start);
        let last = usize::from(self.end_.saturating_sub(1));
        self.start < self.end_
            && holders.share(start, last)
            && holders.share(start, usize::from(self.target))
    }

    // How many places it covers.
    pub(crate) fn width(&self) -> u16
        ensures { result ≡ width self.now }
    {
        self.end_.saturating_sub(self.start)
    }
}

/// Why no table was made: 47 for a row that breaks a rule, 60 for want of memory, with row 0.
#[derive(Clone, Copy, PartialEq, Eq, Debug)]
pub struct TableFault {
    /// The number of the rule.
    pub number: u8,
    /// The row that breaks it, counted from 0.
    pub row: usize,
}

impl From<AllocError> for TableFault {
    ghost use Rattle.base.specs.declared.faults.TheConstants.{MEMORY_REFUSED};

    ghost from_gives = { λ _ fault. fault ≡ (record { number = MEMORY_REFUSED; row = 0 }) };

    fn from(_error: AllocError) -> Self {
        TableFault {
            number: MEMORY_REFUSED,
            row: 0,
        }
    }
}

/// The handlers of a program's subprograms.
#[derive(Drop)]
pub struct Table {
    rows: Vec<Row>,
    ends: Vec<u16>,
    index: Index,
}

impl Model for Table {
    ghost use Rattle.std.specs.Prelude.{◌≡◌, true};
    ghost use Rattle.handlers.specs.Handlers.{Handlers, are_within_one};
    ghost use Rattle.handlers.specs.Searching.{AreByWidth};

    ghost Value = { Handlers };

    ghost view = { λ t. record { rows = t.rows.items; ends = t.ends.items } };

    ghost invariant = { λ t. (are_within_one t.ends.items t.rows.items ≡ true) × AreByWidth t.rows.items t.index };
}

// The first row that breaks a rule by itself.
fn first_outside(rows: &[Row], holders: &Holders) -> Option<usize>
    ensures { result ≡ position (λ r. not (is_within_one holders.now r)) rows.now }
{
    rows.iter().position(|row| !row.is_within_one(holders))
}

fn lesser(first: Option<usize>, second: Option<usize>) -> Option<usize>
    ensures { result ≡ lesser_of first second }
{
    match (first, second) {
        (Some(m), Some(n)) => Some(m.min(n)),
        (None, other) | (other, None) => other,
    }
}

// The first row that breaks a rule by itself or together with a row before it.
fn first_broken(alloc: Global, rows: &[Row], holders: &Holders) -> Result<Option<usize>, AllocError>
    ensures first { IfOk result (IsFirst (is_broken_at holders.now rows.now) (length rows.now)) }
    ensures sound { IfOk result (λ found. is_none found ≡ are_sound holders.now rows.now) }
{
    Ok(lesser(first_outside(rows, holders), first_crossing(alloc, rows)?))
}

/// The table of these rows and of subprograms that end at `ends`. It is made exactly where each row covers a place, its region and its
/// target lie in one subprogram, and the regions of any two rows are nested, equal or disjoint.
///
/// # Errors
/// 47 with the first row that breaks this by itself or together with a row before it; 60, with row 0, where memory was refused.
pub fn build(alloc: Global, rows: Vec<Row>, ends: &[u16]) -> Result<Table, TableFault>
    ensures ok { IfOk result (λ table. table ≡ record { rows = rows.items; ends = ends.now }) }
    ensures sound { OnOk result (are_sound ends.now rows.items ≡ true) }
    ensures refused { IfErr result (RefusesRows ends.now rows.items) }
    ensures accepted { are_sound ends.now rows.items ≡ true → IfErr result (λ fault. fault ≡ memory_fault) }
{
    let holders = Holders::new(alloc, ends.to_vec(alloc)?)?;
    if let Some(row) = first_broken(alloc, &rows, &holders)? {
        return Err(TableFault {
            number: TABLES_DISAGREE,
            row,
        });
    }
    let index = Index::new(alloc, &rows)?;
    let ends = ends.to_vec(alloc)?;
    Ok(Table { rows, ends, index })
}

/// The target of the innermost row that covers `place` and handles `exception`: the one with the shortest region, the first
/// of equal ones. `None` where no row does both. The target lies in the subprogram that holds `place`. It compares the place at
/// most as often as the number of distinct starts and ends of rows has binary digits, and the exception at most once for each
/// row that covers the place.
pub fn lookup<L: Ledger>(
    table: &Table,
    place: u16,
    exception: u16,
    probes: &mut Probes<L>,
) -> Option<u16>
    ensures innermost { result ≡ handler_of table.now.rows place exception }
    ensures within { IfSome result (LeadsWithin table.now place) }
    ensures places { ComparesPlaces table.now.rows probes.old.places probes.new.places }
    ensures exceptions { probes.new.exceptions ≤ probes.old.exceptions + count_by (covers place) table.now.rows }
{
    table.index.target(place, exception, probes)
}
