//! Which rows cross others: their regions meet, and neither lies in the other.
ghost use Rattle.std.specs.Prelude.{◌≡◌, ◌≤◌, [], ◌∷◌, ◌++◌, length, is_none, nat_le, IfOk, OnOk};
ghost use Rattle.std.specs.List.{list_all, suffix_len};
ghost use Rattle.std.specs.List.Sorted.{IsNonDecreasingBy, IsPermutation};
ghost use Rattle.handlers.specs.Nesting.{IsFirst, all_nested, are_nested, crosses_at};
ghost use Rattle.handlers.specs.Sweeping.{closed, holds, sweeps};

use crate::Row;
use std::alloc::{AllocError, Global};
use std::cmp::Reverse;

impl Row {
    // Whether one region lies in the other, they are the same, or they don't meet.
    fn is_nested_with(&self, other: &Row) -> bool
        ensures { result ≡ are_nested self.now other.now }
    {
        self.start <= other.start && other.end_ <= self.end_
            || other.start <= self.start && self.end_ <= other.end_
            || self.end_ <= other.start
            || other.end_ <= self.start
    }

    fn is_nested_with_all(&self, rows: &[Row]) -> bool
        ensures { result ≡ list_all (are_nested self.now) rows.now }
    {
        rows.iter().all(|row| self.is_nested_with(row))
    }
}

// Compares each row with all before it.
fn first_crossing_of_pairs(rows: &[Row]) -> Option<usize>
    ensures first { IsFirst (crosses_at rows.now) (length rows.now) result }
{
    for (index, row) in rows.iter().enumerate() {
        if !row.is_nested_with_all(&rows[..index]) {
            return Some(index);
        }
    }
    None
}

// How many regions, from the innermost on, end at or before a place.
fn ended(around: &[u16], place: u16) -> usize
    ensures count { result ≡ suffix_len (λ e. nat_le e place) around.now }
    ensures few { result ≤ length around.now }
{
    around.iter().rev().take_while(|end| **end <= place).count()
}

fn holds(around: &[u16], end_: u16) -> bool
    ensures { result ≡ holds around.now end_ }
{
    match around.last() {
        None => true,
        Some(innermost) => end_ <= *innermost,
    }
}

// Leaves the regions that end before a row, enters its own, and tells whether that lies in the innermost one that was left open.
fn enter(around: &mut Vec<u16>, row: &Row) -> Result<bool, AllocError>
    ensures held { IfOk result (λ held. held ≡ holds (closed row.now.start around.old.items) row.now.end_) }
    ensures entered { OnOk result (around.new.items ≡ closed row.now.start around.old.items ++ row.now.end_ ∷ []) }
{
    let left = around.len() - ended(around, row.start);
    around.truncate(left);
    let held = holds(around, row.end_);
    around.push(row.end_)?;
    Ok(held)
}

// Whether each row lies in the innermost region that is open at its start, of rows in the order of their starts. A row that starts
// where a longer one does has to follow it.
fn sweep(alloc: Global, rows: &[Row]) -> Result<bool, AllocError>
    ensures { IfOk result (λ nested. nested ≡ sweeps [] rows.now) }
{
    let mut around = Vec::new(alloc);
    for row in rows {
        if !enter(&mut around, row)? {
            return Ok(false);
        }
    }
    Ok(true)
}

pub(crate) fn copied(alloc: Global, rows: &[Row]) -> Result<Vec<Row>, AllocError>
    ensures { IfOk result (λ copy. copy.items ≡ rows.now) }
{
    rows.to_vec(alloc)
}

// The rows in the order of their starts, and the longest first where they start together.
fn in_order(alloc: Global, rows: &[Row]) -> Result<Vec<Row>, AllocError>
    ensures moved { IfOk result (λ sorted. IsPermutation rows.now sorted.items) }
    ensures sorted { IfOk result (λ sorted. IsNonDecreasingBy (λ r. r.start) sorted.items) }
{
    let mut sorted = copied(alloc, rows)?;
    sorted.sort_by_key(|row| Reverse(row.end_))?;
    sorted.sort_by_key(|row| row.start)?;
    Ok(sorted)
}

/// The first row that crosses a row before it. Where none does, the time is that of a sort.
///
/// # Errors
/// Where memory was refused.
pub fn first_crossing(alloc: Global, rows: &[Row]) -> Result<Option<usize>, AllocError>
    ensures first { IfOk result (IsFirst (crosses_at rows.now) (length rows.now)) }
    ensures nested { IfOk result (λ found. is_none found ≡ all_nested rows.now) }
{
    let sorted = in_order(alloc, rows)?;
    if sweep(alloc, &sorted)? {
        return Ok(None);
    }
    Ok(first_crossing_of_pairs(rows))
}
