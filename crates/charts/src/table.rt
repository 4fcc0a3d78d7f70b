//! The cells of a chart.
ghost use Rattle.std.specs.Prelude.{◌≡◌, ◌*◌, ◌<◌, IfOk, length, replicate};
ghost use Rattle.charts.specs.Signs.{Cells, nothing_seen, with_events, with_note};
ghost use Rattle.charts.specs.Tables.{HoldsCells};
ghost use Rattle.charts.specs.declared.scale.TheConstants.{COLUMNS};

use crate::cell::Cell;
use crate::rows::ROWS;
use crate::scale::COLUMNS;
use crate::signs::{Note, actor_note, object_note};
use std::alloc::{AllocError, Global};
use tracing::Event;

/// How many cells are kept: those of each row one after the other.
pub const CELLS: usize = ROWS * COLUMNS;

// So many cells as are kept, each of them this one.
fn cells_of(alloc: Global, cell: Cell) -> Result<Vec<Cell>, AllocError>
    ensures { IfOk result (λ cells. cells.items ≡ replicate CELLS cell) }
{
    let mut cells = Vec::new(alloc);
    let mut count = 0;
    while count < CELLS {
        cells.push(cell)?;
        count += 1;
    }
    Ok(cells)
}

/// Cells in which nothing is to be seen.
///
/// # Errors
/// Where memory was refused.
pub(crate) fn no_cells(alloc: Global) -> Result<Vec<Cell>, AllocError>
    ensures room { IfOk result (λ cells. length cells.items ≡ CELLS) }
    ensures nothing { IfOk result (λ cells. HoldsCells cells.items nothing_seen) }
{
    let cells = cells_of(alloc, Cell::new())?;
    Ok(cells)
}

/// With a sign in this column, if there is one.
pub(crate) fn note(cells: &mut [Cell], column: usize, note: Option<Note>)
    requires room { length cells.old ≡ CELLS }
    requires few { column < COLUMNS }
    ensures noted { (shown : Cells) → HoldsCells cells.old shown → HoldsCells cells.new (with_note column note shown) }
    ensures room { length cells.new ≡ CELLS }
{
    let Some(note) = note else {
        return;
    };
    let cell = note.row.number() * COLUMNS + column;
    cells[cell].note(note.sign);
}

/// With what events say in this column.
pub(crate) fn note_events(cells: &mut [Cell], column: usize, events: &[Event])
    requires room { length cells.old ≡ CELLS }
    requires few { column < COLUMNS }
    ensures noted { (shown : Cells) → HoldsCells cells.old shown → HoldsCells cells.new (with_events column events.now shown) }
    ensures room { length cells.new ≡ CELLS }
{
    for event in events {
        note(cells, column, actor_note(event));
        note(cells, column, object_note(event));
    }
}

/// The cell of a row, by its number, and a column.
pub(crate) fn cell_at(cells: &[Cell], row: usize, column: usize) -> Cell
    requires room { length cells.now ≡ CELLS }
    requires row { row < ROWS }
    requires column { column < COLUMNS }
    ensures { (shown : Cells) → HoldsCells cells.now shown → result ≡ shown row column }
{
    cells[row * COLUMNS + column]
}
