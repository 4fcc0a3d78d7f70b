//! The place in the source of what an instruction of an image is the code of.
ghost use Rattle.std.specs.Prelude.{◌≡◌};
ghost use Rattle.stmt_code.specs.Placing.{place_at};

use std::marker::Model;
use stmt_code::PlaceRow;

/// The places of a program's statements and declarations of objects, by the instructions of its image. Contracts see its rows, inner ones first.
#[derive(Drop)]
pub struct Places {
    rows: Vec<PlaceRow>,
}

impl Model for Places {
    ghost use Rattle.std.specs.Prelude.{List};
    ghost use Rattle.stmt_code.specs.declared.tables.PlaceRow.{PlaceRow};

    ghost Value = { List PlaceRow };

    ghost view = { λ p. p.rows.items };
}

// The place of the first row that covers the instruction at this address.
fn place_at(rows: &[PlaceRow], address: usize) -> Option<u32>
    ensures { result ≡ place_at rows.now address }
{
    for row in rows {
        if row.first <= address && address < row.behind {
            return Some(row.place);
        }
    }
    None
}

impl Places {
    /// The places of statements and declarations with these rows.
    pub(crate) fn new(rows: Vec<PlaceRow>) -> Places
        ensures { result ≡ rows.items }
    {
        Places { rows }
    }

    /// The place, in bytes of the source, of the innermost statement or declaration whose code has the instruction at this address, where a function's is that
    /// of its return; none where it is code of neither, as that of first values of `out` parameters, of what a body gives back, and of main.
    pub fn place_of(&self, address: usize) -> Option<u32>
        ensures { result ≡ place_at self.now address }
    {
        place_at(&self.rows, address)
    }
}
