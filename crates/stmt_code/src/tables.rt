//! The tables that go with code: its rows of handlers, and where the code of its statements and declarations is.
ghost use Rattle.std.specs.Prelude.{◌≡◌, ◌∷◌, ◌++◌, [], length, IfErr, OnOk};
ghost use Rattle.expr_code.specs.Refusing.{IsRefused};

use expr_code::Refusal;
use handlers::Row;
use part_code::add_rows;
use std::alloc::Global;
use std::marker::Model;

/// Where the code of a statement or a declaration is: the place of its first instruction, the one after its last, and its own place in the source.
#[derive(Clone, Copy, PartialEq, Eq, Debug)]
pub struct PlaceRow {
    pub first: usize,
    pub behind: usize,
    pub place: u32,
}

/// The rows of handlers in code, inner ones first (docs/FORMATS.md), and those of the places of its statements and declarations, inner ones first. Contracts
/// see two lists.
#[derive(Drop)]
pub struct CodeTables {
    handlers: Vec<Row>,
    places: Vec<PlaceRow>,
}

impl Model for CodeTables {
    ghost use Rattle.stmt_code.specs.CodeTables.{TablesValue};

    ghost Value = { TablesValue };

    ghost view = { λ t. record { items = t.handlers.items; places = t.places.items } };
}

impl CodeTables {
    /// No rows.
    pub fn new(alloc: Global) -> CodeTables
        ensures { result ≡ record { items = []; places = [] } }
    {
        CodeTables {
            handlers: Vec::new(alloc),
            places: Vec::new(alloc),
        }
    }

    /// Adds rows of handlers after the others.
    pub fn handle(&mut self, more: &[Row]) -> Result<(), Refusal>
        ensures rows { OnOk result (self.new ≡ record self.old { items = self.old.items ++ more.now }) }
        ensures refused { IfErr result (λ why. IsRefused 0 0 why) }
    {
        add_rows(&mut self.handlers, more)
    }

    /// Adds the place of a statement or a declaration after the others.
    pub fn mark(&mut self, row: PlaceRow) -> Result<(), Refusal>
        ensures rows { OnOk result (self.new ≡ record self.old { places = self.old.places ++ row ∷ [] }) }
        ensures refused { IfErr result (λ why. IsRefused 0 0 why) }
    {
        self.places.push(row)?;
        Ok(())
    }

    /// How many rows of handlers there are.
    pub fn many(&self) -> usize
        ensures { result ≡ length self.now.items }
    {
        self.handlers.len()
    }

    /// Both lists.
    pub fn split(self) -> (Vec<Row>, Vec<PlaceRow>)
        ensures handlers { result.0.items ≡ self.items }
        ensures places { result.1.items ≡ self.places }
    {
        let CodeTables { handlers, places } = self;
        (handlers, places)
    }
}
