//! Trees of source texts.
ghost use Rattle.std.specs.Prelude.{◌≡◌};
ghost use Rattle.ada_tree.specs.Parsed.{IsParsed};
ghost use Rattle.ada_tree.specs.ProgramTree.{program_tree};

use crate::program::Program;
use std::marker::Model;

/// The tree of a source text: tokens spell the text, and the grammar derives the tree from them (docs/LANGUAGE.md, "Grammar"). Contracts see the tree.
#[derive(Drop)]
pub struct Parsed {
    program: Program,
}

impl Model for Parsed {
    ghost use Rattle.ada_tree.specs.Parsed.{IsParsed};
    ghost use Rattle.ada_tree.specs.ProgramTree.{program_tree};
    ghost use Rattle.ada_tree.specs.contracts.program.Program as contract;
    ghost use Rattle.ada_tree.specs.declared.program.Program as declared;
    ghost use Rattle.std.specs.Coded.{codes};

    ghost Value = { declared.Program };

    ghost coded = { Prim.hlevel (codes, contract.the_row.coded) };

    ghost view = { λ p. p.program };

    ghost invariant = { λ p. IsParsed (program_tree p.program) };
}

impl Parsed {
    /// The tree of a text, as one that is known to be that.
    pub fn new(program: Program) -> Parsed
        requires parsed { IsParsed (program_tree program) }
        ensures same { result ≡ program }
    {
        Parsed { program }
    }

    /// The tree.
    pub fn program(&self) -> &Program
        ensures same { result.now ≡ self.now }
        ensures parsed { IsParsed (program_tree self.now) }
    {
        &self.program
    }
}
