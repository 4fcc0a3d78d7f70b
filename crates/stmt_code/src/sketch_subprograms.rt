//! Whole procedures, as they are added to what is put together (RM 6.3).
ghost use Rattle.std.specs.Prelude.{◌≡◌, IfOk, OnOk};
ghost use Rattle.ada_tree.specs.ProgramTree.{body_tree};
ghost use Rattle.stmt_code.specs.Declaring.{site_at};
ghost use Rattle.stmt_code.specs.Drafting.{adds, coded};
ghost use Rattle.stmt_code.specs.Emitting.{no_ways};
ghost use Rattle.stmt_code.specs.Timely.{handlers_timely, locals_seen, stmts_timely};
ghost use Rattle.stmt_code.specs.WholeCode.{height_given, outs_code, procedure_code, return_code};

use crate::outs::initialise_outs;
use crate::returning::return_all;
use crate::sketch::Sketch;
use ada_tree::Body;
use expr_code::Visible;
use lexer::Text;
use part_code::PlacedFormal;
use std::alloc::AllocError;
use types::Scope;

impl Sketch {
    /// Adds the code of a procedure whose parameters have these places: first values of `out` parameters, its declarations and statements, and what it gives
    /// back. Returns how many words that are.
    pub fn procedure(
        &mut self,
        visible: &mut Visible,
        taken: usize,
        exceptions: &[Text],
        formals: &[PlacedFormal],
        body: &Body,
    ) -> Result<usize, AllocError>
        ensures height { IfOk result (λ height. height ≡ height_given visible.old.scope formals.now) }
        ensures made { OnOk result (self.new ≡ adds self.old (
            procedure_code (site_at visible.old taken no_ways exceptions.now) formals.now (body_tree body.now))) }
        ensures timely { OnOk result (stmts_timely (locals_seen visible.old.scope (body_tree body.now).declarations) (body_tree body.now).statements
            × handlers_timely (locals_seen visible.old.scope (body_tree body.now).declarations) (body_tree body.now).handlers) }
        ensures same { OnOk result (visible.new ≡ visible.old) }
    {
        self.outs(visible, formals)?;
        self.run(
            visible,
            taken,
            exceptions,
            &body.declarations,
            &body.statements,
            &body.handlers,
        )?;
        let height = self.give_back(&visible.scope, formals)?;
        Ok(height)
    }

    // Adds first values of `out` parameters.
    fn outs(&mut self, visible: &Visible, formals: &[PlacedFormal]) -> Result<(), AllocError>
        ensures made { OnOk result (self.new ≡ adds self.old (coded (outs_code visible.now formals.now))) }
    {
        initialise_outs(&mut self.fragment, visible, formals)?;
        Ok(())
    }

    // Adds the end of a body, and returns how many words it gives back.
    fn give_back(&mut self, scope: &Scope, formals: &[PlacedFormal]) -> Result<usize, AllocError>
        ensures height { IfOk result (λ height. height ≡ height_given scope.now formals.now) }
        ensures made { OnOk result (self.new ≡ adds self.old (coded (return_code scope.now formals.now))) }
    {
        let height = return_all(&mut self.fragment, scope, formals)?;
        Ok(height)
    }
}
