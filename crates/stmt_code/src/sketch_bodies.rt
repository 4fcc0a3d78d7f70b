//! Bodies up to their end, as they are added to what is put together (RM 6.3, 6.5).
ghost use Rattle.std.specs.Prelude.{◌≡◌, ◌||◌, [], map, OnOk};
ghost use Rattle.ada_tree.specs.declared.expression.Identifier.{Identifier};
ghost use Rattle.ada_tree.specs.StatementTree.{declaration_tree, handler_trees, stmt_trees};
ghost use Rattle.stmt_code.specs.Declaring.{site_at};
ghost use Rattle.stmt_code.specs.Drafting.{adds};
ghost use Rattle.stmt_code.specs.Emitting.{no_ways};
ghost use Rattle.stmt_code.specs.Leaves.{any_leave, handlers_leave};
ghost use Rattle.stmt_code.specs.StatementCode.{handlers_code, in_body, run_code, sequence_code, stmts_code, with_way};
ghost use Rattle.stmt_code.specs.declared.leaves.WayOut.TheVariants as way;
ghost use Rattle.stmt_code.specs.Timely.{handlers_timely, locals_seen, stmts_timely};

use crate::leaves::body_returns;
use crate::sketch::Sketch;
use ada_tree::{Declaration, Handler, Stmt};
use declaration_rules::laws::names_are_added;
use expr_code::Visible;
use image::Operation;
use lexer::Text;
use part_code::{Extent, FrameWords, Leaving};
use std::alloc::AllocError;

impl Sketch {
    /// Adds the code of a body up to its end: its declarations, a jump over the way out and the way out, if a return leads there, and its statements with their
    /// handlers.
    pub fn run(
        &mut self,
        visible: &mut Visible,
        taken: usize,
        exceptions: &[Text],
        declarations: &[Declaration],
        statements: &[Stmt],
        all: &[Handler],
    ) -> Result<(), AllocError>
        ensures made { OnOk result ((end_name : Identifier) → self.new ≡ adds self.old (run_code (site_at visible.old taken no_ways exceptions.now) (record {
          declarations = map declaration_tree declarations.now;
          statements = stmt_trees statements.now;
          handlers = handler_trees all.now;
          end_name = end_name;
        }))) }
        ensures timely { OnOk result (stmts_timely (locals_seen visible.old.scope (map declaration_tree declarations.now)) (stmt_trees statements.now)
            × handlers_timely (locals_seen visible.old.scope (map declaration_tree declarations.now)) (handler_trees all.now)) }
        ensures same { OnOk result (visible.new ≡ visible.old) }
    {
        names_are_added();
        let extent = Extent::of(visible, FrameWords::new());
        let more = self.declarations(visible, taken, declarations)?;
        self.with_way_out(visible, more, exceptions, statements, all)?;
        extent.restore(visible, &mut FrameWords::new());
        Ok(())
    }

    // Adds statements and handlers of a body, after the way out, if a return leads there.
    fn with_way_out(
        &mut self,
        visible: &mut Visible,
        taken: usize,
        exceptions: &[Text],
        statements: &[Stmt],
        all: &[Handler],
    ) -> Result<(), AllocError>
        ensures made { OnOk result (self.new ≡ adds self.old (
            with_way (any_leave (stmt_trees statements.now) way.Return || handlers_leave (handler_trees all.now) way.Return)
            (λ end. sequence_code (handler_trees all.now)
            (stmts_code (in_body (site_at visible.old taken no_ways exceptions.now) end) (stmt_trees statements.now))
            (λ q. handlers_code (in_body (site_at visible.old taken no_ways exceptions.now) end) q [] (handler_trees all.now))))) }
        ensures timely { OnOk result (stmts_timely visible.old.scope (stmt_trees statements.now) × handlers_timely visible.old.scope (handler_trees all.now)) }
        ensures same { OnOk result (visible.new ≡ visible.old) }
    {
        if body_returns(statements, all) {
            let (out, place) = self.begin_way()?;
            let inside = Leaving {
                exit: None,
                return_: Some(out),
                handled: None,
            };
            self.sequence(visible, inside, taken, exceptions, statements, all)?;
            let end = self.end();
            self.lead(place, Operation::Jump(end));
            return Ok(());
        }
        let plain = Leaving {
            exit: None,
            return_: None,
            handled: None,
        };
        self.sequence(visible, plain, taken, exceptions, statements, all)?;
        Ok(())
    }
}
