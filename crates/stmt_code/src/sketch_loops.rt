//! Loops, as they are added to what is put together (RM 5.5, 5.7).
ghost use Rattle.std.specs.Prelude.{◌≡◌, ◌+◌, length, ℕ, IfOk, OnOk};
ghost use Rattle.ada_tree.specs.ExpressionTree.{expr_tree};
ghost use Rattle.ada_tree.specs.StatementTree.{iteration_tree, Loop, range_tree, stmt_trees};
ghost use Rattle.expr_code.specs.Pieces.{narrow, one};
ghost use Rattle.image.specs.declared.instruction.Operation.TheVariants as op;
ghost use Rattle.stmt_code.specs.Drafting.{adds, coded, end_of};
ghost use Rattle.stmt_code.specs.StatementCode.{counted_code, in_turn, loop_code, ranged_code, site, stmt_code, stmts_code, turns_code, while_code};
ghost use Rattle.declaration_rules.specs.BodyNames.{loop_scope};
ghost use Rattle.stmt_code.specs.Timely.{stmts_timely, turn_scope};
ghost use Rattle.stmt_code.specs.Turns.{is_full};

use crate::leaves::any_exits;
use crate::selection::narrow;
use crate::sketch::Sketch;
use crate::sketch_declarations::show_parameter;
use ada_tree::{Expr, Identifier, Iteration, Range, Stmt};
use declaration_rules::laws::names_are_added;
use expr_code::Visible;
use expr_code::fragment::{above, raised};
use image::Operation;
use lexer::Text;
use part_code::{Extent, FrameWords, Leaving, Turns};
use std::alloc::AllocError;
use types::{Scope, bounds};

// Whether the range has a value, whatever its bounds are worth.
fn is_full(scope: &Scope, range: &Range) -> bool
    ensures { result ≡ is_full scope.now (range_tree range.now) }
{
    bounds(scope, &range.first).1 <= bounds(scope, &range.last).0
}

impl Sketch {
    /// Adds a jump over a way out and the way out, a jump whose place waits for the end; returns the place of the way out, and where it is among the
    /// instructions.
    pub(crate) fn begin_way(&mut self) -> Result<(u16, usize), AllocError>
        ensures out { IfOk result (λ way. way.0 ≡ narrow (end_of self.old + 1)) }
        ensures place { IfOk result (λ way. way.1 ≡ length (adds self.old (coded (one 0 (op.Jump (narrow (end_of self.old + 2)))))).made.code) }
        ensures made { OnOk result (self.new ≡ adds (adds self.old (coded (one 0 (op.Jump (narrow (end_of self.old + 2)))))) (coded (one 0 (op.Jump 0)))) }
    {
        let start = self.place()?;
        let out = above(start)?;
        let over = raised(start, 2)?;
        self.put(0, Operation::Jump(narrow(over)))?;
        let place = self.many();
        self.put(0, Operation::Jump(0))?;
        Ok((narrow(out), place))
    }

    /// Adds the code of a loop, wherever it is in the text.
    #[cycle(sketched)]
    pub(crate) fn repeated(
        &mut self,
        visible: &mut Visible,
        leaving: Leaving,
        taken: usize,
        exceptions: &[Text],
        body: &[Stmt],
        iteration: &Iteration,
    ) -> Result<(), AllocError>
        ensures made { OnOk result ((place : ℕ) → self.new ≡ adds self.old (stmt_code (site visible.old leaving taken exceptions.now)
            (Loop place (iteration_tree iteration.now) (stmt_trees body.now)))) }
        ensures timely { OnOk result (stmts_timely (turn_scope visible.old.scope (iteration_tree iteration.now)) (stmt_trees body.now)) }
        ensures same { OnOk result (visible.new ≡ visible.old) }
    {
        if any_exits(body) {
            let (out, place) = self.begin_way()?;
            let inside = leaving.in_loop(Some(out));
            self.turning(visible, inside, taken, exceptions, body, iteration)?;
            let end = self.end();
            self.lead(place, Operation::Jump(end));
            return Ok(());
        }
        let inside = leaving.in_loop(None);
        self.turning(visible, inside, taken, exceptions, body, iteration)?;
        Ok(())
    }

    // Adds the turns of a loop.
    #[cycle(sketched)]
    fn turning(
        &mut self,
        visible: &mut Visible,
        leaving: Leaving,
        taken: usize,
        exceptions: &[Text],
        body: &[Stmt],
        iteration: &Iteration,
    ) -> Result<(), AllocError>
        ensures made { OnOk result (self.new ≡ adds self.old (loop_code (site visible.old leaving taken exceptions.now) (iteration_tree iteration.now)
            (λ inner. stmts_code inner (stmt_trees body.now)))) }
        ensures timely { OnOk result (stmts_timely (turn_scope visible.old.scope (iteration_tree iteration.now)) (stmt_trees body.now)) }
        ensures same { OnOk result (visible.new ≡ visible.old) }
    {
        match iteration {
            Iteration::Forever => {
                let turn = self.end();
                self.statements(visible, leaving, taken, exceptions, body)?;
                self.put(0, Operation::Jump(turn))?;
                Ok(())
            }
            Iteration::While(condition) => {
                self.conditional(visible, leaving, taken, exceptions, body, condition)
            }
            Iteration::For(parameter, reversed, range) => self.counted(
                visible, leaving, taken, exceptions, body, parameter, *reversed, range,
            ),
        }
    }

    // Adds the turns of a loop that goes on where a condition holds.
    #[cycle(sketched)]
    fn conditional(
        &mut self,
        visible: &mut Visible,
        leaving: Leaving,
        taken: usize,
        exceptions: &[Text],
        body: &[Stmt],
        condition: &Expr,
    ) -> Result<(), AllocError>
        ensures made { OnOk result (self.new ≡ adds self.old (while_code visible.old (expr_tree condition.now)
            (stmts_code (site visible.old leaving taken exceptions.now) (stmt_trees body.now)))) }
        ensures timely { OnOk result (stmts_timely visible.old.scope (stmt_trees body.now)) }
        ensures same { OnOk result (visible.new ≡ visible.old) }
    {
        let turn = self.end();
        self.expression(visible, 0, condition)?;
        let test = self.test()?;
        self.statements(visible, leaving, taken, exceptions, body)?;
        self.put(0, Operation::Jump(turn))?;
        let end = self.end();
        self.lead(test, Operation::JumpIfZero(end));
        Ok(())
    }

    // Adds the turns of a loop over a range, after which the parameter goes out of sight.
    #[cycle(sketched)]
    fn counted(
        &mut self,
        visible: &mut Visible,
        leaving: Leaving,
        taken: usize,
        exceptions: &[Text],
        body: &[Stmt],
        parameter: &Identifier,
        reversed: bool,
        range: &Range,
    ) -> Result<(), AllocError>
        ensures made { OnOk result (self.new ≡ adds self.old (
            counted_code (site visible.old leaving taken exceptions.now) reversed (range_tree range.now)
            (stmts_code (in_turn (site visible.old leaving taken exceptions.now) parameter.now (range_tree range.now)) (stmt_trees body.now)))) }
        ensures timely { OnOk result (stmts_timely (loop_scope visible.old.scope parameter.now (range_tree range.now)) (stmt_trees body.now)) }
        ensures same { OnOk result (visible.new ≡ visible.old) }
    {
        names_are_added();
        let last = above(taken)?;
        let more = raised(taken, 2)?;
        let turns = Turns {
            counter: narrow(taken),
            limit: narrow(last),
            reversed,
        };
        self.take(more);
        self.bounds(visible, range, turns)?;
        let full = is_full(&visible.scope, range);
        let extent = Extent::of(visible, FrameWords::new());
        show_parameter(visible, parameter, range, turns.counter)?;
        self.ranged(visible, leaving, more, exceptions, body, turns, full)?;
        extent.restore(visible, &mut FrameWords::new());
        Ok(())
    }

    // Adds the turns where the range isn't null; nothing is tested where it never is.
    #[cycle(sketched)]
    fn ranged(
        &mut self,
        visible: &mut Visible,
        leaving: Leaving,
        taken: usize,
        exceptions: &[Text],
        body: &[Stmt],
        turns: Turns,
        full: bool,
    ) -> Result<(), AllocError>
        ensures made { OnOk result (self.new ≡ adds self.old (ranged_code full turns (turns_code turns
            (stmts_code (site visible.old leaving taken exceptions.now) (stmt_trees body.now))))) }
        ensures timely { OnOk result (stmts_timely visible.old.scope (stmt_trees body.now)) }
        ensures same { OnOk result (visible.new ≡ visible.old) }
    {
        if full {
            return self.each_turn(visible, leaving, taken, exceptions, body, turns);
        }
        self.test_null(turns)?;
        let null = self.many();
        self.put(1, Operation::JumpIfNotZero(0))?;
        self.each_turn(visible, leaving, taken, exceptions, body, turns)?;
        let end = self.end();
        self.lead(null, Operation::JumpIfNotZero(end));
        Ok(())
    }

    // Adds the statements of a turn, and what goes on to the next one, if it wasn't the last.
    #[cycle(sketched)]
    fn each_turn(
        &mut self,
        visible: &mut Visible,
        leaving: Leaving,
        taken: usize,
        exceptions: &[Text],
        body: &[Stmt],
        turns: Turns,
    ) -> Result<(), AllocError>
        ensures made { OnOk result (self.new ≡ adds self.old (turns_code turns
            (stmts_code (site visible.old leaving taken exceptions.now) (stmt_trees body.now)))) }
        ensures timely { OnOk result (stmts_timely visible.old.scope (stmt_trees body.now)) }
        ensures same { OnOk result (visible.new ≡ visible.old) }
    {
        let turn = self.end();
        self.statements(visible, leaving, taken, exceptions, body)?;
        self.test_last(turns)?;
        let last = self.many();
        self.put(1, Operation::JumpIfNotZero(0))?;
        self.count(turns)?;
        self.put(0, Operation::Jump(turn))?;
        let end = self.end();
        self.lead(last, Operation::JumpIfNotZero(end));
        Ok(())
    }
}
