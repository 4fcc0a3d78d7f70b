//! Handlers and the statements that they cover, as they are added to what is put together (RM 11.2, 11.4).
ghost use Rattle.std.specs.Prelude.{◌≡◌, ◌∷◌, ◌++◌, [], length, IfOk, OnOk};
ghost use Rattle.ada_tree.specs.StatementTree.{handler_trees, stmt_trees};
ghost use Rattle.expr_code.specs.Pieces.{one};
ghost use Rattle.image.specs.declared.instruction.Operation.TheVariants as op;
ghost use Rattle.part_code.specs.ChoiceRows.{choice_rows, row_for};
ghost use Rattle.stmt_code.specs.Drafting.{adds, ClosesTo, coded, end_of, Sketched};
ghost use Rattle.stmt_code.specs.StatementCode.{covered, handlers_code, kept_code, sequence_code, site, stmts_code};
ghost use Rattle.stmt_code.specs.Timely.{handlers_timely, stmts_timely};

use crate::selection::narrow;
use crate::sketch::Sketch;
use ada_tree::{ExceptionChoice, Handler, Stmt};
use expr_code::Visible;
use expr_code::fragment::above;
use handlers::Row;
use image::Operation;
use lexer::Text;
use part_code::{Leaving, choice_number};
use std::alloc::AllocError;

// The row of a choice, which covers and leads to what another row does.
fn row_for(row: Row, number: Option<u16>) -> Row
    ensures { result ≡ row_for row number }
{
    match number {
        Some(exception) => Row { exception, ..row },
        None => row,
    }
}

// Adds the rows of choices.
fn add_choices(
    rows: &mut Vec<Row>,
    exceptions: &[Text],
    row: Row,
    choices: &[ExceptionChoice],
) -> Result<(), AllocError>
    ensures rows { OnOk result (rows.new.items ≡ rows.old.items ++ choice_rows exceptions.now row choices.now) }
{
    for choice in choices {
        rows.push(row_for(row, choice_number(exceptions, choice)))?;
    }
    Ok(())
}

impl Sketch {
    // Adds what keeps the exception of a handler in a word of the frame.
    #[tactic(auto, using(crate::proofs::PartsAdded::adds_then))]
    fn keep(&mut self, taken: usize) -> Result<(), AllocError>
        ensures made { OnOk result (self.new ≡ adds self.old (kept_code taken)) }
    {
        let more = above(taken)?;
        self.take(more);
        self.put(1, Operation::StoreLocal(narrow(taken)))
    }

    /// Adds statements with their handlers, if they have any.
    pub fn sequence(
        &mut self,
        visible: &mut Visible,
        leaving: Leaving,
        taken: usize,
        exceptions: &[Text],
        body: &[Stmt],
        all: &[Handler],
    ) -> Result<(), AllocError>
        ensures made { OnOk result (self.new ≡ adds self.old (
            sequence_code (handler_trees all.now) (stmts_code (site visible.old leaving taken exceptions.now) (stmt_trees body.now))
            (λ q. handlers_code (site visible.old leaving taken exceptions.now) q [] (handler_trees all.now)))) }
        ensures timely { OnOk result (stmts_timely visible.old.scope (stmt_trees body.now) × handlers_timely visible.old.scope (handler_trees all.now)) }
        ensures same { OnOk result (visible.new ≡ visible.old) }
    {
        if all.is_empty() {
            return self.statements(visible, leaving, taken, exceptions, body);
        }
        let (cover, jump) = self.covered(visible, leaving, taken, exceptions, body)?;
        self.handlers(visible, leaving, taken, exceptions, all, cover, jump)?;
        Ok(())
    }

    /// Adds statements, and a jump over their handlers, which waits for the end; returns what the rows of the handlers cover, and where the jump is.
    #[cycle(sketched)]
    pub(crate) fn covered(
        &mut self,
        visible: &mut Visible,
        leaving: Leaving,
        taken: usize,
        exceptions: &[Text],
        body: &[Stmt],
    ) -> Result<(Row, usize), AllocError>
        ensures made { OnOk result (self.new ≡ adds (adds self.old (stmts_code (site visible.old leaving taken exceptions.now) (stmt_trees body.now)))
            (coded (one 0 (op.Jump 0)))) }
        ensures cover { IfOk result (λ over. over.0 ≡ covered (end_of self.old)
            (end_of (adds self.old (stmts_code (site visible.old leaving taken exceptions.now) (stmt_trees body.now))))) }
        ensures jump { IfOk result (λ over. over.1
            ≡ length (adds self.old (stmts_code (site visible.old leaving taken exceptions.now) (stmt_trees body.now))).made.code) }
        ensures timely { OnOk result (stmts_timely visible.old.scope (stmt_trees body.now)) }
        ensures same { OnOk result (visible.new ≡ visible.old) }
    {
        let start = self.end();
        self.statements(visible, leaving, taken, exceptions, body)?;
        let jump = self.many();
        self.put(0, Operation::Jump(0))?;
        let after = self.end();
        let cover = Row {
            start,
            end_: after,
            exception: 0,
            target: after,
        };
        Ok((cover, jump))
    }

    /// Adds handlers, and then their rows; the jump over them, and those after each, lead to the end.
    #[cycle(sketched)]
    pub(crate) fn handlers(
        &mut self,
        visible: &mut Visible,
        leaving: Leaving,
        taken: usize,
        exceptions: &[Text],
        all: &[Handler],
        cover: Row,
        jump: usize,
    ) -> Result<(), AllocError>
        ensures made { OnOk result ((whole : Sketched) → ClosesTo self.old (jump ∷ [])
            (handlers_code (site visible.old leaving taken exceptions.now) cover [] (handler_trees all.now)) whole → self.new ≡ whole) }
        ensures timely { OnOk result (handlers_timely visible.old.scope (handler_trees all.now)) }
        ensures same { OnOk result (visible.new ≡ visible.old) }
    {
        let more = above(taken)?;
        let inside = leaving.in_handler(narrow(taken));
        let mut own = self.no_rows();
        let mut waiting = self.no_places();
        waiting.push(jump)?;
        for handler in all {
            let target = self.end();
            add_choices(
                &mut own,
                exceptions,
                Row { target, ..cover },
                &handler.choices,
            )?;
            self.keep(taken)?;
            self.statements(visible, inside, more, exceptions, &handler.statements)?;
            self.wait(&mut waiting)?;
        }
        self.handle(&own)?;
        self.rejoin(&waiting);
        Ok(())
    }
}
