//! The alternatives of case statements, as they are added to what is put together (RM 5.4): the value stays on the operand stack until one is found.
ghost use Rattle.std.specs.Prelude.{◌≡◌, map, OnOk};
ghost use Rattle.ada_tree.specs.ExpressionTree.{expr_tree};
ghost use Rattle.ada_tree.specs.StatementTree.{alternative_trees, choices_tree, stmt_trees, Values};
ghost use Rattle.stmt_code.specs.Drafting.{adds, OpensParts};
ghost use Rattle.stmt_code.specs.StatementCode.{alternative_code, alternatives_code, site, stmts_code};
ghost use Rattle.stmt_code.specs.Timely.{alternatives_timely, stmts_timely};

use crate::sketch::Sketch;
use ada_tree::{Alternative, CaseChoices, Expr, Stmt};
use expr_code::Visible;
use image::Operation;
use lexer::Text;
use part_code::Leaving;
use std::alloc::AllocError;

impl Sketch {
    /// Adds the code of alternatives, one after another, and what drops a value that is left, which legal choices never leave.
    #[cycle(sketched)]
    pub(crate) fn alternatives(
        &mut self,
        visible: &mut Visible,
        leaving: Leaving,
        taken: usize,
        exceptions: &[Text],
        all: &[Alternative],
    ) -> Result<(), AllocError>
        ensures made { OnOk result (self.new ≡ adds self.old (
            alternatives_code (site visible.old leaving taken exceptions.now) (alternative_trees all.now))) }
        ensures timely { OnOk result (alternatives_timely visible.old.scope (alternative_trees all.now)) }
        ensures same { OnOk result (visible.new ≡ visible.old) }
    {
        let mut waiting = self.no_places();
        for alternative in all {
            self.alternative(
                visible,
                leaving,
                taken,
                exceptions,
                alternative,
                &mut waiting,
            )?;
        }
        self.put(1, Operation::Drop)?;
        self.rejoin(&waiting);
        Ok(())
    }

    // Adds an alternative: its choices, its statements, and a jump that waits for the end.
    #[cycle(sketched)]
    fn alternative(
        &mut self,
        visible: &mut Visible,
        leaving: Leaving,
        taken: usize,
        exceptions: &[Text],
        alternative: &Alternative,
        waiting: &mut Vec<usize>,
    ) -> Result<(), AllocError>
        ensures opens { OnOk result (OpensParts self.old waiting.old.items (λ others. alternative_code visible.old.scope
            (choices_tree alternative.now.choices)
            (stmts_code (site visible.old leaving taken exceptions.now) (stmt_trees alternative.now.statements.items)) others)
            self.new waiting.new.items) }
        ensures timely { OnOk result (stmts_timely visible.old.scope (stmt_trees alternative.now.statements.items)) }
        ensures same { OnOk result (visible.new ≡ visible.old) }
    {
        match &alternative.choices {
            CaseChoices::Values(choices) => {
                let body = &alternative.statements;
                self.chosen(visible, leaving, taken, exceptions, body, choices, waiting)
            }
            CaseChoices::Others(_) => {
                self.put(1, Operation::Drop)?;
                self.statements(visible, leaving, taken, exceptions, &alternative.statements)?;
                self.wait(waiting)?;
                Ok(())
            }
        }
    }

    // Adds statements that are chosen by values.
    #[cycle(sketched)]
    fn chosen(
        &mut self,
        visible: &mut Visible,
        leaving: Leaving,
        taken: usize,
        exceptions: &[Text],
        body: &[Stmt],
        choices: &[Expr],
        waiting: &mut Vec<usize>,
    ) -> Result<(), AllocError>
        ensures opens { OnOk result (OpensParts self.old waiting.old.items (λ others. alternative_code visible.old.scope
            (Values (map expr_tree choices.now))
            (stmts_code (site visible.old leaving taken exceptions.now) (stmt_trees body.now)) others) self.new waiting.new.items) }
        ensures timely { OnOk result (stmts_timely visible.old.scope (stmt_trees body.now)) }
        ensures same { OnOk result (visible.new ≡ visible.old) }
    {
        self.choices(&visible.scope, choices)?;
        let next = self.many();
        self.put(1, Operation::Jump(0))?;
        self.put(1, Operation::Drop)?;
        self.statements(visible, leaving, taken, exceptions, body)?;
        self.wait(waiting)?;
        let end = self.end();
        self.lead(next, Operation::Jump(end));
        Ok(())
    }
}
