//! Statements with others within, as they are added to what is put together (RM 5.1, 5.3, 5.6).
ghost use Rattle.std.specs.Prelude.{◌≡◌, ◌&&◌, map, OnOk};
ghost use Rattle.ada_tree.specs.ExpressionTree.{expr_tree};
ghost use Rattle.ada_tree.specs.StatementTree.{declaration_tree, elsif_trees, stmt_tree, stmt_trees};
ghost use Rattle.stmt_code.specs.Drafting.{adds, OpensParts, ◌▹◌};
ghost use Rattle.stmt_code.specs.StatementCode.{after_locals, elsifs_code, fork_code, guarded_code, locals_code, site, stmt_code, stmts_code};
ghost use Rattle.stmt_code.specs.Timely.{elsifs_timely, locals_seen, stmt_timely, stmts_timely};

use crate::marking::stmt_place;
use crate::sketch::Sketch;
use ada_tree::laws::statements_by_parts;
use ada_tree::{Declaration, ElsifPart, Expr, Stmt};
use declaration_rules::laws::names_are_added;
use expr_code::Visible;
use image::Operation;
use lexer::Text;
use part_code::{Extent, FrameWords, Leaving};
use std::alloc::AllocError;

// Whether both hold.
fn both(one: bool, other: bool) -> bool
    ensures { result ≡ (one && other) }
{
    one && other
}

impl Sketch {
    /// Adds the code of a statement, where its names are visible.
    #[cycle(sketched)]
    pub fn statement(
        &mut self,
        visible: &mut Visible,
        leaving: Leaving,
        taken: usize,
        exceptions: &[Text],
        statement: &Stmt,
    ) -> Result<(), AllocError>
        ensures made { OnOk result (self.new ≡ adds self.old (stmt_code (site visible.old leaving taken exceptions.now) (stmt_tree statement.now))) }
        ensures timely { OnOk result (stmt_timely visible.old.scope (stmt_tree statement.now)) }
        ensures same { OnOk result (visible.new ≡ visible.old) }
    {
        names_are_added();
        statements_by_parts();
        match statement {
            Stmt::Null(_) => Ok(()),
            Stmt::Assignment(name, value) => self.assign(visible, name, value),
            Stmt::Call(name) => self.call(visible, name),
            Stmt::Exit(_, condition) => self.exit(visible, leaving.exit, condition),
            Stmt::Return(..) => self.jump(leaving.return_),
            Stmt::Raise(_, name) => self.raise(exceptions, leaving.handled, name),
            Stmt::DelayUntil(_, until) => self.delay(visible, until),
            Stmt::If(_, condition, body, elsifs, others) => {
                if both(elsifs.is_empty(), others.is_empty()) {
                    return self.guarded(visible, leaving, taken, exceptions, body, condition);
                }
                let mut waiting = self.no_places();
                self.branch(
                    visible,
                    leaving,
                    taken,
                    exceptions,
                    body,
                    condition,
                    &mut waiting,
                )?;
                self.elsifs(visible, leaving, taken, exceptions, elsifs, &mut waiting)?;
                self.statements(visible, leaving, taken, exceptions, others)?;
                self.rejoin(&waiting);
                Ok(())
            }
            Stmt::Case(_, value, all) => {
                self.expression(visible, 0, value)?;
                self.alternatives(visible, leaving, taken, exceptions, all)
            }
            Stmt::Loop(_, iteration, body) => {
                self.repeated(visible, leaving, taken, exceptions, body, iteration)
            }
            Stmt::Block(_, declarations, body, handlers) => {
                if handlers.is_empty() {
                    return self.block(visible, leaving, taken, exceptions, body, declarations);
                }
                let extent = Extent::of(visible, FrameWords::new());
                let more = self.declarations(visible, taken, declarations)?;
                let (cover, jump) = self.covered(visible, leaving, more, exceptions, body)?;
                self.handlers(visible, leaving, more, exceptions, handlers, cover, jump)?;
                extent.restore(visible, &mut FrameWords::new());
                Ok(())
            }
            Stmt::Delay(..) => Ok(()),
            Stmt::Abort(..) => Ok(()),
            Stmt::Requeue(..) => Ok(()),
            Stmt::Accept(..) => Ok(()),
            Stmt::Select(..) => Ok(()),
        }
    }

    /// Adds the code of statements, one after another, each with the row of its place.
    #[cycle(sketched)]
    pub fn statements(
        &mut self,
        visible: &mut Visible,
        leaving: Leaving,
        taken: usize,
        exceptions: &[Text],
        all: &[Stmt],
    ) -> Result<(), AllocError>
        ensures made { OnOk result (self.new ≡ adds self.old (stmts_code (site visible.old leaving taken exceptions.now) (stmt_trees all.now))) }
        ensures timely { OnOk result (stmts_timely visible.old.scope (stmt_trees all.now)) }
        ensures same { OnOk result (visible.new ≡ visible.old) }
    {
        for statement in all {
            let first = self.place()?;
            self.statement(visible, leaving, taken, exceptions, statement)?;
            self.mark(first, stmt_place(statement))?;
        }
        Ok(())
    }

    // Adds the one part of an `if`: nothing follows its statements, and so no jump (RM 5.3).
    #[cycle(sketched)]
    fn guarded(
        &mut self,
        visible: &mut Visible,
        leaving: Leaving,
        taken: usize,
        exceptions: &[Text],
        body: &[Stmt],
        condition: &Expr,
    ) -> Result<(), AllocError>
        ensures made { OnOk result (self.new ≡ adds self.old (guarded_code visible.old (expr_tree condition.now)
            (stmts_code (site visible.old leaving taken exceptions.now) (stmt_trees body.now)))) }
        ensures timely { OnOk result (stmts_timely visible.old.scope (stmt_trees body.now)) }
        ensures same { OnOk result (visible.new ≡ visible.old) }
    {
        self.expression(visible, 0, condition)?;
        let test = self.test()?;
        self.statements(visible, leaving, taken, exceptions, body)?;
        let end = self.end();
        self.lead(test, Operation::JumpIfZero(end));
        Ok(())
    }

    // Adds a part of an `if` among others, with a jump that waits for the end (RM 5.3).
    #[cycle(sketched)]
    fn branch(
        &mut self,
        visible: &mut Visible,
        leaving: Leaving,
        taken: usize,
        exceptions: &[Text],
        body: &[Stmt],
        condition: &Expr,
        waiting: &mut Vec<usize>,
    ) -> Result<(), AllocError>
        ensures opens { OnOk result (OpensParts self.old waiting.old.items (λ last. fork_code visible.old (expr_tree condition.now)
            (stmts_code (site visible.old leaving taken exceptions.now) (stmt_trees body.now)) last) self.new waiting.new.items) }
        ensures timely { OnOk result (stmts_timely visible.old.scope (stmt_trees body.now)) }
        ensures same { OnOk result (visible.new ≡ visible.old) }
    {
        self.expression(visible, 0, condition)?;
        let test = self.test()?;
        self.statements(visible, leaving, taken, exceptions, body)?;
        self.wait(waiting)?;
        let next = self.end();
        self.lead(test, Operation::JumpIfZero(next));
        Ok(())
    }

    // Adds the parts of an `if` after the first one.
    #[cycle(sketched)]
    fn elsifs(
        &mut self,
        visible: &mut Visible,
        leaving: Leaving,
        taken: usize,
        exceptions: &[Text],
        elsifs: &[ElsifPart],
        waiting: &mut Vec<usize>,
    ) -> Result<(), AllocError>
        ensures opens { OnOk result (OpensParts self.old waiting.old.items
            (elsifs_code (site visible.old leaving taken exceptions.now) (elsif_trees elsifs.now)) self.new waiting.new.items) }
        ensures timely { OnOk result (elsifs_timely visible.old.scope (elsif_trees elsifs.now)) }
        ensures same { OnOk result (visible.new ≡ visible.old) }
    {
        for part in elsifs {
            self.branch(
                visible,
                leaving,
                taken,
                exceptions,
                &part.statements,
                &part.condition,
                waiting,
            )?;
        }
        Ok(())
    }

    // Adds the code of a block without handlers (RM 5.6), at whose end its names go out of sight.
    #[cycle(sketched)]
    fn block(
        &mut self,
        visible: &mut Visible,
        leaving: Leaving,
        taken: usize,
        exceptions: &[Text],
        body: &[Stmt],
        declarations: &[Declaration],
    ) -> Result<(), AllocError>
        ensures made { OnOk result (self.new ≡ adds self.old (
            locals_code (site visible.old leaving taken exceptions.now) (map declaration_tree declarations.now)
            ▹ stmts_code (after_locals (site visible.old leaving taken exceptions.now) (map declaration_tree declarations.now)) (stmt_trees body.now))) }
        ensures timely { OnOk result (stmts_timely (locals_seen visible.old.scope (map declaration_tree declarations.now)) (stmt_trees body.now)) }
        ensures same { OnOk result (visible.new ≡ visible.old) }
    {
        names_are_added();
        let extent = Extent::of(visible, FrameWords::new());
        let more = self.declarations(visible, taken, declarations)?;
        self.statements(visible, leaving, more, exceptions, body)?;
        extent.restore(visible, &mut FrameWords::new());
        Ok(())
    }
}
