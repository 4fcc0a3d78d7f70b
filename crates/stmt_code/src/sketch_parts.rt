//! Statements without others within, as they are added to what is put together (RM 5.2, 5.7, 6.4, 6.5, 9.5.3, 9.6, 11.3).
ghost use Rattle.std.specs.Prelude.{◌≡◌, map, true, OnOk, Some};
ghost use Rattle.ada_tree.specs.ExpressionTree.{argument_trees, expr_tree, name_tree};
ghost use Rattle.ada_tree.specs.StatementTree.{optional_tree, range_tree};
ghost use Rattle.expr_code.specs.Pieces.{one};
ghost use Rattle.image.specs.declared.instruction.Operation.TheVariants as op;
ghost use Rattle.part_code.specs.Lines.{line_of};
ghost use Rattle.part_code.specs.ObjectCode.{object_code};
ghost use Rattle.expr_code.specs.Seeing.{external_of, external_profile, subprogram_of};
ghost use Rattle.part_code.specs.EntryNames.{entry_behind};
ghost use Rattle.part_code.specs.Passing.{actuals_behind};
ghost use Rattle.types.specs.Entities.{profile_value};
ghost use Rattle.stmt_code.specs.Drafting.{adds, coded, labelled, takes};
ghost use Rattle.stmt_code.specs.SimpleCode.{assignment_code, bounds_code, call_form, choices_code, delay_code, exit_code, jump_code, last_code, next_code, null_code, procedure_code, raise_code, through_code};
ghost use Rattle.stmt_code.specs.StatementCode.{called_code, line_code, local_object};
ghost use Rattle.types.specs.Bounds.{bounds_of};
ghost use Rattle.types.specs.Scopes.{integer};
ghost use Rattle.expr_soundness.specs.BoundsLaw.{is_inside};

use crate::initial_values::initialise;
use crate::selection::{add_choices, narrow};
use crate::simple;
use crate::sketch::Sketch;
use crate::turning::{add_bounds, count, test_last, test_null};
use ada_tree::{Argument, Expr, Identifier, NameExpr, Range};
use expr_code::Visible;
use expr_code::fragment::raised;
use image::Operation;
use lexer::Text;
use part_code::{Turns, is_own_entry, line_of, operation_of};
use std::alloc::AllocError;
use types::{Profile, Scope, Subtype, bounds};

impl Sketch {
    /// Adds the code of an assignment (RM 5.2).
    pub fn assign(
        &mut self,
        visible: &Visible,
        name: &NameExpr,
        value: &Expr,
    ) -> Result<(), AllocError>
        ensures made { OnOk result (self.new ≡ adds self.old (coded (assignment_code visible.now (name_tree name.now) (expr_tree value.now)))) }
    {
        simple::assign(&mut self.fragment, visible, name, value)?;
        Ok(())
    }

    /// Adds the code of an exit (RM 5.7).
    pub fn exit(
        &mut self,
        visible: &Visible,
        way: Option<u16>,
        condition: &Option<Expr>,
    ) -> Result<(), AllocError>
        ensures made { OnOk result (self.new ≡ adds self.old (coded (exit_code visible.now way (optional_tree expr_tree condition.now)))) }
    {
        simple::exit(&mut self.fragment, visible, way, condition)?;
        Ok(())
    }

    /// Adds a jump to a way out, if there is one (RM 5.7, 6.5).
    pub fn jump(&mut self, way: Option<u16>) -> Result<(), AllocError>
        ensures made { OnOk result (self.new ≡ adds self.old (coded (jump_code way))) }
    {
        simple::jump(&mut self.fragment, way)?;
        Ok(())
    }

    /// Adds the code of a raise statement (RM 11.3).
    pub fn raise(
        &mut self,
        exceptions: &[Text],
        handled: Option<u16>,
        name: &Option<Identifier>,
    ) -> Result<(), AllocError>
        ensures made { OnOk result (self.new ≡ adds self.old (coded (raise_code exceptions.now handled name.now))) }
    {
        simple::raise(&mut self.fragment, exceptions, handled, name)?;
        Ok(())
    }

    /// Adds the code of a delay (RM 9.6).
    pub fn delay(&mut self, visible: &Visible, until: &Expr) -> Result<(), AllocError>
        ensures made { OnOk result (self.new ≡ adds self.old (coded (delay_code visible.now (expr_tree until.now)))) }
        ensures timely { is_inside (bounds_of visible.now.scope (expr_tree until.now)) integer ≡ true }
    {
        // (nothing is read of these: that they are held in 64 bits tells that the time is)
        bounds(&visible.scope, until);
        simple::delay(&mut self.fragment, visible, until)?;
        Ok(())
    }

    /// Adds the tests of choices by their values (RM 5.4).
    pub fn choices(&mut self, scope: &Scope, choices: &[Expr]) -> Result<(), AllocError>
        ensures made { OnOk result (self.new ≡ adds self.old (coded (choices_code scope.now (map expr_tree choices.now)))) }
    {
        add_choices(&mut self.fragment, scope, choices)?;
        Ok(())
    }

    /// Adds the bounds of a range, and what stores them (RM 5.5).
    pub fn bounds(
        &mut self,
        visible: &Visible,
        range: &Range,
        turns: Turns,
    ) -> Result<(), AllocError>
        ensures made { OnOk result (self.new ≡ adds self.old (coded (bounds_code visible.now (range_tree range.now) turns))) }
    {
        add_bounds(&mut self.fragment, visible, range, turns)?;
        Ok(())
    }

    /// Adds the test whether a range is null.
    pub fn test_null(&mut self, turns: Turns) -> Result<(), AllocError>
        ensures made { OnOk result (self.new ≡ adds self.old (coded (null_code turns))) }
    {
        test_null(&mut self.fragment, turns)?;
        Ok(())
    }

    /// Adds the test whether a loop parameter has its last value.
    pub fn test_last(&mut self, turns: Turns) -> Result<(), AllocError>
        ensures made { OnOk result (self.new ≡ adds self.old (coded (last_code turns))) }
    {
        test_last(&mut self.fragment, turns)?;
        Ok(())
    }

    /// Adds what gives a loop parameter its next value.
    pub fn count(&mut self, turns: Turns) -> Result<(), AllocError>
        ensures made { OnOk result (self.new ≡ adds self.old (coded (next_code turns))) }
    {
        count(&mut self.fragment, turns)?;
        Ok(())
    }

    /// Takes so many words of the frame.
    pub fn take(&mut self, words: usize)
        ensures made { self.new ≡ adds self.old (takes words) }
    {
        self.most = self.most.max(words);
    }

    // Adds what writes the number on the operand stack with a label.
    fn put_label(&mut self, label: &Text) -> Result<(), AllocError>
        ensures made { OnOk result (self.new ≡ adds self.old (labelled label.now (λ n. one 1 (op.PutLine n)))) }
    {
        let place = self.labels.place(label)?;
        self.fragment.put(1, Operation::PutLine(narrow(place)))?;
        Ok(())
    }

    /// Adds the code of a line, if it is one (docs/LANGUAGE.md, `Put` of Control_IO).
    #[tactic(auto, using(crate::proofs::PartsAdded::adds_then, crate::proofs::PartsAdded::adds_nothing))]
    pub fn line(&mut self, visible: &Visible, name: &NameExpr) -> Result<(), AllocError>
        ensures made { OnOk result (self.new ≡ adds self.old (line_code visible.now (line_of (name_tree name.now)))) }
    {
        match line_of(name) {
            Some((label, value)) => {
                self.expression(visible, 0, value)?;
                self.put_label(label)
            }
            None => Ok(()),
        }
    }

    // Adds the code of a call of a procedure with this profile (RM 6.4).
    fn call_procedure(
        &mut self,
        visible: &Visible,
        name: &NameExpr,
        profile: &Profile,
    ) -> Result<(), AllocError>
        ensures made { OnOk result (self.new ≡ adds self.old (coded (procedure_code visible.now (profile_value profile.now)
            (actuals_behind (name_tree name.now).selectors) (subprogram_of visible.now (name_tree name.now).first.name)))) }
    {
        simple::call_procedure(&mut self.fragment, visible, name, profile)?;
        Ok(())
    }

    // Adds the code of a call of an operation or an entry through the name of its protected object (RM 9.5.1, 9.5.3).
    fn call_through(
        &mut self,
        visible: &Visible,
        object: &Text,
        operation: &Text,
        arguments: &[Argument],
    ) -> Result<(), AllocError>
        ensures made { OnOk result (self.new ≡ adds self.old (coded (through_code visible.now (argument_trees arguments.now)
            (external_profile visible.now.scope object.now operation.now) (entry_behind visible.now.scope object.now operation.now)
            (external_of visible.now object.now operation.now)))) }
    {
        simple::call_through(&mut self.fragment, visible, object, operation, arguments)?;
        Ok(())
    }

    /// Adds the code of a call of a procedure or an entry, which may be named after its protected object, or of a line (RM 6.4, 9.5.3).
    pub fn call(&mut self, visible: &Visible, name: &NameExpr) -> Result<(), AllocError>
        ensures made { OnOk result (self.new ≡ adds self.old (called_code visible.now (name_tree name.now) (call_form visible.now (name_tree name.now)))) }
    {
        match visible.profile(&name.first.name) {
            Some(profile) => self.call_procedure(visible, name, profile),
            None => match operation_of(name) {
                Some((operation, arguments)) => {
                    self.call_through(visible, &name.first.name, &operation.name, arguments)
                }
                None => {
                    if is_own_entry(visible, &name.first.name) {
                        self.put(0, Operation::CheckBlocking)
                    } else {
                        self.line(visible, name)
                    }
                }
            },
        }
    }

    // Adds an object's initial value, and what stores its words in the frame from an offset on.
    fn first_value(
        &mut self,
        visible: &Visible,
        offset: u16,
        subtype: Subtype,
        value: &Option<Expr>,
    ) -> Result<(), AllocError>
        ensures made { OnOk result (self.new ≡ adds self.old (coded (object_code visible.now offset subtype (optional_tree expr_tree value.now)))) }
    {
        initialise(&mut self.fragment, visible, offset, subtype, value)?;
        Ok(())
    }

    /// Adds the code of the declaration of an object, whose words come after those that are taken (RM 3.3.1).
    #[tactic(auto, using(crate::proofs::PartsAdded::adds_then))]
    pub fn object(
        &mut self,
        visible: &Visible,
        taken: usize,
        subtype: Subtype,
        value: &Option<Expr>,
    ) -> Result<(), AllocError>
        ensures made { OnOk result (self.new ≡ adds self.old (local_object visible.now taken (Some subtype) (optional_tree expr_tree value.now))) }
    {
        let most = raised(taken, visible.scope.words(subtype))?;
        self.take(most);
        self.first_value(visible, narrow(taken), subtype, value)
    }
}
