//! The code of whole subprograms: procedures and functions of a package (RM 6.3), and main (RM 10.2).
ghost use Rattle.std.specs.Prelude.{◌≡◌, ◌≤◌, ◌+◌, false, length, true, IfErr, IfOk, OnOk};
ghost use Rattle.base.specs.declared.limits.TheConstants.{FRAME_WORDS};
ghost use Rattle.ada_tree.specs.ExpressionTree.{expr_tree};
ghost use Rattle.ada_tree.specs.ProgramTree.{body_tree};
ghost use Rattle.declaration_rules.specs.BodyNames.{formals_scope};
ghost use Rattle.expr_code.specs.Emitting.{IsFit};
ghost use Rattle.expr_code.specs.Refusing.{IsRefused};
ghost use Rattle.stmt_code.specs.WholeRefusals.{body_labels, RefusesFunction, RefusesProcedure};
ghost use Rattle.part_code.specs.Bounds.{main_bound};
ghost use Rattle.part_code.specs.Needs.{are_unknown, RefusesMain};
ghost use Rattle.part_code.specs.Providing.{HasWhatCodeNeeds};
ghost use Rattle.expr_code.specs.Providing.{is_scalar_form};
ghost use Rattle.types.specs.Scopes.{form_at};
ghost use Rattle.part_code.specs.Emitting.{HasEntries};
ghost use Rattle.stmt_code.specs.Emitting.{IsAcceptedRun};
ghost use Rattle.part_code.specs.Rows.{body_rows};
ghost use Rattle.stmt_code.specs.Subprograms.{AddsFunction, AddsMain, AddsProcedure, AreLegalFormals, CallsProcedures, IsCalledFunction, IsCalledProcedure, KeepsRules};
ghost use Rattle.expr_soundness.specs.SoundScopes.{SoundScope};

use crate::draft::Draft;
use crate::laws::body_laws;
use crate::main_calls::add_main;
use crate::returning::return_value;
use crate::selection::narrow;
use ada_tree::{Body, Expr, Formal, MainStatement};
use declaration_rules::laws::names_are_added;
use expr_code::{Refusal, Visible};
use part_code::{Extent, behind};
use types::Subtype;

/// How many words a subprogram has (docs/FORMATS.md): those that it is passed, those that it gives back, and the most of its frame and on its operand stack.
#[derive(Clone, Copy, PartialEq, Eq, Debug)]
pub struct SubprogramWords {
    pub passed: u16,
    pub results: u16,
    pub locals: u16,
    pub stack: u16,
}

impl SubprogramWords {
    // These words, where a frame and its operand stack have no more than 512 words together (docs/FORMATS.md).
    fn within_frame(self) -> Result<SubprogramWords, Refusal>
        ensures same { IfOk result (λ words. words ≡ self) }
        ensures fits { OnOk result (self.locals + self.stack ≤ FRAME_WORDS) }
        ensures refused { IfErr result (λ why. IsRefused 0 (self.locals + self.stack) why) }
    {
        behind(self.locals, self.stack)?;
        Ok(self)
    }
}

impl Draft {
    /// Adds the code of a procedure, where the names before its parameters are visible.
    pub fn procedure(
        &mut self,
        visible: &mut Visible,
        formals: &[Formal],
        body: &Body,
    ) -> Result<SubprogramWords, Refusal>
        requires front { SoundScope visible.old.scope }
        requires head { AreLegalFormals visible.old.scope formals.now }
        requires entries { HasEntries visible.old }
        requires covered { HasWhatCodeNeeds self.old.exceptions.items visible.old }
        requires legal { IsAcceptedRun (formals_scope visible.old.scope formals.now) (body_tree body.now).declarations (body_tree body.now).statements
            (body_tree body.now).handlers }
        ensures adds { IfOk result (λ words. AddsProcedure visible.old self.old formals.now (body_tree body.now) words self.new) }
        ensures called { IfOk result (λ words. IsCalledProcedure visible.old.scope formals.now words) }
        ensures refused { IfErr result (λ why. RefusesProcedure visible.old self.old formals.now (body_tree body.now) why) }
        ensures labels { OnOk result (self.new.labels ≡ body_labels self.old.labels (body_tree body.now)) }
        ensures rows { OnOk result (length self.new.rows.items ≡ body_rows (length self.old.rows.items) (body_tree body.now)) }
        ensures keeps { IfOk result (λ words. KeepsRules true visible.old self.old words self.new) }
        ensures same { OnOk result (visible.new ≡ visible.old) }
    {
        names_are_added();
        body_laws();
        let extent = Extent::of(visible, self.words);
        let placed = self.formals(visible, formals)?;
        self.code.deepest = 0;
        let taken = usize::from(self.words.taken);
        let mut sketch = self.sketch();
        let height = sketch.procedure(visible, taken, &self.exceptions, &placed.formals, body)?;
        self.join(sketch)?;
        let words = SubprogramWords {
            passed: placed.passed,
            results: narrow(height),
            locals: self.words.most,
            stack: self.code.deepest,
        }
        .within_frame()?;
        extent.restore(visible, &mut self.words);
        Ok(words)
    }

    /// Adds the code of a function that returns the value of an expression, which is checked against the subtype of its result, where the names before its
    /// parameters are visible.
    pub fn function(
        &mut self,
        visible: &mut Visible,
        formals: &[Formal],
        subtype: Subtype,
        value: &Expr,
    ) -> Result<SubprogramWords, Refusal>
        requires front { SoundScope visible.old.scope }
        requires head { AreLegalFormals visible.old.scope formals.now }
        requires entries { HasEntries visible.old }
        requires covered { HasWhatCodeNeeds self.old.exceptions.items visible.old }
        requires scalar { is_scalar_form (form_at visible.old.scope subtype.type_number) ≡ true }
        requires fit { IsFit (formals_scope visible.old.scope formals.now) subtype (expr_tree value.now) }
        ensures adds { IfOk result (λ words. AddsFunction visible.old self.old formals.now subtype (expr_tree value.now) words self.new) }
        ensures called { IfOk result (λ words. IsCalledFunction visible.old.scope formals.now subtype words) }
        ensures refused { IfErr result (λ why. RefusesFunction visible.old self.old formals.now (expr_tree value.now) why) }
        ensures labels { OnOk result (self.new.labels ≡ self.old.labels) }
        ensures rows { OnOk result (self.new.rows ≡ self.old.rows) }
        ensures keeps { IfOk result (λ words. KeepsRules false visible.old self.old words self.new) }
        ensures same { OnOk result (visible.new ≡ visible.old) }
    {
        names_are_added();
        body_laws();
        let extent = Extent::of(visible, self.words);
        let placed = self.formals(visible, formals)?;
        self.code.deepest = 0;
        let mut fragment = self.code.fragment();
        return_value(&mut fragment, visible, subtype, value)?;
        self.code.append(&fragment)?;
        let words = SubprogramWords {
            passed: placed.passed,
            results: 1,
            locals: self.words.most,
            stack: self.code.deepest,
        }
        .within_frame()?;
        extent.restore(visible, &mut self.words);
        Ok(words)
    }

    /// Adds the code of main, where the names of its package are visible.
    pub fn main(
        &mut self,
        visible: &Visible,
        statements: &[MainStatement],
    ) -> Result<SubprogramWords, Refusal>
        requires called { CallsProcedures visible.now.scope statements.now }
        requires known { are_unknown visible.now statements.now ≡ false }
        ensures adds { IfOk result (λ words. AddsMain visible.now self.old statements.now words self.new) }
        ensures refused { IfErr result (λ why. RefusesMain visible.now self.old.code statements.now (main_bound statements.now) why) }
        ensures labels { OnOk result (self.new.labels ≡ self.old.labels) }
        ensures rows { OnOk result (self.new.rows ≡ self.old.rows) }
        ensures keeps { IfOk result (λ words. KeepsRules true visible.now self.old words self.new) }
    {
        self.code.deepest = 0;
        let mut fragment = self.code.fragment();
        add_main(&mut fragment, visible, statements)?;
        self.code.append(&fragment)?;
        let words = SubprogramWords {
            passed: 0,
            results: 0,
            locals: 0,
            stack: self.code.deepest,
        }
        .within_frame()?;
        Ok(words)
    }
}
