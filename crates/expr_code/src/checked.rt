//! The code of expressions whose values are checked against a subtype (RM 4.6, 6.4.1).
ghost use Rattle.std.specs.Prelude.{◌≡◌, option_map, OnOk};
ghost use Rattle.ada_tree.specs.ExpressionTree.{expr_tree};
ghost use Rattle.types.specs.Entities.{form_value};
ghost use Rattle.expr_code.specs.Emitting.{has_numbers};
ghost use Rattle.expr_code.specs.ExpressionCode.{check_code, expr_code, range_check, value_code};
ghost use Rattle.expr_code.specs.Pieces.{adds};
ghost use Rattle.expr_soundness.specs.BoundsLaw.{is_inside};

use crate::fragment::{Fragment, above};
use crate::visible::Visible;
use ada_tree::Expr;
use image::Operation;
use std::alloc::AllocError;
use types::{Subtype, TypeForm, bounds};

/// Whether every number between these bounds is one of the subtype.
fn is_inside(bounds: (i64, i64), subtype: Subtype) -> bool
    ensures { result ≡ is_inside bounds subtype }
{
    subtype.first <= bounds.0 && bounds.1 <= subtype.last
}

//// Whether the values of a type of this form are numbers.
pub fn has_numbers(form: Option<&TypeForm>) -> bool
    ensures { result ≡ has_numbers (option_map (λ f. form_value f.now) form.entry) }
{
    matches!(
        form,
        Some(TypeForm::Integer | TypeForm::Time | TypeForm::TimeSpan)
    )
}

impl Fragment {
    /// Adds the code of an expression, and of the check that its value lies in a subtype, where one is given, which has numbers, and the bounds of the
    /// expression don't say that it lies there.
    #[cycle(expression)]
    #[tactic(auto, using(crate::proofs::FormsMade::checked_behind))]
    pub fn checked(
        &mut self,
        visible: &Visible,
        depth: usize,
        check: Option<Subtype>,
        e: &Expr,
    ) -> Result<(), AllocError>
        ensures made { OnOk result (self.new ≡ adds self.old (value_code visible.now depth check (expr_tree e.now)
            (expr_code visible.now depth (expr_tree e.now)))) }
    {
        self.expression(visible, depth, e)?;
        match check {
            Some(subtype) if has_numbers(visible.scope.form(subtype.type_number)) => {
                self.check(above(depth)?, bounds(&visible.scope, e), subtype)
            }
            _ => Ok(()),
        }
    }

    // Adds the check that the value on top of the operand stack, which has `depth` words, lies in a subtype of numbers (RM 3.5, 4.6). It is left out where
    // these bounds of the value lie inside the subtype.
    #[tactic(auto, using(crate::proofs::Pieces::adds_nothing))]
    fn check(
        &mut self,
        depth: usize,
        bounds: (i64, i64),
        subtype: Subtype,
    ) -> Result<(), AllocError>
        ensures made { OnOk result (self.new ≡ adds self.old (check_code (is_inside bounds subtype) depth subtype)) }
    {
        if is_inside(bounds, subtype) {
            return Ok(());
        }
        self.check_range(depth, subtype)
    }

    /// Adds the check that the number on top of the operand stack, which has `depth` words, lies in a subtype.
    pub fn check_range(&mut self, depth: usize, subtype: Subtype) -> Result<(), AllocError>
        ensures made { OnOk result (self.new ≡ adds self.old (range_check depth subtype)) }
    {
        let one = above(depth)?;
        self.put(depth, Operation::Push(subtype.first))?;
        self.put(one, Operation::Push(subtype.last))?;
        self.put(above(one)?, Operation::CheckRange)
    }
}
