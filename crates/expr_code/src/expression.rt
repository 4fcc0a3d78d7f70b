//! The code of expressions (RM 4.4).
ghost use Rattle.std.specs.Prelude.{◌≡◌, ◌+◌, None, IfOk, OnOk};
ghost use Rattle.ada_tree.specs.ExpressionTree.{expr_tree};
ghost use Rattle.expr_code.specs.OperatorCode.{binary_operation};
ghost use Rattle.expr_code.specs.ExpressionCode.{expr_code, operand_code, operands_code, value_words};
ghost use Rattle.expr_code.specs.Pieces.{adds};

use crate::fragment::{Fragment, above, raised};
use crate::operation::{binary_operation, unary_operation};
use crate::visible::Visible;
use ada_tree::laws::{chains_by_parts, conditional_by_parts, names_by_parts};
use ada_tree::{BinaryOperator, Expr, Operand};
use image::Operation;
use std::alloc::AllocError;

impl Fragment {
    /// Adds the code of an expression, and returns how many words its value takes, as its own type has it.
    #[cycle(expression)]
    pub fn expression(
        &mut self,
        visible: &Visible,
        depth: usize,
        e: &Expr,
    ) -> Result<u16, AllocError>
        ensures words { IfOk result (λ words. words ≡ value_words visible.now (expr_tree e.now)) }
        ensures made { OnOk result (self.new ≡ adds self.old (expr_code visible.now depth (expr_tree e.now))) }
    {
        chains_by_parts();
        conditional_by_parts();
        names_by_parts();
        match e {
            Expr::Number(value, _) => {
                self.put(depth, Operation::Push(*value))?;
                Ok(1)
            }
            Expr::Name(name) => self.name(visible, depth, name),
            Expr::Parenthesized(_, inner) => self.expression(visible, depth, inner),
            Expr::Unary(operator, _, operand) => {
                self.expression(visible, depth, operand)?;
                match unary_operation(*operator) {
                    Some(operation) => {
                        self.put(above(depth)?, operation)?;
                        Ok(1)
                    }
                    None => Ok(1),
                }
            }
            Expr::Chain(first, second, more) => {
                self.expression(visible, depth, first)?;
                self.operand(visible, depth, second)?;
                self.operands(visible, depth, more)?;
                Ok(1)
            }
            Expr::Conditional(_, condition, value, elsifs, last) => {
                let mut waiting = Vec::new(self.alloc);
                self.expression(visible, depth, condition)?;
                let test = self.test(depth)?;
                let width = self.expression(visible, depth, value)?;
                self.close(raised(depth, width)?, test, &mut waiting)?;
                self.elsifs(visible, depth, width, elsifs, &mut waiting)?;
                self.expression(visible, depth, last)?;
                self.rejoin(&waiting);
                Ok(width)
            }
        }
    }

    // Adds the code of an operator and the operand behind it, which finds its left operand's value above `depth` words.
    #[cycle(expression)]
    fn operand(
        &mut self,
        visible: &Visible,
        depth: usize,
        operand: &Operand,
    ) -> Result<(), AllocError>
        ensures made { OnOk result (self.new ≡ adds self.old (operand_code depth operand.now.operator (binary_operation operand.now.operator)
            (expr_code visible.now (depth + 1) (expr_tree operand.now.value)) (expr_code visible.now depth (expr_tree operand.now.value)))) }
    {
        match binary_operation(operand.operator) {
            Some(operation) => {
                let second = above(depth)?;
                self.expression(visible, second, &operand.value)?;
                self.put(above(second)?, operation)
            }
            None => self.short_circuit(visible, depth, operand),
        }
    }

    // Adds the code of `and then` or `or else`: a copy of the left operand's value; where that decides, a jump past the right operand, whose value else takes
    // its place.
    #[cycle(expression)]
    fn short_circuit(
        &mut self,
        visible: &Visible,
        depth: usize,
        operand: &Operand,
    ) -> Result<(), AllocError>
        requires short { binary_operation operand.now.operator ≡ None }
        ensures made { OnOk result (self.new ≡ adds self.old (operand_code depth operand.now.operator (binary_operation operand.now.operator)
            (expr_code visible.now (depth + 1) (expr_tree operand.now.value)) (expr_code visible.now depth (expr_tree operand.now.value)))) }
    {
        let one = above(depth)?;
        self.put(one, Operation::Duplicate)?;
        let jump = self.instructions.len();
        self.put(above(one)?, Operation::JumpIfZero(0))?;
        self.put(one, Operation::Drop)?;
        self.expression(visible, depth, &operand.value)?;
        let end = self.end();
        match operand.operator {
            BinaryOperator::OrElse => self.patch(jump, Operation::JumpIfNotZero(end)),
            _ => self.patch(jump, Operation::JumpIfZero(end)),
        }
        Ok(())
    }

    // Adds the code of operators and the operands behind them, which finds the first one's left operand's value above `depth` words.
    #[cycle(expression)]
    fn operands(
        &mut self,
        visible: &Visible,
        depth: usize,
        all: &[Operand],
    ) -> Result<(), AllocError>
        ensures made { OnOk result (self.new ≡ adds self.old (operands_code visible.now depth all.now)) }
    {
        for operand in all {
            self.operand(visible, depth, operand)?;
        }
        Ok(())
    }
}
