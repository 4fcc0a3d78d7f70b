//! Expressions and their types (RM 4.4).

use crate::entity::EntityId;
use crate::predefined::Predefined;
use crate::resolver::Resolver;
use ada2012_tree::{BinaryOperator, Condition, Expr, ExprKind, Operand};
use std::alloc::AllocError;

// Does an operator give a truth value, whatever its operands (RM 4.5.2)?
fn is_relation(operator: BinaryOperator) -> bool {
    matches!(
        operator,
        BinaryOperator::Equal
            | BinaryOperator::NotEqual
            | BinaryOperator::Less
            | BinaryOperator::LessOrEqual
            | BinaryOperator::Greater
            | BinaryOperator::GreaterOrEqual
    )
}

// What is expected of the first operand: of a relation it is not known.
fn expected_first(operands: &[Operand], expected: Option<EntityId>) -> Option<EntityId> {
    match operands.first() {
        Some(operand) if is_relation(operand.operator) => None,
        _ => expected,
    }
}

impl Resolver {
    /// A predefined type.
    pub(crate) fn predefined(&self, wanted: Predefined) -> Option<EntityId> {
        self.names.of_predefined(wanted)
    }

    // Is a subtype one of this predefined type?
    fn is_predefined(&self, subtype: Option<EntityId>, wanted: Predefined) -> bool {
        match subtype {
            Some(subtype) => self.names.predefined(self.names.type_of(subtype)) == Some(wanted),
            None => false,
        }
    }

    // The type of a time and something else, or of a span and something else, none where no operand is one (RM D.8(12)).
    fn type_with_time(
        &self,
        operator: BinaryOperator,
        left: Option<EntityId>,
        right: Option<EntityId>,
    ) -> Option<EntityId> {
        let is_left_time = self.is_predefined(left, Predefined::Time);
        let is_right_time = self.is_predefined(right, Predefined::Time);
        let is_left_span = self.is_predefined(left, Predefined::TimeSpan);
        let is_right_span = self.is_predefined(right, Predefined::TimeSpan);
        if is_left_time && is_right_time {
            self.predefined(Predefined::TimeSpan)
        } else if is_left_time || is_right_time {
            self.predefined(Predefined::Time)
        } else if is_left_span && is_right_span && operator == BinaryOperator::Divide {
            self.predefined(Predefined::Integer)
        } else if is_left_span || is_right_span {
            self.predefined(Predefined::TimeSpan)
        } else {
            None
        }
    }

    // The type of the operation of an operator on operands of these subtypes. A literal has no type of its own.
    fn operated(
        &self,
        operator: BinaryOperator,
        left: Option<EntityId>,
        right: Option<EntityId>,
    ) -> Option<EntityId> {
        if is_relation(operator) {
            return self.predefined(Predefined::Boolean);
        }
        match operator {
            BinaryOperator::Concatenate => self.predefined(Predefined::String),
            BinaryOperator::Power => left,
            _ => match self.type_with_time(operator, left, right) {
                Some(of) => Some(of),
                None => Some(self.names.type_of(left.or(right)?)),
            },
        }
    }

    // Resolves operators with the operand after each. The operand before them has this subtype.
    #[cycle(expression)]
    fn operations(
        &mut self,
        operands: &[Operand],
        first: Option<EntityId>,
        expected: Option<EntityId>,
    ) -> Result<Option<EntityId>, AllocError> {
        let mut left = first;
        for operand in operands {
            let right = self.expression(&operand.value, left.or(expected))?;
            left = self.operated(operand.operator, left, right);
        }
        Ok(left)
    }

    // Resolves the conditions and values of an if expression.
    #[cycle(expression)]
    fn conditions(
        &mut self,
        conditions: &[Condition],
        expected: Option<EntityId>,
    ) -> Result<Option<EntityId>, AllocError> {
        let boolean = self.predefined(Predefined::Boolean);
        let mut of = None;
        for condition in conditions {
            self.expression(&condition.condition, boolean)?;
            let value = self.expression(&condition.value, expected)?;
            of = of.or(value);
        }
        Ok(of)
    }

    // Resolves what an expression is.
    #[cycle(expression)]
    fn kind(
        &mut self,
        kind: &ExprKind,
        expected: Option<EntityId>,
    ) -> Result<Option<EntityId>, AllocError> {
        match kind {
            ExprKind::Integer(_) | ExprKind::Real => Ok(None),
            ExprKind::Character(_) => Ok(self.predefined(Predefined::Character)),
            ExprKind::StringLiteral => Ok(self.predefined(Predefined::String)),
            ExprKind::Name(name) => {
                let part = self.name(name, expected)?;
                Ok(self.names.subtype_of_part(part))
            }
            ExprKind::Parenthesized(inner) => self.expression(inner, expected),
            ExprKind::Aggregate(associations) => {
                self.aggregate(associations, expected)?;
                Ok(expected)
            }
            ExprKind::Conditional(conditions, other) => {
                let of = self.conditions(conditions, expected)?;
                let last = self.expression(other, expected)?;
                Ok(of.or(last))
            }
            ExprKind::Unary(_, operand) => self.expression(operand, expected),
            ExprKind::Chain(first, operands) => {
                let wanted = expected_first(operands, expected);
                let left = self.expression(first, wanted)?;
                self.operations(operands, left, wanted)
            }
            ExprKind::Membership(value, _, choices) => {
                let of = self.expression(value, None)?;
                self.choices(choices, of)?;
                Ok(self.predefined(Predefined::Boolean))
            }
        }
    }

    /// Resolves an expression, at a place where a value of this subtype is expected, and returns its type or subtype, where that is known.
    #[cycle(expression)]
    pub(crate) fn expression(
        &mut self,
        value: &Expr,
        expected: Option<EntityId>,
    ) -> Result<Option<EntityId>, AllocError> {
        let subtype = self.kind(&value.kind, expected)?;
        self.names.note_type(value.span, subtype)?;
        Ok(subtype)
    }

    /// Resolves an expression, if there is one.
    pub(crate) fn optional_expression(
        &mut self,
        value: Option<&Expr>,
        expected: Option<EntityId>,
    ) -> Result<(), AllocError> {
        if let Some(value) = value {
            self.expression(value, expected)?;
        }
        Ok(())
    }

    /// Resolves a condition.
    pub(crate) fn condition(&mut self, value: &Expr) -> Result<(), AllocError> {
        let boolean = self.predefined(Predefined::Boolean);
        self.expression(value, boolean)?;
        Ok(())
    }
}
