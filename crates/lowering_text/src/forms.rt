//! Which forms expressions, names and types have.

use ada2012_lexer::Span;
use ada2012_names::TypeForm;
use ada2012_tree::{Association, Choice, Expr, ExprKind, Identifier, Name, Selector};

/// Is an expression an aggregate, or one that is qualified?
pub fn is_aggregate(e: &Expr) -> bool {
    match &e.kind {
        ExprKind::Aggregate(_) => true,
        ExprKind::Name(name) => match name.selectors.as_slice() {
            [.., Selector::Qualified(_, operand)] => {
                matches!(operand.kind, ExprKind::Aggregate(_))
            }
            _ => false,
        },
        _ => false,
    }
}

/// The associations of an aggregate, also of a qualified one.
pub fn associations_of(e: &Expr) -> &[Association] {
    match &e.kind {
        ExprKind::Aggregate(associations) => associations,
        ExprKind::Name(name) => match name.selectors.as_slice() {
            [.., Selector::Qualified(_, operand)] => match &operand.kind {
                ExprKind::Aggregate(associations) => associations,
                _ => &[],
            },
            _ => &[],
        },
        _ => &[],
    }
}

/// The identifier that is all of a choice.
pub fn chosen_identifier(choice: &Choice) -> Option<&Identifier> {
    let Choice::Value(e) = choice else {
        return None;
    };
    let ExprKind::Name(name) = &e.kind else {
        return None;
    };
    if name.selectors.is_empty() {
        Some(&name.prefix)
    } else {
        None
    }
}

/// The identifier that a name ends with before its first parenthesis or apostrophe, and how many selectors are before that.
pub fn leading_identifier(name: &Name) -> (Span, usize) {
    let mut found = name.prefix.span;
    for (count, selector) in name.selectors.iter().enumerate() {
        match selector {
            Selector::Component(_, identifier) => found = identifier.span,
            _ => return (found, count),
        }
    }
    (found, name.selectors.len())
}

/// Is it a type of numbers or an enumeration type?
pub fn is_scalar(form: Option<TypeForm>) -> bool {
    matches!(
        form,
        Some(TypeForm::Enumeration) | Some(TypeForm::Integer) | Some(TypeForm::Modular)
    )
}
