//! The subtypes that are asked for where expressions are (RM 4.5, 5.2, 6.4.1): of those that have no type of their own, they give it.

use ada2012_names::{EntityId, TypeForm};
use ada2012_tree::{
    Alternative, Association, BinaryOperator, Choice, Condition, Declaration, DiscreteRange, Expr,
    ExprKind, Name, ObjectSubtype, Operand, Range, Selector, Statement,
};
use lowering_text::{Whole, chosen_identifier, is_within, leading_identifier};
use std::alloc::{AllocError, Global};

/// An expression, and the subtype that is asked for in its place.
#[derive(Clone, Copy)]
pub struct Asked<'a> {
    pub value: &'a Expr,
    pub subtype: EntityId,
}

/// The part of a record or a callee that an association with this place gives a value.
pub fn part_of(
    whole: &Whole<'_>,
    owner: EntityId,
    place: usize,
    association: &Association,
) -> Option<EntityId> {
    match association.choices.as_slice() {
        [] => whole.names.part_at(owner, place),
        [choice, ..] => whole
            .names
            .part_named(owner, &chosen_identifier(choice)?.name),
    }
}

fn subtype_of_part(
    whole: &Whole<'_>,
    owner: EntityId,
    place: usize,
    association: &Association,
) -> Option<EntityId> {
    whole
        .names
        .subtype_of(part_of(whole, owner, place, association)?)
}

/// Is it an array type?
pub fn is_array(whole: &Whole<'_>, id: EntityId) -> bool {
    whole.names.form_of(id) == Some(TypeForm::Array)
}

/// The subtype of what an association with this place gives a value: of the components of an array, else of a part.
pub fn subtype_of_value(
    whole: &Whole<'_>,
    owner: EntityId,
    place: usize,
    association: &Association,
) -> Option<EntityId> {
    if is_array(whole, owner) {
        whole.names.subtype_of(owner)
    } else {
        subtype_of_part(whole, owner, place, association)
    }
}

// Have all operands the type of the whole (RM 4.5.3, 4.5.5)?
fn are_of_one_type(operands: &[Operand]) -> bool {
    for operand in operands {
        match operand.operator {
            BinaryOperator::Add
            | BinaryOperator::Subtract
            | BinaryOperator::Multiply
            | BinaryOperator::Divide
            | BinaryOperator::Mod
            | BinaryOperator::Rem => {}
            _ => return false,
        }
    }
    true
}

#[cycle(asked)]
fn add_all_operands<'a>(
    whole: &Whole<'a>,
    asked: &mut Vec<Asked<'a>>,
    operands: &'a [Operand],
    subtype: EntityId,
) -> Result<(), AllocError> {
    for operand in operands {
        add(whole, asked, &operand.value, subtype)?;
    }
    Ok(())
}

#[cycle(asked)]
fn add_conditional<'a>(
    whole: &Whole<'a>,
    asked: &mut Vec<Asked<'a>>,
    conditions: &'a [Condition],
    subtype: EntityId,
) -> Result<(), AllocError> {
    for condition in conditions {
        add(whole, asked, &condition.value, subtype)?;
    }
    Ok(())
}

// The values of the parts of a record, an array or a call.
#[cycle(asked)]
fn add_parts<'a>(
    whole: &Whole<'a>,
    asked: &mut Vec<Asked<'a>>,
    associations: &'a [Association],
    owner: EntityId,
) -> Result<(), AllocError> {
    for (place, association) in associations.iter().enumerate() {
        let subtype = subtype_of_value(whole, owner, place, association);
        if let Some(subtype) = subtype {
            add(whole, asked, &association.value, subtype)?;
        }
    }
    Ok(())
}

// Adds an expression with the subtype that is asked for, and its parts of which others follow.
#[cycle(asked)]
fn add<'a>(
    whole: &Whole<'a>,
    asked: &mut Vec<Asked<'a>>,
    value: &'a Expr,
    subtype: EntityId,
) -> Result<(), AllocError> {
    asked.push(Asked { value, subtype })?;
    match &value.kind {
        ExprKind::Parenthesized(inner) => add(whole, asked, inner, subtype),
        ExprKind::Unary(_, operand) => add(whole, asked, operand, subtype),
        ExprKind::Chain(first, operands) if are_of_one_type(operands) => {
            add(whole, asked, first, subtype)?;
            add_all_operands(whole, asked, operands, subtype)
        }
        ExprKind::Conditional(conditions, other) => {
            add_conditional(whole, asked, conditions, subtype)?;
            add(whole, asked, other, subtype)
        }
        ExprKind::Aggregate(associations) => {
            add_parts(whole, asked, associations, whole.names.type_of(subtype))
        }
        _ => Ok(()),
    }
}

fn add_known<'a>(
    whole: &Whole<'a>,
    asked: &mut Vec<Asked<'a>>,
    value: &'a Expr,
    subtype: Option<EntityId>,
) -> Result<(), AllocError> {
    match subtype {
        Some(subtype) => add(whole, asked, value, subtype),
        None => Ok(()),
    }
}

fn add_optional<'a>(
    whole: &Whole<'a>,
    asked: &mut Vec<Asked<'a>>,
    value: &'a Option<Expr>,
    subtype: Option<EntityId>,
) -> Result<(), AllocError> {
    match value {
        Some(value) => add_known(whole, asked, value, subtype),
        None => Ok(()),
    }
}

fn add_bounds<'a>(
    whole: &Whole<'a>,
    asked: &mut Vec<Asked<'a>>,
    range: &'a Range,
    subtype: Option<EntityId>,
) -> Result<(), AllocError> {
    add_known(whole, asked, &range.first, subtype)?;
    add_known(whole, asked, &range.last, subtype)
}

fn add_choices<'a>(
    whole: &Whole<'a>,
    asked: &mut Vec<Asked<'a>>,
    choices: &'a [Choice],
    subtype: Option<EntityId>,
) -> Result<(), AllocError> {
    for choice in choices {
        match choice {
            Choice::Value(value) => add_known(whole, asked, value, subtype)?,
            Choice::Range(range) => add_bounds(whole, asked, range, subtype)?,
            Choice::Others(_) => {}
        }
    }
    Ok(())
}

fn add_alternatives<'a>(
    whole: &Whole<'a>,
    asked: &mut Vec<Asked<'a>>,
    alternatives: &'a [Alternative],
    subtype: Option<EntityId>,
) -> Result<(), AllocError> {
    for alternative in alternatives {
        add_choices(whole, asked, &alternative.choices, subtype)?;
    }
    Ok(())
}

/// The subtype of what a name of an object denotes.
pub fn subtype_of_object(whole: &Whole<'_>, name: &Name) -> Option<EntityId> {
    let mut subtype = whole.names.subtype_of(whole.denoted(name.prefix.span)?);
    for selector in name.selectors.as_slice() {
        subtype = match selector {
            Selector::Component(_, identifier) => {
                whole.names.subtype_of(whole.denoted(identifier.span)?)
            }
            Selector::Arguments(_, _) => whole.names.subtype_of(whole.names.type_of(subtype?)),
            _ => None,
        };
    }
    subtype
}

// The subtype of the first operand that has one.
fn operand_subtype(whole: &Whole<'_>, first: &Expr, operands: &[Operand]) -> Option<EntityId> {
    if let Some(subtype) = whole.names.type_at(first.span) {
        return Some(subtype);
    }
    for operand in operands {
        if let Some(subtype) = whole.names.type_at(operand.value.span) {
            return Some(subtype);
        }
    }
    None
}

fn add_operands<'a>(
    whole: &Whole<'a>,
    first: &'a Expr,
    operands: &'a [Operand],
    asked: &mut Vec<Asked<'a>>,
) -> Result<(), AllocError> {
    let subtype = operand_subtype(whole, first, operands);
    add_known(whole, asked, first, subtype)?;
    for operand in operands {
        if operand.operator != BinaryOperator::Power {
            add_known(whole, asked, &operand.value, subtype)?;
        }
    }
    Ok(())
}

fn add_of_expression<'a>(
    whole: &Whole<'a>,
    e: &'a Expr,
    asked: &mut Vec<Asked<'a>>,
) -> Result<(), AllocError> {
    match &e.kind {
        ExprKind::Chain(first, operands) => add_operands(whole, first, operands, asked),
        ExprKind::Aggregate(associations) => match whole.names.type_at(e.span) {
            Some(subtype) => add_parts(whole, asked, associations, whole.names.type_of(subtype)),
            None => Ok(()),
        },
        ExprKind::Membership(value, _, choices) => {
            add_choices(whole, asked, choices, whole.names.type_at(value.span))
        }
        ExprKind::Conditional(conditions, other) => match whole.names.type_at(e.span) {
            Some(subtype) => {
                add_conditional(whole, asked, conditions, subtype)?;
                add(whole, asked, other, subtype)
            }
            None => Ok(()),
        },
        _ => Ok(()),
    }
}

// The indexes of a component of an array.
fn add_indexes<'a>(
    whole: &Whole<'a>,
    asked: &mut Vec<Asked<'a>>,
    indexes: &'a [Association],
    array: EntityId,
) -> Result<(), AllocError> {
    for (place, index) in indexes.iter().enumerate() {
        let subtype = subtype_of_part(whole, array, place, index);
        add_known(whole, asked, &index.value, subtype)?;
    }
    Ok(())
}

// The actual parameters or indexes that follow a name.
fn add_of_name<'a>(
    whole: &Whole<'a>,
    name: &'a Name,
    asked: &mut Vec<Asked<'a>>,
) -> Result<(), AllocError> {
    let (last, count) = leading_identifier(name);
    let Some(Selector::Arguments(_, arguments)) = name.selectors.get(count) else {
        return Ok(());
    };
    let Some(id) = whole.denoted(last) else {
        return Ok(());
    };
    if whole.is_callable(id) {
        return add_parts(whole, asked, arguments, id);
    }
    match whole.names.subtype_of(id) {
        Some(subtype) if whole.names.form_of(subtype) == Some(TypeForm::Array) => {
            add_indexes(whole, asked, arguments, whole.names.type_of(subtype))
        }
        _ => Ok(()),
    }
}

// The subtype of the result of the function that a place is in.
fn result_around(whole: &Whole<'_>, place: u32) -> Option<EntityId> {
    let mut found = None;
    for declaration in whole.parts.declarations.as_slice() {
        if let Declaration::SubprogramBody(span, specification, _, _) = declaration {
            if is_within(place, *span) {
                found = whole.declared(specification.name.span);
            }
        }
    }
    whole.names.subtype_of(found?)
}

fn add_of_statement<'a>(
    whole: &Whole<'a>,
    statement: &'a Statement,
    asked: &mut Vec<Asked<'a>>,
) -> Result<(), AllocError> {
    match statement {
        Statement::Assignment(_, target, value) => {
            add_known(whole, asked, value, subtype_of_object(whole, target))
        }
        Statement::Return(span, value) => {
            add_optional(whole, asked, value, result_around(whole, span.start))
        }
        Statement::Case(_, value, alternatives) => {
            add_alternatives(whole, asked, alternatives, whole.names.type_at(value.span))
        }
        _ => Ok(()),
    }
}

// The subtype of which an object or a component is, by its name.
fn named_subtype(whole: &Whole<'_>, subtype: &ObjectSubtype) -> Option<EntityId> {
    match subtype {
        ObjectSubtype::Subtype(own) => whole.denoted_subtype(&own.name),
        ObjectSubtype::Array(_) => None,
    }
}

fn add_of_declaration<'a>(
    whole: &Whole<'a>,
    declaration: &'a Declaration,
    asked: &mut Vec<Asked<'a>>,
) -> Result<(), AllocError> {
    match declaration {
        Declaration::Object(object) => {
            add_optional(
                whole,
                asked,
                &object.value,
                named_subtype(whole, &object.subtype),
            )
        }
        Declaration::ExpressionFunction(_, specification, value, _) => {
            match whole.declared(specification.name.span) {
                Some(id) => add_known(whole, asked, value, whole.names.subtype_of(id)),
                None => Ok(()),
            }
        }
        _ => Ok(()),
    }
}

fn add_of_range<'a>(
    whole: &Whole<'a>,
    range: &'a DiscreteRange,
    asked: &mut Vec<Asked<'a>>,
) -> Result<(), AllocError> {
    match range {
        DiscreteRange::Bounds(range) => {
            let first = whole.names.type_at(range.first.span);
            let last = whole.names.type_at(range.last.span);
            add_known(whole, asked, &range.first, last)?;
            add_known(whole, asked, &range.last, first)
        }
        DiscreteRange::Constrained(_, name, range) => {
            add_bounds(whole, asked, range, whole.names.type_at(name.span))
        }
        DiscreteRange::Name(_) => Ok(()),
    }
}

// Where declarations ask for a subtype.
fn add_of_declarations<'a>(
    whole: &Whole<'a>,
    asked: &mut Vec<Asked<'a>>,
) -> Result<(), AllocError> {
    for declaration in whole.parts.declarations.as_slice() {
        add_of_declaration(whole, declaration, asked)?;
    }
    for component in whole.parts.components.as_slice() {
        add_optional(
            whole,
            asked,
            &component.value,
            named_subtype(whole, &component.subtype),
        )?;
    }
    for formal in whole.parts.formals.as_slice() {
        add_optional(
            whole,
            asked,
            &formal.default,
            whole.denoted_subtype(&formal.subtype),
        )?;
    }
    for indication in whole.parts.indications.as_slice() {
        if let Some(range) = &indication.range {
            add_bounds(whole, asked, range, whole.denoted_subtype(&indication.name))?;
        }
    }
    for range in whole.parts.discrete_ranges.as_slice() {
        add_of_range(whole, range, asked)?;
    }
    Ok(())
}

/// The expressions in whose places a subtype is asked for, and these subtypes.
pub fn expressions_asked_for<'a>(
    whole: &Whole<'a>,
    alloc: Global,
) -> Result<Vec<Asked<'a>>, AllocError> {
    let mut asked = Vec::new(alloc);
    add_of_declarations(whole, &mut asked)?;
    for statement in whole.parts.statements.as_slice() {
        add_of_statement(whole, statement, &mut asked)?;
    }
    for e in whole.parts.expressions.as_slice() {
        add_of_expression(whole, e, &mut asked)?;
    }
    for name in whole.parts.names.as_slice() {
        add_of_name(whole, name, &mut asked)?;
    }
    Ok(asked)
}
