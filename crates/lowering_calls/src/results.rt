//! Functions with declarations, several statements or composite results or formal parameters (RM 6.4, 6.5): procedures with a parameter for the result.

use ada2012_lexer::{Delimiter, Span, Token, TokenKind};
use ada2012_names::{EntityId, EntityKind, Predefined, TypeForm};
use ada2012_tree::{
    BinaryOperator, Body, Declaration, Expr, ExprKind, Formal, Iteration, Mode, Name, Selector,
    Specification, Statement, UnaryOperator,
};
use lexer::Word;
use lowering_text::{
    Changes, Whole, body_around, is_mark, is_within, leading_identifier, span_of,
    span_of_statement, statement_around,
};
use std::alloc::{AllocError, Global};

/// A function that can't stay one: it has more than one return of a value, a composite result or a composite formal parameter.
#[derive(Clone, Copy)]
pub(crate) struct Large<'a> {
    pub(crate) id: EntityId,
    pub(crate) specification: &'a Specification,
    pub(crate) body: &'a Body,
}

/// A call of such a function, and the bytes of the whole call.
#[derive(Clone, Copy)]
pub(crate) struct LargeCall<'a> {
    pub(crate) function: Large<'a>,
    pub(crate) name: &'a Name,
    pub(crate) span: Span,
}

/// The functions of a text that can't stay functions, and the calls of these in the order of the text.
#[derive(Drop)]
pub(crate) struct LargeFunctions<'a> {
    pub(crate) functions: Vec<Large<'a>>,
    pub(crate) calls: Vec<LargeCall<'a>>,
}

// Is it one return of a value?
fn is_simple(body: &Body) -> bool {
    if !body.declarations.is_empty() || !body.handlers.is_empty() {
        return false;
    }
    let [statement] = body.statements.as_slice() else {
        return false;
    };
    matches!(statement, Statement::Return(_, Some(_)))
}

// The end of the call that a name begins with, which has so many selectors before its actual parameters.
fn end_of_call(name: &Name, last: Span, count: usize) -> u32 {
    match name.selectors.get(count) {
        Some(Selector::Arguments(span, _)) => span.end_,
        _ => last.end_,
    }
}

fn is_composite(form: Option<TypeForm>) -> bool {
    matches!(form, Some(TypeForm::Array) | Some(TypeForm::Record))
}

impl<'a> LargeCall<'a> {
    /// Does it have actual parameters?
    pub(crate) fn has_actuals(&self) -> bool {
        let (last, _) = leading_identifier(self.name);
        last.end_ < self.span.end_
    }
}

// Has a function a formal parameter of an array or record type?
fn has_composite_formal(whole: &Whole<'_>, formals: &[Formal]) -> bool {
    for formal in formals {
        if let Some(subtype) = whole.denoted_subtype(&formal.subtype) {
            if is_composite(whole.names.form_of(subtype)) {
                return true;
            }
        }
    }
    false
}

// The function of a body that can't stay one.
fn large_function<'a>(whole: &Whole<'a>, declaration: &'a Declaration) -> Option<Large<'a>> {
    let Declaration::SubprogramBody(_, specification, _, body) = declaration else {
        return None;
    };
    specification.result.as_ref()?;
    let id = whole.declared(specification.name.span)?;
    let subtype = whole.names.subtype_of(id)?;
    if is_simple(body)
        && !is_composite(whole.names.form_of(subtype))
        && !has_composite_formal(whole, &specification.formals)
    {
        return None;
    }
    Some(Large {
        id,
        specification,
        body,
    })
}

/// The functions that can't stay functions, and the calls of these.
pub(crate) fn large_functions<'a>(
    whole: &Whole<'a>,
    alloc: Global,
) -> Result<LargeFunctions<'a>, AllocError> {
    let mut functions = Vec::new(alloc);
    for declaration in whole.parts.declarations.as_slice() {
        if let Some(function) = large_function(whole, declaration) {
            functions.push(function)?;
        }
    }
    let mut calls = Vec::new(alloc);
    for name in whole.parts.names.as_slice() {
        if let Some(call) = large_call(whole, &functions, name) {
            calls.push(call)?;
        }
    }
    Ok(LargeFunctions { functions, calls })
}

// The call of one of these functions that a name begins with.
fn large_call<'a>(
    whole: &Whole<'a>,
    functions: &[Large<'a>],
    name: &'a Name,
) -> Option<LargeCall<'a>> {
    let (last, count) = leading_identifier(name);
    let id = whole.denoted(last)?;
    let function = functions.iter().find(|function| function.id == id)?;
    let span = Span {
        start: name.span.start,
        end_: end_of_call(name, last, count),
    };
    Some(LargeCall {
        function: *function,
        name,
        span,
    })
}

/// Does the evaluation of a name that is no call leave each call after it what it was: is it an object of the body, a constant, a type or what is called?
pub fn is_quiet(whole: &Whole<'_>, span: Span) -> bool {
    let Some(id) = whole.denoted(span) else {
        return false;
    };
    match whole.names.kind_of(id) {
        Some(EntityKind::Variable) => whole.is_local(id),
        Some(EntityKind::Component) => whole.is_of_record(id),
        Some(EntityKind::Function) => false,
        Some(_) => true,
        None => false,
    }
}

// May a token be before a call in the order of evaluation, where it isn't of a call or an indexed component that ends before that?
fn is_quiet_token(whole: &Whole<'_>, token: &Token) -> bool {
    match &token.kind {
        TokenKind::Identifier(_) => {
            let span = span_of(token);
            whole.names.declared_at(span).is_some() || is_quiet(whole, span)
        }
        TokenKind::Word(word) => !matches!(word, Word::Then | Word::Else),
        _ => true,
    }
}

// Has a name actual parameters, indexes or an operand?
fn is_applied(name: &Name) -> bool {
    name.selectors.iter().any(|selector| {
        matches!(
            selector,
            Selector::Arguments(_, _) | Selector::Qualified(_, _)
        )
    })
}

fn is_arithmetic(operator: BinaryOperator) -> bool {
    matches!(
        operator,
        BinaryOperator::Add
            | BinaryOperator::Subtract
            | BinaryOperator::Multiply
            | BinaryOperator::Divide
            | BinaryOperator::Mod
            | BinaryOperator::Rem
            | BinaryOperator::Power
    )
}

// Is an operation of an expression evaluated before a place that may raise an exception?
fn is_evaluated_before(e: &Expr, place: u32) -> bool {
    match &e.kind {
        ExprKind::Chain(_, operands) => operands.iter().any(|operand| {
            is_arithmetic(operand.operator) && operand.value.span.end_ <= place
        }),
        ExprKind::Unary(operator, _) => {
            matches!(operator, UnaryOperator::Minus | UnaryOperator::Abs) && e.span.end_ <= place
        }
        _ => false,
    }
}

// Is a name with actual parameters, indexes or an operand between two places of a statement: any, or one that reads what a call may change?
fn has_applied(whole: &Whole<'_>, from: u32, place: u32, is_read: bool) -> bool {
    whole.parts.names.iter().any(|name| {
        let (last, _) = leading_identifier(name);
        from <= name.span.start
            && name.span.end_ <= place
            && is_applied(name)
            && !(is_read && is_quiet(whole, last))
    })
}

/// Is an operation evaluated between two places of a statement that may raise an exception?
pub(crate) fn has_operation(whole: &Whole<'_>, from: u32, place: u32) -> bool {
    has_applied(whole, from, place, false)
        || whole.parts.expressions.iter().any(|e| {
            from <= e.span.start && e.span.start < place && is_evaluated_before(e, place)
        })
}

// Is an expression of type Integer?
fn is_integer_value(whole: &Whole<'_>, span: Span) -> bool {
    match whole.names.type_at(span) {
        Some(subtype) => {
            whole.names.predefined(whole.names.type_of(subtype)) == Some(Predefined::Integer)
        }
        None => false,
    }
}

// The first operation that is evaluated whole between two places of a statement, if it is of type Integer.
fn operation_between(whole: &Whole<'_>, from: u32, place: u32) -> Option<Span> {
    let found = whole.parts.expressions.iter().find(|e| {
        from <= e.span.start && e.span.end_ <= place && is_evaluated_before(e, place)
    })?;
    if is_integer_value(whole, found.span) {
        Some(found.span)
    } else {
        None
    }
}

// Is a place the start of an operand, but for parentheses that are opened before it?
fn begins(changes: &Changes<'_>, operand: Span, place: u32) -> bool {
    if !is_within(place, operand) {
        return false;
    }
    for token in changes.source.between(operand.start, place) {
        if !is_mark(token, Delimiter::LeftParenthesis) {
            return false;
        }
    }
    true
}

// The left operand of the operator before a place, if it is of type Integer and an operation.
fn left_operand(changes: &Changes<'_>, whole: &Whole<'_>, place: u32) -> Option<Span> {
    for e in whole.parts.expressions.as_slice() {
        let ExprKind::Chain(first, operands) = &e.kind else {
            continue;
        };
        let mut left = first.span;
        let mut of = first.span;
        for operand in operands {
            if begins(changes, operand.value.span, place) {
                let is_whole = is_integer_value(whole, of)
                    && has_operation(whole, left.start, place);
                return if is_whole { Some(left) } else { None };
            }
            left = Span {
                start: left.start,
                end_: operand.value.span.end_,
            };
            of = e.span;
        }
    }
    None
}

/// The expressions of a statement that are evaluated first and once, whatever follows from them.
pub(crate) fn is_first_part(statement: &Statement, place: u32) -> bool {
    match statement {
        Statement::Assignment(_, _, _) => true,
        Statement::Call(_, _) => true,
        Statement::Return(_, _) => true,
        Statement::Exit(_, _, _) => true,
        Statement::DelayUntil(_, _) => true,
        Statement::If(_, branches, _) => match branches.as_slice() {
            [first, ..] => is_within(place, first.condition.span),
            [] => false,
        },
        Statement::Case(_, value, _) => is_within(place, value.span),
        Statement::Loop(_, _, Iteration::For(_, _, _), _) => true,
        _ => false,
    }
}

/// Where the part of a statement begins that is evaluated in order up to a place: of an assignment the target and the value are, each for itself (RM 5.2).
pub(crate) fn start_of_part(statement: &Statement, place: u32) -> u32 {
    match statement {
        Statement::Assignment(_, _, value) if is_within(place, value.span) => value.span.start,
        _ => span_of_statement(statement).start,
    }
}

/// Is a call all of the value of an assignment?
pub(crate) fn is_assigned(statement: &Statement, call: &LargeCall<'_>) -> bool {
    match statement {
        Statement::Assignment(_, _, value) => match &value.kind {
            ExprKind::Name(name) => name.span == call.span,
            _ => false,
        },
        _ => false,
    }
}

/// Are all formal parameters of mode `in`?
pub(crate) fn is_in_only(formals: &[Formal]) -> bool {
    formals.iter().all(|formal| formal.mode == Mode::In)
}

// Is a token the name of a function or an object whose actual parameters or indexes follow, which are evaluated before it?
fn is_opened(changes: &Changes<'_>, whole: &Whole<'_>, token: &Token) -> bool {
    let Some(id) = whole.denoted(span_of(token)) else {
        return false;
    };
    match changes.source.token_from(token.end_) {
        Some(next) => {
            is_mark(next, Delimiter::LeftParenthesis)
                && matches!(
                    whole.names.kind_of(id),
                    Some(EntityKind::Function | EntityKind::Variable)
                )
        }
        None => false,
    }
}

// Is a token the name of an attribute?
fn is_attribute_name(changes: &Changes<'_>, token: &Token) -> bool {
    match changes.source.token_before(token.start) {
        Some(before) => is_mark(before, Delimiter::Apostrophe),
        None => false,
    }
}

/// Is nothing of a statement read before the place that a call there could change?
pub(crate) fn is_read_after(
    changes: &Changes<'_>,
    whole: &Whole<'_>,
    from: u32,
    place: u32,
) -> bool {
    !has_applied(whole, from, place, true)
        && changes.source.between(from, place).iter().all(|token| is_quiet_token(whole, token)
            || is_opened(changes, whole, token)
            || is_attribute_name(changes, token))
}

// Puts an operand that is evaluated before a call into an object before the statement.
fn take_out_operand(
    changes: &mut Changes<'_>,
    call: &LargeCall<'_>,
    operand: Span,
    statement: u32,
    begin: u32,
) -> Result<(), AllocError> {
    let name = changes.source.fresh_word(
        changes.alloc,
        changes.source.bytes(call.function.specification.name.span),
        "_Operand".as_bytes(),
    )?;
    changes.declare(begin, &name, "Integer".as_bytes())?;
    let text = changes.copied(operand)?;
    let words = changes.joined(&[name.as_slice(), b" := ", text.as_slice(), b"; "])?;
    changes.insert(statement, &words)?;
    changes.write(operand, &name)
}

// Puts a call into an object before its statement.
fn take_out(
    changes: &mut Changes<'_>,
    call: &LargeCall<'_>,
    statement: u32,
    begin: u32,
) -> Result<(), AllocError> {
    let Some(result) = &call.function.specification.result else {
        return Ok(());
    };
    let name = changes.source.fresh_word(
        changes.alloc,
        changes.source.bytes(call.function.specification.name.span),
        "_Value".as_bytes(),
    )?;
    let subtype = changes.copied(result.span)?;
    changes.declare(begin, &name, &subtype)?;
    let text = changes.copied(call.span)?;
    let words = changes.joined(&[name.as_slice(), b" := ", text.as_slice(), b"; "])?;
    changes.insert(statement, &words)?;
    changes.write(call.span, &name)
}

/// The `begin` before which an object for a place can be declared.
pub(crate) fn begin_before(changes: &Changes<'_>, whole: &Whole<'_>, place: u32) -> Option<u32> {
    let begin = changes.begin_of(body_around(whole.parts, place)?)?;
    if begin.start < place && !changes.has_declared(begin.start) {
        Some(begin.start)
    } else {
        None
    }
}

// Puts a call into an object before its statement, where nothing comes before it in that; else what does, where that is an operand.
fn take_out_call(
    changes: &mut Changes<'_>,
    whole: &Whole<'_>,
    call: &LargeCall<'_>,
) -> Result<(), AllocError> {
    let place = call.span.start;
    let Some(statement) = statement_around(whole.parts, place) else {
        return Ok(());
    };
    let from = span_of_statement(statement).start;
    if is_assigned(statement, call) || !is_first_part(statement, place) {
        return Ok(());
    }
    let Some(begin) = begin_before(changes, whole, from) else {
        return Ok(());
    };
    let part = start_of_part(statement, place);
    if !is_read_after(changes, whole, part, place) {
        return Ok(());
    }
    if !has_operation(whole, part, place) {
        return take_out(changes, call, from, begin);
    }
    let operand = match left_operand(changes, whole, place) {
        Some(left) => Some(left),
        None => operation_between(whole, part, place),
    };
    match operand {
        Some(operand) => take_out_operand(changes, call, operand, from, begin),
        None => Ok(()),
    }
}

/// Takes the first call of each body that can be taken out of its statement.
pub fn take_out_calls(changes: &mut Changes<'_>, whole: &Whole<'_>) -> Result<(), AllocError> {
    let large = large_functions(whole, changes.alloc)?;
    for call in large.calls.as_slice() {
        take_out_call(changes, whole, call)?;
    }
    Ok(())
}
