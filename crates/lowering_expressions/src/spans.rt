//! Operations with time spans (RM D.8): those with the microseconds in them, which a function finds by halves.

use ada2012_lexer::Span;
use ada2012_names::Predefined;
use ada2012_tree::{BinaryOperator, Expr, ExprKind, PackageBody, Selector, UnitItem};
use lexer::Word;
use lowering_text::{Changes, Whole, put_all, span_of};
use std::alloc::AllocError;

// Between these microseconds lies each span that is looked for: 2**61, some 73,000 years.
const BOUNDS: &str = ", -2305843009213693952, 2305843009213693952)";

// The function that finds the microseconds in a span between a lower and a higher number, with marks for the names.
const FINDER: &str = " function @N (@S : Time_Span; @L : Integer; @H : Integer) return Integer is \
    begin return (if @H - @L < 2 then @L elsif Microseconds ((@L + @H) / 2) <= @S \
    then @N (@S, (@L + @H) / 2, @H) else @N (@S, @L, (@L + @H) / 2)); end @N;";

/// Names of the function and its parameters.
#[derive(Drop)]
struct Finder {
    name: Vec<u8>,
    span: Vec<u8>,
    low: Vec<u8>,
    high: Vec<u8>,
}

impl Finder {
    // The name for which a mark is in the function.
    fn word(&self, mark: u8) -> &[u8] {
        match mark {
            b'N' => self.name.as_slice(),
            b'S' => self.span.as_slice(),
            b'L' => self.low.as_slice(),
            _ => self.high.as_slice(),
        }
    }
}

/// An operation with a time span that the language doesn't have.
#[derive(Clone, Copy)]
enum SpanOperation<'a> {
    /// The quotient of two spans, a number.
    Quotient(&'a Expr, &'a Expr),
    /// A span multiplied or divided by a number.
    Scaled(&'a Expr, &'static str, &'a Expr),
    /// The sum or difference of two spans.
    Sum(&'a Expr, &'static str, &'a Expr),
}

// How many microseconds the unit of a function of Ada.Real_Time has.
fn microseconds_of(function: Predefined) -> Option<&'static str> {
    match function {
        Predefined::Microseconds => Some(" * 1)"),
        Predefined::Milliseconds => Some(" * 1_000)"),
        Predefined::Seconds => Some(" * 1_000_000)"),
        _ => None,
    }
}

// Is an expression of type Time_Span?
fn is_span(whole: &Whole<'_>, e: &Expr) -> bool {
    match whole.names.type_at(e.span) {
        Some(subtype) => {
            whole.names.predefined(whole.names.type_of(subtype)) == Some(Predefined::TimeSpan)
        }
        None => false,
    }
}

// The operation with time spans that an expression is.
fn span_operation<'a>(whole: &Whole<'a>, e: &'a Expr) -> Option<SpanOperation<'a>> {
    let ExprKind::Chain(left, operands) = &e.kind else {
        return None;
    };
    let [operand] = operands.as_slice() else {
        return None;
    };
    let right = &operand.value;
    let named = left.is_name() && is_span(whole, left);
    match (operand.operator, named, is_span(whole, right)) {
        (BinaryOperator::Divide, _, true) => Some(SpanOperation::Quotient(left, right)),
        (BinaryOperator::Divide, true, false) => Some(SpanOperation::Scaled(left, " / (", right)),
        (BinaryOperator::Multiply, true, false) => Some(SpanOperation::Scaled(left, " * (", right)),
        (BinaryOperator::Multiply, false, true) => Some(SpanOperation::Scaled(right, " * (", left)),
        (BinaryOperator::Add, true, true) => Some(SpanOperation::Sum(left, " + ", right)),
        (BinaryOperator::Subtract, true, true) => Some(SpanOperation::Sum(left, " - ", right)),
        _ => None,
    }
}

// The unit of the call that a span is, and the number in it.
fn span_of_units<'a>(whole: &Whole<'a>, e: &'a Expr) -> Option<(&'static str, Span)> {
    let ExprKind::Name(name) = &e.kind else {
        return None;
    };
    let [Selector::Arguments(_, arguments)] = name.selectors.as_slice() else {
        return None;
    };
    let [argument] = arguments.as_slice() else {
        return None;
    };
    let function = whole.names.predefined(whole.denoted(name.prefix.span)?)?;
    Some((microseconds_of(function)?, argument.value.span))
}

// Is one of the spans of an operation no call of a function of Ada.Real_Time, so that it is to be measured?
fn is_measured<'a>(whole: &Whole<'a>, operation: SpanOperation<'a>) -> bool {
    match operation {
        SpanOperation::Quotient(left, right) | SpanOperation::Sum(left, _, right) => {
            span_of_units(whole, left).is_none() || span_of_units(whole, right).is_none()
        }
        SpanOperation::Scaled(span, _, _) => span_of_units(whole, span).is_none(),
    }
}

// The body of the package.
fn package_body<'a>(whole: &Whole<'a>) -> Option<&'a PackageBody> {
    for unit in whole.program.units.as_slice() {
        if let UnitItem::PackageBody(package) = &unit.item {
            return Some(package);
        }
    }
    None
}

fn new_finder(changes: &Changes<'_>) -> Result<Finder, AllocError> {
    Ok(Finder {
        name: changes
            .source
            .fresh_word(changes.alloc, "Microseconds_In".as_bytes(), &[])?,
        span: changes
            .source
            .fresh_word(changes.alloc, "Span".as_bytes(), &[])?,
        low: changes
            .source
            .fresh_word(changes.alloc, "Low".as_bytes(), &[])?,
        high: changes
            .source
            .fresh_word(changes.alloc, "High".as_bytes(), &[])?,
    })
}

// The function that finds the microseconds in a span.
fn put_finder(
    changes: &Changes<'_>,
    finder: &Finder,
    words: &mut Vec<u8>,
) -> Result<(), AllocError> {
    let mut is_mark = false;
    for byte in FINDER.as_bytes() {
        if is_mark {
            words.extend_from_slice(finder.word(*byte))?;
        } else if *byte != b'@' {
            words.push(*byte)?;
        }
        is_mark = *byte == b'@';
    }
    Ok(())
}

// The microseconds in a span: those of the call that it is, or what the function finds.
fn put_microseconds(
    changes: &Changes<'_>,
    whole: &Whole<'_>,
    finder: &Finder,
    e: &Expr,
    words: &mut Vec<u8>,
) -> Result<(), AllocError> {
    if let Some((unit, number)) = span_of_units(whole, e) {
        let number = changes.copied(number)?;
        return put_all(words, &[b"((", number.as_slice(), b")", unit.as_bytes()]);
    }
    let span = changes.copied(e.span)?;
    let (name, bounds) = (finder.name.as_slice(), BOUNDS.as_bytes());
    put_all(words, &[name, b" (", span.as_slice(), bounds])
}

// The microseconds in two spans with an operator between them.
fn put_both(
    changes: &Changes<'_>,
    whole: &Whole<'_>,
    finder: &Finder,
    operands: (&Expr, &str, &Expr),
    words: &mut Vec<u8>,
) -> Result<(), AllocError> {
    let (left, mark, right) = operands;
    put_microseconds(changes, whole, finder, left, words)?;
    put_all(words, &[mark.as_bytes()])?;
    put_microseconds(changes, whole, finder, right, words)
}

// An operation by the microseconds of its spans.
fn put_operation(
    changes: &Changes<'_>,
    whole: &Whole<'_>,
    finder: &Finder,
    operation: SpanOperation<'_>,
    words: &mut Vec<u8>,
) -> Result<(), AllocError> {
    match operation {
        SpanOperation::Quotient(left, right) => {
            put_both(changes, whole, finder, (left, " / ", right), words)
        }
        SpanOperation::Scaled(span, mark, number) => {
            let number = changes.copied(number.span)?;
            put_all(words, &[b"Microseconds ("])?;
            put_microseconds(changes, whole, finder, span, words)?;
            put_all(words, &[mark.as_bytes(), number.as_slice(), b"))"])
        }
        SpanOperation::Sum(left, mark, right) => {
            put_all(words, &[b"Microseconds ("])?;
            put_both(changes, whole, finder, (left, mark, right), words)?;
            put_all(words, &[b")"])
        }
    }
}

// `Seconds (N)` as `Milliseconds ((N) * 1_000)`.
fn write_seconds(changes: &mut Changes<'_>, whole: &Whole<'_>, e: &Expr) -> Result<(), AllocError> {
    match span_of_units(whole, e) {
        Some((" * 1_000_000)", number)) => {
            let number = changes.copied(number)?;
            let words = changes.joined(&[b"Milliseconds ((", number.as_slice(), b") * 1_000)"])?;
            changes.replace(e.span, words, None)
        }
        _ => Ok(()),
    }
}

// An operation, or a call of Seconds. Is the function called?
fn write_operation(
    changes: &mut Changes<'_>,
    whole: &Whole<'_>,
    finder: &Finder,
    e: &Expr,
) -> Result<bool, AllocError> {
    let Some(operation) = span_operation(whole, e) else {
        write_seconds(changes, whole, e)?;
        return Ok(false);
    };
    let mut words = Vec::new(changes.alloc);
    put_operation(changes, whole, finder, operation, &mut words)?;
    changes.replace(e.span, words, None)?;
    Ok(is_measured(whole, operation))
}

// All operations that are in no other one, and calls of Seconds. Is the function called?
fn write_operations(
    changes: &mut Changes<'_>,
    whole: &Whole<'_>,
    finder: &Finder,
) -> Result<bool, AllocError> {
    let mut end = 0;
    let mut called = false;
    for e in whole.parts.expressions.as_slice() {
        if end <= e.span.start {
            let written = changes.requests.len();
            if write_operation(changes, whole, finder, e)? {
                called = true;
            }
            if written < changes.requests.len() {
                end = e.span.end_;
            }
        }
    }
    Ok(called)
}

/// Operations with time spans.
pub fn lower_span_operations(
    changes: &mut Changes<'_>,
    whole: &Whole<'_>,
) -> Result<(), AllocError> {
    let Some(package) = package_body(whole) else {
        return Ok(());
    };
    let Some(is) = changes.source.word_from(package.name.span.end_, Word::Is) else {
        return Ok(());
    };
    let finder = new_finder(changes)?;
    if write_operations(changes, whole, &finder)? {
        let mut words = Vec::new(changes.alloc);
        put_finder(changes, &finder, &mut words)?;
        changes.insert(span_of(is).end_, &words)?;
    }
    Ok(())
}
