//! What to write where types don't match, by these types.
ghost use Rattle.std.specs.Prelude.{◌≡◌, option_map};
ghost use Rattle.diagnostics.specs.hints.Conversions.{class_of, conversion_of, conversion_text, declared_class, expected_conversion, is_is, is_range, is_range_type, operands_conversion};

use lexer::{TokenKind, Word};
use mismatches::{NamedType, PredefinedType, Remark};
use remedies::{TextTokens, kind_at};

/// Types as far as they decide what to write for them.
#[derive(Clone, Copy)]
pub(crate) enum TypeClass {
    /// An integer type.
    Number,
    Boolean,
    Time,
    Span,
    /// An array or a record, or one of several.
    Other,
}

/// What may be written where types don't match.
#[derive(Clone, Copy)]
pub(crate) enum Conversion {
    /// A number where a time is wanted.
    TimeOfNumber,
    /// A time span where a time is wanted.
    TimeOfSpan,
    /// A number where a time span is wanted.
    SpanOfNumber,
    /// A time where a time span is wanted.
    SpanOfTime,
    /// A time or a time span where a number is wanted.
    NumberOfTime,
    /// A number of another integer type than is wanted.
    NumberOfNumber,
    /// A Boolean where a number is wanted.
    NumberOfCondition,
    /// A number where a Boolean is wanted.
    ConditionOfNumber,
    /// A number and a time as operands.
    NumberWithTime,
    /// A number and a time span as operands.
    NumberWithSpan,
    /// Two time spans as operands.
    TwoSpans,
    /// Two times as operands.
    TwoTimes,
    /// Numbers of two integer types as operands.
    TwoNumbers,
    /// A number and a Boolean as operands.
    NumberWithCondition,
}

fn is_is(kind: Option<&TokenKind>) -> bool
    ensures { result ≡ is_is (option_map (λ k. k.now) kind.entry) }
{
    matches!(kind, Some(TokenKind::Word(Word::Is)))
}

fn is_range(kind: Option<&TokenKind>) -> bool
    ensures { result ≡ is_range (option_map (λ k. k.now) kind.entry) }
{
    matches!(kind, Some(TokenKind::Word(Word::Range)))
}

// Whether the name at this place is that of an integer type: `is range` follows it (RM 3.5.4).
fn is_range_type(place: u32, list: &TextTokens) -> bool
    ensures { result ≡ is_range_type place list.now }
{
    let number = list.count_before(place);
    let tokens = list.tokens();
    is_is(kind_at(number + 1, tokens)) && is_range(kind_at(number + 2, tokens))
}

fn declared_class(place: u32, list: &TextTokens) -> TypeClass
    ensures { result ≡ declared_class place list.now }
{
    if is_range_type(place, list) {
        TypeClass::Number
    } else {
        TypeClass::Other
    }
}

fn class_of(named: NamedType, list: &TextTokens) -> TypeClass
    ensures { result ≡ class_of named list.now }
{
    match named {
        NamedType::Declared(place) => declared_class(place, list),
        NamedType::Predefined(PredefinedType::Integer) => TypeClass::Number,
        NamedType::Predefined(PredefinedType::Boolean) => TypeClass::Boolean,
        NamedType::Predefined(PredefinedType::Time) => TypeClass::Time,
        NamedType::Predefined(PredefinedType::TimeSpan) => TypeClass::Span,
        NamedType::AnyInteger => TypeClass::Number,
        NamedType::Discrete => TypeClass::Other,
        NamedType::UniversalInteger => TypeClass::Number,
    }
}

fn expected_conversion(expected: TypeClass, found: TypeClass) -> Option<Conversion>
    ensures { result ≡ expected_conversion expected found }
{
    match (expected, found) {
        (TypeClass::Time, TypeClass::Number) => Some(Conversion::TimeOfNumber),
        (TypeClass::Time, TypeClass::Span) => Some(Conversion::TimeOfSpan),
        (TypeClass::Span, TypeClass::Number) => Some(Conversion::SpanOfNumber),
        (TypeClass::Span, TypeClass::Time) => Some(Conversion::SpanOfTime),
        (TypeClass::Number, TypeClass::Time) => Some(Conversion::NumberOfTime),
        (TypeClass::Number, TypeClass::Span) => Some(Conversion::NumberOfTime),
        (TypeClass::Number, TypeClass::Number) => Some(Conversion::NumberOfNumber),
        (TypeClass::Number, TypeClass::Boolean) => Some(Conversion::NumberOfCondition),
        (TypeClass::Boolean, TypeClass::Number) => Some(Conversion::ConditionOfNumber),
        _ => None,
    }
}

fn operands_conversion(left: TypeClass, right: TypeClass) -> Option<Conversion>
    ensures { result ≡ operands_conversion left right }
{
    match (left, right) {
        (TypeClass::Time, TypeClass::Number) => Some(Conversion::NumberWithTime),
        (TypeClass::Number, TypeClass::Time) => Some(Conversion::NumberWithTime),
        (TypeClass::Span, TypeClass::Number) => Some(Conversion::NumberWithSpan),
        (TypeClass::Number, TypeClass::Span) => Some(Conversion::NumberWithSpan),
        (TypeClass::Span, TypeClass::Span) => Some(Conversion::TwoSpans),
        (TypeClass::Time, TypeClass::Time) => Some(Conversion::TwoTimes),
        (TypeClass::Number, TypeClass::Number) => Some(Conversion::TwoNumbers),
        (TypeClass::Number, TypeClass::Boolean) => Some(Conversion::NumberWithCondition),
        (TypeClass::Boolean, TypeClass::Number) => Some(Conversion::NumberWithCondition),
        _ => None,
    }
}

/// What may be written instead, by the two types that don't match; None where nothing helps in general.
pub(crate) fn conversion_of(remark: Remark, list: &TextTokens) -> Option<Conversion>
    ensures { result ≡ conversion_of remark list.now }
{
    match remark {
        Remark::Unexpected(expected, found) => {
            expected_conversion(class_of(expected, list), class_of(found, list))
        }
        Remark::Operands(left, right) => {
            operands_conversion(class_of(left, list), class_of(right, list))
        }
        _ => None,
    }
}

/// What to write, as one line without its line feed; code is between two marks (96).
pub(crate) fn conversion_text(conversion: Conversion) -> &'static str
    ensures { result.now ≡ conversion_text conversion }
{
    match conversion {
        Conversion::TimeOfNumber => TIME_OF_NUMBER,
        Conversion::TimeOfSpan => TIME_OF_SPAN,
        Conversion::SpanOfNumber => SPAN_OF_NUMBER,
        Conversion::SpanOfTime => SPAN_OF_TIME,
        Conversion::NumberOfTime => NUMBER_OF_TIME,
        Conversion::NumberOfNumber => NUMBER_OF_NUMBER,
        Conversion::NumberOfCondition => NUMBER_OF_CONDITION,
        Conversion::ConditionOfNumber => CONDITION_OF_NUMBER,
        Conversion::NumberWithTime => NUMBER_WITH_TIME,
        Conversion::NumberWithSpan => NUMBER_WITH_SPAN,
        Conversion::TwoSpans => TWO_SPANS,
        Conversion::TwoTimes => TWO_TIMES,
        Conversion::TwoNumbers => TWO_NUMBERS,
        Conversion::NumberWithCondition => NUMBER_WITH_CONDITION,
    }
}

const TIME_OF_NUMBER: &str = "\
A number is no time: write `Clock + Milliseconds (10)`, or with a period `Next + Milliseconds (10)`.";

const TIME_OF_SPAN: &str = "\
A time span is no time: write `Clock + Milliseconds (10)`, or with a period `Next + Milliseconds (10)`.";

const SPAN_OF_NUMBER: &str = "\
A number is no time span: write `Milliseconds (10)`.";

const SPAN_OF_TIME: &str = "\
A time is no time span: write `Clock - Start` for the span between two times.";

const NUMBER_OF_TIME: &str = "\
No number is made of a time or a time span: count in Integers, and write `Milliseconds (N)` \
where a span is wanted.";

const NUMBER_OF_NUMBER: &str = "\
Integer types are converted: write the name of the type that is wanted, as `Integer (N)`.";

const NUMBER_OF_CONDITION: &str = "\
A Boolean is no number: write `(if B then 1 else 0)`.";

const CONDITION_OF_NUMBER: &str = "\
A number is no Boolean: write a comparison, `N > 0`.";

const NUMBER_WITH_TIME: &str = "\
A time span is added to a time: write `T + Milliseconds (10)`.";

const NUMBER_WITH_SPAN: &str = "\
A time span is made of a number: write `Milliseconds (2 * N)`.";

const TWO_SPANS: &str = "\
Time spans are compared, and added to a time: add Integers, `Milliseconds (N + M)`.";

const TWO_TIMES: &str = "\
Times are compared, and subtracted: write `Clock - Start` for the span between two of them.";

const TWO_NUMBERS: &str = "\
Both operands are of one type: convert one of them, as `Integer (N)`.";

const NUMBER_WITH_CONDITION: &str = "\
A number is compared before it is an operand beside a Boolean: write `N > 0 and B`.";
