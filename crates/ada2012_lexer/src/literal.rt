//! Numeric literals.
ghost use Rattle.std.specs.Prelude.{◌<◌, ◌≤◌, IfOk, length};
ghost use Rattle.ada2012_lexer.specs.Numbers.{after_sign, based_at, based_fraction_at, based_or_decimal, decimal_at, exponent_at, fraction_at, literal_at, signed_at, with_exponent};
ghost use Rattle.ada2012_lexer.specs.Shapes.{ReadsAlike, literal_of};

use crate::FaultKind;
use crate::character::{begins_with_digit, begins_with_word_character};
use crate::numeral::{based_numeral_at, numeral_at};
use crate::value::base_of;

/// The parts of a numeric literal, each with its underlines: its digits before the point, and those of its exponent, which are none where it has no exponent.
#[derive(Clone, Copy)]
pub(crate) struct Literal<'a> {
    pub(crate) base: u8,
    pub(crate) digits: &'a [u8],
    /// Whether it has a point.
    pub(crate) real: bool,
    pub(crate) exponent: &'a [u8],
}

// The digits of an exponent after its letter.
fn signed_at(real: bool, text: &[u8]) -> Result<(&[u8], &[u8]), FaultKind>
    ensures read { ReadsAlike (λ x. (x.0.now, x.1.now)) result (signed_at real text.now) }
    ensures in_text { IfOk result (λ parts. length parts.1.now ≤ length text.now) }
{
    match text {
        [b'+', rest @ ..] => numeral_at(rest),
        [b'-', rest @ ..] => {
            if real {
                numeral_at(rest)
            } else {
                Err(FaultKind::NegativeExponent)
            }
        }
        _ => numeral_at(text),
    }
}

#[tactic(auto, unfolding(crate::specs::Numbers::exponent_at))]
fn exponent_at(real: bool, text: &[u8]) -> Result<(&[u8], &[u8]), FaultKind>
    ensures read { ReadsAlike (λ x. (x.0.now, x.1.now)) result (exponent_at real text.now) }
    ensures in_text { IfOk result (λ parts. length parts.1.now ≤ length text.now) }
{
    match text {
        [b'E' | b'e', rest @ ..] => signed_at(real, rest),
        _ => Ok((&[], text)),
    }
}

// Whether a point and digits are at the front, and what follows.
#[tactic(auto, unfolding(crate::specs::Numbers::fraction_at))]
fn fraction_at(text: &[u8]) -> Result<(bool, &[u8]), FaultKind>
    ensures read { ReadsAlike (λ x. (x.0, x.1.now)) result (fraction_at text.now) }
    ensures in_text { IfOk result (λ parts. length parts.1.now ≤ length text.now) }
{
    match text {
        [b'.', rest @ ..] if begins_with_digit(rest) => {
            let (_, rest) = numeral_at(rest)?;
            Ok((true, rest))
        }
        _ => Ok((false, text)),
    }
}

// Whether a point and digits of this base are at the front, and what follows.
#[tactic(auto, unfolding(crate::specs::Numbers::based_fraction_at))]
fn based_fraction_at(base: u8, text: &[u8]) -> Result<(bool, &[u8]), FaultKind>
    ensures read { ReadsAlike (λ x. (x.0, x.1.now)) result (based_fraction_at base text.now) }
    ensures in_text { IfOk result (λ parts. length parts.1.now ≤ length text.now) }
{
    match text {
        [b'.', rest @ ..] => {
            let (_, rest) = based_numeral_at(base, rest)?;
            Ok((true, rest))
        }
        _ => Ok((false, text)),
    }
}

// What follows a number sign, which is to be at the front.
fn after_sign(text: &[u8]) -> Result<&[u8], FaultKind>
    ensures read { ReadsAlike (λ x. x.now) result (after_sign text.now) }
    ensures in_text { IfOk result (λ rest. length rest.now ≤ length text.now) }
{
    match text {
        [b'#', rest @ ..] => Ok(rest),
        _ => Err(FaultKind::OpenBasedLiteral),
    }
}

// A literal whose parts up to its exponent these are.
fn with_exponent<'a>(
    base: u8,
    digits: &'a [u8],
    real: bool,
    text: &'a [u8],
) -> Result<(Literal<'a>, &'a [u8]), FaultKind>
    ensures read { ReadsAlike (λ x. (literal_of x.0, x.1.now)) result (with_exponent base digits.now real text.now) }
    ensures in_text { IfOk result (λ parts. length parts.1.now ≤ length text.now) }
{
    let (exponent, rest) = exponent_at(real, text)?;
    let literal = Literal {
        base,
        digits,
        real,
        exponent,
    };
    Ok((literal, rest))
}

// A decimal literal after its first numeral.
#[tactic(auto, unfolding(crate::specs::Numbers::decimal_at))]
fn decimal_at<'a>(digits: &'a [u8], text: &'a [u8]) -> Result<(Literal<'a>, &'a [u8]), FaultKind>
    ensures read { ReadsAlike (λ x. (literal_of x.0, x.1.now)) result (decimal_at digits.now text.now) }
    ensures in_text { IfOk result (λ parts. length parts.1.now ≤ length text.now) }
{
    let (real, rest) = fraction_at(text)?;
    with_exponent(10, digits, real, rest)
}

// A based literal after its first number sign.
#[tactic(auto, unfolding(crate::specs::Numbers::based_at))]
fn based_at(base: u8, text: &[u8]) -> Result<(Literal<'_>, &[u8]), FaultKind>
    ensures read { ReadsAlike (λ x. (literal_of x.0, x.1.now)) result (based_at base text.now) }
    ensures in_text { IfOk result (λ parts. length parts.1.now ≤ length text.now) }
{
    let (digits, rest) = based_numeral_at(base, text)?;
    let (real, rest) = based_fraction_at(base, rest)?;
    let rest = after_sign(rest)?;
    with_exponent(base, digits, real, rest)
}

// A literal after its first numeral.
fn based_or_decimal<'a>(
    numeral: &'a [u8],
    text: &'a [u8],
) -> Result<(Literal<'a>, &'a [u8]), FaultKind>
    ensures read { ReadsAlike (λ x. (literal_of x.0, x.1.now)) result (based_or_decimal numeral.now text.now) }
    ensures in_text { IfOk result (λ parts. length parts.1.now ≤ length text.now) }
{
    match text {
        [b'#', rest @ ..] => match base_of(numeral) {
            Some(base) => based_at(base, rest),
            None => Err(FaultKind::WrongBase),
        },
        _ => decimal_at(numeral, text),
    }
}

/// The numeric literal at the front of a text that begins with a digit, and what follows it.
#[tactic(auto, unfolding(crate::specs::Numbers::literal_at))]
pub(crate) fn literal_at(text: &[u8]) -> Result<(Literal<'_>, &[u8]), FaultKind>
    ensures read { ReadsAlike (λ x. (literal_of x.0, x.1.now)) result (literal_at text.now) }
    ensures some { IfOk result (λ parts. length parts.1.now < length text.now) }
{
    let (numeral, rest) = numeral_at(text)?;
    let (literal, rest) = based_or_decimal(numeral, rest)?;
    if begins_with_word_character(rest) {
        Err(FaultKind::JoinedNumber)
    } else {
        Ok((literal, rest))
    }
}
