//! The digits of numeric literals.
ghost use Rattle.std.specs.Prelude.{◌≡◌, ◌≤◌, ◌<◌, IfOk, length};
ghost use Rattle.std.specs.List.{list_all};
ghost use Rattle.ada2012_lexer.specs.Characters as characters;
ghost use Rattle.ada2012_lexer.specs.Numbers.{based_numeral_at, digits_at, digits_fault, is_digit_of, numeral_at};
ghost use Rattle.ada2012_lexer.specs.Shapes.{ReadsAlike};

use crate::FaultKind;
use crate::character::{has_single_underlines, numeral_length, word_length};

/// The value of an extended digit: 10 to 35 of a letter, in either case.
pub(crate) fn digit_value(c: u8) -> u8
    ensures { result ≡ characters.digit_value c }
{
    if c.is_ascii_digit() {
        c - b'0'
    } else {
        c.to_ascii_uppercase().saturating_sub(55)
    }
}

fn is_digit_of(base: u8, c: u8) -> bool
    ensures { result ≡ is_digit_of base c }
{
    c == b'_' || digit_value(c) < base
}

fn are_digits_of(base: u8, digits: &[u8]) -> bool
    ensures { result ≡ list_all (is_digit_of base) digits.now }
{
    digits.iter().all(|c| is_digit_of(base, *c))
}

fn digits_fault(base: u8, digits: &[u8]) -> Option<FaultKind>
    ensures { result ≡ digits_fault base digits.now }
{
    match digits {
        [] => Some(FaultKind::MissingDigit),
        [c, ..] => {
            if *c == b'_' || !has_single_underlines(digits) {
                Some(FaultKind::NumberUnderline)
            } else if !are_digits_of(base, digits) {
                Some(FaultKind::WrongDigit)
            } else {
                None
            }
        }
    }
}

// The first `count` characters, which are digits of this base, and what follows them.
fn digits_at(base: u8, count: usize, text: &[u8]) -> Result<(&[u8], &[u8]), FaultKind>
    requires { count ≤ length text.now }
    ensures read { ReadsAlike (λ x. (x.0.now, x.1.now)) result (digits_at base count text.now) }
    ensures some { IfOk result (λ parts. length parts.1.now < length text.now) }
{
    let (digits, rest) = text.split_at(count);
    match digits_fault(base, digits) {
        Some(fault) => Err(fault),
        None => Ok((digits, rest)),
    }
}

/// The numeral at the front of a text, and what follows it.
#[tactic(auto, unfolding(crate::specs::Numbers::numeral_at))]
pub(crate) fn numeral_at(text: &[u8]) -> Result<(&[u8], &[u8]), FaultKind>
    ensures read { ReadsAlike (λ x. (x.0.now, x.1.now)) result (numeral_at text.now) }
    ensures some { IfOk result (λ parts. length parts.1.now < length text.now) }
{
    digits_at(10, numeral_length(text), text)
}

/// The based numeral at the front of a text, and what follows it.
#[tactic(auto, unfolding(crate::specs::Numbers::based_numeral_at))]
pub(crate) fn based_numeral_at(base: u8, text: &[u8]) -> Result<(&[u8], &[u8]), FaultKind>
    ensures read { ReadsAlike (λ x. (x.0.now, x.1.now)) result (based_numeral_at base text.now) }
    ensures some { IfOk result (λ parts. length parts.1.now < length text.now) }
{
    digits_at(base, word_length(text), text)
}
