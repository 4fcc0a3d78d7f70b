//! The values of numeric literals.
ghost use Rattle.std.specs.Prelude.{◌≡◌, ◌*◌, ◌+◌, ◌^◌, ℕ, if◌then◌else◌};
ghost use Rattle.lexer.specs.Characters.{is_underline};
ghost use Rattle.ada2012_lexer.specs.Characters.{digit_value};
ghost use Rattle.ada2012_lexer.specs.Numbers.{base_of, value, value_of};
ghost use Rattle.ada2012_lexer.specs.Shapes.{capped, literal_of};

use crate::literal::Literal;
use crate::numeral::digit_value;
use base::limits::LARGEST_NUMBER;

// After so many multiplications by two or more, all numbers but 0 have more than 64 bits; and those by 0 or 1 change nothing after the first.
const MOST_TURNS: u64 = 64;

// A number with one digit more, or the greatest number of 64 bits where it is larger.
#[tactic(auto, using(crate::proofs::Capped::joined))]
fn with_digit(value: u64, base: u8, digit: u8) -> u64
    ensures { result ≡ capped (value * base + digit_value digit) }
{
    value
        .saturating_mul(u64::from(base))
        .saturating_add(u64::from(digit_value(digit)))
}

fn with_character(value: u64, base: u8, c: u8) -> u64
    ensures { result ≡ (if is_underline c then value else capped (value * base + digit_value c)) }
{
    if c == b'_' {
        value
    } else {
        with_digit(value, base, c)
    }
}

// The value of digits, or the greatest number of 64 bits where it is larger.
#[tactic(auto, using(crate::proofs::Capped::next_character))]
fn capped_value(base: u8, digits: &[u8]) -> u64
    ensures { result ≡ capped (value base digits.now) }
{
    let mut value = 0;
    for c in digits {
        value = with_character(value, base, *c);
    }
    value
}

/// The base that a numeral says, if it is one of 2 to 16.
pub(crate) fn base_of(numeral: &[u8]) -> Option<u8>
    ensures { result ≡ base_of numeral.now }
{
    let base = capped_value(10, numeral);
    if 2 <= base && base <= 16 {
        Some(base as u8)
    } else {
        None
    }
}

// The value of digits with an exponent, of which both numbers are capped, or the greatest number of 64 bits where it is larger.
fn scaled(value: u64, base: u8, exponent: u64) -> u64
    ensures { (v e : ℕ) → value ≡ capped v → exponent ≡ capped e → result ≡ capped (v * base ^ e) }
{
    let most = exponent.min(MOST_TURNS);
    let mut scaled = value;
    let mut turns = 0;
    while turns < most {
        scaled = scaled.saturating_mul(u64::from(base));
        turns += 1;
    }
    scaled
}

/// The value of an integer literal, if it is at most 2**63 - 1.
pub(crate) fn value_of(literal: Literal<'_>) -> Option<u64>
    ensures { result ≡ value_of (literal_of literal.entry) }
{
    let digits = capped_value(literal.base, literal.digits);
    let exponent = capped_value(10, literal.exponent);
    let value = scaled(digits, literal.base, exponent);
    if value <= LARGEST_NUMBER {
        Some(value)
    } else {
        None
    }
}
