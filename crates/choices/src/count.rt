//! How many choices a set has, in decimal: the number may have some 15,000 digits.
ghost use Rattle.std.specs.Prelude.{◌≡◌, ◌<◌, ◌+◌, ◌*◌, ◌++◌, ℕ, IfOk, IsTrue, OnOk, All, map};
ghost use Rattle.choices.specs.Counting.{number_text, row_of};
ghost use Rattle.choices.specs.Parts.{number_of_part};
ghost use Rattle.choices.specs.Slots.{are_each_slots, number_of};

use crate::part::{Part, front_in};
use crate::set::Choices;
use crate::slot::Slot;
use std::alloc::{AllocError, Global};

// Adds the digits of a number, the least first; none for 0.
fn push_digits(row: &mut Vec<u8>, number: u128) -> Result<(), AllocError>
    ensures { OnOk result (row.new.items ≡ row.old.items ++ row_of number) }
{
    let mut left = number;
    while 0 < left {
        row.push((left % 10) as u8)?;
        left /= 10;
    }
    Ok(())
}

// The digits of a number times a factor, the least first, by those of the number.
fn product(alloc: Global, row: &[u8], factor: usize) -> Result<Vec<u8>, AllocError>
    requires { 0 < factor }
    ensures { IfOk result (λ made. (n : ℕ) → row.now ≡ row_of n → made.items ≡ row_of (n * factor)) }
{
    let times = factor as u128;
    let mut made = Vec::new(alloc);
    let mut carry = 0u128;
    for digit in row {
        let sum = u128::from(*digit) * times + carry;
        made.push((sum % 10) as u8)?;
        carry = sum / 10;
    }
    push_digits(&mut made, carry)?;
    Ok(made)
}

// The digits of a number times those of the choices of these slots, the least first.
fn count_row(alloc: Global, first: u128, slots: &[Slot]) -> Result<Vec<u8>, AllocError>
    requires { IsTrue (are_each_slots slots.now) }
    ensures { IfOk result (λ row. row.items ≡ row_of (first * number_of slots.now)) }
{
    let mut row = Vec::new(alloc);
    push_digits(&mut row, first)?;
    for slot in slots {
        row = product(alloc, &row, slot.alternatives.len())?;
    }
    Ok(row)
}

// Digits as text.
fn text_of(alloc: Global, digits: &[u8]) -> Result<Vec<u8>, AllocError>
    requires { All (λ d. d < 10) digits.now }
    ensures { IfOk result (λ text. text.items ≡ map (λ d. d + 48) digits.now) }
{
    digits.iter().map(|digit| *digit + b'0').collect(alloc)
}

// The text of a number times that of the choices of these slots.
fn product_text(alloc: Global, first: u128, slots: &[Slot]) -> Result<Vec<u8>, AllocError>
    requires { IsTrue (are_each_slots slots.now) }
    ensures { IfOk result (λ text. text.items ≡ number_text (first * number_of slots.now)) }
{
    if first == 0 {
        return text_of(alloc, &[0]);
    }
    let mut digits = count_row(alloc, first, slots)?;
    digits.reverse();
    text_of(alloc, &digits)
}

/// The number of choices of a part of a set, in decimal (docs/FORMATS.md, "Search").
///
/// # Errors
/// Where memory was refused.
pub fn count_text(alloc: Global, choices: &Choices, part: Part) -> Result<Vec<u8>, AllocError>
    ensures { IfOk result (λ text. text.items ≡ number_text (number_of_part part choices.now)) }
{
    let slots = choices.slots();
    let front = front_in(part.count(), slots);
    let first = (front.combinations + u128::from(part.after)) / u128::from(part.count());
    product_text(alloc, first, &slots[front.slots..])
}
