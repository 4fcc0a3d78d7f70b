//! The tests of the choices of a `case`, as they are put together (RM 5.4).
ghost use Rattle.std.specs.Prelude.{◌≡◌, ◌+◌, ◌*◌, map, IfOk, OnOk};
ghost use Rattle.ada_tree.specs.ExpressionTree.{expr_tree};
ghost use Rattle.types.specs.Statics.{static_fault, static_value};
ghost use Rattle.expr_code.specs.Pieces.{adds, end_of, narrow};
ghost use Rattle.stmt_code.specs.SimpleCode.{choice_word, choices_code, test_code, tests_code};

use ada_tree::Expr;
use expr_code::fragment::Fragment;
use expr_code::scalar_word;
use image::Operation;
use std::alloc::AllocError;
use types::{Scope, static_value};

/// A place or a number as an instruction names it.
#[tactic(auto, unfolding(expr_code::specs::Pieces::narrow))]
pub fn narrow(number: usize) -> u16
    ensures { result ≡ narrow number }
{
    if number < 65_535 {
        number as u16
    } else {
        65_535
    }
}

// The place after so many tests and the jump that follows them.
fn after_tests(fragment: &Fragment, tests: usize) -> Result<u16, AllocError>
    ensures label { IfOk result (λ label. label ≡ narrow (end_of fragment.now + 4 * tests + 1)) }
{
    let Some(start) = fragment.before.checked_add(fragment.instructions.len()) else {
        return Err(AllocError);
    };
    let Some(words) = tests.checked_mul(4) else {
        return Err(AllocError);
    };
    match start.checked_add(words) {
        Some(jump) => match jump.checked_add(1) {
            Some(place) => Ok(narrow(place)),
            None => Err(AllocError),
        },
        None => Err(AllocError),
    }
}

// The word of a choice, and 0 where it is not static.
fn choice_word(scope: &Scope, choice: &Expr) -> i64
    ensures { result ≡ choice_word (static_fault scope.now (expr_tree choice.now)) (static_value scope.now (expr_tree choice.now)) }
{
    match static_value(scope, choice) {
        Ok(value) => scalar_word(value),
        Err(_) => 0,
    }
}

// Adds a test of the value: a copy of it, the word of a choice, whether they are equal, and a jump where they are.
#[tactic(auto, using(expr_code::proofs::Pieces::adds_then))]
fn add_test(fragment: &mut Fragment, word: i64, label: u16) -> Result<(), AllocError>
    ensures made { OnOk result (fragment.new ≡ adds fragment.old (test_code word label)) }
{
    fragment.put(1, Operation::Duplicate)?;
    fragment.put(2, Operation::Push(word))?;
    fragment.put(3, Operation::Equal)?;
    fragment.put(2, Operation::JumpIfNotZero(label))
}

// Adds the tests of choices by their static values.
fn add_tests(
    fragment: &mut Fragment,
    scope: &Scope,
    label: u16,
    choices: &[Expr],
) -> Result<(), AllocError>
    ensures made { OnOk result (fragment.new ≡ adds fragment.old (tests_code scope.now label (map expr_tree choices.now))) }
{
    for choice in choices {
        add_test(fragment, choice_word(scope, choice), label)?;
    }
    Ok(())
}

/// Adds the tests of choices, each of which leads to the instruction after the jump that follows them.
pub fn add_choices(
    fragment: &mut Fragment,
    scope: &Scope,
    choices: &[Expr],
) -> Result<(), AllocError>
    ensures made { OnOk result (fragment.new ≡ adds fragment.old (choices_code scope.now (map expr_tree choices.now))) }
{
    let label = after_tests(fragment, choices.len())?;
    add_tests(fragment, scope, label, choices)
}
