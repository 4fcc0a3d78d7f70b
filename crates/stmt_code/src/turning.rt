//! What begins and ends the turns of loops over ranges, as it is put together (RM 5.5).
ghost use Rattle.std.specs.Prelude.{◌≡◌, OnOk};
ghost use Rattle.ada_tree.specs.StatementTree.{range_tree};
ghost use Rattle.expr_code.specs.Pieces.{adds};
ghost use Rattle.part_code.specs.Turns.{next_operation, word_of_first, word_of_last};
ghost use Rattle.stmt_code.specs.SimpleCode.{bounds_code, last_code, next_code, null_code};

use ada_tree::Range;
use expr_code::Visible;
use expr_code::fragment::Fragment;
use image::Operation;
use part_code::Turns;
use std::alloc::AllocError;

// The word of the first bound: the parameter's, unless the parameter comes down to it.
fn of_first(turns: Turns) -> u16
    ensures { result ≡ word_of_first turns }
{
    if turns.reversed {
        turns.limit
    } else {
        turns.counter
    }
}

// The word of the last bound.
fn of_last(turns: Turns) -> u16
    ensures { result ≡ word_of_last turns }
{
    if turns.reversed {
        turns.counter
    } else {
        turns.limit
    }
}

// What makes the parameter's next value of the one that it has and 1.
fn next_operation(reversed: bool) -> Operation
    ensures { result ≡ next_operation reversed }
{
    if reversed {
        Operation::Subtract
    } else {
        Operation::Add
    }
}

/// Adds the bounds of a range, and what stores them.
#[tactic(auto, using(expr_code::proofs::Pieces::adds_then))]
pub fn add_bounds(
    fragment: &mut Fragment,
    visible: &Visible,
    range: &Range,
    turns: Turns,
) -> Result<(), AllocError>
    ensures made { OnOk result (fragment.new ≡ adds fragment.old (bounds_code visible.now (range_tree range.now) turns)) }
{
    fragment.expression(visible, 0, &range.first)?;
    fragment.expression(visible, 1, &range.last)?;
    fragment.put(2, Operation::StoreLocal(of_last(turns)))?;
    fragment.put(1, Operation::StoreLocal(of_first(turns)))
}

/// Adds the test whether the range is null.
#[tactic(auto, using(expr_code::proofs::Pieces::adds_then))]
pub fn test_null(fragment: &mut Fragment, turns: Turns) -> Result<(), AllocError>
    ensures made { OnOk result (fragment.new ≡ adds fragment.old (null_code turns)) }
{
    fragment.put(0, Operation::LoadLocal(of_last(turns)))?;
    fragment.put(1, Operation::LoadLocal(of_first(turns)))?;
    fragment.put(2, Operation::Less)
}

/// Adds the test whether the parameter has its last value.
#[tactic(auto, using(expr_code::proofs::Pieces::adds_then))]
pub fn test_last(fragment: &mut Fragment, turns: Turns) -> Result<(), AllocError>
    ensures made { OnOk result (fragment.new ≡ adds fragment.old (last_code turns)) }
{
    fragment.put(0, Operation::LoadLocal(turns.counter))?;
    fragment.put(1, Operation::LoadLocal(turns.limit))?;
    fragment.put(2, Operation::Equal)
}

/// Adds what gives the parameter its next value.
#[tactic(auto, using(expr_code::proofs::Pieces::adds_then))]
pub fn count(fragment: &mut Fragment, turns: Turns) -> Result<(), AllocError>
    ensures made { OnOk result (fragment.new ≡ adds fragment.old (next_code turns)) }
{
    fragment.put(0, Operation::LoadLocal(turns.counter))?;
    fragment.put(1, Operation::Push(1))?;
    fragment.put(2, next_operation(turns.reversed))?;
    fragment.put(1, Operation::StoreLocal(turns.counter))
}
