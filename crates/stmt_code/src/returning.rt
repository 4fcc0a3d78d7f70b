//! What bodies give back, and returns, as they are put together (RM 6.4.1, 6.5).
ghost use Rattle.std.specs.Prelude.{◌≡◌, IfOk, OnOk};
ghost use Rattle.ada_tree.specs.ExpressionTree.{expr_tree};
ghost use Rattle.part_code.specs.Formals.{returned_more};
ghost use Rattle.part_code.specs.PartCode.{words_in};
ghost use Rattle.expr_code.specs.Pieces.{adds};
ghost use Rattle.stmt_code.specs.WholeCode.{function_code, given_code, height_given, load_code, return_code};

use ada_tree::Expr;
use base::limits::FRAME_WORDS;
use expr_code::Visible;
use expr_code::fragment::{Fragment, above, raised};
use image::{Operation, Region};
use part_code::PlacedFormal;
use std::alloc::AllocError;
use types::{Scope, Subtype};

// Puts words of the frame on the operand stack. Where a frame never has as many, an instruction that no image may have is added in their place.
#[tactic(auto, using(expr_code::proofs::Pieces::adds_then))]
fn load(fragment: &mut Fragment, depth: usize, offset: u16, words: u16) -> Result<(), AllocError>
    ensures made { OnOk result (fragment.new ≡ adds fragment.old (load_code depth offset words)) }
{
    if words == 1 {
        return fragment.put(depth, Operation::LoadLocal(offset));
    }
    let height = raised(depth, words)?;
    let region = Region::Locals;
    if height <= FRAME_WORDS {
        fragment.put(depth, Operation::Push(i64::from(offset)))?;
        fragment.put(above(depth)?, Operation::LoadBlock { region, words })
    } else {
        fragment.put(height, Operation::Return)
    }
}

// Adds the address to which a parameter is copied back, and its value, and nothing for one that is not; returns how many words are on the operand stack then.
#[tactic(auto, using(expr_code::proofs::Pieces::adds_then, expr_code::proofs::Pieces::adds_nothing))]
fn give(
    fragment: &mut Fragment,
    scope: &Scope,
    depth: usize,
    formal: &PlacedFormal,
) -> Result<usize, AllocError>
    ensures height { IfOk result (λ height. height ≡ returned_more formal.now.address (words_in scope.now formal.now.subtype) depth) }
    ensures made { OnOk result (fragment.new ≡ adds fragment.old (given_code scope.now depth formal.now formal.now.address)) }
{
    match formal.address {
        Some(address) => {
            let words = scope.words(formal.subtype);
            let value = above(depth)?;
            fragment.put(depth, Operation::LoadLocal(address))?;
            load(fragment, value, formal.offset, words)?;
            raised(value, words)
        }
        None => Ok(depth),
    }
}

/// Adds the end of a body: the address and the value of each parameter that is copied back, from the last one to the first, and the return. Returns how many
/// words are given back.
pub fn return_all(
    fragment: &mut Fragment,
    scope: &Scope,
    formals: &[PlacedFormal],
) -> Result<usize, AllocError>
    ensures height { IfOk result (λ height. height ≡ height_given scope.now formals.now) }
    ensures made { OnOk result (fragment.new ≡ adds fragment.old (return_code scope.now formals.now)) }
{
    let mut height = 0;
    for given in 0..formals.len() {
        let Some(formal) = formals.get(formals.len() - 1 - given) else {
            unreachable!();
        };
        height = give(fragment, scope, height, formal)?;
    }
    fragment.put(height, Operation::Return)?;
    Ok(height)
}

/// Adds the code of a function that returns the value of an expression, which is checked against the subtype of its result.
#[tactic(auto, using(expr_code::proofs::Pieces::adds_then))]
pub fn return_value(
    fragment: &mut Fragment,
    visible: &Visible,
    subtype: Subtype,
    value: &Expr,
) -> Result<(), AllocError>
    ensures made { OnOk result (fragment.new ≡ adds fragment.old (function_code visible.now subtype (expr_tree value.now))) }
{
    fragment.checked(visible, 0, Some(subtype), value)?;
    fragment.put(1, Operation::Return)
}
