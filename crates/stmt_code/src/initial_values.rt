//! Initial values of objects (RM 3.3.1) as they are put together before they are added to the code of their body.
ghost use Rattle.std.specs.Prelude.{◌≡◌, ◌∷◌, [], IfOk, OnOk};
ghost use Rattle.ada_tree.specs.ExpressionTree.{expr_tree};
ghost use Rattle.ada_tree.specs.StatementTree.{optional_tree};
ghost use Rattle.types.specs.Scopes.{form_at};
ghost use Rattle.expr_code.specs.Pieces.{adds};
ghost use Rattle.part_code.specs.Emitting.{first_word};
ghost use Rattle.part_code.specs.ObjectCode.{HasPutWords, block_code, first_value, first_words, object_code, word_pushed};

use ada_tree::Expr;
use base::limits::FRAME_WORDS;
use expr_code::Visible;
use expr_code::fragment::{Fragment, above, raised};
use image::{Operation, Region};
use part_code::call::fitting;
use part_code::is_composite;
use std::alloc::AllocError;
use types::{Subtype, TypeForm};

// The word of an object of one word without initial value.
fn first_word(visible: &Visible, subtype: Subtype) -> Option<i64>
    ensures { result ≡ first_word (form_at visible.now.scope subtype.type_number) subtype }
{
    match visible.scope.form(subtype.type_number) {
        Some(TypeForm::Integer) => Some(subtype.first),
        Some(TypeForm::Boolean) => Some(0),
        Some(TypeForm::Time) => Some(0),
        Some(TypeForm::TimeSpan) => Some(0),
        _ => None,
    }
}

// Adds what puts this word on the empty operand stack, if there is one.
#[tactic(auto, using(expr_code::proofs::Pieces::adds_nothing))]
fn push_first(fragment: &mut Fragment, word: Option<i64>) -> Result<(), AllocError>
    ensures made { OnOk result (fragment.new ≡ adds fragment.old (word_pushed word)) }
{
    match word {
        Some(word) => fragment.put(0, Operation::Push(word)),
        None => Ok(()),
    }
}

// Adds the initial value of an object of one word: the one that is given, which is checked, or that of an object without.
fn add_first(
    fragment: &mut Fragment,
    visible: &Visible,
    subtype: Subtype,
    value: &Option<Expr>,
) -> Result<(), AllocError>
    ensures made { OnOk result (fragment.new ≡ adds fragment.old (first_value visible.now subtype (optional_tree expr_tree value.now))) }
{
    match value {
        Some(value) => fragment.checked(visible, 0, Some(subtype), value),
        None => push_first(fragment, first_word(visible, subtype)),
    }
}

// Puts a word on the operand stack above `height` others, and returns how many are there then.
fn push_word(fragment: &mut Fragment, height: usize, word: i64) -> Result<usize, AllocError>
    ensures puts { IfOk result (λ top. HasPutWords fragment.old height (word ∷ []) fragment.new top) }
{
    let top = above(height)?;
    fragment.put(height, Operation::Push(word))?;
    Ok(top)
}

// Puts the words of an object without initial value there, whose type has a number below a bound.
fn push_initial(
    fragment: &mut Fragment,
    visible: &Visible,
    height: usize,
    subtype: Subtype,
    below: usize,
) -> Result<usize, AllocError>
    ensures puts { IfOk result (λ top. HasPutWords fragment.old height (first_words below visible.now.scope subtype) fragment.new top) }
{
    if below == 0 {
        return Ok(height);
    }
    let mut top = height;
    match visible.scope.form(subtype.type_number) {
        Some(TypeForm::Integer) => push_word(fragment, height, subtype.first),
        Some(TypeForm::Boolean) => push_word(fragment, height, 0),
        Some(TypeForm::Time) => push_word(fragment, height, 0),
        Some(TypeForm::TimeSpan) => push_word(fragment, height, 0),
        Some(TypeForm::Array(_, many, element)) => {
            for _ in 0..*many {
                top = push_initial(fragment, visible, top, *element, below - 1)?;
            }
            Ok(top)
        }
        Some(TypeForm::Record(components)) => {
            for component in components.as_slice() {
                top = push_initial(fragment, visible, top, component.subtype, below - 1)?;
            }
            Ok(top)
        }
        None => Ok(top),
    }
}

// Adds the initial value of an object of several words above their address, and what stores them from an offset of the frame on. Where no value is given and
// a frame never has as many words, an instruction that no image may have is added in their place.
#[tactic(auto, using(expr_code::proofs::Pieces::adds_then))]
fn add_block(
    fragment: &mut Fragment,
    visible: &Visible,
    offset: u16,
    subtype: Subtype,
    value: &Option<Expr>,
) -> Result<(), AllocError>
    ensures made { OnOk result (fragment.new ≡ adds fragment.old (block_code visible.now offset subtype (optional_tree expr_tree value.now))) }
{
    let words = visible.scope.words(subtype);
    let height = raised(1, words)?;
    let below = above(subtype.type_number)?;
    let region = Region::Locals;
    match value {
        Some(value) => {
            fragment.put(0, Operation::Push(i64::from(offset)))?;
            fitting(fragment, visible, 1, subtype, value)?;
            fragment.put(height, Operation::StoreBlock { region, words })
        }
        None => {
            if height <= FRAME_WORDS {
                fragment.put(0, Operation::Push(i64::from(offset)))?;
                push_initial(fragment, visible, 1, subtype, below)?;
                fragment.put(height, Operation::StoreBlock { region, words })
            } else {
                fragment.put(height, Operation::Return)
            }
        }
    }
}

/// Adds the code of an object's initial value, and what stores its words in the frame from an offset on.
#[tactic(auto, using(expr_code::proofs::Pieces::adds_then))]
pub fn initialise(
    fragment: &mut Fragment,
    visible: &Visible,
    offset: u16,
    subtype: Subtype,
    value: &Option<Expr>,
) -> Result<(), AllocError>
    ensures made { OnOk result (fragment.new ≡ adds fragment.old (object_code visible.now offset subtype (optional_tree expr_tree value.now))) }
{
    if is_composite(visible, subtype) {
        return add_block(fragment, visible, offset, subtype, value);
    }
    add_first(fragment, visible, subtype, value)?;
    fragment.put(1, Operation::StoreLocal(offset))
}
