//! What moves arrays and records from variables or parts of them (RM 5.2).
ghost use Rattle.std.specs.Prelude.{◌≡◌, true, OnOk};
ghost use Rattle.ada_tree.specs.ExpressionTree.{elsif_value_trees, expr_tree, name_tree};
ghost use Rattle.types.specs.Scopes.{form_at};
ghost use Rattle.types.specs.Standings.{standing_of};
ghost use Rattle.expr_code.specs.Emitting.{is_composite};
ghost use Rattle.expr_code.specs.Pieces.{Opens, adds};
ghost use Rattle.part_code.specs.Moving.{are_moved, is_moved, names_composite, source_at, variable_at};
ghost use Rattle.part_code.specs.PartCode.{move_code, moved_from, moves_code};

use ada_tree::laws::{chains_by_parts, conditional_by_parts, names_by_parts};
use ada_tree::{ElsifValue, Expr, NameExpr};
use expr_code::fragment::Fragment;
use expr_code::{Slot, Visible};
use image::{Operation, Region};
use std::alloc::AllocError;
use types::{Role, Standing, Subtype, TypeForm};

/// The variable from which an array or a record is moved, or a part of which is: where its words are, and its subtype.
#[derive(Clone, Copy)]
pub struct Source {
    pub slot: Slot,
    pub whole: Subtype,
}

/// The words that are moved: how many, and to an address in which region.
#[derive(Clone, Copy)]
pub struct Moved {
    pub region: Region,
    pub words: u16,
}

/// Whether values of a subtype are arrays or records.
pub fn is_composite(visible: &Visible, subtype: Subtype) -> bool
    ensures { result ≡ is_composite (form_at visible.now.scope subtype.type_number) }
{
    match visible.scope.form(subtype.type_number) {
        Some(TypeForm::Array(..)) => true,
        Some(TypeForm::Record(_)) => true,
        _ => false,
    }
}

/// Whether a name is that of an array or a record, or of a part that is one.
pub fn names_composite(visible: &Visible, name: &NameExpr) -> bool
    ensures { let n = name_tree name.now in result ≡ names_composite visible.now.scope (standing_of visible.now.scope n.first n.selectors) }
{
    match visible.scope.standing(name) {
        Standing::Part(_, subtype) => is_composite(visible, subtype),
        _ => false,
    }
}

// The variable with this place; a loop parameter has no words.
fn variable_at(standing: Standing, slot: Option<Slot>) -> Option<Source>
    ensures { result ≡ variable_at standing slot }
{
    match (standing, slot) {
        (Standing::Part(Role::LoopParameter, _), _) => None,
        (Standing::Part(_, whole), Some(slot)) => Some(Source { slot, whole }),
        _ => None,
    }
}

// The variable that a name is, or a part of which it is.
fn source_of(visible: &Visible, name: &NameExpr) -> Option<Source>
    ensures { result ≡ source_at visible.now (name_tree name.now) }
{
    match visible.scope.standing(name) {
        Standing::Part(..) => {
            let slot = visible.slot(&name.first.name);
            variable_at(visible.scope.stands_first(&name.first), slot)
        }
        _ => None,
    }
}

/// Whether each value that may be chosen is that of a variable, or of a part of one.
#[cycle(is_moved)]
pub fn is_moved(visible: &Visible, e: &Expr) -> bool
    ensures { result ≡ is_moved visible.now (expr_tree e.now) }
{
    chains_by_parts();
    conditional_by_parts();
    names_by_parts();
    match e {
        Expr::Number(..) => false,
        Expr::Name(name) => source_of(visible, name).is_some(),
        Expr::Parenthesized(_, inner) => is_moved(visible, inner),
        Expr::Unary(..) => false,
        Expr::Chain(..) => false,
        Expr::Conditional(_, _, value, elsifs, last) => {
            is_moved(visible, value) && (are_moved(visible, elsifs) && is_moved(visible, last))
        }
    }
}

// Whether the values in the parts after the first one of an if expression are moved.
#[cycle(is_moved)]
fn are_moved(visible: &Visible, elsifs: &[ElsifValue]) -> bool
    ensures { result ≡ are_moved visible.now (elsif_value_trees elsifs.now) }
{
    for elsif in elsifs {
        if !is_moved(visible, &elsif.value) {
            return false;
        }
    }
    true
}

/// Adds what moves the value of an expression.
#[cycle(move_value)]
pub fn move_value(
    fragment: &mut Fragment,
    visible: &Visible,
    to: Moved,
    e: &Expr,
) -> Result<(), AllocError>
    ensures made { OnOk result (fragment.new ≡ adds fragment.old (move_code visible.now to (expr_tree e.now))) }
{
    chains_by_parts();
    conditional_by_parts();
    names_by_parts();
    match e {
        Expr::Number(..) => Ok(()),
        Expr::Name(name) => move_named(fragment, visible, to, name),
        Expr::Parenthesized(_, inner) => move_value(fragment, visible, to, inner),
        Expr::Unary(..) => Ok(()),
        Expr::Chain(..) => Ok(()),
        Expr::Conditional(_, condition, value, elsifs, last) => {
            let mut waiting = Vec::new(fragment.alloc);
            fragment.expression(visible, 1, condition)?;
            let test = fragment.test(1)?;
            move_value(fragment, visible, to, value)?;
            fragment.close(0, test, &mut waiting)?;
            move_elsifs(fragment, visible, to, elsifs, &mut waiting)?;
            move_value(fragment, visible, to, last)?;
            fragment.rejoin(&waiting);
            Ok(())
        }
    }
}

// Adds what moves the values in the parts of an if expression after the first one, with jumps after them that wait for the end (RM 4.5.7).
#[cycle(move_value)]
fn move_elsifs(
    fragment: &mut Fragment,
    visible: &Visible,
    to: Moved,
    elsifs: &[ElsifValue],
    waiting: &mut Vec<usize>,
) -> Result<(), AllocError>
    ensures opens { OnOk result (Opens fragment.old waiting.old.items (moves_code visible.now to (elsif_value_trees elsifs.now))
        fragment.new waiting.new.items) }
{
    for elsif in elsifs {
        fragment.expression(visible, 1, &elsif.condition)?;
        let test = fragment.test(1)?;
        move_value(fragment, visible, to, &elsif.value)?;
        fragment.close(0, test, waiting)?;
    }
    Ok(())
}

// Adds the address of the variable that is named, or of the part of one, and what moves its words from there.
#[tactic(auto, using(expr_code::proofs::Pieces::adds_then, expr_code::proofs::Pieces::adds_nothing))]
fn move_named(
    fragment: &mut Fragment,
    visible: &Visible,
    to: Moved,
    name: &NameExpr,
) -> Result<(), AllocError>
    ensures made { OnOk result (fragment.new ≡ adds fragment.old (moved_from visible.now to (source_at visible.now (name_tree name.now))
        (name_tree name.now).selectors)) }
{
    match source_of(visible, name) {
        Some(source) => {
            fragment.address(visible, 1, source.slot, source.whole, &name.selectors)?;
            let copy = Operation::Copy {
                target: to.region,
                source: source.slot.region,
                words: to.words,
            };
            fragment.put(2, copy)
        }
        None => Ok(()),
    }
}
