//! Actual parameters, what they name, and what is copied back (RM 6.4.1).
ghost use Rattle.std.specs.Prelude.{◌≡◌, ◌++◌, ◌+◌, ◌-◌, ◌*◌, [], not, option_map, IfOk, OnOk};
ghost use Rattle.ada_tree.specs.ExpressionTree.{argument_tree, argument_trees, expr_tree, name_tree};
ghost use Rattle.ada_tree.specs.Size.{total};
ghost use Rattle.expr_code.specs.ExpressionCode.{misfit_code};
ghost use Rattle.expr_code.specs.Pieces.{adds};
ghost use Rattle.image.specs.Rules.{is_block};
ghost use Rattle.part_code.specs.EntryNames.{entry_behind, is_own_entry};
ghost use Rattle.part_code.specs.Passing.{actuals_behind, operation_behind};
ghost use Rattle.part_code.specs.PartCode.{actual_code, actual_height, actual_target, actuals_code, actuals_height, actuals_targets, copied_in, copies_code, copy_code, fitting_code, given_words, moded_code, moded_height, moded_target, object_at, object_named, range_code, target_address, target_at, target_code, target_of, target_words, with_target};
ghost use Rattle.step_soundness.specs.Fitting.{entity_named};

use crate::moving::Source;
use crate::storing::stored_at;
use ada_tree::laws::{arguments_by_parts, chains_by_parts, conditional_by_parts, names_by_parts};
use ada_tree::{Argument, Expr, Identifier, Mode, NameExpr, Selector};
use expr_code::fragment::{Fragment, above, raised};
use expr_code::{Slot, Visible, has_numbers, loaded_at};
use image::{Operation, Region};
use lexer::Text;
use std::alloc::AllocError;
use types::{Entity, FormalParameter, Standing, Subtype};

/// Where a parameter is copied back to at the end of a call (RM 6.4.1): the region of the variable, and the subtype of the target.
#[derive(Clone, Copy, PartialEq, Eq, Debug)]
pub struct Destination {
    pub region: Region,
    pub subtype: Subtype,
}

/// The actual parameters after the name of what is called.
pub fn actuals_of(name: &NameExpr) -> Option<&[Argument]>
    ensures { option_map (λ all. argument_trees all.now) result ≡ actuals_behind (name_tree name.now).selectors }
{
    arguments_by_parts();
    match name.selectors.as_slice() {
        [] => Some(&[]),
        [Selector::Arguments(arguments, ..)] => Some(arguments),
        [Selector::Component(..)] => None,
        [Selector::Attribute(..)] => None,
        [_, _, ..] => None,
    }
}

/// The operation that is named after a protected object, and the actual parameters after that.
pub fn operation_of(name: &NameExpr) -> Option<(&Identifier, &[Argument])>
    ensures { option_map (λ x. record { operation = x.0.now; arguments = argument_trees x.1.now }) result ≡ operation_behind (name_tree name.now).selectors }
{
    arguments_by_parts();
    match name.selectors.as_slice() {
        [] => None,
        [Selector::Component(operation, ..)] => Some((operation, &[])),
        [Selector::Arguments(..)] => None,
        [Selector::Attribute(..)] => None,
        [
            Selector::Component(operation, ..),
            Selector::Arguments(arguments, ..),
        ] => { Some((operation, arguments)) }
        [Selector::Component(..), Selector::Component(..)] => None,
        [Selector::Component(..), Selector::Attribute(..)] => None,
        [Selector::Arguments(..), _] => None,
        [Selector::Attribute(..), _] => None,
        [_, _, _, ..] => None,
    }
}

/// The number of the protected object of this name, where the operation of that name is its entry (RM 9.5.2), if an instruction has room for the number.
pub fn entry_behind(visible: &Visible, object: &Text, operation: &Text) -> Option<u16>
    ensures { result ≡ entry_behind visible.now.scope object.now operation.now }
{
    let number = visible.scope.number_of(object)?;
    let protected = visible.scope.protected(number)?;
    let place = protected.position_of(operation)?;
    match protected.operations.as_slice().get(place) {
        Some(found) if found.is_entry => match u16::try_from(protected.number) {
            Ok(number) => Some(number),
            Err(_) => None,
        },
        _ => None,
    }
}

/// Whether the name denotes an entry of the protected object in whose body it is read.
pub fn is_own_entry(visible: &Visible, name: &Text) -> bool
    ensures { result ≡ is_own_entry (entity_named visible.now.scope name.now) }
{
    match visible.scope.number_of(name) {
        Some(number) => matches!(visible.scope.entity(number), Some(Entity::Entry(_))),
        None => false,
    }
}

/// Adds the value of an expression, which is checked against a subtype; where this has no words, or more than one instruction moves, what no image may have.
#[tactic(auto, using(expr_code::proofs::Pieces::adds_then))]
pub fn fitting(
    fragment: &mut Fragment,
    visible: &Visible,
    depth: usize,
    subtype: Subtype,
    e: &Expr,
) -> Result<(), AllocError>
    ensures made { OnOk result (fragment.new ≡ adds fragment.old (fitting_code visible.now depth subtype (expr_tree e.now))) }
{
    misfit(fragment, depth, visible.scope.words(subtype))?;
    fragment.checked(visible, depth, Some(subtype), e)
}

// Adds what no image may have, where so many words are none, or more than one instruction moves.
#[tactic(auto, using(expr_code::proofs::Pieces::adds_nothing))]
fn misfit(fragment: &mut Fragment, depth: usize, words: u16) -> Result<(), AllocError>
    ensures made { OnOk result (fragment.new ≡ adds fragment.old (misfit_code (not (is_block words)) depth)) }
{
    let region = Region::Locals;
    if (Operation::LoadBlock { region, words }).has_operands() {
        return Ok(());
    }
    fragment.put(depth, Operation::LoadBlock { region, words: 0 })
}

/// The object with this standing and place.
pub fn object_at(standing: Standing, slot: Option<Slot>) -> Option<Source>
    ensures { result ≡ object_at standing slot }
{
    match (standing, slot) {
        (Standing::Part(_, whole), Some(slot)) => Some(Source { slot, whole }),
        _ => None,
    }
}

// Adds the address of the object with this name, or of the part of one, and returns where it is copied back to.
#[tactic(auto, using(expr_code::proofs::Pieces::adds_nothing))]
fn target_named(
    fragment: &mut Fragment,
    visible: &Visible,
    depth: usize,
    name: &NameExpr,
) -> Result<Option<Destination>, AllocError>
    ensures target { IfOk result (λ target. target ≡ target_at visible.now (object_named visible.now (name_tree name.now).first)
        (name_tree name.now).selectors) }
    ensures made { OnOk result (fragment.new ≡ adds fragment.old (target_address visible.now depth (object_named visible.now (name_tree name.now).first)
        (name_tree name.now).selectors)) }
{
    let slot = visible.slot(&name.first.name);
    match object_at(visible.scope.stands_first(&name.first), slot) {
        Some(source) => {
            let part = fragment.address(
                visible,
                depth,
                source.slot,
                source.whole,
                &name.selectors,
            )?;
            Ok(Some(Destination {
                region: source.slot.region,
                subtype: part.subtype,
            }))
        }
        None => Ok(None),
    }
}

// Adds the address of the object, or of the part of one, that an actual parameter names, and returns where it is copied back to.
#[tactic(auto, using(expr_code::proofs::Pieces::adds_nothing))]
fn target(
    fragment: &mut Fragment,
    visible: &Visible,
    depth: usize,
    e: &Expr,
) -> Result<Option<Destination>, AllocError>
    ensures target { IfOk result (λ target. target ≡ target_of visible.now (expr_tree e.now)) }
    ensures made { OnOk result (fragment.new ≡ adds fragment.old (target_code visible.now depth (expr_tree e.now))) }
{
    chains_by_parts();
    conditional_by_parts();
    names_by_parts();
    match e {
        Expr::Name(name) => target_named(fragment, visible, depth, name),
        Expr::Number(..) => Ok(None),
        Expr::Parenthesized(..) => Ok(None),
        Expr::Unary(..) => Ok(None),
        Expr::Chain(..) => Ok(None),
        Expr::Conditional(..) => Ok(None),
    }
}

// Adds the value of a target above its address, checked against the subtype of a parameter, and returns how many words are on the operand stack with it.
fn target_value(
    fragment: &mut Fragment,
    visible: &Visible,
    depth: usize,
    target: Option<Destination>,
    subtype: Subtype,
) -> Result<usize, AllocError>
    ensures height { IfOk result (λ height. height ≡ depth + 1 + target_words visible.now.scope target) }
    ensures made { OnOk result (fragment.new ≡ adds fragment.old (copied_in visible.now depth target subtype)) }
{
    let one = above(depth)?;
    match target {
        Some(destination) => {
            let words = visible.scope.words(destination.subtype);
            let two = above(one)?;
            let height = raised(one, words)?;
            fragment.put(one, Operation::Duplicate)?;
            fragment.put(two, loaded_at(destination.region, words))?;
            check_value(fragment, visible, height, subtype)?;
            Ok(height)
        }
        None => Ok(one),
    }
}

// Appends a target, if there is one.
fn note(destinations: &mut Vec<Destination>, target: Option<Destination>) -> Result<(), AllocError>
    ensures targets { OnOk result (destinations.new.items ≡ destinations.old.items ++ with_target target []) }
{
    match target {
        Some(destination) => {
            destinations.push(destination)?;
            Ok(())
        }
        None => Ok(()),
    }
}

// Adds the code of the expression that is passed for a formal, and returns how many words are on the operand stack with its own.
#[tactic(auto, using(expr_code::proofs::Pieces::adds_then))]
fn passed(
    fragment: &mut Fragment,
    visible: &Visible,
    depth: usize,
    formal: &FormalParameter,
    e: &Expr,
    destinations: &mut Vec<Destination>,
) -> Result<usize, AllocError>
    ensures height { IfOk result (λ height. height ≡ moded_height visible.now depth formal.now (expr_tree e.now)) }
    ensures made { OnOk result (fragment.new ≡ adds fragment.old (moded_code visible.now depth formal.now (expr_tree e.now))) }
    ensures targets { OnOk result (destinations.new.items ≡ destinations.old.items
        ++ with_target (moded_target visible.now formal.now (expr_tree e.now)) []) }
{
    match formal.mode {
        Mode::In => {
            let height = raised(depth, visible.scope.words(formal.subtype))?;
            fitting(fragment, visible, depth, formal.subtype, e)?;
            Ok(height)
        }
        Mode::Out => {
            let height = above(depth)?;
            let target = target(fragment, visible, depth, e)?;
            note(destinations, target)?;
            Ok(height)
        }
        Mode::InOut => {
            let target = target(fragment, visible, depth, e)?;
            note(destinations, target)?;
            let height = target_value(fragment, visible, depth, target, formal.subtype)?;
            Ok(height)
        }
    }
}

// Adds the code of the actual parameter for a formal, and returns how many words are on the operand stack with its own.
#[tactic(auto, using(expr_code::proofs::Pieces::adds_nothing))]
fn actual(
    fragment: &mut Fragment,
    visible: &Visible,
    depth: usize,
    formal: &FormalParameter,
    argument: &Argument,
    destinations: &mut Vec<Destination>,
) -> Result<usize, AllocError>
    ensures height { IfOk result (λ height. height ≡ actual_height visible.now depth formal.now (argument_tree argument.now)) }
    ensures made { OnOk result (fragment.new ≡ adds fragment.old (actual_code visible.now depth formal.now (argument_tree argument.now))) }
    ensures targets { OnOk result (destinations.new.items ≡ destinations.old.items
        ++ with_target (actual_target visible.now formal.now (argument_tree argument.now)) []) }
{
    match argument {
        Argument::Expr(e) => passed(fragment, visible, depth, formal, e, destinations),
        Argument::Label(..) => Ok(depth),
    }
}

/// Adds the code of the actual parameters from left to right, and returns how many words are on the operand stack with theirs.
pub fn actuals(
    fragment: &mut Fragment,
    visible: &Visible,
    formals: &[FormalParameter],
    arguments: &[Argument],
    destinations: &mut Vec<Destination>,
) -> Result<usize, AllocError>
    ensures height { IfOk result (λ height. height ≡ actuals_height visible.now 0 formals.now (argument_trees arguments.now)) }
    ensures made { OnOk result (fragment.new ≡ adds fragment.old (actuals_code visible.now 0 formals.now (argument_trees arguments.now))) }
    ensures targets { OnOk result (destinations.new.items ≡ destinations.old.items ++ actuals_targets visible.now formals.now (argument_trees arguments.now)) }
{
    let mut height = 0;
    for (index, argument) in arguments.iter().enumerate() {
        let Some(formal) = formals.get(index) else {
            return Ok(height);
        };
        height = actual(fragment, visible, height, formal, argument, destinations)?;
    }
    Ok(height)
}

// How many words come back with what is copied back.
fn given_words(visible: &Visible, destinations: &[Destination]) -> Result<usize, AllocError>
    ensures words { IfOk result (λ words. words ≡ total (given_words visible.now.scope) destinations.now) }
{
    let mut all = 0;
    for destination in destinations {
        let words = visible.scope.words(destination.subtype);
        let value = raised(all, words)?;
        all = above(value)?;
    }
    Ok(all)
}

// Adds the check of a value on top of the operand stack, where that is a number.
#[tactic(auto, using(expr_code::proofs::Pieces::adds_nothing))]
fn check_value(
    fragment: &mut Fragment,
    visible: &Visible,
    depth: usize,
    subtype: Subtype,
) -> Result<(), AllocError>
    ensures made { OnOk result (fragment.new ≡ adds fragment.old (range_code visible.now.scope depth subtype)) }
{
    if has_numbers(visible.scope.form(subtype.type_number)) {
        return fragment.check_range(depth, subtype);
    }
    Ok(())
}

// Adds what checks a value and stores it at the address below it, both on top of `height` words.
#[tactic(auto, using(expr_code::proofs::Pieces::adds_then))]
fn copy(
    fragment: &mut Fragment,
    visible: &Visible,
    height: usize,
    destination: Destination,
) -> Result<(), AllocError>
    ensures made { OnOk result (fragment.new ≡ adds fragment.old (copy_code visible.now.scope height destination)) }
{
    check_value(fragment, visible, height, destination.subtype)?;
    let words = visible.scope.words(destination.subtype);
    fragment.put(height, stored_at(destination.region, words))
}

// How many words are below the address of a target and so many words above it, which end a stack of `height` words.
fn below(height: usize, words: u16) -> usize
    ensures { result ≡ height - words - 1 }
{
    height.saturating_sub(usize::from(words)).saturating_sub(1)
}

/// Adds the code of all that is copied back.
pub fn copies(
    fragment: &mut Fragment,
    visible: &Visible,
    destinations: &[Destination],
) -> Result<(), AllocError>
    ensures made { OnOk result (fragment.new ≡ adds fragment.old (copies_code visible.now.scope destinations.now)) }
{
    let mut height = given_words(visible, destinations)?;
    for destination in destinations {
        let rest = below(height, visible.scope.words(destination.subtype));
        copy(fragment, visible, height, *destination)?;
        height = rest;
    }
    Ok(())
}
