//! Types that don't match in an expression (docs/LANGUAGE.md, "Rules of expressions").
ghost use Rattle.std.specs.Prelude.{◌≡◌};
ghost use Rattle.ada_tree.specs.ExpressionTree.{argument_tree, argument_trees, elsif_value_tree, elsif_value_trees, expr_tree, name_tree, selector_tree, selector_trees};
ghost use Rattle.expr_rules.specs.Typing.{boolean_wanted};
ghost use Rattle.mismatches.specs.Conflicts.{noted};
ghost use Rattle.mismatches.specs.ExpressionMismatches.{argument_mismatches, arguments_mismatches, elsifs_mismatches, mismatches_in, mismatches_of, name_mismatches, part_mismatches, selector_mismatches, selectors_mismatches};
ghost use Rattle.mismatches.specs.Operating.{joined, joined_mismatches, left_operand, operands_mismatches};

use crate::arguments::{note_argument, slot_at};
use crate::conflict::{Search, note_unexpected};
use crate::expected::{before, below, beside, conditional_wanted, slot_wanted};
use crate::operators::{binary_own, note_binary, note_unary};
use ada_tree::laws::{arguments_by_parts, chains_by_parts, conditional_by_parts, names_by_parts};
use ada_tree::{Argument, ElsifValue, Expr, NameExpr, Operand, Selector};
use expr_rules::{Own, Slot, Wanted, own_of};
use types::{Scope, Standing, start_of};

// The left operand of an operator: its type and its place.
#[derive(Clone, Copy)]
struct LeftOperand {
    own: Own,
    place: u32,
}

fn left_operand(scope: &Scope, e: &Expr) -> LeftOperand
    ensures { result ≡ left_operand scope.now (expr_tree e.now) }
{
    LeftOperand {
        own: own_of(scope, e),
        place: start_of(e),
    }
}

#[cycle(expression)]
#[tactic(auto, using(crate::proofs::Noted::noted_append))]
fn inside(scope: &Scope, wanted: Wanted, e: &Expr, search: &mut Search)
    ensures { search.new ≡ noted search.old (mismatches_in scope.now wanted (expr_tree e.now)) }
{
    names_by_parts();
    conditional_by_parts();
    chains_by_parts();
    match e {
        Expr::Number(..) => {}
        Expr::Name(name) => name_mismatches(scope, name, search),
        Expr::Parenthesized(_, inner) => inside(scope, wanted, inner, search),
        Expr::Unary(operator, place, operand) => {
            inside(scope, below(*operator, wanted), operand, search);
            note_unary(scope, *operator, *place, own_of(scope, operand), search);
        }
        Expr::Chain(first, second, more) => {
            inside(scope, before(scope, second), first, search);
            let left = operand_mismatches(scope, left_operand(scope, first), second, search);
            operands_mismatches(scope, left, more, search);
        }
        Expr::Conditional(_, condition, value, parts, else_value) => {
            let inner = conditional_wanted(scope, wanted, value, parts, else_value);
            mismatches_of(scope, Wanted::BOOLEAN, condition, search);
            mismatches_of(scope, inner, value, search);
            elsifs_mismatches(scope, inner, parts, search);
            mismatches_of(scope, inner, else_value, search);
        }
    }
}

// An operator and the operand after it; the operation is the next left operand.
#[cycle(expression)]
#[tactic(auto, using(crate::proofs::Noted::noted_append))]
fn operand_mismatches(
    scope: &Scope,
    left: LeftOperand,
    operand: &Operand,
    search: &mut Search,
) -> LeftOperand
    ensures joined { result ≡ joined scope.now left operand.now.operator (expr_tree operand.now.value) }
    ensures search { search.new ≡ noted search.old (joined_mismatches scope.now left operand.now.operator (expr_tree operand.now.value)) }
{
    let right = own_of(scope, &operand.value);
    let expected = beside(scope, operand.operator, left.own);
    inside(scope, expected, &operand.value, search);
    note_binary(scope, operand.operator, left.place, left.own, right, search);
    LeftOperand {
        own: binary_own(scope, operand.operator, left.own, right),
        place: left.place,
    }
}

#[cycle(expression)]
fn operands_mismatches(scope: &Scope, first: LeftOperand, operands: &[Operand], search: &mut Search)
    ensures { search.new ≡ noted search.old (operands_mismatches scope.now first operands.now) }
{
    let mut left = first;
    for operand in operands {
        left = operand_mismatches(scope, left, operand, search);
    }
}

/// Types that don't match in an expression of which this is expected.
#[cycle(expression)]
#[tactic(auto, using(crate::proofs::Noted::noted_append))]
pub(crate) fn mismatches_of(scope: &Scope, wanted: Wanted, e: &Expr, search: &mut Search)
    ensures { search.new ≡ noted search.old (mismatches_of scope.now wanted (expr_tree e.now)) }
{
    inside(scope, wanted, e, search);
    note_unexpected(scope, wanted, own_of(scope, e), start_of(e), search);
}

#[cycle(expression)]
#[tactic(auto, using(crate::proofs::Noted::noted_append))]
fn part_mismatches(scope: &Scope, wanted: Wanted, part: &ElsifValue, search: &mut Search)
    ensures { search.new ≡ noted search.old (part_mismatches scope.now wanted (elsif_value_tree part.now).0 (elsif_value_tree part.now).1) }
{
    mismatches_of(scope, Wanted::BOOLEAN, &part.condition, search);
    mismatches_of(scope, wanted, &part.value, search);
}

#[cycle(expression)]
fn elsifs_mismatches(scope: &Scope, wanted: Wanted, parts: &[ElsifValue], search: &mut Search)
    ensures { search.new ≡ noted search.old (elsifs_mismatches scope.now wanted (elsif_value_trees parts.now)) }
{
    for part in parts {
        part_mismatches(scope, wanted, part, search);
    }
}

/// Types that don't match in a name: in the arguments among its parts.
#[cycle(expression)]
pub(crate) fn name_mismatches(scope: &Scope, name: &NameExpr, search: &mut Search)
    ensures { search.new ≡ noted search.old (name_mismatches scope.now (name_tree name.now).first (name_tree name.now).selectors) }
{
    let first = scope.stands_first(&name.first);
    selectors_mismatches(scope, first, &name.selectors, search);
}

#[cycle(expression)]
fn selectors_mismatches(scope: &Scope, first: Standing, selectors: &[Selector], search: &mut Search)
    ensures { search.new ≡ noted search.old (selectors_mismatches scope.now first (selector_trees selectors.now)) }
{
    let mut standing = first;
    for selector in selectors {
        selector_mismatches(scope, standing, selector, search);
        standing = scope.select(standing, selector);
    }
}

#[cycle(expression)]
fn selector_mismatches(scope: &Scope, standing: Standing, selector: &Selector, search: &mut Search)
    ensures { search.new ≡ noted search.old (selector_mismatches scope.now standing (selector_tree selector.now)) }
{
    arguments_by_parts();
    match selector {
        Selector::Arguments(arguments) => arguments_mismatches(scope, standing, arguments, search),
        _ => {}
    }
}

#[cycle(expression)]
fn arguments_mismatches(
    scope: &Scope,
    standing: Standing,
    arguments: &[Argument],
    search: &mut Search,
)
    ensures { search.new ≡ noted search.old (arguments_mismatches scope.now standing 0 (argument_trees arguments.now)) }
{
    for (index, argument) in arguments.iter().enumerate() {
        let slot = slot_at(scope, standing, index);
        argument_mismatches(scope, slot, argument, search);
    }
}

#[cycle(expression)]
#[tactic(auto, using(crate::proofs::Noted::noted_append))]
fn argument_mismatches(scope: &Scope, slot: Slot, argument: &Argument, search: &mut Search)
    ensures { search.new ≡ noted search.old (argument_mismatches scope.now slot (argument_tree argument.now)) }
{
    match argument {
        Argument::Expr(e) => {
            inside(scope, slot_wanted(slot), e, search);
            note_argument(scope, slot, e, own_of(scope, e), search);
        }
        Argument::Label(..) => {}
    }
}

/// Types that don't match in an expression, of which this counts where it has no type by itself.
pub(crate) fn mismatches_in(scope: &Scope, wanted: Wanted, e: &Expr, search: &mut Search)
    ensures { search.new ≡ noted search.old (mismatches_in scope.now wanted (expr_tree e.now)) }
{
    inside(scope, wanted, e, search);
}
