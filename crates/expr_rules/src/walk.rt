//! The broken rules of an expression, in one walk (docs/LANGUAGE.md, "Rules of expressions").
ghost use Rattle.std.specs.Prelude.{◌≡◌, [], IfErr, OnOk, Some};
ghost use Rattle.ada_tree.specs.ExpressionTree.{expr_tree, elsif_value_tree, elsif_value_trees, selector_tree, selector_trees, argument_tree, argument_trees, name_tree};
ghost use Rattle.expr_rules.specs.Faults.{IsLeast, least, rule};
ghost use Rattle.expr_rules.specs.Findings.{noted};
ghost use Rattle.expr_rules.specs.Typing.{elsif_own_of, own_of, typed_wanted};
ghost use Rattle.expr_rules.specs.ExpressionRules.{argument_faults, arguments_faults, below, beside, beside_typed, binary_rule, call_faults, conditional_wanted, elsif_faults, faults_in, faults_of, first_typed, name_faults, or_first, part_faults, parts_own, parts_wanted, selector_faults, selectors_faults, target_faults, unary_rule, wanted_of};
ghost use Rattle.expr_rules.specs.Judging.{joined, joined_faults, judged, judged_after, operands_faults};

use crate::findings::Findings;
use crate::names::{
    Slot, call_rule, end_rule, label_rule, note_mismatch, part_rule, slot_at, slot_rule,
    slot_wanted, value_rule, variable_rule,
};
use crate::own::{
    Own, Wanted, binary_own, has_binary, has_unary, is_integers, is_known, is_logical, is_relation,
    own_of, own_of_standing, parts_own, typed_wanted, unary_own,
};
use ada_tree::laws::{arguments_by_parts, chains_by_parts, conditional_by_parts, names_by_parts};
use ada_tree::{
    Argument, BinaryOperator, ElsifValue, Expr, NameExpr, Operand, Selector, UnaryOperator,
};
use base::faults::{NAME_NOT_VISIBLE, NO_MEANING};
use lexer::Fault;
use types::{Scope, Standing};

// The type that an expression has by itself, and its place.
#[derive(Clone, Copy, Debug)]
struct Judged {
    own: Own,
    place: u32,
}

fn unary_rule(scope: &Scope, operator: UnaryOperator, place: u32, own: Own, found: &mut Findings)
    ensures { found.new ≡ noted found.old (unary_rule scope.now operator place own) }
{
    found.note_rule(
        NO_MEANING,
        place,
        is_known(own) && !has_unary(scope, operator, own),
    )
}

fn binary_rule(
    scope: &Scope,
    operator: BinaryOperator,
    place: u32,
    a: Own,
    b: Own,
    found: &mut Findings,
)
    ensures { found.new ≡ noted found.old (binary_rule scope.now operator place a b) }
{
    found.note_rule(
        NO_MEANING,
        place,
        is_known(a) && (is_known(b) && !has_binary(scope, operator, a, b)),
    )
}

fn below(operator: UnaryOperator, wanted: Wanted) -> Wanted
    ensures { result ≡ below operator wanted }
{
    match operator {
        UnaryOperator::Not => Wanted::BOOLEAN,
        _ => wanted,
    }
}

fn beside_typed(scope: &Scope, operator: BinaryOperator, own: Own) -> Wanted
    ensures { result ≡ beside_typed scope.now operator own }
{
    match own {
        Own::Typed(number) => {
            if is_relation(operator) || is_integers(scope.form(number)) {
                Wanted::OfType(number)
            } else {
                Wanted::Anything
            }
        }
        _ => Wanted::Anything,
    }
}

// What is wanted of an operand beside one of this type.
fn beside(scope: &Scope, operator: BinaryOperator, own: Own) -> Wanted
    ensures { result ≡ beside scope.now operator own }
{
    if is_logical(operator) {
        Wanted::BOOLEAN
    } else {
        beside_typed(scope, operator, own)
    }
}

fn or_first(a: Own, b: Own) -> Own
    ensures { result ≡ or_first a b }
{
    match a {
        Own::Typed(number) => Own::Typed(number),
        _ => b,
    }
}

// The first part of an if expression that has a type by itself.
fn first_typed(scope: &Scope, parts: &[ElsifValue], last: Own) -> Own
    ensures { result ≡ first_typed scope.now (elsif_value_trees parts.now) last }
{
    for part in parts {
        if let Own::Typed(number) = own_of(scope, &part.value) {
            return Own::Typed(number);
        }
    }
    last
}

fn parts_wanted(own: Own, wanted: Wanted, first: Own) -> Wanted
    ensures { result ≡ parts_wanted own wanted first }
{
    match own {
        Own::Unknown => match wanted {
            Wanted::OfType(number) => Wanted::OfType(number),
            _ => typed_wanted(first),
        },
        _ => Wanted::Anything,
    }
}

// What is wanted of the parts of an if expression.
fn conditional_wanted(
    scope: &Scope,
    wanted: Wanted,
    value: &Expr,
    parts: &[ElsifValue],
    else_value: &Expr,
) -> Wanted
    ensures { result ≡ conditional_wanted scope.now wanted (expr_tree value.now) (elsif_value_trees parts.now) (expr_tree else_value.now) }
{
    let first = or_first(
        own_of(scope, value),
        first_typed(scope, parts, own_of(scope, else_value)),
    );
    parts_wanted(parts_own(scope, value, parts, else_value), wanted, first)
}

#[cycle(expression)]
#[tactic(auto, using(crate::specs::Walks::noted_append))]
fn judge(scope: &Scope, wanted: Wanted, e: &Expr, found: &mut Findings) -> Judged
    ensures judged { result ≡ judged scope.now (expr_tree e.now) }
    ensures found { found.new ≡ noted found.old (faults_in scope.now wanted (expr_tree e.now)) }
{
    names_by_parts();
    conditional_by_parts();
    chains_by_parts();
    match e {
        Expr::Number(_, place) => at(Own::Universal, *place),
        Expr::Name(name) => {
            let standing = scope.standing(name);
            name_faults(scope, name, found);
            value_rule(name.first.place, standing, found);
            at(own_of_standing(standing), name.first.place)
        }
        Expr::Parenthesized(place, inner) => {
            let inner = judge(scope, wanted, inner, found);
            at(inner.own, *place)
        }
        Expr::Unary(operator, place, operand) => {
            let inner = judge(scope, below(*operator, wanted), operand, found);
            unary_rule(scope, *operator, *place, inner.own, found);
            at(unary_own(scope, *operator, inner.own), *place)
        }
        Expr::Chain(first, second, more) => {
            let beside = beside(scope, second.operator, own_of(scope, &second.value));
            let left = judge(scope, beside, first, found);
            let both = judge_operand(scope, left, second, found);
            judge_operands(scope, both, more, found)
        }
        Expr::Conditional(place, condition, value, parts, else_value) => {
            let inner = conditional_wanted(scope, wanted, value, parts, else_value);
            faults_of(scope, Wanted::BOOLEAN, condition, found);
            faults_of(scope, inner, value, found);
            elsif_faults(scope, inner, parts, found);
            faults_of(scope, inner, else_value, found);
            at(own_of(scope, e), *place)
        }
    }
}

fn at(own: Own, place: u32) -> Judged
    ensures own { result.own ≡ own }
    ensures place { result.place ≡ place }
{
    Judged { own, place }
}

// An operator and the operand behind it, where all before them was judged so.
#[cycle(expression)]
#[tactic(auto, using(crate::specs::Walks::noted_append))]
fn judge_operand(scope: &Scope, left: Judged, operand: &Operand, found: &mut Findings) -> Judged
    ensures judged { result ≡ joined scope.now left operand.now.operator (expr_tree operand.now.value) }
    ensures found { found.new ≡ noted found.old (joined_faults scope.now left operand.now.operator (expr_tree operand.now.value)) }
{
    let operator = operand.operator;
    let beside = beside(scope, operator, left.own);
    let right = judge(scope, beside, &operand.value, found);
    binary_rule(scope, operator, left.place, left.own, right.own, found);
    at(binary_own(scope, operator, left.own, right.own), left.place)
}

#[cycle(expression)]
fn judge_operands(
    scope: &Scope,
    first: Judged,
    operands: &[Operand],
    found: &mut Findings,
) -> Judged
    ensures judged { result ≡ judged_after scope.now first operands.now }
    ensures found { found.new ≡ noted found.old (operands_faults scope.now first operands.now) }
{
    let mut left = first;
    for operand in operands {
        left = judge_operand(scope, left, operand, found);
    }
    left
}

#[cycle(expression)]
#[tactic(auto, using(crate::specs::Walks::noted_append))]
fn faults_of(scope: &Scope, wanted: Wanted, e: &Expr, found: &mut Findings)
    ensures { found.new ≡ noted found.old (faults_of scope.now wanted (expr_tree e.now)) }
{
    let inside = judge(scope, wanted, e, found);
    note_mismatch(scope, wanted, inside.own, inside.place, found);
}

#[cycle(expression)]
#[tactic(auto, using(crate::specs::Walks::noted_append))]
fn part_faults(scope: &Scope, wanted: Wanted, part: &ElsifValue, found: &mut Findings)
    ensures { found.new ≡ noted found.old (part_faults scope.now wanted (elsif_value_tree part.now).0 (elsif_value_tree part.now).1) }
{
    faults_of(scope, Wanted::BOOLEAN, &part.condition, found);
    faults_of(scope, wanted, &part.value, found);
}

#[cycle(expression)]
fn elsif_faults(scope: &Scope, wanted: Wanted, parts: &[ElsifValue], found: &mut Findings)
    ensures { found.new ≡ noted found.old (elsif_faults scope.now wanted (elsif_value_trees parts.now)) }
{
    for part in parts {
        part_faults(scope, wanted, part, found);
    }
}

#[cycle(expression)]
#[tactic(auto, using(crate::specs::Walks::noted_append))]
fn name_faults(scope: &Scope, name: &NameExpr, found: &mut Findings)
    ensures { found.new ≡ noted found.old (name_faults scope.now (name_tree name.now).first (name_tree name.now).selectors) }
{
    let place = name.first.place;
    let is_hidden = scope.number_of(&name.first.name).is_none();
    found.note_rule(NAME_NOT_VISIBLE, place, is_hidden);
    let first = scope.stands_first(&name.first);
    selectors_faults(scope, place, first, &name.selectors, found);
}

#[cycle(expression)]
fn selectors_faults(
    scope: &Scope,
    place: u32,
    first: Standing,
    selectors: &[Selector],
    found: &mut Findings,
)
    ensures { found.new ≡ noted found.old (selectors_faults scope.now place first (selector_trees selectors.now)) }
{
    let mut standing = first;
    for selector in selectors {
        selector_faults(scope, place, standing, selector, found);
        standing = scope.select(standing, selector);
    }
    end_rule(scope, place, standing, found);
}

#[cycle(expression)]
#[tactic(auto, using(crate::specs::Walks::noted_append))]
fn selector_faults(
    scope: &Scope,
    place: u32,
    standing: Standing,
    selector: &Selector,
    found: &mut Findings,
)
    ensures { found.new ≡ noted found.old (selector_faults scope.now place standing (selector_tree selector.now)) }
{
    arguments_by_parts();
    part_rule(scope, place, standing, selector, found);
    if let Selector::Arguments(arguments) = selector {
        arguments_faults(scope, standing, arguments, found);
    }
}

#[cycle(expression)]
fn arguments_faults(scope: &Scope, standing: Standing, arguments: &[Argument], found: &mut Findings)
    ensures { found.new ≡ noted found.old (arguments_faults scope.now standing 0 (argument_trees arguments.now)) }
{
    for (index, argument) in arguments.iter().enumerate() {
        let slot = slot_at(scope, standing, index);
        argument_faults(scope, slot, argument, found);
    }
}

#[cycle(expression)]
#[tactic(auto, using(crate::specs::Walks::noted_append))]
fn argument_faults(scope: &Scope, slot: Slot, argument: &Argument, found: &mut Findings)
    ensures { found.new ≡ noted found.old (argument_faults scope.now slot (argument_tree argument.now)) }
{
    match argument {
        Argument::Expr(e) => {
            let inside = judge(scope, slot_wanted(slot), e, found);
            slot_rule(scope, slot, e, inside.own, found);
        }
        Argument::Label(_, place) => label_rule(slot, *place, found),
    }
}

/// The broken rules of an expression of which this is expected: 10, 12, 13 and 16 (docs/LANGUAGE.md, "Rules of expressions").
pub fn expression_faults(scope: &Scope, wanted: Wanted, e: &Expr, found: &mut Findings)
    ensures { found.new ≡ noted found.old (faults_of scope.now wanted (expr_tree e.now)) }
{
    faults_of(scope, wanted, e, found);
}

/// The broken rules of a statement that is this name: the call of a procedure or entry, or of `Put` (RM 6.4, 9.5.3).
#[tactic(auto, using(crate::specs::Walks::noted_append))]
pub fn call_faults(scope: &Scope, name: &NameExpr, found: &mut Findings)
    ensures { found.new ≡ noted found.old (call_faults scope.now (name_tree name.now).first (name_tree name.now).selectors) }
{
    name_faults(scope, name, found);
    call_rule(name.first.place, scope.standing(name), found);
}

/// The broken rules of the target of an assignment (RM 5.2).
#[tactic(auto, using(crate::specs::Walks::noted_append))]
pub fn target_faults(scope: &Scope, name: &NameExpr, found: &mut Findings)
    ensures { found.new ≡ noted found.old (target_faults scope.now (name_tree name.now).first (name_tree name.now).selectors) }
{
    let standing = scope.standing(name);
    name_faults(scope, name, found);
    variable_rule(scope, name.first.place, Wanted::Anything, standing, found);
}

/// The least fault in an expression of which this is expected: of rules 10, 12, 13 and 16 (docs/LANGUAGE.md, "Rules of expressions").
#[tactic(auto, using(crate::proofs::Noted::least_found))]
pub fn expression_fault(scope: &Scope, wanted: Wanted, e: &Expr) -> Option<Fault>
    ensures { result ≡ least (faults_of scope.now wanted (expr_tree e.now)) }
{
    let mut found = Findings::new();
    expression_faults(scope, wanted, e, &mut found);
    found.least()
}

/// The least fault in a statement that is this name: the call of a procedure or entry, or of `Put` (RM 6.4, 9.5.3).
#[tactic(auto, using(crate::proofs::Noted::least_found))]
pub fn call_fault(scope: &Scope, name: &NameExpr) -> Option<Fault>
    ensures { result ≡ least (call_faults scope.now (name_tree name.now).first (name_tree name.now).selectors) }
{
    let mut found = Findings::new();
    call_faults(scope, name, &mut found);
    found.least()
}

/// The least fault in the target of an assignment (RM 5.2).
#[tactic(auto, using(crate::proofs::Noted::least_found))]
pub fn target_fault(scope: &Scope, name: &NameExpr) -> Option<Fault>
    ensures { result ≡ least (target_faults scope.now (name_tree name.now).first (name_tree name.now).selectors) }
{
    let mut found = Findings::new();
    target_faults(scope, name, &mut found);
    found.least()
}

fn wanted_of(expected: Option<u16>) -> Wanted
    ensures { result ≡ wanted_of expected }
{
    match expected {
        Some(number) => Wanted::OfType(number as usize),
        None => Wanted::Anything,
    }
}

/// Checks an expression of which a type is expected, if one is, by its number. It is refused just where it breaks one of the rules 10, 12, 13 and 16, by the
/// broken one with the least place, and at one place the least number (docs/LANGUAGE.md, "Rules of expressions").
pub fn check_expr(scope: &Scope, e: &Expr, expected: Option<u16>) -> Result<(), Fault>
    ensures accepted { OnOk result (faults_of scope.now (wanted_of expected) (expr_tree e.now) ≡ []) }
    ensures refused { IfErr result (λ f. IsLeast (faults_of scope.now (wanted_of expected) (expr_tree e.now)) f) }
    ensures least { IfErr result (λ f. Some f ≡ least (faults_of scope.now (wanted_of expected) (expr_tree e.now))) }
{
    match expression_fault(scope, wanted_of(expected), e) {
        None => Ok(()),
        Some(fault) => Err(fault),
    }
}
