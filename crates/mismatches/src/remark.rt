//! What is said of conflicts: which types don't match, and where they are declared; why an expression isn't static, or its value is wrong.
ghost use Rattle.std.specs.Prelude.{◌≡◌, map, option_map};
ghost use Rattle.ada_tree.specs.ProgramTree.{body_item_tree, item_tree, package_tree};
ghost use Rattle.types.specs.Entities.{form_value};
ghost use Rattle.mismatches.specs.Remarks.{body_item_place, body_items_place, conflict_remark, declared_place, declared_type, item_place, items_place, named_type, operands_remark, own_named, place_if, type_of_form, unexpected_remark, wanted_named};

use crate::conflict::{Conflict, Obstacle};
use ada_tree::{BodyItem, Item, Package};
use expr_rules::{Own, Wanted};
use types::{Scope, Subtype, TypeForm};

/// A type of the language (RM A.1, D.8).
#[derive(Clone, Copy)]
pub enum PredefinedType {
    Integer,
    Boolean,
    Time,
    TimeSpan,
}

/// The type of an expression, or the one that is expected of it.
#[derive(Clone, Copy)]
pub enum NamedType {
    /// The type whose name is declared at this place: a byte of the text, from 0 on.
    Declared(u32),
    Predefined(PredefinedType),
    /// Each integer type.
    AnyInteger,
    /// Each integer type, and Boolean.
    Discrete,
    /// The type of a number, which is of each integer type that is expected (RM 3.4.1).
    UniversalInteger,
}

/// What is said of a conflict.
#[derive(Clone, Copy)]
pub enum Remark {
    /// The type that is expected, and the one that is found.
    Unexpected(NamedType, NamedType),
    /// The types of the left and of the right operand of an operator, which has no meaning for them (RM 4.5).
    Operands(NamedType, NamedType),
    /// The actual parameter for a formal one of mode `out` or `in out` is no object (RM 6.4.1).
    NoVariable,
    /// An expression isn't static, for this (RM 4.9).
    NotStatic(Obstacle),
    /// The value of a static expression is the first number, and lies outside the range from the second to the third.
    Outside(i64, i64, i64),
    /// The evaluation of a static expression raises an exception.
    Raises,
    /// A range that is declared is null: these are its bounds (RM 3.5).
    NullRange(i64, i64),
}

fn place_if(number: usize, own: Option<usize>, place: u32) -> Option<u32>
    ensures { result ≡ place_if number own place }
{
    match own {
        Some(own) => { if own == number { Some(place) } else { None } }
        None => None,
    }
}

fn item_place(scope: &Scope, number: usize, item: &Item) -> Option<u32>
    ensures { result ≡ item_place scope.now number (item_tree item.now) }
{
    match item {
        Item::Type(declaration) => {
            let name = &declaration.name;
            place_if(number, scope.number_of(&name.name), name.place)
        }
        _ => None,
    }
}

fn items_place(scope: &Scope, number: usize, items: &[Item]) -> Option<u32>
    ensures { result ≡ items_place scope.now number (map item_tree items.now) }
{
    for item in items {
        if let Some(place) = item_place(scope, number, item) {
            return Some(place);
        }
    }
    None
}

fn body_item_place(scope: &Scope, number: usize, item: &BodyItem) -> Option<u32>
    ensures { result ≡ body_item_place scope.now number (body_item_tree item.now) }
{
    match item {
        BodyItem::Item(item) => item_place(scope, number, item),
        _ => None,
    }
}

fn body_items_place(scope: &Scope, number: usize, items: &[BodyItem]) -> Option<u32>
    ensures { result ≡ body_items_place scope.now number (map body_item_tree items.now) }
{
    for item in items {
        if let Some(place) = body_item_place(scope, number, item) {
            return Some(place);
        }
    }
    None
}

fn declared_place(scope: &Scope, number: usize, package_: &Package) -> Option<u32>
    ensures { result ≡ declared_place scope.now number (package_tree package_.now) }
{
    match items_place(scope, number, &package_.declaration.items) {
        Some(place) => Some(place),
        None => body_items_place(scope, number, &package_.body.items),
    }
}

fn declared_type(place: Option<u32>) -> Option<NamedType>
    ensures { result ≡ declared_type place }
{
    match place {
        Some(place) => Some(NamedType::Declared(place)),
        None => None,
    }
}

fn type_of_form(form: Option<&TypeForm>, place: Option<u32>) -> Option<NamedType>
    ensures { result ≡ type_of_form (option_map (λ f. form_value f.now) form.entry) place }
{
    match form {
        Some(TypeForm::Boolean) => Some(NamedType::Predefined(PredefinedType::Boolean)),
        Some(TypeForm::Time) => Some(NamedType::Predefined(PredefinedType::Time)),
        Some(TypeForm::TimeSpan) => Some(NamedType::Predefined(PredefinedType::TimeSpan)),
        _ => declared_type(place),
    }
}

fn named_type(scope: &Scope, package_: &Package, number: usize) -> Option<NamedType>
    ensures { result ≡ named_type scope.now (package_tree package_.now) number }
{
    if number == Subtype::INTEGER.type_number {
        Some(NamedType::Predefined(PredefinedType::Integer))
    } else {
        type_of_form(scope.form(number), declared_place(scope, number, package_))
    }
}

fn own_named(scope: &Scope, package_: &Package, own: Own) -> Option<NamedType>
    ensures { result ≡ own_named scope.now (package_tree package_.now) own }
{
    match own {
        Own::Typed(number) => named_type(scope, package_, number),
        Own::Universal => Some(NamedType::UniversalInteger),
        Own::Unknown => None,
    }
}

fn wanted_named(scope: &Scope, package_: &Package, wanted: Wanted) -> Option<NamedType>
    ensures { result ≡ wanted_named scope.now (package_tree package_.now) wanted }
{
    match wanted {
        Wanted::OfType(number) => named_type(scope, package_, number),
        Wanted::AnyInteger => Some(NamedType::AnyInteger),
        Wanted::Anything => None,
    }
}

fn unexpected_remark(expected: Option<NamedType>, found: Option<NamedType>) -> Option<Remark>
    ensures { result ≡ unexpected_remark expected found }
{
    match (expected, found) {
        (Some(expected), Some(found)) => Some(Remark::Unexpected(expected, found)),
        _ => None,
    }
}

fn operands_remark(left: Option<NamedType>, right: Option<NamedType>) -> Option<Remark>
    ensures { result ≡ operands_remark left right }
{
    match (left, right) {
        (Some(left), Some(right)) => Some(Remark::Operands(left, right)),
        _ => None,
    }
}

/// What is said of a conflict, by what is visible after the package.
pub(crate) fn conflict_remark(
    scope: &Scope,
    package_: &Package,
    conflict: Option<Conflict>,
) -> Option<Remark>
    ensures { result ≡ conflict_remark scope.now (package_tree package_.now) conflict }
{
    match conflict {
        Some(Conflict::Unexpected(wanted, own)) => unexpected_remark(
            wanted_named(scope, package_, wanted),
            own_named(scope, package_, own),
        ),
        Some(Conflict::Operands(left, right)) => operands_remark(
            own_named(scope, package_, left),
            own_named(scope, package_, right),
        ),
        Some(Conflict::NoVariable) => Some(Remark::NoVariable),
        Some(Conflict::NotDiscrete(own)) => unexpected_remark(
            Some(NamedType::Discrete),
            own_named(scope, package_, own),
        ),
        Some(Conflict::NotStatic(obstacle)) => Some(Remark::NotStatic(obstacle)),
        Some(Conflict::Outside(value, first, last)) => Some(Remark::Outside(value, first, last)),
        Some(Conflict::Raises) => Some(Remark::Raises),
        Some(Conflict::NullRange(first, last)) => Some(Remark::NullRange(first, last)),
        None => None,
    }
}
