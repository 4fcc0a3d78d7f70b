//! The main procedure (RM 10.2).
ghost use Rattle.std.specs.Prelude.{◌≡◌, IfOk, OnOk, map, option_map};
ghost use Rattle.std.specs.List.{list_any};
ghost use Rattle.ada_tree.specs.ProgramTree.{body_item_tree, item_tree, main_tree, package_tree};
ghost use Rattle.types.specs.Scopes.{is_visible};
ghost use Rattle.types.specs.Seen.{ArePlaces};
ghost use Rattle.expr_rules.specs.Findings.{noted};
ghost use Rattle.conformance.specs.MatchingRules.{passes_declared};
ghost use Rattle.unit_rules.specs.MainRules.{called_rule, declared_meaning, has_no_formals, is_task_named, is_task_of, item_bytes, item_meaning, item_name, main_call_faults, main_faults, main_name_faults, main_scope, main_statement_faults, main_statements_faults, meaning_at, meaning_of, no_package_rule, package_call_faults};

use ada_tree::{BodyItem, Formal, Identifier, Item, Main, MainStatement, Package};
use base::faults::{DECLARED_TWICE, NAME_NOT_VISIBLE, NO_MEANING, WRONG_ARGUMENT_COUNT};
use conformance::same_name;
use declaration_rules::aspect_faults;
use expr_rules::Findings;
use expr_rules::laws::noted_by_parts;
use std::alloc::{AllocError, Global};
use std::marker::Model;
use type_rules::{declare, note_end_name};
use types::{Entity, NamePlaces, Scope};

/// What the specification of a package declares by a name.
#[derive(Clone, Copy, Debug, PartialEq, Eq)]
pub(crate) enum Meaning {
    Procedure,
    /// A procedure with formal parameters.
    WithFormals,
    /// No procedure.
    Other,
    Nothing,
}

fn is_task_named(name: &Identifier, item: &Item) -> bool
    ensures { result ≡ is_task_named name.now (item_tree item.now) }
{
    match item {
        Item::Task(task) => same_name(&task.name, name),
        _ => false,
    }
}

fn is_task_in_body(name: &Identifier, item: &BodyItem) -> bool
    ensures { result ≡ passes_declared (is_task_named name.now) (body_item_tree item.now) }
{
    match item {
        BodyItem::Item(item) => is_task_named(name, item),
        _ => false,
    }
}

fn any_task(items: &[Item], name: &Identifier) -> bool
    ensures { result ≡ list_any (λ d. is_task_named name.now (item_tree d)) items.now }
{
    items.iter().any(|item| is_task_named(name, item))
}

fn any_task_in_body(items: &[BodyItem], name: &Identifier) -> bool
    ensures { result ≡ list_any (λ i. passes_declared (is_task_named name.now) (body_item_tree i)) items.now }
{
    items.iter().any(|item| is_task_in_body(name, item))
}

#[tactic(auto, using(crate::proofs::Walks::any_of_trees))]
fn is_task_of(package_: Option<&Package>, name: &Identifier) -> bool
    ensures { result ≡ is_task_of (option_map (λ p. package_tree p.now) package_.entry) name.now }
{
    match package_ {
        Some(package_) => {
            any_task(&package_.declaration.items, name)
                || any_task_in_body(&package_.body.items, name)
        }
        None => false,
    }
}

/// What main's aspect sees: the names that are always visible, and the package's own. Memory is the only refusal.
pub fn main_scope(alloc: Global, package_: Option<&Package>) -> Result<Scope, AllocError>
    ensures { IfOk result (λ s. s ≡ main_scope (option_map (λ p. package_tree p.now) package_.entry)) }
{
    let mut scope = Scope::standard(alloc)?;
    match package_ {
        Some(package_) => {
            declare(&mut scope, &package_.declaration.name, Entity::Unit)?;
            Ok(scope)
        }
        None => Ok(scope),
    }
}

fn main_name_faults(
    scope: &Scope,
    package_: Option<&Package>,
    name: &Identifier,
    found: &mut Findings,
)
    ensures { found.new ≡ noted found.old (main_name_faults scope.now (option_map (λ p. package_tree p.now) package_.entry) name.now) }
{
    let is_taken = scope.number_of(&name.name).is_some() || is_task_of(package_, name);
    found.note_rule(DECLARED_TWICE, name.place, is_taken);
}

fn meaning_of(is_function: bool, has_no_formals: bool) -> Meaning
    ensures { result ≡ meaning_of is_function has_no_formals }
{
    if is_function {
        Meaning::Other
    } else if has_no_formals {
        Meaning::Procedure
    } else {
        Meaning::WithFormals
    }
}

fn has_no_formals(formals: &[Formal]) -> bool
    ensures { result ≡ has_no_formals formals.now }
{
    formals.is_empty()
}

/// The name that a declaration declares.
pub fn item_name(item: &Item) -> &Identifier
    ensures { result.now ≡ item_name (item_tree item.now) }
{
    match item {
        Item::Type(declaration) => &declaration.name,
        Item::Object(object) => &object.name,
        Item::Exception(name) => name,
        Item::Subprogram(subprogram) => &subprogram.name,
        Item::Task(task) => &task.name,
        Item::Protected(object) => &object.name,
    }
}

fn item_meaning(item: &Item) -> Meaning
    ensures { result ≡ item_meaning (item_tree item.now) }
{
    match item {
        Item::Subprogram(subprogram) => meaning_of(
            subprogram.result.is_some(),
            has_no_formals(&subprogram.formals),
        ),
        _ => Meaning::Other,
    }
}

// The places of the names of these declarations, the first of each name.
fn item_places(alloc: Global, items: &[Item]) -> Result<NamePlaces, AllocError>
    ensures { IfOk result (λ places. ArePlaces item_bytes items.now places) }
{
    let mut places = NamePlaces::new(alloc);
    for (place, item) in items.iter().enumerate() {
        places.add(item_name(item).name.clone()?, place)?;
    }
    Ok(places)
}

fn meaning_at(items: &[Item], place: Option<usize>) -> Meaning
    ensures { result ≡ meaning_at items.now place }
{
    match place {
        Some(place) => match items.get(place) {
            Some(item) => item_meaning(item),
            None => Meaning::Nothing,
        },
        None => Meaning::Nothing,
    }
}

// A package beside the places of the names that its specification declares. Contracts see the package.
#[derive(Drop)]
struct NamedPackage<'a> {
    package_: &'a Package,
    places: NamePlaces,
}

impl<'a> Model for NamedPackage<'a> {
    ghost use Rattle.ada_tree.specs.declared.program.Package as declared;
    ghost use Rattle.ada_tree.specs.contracts.program.Package as contract;
    ghost use Rattle.std.specs.Coded.{codes};
    ghost use Rattle.types.specs.Seen.{ArePlaces};
    ghost use Rattle.unit_rules.specs.MainRules.{item_bytes};

    ghost Value = { declared.Package };

    ghost coded = { Prim.hlevel (codes, contract.the_row.coded) };

    ghost view = { λ p. p.package_.now };

    ghost invariant = { λ p. ArePlaces item_bytes p.package_.now.declaration.items.items p.places };
}

impl<'a> NamedPackage<'a> {
    fn new(alloc: Global, package_: &'a Package) -> Result<NamedPackage<'a>, AllocError>
        ensures { IfOk result (λ p. p ≡ package_.now) }
    {
        let places = item_places(alloc, &package_.declaration.items)?;
        Ok(NamedPackage { package_, places })
    }

    // What the specification declares by this name.
    fn meaning(&self, name: &Identifier) -> Meaning
        ensures { result ≡ declared_meaning (map item_tree self.now.declaration.items.items) name.now }
    {
        meaning_at(
            &self.package_.declaration.items,
            self.places.place_of(&name.name),
        )
    }
}

fn called_rule(first: &Identifier, second: &Identifier, meaning: Meaning, found: &mut Findings)
    ensures { found.new ≡ noted found.old (called_rule first.now second.now meaning) }
{
    match meaning {
        Meaning::Procedure => {}
        Meaning::WithFormals => found.note_rule(WRONG_ARGUMENT_COUNT, first.place, true),
        Meaning::Other => found.note_rule(NO_MEANING, first.place, true),
        Meaning::Nothing => found.note_rule(NAME_NOT_VISIBLE, second.place, true),
    }
}

fn no_package_rule(is_visible: bool, first: &Identifier, found: &mut Findings)
    ensures { found.new ≡ noted found.old (no_package_rule is_visible first.now) }
{
    if is_visible {
        found.note_rule(NO_MEANING, first.place, true);
    } else {
        found.note_rule(NAME_NOT_VISIBLE, first.place, true);
    }
}

fn package_call_faults(
    scope: &Scope,
    package_: &NamedPackage,
    first: &Identifier,
    second: &Identifier,
    found: &mut Findings,
)
    ensures { found.new ≡ noted found.old (package_call_faults scope.now (package_tree package_.now) first.now second.now) }
{
    if same_name(&package_.package_.declaration.name, first) {
        called_rule(first, second, package_.meaning(second), found);
    } else {
        no_package_rule(scope.number_of(&first.name).is_some(), first, found);
    }
}

fn main_call_faults(
    scope: &Scope,
    package_: Option<&NamedPackage>,
    first: &Identifier,
    second: &Identifier,
    found: &mut Findings,
)
    ensures { found.new ≡ noted found.old (main_call_faults scope.now (option_map (λ p. package_tree p.now) package_.entry) first.now second.now) }
{
    match package_ {
        Some(package_) => package_call_faults(scope, package_, first, second, found),
        None => no_package_rule(scope.number_of(&first.name).is_some(), first, found),
    }
}

fn main_statement_faults(
    scope: &Scope,
    package_: Option<&NamedPackage>,
    statement: &MainStatement,
    found: &mut Findings,
)
    ensures { found.new ≡ noted found.old (main_statement_faults scope.now (option_map (λ p. package_tree p.now) package_.entry) statement.now) }
{
    match statement {
        MainStatement::Null(_) => {}
        MainStatement::Call(first, second) => {
            main_call_faults(scope, package_, first, second, found)
        }
    }
}

fn main_statements_faults(
    scope: &Scope,
    package_: Option<&NamedPackage>,
    statements: &[MainStatement],
    found: &mut Findings,
)
    ensures { found.new ≡ noted found.old (main_statements_faults scope.now (option_map (λ p. package_tree p.now) package_.entry) statements.now) }
{
    noted_by_parts();
    for statement in statements {
        main_statement_faults(scope, package_, statement, found);
    }
}

fn statements_faults(
    alloc: Global,
    scope: &Scope,
    package_: Option<&Package>,
    statements: &[MainStatement],
    found: &mut Findings,
) -> Result<(), AllocError>
    ensures { OnOk result (found.new ≡ noted found.old (main_statements_faults scope.now
        (option_map (λ p. package_tree p.now) package_.entry) statements.now)) }
{
    match package_ {
        Some(package_) => {
            let named = NamedPackage::new(alloc, package_)?;
            main_statements_faults(scope, Some(&named), statements, found);
        }
        None => main_statements_faults(scope, None, statements, found),
    }
    Ok(())
}

/// The broken rules of the main procedure after this package: its name, its aspect, what it calls, and the name after its `end`. Memory is the only refusal.
pub fn main_faults(
    alloc: Global,
    package_: Option<&Package>,
    main: &Main,
    found: &mut Findings,
) -> Result<(), AllocError>
    ensures { OnOk result (found.new ≡ noted found.old (main_faults (option_map (λ p. package_tree p.now) package_.entry) (main_tree main.now))) }
{
    noted_by_parts();
    let mut scope = main_scope(alloc, package_)?;
    main_name_faults(&scope, package_, &main.name, found);
    aspect_faults(&scope, main.aspect.as_ref(), found);
    declare(&mut scope, &main.name, Entity::Unit)?;
    statements_faults(alloc, &scope, package_, &main.statements, found)?;
    note_end_name(&main.name, &main.end_name, found);
    Ok(())
}
