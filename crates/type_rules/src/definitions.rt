//! Types and subtypes (RM 3.2 to 3.8).
ghost use Rattle.std.specs.Prelude.{◌≡◌, ◌++◌, [], IfOk, OnErr, OnOk, option_map};
ghost use Rattle.ada_tree.specs.ProgramTree.{definition_tree, index_tree, type_tree};
ghost use Rattle.ada_tree.specs.StatementTree.{range_tree};
ghost use Rattle.types.specs.Entities.{entity_value, form_value};
ghost use Rattle.expr_rules.specs.Faults.{rule};
ghost use Rattle.expr_rules.specs.Findings.{noted};
ghost use Rattle.type_rules.specs.SubtypeNames.{subtype_faults};
ghost use Rattle.type_rules.specs.TypeRules.{array_entity, array_faults, subtype_range_faults, components_faults, composite, definition_entity, definition_faults, index_faults, index_place, index_subtype, integer_entity, is_long, narrowed, narrowed_faults, record_components, record_entity, subtype_entity, short_length, type_faults, type_scope};

use crate::names::{
    declare, if_integer, is_other, note_declared_twice, subtype_faults, subtype_of,
};
use crate::ranges::{range_faults, range_subtype};
use ada_tree::{ArrayIndex, Component, Identifier, Range, TypeDeclaration, TypeDefinition};
use base::faults::{DECLARED_TWICE, LIMIT_PASSED, NO_MEANING};
use base::limits::COMPONENTS;
use expr_rules::laws::noted_by_parts;
use expr_rules::{Findings, Wanted};
use std::alloc::{AllocError, Global};
use types::{Components, Entity, RecordComponent, Scope, SeenNames, Subtype, TypeForm, start_of};

// The number of components that an array with this index has, if it may have so many.
fn short_length(index: Subtype) -> Option<u16>
    ensures { result ≡ short_length index }
{
    let length = index.last.abs_diff(index.first);
    if length < COMPONENTS as u64 {
        Some(length as u16 + 1)
    } else {
        None
    }
}

fn index_place(index: &ArrayIndex) -> u32
    ensures { result ≡ index_place (index_tree index.now) }
{
    match index {
        ArrayIndex::Range(range) => start_of(&range.first),
        ArrayIndex::Subtype(name) => name.place,
    }
}

fn index_subtype(scope: &Scope, index: &ArrayIndex) -> Option<Subtype>
    ensures { result ≡ index_subtype scope.now (index_tree index.now) }
{
    match index {
        ArrayIndex::Range(range) => {
            let integer = Subtype::INTEGER;
            let wanted = Wanted::OfType(integer.type_number);
            range_subtype(scope, integer.type_number, wanted, Some(integer), range)
        }
        ArrayIndex::Subtype(name) => if_integer(scope, subtype_of(scope, name)),
    }
}

fn index_faults(scope: &Scope, index: &ArrayIndex, found: &mut Findings)
    ensures { found.new ≡ noted found.old (index_faults scope.now (index_tree index.now)) }
{
    noted_by_parts();
    match index {
        ArrayIndex::Range(range) => {
            let integer = Subtype::INTEGER;
            let wanted = Wanted::OfType(integer.type_number);
            range_faults(scope, wanted, Some(integer), range, found);
        }
        ArrayIndex::Subtype(name) => {
            subtype_faults(scope, name, found);
            let is_other = is_other(scope, subtype_of(scope, name));
            found.note_rule(NO_MEANING, name.place, is_other);
        }
    }
}

fn is_long(index: Option<Subtype>) -> bool
    ensures { result ≡ is_long index }
{
    match index {
        Some(index) => short_length(index).is_none(),
        None => false,
    }
}

// A component, of which this says whether one before it has its name.
fn component_faults(scope: &Scope, is_second: bool, component: &Component, found: &mut Findings)
    ensures { found.new ≡ noted found.old (rule DECLARED_TWICE component.now.name.place is_second ++ subtype_faults scope.now component.now.subtype) }
{
    noted_by_parts();
    found.note_rule(DECLARED_TWICE, component.name.place, is_second);
    subtype_faults(scope, &component.subtype, found);
}

fn components_faults(
    alloc: Global,
    scope: &Scope,
    components: &[Component],
    found: &mut Findings,
) -> Result<(), AllocError>
    ensures { OnOk result (found.new ≡ noted found.old (components_faults scope.now [] components.now)) }
{
    let mut names = SeenNames::new(alloc);
    for component in components {
        let is_second = names.see(&component.name.name)?;
        component_faults(scope, is_second, component, found);
    }
    Ok(())
}

// The components, where the subtype of each is known.
fn record_components(
    alloc: Global,
    scope: &Scope,
    components: &[Component],
) -> Result<Option<Vec<RecordComponent>>, AllocError>
    ensures { IfOk result (λ o. option_map (λ v. v.items) o ≡ record_components scope.now components.now) }
{
    let mut all = Vec::new(alloc);
    for component in components {
        match subtype_of(scope, &component.subtype) {
            Some(subtype) => all.push(RecordComponent {
                name: component.name.name.clone()?,
                subtype,
            })?,
            None => return Ok(None),
        }
    }
    Ok(Some(all))
}

fn narrowed_faults(scope: &Scope, range: &Range, subtype: Option<Subtype>, found: &mut Findings)
    ensures { found.new ≡ noted found.old (narrowed_faults scope.now (range_tree range.now) subtype) }
{
    match subtype {
        Some(subtype) => {
            let wanted = Wanted::OfType(subtype.type_number);
            range_faults(scope, wanted, Some(subtype), range, found);
        }
        None => range_faults(scope, Wanted::AnyInteger, None, range, found),
    }
}

fn array_faults(scope: &Scope, index: &ArrayIndex, component: &Identifier, found: &mut Findings)
    ensures { found.new ≡ noted found.old (array_faults scope.now (index_tree index.now) component.now) }
{
    noted_by_parts();
    index_faults(scope, index, found);
    let is_long = is_long(index_subtype(scope, index));
    found.note_rule(LIMIT_PASSED, index_place(index), is_long);
    subtype_faults(scope, component, found);
}

// A subtype with a range of its own.
fn subtype_range_faults(scope: &Scope, name: &Identifier, range: &Range, found: &mut Findings)
    ensures { found.new ≡ noted found.old (subtype_range_faults scope.now name.now (range_tree range.now)) }
{
    noted_by_parts();
    let subtype = subtype_of(scope, name);
    subtype_faults(scope, name, found);
    found.note_rule(NO_MEANING, name.place, is_other(scope, subtype));
    narrowed_faults(scope, range, if_integer(scope, subtype), found);
}

fn definition_faults(
    alloc: Global,
    scope: &Scope,
    definition: &TypeDefinition,
    found: &mut Findings,
) -> Result<(), AllocError>
    ensures { OnOk result (found.new ≡ noted found.old (definition_faults scope.now (definition_tree definition.now))) }
{
    match definition {
        TypeDefinition::Integer(range) => {
            range_faults(scope, Wanted::AnyInteger, None, range, found);
        }
        TypeDefinition::Array(index, component) => array_faults(scope, index, component, found),
        TypeDefinition::Record(components) => {
            return components_faults(alloc, scope, components, found);
        }
        TypeDefinition::Subtype(name, None) => subtype_faults(scope, name, found),
        TypeDefinition::Subtype(name, Some(range)) => {
            subtype_range_faults(scope, name, range, found);
        }
    }
    Ok(())
}

/// The broken rules of the declaration of a type or subtype. Memory is the only refusal.
pub fn type_faults(
    alloc: Global,
    scope: &Scope,
    declaration: &TypeDeclaration,
    found: &mut Findings,
) -> Result<(), AllocError>
    ensures { OnOk result (found.new ≡ noted found.old (type_faults scope.now (type_tree declaration.now))) }
{
    noted_by_parts();
    definition_faults(alloc, scope, &declaration.definition, found)?;
    note_declared_twice(scope, &declaration.name, found);
    Ok(())
}

// The type with the next number, of this form.
fn composite(scope: &Scope, form: TypeForm) -> Entity
    ensures { entity_value result ≡ composite scope.now (form_value form) }
{
    Entity::Type(
        form,
        Subtype {
            type_number: scope.len(),
            first: 0,
            last: 0,
        },
    )
}

fn integer_entity(subtype: Option<Subtype>) -> Entity
    ensures { entity_value result ≡ integer_entity subtype }
{
    match subtype {
        Some(subtype) => Entity::Type(TypeForm::Integer, subtype),
        None => Entity::Doubtful,
    }
}

fn array_entity(scope: &Scope, index: Option<Subtype>, component: Option<Subtype>) -> Entity
    ensures { entity_value result ≡ array_entity scope.now index component }
{
    match (index, component) {
        (Some(index), Some(component)) => match short_length(index) {
            Some(length) => composite(scope, TypeForm::Array(index, length, component)),
            None => Entity::Doubtful,
        },
        _ => Entity::Doubtful,
    }
}

fn record_entity(
    alloc: Global,
    scope: &Scope,
    components: Option<Vec<RecordComponent>>,
) -> Result<Entity, AllocError>
    ensures { IfOk result (λ e. entity_value e ≡ record_entity scope.now (option_map (λ v. v.items) components)) }
{
    match components {
        Some(components) => {
            let components = Components::new(alloc, components)?;
            Ok(composite(scope, TypeForm::Record(components)))
        }
        None => Ok(Entity::Doubtful),
    }
}

fn subtype_entity(subtype: Option<Subtype>) -> Entity
    ensures { entity_value result ≡ subtype_entity subtype }
{
    match subtype {
        Some(subtype) => Entity::Subtype(subtype),
        None => Entity::Doubtful,
    }
}

fn narrowed(scope: &Scope, subtype: Option<Subtype>, range: &Range) -> Option<Subtype>
    ensures { result ≡ narrowed scope.now subtype (range_tree range.now) }
{
    match subtype {
        Some(subtype) => {
            let wanted = Wanted::OfType(subtype.type_number);
            range_subtype(scope, subtype.type_number, wanted, Some(subtype), range)
        }
        None => None,
    }
}

// What the definition declares.
fn definition_entity(
    alloc: Global,
    scope: &Scope,
    definition: &TypeDefinition,
) -> Result<Entity, AllocError>
    ensures { IfOk result (λ e. entity_value e ≡ definition_entity scope.now (definition_tree definition.now)) }
{
    Ok(match definition {
        TypeDefinition::Integer(range) => {
            let subtype = range_subtype(scope, scope.len(), Wanted::AnyInteger, None, range);
            integer_entity(subtype)
        }
        TypeDefinition::Array(index, component) => array_entity(
            scope,
            index_subtype(scope, index),
            subtype_of(scope, component),
        ),
        TypeDefinition::Record(components) => {
            let components = record_components(alloc, scope, components)?;
            record_entity(alloc, scope, components)?
        }
        TypeDefinition::Subtype(name, None) => subtype_entity(subtype_of(scope, name)),
        TypeDefinition::Subtype(name, Some(range)) => {
            let subtype = if_integer(scope, subtype_of(scope, name));
            subtype_entity(narrowed(scope, subtype, range))
        }
    })
}

/// Makes the type or subtype visible. Memory is the only refusal, and leaves the scope as it was.
pub fn declare_type(
    alloc: Global,
    scope: &mut Scope,
    declaration: &TypeDeclaration,
) -> Result<(), AllocError>
    ensures ok { OnOk result (scope.new ≡ type_scope scope.old (type_tree declaration.now)) }
    ensures err { OnErr result (scope.new ≡ scope.old) }
{
    let entity = definition_entity(alloc, scope, &declaration.definition)?;
    declare(scope, &declaration.name, entity)
}
