//! Where the variables of a package and the components of its protected objects are (docs/FORMATS.md).
ghost use Rattle.std.specs.Prelude.{◌≡◌, ◌+◌, ◌≤◌, ◌++◌, ◌∷◌, [], IfOk, OnOk, map};
ghost use Rattle.base.specs.declared.limits.TheConstants.{WORDS};
ghost use Rattle.types.specs.Layouts.{total, words_of};
ghost use Rattle.legality.specs.Placing.{object_at, variable_at};
ghost use Rattle.legality.specs.ProgramLayouts.{components_words, object_layouts, objects_words, placed, total_of_all, variables_layout, variables_words};

use base::limits::WORDS;
use std::alloc::{AllocError, Global};
use types::{Entity, Layout, LayoutFault, RecordComponent, Role, Scope, Subtype};

// Places an object of this subtype behind the others.
fn place(layout: &mut Layout, scope: &Scope, subtype: Subtype) -> Result<(), AllocError>
    requires limit { layout.old.limit ≡ WORDS }
    requires room { total layout.old.words + words_of scope.now subtype ≤ WORDS }
    ensures { OnOk result (layout.new ≡ record layout.old { words = layout.old.words ++ words_of scope.now subtype ∷ [] }) }
{
    match layout.add(scope.words(subtype)) {
        Ok(_) => Ok(()),
        Err(LayoutFault::Memory) => Err(AllocError),
        Err(LayoutFault::Full) => unreachable!(),
    }
}

// Places the variable with this number, if it is one.
fn place_variable(layout: &mut Layout, scope: &Scope, number: usize) -> Result<(), AllocError>
    requires limit { layout.old.limit ≡ WORDS }
    requires room { total layout.old.words + total (variable_at scope.now number) ≤ WORDS }
    ensures { OnOk result (layout.new ≡ record layout.old { words = layout.old.words ++ variable_at scope.now number }) }
{
    match scope.entity(number) {
        Some(Entity::Object(Role::Variable, subtype)) => place(layout, scope, *subtype),
        _ => Ok(()),
    }
}

/// The layout of the variables among these names. Memory is the only refusal.
pub(crate) fn variables_layout(alloc: Global, scope: &Scope) -> Result<Layout, AllocError>
    requires room { total (variables_words scope.now scope.now) ≤ WORDS }
    ensures { IfOk result (λ layout. layout ≡ variables_layout scope.now) }
{
    let mut layout = Layout::new(alloc, WORDS as u16);
    for number in 0..scope.len() {
        place_variable(&mut layout, scope, number)?;
    }
    Ok(layout)
}

// The layout of these components.
fn components_layout(
    alloc: Global,
    scope: &Scope,
    components: &[RecordComponent],
) -> Result<Layout, AllocError>
    requires room { total (components_words scope.now components.now) ≤ WORDS }
    ensures { IfOk result (λ layout. layout ≡ placed (components_words scope.now components.now)) }
{
    let mut layout = Layout::new(alloc, WORDS as u16);
    for component in components {
        place(&mut layout, scope, component.subtype)?;
    }
    Ok(layout)
}

// Pushes the layout of the protected object with this number, if it is one.
fn push_object(
    alloc: Global,
    scope: &Scope,
    number: usize,
    layouts: &mut Vec<Layout>,
) -> Result<(), AllocError>
    requires room { total_of_all (object_at scope.now number) ≤ WORDS }
    ensures { OnOk result (layouts.new.items ≡ layouts.old.items ++ map placed (object_at scope.now number)) }
{
    if let Some(object) = scope.protected(number) {
        layouts.push(components_layout(alloc, scope, &object.components)?)?;
    }
    Ok(())
}

/// The layouts of the components of the protected objects among these names, in their order. Memory is the only refusal.
pub(crate) fn object_layouts(alloc: Global, scope: &Scope) -> Result<Vec<Layout>, AllocError>
    requires room { total_of_all (objects_words scope.now scope.now) ≤ WORDS }
    ensures { IfOk result (λ layouts. layouts.items ≡ object_layouts scope.now) }
{
    let mut layouts = Vec::new(alloc);
    for number in 0..scope.len() {
        push_object(alloc, scope, number, &mut layouts)?;
    }
    Ok(layouts)
}
