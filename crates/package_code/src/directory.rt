//! What bodies see of the package: the places of its variables, and the numbers of its subprograms, by their names.
ghost use Rattle.std.specs.Prelude.{◌≡◌, ◌+◌, ◌∷◌, ◌++◌, [], None, Some, false, length, map, replicate, IfErr, IfOk, OnOk};
ghost use Rattle.ada_tree.specs.StatementTree.{optional_tree};
ghost use Rattle.ada_tree.specs.ProgramTree.{body_item_tree, package_tree};
ghost use Rattle.expr_soundness.specs.meaning.specs.Programs.{package_bodies};
ghost use Rattle.expr_code.specs.Refusing.{IsRefused};
ghost use Rattle.expr_code.specs.Seeing.{told_of};
ghost use Rattle.package_code.specs.Bodies.{bodies_among};
ghost use Rattle.types.specs.Entities.{operation_value};
ghost use Rattle.types.specs.Scopes.{number_of};
ghost use Rattle.package_code.specs.Directory.{HaveBodyNumbers, HasManyBodies, HasEntriesSoFar, HasNoNumbers, IsUnseen, TellsNext, entries_among, entry_if, first_told, is_next, number_told, numbered_item, numbered_with, operation_told, operations_told, seen_inside, slot_told};
ghost use Rattle.package_code.specs.Owners.{component_names, objects_at, offered_names, told_behind_objects, told_inside, told_operation, told_slot};

use crate::components::{ComponentSlot, component_slot};
use crate::operations::{OperationNumber, number_operations, operation_number};
use ada_tree::{BodyItem, Package};
use expr_code::{Entries, ImageLimit, OperationNumbers, Refusal, Slot, Visible};
use lexer::Text;
use std::alloc::Global;
use types::{Operation, RecordComponent, Scope};

/// What is known of the names of a package, by their numbers: where variables are, and which subprogram is that of a body; and of the operations and
/// components of its protected objects.
#[derive(Drop)]
pub struct Directory {
    pub slots: Vec<Option<Slot>>,
    pub numbers: Vec<Option<u16>>,
    pub operations: Vec<OperationNumber>,
    pub components: Vec<ComponentSlot>,
}

// What is told of a name.
fn entry<T: Copy>(scope: &Scope, entries: &Vec<Option<T>>, name: &Text) -> Option<T>
    ensures { result ≡ told_of scope.now entries.now.items name.now }
{
    let number = scope.number_of(name)?;
    match entries.get(number) {
        Some(entry) => *entry,
        None => None,
    }
}

// Nothing is told of so many names.
fn no_numbers(alloc: Global, many: usize) -> Result<Vec<Option<u16>>, Refusal>
    ensures none { IfOk result (λ numbers. numbers.items ≡ replicate many None) }
    ensures refused { IfErr result (λ why. IsRefused 0 0 why) }
{
    let mut numbers = Vec::new(alloc);
    for _ in 0..many {
        numbers.push(None)?;
    }
    Ok(numbers)
}

// The number that was told first.
fn first_told(entry: Option<u16>, number: u16) -> Option<u16>
    ensures { result ≡ first_told entry number }
{
    match entry {
        Some(first) => Some(first),
        None => Some(number),
    }
}

// Tells the number of a name that had none, if it is visible.
fn set(numbers: &mut Vec<Option<u16>>, place: Option<usize>, number: u16)
    ensures { numbers.new.items ≡ numbered_with numbers.old.items place number }
{
    if let Some(place) = place {
        if let Some(entry) = numbers.get_mut(place) {
            *entry = first_told(*entry, number);
        }
    }
}

// Goes on behind an item of a package's body, where this is the number of the next body.
fn number_item(
    scope: &Scope,
    numbers: &mut Vec<Option<u16>>,
    next: u16,
    item: &BodyItem,
) -> Result<u16, Refusal>
    ensures numbers { OnOk result (numbers.new.items ≡ numbered_item scope.now numbers.old.items next (body_item_tree item.now)) }
    ensures next { IfOk result (λ number. number ≡ next + bodies_among (body_item_tree item.now ∷ [])) }
    ensures refused { IfErr result (λ why. HasNoNumbers (next + bodies_among (body_item_tree item.now ∷ [])) why) }
{
    match item {
        BodyItem::Subprogram(subprogram, _) => {
            set(numbers, scope.number_of(&subprogram.name.name), next);
            next.checked_add(1)
                .ok_or(Refusal::Limit(ImageLimit::Subprograms))
        }
        BodyItem::Item(_) => Ok(next),
        BodyItem::Task(name, _) => {
            set(numbers, scope.number_of(&name.name), next);
            next.checked_add(1)
                .ok_or(Refusal::Limit(ImageLimit::Subprograms))
        }
        BodyItem::Protected(_, items, _) => {
            let many = u16::try_from(items.len()).map_err(|_| Refusal::Limit(
                ImageLimit::Subprograms,
            ))?;
            next.checked_add(many)
                .ok_or(Refusal::Limit(ImageLimit::Subprograms))
        }
    }
}

// The numbers of the bodies among some items, by their names.
fn number_items(
    alloc: Global,
    scope: &Scope,
    items: &[BodyItem],
) -> Result<Vec<Option<u16>>, Refusal>
    ensures numbered { IfOk result (λ numbers. HaveBodyNumbers scope.now (map body_item_tree items.now) numbers.items) }
    ensures refused { IfErr result (λ why. HasManyBodies (map body_item_tree items.now) why) }
{
    let mut numbers = no_numbers(alloc, scope.len())?;
    let mut next = 0;
    for item in items {
        next = number_item(scope, &mut numbers, next, item)?;
    }
    Ok(numbers)
}

// The numbers of subprograms, by the names of their bodies: that of a body is how many others stand in front of it.
fn number_bodies(
    alloc: Global,
    scope: &Scope,
    package_: &Option<Package>,
) -> Result<Vec<Option<u16>>, Refusal>
    ensures numbered { IfOk result (λ numbers. HaveBodyNumbers scope.now (package_bodies (optional_tree package_tree package_.now)) numbers.items) }
    ensures refused { IfErr result (λ why. HasManyBodies (package_bodies (optional_tree package_tree package_.now)) why) }
{
    match package_ {
        None => number_items(alloc, scope, &[]),
        Some(package_) => number_items(alloc, scope, &package_.body.items),
    }
}

/// What is visible before all of a package, of which nothing is known but the numbers of operations.
pub(crate) fn unseen(
    alloc: Global,
    scope: Scope,
    operations: OperationNumbers,
) -> Result<Visible, Refusal>
    ensures unseen { IfOk result (λ visible. IsUnseen scope operations visible) }
    ensures refused { IfErr result (λ why. IsRefused 0 0 why) }
{
    let mut slots = Entries::new(alloc);
    let mut subprograms = Entries::new(alloc);
    for _ in 0..scope.len() {
        slots.push(None)?;
        subprograms.push(None)?;
    }
    Ok(Visible {
        scope,
        slots,
        subprograms,
        operations,
    })
}

// Whether the name with this number is the next one, behind so many.
fn is_next(number: Option<usize>, many: usize) -> bool
    ensures { result ≡ is_next number many }
{
    match number {
        Some(number) => number == many,
        None => false,
    }
}

// Adds what is told of a name, if it is the next one.
fn tell_next<T: Copy>(
    scope: &Scope,
    entries: &mut Entries<T>,
    name: &Text,
    told: Option<T>,
) -> Result<(), Refusal>
    ensures told { OnOk result (entries.new ≡ entry_if (is_next (number_of scope.now name.now) (length entries.old)) told entries.old) }
    ensures refused { IfErr result (λ why. IsRefused 0 0 why) }
{
    if is_next(scope.number_of(name), entries.len()) {
        entries.push(told)?;
    }
    Ok(())
}

impl Directory {
    /// What is known of a package with these variables and components, where all its names are visible.
    ///
    /// # Errors
    /// `Memory` where memory was refused, `Limit` where there are more bodies than numbers.
    pub fn new(
        alloc: Global,
        slots: Vec<Option<Slot>>,
        components: Vec<ComponentSlot>,
        scope: &Scope,
        package_: &Option<Package>,
    ) -> Result<Directory, Refusal>
        ensures slots { IfOk result (λ directory. directory.slots ≡ slots) }
        ensures components { IfOk result (λ directory. directory.components ≡ components) }
        ensures numbers { IfOk result (λ directory. HaveBodyNumbers scope.now (package_bodies (optional_tree package_tree package_.now))
            directory.numbers.items) }
        ensures operations { IfOk result (λ directory. directory.operations.items ≡ entries_among scope.now 0
            (package_bodies (optional_tree package_tree package_.now))) }
        ensures refused { IfErr result (λ why. HasManyBodies (package_bodies (optional_tree package_tree package_.now)) why) }
    {
        let numbers = number_bodies(alloc, scope, package_)?;
        let operations = number_operations(alloc, scope, package_)?;
        Ok(Directory {
            slots,
            numbers,
            operations,
            components,
        })
    }

    /// The number of the body of this object's operation or entry with this name.
    pub(crate) fn operation(&self, object: usize, name: &Text) -> Option<u16>
        ensures { result ≡ operation_told self.now.operations.items object name.now }
    {
        operation_number(&self.operations, object, name)
    }

    // The number of the body of this object's operation; of an entry none is told.
    fn number_offered(&self, object: usize, operation: &Operation) -> Option<u16>
        ensures { result ≡ told_operation (operation_told self.now.operations.items object) (operation_value operation.now) }
    {
        if operation.is_entry {
            None
        } else {
            operation_number(&self.operations, object, &operation.name)
        }
    }

    // The numbers of the bodies of an object's operations, in the order of their declarations.
    fn numbers_of(
        &self,
        alloc: Global,
        object: usize,
        operations: &[Operation],
    ) -> Result<Entries<u16>, Refusal>
        ensures numbers { IfOk result (λ numbers. numbers ≡ map (told_operation (operation_told self.now.operations.items object))
            (map operation_value operations.now)) }
        ensures refused { IfErr result (λ why. IsRefused 0 0 why) }
    {
        let mut numbers = Entries::new(alloc);
        for operation in operations {
            numbers.push(self.number_offered(object, operation))?;
        }
        Ok(numbers)
    }

    // Adds those of the protected object with this number, if it is one.
    fn add_operations(
        &self,
        alloc: Global,
        whole: &Scope,
        number: usize,
        numbers: &mut OperationNumbers,
    ) -> Result<(), Refusal>
        ensures adds { OnOk result (numbers.new ≡ numbers.old ++ told_behind_objects (number_told whole.now self.now) (objects_at whole.now number)) }
        ensures refused { IfErr result (λ why. IsRefused 0 0 why) }
    {
        if let Some(object) = whole.protected(number) {
            let operations = object.operations.as_slice();
            numbers.push(self.numbers_of(alloc, object.number, operations)?)?;
        }
        Ok(())
    }

    /// The numbers of the bodies of operations, of each protected object that is visible in `whole`.
    pub(crate) fn visible_operations(
        &self,
        alloc: Global,
        whole: &Scope,
    ) -> Result<OperationNumbers, Refusal>
        ensures numbers { IfOk result (λ numbers. numbers ≡ operations_told whole.now self.now) }
        ensures refused { IfErr result (λ why. IsRefused 0 0 why) }
    {
        let mut numbers = OperationNumbers::new(alloc);
        for number in 0..whole.len() {
            self.add_operations(alloc, whole, number, &mut numbers)?;
        }
        Ok(numbers)
    }

    // Where the component of this object with this name stands, or else the variable.
    fn component_or_variable(&self, whole: &Scope, object: usize, name: &Text) -> Option<Slot>
        ensures { result ≡ told_inside (slot_told whole.now self.now) (Some object) name.now }
    {
        match component_slot(&self.components, object, name) {
            Some(slot) => Some(slot),
            None => entry(whole, &self.slots, name),
        }
    }

    // The place of the component or variable with this name in the body of this object, whose operations have no words.
    fn slot_inside(&self, whole: &Scope, object: usize, name: &Text) -> Option<Slot>
        ensures { result ≡ told_slot (slot_told whole.now self.now) (number_told whole.now self.now) (Some object) name.now }
    {
        match operation_number(&self.operations, object, name) {
            Some(_) => None,
            None => self.component_or_variable(whole, object, name),
        }
    }

    // The number of the body of this object's operation with this name, or else of the subprogram or task.
    fn number_inside(&self, whole: &Scope, object: usize, name: &Text) -> Option<u16>
        ensures { result ≡ told_inside (number_told whole.now self.now) (Some object) name.now }
    {
        match operation_number(&self.operations, object, name) {
            Some(number) => Some(number),
            None => entry(whole, &self.numbers, name),
        }
    }

    /// Tells what is known of a name that has become visible in the body of this object, if it is a new one.
    pub(crate) fn tell_inside(
        &self,
        whole: &Scope,
        object: usize,
        visible: &mut Visible,
        name: &Text,
    ) -> Result<(), Refusal>
        ensures seen { OnOk result (visible.new ≡ seen_inside whole.now self.now object visible.old (name.now ∷ [])) }
        ensures refused { IfErr result (λ why. IsRefused 0 0 why) }
    {
        let slot = self.slot_inside(whole, object, name);
        let number = self.number_inside(whole, object, name);
        tell_next(&visible.scope, &mut visible.slots, name, slot)?;
        tell_next(&visible.scope, &mut visible.subprograms, name, number)?;
        Ok(())
    }

    /// Tells what is known of operations whose names have become visible there.
    pub(crate) fn tell_operations(
        &self,
        whole: &Scope,
        object: usize,
        visible: &mut Visible,
        operations: &[Operation],
    ) -> Result<(), Refusal>
        ensures seen { OnOk result (visible.new ≡ seen_inside whole.now self.now object visible.old (offered_names (map operation_value operations.now))) }
        ensures refused { IfErr result (λ why. IsRefused 0 0 why) }
    {
        for operation in operations {
            self.tell_inside(whole, object, visible, &operation.name)?;
        }
        Ok(())
    }

    /// Tells what is known of components whose names have become visible there.
    pub(crate) fn tell_components(
        &self,
        whole: &Scope,
        object: usize,
        visible: &mut Visible,
        components: &[RecordComponent],
    ) -> Result<(), Refusal>
        ensures seen { OnOk result (visible.new ≡ seen_inside whole.now self.now object visible.old (component_names components.now)) }
        ensures refused { IfErr result (λ why. IsRefused 0 0 why) }
    {
        for component in components {
            self.tell_inside(whole, object, visible, &component.name)?;
        }
        Ok(())
    }

    /// The number of the subprogram that is the body with this name, which is in `whole`, in which all of the package is visible.
    pub(crate) fn number(&self, whole: &Scope, name: &Text) -> Option<u16>
        ensures { result ≡ told_of whole.now self.now.numbers.items name.now }
    {
        entry(whole, &self.numbers, name)
    }

    /// Tells what is known of a name that has become visible, if it is a new one.
    pub(crate) fn tell(
        &self,
        whole: &Scope,
        visible: &mut Visible,
        name: &Text,
    ) -> Result<(), Refusal>
        requires next { HasEntriesSoFar visible.old }
        ensures tells { OnOk result (TellsNext whole.now self.now visible.old name.now visible.new) }
        ensures refused { IfErr result (λ why. IsRefused 0 0 why) }
    {
        if visible.slots.len() != visible.scope.len() {
            visible.slots.push(entry(whole, &self.slots, name))?;
            visible.subprograms.push(entry(whole, &self.numbers, name))?;
        }
        Ok(())
    }
}
