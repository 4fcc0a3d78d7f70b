//! What the declarations of a program's protected objects give: ceilings and first words, in their order, and the places of components (RM 9.4, D.3).
ghost use Rattle.std.specs.Prelude.{◌≡◌, ◌∷◌, ◌++◌, [], Some, length, map, true, IfErr, IfOk, OnOk};
ghost use Rattle.ada_tree.specs.StatementTree.{optional_tree, protected_component_tree, protected_tree};
ghost use Rattle.ada_tree.specs.ProgramTree.{OfProtected, body_item_tree, item_tree, package_tree};
ghost use Rattle.expr_soundness.specs.meaning.specs.Programs.{component, items_among, package_items};
ghost use Rattle.expr_soundness.specs.SoundScopes.{SoundScope};
ghost use Rattle.package_code.specs.Objects.{AddsObjects, RefusesComponent, RefusesComponents, RefusesObjects, bare_objects, ceiling_named, component_slots, have_words, objects_have_words, slots_of};
ghost use Rattle.package_code.specs.Package.{first_words_of};
ghost use Rattle.package_code.specs.Providing.{component_tells, items_tell};
ghost use Rattle.std.specs.List.{list_all};

use crate::components::ComponentSlot;
use crate::initial::push_initial;
use ada_tree::{BodyItem, Identifier, Item, Package, ProtectedComponent, ProtectedDeclaration};
use expr_code::{ImageLimit, Refusal, Slot};
use image::Region;
use std::alloc::Global;
use std::marker::Model;
use type_rules::{named_entity, subtype_of};
use types::{Entity, Scope};

/// What the declaration of a protected object gives of its row in the table of an image; what its entry runs is known by its body.
#[derive(Drop)]
pub struct DeclaredObject {
    ceiling: u8,
    words: Vec<i64>,
}

impl Model for DeclaredObject {
    ghost use Rattle.package_code.specs.BareObjects.{BareObject};

    ghost Value = { BareObject };

    ghost view = { λ o. record { ceiling = o.ceiling; words = o.words.items } };
}

impl DeclaredObject {
    /// An object with this ceiling priority (RM D.3), and these words of its components' initial values.
    pub fn new(ceiling: u8, words: Vec<i64>) -> DeclaredObject
        ensures { result ≡ record { ceiling = ceiling; words = words.items } }
    {
        DeclaredObject { ceiling, words }
    }

    /// Its ceiling priority.
    pub fn ceiling(&self) -> u8
        ensures { result ≡ self.now.ceiling }
    {
        self.ceiling
    }

    /// The words of its components' initial values.
    pub fn words(&self) -> &[i64]
        ensures { result.now ≡ self.now.words }
    {
        &self.words
    }
}

/// What the declarations of protected objects give.
#[derive(Drop)]
pub struct ProtectedObjects {
    /// What each gives of its row, in their order.
    pub declared: Vec<DeclaredObject>,
    /// Where their components are.
    pub components: Vec<ComponentSlot>,
}

// The ceiling of the protected object of this name.
fn ceiling_named(scope: &Scope, name: &Identifier) -> u8
    ensures { result ≡ ceiling_named scope.now name.now }
{
    match named_entity(scope, name) {
        Some(Entity::Protected(object)) => object.ceiling,
        _ => 0,
    }
}

// Adds the words of a component's initial value, and its place.
fn push_component(
    words: &mut Vec<i64>,
    slots: &mut Vec<ComponentSlot>,
    object: usize,
    scope: &Scope,
    part: &ProtectedComponent,
) -> Result<(), Refusal>
    requires sound { SoundScope scope.now }
    requires told { component_tells scope.now (protected_component_tree part.now) ≡ true }
    ensures words { OnOk result (words.new.items ≡ words.old.items ++ first_words_of (component scope.now (protected_component_tree part.now) ∷ [])) }
    ensures slots { OnOk result (slots.new.items ≡ slots.old.items ++ slots_of object (length words.old.items)
        (component scope.now (protected_component_tree part.now) ∷ [])) }
    ensures made { OnOk result (have_words (component scope.now (protected_component_tree part.now) ∷ []) ≡ true) }
    ensures refused { IfErr result (λ why. RefusesComponent (length words.old.items) why) }
{
    let Some(subtype) = subtype_of(scope, &part.subtype) else {
        unreachable!();
    };
    let offset = u16::try_from(words.len()).map_err(|_| Refusal::Limit(ImageLimit::Words))?;
    slots.push(ComponentSlot {
        object,
        name: part.name.name.clone()?,
        slot: Slot {
            region: Region::Object,
            offset,
        },
    })?;
    push_initial(words, scope, subtype, &part.value)
}

// The words of the initial values of an object's components, one behind the other; adds their places.
fn component_words(
    alloc: Global,
    slots: &mut Vec<ComponentSlot>,
    object: usize,
    scope: &Scope,
    components: &[ProtectedComponent],
) -> Result<Vec<i64>, Refusal>
    requires sound { SoundScope scope.now }
    requires told { list_all (component_tells scope.now) (map protected_component_tree components.now) ≡ true }
    ensures words { IfOk result (λ words. words.items ≡ first_words_of (map (component scope.now) (map protected_component_tree components.now))) }
    ensures slots { OnOk result (slots.new.items ≡ slots.old.items ++ slots_of object 0
        (map (component scope.now) (map protected_component_tree components.now))) }
    ensures made { IfOk result (λ words. have_words (map (component scope.now) (map protected_component_tree components.now)) ≡ true) }
    ensures refused { IfErr result (λ why. RefusesComponents scope.now (map protected_component_tree components.now) why) }
{
    let mut words = Vec::new(alloc);
    for part in components {
        push_component(&mut words, slots, object, scope, part)?;
    }
    Ok(words)
}

impl ProtectedObjects {
    // Adds a declared object.
    fn object(
        &mut self,
        alloc: Global,
        scope: &Scope,
        object: &ProtectedDeclaration,
    ) -> Result<(), Refusal>
        requires sound { SoundScope scope.now }
        requires told { items_tell scope.now (OfProtected (protected_tree object.now) ∷ []) ≡ true }
        ensures adds { OnOk result (AddsObjects scope.now self.old (OfProtected (protected_tree object.now) ∷ []) self.new) }
        ensures refused { IfErr result (λ why. RefusesObjects scope.now (OfProtected (protected_tree object.now) ∷ []) why) }
    {
        let number = self.declared.len();
        let words = component_words(
            alloc,
            &mut self.components,
            number,
            scope,
            &object.components,
        )?;
        let ceiling = ceiling_named(scope, &object.name);
        self.declared.push(DeclaredObject::new(ceiling, words))?;
        Ok(())
    }

    // Adds what a declaration declares, if that is an object.
    fn item(&mut self, alloc: Global, scope: &Scope, item: &Item) -> Result<(), Refusal>
        requires sound { SoundScope scope.now }
        requires told { items_tell scope.now (item_tree item.now ∷ []) ≡ true }
        ensures adds { OnOk result (AddsObjects scope.now self.old (item_tree item.now ∷ []) self.new) }
        ensures refused { IfErr result (λ why. RefusesObjects scope.now (item_tree item.now ∷ []) why) }
    {
        match item {
            Item::Protected(object) => self.object(alloc, scope, object),
            Item::Type(_) => Ok(()),
            Item::Object(_) => Ok(()),
            Item::Exception(_) => Ok(()),
            Item::Subprogram(_) => Ok(()),
            Item::Task(_) => Ok(()),
        }
    }

    // Adds the objects among declarations.
    fn items(&mut self, alloc: Global, scope: &Scope, items: &[Item]) -> Result<(), Refusal>
        requires sound { SoundScope scope.now }
        requires told { items_tell scope.now (map item_tree items.now) ≡ true }
        ensures adds { OnOk result (AddsObjects scope.now self.old (map item_tree items.now) self.new) }
        ensures refused { IfErr result (λ why. RefusesObjects scope.now (map item_tree items.now) why) }
    {
        for item in items {
            self.item(alloc, scope, item)?;
        }
        Ok(())
    }

    // Adds what a declaration in the body of a package declares, if that is an object; bodies declare none.
    fn body_item(&mut self, alloc: Global, scope: &Scope, item: &BodyItem) -> Result<(), Refusal>
        requires sound { SoundScope scope.now }
        requires told { items_tell scope.now (items_among (body_item_tree item.now ∷ [])) ≡ true }
        ensures adds { OnOk result (AddsObjects scope.now self.old (items_among (body_item_tree item.now ∷ [])) self.new) }
        ensures refused { IfErr result (λ why. RefusesObjects scope.now (items_among (body_item_tree item.now ∷ [])) why) }
    {
        match item {
            BodyItem::Item(item) => self.item(alloc, scope, item),
            BodyItem::Subprogram(_, _) => Ok(()),
            BodyItem::Task(_, _) => Ok(()),
            BodyItem::Protected(_, _, _) => Ok(()),
        }
    }

    // Adds the objects that are declared in the body of a package.
    fn body_items(
        &mut self,
        alloc: Global,
        scope: &Scope,
        items: &[BodyItem],
    ) -> Result<(), Refusal>
        requires sound { SoundScope scope.now }
        requires told { items_tell scope.now (items_among (map body_item_tree items.now)) ≡ true }
        ensures adds { OnOk result (AddsObjects scope.now self.old (items_among (map body_item_tree items.now)) self.new) }
        ensures refused { IfErr result (λ why. RefusesObjects scope.now (items_among (map body_item_tree items.now)) why) }
    {
        for item in items {
            self.body_item(alloc, scope, item)?;
        }
        Ok(())
    }

    // Adds all objects of a package.
    fn package(&mut self, alloc: Global, scope: &Scope, package_: &Package) -> Result<(), Refusal>
        requires sound { SoundScope scope.now }
        requires told { items_tell scope.now (package_items (Some (package_tree package_.now))) ≡ true }
        ensures adds { OnOk result (AddsObjects scope.now self.old (package_items (Some (package_tree package_.now))) self.new) }
        ensures refused { IfErr result (λ why. RefusesObjects scope.now (package_items (Some (package_tree package_.now))) why) }
    {
        self.items(alloc, scope, &package_.declaration.items)?;
        self.body_items(alloc, scope, &package_.body.items)?;
        Ok(())
    }
}

/// What the declarations of the protected objects of a package give, whose names are visible: of each its ceiling and the words of its components, and these
/// are one after another.
///
/// # Errors
/// `Memory` where memory was refused, `Limit` where components have more words than a program, which is so of no legal one.
pub fn protected_objects(
    alloc: Global,
    scope: &Scope,
    package_: &Option<Package>,
) -> Result<ProtectedObjects, Refusal>
    requires sound { SoundScope scope.now }
    requires told { items_tell scope.now (package_items (optional_tree package_tree package_.now)) ≡ true }
    ensures declared { IfOk result (λ objects. objects.declared.items ≡ bare_objects scope.now (package_items (optional_tree package_tree package_.now))) }
    ensures components { IfOk result (λ objects. objects.components.items ≡ component_slots scope.now 0
        (package_items (optional_tree package_tree package_.now))) }
    ensures made { IfOk result (λ objects. objects_have_words scope.now (package_items (optional_tree package_tree package_.now)) ≡ true) }
    ensures refused { IfErr result (λ why. RefusesObjects scope.now (package_items (optional_tree package_tree package_.now)) why) }
{
    let mut objects = ProtectedObjects {
        declared: Vec::new(alloc),
        components: Vec::new(alloc),
    };
    if let Some(package_) = package_ {
        objects.package(alloc, scope, package_)?;
    }
    Ok(objects)
}
