//! What the declarations of a package give: where its variables are, the words of their initial values, and the names of exceptions.
ghost use Rattle.std.specs.Prelude.{◌≡◌, ◌∷◌, ◌++◌, [], None, Some, map, replicate, true, IfErr, IfOk, OnOk};
ghost use Rattle.ada_tree.specs.StatementTree.{object_tree, optional_tree};
ghost use Rattle.ada_tree.specs.ProgramTree.{OfObject, body_item_tree, item_tree, package_tree};
ghost use Rattle.base.specs.Exceptions.{name_of};
ghost use Rattle.base.specs.Names.{predefined};
ghost use Rattle.expr_soundness.specs.meaning.specs.Programs.{items_among, package_items};
ghost use Rattle.expr_soundness.specs.SoundScopes.{SoundScope};
ghost use Rattle.expr_code.specs.Refusing.{IsRefused};
ghost use Rattle.type_rules.specs.SubtypeNames.{subtype_of};
ghost use Rattle.package_code.specs.Globals.{AddsItems, AddsVariable, AreGlobals, are_placed, PlacesVariable, RefusesAdding, RefusesGlobals};
ghost use Rattle.package_code.specs.Providing.{item_tells, items_tell, tells_words};

use crate::initial::push_initial;
use ada_tree::{BodyItem, Identifier, Item, ObjectDeclaration, Package};
use base::PredefinedException;
use expr_code::{ImageLimit, Refusal, Slot};
use image::Region;
use lexer::Text;
use std::alloc::Global;
use type_rules::subtype_of;
use types::Scope;

/// What declarations of a package give.
#[derive(Drop)]
pub struct Globals {
    /// Where variables are, by the numbers of their names.
    pub slots: Vec<Option<Slot>>,
    /// The words of the initial values of variables, one after another.
    pub words: Vec<i64>,
    /// The names of exceptions, the predefined ones first.
    pub exceptions: Vec<Text>,
}

// A row of `many` names without a place.
fn nothing(alloc: Global, many: usize) -> Result<Vec<Option<Slot>>, Refusal>
    ensures none { IfOk result (λ all. all.items ≡ replicate many None) }
    ensures refused { IfErr result (λ why. IsRefused 0 0 why) }
{
    let mut all = Vec::new(alloc);
    for _ in 0..many {
        all.push(None)?;
    }
    Ok(all)
}

// The names of the predefined exceptions, in the order of their numbers from 1 (RM 11.1).
fn predefined(alloc: Global) -> Result<Vec<Text>, Refusal>
    ensures names { IfOk result (λ names. names.items ≡ predefined) }
    ensures refused { IfErr result (λ why. IsRefused 0 0 why) }
{
    let mut names = Vec::new(alloc);
    names.push(named(PredefinedException::ConstraintError))?;
    names.push(named(PredefinedException::ProgramError))?;
    names.push(named(PredefinedException::StorageError))?;
    names.push(named(PredefinedException::TaskingError))?;
    Ok(names)
}

// The name of one of them.
fn named(exception: PredefinedException) -> Text
    ensures { result ≡ name_of exception }
{
    match Text::new(exception.name()) {
        Some(text) => text,
        None => unreachable!(),
    }
}

impl Globals {
    // The places of the names of a package without declarations.
    fn new(alloc: Global, scope: &Scope) -> Result<Globals, Refusal>
        ensures globals { IfOk result (λ globals. AreGlobals scope.now [] globals) }
        ensures refused { IfErr result (λ why. IsRefused 0 0 why) }
    {
        Ok(Globals {
            slots: nothing(alloc, scope.len())?,
            words: Vec::new(alloc),
            exceptions: predefined(alloc)?,
        })
    }

    // Notes where the variable with this name stands, behind the words of those in front.
    fn place(&mut self, scope: &Scope, name: &Identifier) -> Result<(), Refusal>
        ensures slots { OnOk result (PlacesVariable scope.now self.old name.now.name self.new) }
        ensures words { OnOk result (self.new.words ≡ self.old.words) }
        ensures exceptions { OnOk result (self.new.exceptions ≡ self.old.exceptions) }
        ensures refused { IfErr result (λ why. RefusesAdding scope.now self.old [] why) }
    {
        let offset = u16::try_from(self.words.len()).map_err(|_| Refusal::Limit(
            ImageLimit::Words,
        ))?;
        if let Some(number) = scope.number_of(&name.name) {
            if let Some(slot) = self.slots.get_mut(number) {
                *slot = Some(Slot {
                    region: Region::Plain,
                    offset,
                });
            }
        }
        Ok(())
    }

    // Adds a variable, which has a word at least.
    fn variable(&mut self, scope: &Scope, object: &ObjectDeclaration) -> Result<(), Refusal>
        requires sound { SoundScope scope.now }
        requires told { tells_words scope.now (subtype_of scope.now object.now.subtype) (object_tree object.now).value ≡ true }
        ensures adds { OnOk result (AddsVariable scope.now self.old (object_tree object.now) self.new) }
        ensures refused { IfErr result (λ why. RefusesAdding scope.now self.old [] why) }
    {
        let Some(subtype) = subtype_of(scope, &object.subtype) else {
            unreachable!();
        };
        self.place(scope, &object.name)?;
        push_initial(&mut self.words, scope, subtype, &object.value)
    }

    // Adds an object: a variable, since constants have no words.
    fn object(&mut self, scope: &Scope, object: &ObjectDeclaration) -> Result<(), Refusal>
        requires sound { SoundScope scope.now }
        requires told { item_tells scope.now (OfObject (object_tree object.now)) ≡ true }
        ensures adds { OnOk result (AddsItems scope.now self.old (OfObject (object_tree object.now) ∷ []) self.new) }
        ensures refused { IfErr result (λ why. RefusesAdding scope.now self.old (OfObject (object_tree object.now) ∷ []) why) }
    {
        if object.constant {
            Ok(())
        } else {
            self.variable(scope, object)
        }
    }

    // Adds an exception.
    fn exception(&mut self, name: &Identifier) -> Result<(), Refusal>
        ensures exceptions { OnOk result (self.new.exceptions.items ≡ self.old.exceptions.items ++ name.now.name ∷ []) }
        ensures slots { OnOk result (self.new.slots ≡ self.old.slots) }
        ensures words { OnOk result (self.new.words ≡ self.old.words) }
        ensures refused { IfErr result (λ why. IsRefused 0 0 why) }
    {
        self.exceptions.push(name.name.clone()?)?;
        Ok(())
    }

    // Adds what a declaration declares.
    fn item(&mut self, scope: &Scope, item: &Item) -> Result<(), Refusal>
        requires sound { SoundScope scope.now }
        requires told { item_tells scope.now (item_tree item.now) ≡ true }
        ensures adds { OnOk result (AddsItems scope.now self.old (item_tree item.now ∷ []) self.new) }
        ensures refused { IfErr result (λ why. RefusesAdding scope.now self.old (item_tree item.now ∷ []) why) }
    {
        match item {
            Item::Type(_) => Ok(()),
            Item::Subprogram(_) => Ok(()),
            Item::Object(object) => self.object(scope, object),
            Item::Exception(name) => {
                self.exception(name)?;
                Ok(())
            }
            Item::Task(_) => Ok(()),
            Item::Protected(_) => Ok(()),
        }
    }

    // Adds what declarations declare.
    fn items(&mut self, scope: &Scope, items: &[Item]) -> Result<(), Refusal>
        requires sound { SoundScope scope.now }
        requires told { items_tell scope.now (map item_tree items.now) ≡ true }
        ensures adds { OnOk result (AddsItems scope.now self.old (map item_tree items.now) self.new) }
        ensures refused { IfErr result (λ why. RefusesAdding scope.now self.old (map item_tree items.now) why) }
    {
        for item in items {
            self.item(scope, item)?;
        }
        Ok(())
    }

    // Adds what a declaration in the body of a package declares; bodies declare nothing here.
    fn body_item(&mut self, scope: &Scope, item: &BodyItem) -> Result<(), Refusal>
        requires sound { SoundScope scope.now }
        requires told { items_tell scope.now (items_among (body_item_tree item.now ∷ [])) ≡ true }
        ensures adds { OnOk result (AddsItems scope.now self.old (items_among (body_item_tree item.now ∷ [])) self.new) }
        ensures refused { IfErr result (λ why. RefusesAdding scope.now self.old (items_among (body_item_tree item.now ∷ [])) why) }
    {
        match item {
            BodyItem::Item(item) => self.item(scope, item),
            BodyItem::Subprogram(_, _) => Ok(()),
            BodyItem::Task(_, _) => Ok(()),
            BodyItem::Protected(_, _, _) => Ok(()),
        }
    }

    // Adds what those in the body of a package declare.
    fn body_items(&mut self, scope: &Scope, items: &[BodyItem]) -> Result<(), Refusal>
        requires sound { SoundScope scope.now }
        requires told { items_tell scope.now (items_among (map body_item_tree items.now)) ≡ true }
        ensures adds { OnOk result (AddsItems scope.now self.old (items_among (map body_item_tree items.now)) self.new) }
        ensures refused { IfErr result (λ why. RefusesAdding scope.now self.old (items_among (map body_item_tree items.now)) why) }
    {
        for item in items {
            self.body_item(scope, item)?;
        }
        Ok(())
    }

    // Adds what all declarations of a package declare.
    fn declarations(&mut self, scope: &Scope, package_: &Package) -> Result<(), Refusal>
        requires sound { SoundScope scope.now }
        requires told { items_tell scope.now (package_items (Some (package_tree package_.now))) ≡ true }
        ensures adds { OnOk result (AddsItems scope.now self.old (package_items (Some (package_tree package_.now))) self.new) }
        ensures refused { IfErr result (λ why. RefusesAdding scope.now self.old (package_items (Some (package_tree package_.now))) why) }
    {
        self.items(scope, &package_.declaration.items)?;
        self.body_items(scope, &package_.body.items)?;
        Ok(())
    }
}

/// What the declarations of a package give, whose names are in `scope`.
pub fn globals_of(
    alloc: Global,
    scope: &Scope,
    package_: &Option<Package>,
) -> Result<Globals, Refusal>
    requires sound { SoundScope scope.now }
    requires told { items_tell scope.now (package_items (optional_tree package_tree package_.now)) ≡ true }
    requires placed { are_placed scope.now [] (package_items (optional_tree package_tree package_.now)) ≡ true }
    ensures globals { IfOk result (λ globals. AreGlobals scope.now (package_items (optional_tree package_tree package_.now)) globals) }
    ensures refused { IfErr result (λ why. RefusesGlobals scope.now [] (package_items (optional_tree package_tree package_.now)) why) }
{
    let mut globals = Globals::new(alloc, scope)?;
    match package_ {
        None => Ok(globals),
        Some(package_) => {
            globals.declarations(scope, package_)?;
            Ok(globals)
        }
    }
}
