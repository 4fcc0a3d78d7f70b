//! What is before an item of a package's body: the specification, and the items before it.
ghost use Rattle.std.specs.Prelude.{◌≡◌, [], map, take, OnOk, IfOk};
ghost use Rattle.std.specs.List.{list_any};
ghost use Rattle.ada_tree.specs.StatementTree.{subprogram_tree};
ghost use Rattle.ada_tree.specs.ProgramTree.{body_item_tree, item_tree, protected_item_tree};
ghost use Rattle.conformance.specs.MatchingRules.{any_declared, has_unlike_operation, is_body_of, is_unlike_subprogram, passes_declared};
ghost use Rattle.conformance.specs.Tables.{Declares, declares_unlike, front_before, front_specified, front_next};

use crate::bodies::BodyOf;
use crate::conformance::Profile;
use crate::declared::Profiles;
use crate::keys::{Key, Keys};
use ada_tree::{BodyItem, Identifier, Item, ProtectedBodyItem, Subprogram};
use std::alloc::{AllocError, Global};
use std::marker::Model;

/// The declarations of a specification, and the items of a body up to a place, with the bodies and the profiles among them. Contracts see the specification,
/// all items of the body, and the number of those before it.
#[derive(Drop)]
pub(crate) struct Front<'a> {
    specified: &'a [Item],
    items: &'a [BodyItem],
    count: usize,
    bodies: Keys<'a>,
    profiles: Profiles<'a>,
}

impl<'a> Model for Front<'a> {
    ghost use Rattle.std.specs.Prelude.{map, take};
    ghost use Rattle.std.specs.Coded.{codes};
    ghost use Rattle.ada_tree.specs.contracts.declaration.Item as item_contract;
    ghost use Rattle.ada_tree.specs.contracts.program.BodyItem as contract;
    ghost use Rattle.ada_tree.specs.ProgramTree.{body_item_tree, item_tree};
    ghost use Rattle.conformance.specs.Tables.{Front, SeesFront};

    ghost Value = { Front };

    ghost coded = { Prim.hlevel (codes, item_contract.the_row.coded, contract.the_row.coded) };

    ghost view = { λ f. (f.specified.now, (f.items.now, f.count)) };

    ghost invariant = { λ f. SeesFront (map item_tree f.specified.now) (map body_item_tree (take f.count f.items.now)) f.bodies.set.keys
        f.profiles.table.entries };
}

fn declare_inner<'a>(profiles: &mut Profiles<'a>, item: &'a BodyItem) -> Result<(), AllocError>
    ensures { OnOk result (Declares profiles.old.table.entries profiles.new.table.entries
        (λ k p. passes_declared (declares_unlike k p) (body_item_tree item.now))) }
{
    match item {
        BodyItem::Item(item) => profiles.declare_item(item),
        _ => Ok(()),
    }
}

impl<'a> Front<'a> {
    /// In front of the first of these items. Memory is the only refusal.
    pub(crate) fn new(
        alloc: Global,
        specified: &'a [Item],
        items: &'a [BodyItem],
    ) -> Result<Front<'a>, AllocError>
        ensures { IfOk result (λ f. f ≡ (specified.now, (items.now, 0))) }
    {
        let mut profiles = Profiles::new(alloc);
        profiles.declare_items(specified)?;
        let bodies = Keys::new(alloc);
        Ok(Front {
            specified,
            items,
            count: 0,
            bodies,
            profiles,
        })
    }

    /// In front of the next item, if there is one. Memory is the only refusal.
    pub(crate) fn go_on(self) -> Result<Front<'a>, AllocError>
        ensures { IfOk result (λ f. f ≡ front_next self.entry) }
    {
        let Front {
            specified,
            items,
            count,
            mut bodies,
            mut profiles,
        } = self;
        match items.get(count) {
            Some(item) => {
                bodies.see_item(item)?;
                declare_inner(&mut profiles, item)?;
                Ok(Front {
                    specified,
                    items,
                    count: count + 1,
                    bodies,
                    profiles,
                })
            }
            None => Ok(Front {
                specified,
                items,
                count,
                bodies,
                profiles,
            }),
        }
    }

    /// Whether a body of this kind and name is before it.
    pub(crate) fn has_body(&self, kind: BodyOf, name: &'a Identifier) -> bool
        ensures { result ≡ list_any (is_body_of kind name.now) (front_before self.now) }
    {
        self.bodies.has(Key::of_body(kind, name))
    }

    /// Whether a subprogram of this name is declared before it that its body doesn't conform to.
    pub(crate) fn has_unlike(&self, body: &'a Subprogram) -> bool
        ensures { result ≡ any_declared (is_unlike_subprogram (subprogram_tree body.now)) (front_specified self.now) (front_before self.now) }
    {
        self.profiles.is_unlike(
            Key::of_body(BodyOf::Subprogram, &body.name),
            Profile::of_subprogram(body),
        )
    }

    /// Whether an operation of this object and name is declared before it that its body doesn't conform to.
    pub(crate) fn has_unlike_operation(
        &self,
        object: &'a Identifier,
        body: &'a ProtectedBodyItem,
    ) -> bool
        ensures { result ≡ any_declared (has_unlike_operation object.now (protected_item_tree body.now)) (front_specified self.now) (front_before self.now) }
    {
        self.profiles.is_unlike(Key::of_operation_body(object, body), Profile::of_body(body))
    }
}
