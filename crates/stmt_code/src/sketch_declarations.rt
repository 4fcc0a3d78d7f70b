//! Declarations of objects and parameters of loops, as they are added to what is put together (RM 3.3.1, 5.5).
ghost use Rattle.std.specs.Prelude.{◌≡◌, ◌+◌, ◌∷◌, [], map, IfOk, OnOk};
ghost use Rattle.ada_tree.specs.StatementTree.{declaration_tree, LocalObject, object_tree, range_tree};
ghost use Rattle.declaration_rules.specs.BodyNames.{loop_scope};
ghost use Rattle.declaration_rules.specs.LocalRules.{local_scope};
ghost use Rattle.part_code.specs.Needs.{with_object};
ghost use Rattle.stmt_code.specs.Declaring.{AddsLocals};
ghost use Rattle.stmt_code.specs.Drafting.{adds};
ghost use Rattle.stmt_code.specs.StatementCode.{local_object, words_taken};
ghost use Rattle.type_rules.specs.SubtypeNames.{subtype_of};

use crate::selection::narrow;
use crate::sketch::Sketch;
use ada_tree::{Declaration, Identifier, ObjectDeclaration, Range};
use declaration_rules::declare_loop_parameter;
use expr_code::fragment::raised;
use expr_code::{Slot, Visible};
use image::Region;
use std::alloc::AllocError;
use type_rules::{declare_local_object, subtype_of};

// Gives the next name words of the frame from an offset on.
fn place_words(visible: &mut Visible, offset: u16) -> Result<(), AllocError>
    ensures shown { OnOk result (visible.new ≡ with_object visible.old visible.old.scope offset) }
{
    let slot = Slot {
        region: Region::Locals,
        offset,
    };
    let Ok(()) = visible.slots.push(Some(slot)) else {
        return Err(AllocError);
    };
    let Ok(()) = visible.subprograms.push(None) else {
        return Err(AllocError);
    };
    Ok(())
}

/// Makes a loop parameter visible whose word is at this offset of the frame (RM 5.5).
pub(crate) fn show_parameter(
    visible: &mut Visible,
    parameter: &Identifier,
    range: &Range,
    offset: u16,
) -> Result<(), AllocError>
    ensures shown { OnOk result (visible.new ≡ with_object visible.old (loop_scope visible.old.scope parameter.now (range_tree range.now)) offset) }
{
    place_words(visible, offset)?;
    declare_loop_parameter(&mut visible.scope, parameter, range)?;
    Ok(())
}

// Makes an object visible whose words are at this offset of the frame.
fn show_object(
    visible: &mut Visible,
    object: &ObjectDeclaration,
    offset: u16,
) -> Result<(), AllocError>
    ensures shown { OnOk result (visible.new ≡ with_object visible.old (local_scope visible.old.scope (LocalObject (object_tree object.now))) offset) }
{
    place_words(visible, offset)?;
    declare_local_object(&mut visible.scope, object)?;
    Ok(())
}

impl Sketch {
    /// Adds the code of declarations, one after another, and makes their names visible, each after its own; returns how many words of the frame are taken then.
    pub fn declarations(
        &mut self,
        visible: &mut Visible,
        taken: usize,
        all: &[Declaration],
    ) -> Result<usize, AllocError>
        ensures declares { IfOk result (λ more. AddsLocals visible.old taken self.old (map declaration_tree all.now) visible.new more self.new) }
    {
        let mut more = taken;
        for declaration in all {
            more = self.declaration(visible, more, declaration)?;
        }
        Ok(more)
    }

    // Adds the code of a declaration.
    fn declaration(
        &mut self,
        visible: &mut Visible,
        taken: usize,
        declaration: &Declaration,
    ) -> Result<usize, AllocError>
        ensures declares { IfOk result (λ more. AddsLocals visible.old taken self.old (declaration_tree declaration.now ∷ []) visible.new more self.new) }
    {
        match declaration {
            Declaration::Object(object) => self.declare(visible, taken, object),
            Declaration::Task(_) => Ok(taken),
            Declaration::Protected(_) => Ok(taken),
        }
    }

    // Adds the code of the declaration of an object with the row of its place, and makes its name visible.
    fn declare(
        &mut self,
        visible: &mut Visible,
        taken: usize,
        object: &ObjectDeclaration,
    ) -> Result<usize, AllocError>
        ensures declares { IfOk result (λ more. AddsLocals visible.old taken self.old (LocalObject (object_tree object.now) ∷ []) visible.new more self.new) }
    {
        let first = self.place()?;
        let more = self.local_object(visible, taken, object)?;
        self.mark(first, object.name.place)?;
        show_object(visible, object, narrow(taken))?;
        Ok(more)
    }

    // Adds the code of an object, whose words come after those that are taken; returns how many are taken then.
    fn local_object(
        &mut self,
        visible: &Visible,
        taken: usize,
        object: &ObjectDeclaration,
    ) -> Result<usize, AllocError>
        ensures made { let d = object_tree object.now in OnOk result (self.new ≡ adds self.old (local_object visible.now taken
            (subtype_of visible.now.scope d.subtype) d.value)) }
        ensures more { IfOk result (λ more. more ≡ taken + words_taken visible.now.scope (subtype_of visible.now.scope (object_tree object.now).subtype)) }
    {
        match subtype_of(&visible.scope, &object.subtype) {
            Some(subtype) => {
                let more = raised(taken, visible.scope.words(subtype))?;
                self.object(visible, taken, subtype, &object.value)?;
                Ok(more)
            }
            None => Ok(taken),
        }
    }
}
