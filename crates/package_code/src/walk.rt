//! The walk over the declarations and bodies of a package in the order of the text, which adds the code of each body (RM 7.2).
ghost use Rattle.std.specs.Prelude.{◌≡◌, ◌≤◌, ◌+◌, false, is_none, is_some, length, map, slice_get, true, None, Some, IfErr, IfOk, OnOk};
ghost use Rattle.ada_tree.specs.ExpressionTree.{expr_tree};
ghost use Rattle.ada_tree.specs.StatementTree.{MoreStmts, NoStmts, stmt_tree, stmt_trees, subprogram_tree};
ghost use Rattle.ada_tree.specs.ProgramTree.{OfItem, SubprogramBody, TaskBody, body_item_tree, body_tree, item_tree, program_tree, protected_item_tree};
ghost use Rattle.base.specs.declared.limits.TheConstants.{OBJECTS, ROWS};
ghost use Rattle.types.specs.Scopes.{number_of};
ghost use Rattle.declaration_rules.specs.BodyNames.{object_body_scope};
ghost use Rattle.unit_rules.specs.ProtectedBodyRules.{components_at};
ghost use Rattle.program_soundness.specs.legality.specs.ProgramRules.{IsLegal};
ghost use Rattle.ravenscar.specs.ProgramRules.{IsRestricted};
ghost use Rattle.expr_soundness.specs.meaning.specs.Programs.{program_of, returned, subtype_named};
ghost use Rattle.program_soundness.specs.Fronts.{declared_in, front};
ghost use Rattle.type_rules.specs.SubtypeNames.{subtype_of};
ghost use Rattle.expr_code.specs.Code.{here};
ghost use Rattle.expr_code.specs.Refusing.{IsRefused};
ghost use Rattle.expr_code.specs.Seeing.{told_of};
ghost use Rattle.step_simulation.specs.part_code.specs.Emitting.{HasEntries};
ghost use Rattle.step_simulation.specs.part_code.specs.Providing.{HasWhatCodeNeeds};
ghost use Rattle.stmt_code.specs.Subprograms.{IsCalledFunction, KeepsRules};
ghost use Rattle.package_code.specs.Bodies.{components_or_none, of_object, of_operation, of_subprogram, of_task, operation_kind, own_body, own_head, own_kind, own_name};
ghost use Rattle.package_code.specs.Directory.{IsDirectory, number_told};
ghost use Rattle.package_code.specs.Providing.{BodiesAreCovered, MayBeAdded};
ghost use Rattle.package_code.specs.Stopping.{IsHalt};
ghost use Rattle.package_code.specs.Walking.{AddsAsTold, AddsBody, AddsOperation, AddsSubprogram, AddsValueFunction, BeginsWalk, HasObjectBody, IsAsTold, IsCalledSubprogram, IsWalked, IsInObjectBody, RefusesBody, StandFrom, first_statement_place, operation_visible, row_of};

use crate::directory::{Directory, unseen};
use crate::inside::{see_behind, see_operation};
use crate::laws::bodies_are_numbered;
use crate::operations::object_number;
use crate::stopping::{Halt, Stop, halt_for, item_place, own_place};
use ada_tree::{
    Body, BodyItem, Expr, Identifier, Item, Package, ProtectedBodyItem, Stmt, Subprogram,
};
use base::limits::ROWS;
use declaration_rules::laws::object_bodies_end;
use declaration_rules::{declare_item, enter_object, leave_object};
use expr_code::{ImageLimit, OperationNumbers, Refusal, Visible};
use expr_soundness::laws::scopes_are_sound;
use image::Kind;
use lexer::Text;
use program_soundness::body_laws::{names_are_known, premises_hold};
use ravenscar::Accepted;
use std::alloc::Global;
use stmt_code::{Draft, PlaceRow, SubprogramWords, stmt_place};
use type_rules::{declare_subprogram, subtype_of};
use types::{RecordComponent, Scope, Subtype};
use unit_rules::{inside_scope, item_name};

/// How far the walk is: so many declarations and bodies of the package are done.
#[derive(Drop)]
pub struct Walk {
    pub alloc: Global,
    pub place: usize,
    /// The code of the bodies that are done, one after another.
    pub draft: Draft,
    /// What is visible where it is.
    pub visible: Visible,
    /// The subprograms of these bodies.
    pub subprograms: Vec<image::Subprogram>,
}

// The value that a statement returns.
fn returned_value(statement: &Stmt) -> &Expr
    requires { is_some (returned (MoreStmts (stmt_tree statement.now) NoStmts)) ≡ true }
    ensures { returned (MoreStmts (stmt_tree statement.now) NoStmts) ≡ Some (expr_tree result.now) }
{
    match statement {
        Stmt::Return(_, Some(value)) => value,
        _ => unreachable!(),
    }
}

// The one that a function's body returns, which is a single return (RM 6.3).
fn returned(statements: &[Stmt]) -> &Expr
    requires { is_some (returned (stmt_trees statements.now)) ≡ true }
    ensures { returned (stmt_trees statements.now) ≡ Some (expr_tree result.now) }
{
    match statements {
        [statement] => returned_value(statement),
        [] => unreachable!(),
        [_, _, ..] => unreachable!(),
    }
}

// The place of the first of a body's statements.
fn first_statement_place(statements: &[Stmt]) -> u32
    ensures { result ≡ first_statement_place (stmt_trees statements.now) }
{
    match statements {
        [] => 0,
        [statement, ..] => stmt_place(statement),
    }
}

// The subtype of a function's result.
fn result_subtype(scope: &Scope, name: &Identifier) -> Subtype
    requires { is_some (subtype_of scope.now name.now) ≡ true }
    ensures { result ≡ subtype_named scope.now name.now }
{
    match subtype_of(scope, name) {
        Some(subtype) => subtype,
        None => unreachable!(),
    }
}

/// The subprogram of the code that was added last, with these words.
pub fn row(kind: Kind, words: SubprogramWords, draft: &Draft) -> Result<image::Subprogram, Refusal>
    ensures row { IfOk result (λ row. row ≡ row_of kind words (here draft.now.code)) }
    ensures refused { IfErr result (λ why. IsRefused (here draft.now.code) 0 why) }
{
    let end_ = u16::try_from(draft.code.instructions.len()).map_err(|_| Refusal::Limit(
        ImageLimit::Instructions,
    ))?;
    Ok(image::Subprogram {
        kind,
        end_,
        parameters: words.passed,
        results: words.results,
        locals: words.locals,
        stack: words.stack,
    })
}

// The kind of the body of an operation of this object, which is a function if it has a result.
fn operation_kind(object: u16, given: &Option<Identifier>) -> Kind
    ensures { result ≡ operation_kind object given.now }
{
    match given {
        None => Kind::ProtectedProcedure(object),
        Some(_) => Kind::ProtectedFunction(object),
    }
}

// The kind of the body of an operation or an entry of a protected object.
fn inside_kind(object: u16, item: &ProtectedBodyItem) -> Kind
    ensures { result ≡ own_kind object (protected_item_tree item.now) }
{
    match item {
        ProtectedBodyItem::Subprogram(subprogram, _) => operation_kind(object, &subprogram.result),
        ProtectedBodyItem::Entry(_, _, _) => Kind::EntryBody(object),
    }
}

// A copy of these components.
fn components_copy(
    alloc: Global,
    components: &[RecordComponent],
) -> Result<Vec<RecordComponent>, Refusal>
    ensures copy { IfOk result (λ copy. copy.items ≡ components.now) }
    ensures refused { IfErr result (λ why. IsRefused 0 0 why) }
{
    let mut copy = Vec::new(alloc);
    for component in components {
        copy.push(RecordComponent {
            name: component.name.clone()?,
            subtype: component.subtype,
        })?;
    }
    Ok(copy)
}

// The components of the protected object whose name has this number.
fn components_of(
    alloc: Global,
    scope: &Scope,
    number: usize,
) -> Result<Vec<RecordComponent>, Refusal>
    ensures components { IfOk result (λ copy. copy.items ≡ components_or_none (components_at scope.now number)) }
    ensures refused { IfErr result (λ why. IsRefused 0 0 why) }
{
    match scope.protected(number) {
        Some(object) => components_copy(alloc, &object.components),
        None => Ok(Vec::new(alloc)),
    }
}

impl Walk {
    // In front of all of them, where these names are visible and operations have these numbers, in a program with these exceptions.
    fn new(
        alloc: Global,
        scope: Scope,
        operations: OperationNumbers,
        exceptions: Vec<Text>,
    ) -> Result<Walk, Refusal>
        ensures begins { IfOk result (λ walk. BeginsWalk scope operations exceptions.items walk) }
        ensures refused { IfErr result (λ why. IsRefused 0 0 why) }
    {
        Ok(Walk {
            alloc,
            place: 0,
            draft: Draft::new(alloc, exceptions),
            visible: unseen(alloc, scope, operations)?,
            subprograms: Vec::new(alloc),
        })
    }

    // Adds the code of a function, which returns the value of one expression, and its row of places.
    fn function(
        &mut self,
        accepted: &Accepted,
        subprogram: &Subprogram,
        body: &Body,
        subtype: &Identifier,
    ) -> Result<SubprogramWords, Refusal>
        requires added { MayBeAdded (program_tree accepted.now) self.old.visible.scope (subprogram_tree subprogram.now) (body_tree body.now) }
        requires entries { HasEntries self.old.visible }
        requires covered { HasWhatCodeNeeds self.old.draft.exceptions.items self.old.visible }
        requires subtype { (subprogram_tree subprogram.now).result ≡ Some subtype.now }
        ensures adds { IfOk result (λ words. AddsValueFunction (program_tree accepted.now) (subprogram_tree subprogram.now) (body_tree body.now)
            subtype.now self.old.visible self.old.draft words self.new.draft) }
        ensures called { IfOk result (λ words. IsCalledFunction self.old.visible.scope (subprogram_tree subprogram.now).formals
            (subtype_named (program_of (program_tree accepted.now)).scope subtype.now) words) }
        ensures keeps { IfOk result (λ words. KeepsRules false self.old.visible self.old.draft words self.new.draft) }
        ensures visible { OnOk result (self.new.visible ≡ self.old.visible) }
        ensures place { OnOk result (self.new.place ≡ self.old.place) }
        ensures subprograms { self.new.subprograms ≡ self.old.subprograms }
        ensures told { OnOk result (AddsAsTold self.old.draft (subprogram_tree subprogram.now) (body_tree body.now) self.new.draft) }
        ensures refused { IfErr result (λ why. RefusesBody self.old.visible self.old.draft
            (subprogram_tree subprogram.now) (body_tree body.now) why) }
    {
        let value = returned(&body.statements);
        let result = result_subtype(accepted.scope(), subtype);
        let first = self.draft.code.instructions.len();
        let words = self
            .draft
            .function(&mut self.visible, &subprogram.formals, result, value)?;
        let behind = self.draft.code.instructions.len();
        let place = first_statement_place(&body.statements);
        self.draft.rows.mark(PlaceRow {
            first,
            behind,
            place,
        })?;
        Ok(words)
    }

    // Adds the code of a procedure or a function.
    fn code(
        &mut self,
        accepted: &Accepted,
        subprogram: &Subprogram,
        body: &Body,
    ) -> Result<SubprogramWords, Refusal>
        requires added { MayBeAdded (program_tree accepted.now) self.old.visible.scope (subprogram_tree subprogram.now) (body_tree body.now) }
        requires entries { HasEntries self.old.visible }
        requires covered { HasWhatCodeNeeds self.old.draft.exceptions.items self.old.visible }
        ensures adds { IfOk result (λ words. AddsSubprogram (program_tree accepted.now) (subprogram_tree subprogram.now) (body_tree body.now)
            self.old.visible self.old.draft words self.new.draft) }
        ensures called { IfOk result (λ words. IsCalledSubprogram (program_tree accepted.now) (subprogram_tree subprogram.now) self.old.visible.scope words) }
        ensures keeps { IfOk result (λ words. KeepsRules (is_none (subprogram_tree subprogram.now).result) self.old.visible self.old.draft words
            self.new.draft) }
        ensures visible { OnOk result (self.new.visible ≡ self.old.visible) }
        ensures place { OnOk result (self.new.place ≡ self.old.place) }
        ensures subprograms { self.new.subprograms ≡ self.old.subprograms }
        ensures told { OnOk result (AddsAsTold self.old.draft (subprogram_tree subprogram.now) (body_tree body.now) self.new.draft) }
        ensures refused { IfErr result (λ why. RefusesBody self.old.visible self.old.draft
            (subprogram_tree subprogram.now) (body_tree body.now) why) }
    {
        match &subprogram.result {
            Some(subtype) => self.function(accepted, subprogram, body, subtype),
            None => self
                .draft
                .procedure(&mut self.visible, &subprogram.formals, body),
        }
    }

    // Adds the body of a subprogram, whose name is visible, and has the number that the directory tells.
    fn body(
        &mut self,
        accepted: &Accepted,
        directory: &Directory,
        subprogram: &Subprogram,
        body: &Body,
    ) -> Result<(), Refusal>
        requires added { MayBeAdded (program_tree accepted.now) self.old.visible.scope (subprogram_tree subprogram.now) (body_tree body.now) }
        requires entries { HasEntries self.old.visible }
        requires covered { HasWhatCodeNeeds self.old.draft.exceptions.items self.old.visible }
        requires numbered { told_of (program_of (program_tree accepted.now)).scope directory.now.numbers.items
            (subprogram_tree subprogram.now).name.name ≡ Some (length self.old.subprograms.items) }
        ensures adds { OnOk result (AddsBody (program_tree accepted.now) directory.now
            (of_subprogram self.old.visible.scope (subprogram_tree subprogram.now) (body_tree body.now)) self.old self.new) }
        ensures told { OnOk result (AddsAsTold self.old.draft (subprogram_tree subprogram.now) (body_tree body.now) self.new.draft) }
        ensures refused { IfErr result (λ why. RefusesBody self.old.visible self.old.draft
            (subprogram_tree subprogram.now) (body_tree body.now) why) }
    {
        let words = self.code(accepted, subprogram, body)?;
        self.subprograms
            .push(row(Kind::Plain, words, &self.draft)?)?;
        Ok(())
    }

    // Adds the body of a task, whose name has the number that the directory tells.
    fn task_body(
        &mut self,
        accepted: &Accepted,
        directory: &Directory,
        name: &Identifier,
        body: &Body,
    ) -> Result<(), Refusal>
        requires added { MayBeAdded (program_tree accepted.now) self.old.visible.scope
            (of_task self.old.visible.scope name.now (body_tree body.now)).head (body_tree body.now) }
        requires entries { HasEntries self.old.visible }
        requires covered { HasWhatCodeNeeds self.old.draft.exceptions.items self.old.visible }
        requires numbered { told_of (program_of (program_tree accepted.now)).scope directory.now.numbers.items name.now.name ≡ Some
            (length self.old.subprograms.items) }
        ensures adds { OnOk result (AddsBody (program_tree accepted.now) directory.now (of_task self.old.visible.scope name.now (body_tree body.now))
            self.old self.new) }
        ensures told { OnOk result (AddsAsTold self.old.draft (of_task self.old.visible.scope name.now (body_tree body.now)).head (body_tree body.now)
            self.new.draft) }
        ensures refused { IfErr result (λ why. RefusesBody self.old.visible self.old.draft
            (of_task self.old.visible.scope name.now (body_tree body.now)).head (body_tree body.now) why) }
    {
        let words = self.draft.procedure(&mut self.visible, &[], body)?;
        self.subprograms
            .push(row(Kind::TaskBody, words, &self.draft)?)?;
        Ok(())
    }

    // Adds the code of an operation or entry of a protected object, whose components are visible.
    fn inside_code(
        &mut self,
        accepted: &Accepted,
        item: &ProtectedBodyItem,
    ) -> Result<SubprogramWords, Refusal>
        requires added { MayBeAdded (program_tree accepted.now) self.old.visible.scope (own_head (protected_item_tree item.now))
            (own_body (protected_item_tree item.now)) }
        requires entries { HasEntries self.old.visible }
        requires covered { HasWhatCodeNeeds self.old.draft.exceptions.items self.old.visible }
        ensures adds { IfOk result (λ words. AddsSubprogram (program_tree accepted.now) (own_head (protected_item_tree item.now))
            (own_body (protected_item_tree item.now)) self.old.visible self.old.draft words self.new.draft) }
        ensures called { IfOk result (λ words. IsCalledSubprogram (program_tree accepted.now) (own_head (protected_item_tree item.now))
            self.old.visible.scope words) }
        ensures keeps { IfOk result (λ words. KeepsRules (is_none (own_head (protected_item_tree item.now)).result) self.old.visible self.old.draft
            words self.new.draft) }
        ensures visible { OnOk result (self.new.visible ≡ self.old.visible) }
        ensures place { OnOk result (self.new.place ≡ self.old.place) }
        ensures subprograms { self.new.subprograms ≡ self.old.subprograms }
        ensures told { OnOk result (AddsAsTold self.old.draft (own_head (protected_item_tree item.now)) (own_body (protected_item_tree item.now))
            self.new.draft) }
        ensures refused { IfErr result (λ why. RefusesBody self.old.visible self.old.draft
            (own_head (protected_item_tree item.now)) (own_body (protected_item_tree item.now)) why) }
    {
        match item {
            ProtectedBodyItem::Subprogram(subprogram, body) => {
                self.code(accepted, subprogram, body)
            }
            ProtectedBodyItem::Entry(entry, _, body) => {
                self.draft
                    .procedure(&mut self.visible, &entry.formals, body)
            }
        }
    }

    // Adds the code and the row of an operation or entry of a protected object, whose components are visible.
    fn inside_body(
        &mut self,
        accepted: &Accepted,
        directory: &Directory,
        object: u16,
        item: &ProtectedBodyItem,
    ) -> Result<(), Refusal>
        requires added { MayBeAdded (program_tree accepted.now) self.old.visible.scope (own_head (protected_item_tree item.now))
            (own_body (protected_item_tree item.now)) }
        requires entries { HasEntries self.old.visible }
        requires covered { HasWhatCodeNeeds self.old.draft.exceptions.items self.old.visible }
        requires numbered { number_told (program_of (program_tree accepted.now)).scope directory.now (Some object)
            (own_name (protected_item_tree item.now)) ≡ Some (length self.old.subprograms.items) }
        ensures adds { OnOk result (AddsBody (program_tree accepted.now) directory.now
            (of_object object self.old.visible.scope (protected_item_tree item.now)) self.old self.new) }
        ensures told { OnOk result (AddsAsTold self.old.draft (own_head (protected_item_tree item.now)) (own_body (protected_item_tree item.now))
            self.new.draft) }
        ensures refused { IfErr result (λ why. RefusesBody self.old.visible self.old.draft
            (own_head (protected_item_tree item.now)) (own_body (protected_item_tree item.now)) why) }
    {
        let words = self.inside_code(accepted, item)?;
        let kind = inside_kind(object, item);
        self.subprograms.push(row(kind, words, &self.draft)?)?;
        Ok(())
    }

    // Adds the body of an operation or entry of this object, which sees these components.
    fn operation(
        &mut self,
        accepted: &Accepted,
        directory: &Directory,
        object: u16,
        components: &[RecordComponent],
        item: &ProtectedBodyItem,
    ) -> Result<(), Refusal>
        requires added { let c = of_operation object self.old.visible.scope components.now (protected_item_tree item.now) in MayBeAdded
            (program_tree accepted.now) c.front c.head c.body }
        requires entries { HasEntries self.old.visible }
        requires covered { HasWhatCodeNeeds self.old.draft.exceptions.items (operation_visible (program_of (program_tree accepted.now)).scope directory.now
            object components.now (protected_item_tree item.now) self.old.visible) }
        requires numbered { number_told (program_of (program_tree accepted.now)).scope directory.now (Some object)
            (own_name (protected_item_tree item.now)) ≡ Some (length self.old.subprograms.items) }
        ensures adds { OnOk result (AddsOperation (program_tree accepted.now) directory.now object components.now (protected_item_tree item.now)
            self.old self.new) }
        ensures refused { IfErr result (λ why. RefusesBody
            (operation_visible (program_of (program_tree accepted.now)).scope directory.now object components.now (protected_item_tree item.now)
            self.old.visible) self.old.draft (own_head (protected_item_tree item.now)) (own_body (protected_item_tree item.now)) why) }
    {
        let whole = accepted.scope();
        let inside = usize::from(object);
        let len = self.visible.scope.len();
        see_operation(
            self.alloc,
            directory,
            whole,
            inside,
            &mut self.visible,
            components,
            item,
        )?;
        self.inside_body(accepted, directory, object, item)?;
        see_behind(
            self.alloc,
            directory,
            whole,
            inside,
            &mut self.visible,
            len,
            item,
        )
    }

    // Adds all of them, in the body of an object with this number and these components, whose name has this number in front of it.
    fn operations(
        &mut self,
        accepted: &Accepted,
        directory: &Directory,
        object: u16,
        place: usize,
        components: &[RecordComponent],
        items: &[ProtectedBodyItem],
    ) -> Result<(), Halt>
        requires legal { IsLegal (program_tree accepted.now) }
        requires restricted { IsRestricted (program_tree accepted.now) }
        requires covered { BodiesAreCovered (program_tree accepted.now) }
        requires directory { IsDirectory (program_tree accepted.now) directory.now }
        requires within { IsInObjectBody (program_tree accepted.now) directory.now object
            (object_body_scope (front (program_tree accepted.now) self.old.place) place) components.now (map protected_item_tree items.now) 0 self.old }
        ensures within { OnOk result (IsInObjectBody (program_tree accepted.now) directory.now object
            (object_body_scope (front (program_tree accepted.now) self.old.place) place) components.now (map protected_item_tree items.now)
            (length items.now) self.new) }
        ensures place { OnOk result (self.new.place ≡ self.old.place) }
        ensures halts { IfErr result (λ found. IsHalt (program_tree accepted.now) found) }
    {
        bodies_are_numbered();
        scopes_are_sound();
        names_are_known();
        premises_hold();
        for item in items {
            let before = self.draft.code.instructions.len();
            match self.operation(accepted, directory, object, components, item) {
                Ok(()) => {}
                Err(why) => return Err(halt_for(why, own_place(item), before)),
            }
        }
        Ok(())
    }

    // Goes on behind the body of a protected object, whose name has this number.
    fn object_body(
        &mut self,
        accepted: &Accepted,
        directory: &Directory,
        name: &Identifier,
        number: usize,
        items: &[ProtectedBodyItem],
    ) -> Result<(), Halt>
        requires legal { IsLegal (program_tree accepted.now) }
        requires restricted { IsRestricted (program_tree accepted.now) }
        requires objects { (program_of (program_tree accepted.now)).objects ≤ OBJECTS }
        requires covered { BodiesAreCovered (program_tree accepted.now) }
        requires walked { IsWalked (program_tree accepted.now) directory.now self.old }
        requires directory { IsDirectory (program_tree accepted.now) directory.now }
        requires told { IsAsTold (program_tree accepted.now) self.old }
        requires numbered { number_of self.old.visible.scope name.now.name ≡ Some number }
        requires at { HasObjectBody (program_tree accepted.now) self.old.place name.now (map protected_item_tree items.now) }
        ensures walked { OnOk result (IsWalked (program_tree accepted.now) directory.now self.new) }
        ensures place { OnOk result (self.new.place ≡ self.old.place + 1) }
        ensures told { OnOk result (IsAsTold (program_tree accepted.now) self.new) }
        ensures halts { IfErr result (λ found. IsHalt (program_tree accepted.now) found) }
    {
        scopes_are_sound();
        names_are_known();
        premises_hold();
        object_bodies_end();
        let object = object_number(accepted.scope(), name);
        let short = u16::try_from(object).map_err(|_| Refusal::Limit(ImageLimit::Objects))?;
        let components = components_of(self.alloc, &self.visible.scope, number)?;
        let len = self.visible.scope.len();
        let operations = enter_object(self.alloc, &mut self.visible.scope, number)?;
        directory.tell_operations(
            accepted.scope(),
            object,
            &mut self.visible,
            operations.as_slice(),
        )?;
        self.operations(accepted, directory, short, number, &components, items)?;
        leave_object(&mut self.visible.scope, number, len, operations);
        self.visible.slots.truncate(len);
        self.visible.subprograms.truncate(len);
        self.place += 1;
        Ok(())
    }

    // Goes on behind the body of a protected object.
    fn object(
        &mut self,
        accepted: &Accepted,
        directory: &Directory,
        name: &Identifier,
        items: &[ProtectedBodyItem],
    ) -> Result<(), Halt>
        requires legal { IsLegal (program_tree accepted.now) }
        requires restricted { IsRestricted (program_tree accepted.now) }
        requires objects { (program_of (program_tree accepted.now)).objects ≤ OBJECTS }
        requires covered { BodiesAreCovered (program_tree accepted.now) }
        requires walked { IsWalked (program_tree accepted.now) directory.now self.old }
        requires directory { IsDirectory (program_tree accepted.now) directory.now }
        requires told { IsAsTold (program_tree accepted.now) self.old }
        requires at { HasObjectBody (program_tree accepted.now) self.old.place name.now (map protected_item_tree items.now) }
        ensures walked { OnOk result (IsWalked (program_tree accepted.now) directory.now self.new) }
        ensures place { OnOk result (self.new.place ≡ self.old.place + 1) }
        ensures told { OnOk result (IsAsTold (program_tree accepted.now) self.new) }
        ensures halts { IfErr result (λ found. IsHalt (program_tree accepted.now) found) }
    {
        scopes_are_sound();
        names_are_known();
        premises_hold();
        match self.visible.scope.number_of(&name.name) {
            Some(number) => self.object_body(accepted, directory, name, number, items),
            None => unreachable!(),
        }
    }

    // Goes on behind a declaration.
    fn declaration(
        &mut self,
        accepted: &Accepted,
        directory: &Directory,
        item: &Item,
    ) -> Result<(), Halt>
        requires walked { IsWalked (program_tree accepted.now) directory.now self.old }
        requires directory { IsDirectory (program_tree accepted.now) directory.now }
        requires told { IsAsTold (program_tree accepted.now) self.old }
        requires at { slice_get (declared_in (program_tree accepted.now).package_) self.old.place ≡ Some (OfItem (item_tree item.now)) }
        ensures walked { OnOk result (IsWalked (program_tree accepted.now) directory.now self.new) }
        ensures place { OnOk result (self.new.place ≡ self.old.place + 1) }
        ensures told { OnOk result (IsAsTold (program_tree accepted.now) self.new) }
        ensures halts { IfErr result (λ found. IsHalt (program_tree accepted.now) found) }
    {
        declare_item(self.alloc, &mut self.visible.scope, item)?;
        directory.tell(accepted.scope(), &mut self.visible, &item_name(item).name)?;
        self.place += 1;
        Ok(())
    }

    // Goes on behind the body of a subprogram.
    fn subprogram(
        &mut self,
        accepted: &Accepted,
        directory: &Directory,
        subprogram: &Subprogram,
        body: &Body,
    ) -> Result<(), Halt>
        requires legal { IsLegal (program_tree accepted.now) }
        requires restricted { IsRestricted (program_tree accepted.now) }
        requires covered { BodiesAreCovered (program_tree accepted.now) }
        requires walked { IsWalked (program_tree accepted.now) directory.now self.old }
        requires directory { IsDirectory (program_tree accepted.now) directory.now }
        requires told { IsAsTold (program_tree accepted.now) self.old }
        requires at { slice_get (declared_in (program_tree accepted.now).package_) self.old.place ≡ Some
            (SubprogramBody (subprogram_tree subprogram.now) (body_tree body.now)) }
        ensures walked { OnOk result (IsWalked (program_tree accepted.now) directory.now self.new) }
        ensures place { OnOk result (self.new.place ≡ self.old.place + 1) }
        ensures told { OnOk result (IsAsTold (program_tree accepted.now) self.new) }
        ensures halts { IfErr result (λ found. IsHalt (program_tree accepted.now) found) }
    {
        bodies_are_numbered();
        declare_subprogram(self.alloc, &mut self.visible.scope, subprogram)?;
        directory.tell(accepted.scope(), &mut self.visible, &subprogram.name.name)?;
        let before = self.draft.code.instructions.len();
        match self.body(accepted, directory, subprogram, body) {
            Ok(()) => {
                self.place += 1;
                Ok(())
            }
            Err(why) => Err(halt_for(why, subprogram.name.place, before)),
        }
    }

    // Goes on behind the body of a task, which makes no name visible.
    fn task(
        &mut self,
        accepted: &Accepted,
        directory: &Directory,
        name: &Identifier,
        body: &Body,
    ) -> Result<(), Halt>
        requires legal { IsLegal (program_tree accepted.now) }
        requires restricted { IsRestricted (program_tree accepted.now) }
        requires covered { BodiesAreCovered (program_tree accepted.now) }
        requires walked { IsWalked (program_tree accepted.now) directory.now self.old }
        requires directory { IsDirectory (program_tree accepted.now) directory.now }
        requires told { IsAsTold (program_tree accepted.now) self.old }
        requires at { slice_get (declared_in (program_tree accepted.now).package_) self.old.place ≡ Some (TaskBody name.now (body_tree body.now)) }
        ensures walked { OnOk result (IsWalked (program_tree accepted.now) directory.now self.new) }
        ensures place { OnOk result (self.new.place ≡ self.old.place + 1) }
        ensures told { OnOk result (IsAsTold (program_tree accepted.now) self.new) }
        ensures halts { IfErr result (λ found. IsHalt (program_tree accepted.now) found) }
    {
        bodies_are_numbered();
        let before = self.draft.code.instructions.len();
        match self.task_body(accepted, directory, name, body) {
            Ok(()) => {
                self.place += 1;
                Ok(())
            }
            Err(why) => Err(halt_for(why, name.place, before)),
        }
    }

    // Goes on behind declarations.
    fn declarations(
        &mut self,
        accepted: &Accepted,
        directory: &Directory,
        items: &[Item],
    ) -> Result<(), Halt>
        requires walked { IsWalked (program_tree accepted.now) directory.now self.old }
        requires directory { IsDirectory (program_tree accepted.now) directory.now }
        requires told { IsAsTold (program_tree accepted.now) self.old }
        requires at { StandFrom (declared_in (program_tree accepted.now).package_) self.old.place (map OfItem (map item_tree items.now)) }
        ensures walked { OnOk result (IsWalked (program_tree accepted.now) directory.now self.new) }
        ensures place { OnOk result (self.new.place ≡ self.old.place + length items.now) }
        ensures told { OnOk result (IsAsTold (program_tree accepted.now) self.new) }
        ensures halts { IfErr result (λ found. IsHalt (program_tree accepted.now) found) }
    {
        for item in items {
            self.declaration(accepted, directory, item)?;
        }
        Ok(())
    }

    // Goes on behind a declaration or a body.
    fn step(
        &mut self,
        accepted: &Accepted,
        directory: &Directory,
        item: &BodyItem,
    ) -> Result<(), Halt>
        requires legal { IsLegal (program_tree accepted.now) }
        requires restricted { IsRestricted (program_tree accepted.now) }
        requires objects { (program_of (program_tree accepted.now)).objects ≤ OBJECTS }
        requires covered { BodiesAreCovered (program_tree accepted.now) }
        requires walked { IsWalked (program_tree accepted.now) directory.now self.old }
        requires directory { IsDirectory (program_tree accepted.now) directory.now }
        requires told { IsAsTold (program_tree accepted.now) self.old }
        requires at { slice_get (declared_in (program_tree accepted.now).package_) self.old.place ≡ Some (body_item_tree item.now) }
        ensures walked { OnOk result (IsWalked (program_tree accepted.now) directory.now self.new) }
        ensures place { OnOk result (self.new.place ≡ self.old.place + 1) }
        ensures told { OnOk result (IsAsTold (program_tree accepted.now) self.new) }
        ensures halts { IfErr result (λ found. IsHalt (program_tree accepted.now) found) }
    {
        match item {
            BodyItem::Item(item) => self.declaration(accepted, directory, item),
            BodyItem::Subprogram(subprogram, body) => {
                self.subprogram(accepted, directory, subprogram, body)
            }
            BodyItem::Task(name, body) => self.task(accepted, directory, name, body),
            BodyItem::Protected(name, items, _) => self.object(accepted, directory, name, items),
        }
    }

    // Goes on behind declarations and bodies, where there aren't more rows of handlers than an image has.
    fn bodies(
        &mut self,
        accepted: &Accepted,
        directory: &Directory,
        items: &[BodyItem],
    ) -> Result<(), Halt>
        requires legal { IsLegal (program_tree accepted.now) }
        requires restricted { IsRestricted (program_tree accepted.now) }
        requires objects { (program_of (program_tree accepted.now)).objects ≤ OBJECTS }
        requires covered { BodiesAreCovered (program_tree accepted.now) }
        requires walked { IsWalked (program_tree accepted.now) directory.now self.old }
        requires directory { IsDirectory (program_tree accepted.now) directory.now }
        requires told { IsAsTold (program_tree accepted.now) self.old }
        requires few { length self.old.draft.rows.items ≤ ROWS }
        requires at { StandFrom (declared_in (program_tree accepted.now).package_) self.old.place (map body_item_tree items.now) }
        ensures walked { OnOk result (IsWalked (program_tree accepted.now) directory.now self.new) }
        ensures place { OnOk result (self.new.place ≡ self.old.place + length items.now) }
        ensures told { OnOk result (IsAsTold (program_tree accepted.now) self.new) }
        ensures halts { IfErr result (λ found. IsHalt (program_tree accepted.now) found) }
    {
        for item in items {
            self.step(accepted, directory, item)?;
            let rows = self.draft.rows.many();
            if ROWS < rows {
                return Err(Halt::Stopped(Stop::Rows {
                    place: item_place(item),
                    rows,
                }));
            }
        }
        Ok(())
    }
}

// The walk over a package.
fn walk_package(
    alloc: Global,
    accepted: &Accepted,
    directory: &Directory,
    exceptions: Vec<Text>,
    package_: &Package,
) -> Result<Walk, Halt>
    requires legal { IsLegal (program_tree accepted.now) }
    requires restricted { IsRestricted (program_tree accepted.now) }
    requires objects { (program_of (program_tree accepted.now)).objects ≤ OBJECTS }
    requires is { accepted.now.package_ ≡ Some package_.now }
    requires covered { BodiesAreCovered (program_tree accepted.now) }
    requires directory { IsDirectory (program_tree accepted.now) directory.now }
    requires exceptions { exceptions.items ≡ (program_of (program_tree accepted.now)).exceptions }
    ensures walked { IfOk result (λ walk. IsWalked (program_tree accepted.now) directory.now walk) }
    ensures whole { IfOk result (λ walk. walk.place ≡ length (declared_in (program_tree accepted.now).package_)) }
    ensures told { IfOk result (λ walk. IsAsTold (program_tree accepted.now) walk) }
    ensures halts { IfErr result (λ found. IsHalt (program_tree accepted.now) found) }
{
    let operations = directory.visible_operations(alloc, accepted.scope())?;
    let mut walk = Walk::new(
        alloc,
        inside_scope(alloc, package_)?,
        operations,
        exceptions,
    )?;
    walk.declarations(accepted, directory, &package_.declaration.items)?;
    walk.bodies(accepted, directory, &package_.body.items)?;
    Ok(walk)
}

// The walk over a program without a package.
fn walk_nothing(
    alloc: Global,
    accepted: &Accepted,
    directory: &Directory,
    exceptions: Vec<Text>,
) -> Result<Walk, Halt>
    requires is { accepted.now.package_ ≡ None }
    requires directory { IsDirectory (program_tree accepted.now) directory.now }
    requires exceptions { exceptions.items ≡ (program_of (program_tree accepted.now)).exceptions }
    ensures walked { IfOk result (λ walk. IsWalked (program_tree accepted.now) directory.now walk) }
    ensures whole { IfOk result (λ walk. walk.place ≡ length (declared_in (program_tree accepted.now).package_)) }
    ensures told { IfOk result (λ walk. IsAsTold (program_tree accepted.now) walk) }
    ensures halts { IfErr result (λ found. IsHalt (program_tree accepted.now) found) }
{
    let operations = directory.visible_operations(alloc, accepted.scope())?;
    let walk = Walk::new(alloc, Scope::standard(alloc)?, operations, exceptions)?;
    Ok(walk)
}

/// The walk over all of a program's package, where these are the program's exceptions.
///
/// # Errors
/// `Stopped` where the code of a body may pass a limit of images, or the handlers up to the end of an item have more choices than an image has rows: at the
/// first of these. `Refused` where memory was refused.
pub fn walk_over(
    alloc: Global,
    accepted: &Accepted,
    directory: &Directory,
    exceptions: Vec<Text>,
) -> Result<Walk, Halt>
    requires objects { (program_of (program_tree accepted.now)).objects ≤ OBJECTS }
    requires covered { BodiesAreCovered (program_tree accepted.now) }
    requires directory { IsDirectory (program_tree accepted.now) directory.now }
    requires exceptions { exceptions.items ≡ (program_of (program_tree accepted.now)).exceptions }
    ensures walked { IfOk result (λ walk. IsWalked (program_tree accepted.now) directory.now walk) }
    ensures whole { IfOk result (λ walk. walk.place ≡ length (declared_in (program_tree accepted.now).package_)) }
    ensures told { IfOk result (λ walk. IsAsTold (program_tree accepted.now) walk) }
    ensures halts { IfErr result (λ found. IsHalt (program_tree accepted.now) found) }
{
    match &accepted.program().package_ {
        None => walk_nothing(alloc, accepted, directory, exceptions),
        Some(package_) => walk_package(alloc, accepted, directory, exceptions, package_),
    }
}
