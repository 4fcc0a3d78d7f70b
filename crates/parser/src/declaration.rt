//! Reading the declarations of bodies and blocks.
ghost use Rattle.std.specs.Prelude.{◌≡◌, map};
ghost use Rattle.ada_tree.specs.ExpressionTree.{expr_tree};
ghost use Rattle.ada_tree.specs.StatementTree.{aspect_tree, object_tree, task_tree, task_definition_tree, subprogram_tree, entry_tree, operation_tree, protected_tree, protected_component_tree, declaration_tree, range_tree, optional_tree};
ghost use Rattle.parser.specs.Reading.{Gives, first, many};
ghost use Rattle.parser.specs.DeclarationReading as reading;

use crate::parser::Parser;
use crate::refusal::Refusal;
use ada_tree::{
    Aspect, Declaration, EntryDeclaration, Expr, Formal, Identifier, Mode, ObjectDeclaration,
    Operation, ProtectedComponent, ProtectedDeclaration, Range, Subprogram, TaskDeclaration,
    TaskDefinition, TaskEntry,
};
use lexer::{Delimiter, Word};

/// What follows the colon of an object's declaration.
#[derive(Drop)]
pub(crate) struct ObjectRest {
    constant: bool,
    subtype: Identifier,
    value: Option<Expr>,
}

/// What follows `task`.
#[derive(Drop)]
pub(crate) struct TaskRest {
    name: Identifier,
    aspect: Option<Aspect>,
    definition: Option<TaskDefinition>,
}

/// What follows `protected`.
#[derive(Drop)]
pub(crate) struct ProtectedRest {
    name: Identifier,
    aspect: Option<Aspect>,
    operations: Vec<Operation>,
    components: Vec<ProtectedComponent>,
    end_name: Identifier,
}

impl ObjectRest {
    /// The declaration of an object of this name.
    pub(crate) fn named(self, name: Identifier) -> ObjectDeclaration
        ensures { object_tree result ≡ reading.object_of name (reading.object_rest self) }
    {
        ObjectDeclaration {
            name,
            constant: self.constant,
            subtype: self.subtype,
            value: self.value,
        }
    }
}

impl TaskRest {
    /// The declaration of which `task` is at this place.
    pub(crate) fn placed(self, place: u32) -> TaskDeclaration
        ensures { task_tree result ≡ reading.task_of place (reading.task_rest self) }
    {
        TaskDeclaration {
            place,
            name: self.name,
            aspect: self.aspect,
            definition: self.definition,
        }
    }
}

impl ProtectedRest {
    /// The declaration of which `protected` is at this place.
    pub(crate) fn placed(self, place: u32) -> ProtectedDeclaration
        ensures { protected_tree result ≡ reading.protected_of place (reading.protected_rest self) }
    {
        ProtectedDeclaration {
            place,
            name: self.name,
            aspect: self.aspect,
            operations: self.operations,
            components: self.components,
            end_name: self.end_name,
        }
    }
}

/// The mode of a formal with `in`, and with `out`.
fn mode_of(is_in: bool, is_out: bool) -> Mode
    ensures { result ≡ reading.mode_of is_in is_out }
{
    match (is_in, is_out) {
        (_, false) => Mode::In,
        (false, true) => Mode::Out,
        (true, true) => Mode::InOut,
    }
}

// Parts of declarations.
impl<'a> Parser<'a> {
    pub(crate) fn range(&mut self, levels: u8) -> Result<Range, Refusal>
        ensures { Gives range_tree result self.new.rest.now (reading.range_at levels self.old.rest.now) }
    {
        let first = self.simple(levels)?;
        self.mark(Delimiter::DoubleDot)?;
        let last = self.simple(levels)?;
        Ok(Range { first, last })
    }

    fn aspect(&mut self, levels: u8) -> Result<Aspect, Refusal>
        ensures { Gives aspect_tree result self.new.rest.now (reading.aspect_at levels self.old.rest.now) }
    {
        let place = self.word(Word::With)?;
        let name = self.identifier()?;
        self.mark(Delimiter::Arrow)?;
        let value = self.expression(levels)?;
        Ok(Aspect { place, name, value })
    }

    pub(crate) fn aspect_part(&mut self, levels: u8) -> Result<Option<Aspect>, Refusal>
        ensures { Gives (optional_tree aspect_tree) result self.new.rest.now (reading.aspect_part levels self.old.rest.now) }
    {
        if !self.at_word(Word::With) {
            return Ok(None);
        }
        let aspect = self.aspect(levels)?;
        Ok(Some(aspect))
    }

    pub(crate) fn initial_part(&mut self, levels: u8) -> Result<Option<Expr>, Refusal>
        ensures { Gives (optional_tree expr_tree) result self.new.rest.now (reading.initial_part levels self.old.rest.now) }
    {
        if !self.at_mark(Delimiter::Assignment) {
            return Ok(None);
        }
        self.mark(Delimiter::Assignment)?;
        let value = self.expression(levels)?;
        Ok(Some(value))
    }
}

// Objects, subprograms and entries.
impl<'a> Parser<'a> {
    pub(crate) fn object_rest(&mut self, levels: u8) -> Result<ObjectRest, Refusal>
        ensures { Gives reading.object_rest result self.new.rest.now (reading.object_rest_at levels self.old.rest.now) }
    {
        let constant = self.passes(Word::Constant)?;
        let subtype = self.identifier()?;
        let value = self.initial_part(levels)?;
        self.mark(Delimiter::Semicolon)?;
        Ok(ObjectRest {
            constant,
            subtype,
            value,
        })
    }

    fn object(&mut self, levels: u8) -> Result<ObjectDeclaration, Refusal>
        ensures { Gives object_tree result self.new.rest.now (reading.object_at levels self.old.rest.now) }
    {
        let name = self.identifier()?;
        self.mark(Delimiter::Colon)?;
        let rest = self.object_rest(levels)?;
        Ok(rest.named(name))
    }

    fn mode(&mut self) -> Result<Mode, Refusal>
        ensures { Gives (λ mode. mode) result self.new.rest.now (reading.mode_at self.old.rest.now) }
    {
        let is_in = self.passes(Word::In)?;
        let is_out = self.passes(Word::Out)?;
        Ok(mode_of(is_in, is_out))
    }

    fn formal(&mut self) -> Result<Formal, Refusal>
        ensures { Gives (λ formal. formal) result self.new.rest.now (reading.formal_at self.old.rest.now) }
    {
        let name = self.identifier()?;
        self.mark(Delimiter::Colon)?;
        let mode = self.mode()?;
        let subtype = self.identifier()?;
        Ok(Formal {
            name,
            mode,
            subtype,
        })
    }

    /// One or more formals, with semicolons between them.
    fn formal_list(&mut self) -> Result<Vec<Formal>, Refusal>
        ensures { Gives (λ all. all.items) result self.new.rest.now (reading.formal_list_at self.old.rest.now) }
    {
        let mut all = Vec::new(self.alloc);
        let head = self.formal()?;
        all.push(head)?;
        while self.at_mark(Delimiter::Semicolon) {
            self.mark(Delimiter::Semicolon)?;
            let next = self.formal()?;
            all.push(next)?;
        }
        Ok(all)
    }

    fn formals(&mut self, levels: u8) -> Result<Vec<Formal>, Refusal>
        ensures { Gives (λ all. all.items) result self.new.rest.now (reading.formals_at levels self.old.rest.now) }
    {
        if !self.at_mark(Delimiter::LeftParenthesis) {
            return Ok(Vec::new(self.alloc));
        }
        self.open(levels)?;
        self.mark(Delimiter::LeftParenthesis)?;
        let all = self.formal_list()?;
        self.mark(Delimiter::RightParenthesis)?;
        Ok(all)
    }

    fn procedure(&mut self, levels: u8) -> Result<Subprogram, Refusal>
        ensures { Gives subprogram_tree result self.new.rest.now (reading.procedure_at levels self.old.rest.now) }
    {
        let place = self.word(Word::Procedure)?;
        let name = self.identifier()?;
        let formals = self.formals(levels)?;
        Ok(Subprogram {
            place,
            name,
            formals,
            result: None,
        })
    }

    fn function(&mut self, levels: u8) -> Result<Subprogram, Refusal>
        ensures { Gives subprogram_tree result self.new.rest.now (reading.function_at levels self.old.rest.now) }
    {
        let place = self.word(Word::Function)?;
        let name = self.identifier()?;
        let formals = self.formals(levels)?;
        self.word(Word::Return)?;
        let result = self.identifier()?;
        Ok(Subprogram {
            place,
            name,
            formals,
            result: Some(result),
        })
    }

    pub(crate) fn subprogram(&mut self, levels: u8) -> Result<Subprogram, Refusal>
        ensures { Gives subprogram_tree result self.new.rest.now (reading.subprogram_at levels self.old.rest.now) }
    {
        if self.at_word(Word::Function) {
            self.function(levels)
        } else {
            self.procedure(levels)
        }
    }

    pub(crate) fn entry(&mut self, levels: u8) -> Result<EntryDeclaration, Refusal>
        ensures { Gives entry_tree result self.new.rest.now (reading.entry_at levels self.old.rest.now) }
    {
        let place = self.word(Word::Entry)?;
        let name = self.identifier()?;
        let formals = self.formals(levels)?;
        Ok(EntryDeclaration {
            place,
            name,
            formals,
        })
    }
}

// Tasks.
impl<'a> Parser<'a> {
    fn task_entry(&mut self) -> Result<TaskEntry, Refusal>
        ensures { Gives (λ entry. entry) result self.new.rest.now (reading.task_entry_at self.old.rest.now) }
    {
        let place = self.word(Word::Entry)?;
        let name = self.identifier()?;
        self.mark(Delimiter::Semicolon)?;
        Ok(TaskEntry { place, name })
    }

    fn task_entries(&mut self) -> Result<Vec<TaskEntry>, Refusal>
        ensures { Gives (λ all. all.items) result self.new.rest.now (reading.task_entries_at self.old.rest.now) }
    {
        let mut all = Vec::new(self.alloc);
        while self.at_word(Word::Entry) {
            let next = self.task_entry()?;
            all.push(next)?;
        }
        Ok(all)
    }

    fn task_definition(&mut self) -> Result<TaskDefinition, Refusal>
        ensures { Gives task_definition_tree result self.new.rest.now (reading.task_definition_at self.old.rest.now) }
    {
        self.word(Word::Is)?;
        let entries = self.task_entries()?;
        self.word(Word::End)?;
        let end_name = self.identifier()?;
        Ok(TaskDefinition { entries, end_name })
    }

    fn task_definition_part(&mut self) -> Result<Option<TaskDefinition>, Refusal>
        ensures { Gives (optional_tree task_definition_tree) result self.new.rest.now (reading.task_definition_part self.old.rest.now) }
    {
        if !self.at_word(Word::Is) {
            return Ok(None);
        }
        let definition = self.task_definition()?;
        Ok(Some(definition))
    }

    pub(crate) fn task_rest(&mut self, levels: u8) -> Result<TaskRest, Refusal>
        ensures { Gives reading.task_rest result self.new.rest.now (reading.task_rest_at levels self.old.rest.now) }
    {
        let name = self.identifier()?;
        let aspect = self.aspect_part(levels)?;
        let definition = self.task_definition_part()?;
        self.mark(Delimiter::Semicolon)?;
        Ok(TaskRest {
            name,
            aspect,
            definition,
        })
    }

    pub(crate) fn task(&mut self, levels: u8) -> Result<TaskDeclaration, Refusal>
        ensures { Gives task_tree result self.new.rest.now (reading.task_at levels self.old.rest.now) }
    {
        let place = self.word(Word::Task)?;
        let rest = self.task_rest(levels)?;
        Ok(rest.placed(place))
    }
}

// Protected objects.
impl<'a> Parser<'a> {
    pub(crate) fn at_operation(&self) -> bool
        ensures { result ≡ reading.begins_operation (first self.now.rest.now) }
    {
        self.at_word(Word::Procedure) || self.at_word(Word::Function) || self.at_word(Word::Entry)
    }

    fn operation(&mut self, levels: u8) -> Result<Operation, Refusal>
        ensures { Gives operation_tree result self.new.rest.now (reading.operation_at levels self.old.rest.now) }
    {
        if self.at_word(Word::Entry) {
            let entry = self.entry(levels)?;
            self.mark(Delimiter::Semicolon)?;
            return Ok(Operation::Entry(entry));
        }
        let subprogram = self.subprogram(levels)?;
        let aspect = self.aspect_part(levels)?;
        self.mark(Delimiter::Semicolon)?;
        Ok(Operation::Subprogram(subprogram, aspect))
    }

    fn operations(&mut self, levels: u8) -> Result<Vec<Operation>, Refusal>
        ensures { Gives (λ all. map operation_tree all.items) result self.new.rest.now (reading.operations_at levels self.old.rest.now) }
    {
        let mut all = Vec::new(self.alloc);
        while self.at_operation() {
            let next = self.operation(levels)?;
            all.push(next)?;
        }
        Ok(all)
    }

    fn protected_component(&mut self, levels: u8) -> Result<ProtectedComponent, Refusal>
        ensures { Gives protected_component_tree result self.new.rest.now (reading.protected_component_at levels self.old.rest.now) }
    {
        let name = self.identifier()?;
        self.mark(Delimiter::Colon)?;
        let subtype = self.identifier()?;
        let value = self.initial_part(levels)?;
        self.mark(Delimiter::Semicolon)?;
        Ok(ProtectedComponent {
            name,
            subtype,
            value,
        })
    }

    fn protected_components(&mut self, levels: u8) -> Result<Vec<ProtectedComponent>, Refusal>
        ensures { Gives (λ all. map protected_component_tree all.items) result self.new.rest.now (reading.protected_components_at levels self.old.rest.now) }
    {
        let mut all = Vec::new(self.alloc);
        while self.at_identifier() {
            let next = self.protected_component(levels)?;
            all.push(next)?;
        }
        Ok(all)
    }

    fn private_part(&mut self, levels: u8) -> Result<Vec<ProtectedComponent>, Refusal>
        ensures { Gives (λ all. map protected_component_tree all.items) result self.new.rest.now (reading.private_part_at levels self.old.rest.now) }
    {
        if !self.at_word(Word::Private) {
            return Ok(Vec::new(self.alloc));
        }
        self.word(Word::Private)?;
        self.protected_components(levels)
    }

    pub(crate) fn protected_rest(&mut self, levels: u8) -> Result<ProtectedRest, Refusal>
        ensures { Gives reading.protected_rest result self.new.rest.now (reading.protected_rest_at levels self.old.rest.now) }
    {
        let name = self.identifier()?;
        let aspect = self.aspect_part(levels)?;
        self.word(Word::Is)?;
        let operations = self.operations(levels)?;
        let components = self.private_part(levels)?;
        self.word(Word::End)?;
        let end_name = self.identifier()?;
        self.mark(Delimiter::Semicolon)?;
        Ok(ProtectedRest {
            name,
            aspect,
            operations,
            components,
            end_name,
        })
    }

    pub(crate) fn protected(&mut self, levels: u8) -> Result<ProtectedDeclaration, Refusal>
        ensures { Gives protected_tree result self.new.rest.now (reading.protected_at levels self.old.rest.now) }
    {
        let place = self.word(Word::Protected)?;
        let rest = self.protected_rest(levels)?;
        Ok(rest.placed(place))
    }
}

// Declarations of each kind.
impl<'a> Parser<'a> {
    fn at_declaration(&self) -> bool
        ensures { result ≡ reading.begins_declaration (first self.now.rest.now) }
    {
        self.at_identifier() || self.at_word(Word::Task) || self.at_word(Word::Protected)
    }

    fn declaration(&mut self, levels: u8) -> Result<Declaration, Refusal>
        ensures { Gives declaration_tree result self.new.rest.now (reading.declaration_at levels self.old.rest.now) }
    {
        if self.at_word(Word::Task) {
            let task = self.task(levels)?;
            return Ok(Declaration::Task(task));
        }
        if self.at_word(Word::Protected) {
            let protected = self.protected(levels)?;
            return Ok(Declaration::Protected(protected));
        }
        let object = self.object(levels)?;
        Ok(Declaration::Object(object))
    }

    pub(crate) fn declarations(&mut self, levels: u8) -> Result<Vec<Declaration>, Refusal>
        ensures { Gives (λ all. map declaration_tree all.items) result self.new.rest.now (reading.declarations_at levels self.old.rest.now) }
    {
        let mut all = Vec::new(self.alloc);
        while self.at_declaration() {
            let next = self.declaration(levels)?;
            all.push(next)?;
        }
        Ok(all)
    }
}
