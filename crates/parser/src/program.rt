//! Reading types, bodies, packages and whole texts.
ghost use Rattle.std.specs.Prelude.{◌≡◌, map, []};
ghost use Rattle.ada_tree.specs.StatementTree.{optional_tree, range_tree};
ghost use Rattle.ada_tree.specs.ProgramTree.{index_tree, definition_tree, type_tree, item_tree, body_tree, protected_item_tree, body_item_tree, package_declaration_tree, package_body_tree, package_tree, main_tree, program_tree};
ghost use Rattle.parser.specs.Reading.{Gives, first};
ghost use Rattle.parser.specs.ProgramReading as reading;

use crate::parser::Parser;
use crate::refusal::Refusal;
use ada_tree::{
    ArrayIndex, Body, BodyItem, Component, Identifier, Item, Main, MainStatement, Package,
    PackageBody, PackageDeclaration, Pragma, Program, ProtectedBodyItem, Range, TypeDeclaration,
    TypeDefinition, UnitClause, UnitName,
};
use lexer::{Delimiter, TokenKind, Word};

// Types.
impl<'a> Parser<'a> {
    /// A range, or the name of a subtype.
    fn index(&mut self, levels: u8) -> Result<ArrayIndex, Refusal>
        ensures { Gives index_tree result self.new.rest.now (reading.index_at levels self.old.rest.now) }
    {
        let first = self.simple(levels)?;
        if self.at_mark(Delimiter::DoubleDot) {
            self.mark(Delimiter::DoubleDot)?;
            let last = self.simple(levels)?;
            return Ok(ArrayIndex::Range(Range { first, last }));
        }
        match first.bare_name() {
            Some(name) => Ok(ArrayIndex::Subtype(Identifier {
                name: name.name.clone()?,
                place: name.place,
            })),
            None => Err(self.refusal(false)),
        }
    }

    /// The index of an array type, in its parentheses.
    fn array_index(&mut self, levels: u8) -> Result<ArrayIndex, Refusal>
        ensures { Gives index_tree result self.new.rest.now (reading.array_index_at levels self.old.rest.now) }
    {
        if !self.at_mark(Delimiter::LeftParenthesis) {
            return Err(self.refusal(false));
        }
        let inside = self.open(levels)?;
        self.mark(Delimiter::LeftParenthesis)?;
        let index = self.index(inside)?;
        self.mark(Delimiter::RightParenthesis)?;
        Ok(index)
    }

    fn record_component(&mut self) -> Result<Component, Refusal>
        ensures { Gives (λ component. component) result self.new.rest.now (reading.component_at self.old.rest.now) }
    {
        let name = self.identifier()?;
        self.mark(Delimiter::Colon)?;
        let subtype = self.identifier()?;
        self.mark(Delimiter::Semicolon)?;
        Ok(Component { name, subtype })
    }

    fn record_component_list(&mut self) -> Result<Vec<Component>, Refusal>
        ensures { Gives (λ all. all.items) result self.new.rest.now (reading.component_list_at self.old.rest.now) }
    {
        let mut all = Vec::new(self.alloc);
        let head = self.record_component()?;
        all.push(head)?;
        while self.at_identifier() {
            let next = self.record_component()?;
            all.push(next)?;
        }
        Ok(all)
    }

    fn integer_type(&mut self, levels: u8) -> Result<TypeDefinition, Refusal>
        ensures { Gives definition_tree result self.new.rest.now (reading.integer_at levels self.old.rest.now) }
    {
        self.word(Word::Range)?;
        let range = self.range(levels)?;
        self.mark(Delimiter::Semicolon)?;
        Ok(TypeDefinition::Integer(range))
    }

    fn array_type(&mut self, levels: u8) -> Result<TypeDefinition, Refusal>
        ensures { Gives definition_tree result self.new.rest.now (reading.array_at levels self.old.rest.now) }
    {
        self.word(Word::Array)?;
        let index = self.array_index(levels)?;
        self.word(Word::Of)?;
        let component = self.identifier()?;
        self.mark(Delimiter::Semicolon)?;
        Ok(TypeDefinition::Array(index, component))
    }

    fn record_type(&mut self) -> Result<TypeDefinition, Refusal>
        ensures { Gives definition_tree result self.new.rest.now (reading.record_at self.old.rest.now) }
    {
        self.word(Word::Record)?;
        let components = self.record_component_list()?;
        self.word(Word::End)?;
        self.word(Word::Record)?;
        self.mark(Delimiter::Semicolon)?;
        Ok(TypeDefinition::Record(components))
    }

    /// What follows `is` in the declaration of a type.
    fn type_definition(&mut self, levels: u8) -> Result<TypeDefinition, Refusal>
        ensures { Gives definition_tree result self.new.rest.now (reading.definition_at levels self.old.rest.now) }
    {
        if self.at_word(Word::Range) {
            self.integer_type(levels)
        } else if self.at_word(Word::Array) {
            self.array_type(levels)
        } else {
            self.record_type()
        }
    }

    fn type_declaration(&mut self, levels: u8) -> Result<TypeDeclaration, Refusal>
        ensures { Gives type_tree result self.new.rest.now (reading.type_at levels self.old.rest.now) }
    {
        self.word(Word::Type)?;
        let name = self.identifier()?;
        self.word(Word::Is)?;
        let definition = self.type_definition(levels)?;
        Ok(TypeDeclaration { name, definition })
    }

    fn constraint_part(&mut self, levels: u8) -> Result<Option<Range>, Refusal>
        ensures { Gives (optional_tree range_tree) result self.new.rest.now (reading.constraint_part levels self.old.rest.now) }
    {
        if !self.at_word(Word::Range) {
            return Ok(None);
        }
        self.word(Word::Range)?;
        let range = self.range(levels)?;
        Ok(Some(range))
    }

    fn subtype_declaration(&mut self, levels: u8) -> Result<TypeDeclaration, Refusal>
        ensures { Gives type_tree result self.new.rest.now (reading.subtype_at levels self.old.rest.now) }
    {
        self.word(Word::Subtype)?;
        let name = self.identifier()?;
        self.word(Word::Is)?;
        let parent = self.identifier()?;
        let range = self.constraint_part(levels)?;
        self.mark(Delimiter::Semicolon)?;
        Ok(TypeDeclaration {
            name,
            definition: TypeDefinition::Subtype(parent, range),
        })
    }
}

// Items of packages.
impl<'a> Parser<'a> {
    /// An exception or an object.
    fn named_item(&mut self, levels: u8) -> Result<Item, Refusal>
        ensures { Gives item_tree result self.new.rest.now (reading.named_item_at levels self.old.rest.now) }
    {
        let name = self.identifier()?;
        self.mark(Delimiter::Colon)?;
        if self.at_word(Word::Exception) {
            self.word(Word::Exception)?;
            self.mark(Delimiter::Semicolon)?;
            return Ok(Item::Exception(name));
        }
        let rest = self.object_rest(levels)?;
        Ok(Item::Object(rest.named(name)))
    }

    fn subprogram_item(&mut self, levels: u8) -> Result<Item, Refusal>
        ensures { Gives item_tree result self.new.rest.now (reading.subprogram_item_at levels self.old.rest.now) }
    {
        let subprogram = self.subprogram(levels)?;
        self.mark(Delimiter::Semicolon)?;
        Ok(Item::Subprogram(subprogram))
    }

    fn item(&mut self, levels: u8) -> Result<Item, Refusal>
        ensures { Gives item_tree result self.new.rest.now (reading.item_at levels self.old.rest.now) }
    {
        match self.next_word() {
            Some(Word::Type) => Ok(Item::Type(self.type_declaration(levels)?)),
            Some(Word::Subtype) => Ok(Item::Type(self.subtype_declaration(levels)?)),
            Some(Word::Procedure | Word::Function) => self.subprogram_item(levels),
            Some(Word::Task) => Ok(Item::Task(self.task(levels)?)),
            Some(Word::Protected) => Ok(Item::Protected(self.protected(levels)?)),
            _ => self.named_item(levels),
        }
    }

    fn at_item(&self) -> bool
        ensures { result ≡ reading.begins_item (first self.now.rest.now) }
    {
        let [token, ..] = self.rest else {
            return false;
        };
        begins_item(&token.kind)
    }

    fn item_list(&mut self, levels: u8) -> Result<Vec<Item>, Refusal>
        ensures { Gives (λ all. map item_tree all.items) result self.new.rest.now (reading.item_list_at levels self.old.rest.now) }
    {
        let mut all = Vec::new(self.alloc);
        while self.at_item() {
            let next = self.item(levels)?;
            all.push(next)?;
        }
        Ok(all)
    }
}

/// Can an item of a package begin with this token?
fn begins_item(kind: &TokenKind) -> bool
    ensures { result ≡ reading.can_begin_item kind.now }
{
    match kind {
        TokenKind::Identifier(_) => true,
        TokenKind::Word(word) => matches!(
            word,
            Word::Type
                | Word::Subtype
                | Word::Procedure
                | Word::Function
                | Word::Task
                | Word::Protected
        ),
        _ => false,
    }
}

// Bodies.
impl<'a> Parser<'a> {
    fn body(&mut self, levels: u8) -> Result<Body, Refusal>
        ensures { Gives body_tree result self.new.rest.now (reading.body_at levels self.old.rest.now) }
    {
        let declarations = self.declarations(levels)?;
        self.word(Word::Begin)?;
        let statements = self.statements(levels)?;
        let handlers = self.handlers(levels)?;
        self.word(Word::End)?;
        let end_name = self.identifier()?;
        self.mark(Delimiter::Semicolon)?;
        Ok(Body {
            declarations,
            statements,
            handlers,
            end_name,
        })
    }

    fn operation_body(&mut self, levels: u8) -> Result<ProtectedBodyItem, Refusal>
        ensures { Gives protected_item_tree result self.new.rest.now (reading.operation_body_at levels self.old.rest.now) }
    {
        let subprogram = self.subprogram(levels)?;
        self.word(Word::Is)?;
        let body = self.body(levels)?;
        Ok(ProtectedBodyItem::Subprogram(subprogram, body))
    }

    fn entry_body(&mut self, levels: u8) -> Result<ProtectedBodyItem, Refusal>
        ensures { Gives protected_item_tree result self.new.rest.now (reading.entry_body_at levels self.old.rest.now) }
    {
        let entry = self.entry(levels)?;
        self.word(Word::When)?;
        let barrier = self.expression(levels)?;
        self.word(Word::Is)?;
        let body = self.body(levels)?;
        Ok(ProtectedBodyItem::Entry(entry, barrier, body))
    }

    fn protected_item(&mut self, levels: u8) -> Result<ProtectedBodyItem, Refusal>
        ensures { Gives protected_item_tree result self.new.rest.now (reading.protected_item_at levels self.old.rest.now) }
    {
        if self.at_word(Word::Entry) {
            self.entry_body(levels)
        } else {
            self.operation_body(levels)
        }
    }

    fn protected_item_list(&mut self, levels: u8) -> Result<Vec<ProtectedBodyItem>, Refusal>
        ensures { Gives (λ all. map protected_item_tree all.items) result self.new.rest.now (reading.protected_item_list_at levels self.old.rest.now) }
    {
        let mut all = Vec::new(self.alloc);
        while self.at_operation() {
            let next = self.protected_item(levels)?;
            all.push(next)?;
        }
        Ok(all)
    }

    /// The declaration or the body of a subprogram.
    fn subprogram_body(&mut self, levels: u8) -> Result<BodyItem, Refusal>
        ensures { Gives body_item_tree result self.new.rest.now (reading.subprogram_body_at levels self.old.rest.now) }
    {
        let subprogram = self.subprogram(levels)?;
        if self.at_mark(Delimiter::Semicolon) {
            self.mark(Delimiter::Semicolon)?;
            return Ok(BodyItem::Item(Item::Subprogram(subprogram)));
        }
        self.word(Word::Is)?;
        let body = self.body(levels)?;
        Ok(BodyItem::Subprogram(subprogram, body))
    }

    /// The declaration or the body of a task.
    fn task_item(&mut self, levels: u8) -> Result<BodyItem, Refusal>
        ensures { Gives body_item_tree result self.new.rest.now (reading.task_item_at levels self.old.rest.now) }
    {
        let place = self.word(Word::Task)?;
        if self.at_word(Word::Body) {
            self.word(Word::Body)?;
            let name = self.identifier()?;
            self.word(Word::Is)?;
            let body = self.body(levels)?;
            return Ok(BodyItem::Task(name, body));
        }
        let rest = self.task_rest(levels)?;
        Ok(BodyItem::Item(Item::Task(rest.placed(place))))
    }

    /// The declaration or the body of a protected object.
    fn protected_object(&mut self, levels: u8) -> Result<BodyItem, Refusal>
        ensures { Gives body_item_tree result self.new.rest.now (reading.protected_object_at levels self.old.rest.now) }
    {
        let place = self.word(Word::Protected)?;
        if self.at_word(Word::Body) {
            self.word(Word::Body)?;
            let name = self.identifier()?;
            self.word(Word::Is)?;
            let items = self.protected_item_list(levels)?;
            self.word(Word::End)?;
            let end_name = self.identifier()?;
            self.mark(Delimiter::Semicolon)?;
            return Ok(BodyItem::Protected(name, items, end_name));
        }
        let rest = self.protected_rest(levels)?;
        Ok(BodyItem::Item(Item::Protected(rest.placed(place))))
    }

    fn body_item(&mut self, levels: u8) -> Result<BodyItem, Refusal>
        ensures { Gives body_item_tree result self.new.rest.now (reading.body_item_at levels self.old.rest.now) }
    {
        match self.next_word() {
            Some(Word::Procedure | Word::Function) => self.subprogram_body(levels),
            Some(Word::Task) => self.task_item(levels),
            Some(Word::Protected) => self.protected_object(levels),
            _ => Ok(BodyItem::Item(self.item(levels)?)),
        }
    }

    fn body_item_list(&mut self, levels: u8) -> Result<Vec<BodyItem>, Refusal>
        ensures { Gives (λ all. map body_item_tree all.items) result self.new.rest.now (reading.body_item_list_at levels self.old.rest.now) }
    {
        let mut all = Vec::new(self.alloc);
        while self.at_item() {
            let next = self.body_item(levels)?;
            all.push(next)?;
        }
        Ok(all)
    }
}

// Packages.
impl<'a> Parser<'a> {
    fn unit_name(&mut self) -> Result<UnitName, Refusal>
        ensures { Gives (λ name. name) result self.new.rest.now (reading.unit_name_at self.old.rest.now) }
    {
        let first = self.identifier()?;
        let second = self.component_part()?;
        Ok(UnitName { first, second })
    }

    fn unit_clause(&mut self) -> Result<UnitClause, Refusal>
        ensures { Gives (λ clause. clause) result self.new.rest.now (reading.unit_clause_at self.old.rest.now) }
    {
        let place = self.word(Word::With)?;
        let unit = self.unit_name()?;
        self.mark(Delimiter::Semicolon)?;
        self.word(Word::Use)?;
        let used = self.unit_name()?;
        self.mark(Delimiter::Semicolon)?;
        Ok(UnitClause { place, unit, used })
    }

    fn clause_list(&mut self) -> Result<Vec<UnitClause>, Refusal>
        ensures { Gives (λ all. all.items) result self.new.rest.now (reading.clause_list_at self.old.rest.now) }
    {
        let mut all = Vec::new(self.alloc);
        while self.at_word(Word::With) {
            let next = self.unit_clause()?;
            all.push(next)?;
        }
        Ok(all)
    }

    fn package_declaration(&mut self, levels: u8) -> Result<PackageDeclaration, Refusal>
        ensures { Gives package_declaration_tree result self.new.rest.now (reading.package_declaration_at levels self.old.rest.now) }
    {
        let place = self.word(Word::Package)?;
        let name = self.identifier()?;
        self.word(Word::Is)?;
        let items = self.item_list(levels)?;
        self.word(Word::End)?;
        let end_name = self.identifier()?;
        self.mark(Delimiter::Semicolon)?;
        Ok(PackageDeclaration {
            place,
            name,
            items,
            end_name,
        })
    }

    fn package_body(&mut self, levels: u8) -> Result<PackageBody, Refusal>
        ensures { Gives package_body_tree result self.new.rest.now (reading.package_body_at levels self.old.rest.now) }
    {
        let place = self.word(Word::Package)?;
        self.word(Word::Body)?;
        let name = self.identifier()?;
        self.word(Word::Is)?;
        let items = self.body_item_list(levels)?;
        self.word(Word::End)?;
        let end_name = self.identifier()?;
        self.mark(Delimiter::Semicolon)?;
        Ok(PackageBody {
            place,
            name,
            items,
            end_name,
        })
    }

    /// A package with its clauses, and the `with` of main.
    fn package(&mut self, levels: u8) -> Result<Package, Refusal>
        ensures { Gives package_tree result self.new.rest.now (reading.package_at levels self.old.rest.now) }
    {
        let clauses = self.clause_list()?;
        let declaration = self.package_declaration(levels)?;
        let body = self.package_body(levels)?;
        self.word(Word::With)?;
        let with_name = self.identifier()?;
        self.mark(Delimiter::Semicolon)?;
        Ok(Package {
            clauses,
            declaration,
            body,
            with_name,
        })
    }

    fn package_part(&mut self, levels: u8) -> Result<Option<Package>, Refusal>
        ensures { Gives (optional_tree package_tree) result self.new.rest.now (reading.package_part levels self.old.rest.now) }
    {
        if !(self.at_word(Word::With) || self.at_word(Word::Package)) {
            return Ok(None);
        }
        let package = self.package(levels)?;
        Ok(Some(package))
    }
}

// Whole texts.
impl<'a> Parser<'a> {
    fn main_statement(&mut self) -> Result<MainStatement, Refusal>
        ensures { Gives (λ statement. statement) result self.new.rest.now (reading.main_statement_at self.old.rest.now) }
    {
        if self.at_word(Word::Null) {
            let place = self.word(Word::Null)?;
            self.mark(Delimiter::Semicolon)?;
            return Ok(MainStatement::Null(place));
        }
        let package = self.identifier()?;
        self.mark(Delimiter::Dot)?;
        let procedure = self.identifier()?;
        self.mark(Delimiter::Semicolon)?;
        Ok(MainStatement::Call(package, procedure))
    }

    fn at_main_statement(&self) -> bool
        ensures { result ≡ reading.begins_main_statement (first self.now.rest.now) }
    {
        self.at_identifier() || self.at_word(Word::Null)
    }

    fn main_statement_list(&mut self) -> Result<Vec<MainStatement>, Refusal>
        ensures { Gives (λ all. all.items) result self.new.rest.now (reading.main_statement_list_at self.old.rest.now) }
    {
        let mut all = Vec::new(self.alloc);
        let head = self.main_statement()?;
        all.push(head)?;
        while self.at_main_statement() {
            let next = self.main_statement()?;
            all.push(next)?;
        }
        Ok(all)
    }

    fn main(&mut self, levels: u8) -> Result<Main, Refusal>
        ensures { Gives main_tree result self.new.rest.now (reading.main_at levels self.old.rest.now) }
    {
        let place = self.word(Word::Procedure)?;
        let name = self.identifier()?;
        let aspect = self.aspect_part(levels)?;
        self.word(Word::Is)?;
        self.word(Word::Begin)?;
        let statements = self.main_statement_list()?;
        self.word(Word::End)?;
        let end_name = self.identifier()?;
        self.mark(Delimiter::Semicolon)?;
        Ok(Main {
            place,
            name,
            aspect,
            statements,
            end_name,
        })
    }

    fn pragma(&mut self) -> Result<Pragma, Refusal>
        ensures { Gives (λ clause. clause) result self.new.rest.now (reading.pragma_at self.old.rest.now) }
    {
        let place = self.word(Word::Pragma)?;
        let name = self.identifier()?;
        self.mark(Delimiter::LeftParenthesis)?;
        let argument = self.identifier()?;
        self.mark(Delimiter::RightParenthesis)?;
        self.mark(Delimiter::Semicolon)?;
        Ok(Pragma {
            place,
            name,
            argument,
        })
    }

    fn pragma_list(&mut self) -> Result<Vec<Pragma>, Refusal>
        ensures { Gives (λ all. all.items) result self.new.rest.now (reading.pragma_list_at self.old.rest.now) }
    {
        let mut all = Vec::new(self.alloc);
        while self.at_word(Word::Pragma) {
            let next = self.pragma()?;
            all.push(next)?;
        }
        Ok(all)
    }

    pub(crate) fn program(&mut self, levels: u8) -> Result<Program, Refusal>
        ensures { Gives program_tree result self.new.rest.now (reading.program_at levels self.old.rest.now) }
    {
        let pragmas = self.pragma_list()?;
        let package_ = self.package_part(levels)?;
        let main = self.main(levels)?;
        Ok(Program {
            pragmas,
            package_,
            main,
        })
    }

    /// No tokens are left.
    pub(crate) fn end(&self) -> Result<(), Refusal>
        ensures { Gives (λ _. tt) result [] (reading.end_at self.now.rest.now) }
    {
        if self.rest.is_empty() {
            return Ok(());
        }
        Err(self.refusal(false))
    }
}
