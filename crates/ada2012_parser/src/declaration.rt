//! Reading declarations.
ghost use Rattle.std.specs.Prelude.{IfOk, OnOk, map};
ghost use Rattle.ada2012_tree.specs.Spans.{MoreTrees, NoTrees, only, trees_of};
ghost use Rattle.ada2012_tree.specs.ExpressionSpans.{identifier_spans};
ghost use Rattle.ada2012_tree.specs.SubtypeSpans.{aspect_spans, component_spans, pragma_spans, specification_spans};
ghost use Rattle.ada2012_tree.specs.DeclarationSpans.{definition_spans, item_spans, use_spans};
ghost use Rattle.ada2012_tree.specs.StatementSpans.{declaration_spans};
ghost use Rattle.ada2012_parser.specs.Reading.{AreReadSince, Reads, ReadsSome, here};

use crate::fault::Stop;
use crate::parser::Parser;
use crate::{Expected, LeftOut};
use ada2012_lexer::Delimiter;
use ada2012_tree::{
    Aspect, Component, Declaration, Form, Identifier, ObjectDeclaration, Pragma,
    ProtectedDeclaration, ProtectedItem, Specification, TaskDeclaration, TypeDeclaration,
    TypeDefinition, UseClause,
};
use lexer::Word;

// Objects, numbers and exceptions.
impl<'a> Parser<'a> {
    /// An exception declaration, whose names were read from this place on.
    #[inline(never)]
    fn exceptions(&mut self, start: u32, names: Vec<Identifier>) -> Result<Declaration, Stop>
        requires { AreReadSince start self.old (trees_of (map identifier_spans names.items)) }
        ensures { IfOk result (λ d. ReadsSome start self.old self.new (only (declaration_spans d))) }
    {
        self.word(Word::Exception)?;
        self.not_renaming()?;
        self.mark(Delimiter::Semicolon)?;
        Ok(Declaration::Exception(self.since(start), names))
    }

    /// `renames` isn't taken.
    pub(crate) fn not_renaming(&self) -> Result<(), Stop> {
        if self.at_word(Word::Renames) {
            return Err(self.left_out(LeftOut::Renaming));
        }
        Ok(())
    }

    /// A number declaration, whose names were read from this place on.
    #[inline(never)]
    fn number(
        &mut self,
        levels: u8,
        start: u32,
        names: Vec<Identifier>,
    ) -> Result<Declaration, Stop>
        requires { AreReadSince start self.old (trees_of (map identifier_spans names.items)) }
        ensures { IfOk result (λ d. ReadsSome start self.old self.new (only (declaration_spans d))) }
    {
        self.mark(Delimiter::Assignment)?;
        let value = self.expression(levels)?;
        self.mark(Delimiter::Semicolon)?;
        Ok(Declaration::Number(self.since(start), names, value))
    }

    /// An object declaration, whose names were read from this place on.
    #[inline(never)]
    fn object(
        &mut self,
        levels: u8,
        start: u32,
        names: Vec<Identifier>,
        constant: bool,
    ) -> Result<Declaration, Stop>
        requires { AreReadSince start self.old (trees_of (map identifier_spans names.items)) }
        ensures { IfOk result (λ d. ReadsSome start self.old self.new (only (declaration_spans d))) }
    {
        let subtype = self.object_subtype(levels)?;
        self.not_renaming()?;
        let value = self.initial_value(levels)?;
        let aspects = self.aspects(levels)?;
        self.mark(Delimiter::Semicolon)?;
        Ok(Declaration::Object(ObjectDeclaration {
            span: self.since(start),
            names,
            constant,
            subtype,
            value,
            aspects,
        }))
    }

    /// A declaration that begins with names.
    #[inline(never)]
    fn named_declaration(&mut self, levels: u8) -> Result<Declaration, Stop>
        ensures { IfOk result (λ d. ReadsSome (here self.old) self.old self.new (only (declaration_spans d))) }
    {
        let start = self.here();
        let names = self.identifiers()?;
        self.mark(Delimiter::Colon)?;
        if self.at_word(Word::Exception) {
            return self.exceptions(start, names);
        }
        self.not_aliased()?;
        let constant = self.passes(Word::Constant)?;
        if constant && self.at_mark(Delimiter::Assignment) {
            return self.number(levels, start, names);
        }
        self.object(levels, start, names, constant)
    }
}

// Types.
impl<'a> Parser<'a> {
    /// The components of a record, up to `end`.
    #[inline(never)]
    fn components(&mut self, levels: u8) -> Result<Vec<Component>, Stop>
        ensures { IfOk result (λ all. Reads (here self.old) self.old self.new (trees_of (map component_spans all.items))) }
    {
        let mut all = Vec::new(self.alloc);
        while self.at_identifier() {
            let next = self.component_declaration(levels)?;
            all.push(next)?;
        }
        Ok(all)
    }

    #[inline(never)]
    fn record(&mut self, levels: u8) -> Result<TypeDefinition, Stop>
        ensures { IfOk result (λ definition. ReadsSome (here self.old) self.old self.new (definition_spans definition)) }
    {
        self.word(Word::Record)?;
        let components = self.components(levels)?;
        if self.at_word(Word::Case) {
            return Err(self.left_out(LeftOut::Variant));
        }
        self.word(Word::End)?;
        self.word(Word::Record)?;
        Ok(TypeDefinition::Record(components))
    }

    #[inline(never)]
    fn null_record(&mut self) -> Result<TypeDefinition, Stop>
        ensures { IfOk result (λ definition. ReadsSome (here self.old) self.old self.new (definition_spans definition)) }
    {
        self.word(Word::Null)?;
        self.word(Word::Record)?;
        Ok(TypeDefinition::Record(Vec::new(self.alloc)))
    }

    #[inline(never)]
    fn enumeration(&mut self) -> Result<TypeDefinition, Stop>
        ensures { IfOk result (λ definition. ReadsSome (here self.old) self.old self.new (definition_spans definition)) }
    {
        self.mark(Delimiter::LeftParenthesis)?;
        let literals = self.identifiers()?;
        self.mark(Delimiter::RightParenthesis)?;
        Ok(TypeDefinition::Enumeration(literals))
    }

    #[inline(never)]
    fn integer_type(&mut self, levels: u8) -> Result<TypeDefinition, Stop>
        ensures { IfOk result (λ definition. ReadsSome (here self.old) self.old self.new (definition_spans definition)) }
    {
        self.word(Word::Range)?;
        let range = self.bounds(levels)?;
        Ok(TypeDefinition::Integer(range))
    }

    #[inline(never)]
    fn modular_type(&mut self, levels: u8) -> Result<TypeDefinition, Stop>
        ensures { IfOk result (λ definition. ReadsSome (here self.old) self.old self.new (definition_spans definition)) }
    {
        self.word(Word::Mod)?;
        let modulus = self.simple(levels)?;
        Ok(TypeDefinition::Modular(modulus))
    }

    #[inline(never)]
    fn array_type(&mut self, levels: u8) -> Result<TypeDefinition, Stop>
        ensures { IfOk result (λ definition. ReadsSome (here self.old) self.old self.new (definition_spans definition)) }
    {
        Ok(TypeDefinition::Array(self.array(levels)?))
    }

    /// Why no definition of a type begins here.
    fn no_type(&self) -> Stop {
        match self.next_word() {
            Some(Word::New) => self.left_out(LeftOut::Derived),
            Some(Word::Access | Word::Not) => self.left_out(LeftOut::Access),
            Some(Word::Digits | Word::Delta) => self.left_out(LeftOut::RealType),
            Some(Word::Tagged | Word::Abstract) => self.left_out(LeftOut::Tagged),
            Some(Word::Limited) => self.left_out(LeftOut::Limited),
            Some(Word::Private) => self.left_out(LeftOut::PrivateType),
            Some(Word::Interface | Word::Synchronized | Word::Task | Word::Protected) => {
                self.left_out(LeftOut::Interface)
            }
            _ => self.unexpected(Expected::Type),
        }
    }

    #[inline(never)]
    fn definition(&mut self, levels: u8) -> Result<TypeDefinition, Stop>
        ensures { IfOk result (λ definition. ReadsSome (here self.old) self.old self.new (definition_spans definition)) }
    {
        match self.next_word() {
            Some(Word::Range) => self.integer_type(levels),
            Some(Word::Mod) => self.modular_type(levels),
            Some(Word::Array) => self.array_type(levels),
            Some(Word::Record) => self.record(levels),
            Some(Word::Null) => self.null_record(),
            None if self.at_mark(Delimiter::LeftParenthesis) => self.enumeration(),
            _ => Err(self.no_type()),
        }
    }

    #[inline(never)]
    fn type_declaration(&mut self, levels: u8) -> Result<Declaration, Stop>
        ensures { IfOk result (λ d. ReadsSome (here self.old) self.old self.new (only (declaration_spans d))) }
    {
        let start = self.here();
        self.word(Word::Type)?;
        let name = self.identifier()?;
        let discriminants = self.formals(levels)?;
        self.word(Word::Is)?;
        let definition = self.definition(levels)?;
        let aspects = self.aspects(levels)?;
        self.mark(Delimiter::Semicolon)?;
        Ok(Declaration::Type(TypeDeclaration {
            span: self.since(start),
            name,
            discriminants,
            definition,
            aspects,
        }))
    }

    #[inline(never)]
    fn subtype(&mut self, levels: u8) -> Result<Declaration, Stop>
        ensures { IfOk result (λ d. ReadsSome (here self.old) self.old self.new (only (declaration_spans d))) }
    {
        let start = self.here();
        self.word(Word::Subtype)?;
        let name = self.identifier()?;
        self.word(Word::Is)?;
        let subtype = self.indication(levels)?;
        let aspects = self.aspects(levels)?;
        self.mark(Delimiter::Semicolon)?;
        Ok(Declaration::Subtype(self.since(start), name, subtype, aspects))
    }
}

// Tasks and protected objects.
impl<'a> Parser<'a> {
    fn form(&mut self) -> Result<Form, Stop>
        ensures { OnOk result (Reads (here self.old) self.old self.new NoTrees) }
    {
        let of_type = self.passes(Word::Type)?;
        Ok(if of_type { Form::Type } else { Form::Single })
    }

    /// Pragmas, as long as there are any.
    #[inline(never)]
    fn pragmas(&mut self, levels: u8) -> Result<Vec<Pragma>, Stop>
        ensures { IfOk result (λ all. Reads (here self.old) self.old self.new (trees_of (map pragma_spans all.items))) }
    {
        let mut all = Vec::new(self.alloc);
        while self.at_word(Word::Pragma) {
            let next = self.pragma(levels)?;
            all.push(next)?;
        }
        Ok(all)
    }

    /// What isn't taken at the start of the definition of a task, or after its pragmas.
    fn no_more_of_task(&self) -> Result<(), Stop> {
        match self.next_word() {
            Some(Word::Entry) => Err(self.left_out(LeftOut::TaskEntry)),
            Some(Word::New) => Err(self.left_out(LeftOut::Interface)),
            Some(Word::For) => Err(self.left_out(LeftOut::RepresentationClause)),
            _ => Ok(()),
        }
    }

    /// `is`, pragmas and `end`, if they are there.
    #[inline(never)]
    fn task_definition(&mut self, levels: u8) -> Result<Vec<Pragma>, Stop>
        ensures { IfOk result (λ all. Reads (here self.old) self.old self.new (trees_of (map pragma_spans all.items))) }
    {
        if !self.at_word(Word::Is) {
            return Ok(Vec::new(self.alloc));
        }
        self.word(Word::Is)?;
        let all = self.pragmas(levels)?;
        self.no_more_of_task()?;
        self.word(Word::End)?;
        self.end_name()?;
        Ok(all)
    }

    /// A task declaration, of which `task` was read from this place on.
    #[inline(never)]
    fn task_declaration(&mut self, levels: u8, start: u32) -> Result<Declaration, Stop>
        requires { AreReadSince start self.old NoTrees }
        ensures { IfOk result (λ d. ReadsSome start self.old self.new (only (declaration_spans d))) }
    {
        let form = self.form()?;
        let name = self.identifier()?;
        let discriminants = self.formals(levels)?;
        let aspects = self.aspects(levels)?;
        let pragmas = self.task_definition(levels)?;
        self.mark(Delimiter::Semicolon)?;
        Ok(Declaration::Task(TaskDeclaration {
            span: self.since(start),
            form,
            name,
            discriminants,
            aspects,
            pragmas,
        }))
    }

    #[inline(never)]
    fn operation(&mut self, levels: u8) -> Result<ProtectedItem, Stop>
        ensures { IfOk result (λ item. ReadsSome (here self.old) self.old self.new (only (item_spans item))) }
    {
        let start = self.here();
        let specification = self.specification(levels)?;
        let aspects = self.aspects(levels)?;
        self.mark(Delimiter::Semicolon)?;
        Ok(ProtectedItem::Subprogram(self.since(start), specification, aspects))
    }

    #[inline(never)]
    fn entry(&mut self, levels: u8) -> Result<ProtectedItem, Stop>
        ensures { IfOk result (λ item. ReadsSome (here self.old) self.old self.new (only (item_spans item))) }
    {
        let start = self.here();
        self.word(Word::Entry)?;
        let name = self.identifier()?;
        let formals = self.formals(levels)?;
        let aspects = self.aspects(levels)?;
        self.mark(Delimiter::Semicolon)?;
        Ok(ProtectedItem::Entry(self.since(start), name, formals, aspects))
    }

    /// What a protected object declares.
    fn protected_item(&mut self, levels: u8) -> Result<ProtectedItem, Stop>
        ensures { IfOk result (λ item. ReadsSome (here self.old) self.old self.new (only (item_spans item))) }
    {
        match self.next_word() {
            Some(Word::Procedure | Word::Function) => self.operation(levels),
            Some(Word::Entry) => self.entry(levels),
            Some(Word::Pragma) => Ok(ProtectedItem::Pragma(self.pragma(levels)?)),
            None => Ok(ProtectedItem::Component(self.component_declaration(levels)?)),
            Some(_) => Err(self.no_declaration()),
        }
    }

    /// What a protected object declares, up to `private` or `end`.
    #[inline(never)]
    fn protected_items(&mut self, levels: u8) -> Result<Vec<ProtectedItem>, Stop>
        ensures { IfOk result (λ all. Reads (here self.old) self.old self.new (trees_of (map item_spans all.items))) }
    {
        let mut all = Vec::new(self.alloc);
        while !self.at_word(Word::End) && !self.at_word(Word::Private) {
            let next = self.protected_item(levels)?;
            all.push(next)?;
        }
        Ok(all)
    }

    /// `private` and what follows it, if it is there.
    #[inline(never)]
    fn protected_private(&mut self, levels: u8) -> Result<Vec<ProtectedItem>, Stop>
        ensures { IfOk result (λ all. Reads (here self.old) self.old self.new (trees_of (map item_spans all.items))) }
    {
        if !self.at_word(Word::Private) {
            return Ok(Vec::new(self.alloc));
        }
        self.word(Word::Private)?;
        self.protected_items(levels)
    }

    /// A protected declaration, of which `protected` was read from this place on.
    #[inline(never)]
    fn protected_declaration(&mut self, levels: u8, start: u32) -> Result<Declaration, Stop>
        requires { AreReadSince start self.old NoTrees }
        ensures { IfOk result (λ d. ReadsSome start self.old self.new (only (declaration_spans d))) }
    {
        let form = self.form()?;
        let name = self.identifier()?;
        let discriminants = self.formals(levels)?;
        let aspects = self.aspects(levels)?;
        self.word(Word::Is)?;
        let visible = self.protected_items(levels)?;
        let hidden = self.protected_private(levels)?;
        self.word(Word::End)?;
        self.end_name()?;
        self.mark(Delimiter::Semicolon)?;
        Ok(Declaration::Protected(ProtectedDeclaration {
            span: self.since(start),
            form,
            name,
            discriminants,
            aspects,
            visible,
            hidden,
        }))
    }
}

// Declarations that hold none.
impl<'a> Parser<'a> {
    #[inline(never)]
    pub(crate) fn use_clause(&mut self, levels: u8) -> Result<UseClause, Stop>
        ensures { IfOk result (λ clause. ReadsSome (here self.old) self.old self.new (only (use_spans clause))) }
    {
        let start = self.here();
        self.word(Word::Use)?;
        self.passes(Word::All)?;
        let types = self.passes(Word::Type)?;
        let names = self.names(levels)?;
        self.mark(Delimiter::Semicolon)?;
        Ok(UseClause {
            span: self.since(start),
            types,
            names,
        })
    }

    /// Why no declaration begins here.
    pub(crate) fn no_declaration(&self) -> Stop {
        match self.next_word() {
            Some(Word::For) => self.left_out(LeftOut::RepresentationClause),
            Some(Word::Package) => self.left_out(LeftOut::NestedPackage),
            Some(Word::Generic) => self.left_out(LeftOut::Generic),
            Some(Word::Not | Word::Overriding) => self.left_out(LeftOut::Overriding),
            _ => self.unexpected(Expected::Declaration),
        }
    }

    /// A declaration that holds no other.
    #[inline(never)]
    fn simple_declaration(&mut self, levels: u8) -> Result<Declaration, Stop>
        ensures { IfOk result (λ d. ReadsSome (here self.old) self.old self.new (only (declaration_spans d))) }
    {
        match self.next_word() {
            Some(Word::Type) => self.type_declaration(levels),
            Some(Word::Subtype) => self.subtype(levels),
            Some(Word::Use) => Ok(Declaration::Use(self.use_clause(levels)?)),
            Some(Word::Pragma) => Ok(Declaration::Pragma(self.pragma(levels)?)),
            None if self.at_identifier() => self.named_declaration(levels),
            _ => Err(self.no_declaration()),
        }
    }

    /// A null procedure, of which the specification was read from this place on.
    #[inline(never)]
    fn null_procedure(
        &mut self,
        levels: u8,
        start: u32,
        specification: Specification,
    ) -> Result<Declaration, Stop>
        requires { AreReadSince start self.old (only (specification_spans specification)) }
        ensures { IfOk result (λ d. ReadsSome start self.old self.new (only (declaration_spans d))) }
    {
        self.word(Word::Null)?;
        let aspects = self.aspects(levels)?;
        self.mark(Delimiter::Semicolon)?;
        Ok(Declaration::NullProcedure(self.since(start), specification, aspects))
    }

    /// A function by an expression, of which the specification was read from this place on.
    #[inline(never)]
    fn expression_function(
        &mut self,
        levels: u8,
        start: u32,
        specification: Specification,
    ) -> Result<Declaration, Stop>
        requires { AreReadSince start self.old (only (specification_spans specification)) }
        ensures { IfOk result (λ d. ReadsSome start self.old self.new (only (declaration_spans d))) }
    {
        let value = self.parenthesis(levels)?;
        let aspects = self.aspects(levels)?;
        self.mark(Delimiter::Semicolon)?;
        Ok(Declaration::ExpressionFunction(self.since(start), specification, value, aspects))
    }
}

// Bodies, and declarations that may be bodies.
impl<'a> Parser<'a> {
    /// The body of a subprogram, of which this was read from this place on, and `is`.
    #[cycle(statement)]
    #[inline(never)]
    fn subprogram_body(
        &mut self,
        levels: u8,
        start: u32,
        specification: Specification,
        aspects: Vec<Aspect>,
    ) -> Result<Declaration, Stop>
        requires { AreReadSince start self.old (MoreTrees (specification_spans specification) (trees_of (map aspect_spans aspects.items))) }
        ensures { IfOk result (λ d. ReadsSome start self.old self.new (only (declaration_spans d))) }
    {
        let inside = self.open(levels)?;
        let body = self.body(inside, true)?;
        self.end_name()?;
        self.mark(Delimiter::Semicolon)?;
        Ok(Declaration::subprogram_body(self.since(start), specification, aspects, body))
    }

    /// What follows the `is` of a subprogram, of which this was read from this place on.
    #[cycle(statement)]
    fn completed(
        &mut self,
        levels: u8,
        start: u32,
        specification: Specification,
        aspects: Vec<Aspect>,
    ) -> Result<Declaration, Stop>
        requires { AreReadSince start self.old (MoreTrees (specification_spans specification) (trees_of (map aspect_spans aspects.items))) }
        ensures { IfOk result (λ d. ReadsSome start self.old self.new (only (declaration_spans d))) }
    {
        self.word(Word::Is)?;
        match self.next_word() {
            Some(Word::Separate) => Err(self.left_out(LeftOut::Separate)),
            Some(Word::Abstract) => Err(self.left_out(LeftOut::Tagged)),
            Some(Word::New) => Err(self.left_out(LeftOut::Generic)),
            Some(Word::Null) if aspects.is_empty() => {
                self.null_procedure(levels, start, specification)
            }
            None if aspects.is_empty() && self.at_mark(Delimiter::LeftParenthesis) => {
                self.expression_function(levels, start, specification)
            }
            _ => self.subprogram_body(levels, start, specification, aspects),
        }
    }

    /// The declaration or the body of a subprogram.
    #[cycle(statement)]
    #[inline(never)]
    fn subprogram(&mut self, levels: u8) -> Result<Declaration, Stop>
        ensures { IfOk result (λ d. ReadsSome (here self.old) self.old self.new (only (declaration_spans d))) }
    {
        let start = self.here();
        let specification = self.specification(levels)?;
        self.not_renaming()?;
        let aspects = self.aspects(levels)?;
        if !self.at_mark(Delimiter::Semicolon) {
            return self.completed(levels, start, specification, aspects);
        }
        self.mark(Delimiter::Semicolon)?;
        Ok(Declaration::Subprogram(self.since(start), specification, aspects))
    }

    /// A task body, of which `task` was read from this place on.
    #[cycle(statement)]
    #[inline(never)]
    fn task_body(&mut self, levels: u8, start: u32) -> Result<Declaration, Stop>
        requires { AreReadSince start self.old NoTrees }
        ensures { IfOk result (λ d. ReadsSome start self.old self.new (only (declaration_spans d))) }
    {
        let inside = self.open(levels)?;
        self.word(Word::Body)?;
        let name = self.identifier()?;
        self.word(Word::Is)?;
        self.not_separate()?;
        let body = self.body(inside, true)?;
        self.end_name()?;
        self.mark(Delimiter::Semicolon)?;
        Ok(Declaration::task_body(self.since(start), name, body))
    }

    /// `separate` isn't taken.
    pub(crate) fn not_separate(&self) -> Result<(), Stop> {
        if self.at_word(Word::Separate) {
            return Err(self.left_out(LeftOut::Separate));
        }
        Ok(())
    }

    /// A task declaration or a task body.
    #[cycle(statement)]
    fn task(&mut self, levels: u8) -> Result<Declaration, Stop>
        ensures { IfOk result (λ d. ReadsSome (here self.old) self.old self.new (only (declaration_spans d))) }
    {
        let start = self.here();
        self.word(Word::Task)?;
        if self.at_word(Word::Body) {
            return self.task_body(levels, start);
        }
        self.task_declaration(levels, start)
    }

    /// The body of an entry.
    #[cycle(statement)]
    #[inline(never)]
    fn entry_body(&mut self, levels: u8) -> Result<Declaration, Stop>
        ensures { IfOk result (λ d. ReadsSome (here self.old) self.old self.new (only (declaration_spans d))) }
    {
        let start = self.here();
        let inside = self.open(levels)?;
        self.word(Word::Entry)?;
        let name = self.identifier()?;
        let formals = self.formals(levels)?;
        self.word(Word::When)?;
        let barrier = self.expression(levels)?;
        self.word(Word::Is)?;
        let body = self.body(inside, true)?;
        self.end_name()?;
        self.mark(Delimiter::Semicolon)?;
        Ok(Declaration::entry_body(self.since(start), name, formals, barrier, body))
    }

    /// One of the bodies in a protected body.
    #[cycle(statement)]
    fn protected_body_item(&mut self, levels: u8) -> Result<Declaration, Stop>
        ensures { IfOk result (λ d. ReadsSome (here self.old) self.old self.new (only (declaration_spans d))) }
    {
        match self.next_word() {
            Some(Word::Procedure | Word::Function) => self.subprogram(levels),
            Some(Word::Entry) => self.entry_body(levels),
            Some(Word::Pragma) => Ok(Declaration::Pragma(self.pragma(levels)?)),
            _ => Err(self.no_declaration()),
        }
    }

    /// The bodies in a protected body, up to `end`.
    #[cycle(statement)]
    #[inline(never)]
    fn protected_body_items(&mut self, levels: u8) -> Result<Vec<Declaration>, Stop>
        ensures { IfOk result (λ all. Reads (here self.old) self.old self.new (trees_of (map declaration_spans all.items))) }
    {
        let mut all = Vec::new(self.alloc);
        while !self.at_word(Word::End) {
            let next = self.protected_body_item(levels)?;
            all.push(next)?;
        }
        Ok(all)
    }

    /// A protected body, of which `protected` was read from this place on.
    #[cycle(statement)]
    #[inline(never)]
    fn protected_body(&mut self, levels: u8, start: u32) -> Result<Declaration, Stop>
        requires { AreReadSince start self.old NoTrees }
        ensures { IfOk result (λ d. ReadsSome start self.old self.new (only (declaration_spans d))) }
    {
        let inside = self.open(levels)?;
        self.word(Word::Body)?;
        let name = self.identifier()?;
        self.word(Word::Is)?;
        self.not_separate()?;
        let items = self.protected_body_items(inside)?;
        self.word(Word::End)?;
        self.end_name()?;
        self.mark(Delimiter::Semicolon)?;
        Ok(Declaration::protected_body(self.since(start), name, items))
    }

    /// A protected declaration or a protected body.
    #[cycle(statement)]
    fn protected(&mut self, levels: u8) -> Result<Declaration, Stop>
        ensures { IfOk result (λ d. ReadsSome (here self.old) self.old self.new (only (declaration_spans d))) }
    {
        let start = self.here();
        self.word(Word::Protected)?;
        if self.at_word(Word::Body) {
            return self.protected_body(levels, start);
        }
        self.protected_declaration(levels, start)
    }

    #[cycle(statement)]
    fn declaration(&mut self, levels: u8) -> Result<Declaration, Stop>
        ensures { IfOk result (λ d. ReadsSome (here self.old) self.old self.new (only (declaration_spans d))) }
    {
        match self.next_word() {
            Some(Word::Procedure | Word::Function) => self.subprogram(levels),
            Some(Word::Task) => self.task(levels),
            Some(Word::Protected) => self.protected(levels),
            _ => self.simple_declaration(levels),
        }
    }

    /// Does what comes next end a list of declarations?
    fn at_declarations_end(&self) -> bool {
        matches!(
            self.next_word(),
            Some(Word::Begin | Word::End | Word::Private)
        )
    }

    /// Declarations, up to `begin`, `private` or `end`.
    #[cycle(statement)]
    #[inline(never)]
    pub(crate) fn declarations(&mut self, levels: u8) -> Result<Vec<Declaration>, Stop>
        ensures { IfOk result (λ all. Reads (here self.old) self.old self.new (trees_of (map declaration_spans all.items))) }
    {
        let mut all = Vec::new(self.alloc);
        while !self.at_declarations_end() {
            let next = self.declaration(levels)?;
            all.push(next)?;
        }
        Ok(all)
    }
}
