//! What a tree is made of, in lists.

use ada2012_tree::{
    Alternative, ArrayDefinition, Aspect, Association, Body, Branch, Choice, Clause, Component,
    Condition, Declaration, DiscreteRange, ExceptionChoice, Expr, ExprKind, Formal, Handler,
    Iteration, Name, ObjectDeclaration, ObjectSubtype, Operand, Package, PackageBody, Pragma,
    Program, ProtectedDeclaration, ProtectedItem, Range, Selector, Specification, Statement,
    SubtypeIndication, TaskDeclaration, TypeDeclaration, TypeDefinition, Unit, UnitItem,
    UnitSubprogram,
};
use std::alloc::{AllocError, Global};

/// The parts of a tree. Each list is in the order of the text, and what is around a part is before it.
#[derive(Drop)]
pub struct Parts<'a> {
    /// All declarations and bodies: those of packages, of bodies, of blocks, and the bodies in those of protected objects.
    pub declarations: Vec<&'a Declaration>,
    /// Specifications of subprograms, those of bodies, of protected objects and of units among them.
    pub specifications: Vec<&'a Specification>,
    /// Formal parameters and discriminants.
    pub formals: Vec<&'a Formal>,
    /// Components of records and of protected objects.
    pub components: Vec<&'a Component>,
    /// What protected objects declare, their components too.
    pub protected_items: Vec<&'a ProtectedItem>,
    /// Array types, those without names too.
    pub arrays: Vec<&'a ArrayDefinition>,
    pub statements: Vec<&'a Statement>,
    pub handlers: Vec<&'a Handler>,
    /// All expressions, and those that are parts of others.
    pub expressions: Vec<&'a Expr>,
    /// All names, those that are expressions, and those of subtypes, of exceptions, of what is called, and of units.
    pub names: Vec<&'a Name>,
    /// Subtypes as they are written, with their ranges.
    pub indications: Vec<&'a SubtypeIndication>,
    /// Ranges of loops and of indexes.
    pub discrete_ranges: Vec<&'a DiscreteRange>,
    /// The aspects of each declaration that has any.
    pub aspect_lists: Vec<&'a [Aspect]>,
}

impl<'a> Parts<'a> {
    fn new(alloc: Global) -> Parts<'a> {
        Parts {
            declarations: Vec::new(alloc),
            specifications: Vec::new(alloc),
            formals: Vec::new(alloc),
            components: Vec::new(alloc),
            protected_items: Vec::new(alloc),
            arrays: Vec::new(alloc),
            statements: Vec::new(alloc),
            handlers: Vec::new(alloc),
            expressions: Vec::new(alloc),
            names: Vec::new(alloc),
            indications: Vec::new(alloc),
            discrete_ranges: Vec::new(alloc),
            aspect_lists: Vec::new(alloc),
        }
    }

    #[cycle(expression)]
    fn range(&mut self, range: &'a Range) -> Result<(), AllocError> {
        self.expression(&range.first)?;
        self.expression(&range.last)
    }

    #[cycle(expression)]
    fn choice(&mut self, choice: &'a Choice) -> Result<(), AllocError> {
        match choice {
            Choice::Value(value) => self.expression(value),
            Choice::Range(range) => self.range(range),
            Choice::Others(_) => Ok(()),
        }
    }

    #[cycle(expression)]
    fn choices(&mut self, choices: &'a [Choice]) -> Result<(), AllocError> {
        for choice in choices {
            self.choice(choice)?;
        }
        Ok(())
    }

    #[cycle(expression)]
    fn associations(&mut self, associations: &'a [Association]) -> Result<(), AllocError> {
        for association in associations {
            self.choices(&association.choices)?;
            self.expression(&association.value)?;
        }
        Ok(())
    }

    #[cycle(expression)]
    fn conditions(&mut self, conditions: &'a [Condition]) -> Result<(), AllocError> {
        for condition in conditions {
            self.expression(&condition.condition)?;
            self.expression(&condition.value)?;
        }
        Ok(())
    }

    #[cycle(expression)]
    fn operands(&mut self, operands: &'a [Operand]) -> Result<(), AllocError> {
        for operand in operands {
            self.expression(&operand.value)?;
        }
        Ok(())
    }

    #[cycle(expression)]
    fn name(&mut self, name: &'a Name) -> Result<(), AllocError> {
        self.names.push(name)?;
        for selector in name.selectors.as_slice() {
            match selector {
                Selector::Component(_, _) => {}
                Selector::Arguments(_, arguments) => self.associations(arguments)?,
                Selector::Attribute(_, _) => {}
                Selector::Qualified(_, operand) => self.expression(operand)?,
            }
        }
        Ok(())
    }

    #[cycle(expression)]
    fn kind(&mut self, kind: &'a ExprKind) -> Result<(), AllocError> {
        match kind {
            ExprKind::Name(name) => self.name(name),
            ExprKind::Parenthesized(inner) => self.expression(inner),
            ExprKind::Aggregate(associations) => self.associations(associations),
            ExprKind::Conditional(conditions, other) => {
                self.conditions(conditions)?;
                self.expression(other)
            }
            ExprKind::Unary(_, operand) => self.expression(operand),
            ExprKind::Chain(first, operands) => {
                self.expression(first)?;
                self.operands(operands)
            }
            ExprKind::Membership(value, _, choices) => {
                self.expression(value)?;
                self.choices(choices)
            }
            _ => Ok(()),
        }
    }

    #[cycle(expression)]
    fn expression(&mut self, e: &'a Expr) -> Result<(), AllocError> {
        self.expressions.push(e)?;
        self.kind(&e.kind)
    }

    fn optional(&mut self, e: &'a Option<Expr>) -> Result<(), AllocError> {
        match e {
            Some(e) => self.expression(e),
            None => Ok(()),
        }
    }

    fn optional_name(&mut self, name: &'a Option<Name>) -> Result<(), AllocError> {
        match name {
            Some(name) => self.name(name),
            None => Ok(()),
        }
    }

    fn all_names(&mut self, names: &'a [Name]) -> Result<(), AllocError> {
        for name in names {
            self.name(name)?;
        }
        Ok(())
    }

    fn pragma(&mut self, pragma: &'a Pragma) -> Result<(), AllocError> {
        self.associations(&pragma.arguments)
    }

    fn aspects(&mut self, aspects: &'a [Aspect]) -> Result<(), AllocError> {
        if !aspects.is_empty() {
            self.aspect_lists.push(aspects)?;
        }
        for aspect in aspects {
            self.optional(&aspect.value)?;
        }
        Ok(())
    }

    fn discrete_range(&mut self, range: &'a DiscreteRange) -> Result<(), AllocError> {
        self.discrete_ranges.push(range)?;
        match range {
            DiscreteRange::Bounds(range) => self.range(range),
            DiscreteRange::Name(name) => self.expression(name),
            DiscreteRange::Constrained(_, name, range) => {
                self.expression(name)?;
                self.range(range)
            }
        }
    }

    fn indication(&mut self, indication: &'a SubtypeIndication) -> Result<(), AllocError> {
        self.indications.push(indication)?;
        self.name(&indication.name)?;
        match &indication.range {
            Some(range) => self.range(range),
            None => Ok(()),
        }
    }

    fn array(&mut self, array: &'a ArrayDefinition) -> Result<(), AllocError> {
        self.arrays.push(array)?;
        for index in array.indexes.as_slice() {
            self.discrete_range(index)?;
        }
        self.indication(&array.component)
    }

    fn object_subtype(&mut self, subtype: &'a ObjectSubtype) -> Result<(), AllocError> {
        match subtype {
            ObjectSubtype::Subtype(indication) => self.indication(indication),
            ObjectSubtype::Array(array) => self.array(array),
        }
    }

    fn component(&mut self, component: &'a Component) -> Result<(), AllocError> {
        self.components.push(component)?;
        self.object_subtype(&component.subtype)?;
        self.optional(&component.value)?;
        self.aspects(&component.aspects)
    }

    fn all_components(&mut self, components: &'a [Component]) -> Result<(), AllocError> {
        for component in components {
            self.component(component)?;
        }
        Ok(())
    }

    fn all_formals(&mut self, formals: &'a [Formal]) -> Result<(), AllocError> {
        for formal in formals {
            self.formals.push(formal)?;
            self.name(&formal.subtype)?;
            self.optional(&formal.default)?;
        }
        Ok(())
    }

    fn specification(&mut self, specification: &'a Specification) -> Result<(), AllocError> {
        self.specifications.push(specification)?;
        self.all_formals(&specification.formals)?;
        self.optional_name(&specification.result)
    }

    fn object(&mut self, object: &'a ObjectDeclaration) -> Result<(), AllocError> {
        self.object_subtype(&object.subtype)?;
        self.optional(&object.value)?;
        self.aspects(&object.aspects)
    }

    fn definition(&mut self, definition: &'a TypeDefinition) -> Result<(), AllocError> {
        match definition {
            TypeDefinition::Enumeration(_) => Ok(()),
            TypeDefinition::Integer(range) => self.range(range),
            TypeDefinition::Modular(modulus) => self.expression(modulus),
            TypeDefinition::Array(array) => self.array(array),
            TypeDefinition::Record(components) => self.all_components(components),
        }
    }

    fn type_declaration(&mut self, own: &'a TypeDeclaration) -> Result<(), AllocError> {
        self.all_formals(&own.discriminants)?;
        self.definition(&own.definition)?;
        self.aspects(&own.aspects)
    }

    fn task(&mut self, task: &'a TaskDeclaration) -> Result<(), AllocError> {
        self.all_formals(&task.discriminants)?;
        self.aspects(&task.aspects)?;
        for pragma in task.pragmas.as_slice() {
            self.pragma(pragma)?;
        }
        Ok(())
    }

    fn protected_item(&mut self, item: &'a ProtectedItem) -> Result<(), AllocError> {
        self.protected_items.push(item)?;
        match item {
            ProtectedItem::Subprogram(_, specification, aspects) => {
                self.specification(specification)?;
                self.aspects(aspects)
            }
            ProtectedItem::Entry(_, _, formals, aspects) => {
                self.all_formals(formals)?;
                self.aspects(aspects)
            }
            ProtectedItem::Component(component) => self.component(component),
            ProtectedItem::Pragma(pragma) => self.pragma(pragma),
        }
    }

    fn protected(&mut self, object: &'a ProtectedDeclaration) -> Result<(), AllocError> {
        self.all_formals(&object.discriminants)?;
        self.aspects(&object.aspects)?;
        for item in object.visible.as_slice() {
            self.protected_item(item)?;
        }
        for item in object.hidden.as_slice() {
            self.protected_item(item)?;
        }
        Ok(())
    }

    // The parts of a declaration that has neither declarations nor statements in it.
    fn simple(&mut self, declaration: &'a Declaration) -> Result<(), AllocError> {
        match declaration {
            Declaration::Object(object) => self.object(object),
            Declaration::Number(_, _, value) => self.expression(value),
            Declaration::Type(own) => self.type_declaration(own),
            Declaration::Subtype(_, _, indication, aspects) => {
                self.indication(indication)?;
                self.aspects(aspects)
            }
            Declaration::Subprogram(_, specification, aspects)
            | Declaration::NullProcedure(_, specification, aspects) => {
                self.specification(specification)?;
                self.aspects(aspects)
            }
            Declaration::ExpressionFunction(_, specification, value, aspects) => {
                self.specification(specification)?;
                self.expression(value)?;
                self.aspects(aspects)
            }
            Declaration::Task(task) => self.task(task),
            Declaration::Protected(object) => self.protected(object),
            Declaration::Use(clause) => self.all_names(&clause.names),
            Declaration::Pragma(pragma) => self.pragma(pragma),
            _ => Ok(()),
        }
    }

    #[cycle(statement)]
    fn declaration(&mut self, declaration: &'a Declaration) -> Result<(), AllocError> {
        self.declarations.push(declaration)?;
        match declaration {
            Declaration::SubprogramBody(_, specification, aspects, body) => {
                self.specification(specification)?;
                self.aspects(aspects)?;
                self.body(body)
            }
            Declaration::TaskBody(_, _, body) => self.body(body),
            Declaration::ProtectedBody(_, _, items) => self.all_declarations(items),
            Declaration::EntryBody(_, _, formals, barrier, body) => {
                self.all_formals(formals)?;
                self.expression(barrier)?;
                self.body(body)
            }
            _ => self.simple(declaration),
        }
    }

    #[cycle(statement)]
    fn all_declarations(&mut self, declarations: &'a [Declaration]) -> Result<(), AllocError> {
        for declaration in declarations {
            self.declaration(declaration)?;
        }
        Ok(())
    }

    #[cycle(statement)]
    fn branches(&mut self, branches: &'a [Branch]) -> Result<(), AllocError> {
        for branch in branches {
            self.expression(&branch.condition)?;
            self.all_statements(&branch.statements)?;
        }
        Ok(())
    }

    #[cycle(statement)]
    fn alternatives(&mut self, alternatives: &'a [Alternative]) -> Result<(), AllocError> {
        for alternative in alternatives {
            self.choices(&alternative.choices)?;
            self.all_statements(&alternative.statements)?;
        }
        Ok(())
    }

    fn iteration(&mut self, iteration: &'a Iteration) -> Result<(), AllocError> {
        match iteration {
            Iteration::Forever => Ok(()),
            Iteration::While(condition) => self.expression(condition),
            Iteration::For(_, _, range) => self.discrete_range(range),
            Iteration::Of(_, array) => self.name(array),
        }
    }

    // The parts of a statement that has no statements in it.
    fn simple_statement(&mut self, statement: &'a Statement) -> Result<(), AllocError> {
        match statement {
            Statement::Assignment(_, target, value) => {
                self.name(target)?;
                self.expression(value)
            }
            Statement::Call(_, name) => self.name(name),
            Statement::Return(_, value) => self.optional(value),
            Statement::Exit(_, _, condition) => self.optional(condition),
            Statement::Raise(_, name, message) => {
                self.optional_name(name)?;
                self.optional(message)
            }
            Statement::Delay(_, value) | Statement::DelayUntil(_, value) => self.expression(value),
            Statement::Pragma(pragma) => self.pragma(pragma),
            _ => Ok(()),
        }
    }

    #[cycle(statement)]
    fn statement(&mut self, statement: &'a Statement) -> Result<(), AllocError> {
        self.statements.push(statement)?;
        match statement {
            Statement::If(_, branches, other) => {
                self.branches(branches)?;
                self.all_statements(other)
            }
            Statement::Case(_, value, alternatives) => {
                self.expression(value)?;
                self.alternatives(alternatives)
            }
            Statement::Loop(_, _, iteration, statements) => {
                self.iteration(iteration)?;
                self.all_statements(statements)
            }
            Statement::Block(_, _, body) => self.body(body),
            _ => self.simple_statement(statement),
        }
    }

    #[cycle(statement)]
    fn all_statements(&mut self, statements: &'a [Statement]) -> Result<(), AllocError> {
        for statement in statements {
            self.statement(statement)?;
        }
        Ok(())
    }

    #[cycle(statement)]
    fn all_handlers(&mut self, handlers: &'a [Handler]) -> Result<(), AllocError> {
        for handler in handlers {
            self.handlers.push(handler)?;
            for choice in handler.choices.as_slice() {
                if let ExceptionChoice::Name(name) = choice {
                    self.name(name)?;
                }
            }
            self.all_statements(&handler.statements)?;
        }
        Ok(())
    }

    #[cycle(statement)]
    fn body(&mut self, body: &'a Body) -> Result<(), AllocError> {
        self.all_declarations(&body.declarations)?;
        self.all_statements(&body.statements)?;
        self.all_handlers(&body.handlers)
    }

    fn package(&mut self, package: &'a Package) -> Result<(), AllocError> {
        self.name(&package.name)?;
        self.aspects(&package.aspects)?;
        self.all_declarations(&package.visible)?;
        self.all_declarations(&package.hidden)
    }

    fn package_body(&mut self, package: &'a PackageBody) -> Result<(), AllocError> {
        self.name(&package.name)?;
        self.aspects(&package.aspects)?;
        self.body(&package.body)
    }

    fn unit_subprogram(&mut self, unit: &'a UnitSubprogram) -> Result<(), AllocError> {
        self.specification(&unit.specification)?;
        self.aspects(&unit.aspects)?;
        self.body(&unit.body)
    }

    fn clauses(&mut self, clauses: &'a [Clause]) -> Result<(), AllocError> {
        for clause in clauses {
            match clause {
                Clause::With(_, names) => self.all_names(names)?,
                Clause::Use(own) => self.all_names(&own.names)?,
                Clause::Pragma(pragma) => self.pragma(pragma)?,
            }
        }
        Ok(())
    }

    fn unit(&mut self, unit: &'a Unit) -> Result<(), AllocError> {
        self.clauses(&unit.clauses)?;
        match &unit.item {
            UnitItem::Package(package) => self.package(package),
            UnitItem::PackageBody(package) => self.package_body(package),
            UnitItem::Subprogram(unit) => self.unit_subprogram(unit),
        }
    }

    /// The parts of a whole text.
    pub fn of(alloc: Global, program: &'a Program) -> Result<Parts<'a>, AllocError> {
        let mut parts = Parts::new(alloc);
        for unit in program.units.as_slice() {
            parts.unit(unit)?;
        }
        Ok(parts)
    }
}
