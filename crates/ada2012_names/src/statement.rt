//! Statements, bodies, and declarations that hold statements (RM 5, 6.3, 7.2, 9, 11.2).

use crate::entity::{EntityId, EntityKind};
use crate::predefined::Predefined;
use crate::resolver::{Around, Resolver};
use ada2012_tree::{
    Alternative, Aspect, Body, Branch, Declaration, ExceptionChoice, Expr, Formal, Handler,
    Identifier, Iteration, Name, Specification, Statement,
};
use std::alloc::AllocError;

impl Resolver {
    // Resolves a name, if there is one.
    fn optional_name(&mut self, name: Option<&Name>) -> Result<(), AllocError> {
        if let Some(name) = name {
            self.name(name, None)?;
        }
        Ok(())
    }

    fn assignment(&mut self, target: &Name, value: &Expr) -> Result<(), AllocError> {
        let part = self.name(target, None)?;
        let expected = self.names.subtype_of_part(part);
        self.expression(value, expected)?;
        Ok(())
    }

    fn exit(
        &mut self,
        name: Option<&Identifier>,
        condition: Option<&Expr>,
    ) -> Result<(), AllocError> {
        if let Some(name) = name {
            self.resolve(name, None)?;
        }
        let boolean = self.predefined(Predefined::Boolean);
        self.optional_expression(condition, boolean)
    }

    // Resolves a statement without statements in it.
    fn simple(&mut self, statement: &Statement) -> Result<(), AllocError> {
        match statement {
            Statement::Assignment(_, target, value) => self.assignment(target, value),
            Statement::Call(_, name) => self.optional_name(Some(name)),
            Statement::Return(_, value) => {
                self.optional_expression(value.as_ref(), self.region.result)
            }
            Statement::Exit(_, name, condition) => self.exit(name.as_ref(), condition.as_ref()),
            Statement::Raise(_, name, message) => {
                self.optional_name(name.as_ref())?;
                self.optional_expression(message.as_ref(), None)
            }
            Statement::Delay(_, value) | Statement::DelayUntil(_, value) => {
                self.optional_expression(Some(value), None)
            }
            Statement::Pragma(pragma) => self.pragma(pragma),
            _ => Ok(()),
        }
    }

    // Enters a loop or a block. What is declared in it is within its name, if it has one.
    fn enter_named(
        &mut self,
        name: Option<&Identifier>,
        kind: EntityKind,
    ) -> Result<Around, AllocError> {
        let around = self.enter_statement();
        if let Some(name) = name {
            let id = self.introduce(name, kind, None)?;
            self.region.owner = Some(id);
        }
        Ok(around)
    }

    // Resolves what a loop goes over, and declares its parameter (RM 5.5).
    fn iteration(&mut self, iteration: &Iteration) -> Result<(), AllocError> {
        match iteration {
            Iteration::Forever => Ok(()),
            Iteration::While(condition) => self.condition(condition),
            Iteration::For(parameter, _, range) => {
                let of = self.discrete_range(range)?;
                self.introduce(parameter, EntityKind::LoopParameter, of)?;
                Ok(())
            }
            Iteration::Of(parameter, array) => {
                let part = self.name(array, None)?;
                let of = self.names.component_of(part);
                self.introduce(parameter, EntityKind::LoopParameter, of)?;
                Ok(())
            }
        }
    }

    #[cycle(statement)]
    fn branches(&mut self, branches: &[Branch]) -> Result<(), AllocError> {
        for branch in branches {
            self.condition(&branch.condition)?;
            self.statements(&branch.statements)?;
        }
        Ok(())
    }

    #[cycle(statement)]
    fn alternatives(
        &mut self,
        alternatives: &[Alternative],
        of: Option<EntityId>,
    ) -> Result<(), AllocError> {
        for alternative in alternatives {
            self.choices(&alternative.choices, of)?;
            self.statements(&alternative.statements)?;
        }
        Ok(())
    }

    #[cycle(statement)]
    fn iterated(
        &mut self,
        statements: &[Statement],
        name: Option<&Identifier>,
        iteration: &Iteration,
    ) -> Result<(), AllocError> {
        let around = self.enter_named(name, EntityKind::Loop)?;
        self.iteration(iteration)?;
        self.statements(statements)?;
        self.leave(around);
        Ok(())
    }

    #[cycle(statement)]
    fn block(&mut self, body: &Body, name: Option<&Identifier>) -> Result<(), AllocError> {
        let around = self.enter_named(name, EntityKind::Block)?;
        self.body(body)?;
        self.leave(around);
        Ok(())
    }

    #[cycle(statement)]
    fn statement(&mut self, statement: &Statement) -> Result<(), AllocError> {
        match statement {
            Statement::If(_, branches, other) => {
                self.branches(branches)?;
                self.statements(other)
            }
            Statement::Case(_, value, alternatives) => {
                let of = self.expression(value, None)?;
                self.alternatives(alternatives, of)
            }
            Statement::Loop(_, name, iteration, statements) => {
                self.iterated(statements, name.as_ref(), iteration)
            }
            Statement::Block(_, name, body) => self.block(body, name.as_ref()),
            _ => self.simple(statement),
        }
    }

    #[cycle(statement)]
    fn statements(&mut self, statements: &[Statement]) -> Result<(), AllocError> {
        for statement in statements {
            self.statement(statement)?;
        }
        Ok(())
    }

    // Resolves the exceptions of a handler.
    fn exception_choices(&mut self, choices: &[ExceptionChoice]) -> Result<(), AllocError> {
        for choice in choices {
            if let ExceptionChoice::Name(name) = choice {
                self.name(name, None)?;
            }
        }
        Ok(())
    }

    // Declares the name of an occurrence, if it has one.
    fn occurrence(&mut self, name: Option<&Identifier>) -> Result<(), AllocError> {
        if let Some(name) = name {
            let of = self.predefined(Predefined::ExceptionOccurrence);
            self.introduce(name, EntityKind::Occurrence, of)?;
        }
        Ok(())
    }

    #[cycle(statement)]
    fn handlers(&mut self, handlers: &[Handler]) -> Result<(), AllocError> {
        for handler in handlers {
            let around = self.enter_statement();
            self.exception_choices(&handler.choices)?;
            self.occurrence(handler.occurrence.as_ref())?;
            self.statements(&handler.statements)?;
            self.leave(around);
        }
        Ok(())
    }

    /// Resolves a body, in the region in which the walk is.
    #[cycle(statement)]
    pub(crate) fn body(&mut self, body: &Body) -> Result<(), AllocError> {
        self.declarations(&body.declarations)?;
        self.statements(&body.statements)?;
        self.handlers(&body.handlers)
    }

    /// Resolves the body of a subprogram.
    #[cycle(statement)]
    pub(crate) fn subprogram_body(
        &mut self,
        body: &Body,
        specification: &Specification,
        aspects: &[Aspect],
    ) -> Result<(), AllocError> {
        let id = self.body_specification(specification)?;
        self.aspects_of(id, aspects)?;
        let around = self.enter_subprogram(id)?;
        self.body(body)?;
        self.leave(around);
        Ok(())
    }

    // Resolves a function by an expression.
    fn expression_function(
        &mut self,
        specification: &Specification,
        value: &Expr,
        aspects: &[Aspect],
    ) -> Result<(), AllocError> {
        let id = self.body_specification(specification)?;
        let around = self.enter_subprogram(id)?;
        self.expression(value, self.region.result)?;
        self.aspects(aspects)?;
        self.leave(around);
        Ok(())
    }

    // Enters the body of what is declared here by this name, or of something unknown.
    fn enter_body(&mut self, name: &Identifier) -> Result<Around, AllocError> {
        let declared = self.declared_here(&name.name);
        self.note_entity(name, declared)?;
        match declared {
            Some(id) => self.enter_entity(id, true),
            None => Ok(self.enter_statement()),
        }
    }

    // Resolves the name and the formal parameters of the body of an entry, and enters it.
    fn enter_entry(&mut self, name: &Identifier, formals: &[Formal]) -> Result<Around, AllocError> {
        let declared = self.entry_here(name);
        match declared {
            Some(id) => {
                self.note_entity(name, declared)?;
                self.repeated_formals(id, formals)?;
                self.enter_entity(id, true)
            }
            None => {
                let id = self.entry(name, formals)?;
                self.enter_entity(id, true)
            }
        }
    }

    #[cycle(statement)]
    fn task_body(&mut self, body: &Body, name: &Identifier) -> Result<(), AllocError> {
        let around = self.enter_body(name)?;
        self.body(body)?;
        self.leave(around);
        Ok(())
    }

    #[cycle(statement)]
    fn protected_body(
        &mut self,
        items: &[Declaration],
        name: &Identifier,
    ) -> Result<(), AllocError> {
        let around = self.enter_body(name)?;
        self.declarations(items)?;
        self.leave(around);
        Ok(())
    }

    #[cycle(statement)]
    fn entry_body(
        &mut self,
        body: &Body,
        name: &Identifier,
        formals: &[Formal],
        barrier: &Expr,
    ) -> Result<(), AllocError> {
        let around = self.enter_entry(name, formals)?;
        self.condition(barrier)?;
        self.body(body)?;
        self.leave(around);
        Ok(())
    }

    // Declares what has a value, a constraint or a form, or is a clause or a pragma.
    fn basic(&mut self, declaration: &Declaration) -> Result<(), AllocError> {
        match declaration {
            Declaration::Object(object) => self.object(object),
            Declaration::Number(_, names, value) => {
                self.expression(value, None)?;
                self.introduce_all(names, EntityKind::Number, None)
            }
            Declaration::Exception(_, names) => {
                self.introduce_all(names, EntityKind::Exception, None)
            }
            Declaration::Type(of) => self.type_declaration(of),
            Declaration::Subtype(_, name, indication, aspects) => {
                let of = self.indication(indication)?;
                self.introduce(name, EntityKind::Subtype, of)?;
                self.aspects(aspects)
            }
            Declaration::Task(task) => self.task(task),
            Declaration::Protected(protected) => self.protected(protected),
            Declaration::Use(clause) => self.use_clause(clause),
            Declaration::Pragma(pragma) => self.pragma(pragma),
            _ => Ok(()),
        }
    }

    // Declares a subprogram, or resolves one whose body has no statements; else what is basic.
    fn specified(&mut self, declaration: &Declaration) -> Result<(), AllocError> {
        match declaration {
            Declaration::Subprogram(_, specification, aspects) => {
                let id = self.specification(specification)?;
                self.aspects_of(id, aspects)
            }
            Declaration::NullProcedure(_, specification, aspects) => {
                let id = self.body_specification(specification)?;
                self.aspects_of(id, aspects)
            }
            Declaration::ExpressionFunction(_, specification, value, aspects) => {
                self.expression_function(specification, value, aspects)
            }
            _ => self.basic(declaration),
        }
    }

    #[cycle(statement)]
    fn declaration(&mut self, declaration: &Declaration) -> Result<(), AllocError> {
        match declaration {
            Declaration::SubprogramBody(_, specification, aspects, body) => {
                self.subprogram_body(body, specification, aspects)
            }
            Declaration::TaskBody(_, name, body) => self.task_body(body, name),
            Declaration::ProtectedBody(_, name, items) => self.protected_body(items, name),
            Declaration::EntryBody(_, name, formals, barrier, body) => {
                self.entry_body(body, name, formals, barrier)
            }
            _ => self.specified(declaration),
        }
    }

    /// Resolves declarations, in the region in which the walk is.
    #[cycle(statement)]
    pub(crate) fn declarations(&mut self, declarations: &[Declaration]) -> Result<(), AllocError> {
        for declaration in declarations {
            self.declaration(declaration)?;
        }
        Ok(())
    }
}
