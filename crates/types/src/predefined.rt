//! What is visible before any declaration: the names of Standard, and those of the units (RM A.1, D.8).
ghost use Rattle.std.specs.Prelude.{◌≡◌, ◌≤◌, length, IfOk, OnOk};
ghost use Rattle.base.specs.declared.limits.TheConstants.{NAME_LIMIT};
ghost use Rattle.types.specs.Entities.{entity_value};
ghost use Rattle.types.specs.Scopes.{from_integer, from_nothing, standard, with_control_io, with_name, with_real_time};

use crate::entity::{Entity, FormalParameter, PredefinedOperation, Profile, Subtype, TypeForm};
use crate::scope::Scope;
use ada_tree::Mode;
use lexer::Text;
use std::alloc::{AllocError, Global};

fn text(name: &str) -> Text
    requires { length name.now ≤ NAME_LIMIT }
    ensures { result ≡ name.now }
{
    match Text::new(name.as_bytes()) {
        Some(text) => text,
        None => unreachable!(),
    }
}

// A function without parameters.
fn from_nothing(alloc: Global, operation: PredefinedOperation, given: Subtype) -> Entity
    ensures { entity_value result ≡ from_nothing operation given }
{
    Entity::Predefined(
        operation,
        Profile {
            formals: Vec::new(alloc),
            result: Some(given),
        },
    )
}

// A function of an Integer.
fn from_integer(
    alloc: Global,
    operation: PredefinedOperation,
    given: Subtype,
) -> Result<Entity, AllocError>
    ensures { IfOk result (λ e. entity_value e ≡ from_integer operation given) }
{
    let mut formals = Vec::new(alloc);
    formals.push(FormalParameter {
        mode: Mode::In,
        subtype: Subtype::INTEGER,
    })?;
    Ok(Entity::Predefined(
        operation,
        Profile {
            formals,
            result: Some(given),
        },
    ))
}

impl Scope {
    fn see(&mut self, name: &str, entity: Entity) -> Result<(), AllocError>
        requires { length name.now ≤ NAME_LIMIT }
        ensures { OnOk result (self.new ≡ with_name self.old name.now (entity_value entity)) }
    {
        self.add(text(name), entity)
    }

    /// The names that are always visible (RM A.1). Memory is the only refusal.
    pub fn standard(alloc: Global) -> Result<Scope, AllocError>
        ensures { IfOk result (λ s. s ≡ standard) }
    {
        let mut scope = Scope::new(alloc);
        scope.see("INTEGER", Entity::Type(TypeForm::Integer, Subtype::INTEGER))?;
        scope.see("NATURAL", Entity::Subtype(Subtype::NATURAL))?;
        scope.see("POSITIVE", Entity::Subtype(Subtype::POSITIVE))?;
        scope.see("BOOLEAN", Entity::Type(TypeForm::Boolean, Subtype::BOOLEAN))?;
        scope.see("TRUE", Entity::Literal(true))?;
        scope.see("FALSE", Entity::Literal(false))?;
        scope.see("CONSTRAINT_ERROR", Entity::Exception)?;
        scope.see("PROGRAM_ERROR", Entity::Exception)?;
        scope.see("STORAGE_ERROR", Entity::Exception)?;
        scope.see("TASKING_ERROR", Entity::Exception)?;
        Ok(scope)
    }

    /// Makes visible what Ada.Real_Time has (RM D.8). Memory is the only refusal, and may leave some of the names visible.
    pub fn see_real_time(&mut self, alloc: Global) -> Result<(), AllocError>
        ensures { OnOk result (self.new ≡ with_real_time self.old) }
    {
        let time = Subtype::base_range_of(self.len());
        let span = Subtype::base_range_of(self.len() + 1);
        self.see("TIME", Entity::Type(TypeForm::Time, time))?;
        self.see("TIME_SPAN", Entity::Type(TypeForm::TimeSpan, span))?;
        let clock = from_nothing(alloc, PredefinedOperation::Clock, time);
        self.see("CLOCK", clock)?;
        let milliseconds = from_integer(alloc, PredefinedOperation::Milliseconds, span)?;
        self.see("MILLISECONDS", milliseconds)?;
        let microseconds = from_integer(alloc, PredefinedOperation::Microseconds, span)?;
        self.see("MICROSECONDS", microseconds)?;
        Ok(())
    }

    /// Makes visible what Control_IO has. Memory is the only refusal, and may leave some of the names visible.
    pub fn see_control_io(&mut self, alloc: Global) -> Result<(), AllocError>
        ensures { OnOk result (self.new ≡ with_control_io self.old) }
    {
        self.see("PUT", Entity::Put)?;
        let read = from_integer(alloc, PredefinedOperation::Read, Subtype::INTEGER)?;
        self.see("READ", read)
    }
}
