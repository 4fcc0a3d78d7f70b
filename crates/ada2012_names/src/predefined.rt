//! What is declared in Standard (RM A.1), in the predefined units and in Control_IO, as far as programs of the Ravenscar profile use it.
ghost use Rattle.std.specs.Prelude.{◌≡◌, length, slice_get};
ghost use Rattle.ada2012_names.specs.Queries.{told_by};
ghost use Rattle.ada2012_names.specs.Tables.{IsKnownEntity};

use crate::entity::{Entity, EntityId, EntityKind};
use crate::predefined_rows::{
    CONTROL_IO, EXCEPTIONS, FORMALS, INTERRUPTS, REAL_TIME, Row, STANDARD,
    SYNCHRONOUS_TASK_CONTROL, SYSTEM, TEXT_IO, TIMING_EVENTS, UNITS,
};
use crate::table::Names;
use ada2012_tree::Span;
use base::Text;
use std::alloc::AllocError;

/// A predefined entity.
#[derive(Clone, Copy, PartialEq, Eq)]
pub enum Predefined {
    Standard,
    Ada,
    RealTime,
    TimingEvents,
    SynchronousTaskControl,
    Exceptions,
    TextIo,
    Interrupts,
    /// Ada.Interrupts.Names, of which no name is known here.
    InterruptNames,
    System,
    ControlIo,
    Boolean,
    False,
    True,
    Integer,
    Natural,
    Positive,
    Float,
    Duration,
    Character,
    String,
    ConstraintError,
    ProgramError,
    StorageError,
    TaskingError,
    Time,
    TimeSpan,
    SecondsCount,
    TimeFirst,
    TimeLast,
    TimeUnit,
    TimeSpanFirst,
    TimeSpanLast,
    TimeSpanZero,
    TimeSpanUnit,
    Tick,
    Clock,
    Nanoseconds,
    Microseconds,
    Milliseconds,
    Seconds,
    Minutes,
    ToDuration,
    ToTimeSpan,
    Split,
    TimeOf,
    TimingEvent,
    TimingEventHandler,
    SetHandler,
    CurrentHandler,
    CancelHandler,
    TimeOfEvent,
    SuspensionObject,
    SetTrue,
    SetFalse,
    CurrentState,
    SuspendUntilTrue,
    ExceptionOccurrence,
    ExceptionName,
    ExceptionMessage,
    ExceptionInformation,
    /// Ada.Text_IO.Put, of a string.
    Put,
    PutLine,
    NewLine,
    InterruptId,
    AnyPriority,
    Priority,
    InterruptPriority,
    DefaultPriority,
    /// Control_IO.Put, of a label and a value.
    LabelledPut,
    Read,
}

impl Names {
    /// Which predefined entity this is, if it is one.
    pub fn predefined(&self, id: EntityId) -> Option<Predefined>
        ensures { result ≡ told_by (λ e. e.predefined) (slice_get self.now.entities id.number) }
    {
        match self.entity(id) {
            Some(entity) => entity.predefined,
            None => None,
        }
    }

    /// The entity that is this predefined one.
    pub fn of_predefined(&self, wanted: Predefined) -> Option<EntityId>
        ensures { IsKnownEntity (length self.now.entities) result }
    {
        for (number, entity) in self.entities().iter().enumerate() {
            if entity.predefined == Some(wanted) {
                return Some(EntityId { number });
            }
        }
        None
    }

    // Declares a predefined entity.
    fn predefine(
        &mut self,
        name: &str,
        kind: EntityKind,
        within: Option<EntityId>,
        subtype: Option<EntityId>,
        predefined: Option<Predefined>,
    ) -> Result<(), AllocError> {
        self.declare(Entity {
            span: Span { start: 0, end_: 0 },
            name: Text::new(name.as_bytes()),
            kind,
            within,
            subtype,
            hidden: false,
            predefined,
        })?;
        Ok(())
    }

    // The entity of what may be predefined.
    fn of_optional(&self, wanted: Option<Predefined>) -> Option<EntityId> {
        self.of_predefined(wanted?)
    }

    // Declares the units.
    fn add_units(&mut self) -> Result<(), AllocError> {
        for (unit, name, parent) in UNITS {
            let parent = self.of_optional(parent);
            self.predefine(name, EntityKind::Package, parent, None, Some(unit))?;
        }
        Ok(())
    }

    // Declares what a unit declares.
    fn add_rows(&mut self, unit: Predefined, rows: &[Row]) -> Result<(), AllocError> {
        let within = self.of_predefined(unit);
        for (entity, name, kind, subtype) in rows {
            let subtype = self.of_optional(*subtype);
            self.predefine(name, *kind, within, subtype, Some(*entity))?;
        }
        Ok(())
    }

    // Declares the formal parameters.
    fn add_formals(&mut self) -> Result<(), AllocError> {
        for (of, name, mode, subtype) in FORMALS {
            let within = self.of_predefined(of);
            let subtype = self.of_predefined(subtype);
            self.predefine(name, EntityKind::Formal(mode), within, subtype, None)?;
        }
        Ok(())
    }

    /// Declares all that is predefined.
    pub(crate) fn add_predefined(&mut self) -> Result<(), AllocError> {
        self.add_units()?;
        self.add_rows(Predefined::Standard, &STANDARD)?;
        self.add_rows(Predefined::RealTime, &REAL_TIME)?;
        self.add_rows(Predefined::TimingEvents, &TIMING_EVENTS)?;
        self.add_rows(
            Predefined::SynchronousTaskControl,
            &SYNCHRONOUS_TASK_CONTROL,
        )?;
        self.add_rows(Predefined::Exceptions, &EXCEPTIONS)?;
        self.add_rows(Predefined::TextIo, &TEXT_IO)?;
        self.add_rows(Predefined::Interrupts, &INTERRUPTS)?;
        self.add_rows(Predefined::System, &SYSTEM)?;
        self.add_rows(Predefined::ControlIo, &CONTROL_IO)?;
        self.add_formals()
    }
}
