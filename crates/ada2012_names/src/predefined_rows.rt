//! What is declared in Standard (RM A.1), in the predefined units and in Control_IO, as rows.

use crate::entity::{EntityKind, TypeForm};
use crate::predefined::Predefined;
use ada2012_tree::Mode;

/// A unit, its name, and that of which it is a child.
pub(crate) type UnitRow = (Predefined, &'static str, Option<Predefined>);

/// What a unit declares: its name, what it is, and its subtype.
pub(crate) type Row = (Predefined, &'static str, EntityKind, Option<Predefined>);

/// A formal parameter of a subprogram: its name, mode and subtype.
pub(crate) type FormalRow = (Predefined, &'static str, Mode, Predefined);

const ENUMERATION: EntityKind = EntityKind::Type(TypeForm::Enumeration);

const INTEGER: EntityKind = EntityKind::Type(TypeForm::Integer);

const REAL: EntityKind = EntityKind::Type(TypeForm::Real);

const ARRAY: EntityKind = EntityKind::Type(TypeForm::Array);

const PRIVATE: EntityKind = EntityKind::Type(TypeForm::Private);

pub(crate) const UNITS: [UnitRow; 11] = [
    (Predefined::Standard, "STANDARD", None),
    (Predefined::Ada, "ADA", None),
    (Predefined::RealTime, "REAL_TIME", Some(Predefined::Ada)),
    (
        Predefined::TimingEvents,
        "TIMING_EVENTS",
        Some(Predefined::RealTime),
    ),
    (
        Predefined::SynchronousTaskControl,
        "SYNCHRONOUS_TASK_CONTROL",
        Some(Predefined::Ada),
    ),
    (Predefined::Exceptions, "EXCEPTIONS", Some(Predefined::Ada)),
    (Predefined::TextIo, "TEXT_IO", Some(Predefined::Ada)),
    (Predefined::Interrupts, "INTERRUPTS", Some(Predefined::Ada)),
    (
        Predefined::InterruptNames,
        "NAMES",
        Some(Predefined::Interrupts),
    ),
    (Predefined::System, "SYSTEM", None),
    (Predefined::ControlIo, "CONTROL_IO", None),
];

pub(crate) const STANDARD: [Row; 14] = [
    (Predefined::Boolean, "BOOLEAN", ENUMERATION, None),
    (
        Predefined::False,
        "FALSE",
        EntityKind::Literal(0),
        Some(Predefined::Boolean),
    ),
    (
        Predefined::True,
        "TRUE",
        EntityKind::Literal(1),
        Some(Predefined::Boolean),
    ),
    (Predefined::Integer, "INTEGER", INTEGER, None),
    (
        Predefined::Natural,
        "NATURAL",
        EntityKind::Subtype,
        Some(Predefined::Integer),
    ),
    (
        Predefined::Positive,
        "POSITIVE",
        EntityKind::Subtype,
        Some(Predefined::Integer),
    ),
    (Predefined::Float, "FLOAT", REAL, None),
    (Predefined::Duration, "DURATION", REAL, None),
    (Predefined::Character, "CHARACTER", ENUMERATION, None),
    (
        Predefined::String,
        "STRING",
        ARRAY,
        Some(Predefined::Character),
    ),
    (
        Predefined::ConstraintError,
        "CONSTRAINT_ERROR",
        EntityKind::Exception,
        None,
    ),
    (
        Predefined::ProgramError,
        "PROGRAM_ERROR",
        EntityKind::Exception,
        None,
    ),
    (
        Predefined::StorageError,
        "STORAGE_ERROR",
        EntityKind::Exception,
        None,
    ),
    (
        Predefined::TaskingError,
        "TASKING_ERROR",
        EntityKind::Exception,
        None,
    ),
];

pub(crate) const REAL_TIME: [Row; 21] = [
    (Predefined::Time, "TIME", PRIVATE, None),
    (Predefined::TimeSpan, "TIME_SPAN", PRIVATE, None),
    (Predefined::SecondsCount, "SECONDS_COUNT", INTEGER, None),
    (
        Predefined::TimeFirst,
        "TIME_FIRST",
        EntityKind::Constant,
        Some(Predefined::Time),
    ),
    (
        Predefined::TimeLast,
        "TIME_LAST",
        EntityKind::Constant,
        Some(Predefined::Time),
    ),
    (Predefined::TimeUnit, "TIME_UNIT", EntityKind::Number, None),
    (
        Predefined::TimeSpanFirst,
        "TIME_SPAN_FIRST",
        EntityKind::Constant,
        Some(Predefined::TimeSpan),
    ),
    (
        Predefined::TimeSpanLast,
        "TIME_SPAN_LAST",
        EntityKind::Constant,
        Some(Predefined::TimeSpan),
    ),
    (
        Predefined::TimeSpanZero,
        "TIME_SPAN_ZERO",
        EntityKind::Constant,
        Some(Predefined::TimeSpan),
    ),
    (
        Predefined::TimeSpanUnit,
        "TIME_SPAN_UNIT",
        EntityKind::Constant,
        Some(Predefined::TimeSpan),
    ),
    (
        Predefined::Tick,
        "TICK",
        EntityKind::Constant,
        Some(Predefined::TimeSpan),
    ),
    (
        Predefined::Clock,
        "CLOCK",
        EntityKind::Function,
        Some(Predefined::Time),
    ),
    (
        Predefined::Nanoseconds,
        "NANOSECONDS",
        EntityKind::Function,
        Some(Predefined::TimeSpan),
    ),
    (
        Predefined::Microseconds,
        "MICROSECONDS",
        EntityKind::Function,
        Some(Predefined::TimeSpan),
    ),
    (
        Predefined::Milliseconds,
        "MILLISECONDS",
        EntityKind::Function,
        Some(Predefined::TimeSpan),
    ),
    (
        Predefined::Seconds,
        "SECONDS",
        EntityKind::Function,
        Some(Predefined::TimeSpan),
    ),
    (
        Predefined::Minutes,
        "MINUTES",
        EntityKind::Function,
        Some(Predefined::TimeSpan),
    ),
    (
        Predefined::ToDuration,
        "TO_DURATION",
        EntityKind::Function,
        Some(Predefined::Duration),
    ),
    (
        Predefined::ToTimeSpan,
        "TO_TIME_SPAN",
        EntityKind::Function,
        Some(Predefined::TimeSpan),
    ),
    (Predefined::Split, "SPLIT", EntityKind::Procedure, None),
    (
        Predefined::TimeOf,
        "TIME_OF",
        EntityKind::Function,
        Some(Predefined::Time),
    ),
];

pub(crate) const TIMING_EVENTS: [Row; 6] = [
    (Predefined::TimingEvent, "TIMING_EVENT", PRIVATE, None),
    (
        Predefined::TimingEventHandler,
        "TIMING_EVENT_HANDLER",
        PRIVATE,
        None,
    ),
    (
        Predefined::SetHandler,
        "SET_HANDLER",
        EntityKind::Procedure,
        None,
    ),
    (
        Predefined::CurrentHandler,
        "CURRENT_HANDLER",
        EntityKind::Function,
        Some(Predefined::TimingEventHandler),
    ),
    (
        Predefined::CancelHandler,
        "CANCEL_HANDLER",
        EntityKind::Procedure,
        None,
    ),
    (
        Predefined::TimeOfEvent,
        "TIME_OF_EVENT",
        EntityKind::Function,
        Some(Predefined::Time),
    ),
];

pub(crate) const SYNCHRONOUS_TASK_CONTROL: [Row; 5] = [
    (
        Predefined::SuspensionObject,
        "SUSPENSION_OBJECT",
        PRIVATE,
        None,
    ),
    (Predefined::SetTrue, "SET_TRUE", EntityKind::Procedure, None),
    (
        Predefined::SetFalse,
        "SET_FALSE",
        EntityKind::Procedure,
        None,
    ),
    (
        Predefined::CurrentState,
        "CURRENT_STATE",
        EntityKind::Function,
        Some(Predefined::Boolean),
    ),
    (
        Predefined::SuspendUntilTrue,
        "SUSPEND_UNTIL_TRUE",
        EntityKind::Procedure,
        None,
    ),
];

pub(crate) const EXCEPTIONS: [Row; 4] = [
    (
        Predefined::ExceptionOccurrence,
        "EXCEPTION_OCCURRENCE",
        PRIVATE,
        None,
    ),
    (
        Predefined::ExceptionName,
        "EXCEPTION_NAME",
        EntityKind::Function,
        Some(Predefined::String),
    ),
    (
        Predefined::ExceptionMessage,
        "EXCEPTION_MESSAGE",
        EntityKind::Function,
        Some(Predefined::String),
    ),
    (
        Predefined::ExceptionInformation,
        "EXCEPTION_INFORMATION",
        EntityKind::Function,
        Some(Predefined::String),
    ),
];

pub(crate) const TEXT_IO: [Row; 3] = [
    (Predefined::Put, "PUT", EntityKind::Procedure, None),
    (Predefined::PutLine, "PUT_LINE", EntityKind::Procedure, None),
    (Predefined::NewLine, "NEW_LINE", EntityKind::Procedure, None),
];

pub(crate) const INTERRUPTS: [Row; 1] = [(Predefined::InterruptId, "INTERRUPT_ID", INTEGER, None)];

pub(crate) const SYSTEM: [Row; 4] = [
    (
        Predefined::AnyPriority,
        "ANY_PRIORITY",
        EntityKind::Subtype,
        Some(Predefined::Integer),
    ),
    (
        Predefined::Priority,
        "PRIORITY",
        EntityKind::Subtype,
        Some(Predefined::Integer),
    ),
    (
        Predefined::InterruptPriority,
        "INTERRUPT_PRIORITY",
        EntityKind::Subtype,
        Some(Predefined::Integer),
    ),
    (
        Predefined::DefaultPriority,
        "DEFAULT_PRIORITY",
        EntityKind::Constant,
        Some(Predefined::Priority),
    ),
];

pub(crate) const CONTROL_IO: [Row; 2] = [
    (Predefined::LabelledPut, "PUT", EntityKind::Procedure, None),
    (
        Predefined::Read,
        "READ",
        EntityKind::Function,
        Some(Predefined::Integer),
    ),
];

pub(crate) const FORMALS: [FormalRow; 32] = [
    (Predefined::Nanoseconds, "NS", Mode::In, Predefined::Integer),
    (
        Predefined::Microseconds,
        "US",
        Mode::In,
        Predefined::Integer,
    ),
    (
        Predefined::Milliseconds,
        "MS",
        Mode::In,
        Predefined::Integer,
    ),
    (Predefined::Seconds, "S", Mode::In, Predefined::Integer),
    (Predefined::Minutes, "M", Mode::In, Predefined::Integer),
    (Predefined::ToDuration, "TS", Mode::In, Predefined::TimeSpan),
    (Predefined::ToTimeSpan, "D", Mode::In, Predefined::Duration),
    (Predefined::Split, "T", Mode::In, Predefined::Time),
    (Predefined::Split, "SC", Mode::Out, Predefined::SecondsCount),
    (Predefined::Split, "TS", Mode::Out, Predefined::TimeSpan),
    (Predefined::TimeOf, "SC", Mode::In, Predefined::SecondsCount),
    (Predefined::TimeOf, "TS", Mode::In, Predefined::TimeSpan),
    (
        Predefined::SetHandler,
        "EVENT",
        Mode::InOut,
        Predefined::TimingEvent,
    ),
    (
        Predefined::SetHandler,
        "AT_TIME",
        Mode::In,
        Predefined::Time,
    ),
    (
        Predefined::SetHandler,
        "HANDLER",
        Mode::In,
        Predefined::TimingEventHandler,
    ),
    (
        Predefined::CurrentHandler,
        "EVENT",
        Mode::InOut,
        Predefined::TimingEvent,
    ),
    (
        Predefined::CancelHandler,
        "EVENT",
        Mode::InOut,
        Predefined::TimingEvent,
    ),
    (
        Predefined::CancelHandler,
        "CANCELLED",
        Mode::Out,
        Predefined::Boolean,
    ),
    (
        Predefined::TimeOfEvent,
        "EVENT",
        Mode::InOut,
        Predefined::TimingEvent,
    ),
    (
        Predefined::SetTrue,
        "S",
        Mode::InOut,
        Predefined::SuspensionObject,
    ),
    (
        Predefined::SetFalse,
        "S",
        Mode::InOut,
        Predefined::SuspensionObject,
    ),
    (
        Predefined::CurrentState,
        "S",
        Mode::In,
        Predefined::SuspensionObject,
    ),
    (
        Predefined::SuspendUntilTrue,
        "S",
        Mode::InOut,
        Predefined::SuspensionObject,
    ),
    (
        Predefined::ExceptionName,
        "X",
        Mode::In,
        Predefined::ExceptionOccurrence,
    ),
    (
        Predefined::ExceptionMessage,
        "X",
        Mode::In,
        Predefined::ExceptionOccurrence,
    ),
    (
        Predefined::ExceptionInformation,
        "X",
        Mode::In,
        Predefined::ExceptionOccurrence,
    ),
    (Predefined::Put, "ITEM", Mode::In, Predefined::String),
    (Predefined::PutLine, "ITEM", Mode::In, Predefined::String),
    (
        Predefined::NewLine,
        "SPACING",
        Mode::In,
        Predefined::Positive,
    ),
    (
        Predefined::LabelledPut,
        "LABEL",
        Mode::In,
        Predefined::String,
    ),
    (
        Predefined::LabelledPut,
        "VALUE",
        Mode::In,
        Predefined::Integer,
    ),
    (Predefined::Read, "CHANNEL", Mode::In, Predefined::Integer),
];
