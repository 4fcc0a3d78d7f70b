//! Names by which constructs are distinguished.
ghost use Rattle.std.specs.Prelude.{◌≡◌};
ghost use Rattle.remedies.specs.Names.{name_text};

/// A name of Ada's predefined units, pragmas, aspects and attributes, or one that is taken for such.
#[derive(Clone, Copy)]
pub enum Name {
    /// `Ada`
    Ada,
    /// `System`
    System,
    /// `Text_IO`
    TextIo,
    /// `Integer_Text_IO`
    IntegerTextIo,
    /// `Float_Text_IO`
    FloatTextIo,
    /// `Control_IO`
    ControlIo,
    /// `Real_Time`
    RealTime,
    /// `Timing_Events`
    TimingEvents,
    /// `Interrupts`
    Interrupts,
    /// `Synchronous_Task_Control`
    SynchronousTaskControl,
    /// `Execution_Time`
    ExecutionTime,
    /// `Priority`
    Priority,
    /// `Interrupt_Priority`
    InterruptPriority,
    /// `Attach_Handler`
    AttachHandler,
    /// `Interrupt_Handler`
    InterruptHandler,
    /// `Assert`
    Assert,
    /// `Profile`
    Profile,
    /// `Put`
    Put,
    /// `Read`
    Read,
    /// `Put_Line`
    PutLine,
    /// `New_Line`
    NewLine,
    /// `Clock`
    Clock,
    /// `Time`
    Time,
    /// `Time_Span`
    TimeSpan,
    /// `Milliseconds`
    Milliseconds,
    /// `Microseconds`
    Microseconds,
    /// `Seconds`
    Seconds,
    /// `Minutes`
    Minutes,
    /// `Nanoseconds`
    Nanoseconds,
    /// `To_Duration`
    ToDuration,
    /// `To_Time_Span`
    ToTimeSpan,
    /// `Time_Span_Zero`
    TimeSpanZero,
    /// `Suspension_Object`
    SuspensionObject,
    /// `Set_True`
    SetTrue,
    /// `Suspend_Until_True`
    SuspendUntilTrue,
    /// `Timing_Event`
    TimingEvent,
    /// `Character`
    Character,
    /// `String`
    String,
    /// `Float`
    Float,
    /// `Duration`
    Duration,
    /// `Long_Integer`
    LongInteger,
    /// `Succ`
    Succ,
    /// `Pred`
    Pred,
    /// `Pos`
    Pos,
    /// `Val`
    Val,
    /// `Image`
    Image,
    /// `Min`
    Min,
    /// `Max`
    Max,
    /// `Value`
    Value,
    /// `Downto`
    Downto,
    /// `Integer`
    Integer,
    /// `Natural`
    Natural,
    /// `Positive`
    Positive,
    /// `Boolean`
    Boolean,
    /// `Constraint_Error`
    ConstraintError,
    /// `Program_Error`
    ProgramError,
    /// `Elseif`
    Elseif,
    /// `Elif`
    Elif,
    /// `Inout`
    Inout,
    /// `To`
    To,
    /// `Const`
    Const,
    /// `Call`
    Call,
    /// `Void`
    Void,
    /// `Def`
    Def,
    /// `Func`
    Func,
    /// `Sub`
    Sub,
    /// `Try`
    Try,
    /// `Print`
    Print,
    /// `Printf`
    Printf,
    /// `Int`
    Int,
    /// `Bool`
    Bool,
    /// `Endif`
    EndIf,
    /// `Endloop`
    EndLoop,
    /// `Endcase`
    EndCase,
    /// `Now`
    Now,
    /// `Break`
    Break,
    /// `Continue`
    Continue,
    /// `Step`
    Step,
    /// `By`
    By,
    /// `Var`
    Var,
    /// `Sleep`
    Sleep,
    /// `Set_Priority`
    SetPriority,
    /// `Struct`
    Struct,
    /// `Img`
    Img,
    /// `First`
    First,
    /// `Last`
    Last,
}

/// The letters of the name, in upper case.
pub fn name_text(name: Name) -> &'static [u8]
    ensures { result.now ≡ name_text name }
{
    match name {
        Name::Ada => b"ADA",
        Name::System => b"SYSTEM",
        Name::TextIo => b"TEXT_IO",
        Name::IntegerTextIo => b"INTEGER_TEXT_IO",
        Name::FloatTextIo => b"FLOAT_TEXT_IO",
        Name::ControlIo => b"CONTROL_IO",
        Name::RealTime => b"REAL_TIME",
        Name::TimingEvents => b"TIMING_EVENTS",
        Name::Interrupts => b"INTERRUPTS",
        Name::SynchronousTaskControl => b"SYNCHRONOUS_TASK_CONTROL",
        Name::ExecutionTime => b"EXECUTION_TIME",
        Name::Priority => b"PRIORITY",
        Name::InterruptPriority => b"INTERRUPT_PRIORITY",
        Name::AttachHandler => b"ATTACH_HANDLER",
        Name::InterruptHandler => b"INTERRUPT_HANDLER",
        Name::Assert => b"ASSERT",
        Name::Profile => b"PROFILE",
        Name::Put => b"PUT",
        Name::Read => b"READ",
        Name::PutLine => b"PUT_LINE",
        Name::NewLine => b"NEW_LINE",
        Name::Clock => b"CLOCK",
        Name::Time => b"TIME",
        Name::TimeSpan => b"TIME_SPAN",
        Name::Milliseconds => b"MILLISECONDS",
        Name::Microseconds => b"MICROSECONDS",
        Name::Seconds => b"SECONDS",
        Name::Minutes => b"MINUTES",
        Name::Nanoseconds => b"NANOSECONDS",
        Name::ToDuration => b"TO_DURATION",
        Name::ToTimeSpan => b"TO_TIME_SPAN",
        Name::TimeSpanZero => b"TIME_SPAN_ZERO",
        Name::SuspensionObject => b"SUSPENSION_OBJECT",
        Name::SetTrue => b"SET_TRUE",
        Name::SuspendUntilTrue => b"SUSPEND_UNTIL_TRUE",
        Name::TimingEvent => b"TIMING_EVENT",
        Name::Character => b"CHARACTER",
        Name::String => b"STRING",
        Name::Float => b"FLOAT",
        Name::Duration => b"DURATION",
        Name::LongInteger => b"LONG_INTEGER",
        Name::Succ => b"SUCC",
        Name::Pred => b"PRED",
        Name::Pos => b"POS",
        Name::Val => b"VAL",
        Name::Image => b"IMAGE",
        Name::Min => b"MIN",
        Name::Max => b"MAX",
        Name::Value => b"VALUE",
        Name::Downto => b"DOWNTO",
        Name::Integer => b"INTEGER",
        Name::Natural => b"NATURAL",
        Name::Positive => b"POSITIVE",
        Name::Boolean => b"BOOLEAN",
        Name::ConstraintError => b"CONSTRAINT_ERROR",
        Name::ProgramError => b"PROGRAM_ERROR",
        Name::Elseif => b"ELSEIF",
        Name::Elif => b"ELIF",
        Name::Inout => b"INOUT",
        Name::To => b"TO",
        Name::Const => b"CONST",
        Name::Call => b"CALL",
        Name::Void => b"VOID",
        Name::Def => b"DEF",
        Name::Func => b"FUNC",
        Name::Sub => b"SUB",
        Name::Try => b"TRY",
        Name::Print => b"PRINT",
        Name::Printf => b"PRINTF",
        Name::Int => b"INT",
        Name::Bool => b"BOOL",
        Name::EndIf => b"ENDIF",
        Name::EndLoop => b"ENDLOOP",
        Name::EndCase => b"ENDCASE",
        Name::Now => b"NOW",
        Name::Break => b"BREAK",
        Name::Continue => b"CONTINUE",
        Name::Step => b"STEP",
        Name::By => b"BY",
        Name::Var => b"VAR",
        Name::Sleep => b"SLEEP",
        Name::SetPriority => b"SET_PRIORITY",
        Name::Struct => b"STRUCT",
        Name::Img => b"IMG",
        Name::First => b"FIRST",
        Name::Last => b"LAST",
    }
}
