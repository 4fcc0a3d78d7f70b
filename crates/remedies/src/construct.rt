//! What a fault may be about, and what to write instead.
ghost use Rattle.std.specs.Prelude.{◌≡◌};
ghost use Rattle.remedies.specs.Remedies.{text_of};

/// What is at the place of a fault: what Ada has and this language doesn't, or a first mistake.
#[derive(Clone, Copy)]
pub enum Construct {
    /// An enumeration type (RM 3.5.1).
    Enumeration,
    /// The bounds of an integer type in parentheses (RM 3.5.4).
    RangeWithoutWord,
    /// A modular type (RM 3.5.4).
    ModularType,
    /// A derived type (RM 3.4).
    DerivedType,
    /// A floating point or fixed point type (RM 3.5.7, 3.5.9).
    RealType,
    /// An access type (RM 3.10).
    AccessType,
    /// A private, limited, tagged or abstract type, or an interface (RM 3.9, 7.3).
    PrivateType,
    /// A null record (RM 3.8).
    NullRecord,
    /// A variant part of a record (RM 3.8.1).
    VariantPart,
    /// A default value of a component (RM 3.8).
    ComponentDefault,
    /// An object of an anonymous array type (RM 3.3.1, 3.6).
    AnonymousArray,
    /// One bound for the index of an array (RM 3.6).
    ArrayBound,
    /// A subtype with a range as the index of an array (RM 3.6).
    ArrayIndexRange,
    /// An array of several dimensions (RM 3.6).
    SecondDimension,
    /// A named number (RM 3.3.2).
    NamedNumber,
    /// A range after the subtype of an object or a formal parameter (RM 3.2.2).
    ObjectRange,
    /// Several names in one declaration (RM 3.3.1).
    SeveralNames,
    /// Several names of formal parameters (RM 6.1).
    SeveralFormals,
    /// A default value of a formal parameter (RM 6.1).
    FormalDefault,
    /// Several variables before an assignment.
    SeveralTargets,
    /// An aggregate (RM 4.3).
    Aggregate,
    /// An actual parameter by name (RM 6.4).
    NamedActual,
    /// Parentheses with nothing in them.
    EmptyParentheses,
    /// A qualified expression (RM 4.7).
    QualifiedExpression,
    /// A character literal, or a text between apostrophes (RM 2.5).
    CharacterLiteral,
    /// A real literal (RM 2.4.1).
    RealLiteral,
    /// Three dots in a range.
    ThreeDots,
    /// The attribute Range (RM 3.6.2).
    RangeAttribute,
    /// An attribute that the language leaves out (RM 3.5, 3.5.5).
    OtherAttribute,
    /// A membership test (RM 4.5.2).
    Membership,
    /// A loop over a subtype by its name (RM 5.5).
    ForOverType,
    /// A loop over a subtype with a range (RM 5.5).
    ForSubtypeRange,
    /// A loop over the elements of an array (RM 5.5.2).
    ForOverArray,
    /// A loop with downto.
    DownwardLoop,
    /// A loop as in C.
    LoopInC,
    /// The name of a loop after exit (RM 5.7).
    LoopName,
    /// A loop or a block with a name (RM 5.5, 5.6).
    NamedStatement,
    /// A goto (RM 5.8).
    Goto,
    /// A quantified expression (RM 4.5.8).
    QuantifiedExpression,
    /// A case expression (RM 4.5.7).
    CaseExpression,
    /// Different logical operators in one chain (RM 4.4).
    MixedOperators,
    /// An equals sign in an assignment.
    EqualsForAssignment,
    /// Two equals signs.
    DoubleEquals,
    /// An assignment by an operator of C.
    OperatorInC,
    /// A comment of C.
    CommentInC,
    /// The pragma Assert (RM 11.4.2).
    AssertPragma,
    /// The pragma Priority or Interrupt_Priority (RM D.1, J.15.11).
    PriorityPragma,
    /// The pragma Attach_Handler or Interrupt_Handler (RM J.15.7).
    AttachingPragma,
    /// Another pragma than those of a text's beginning (RM 2.8).
    OtherPragma,
    /// Another profile (RM 13.12, D.13).
    OtherProfile,
    /// A text without the pragma of its profile (RM D.13).
    NoProfile,
    /// Several aspects of one declaration (RM 13.1.1).
    SeveralAspects,
    /// An aspect of something that has none here (RM 13.1.1).
    OtherAspect,
    /// Something in parentheses after the name of a task.
    PriorityInParentheses,
    /// A task type (RM 9.1).
    TaskType,
    /// A protected type (RM 9.4).
    ProtectedType,
    /// A generic unit (RM 12.1).
    GenericUnit,
    /// A body stub (RM 10.1.3).
    SeparateBody,
    /// A null procedure (RM 6.7).
    NullProcedure,
    /// An expression function (RM 6.8).
    ExpressionFunction,
    /// A function with declarations, statements or handlers (RM 6.3).
    FunctionStatements,
    /// A renaming (RM 8.5).
    Renaming,
    /// A subprogram in a body (RM 3.11, 6.3).
    NestedSubprogram,
    /// The private part of a package (RM 7.3).
    PrivatePart,
    /// Statements of a package body (RM 7.2).
    PackageStatements,
    /// A second package (RM 7.1).
    SeveralPackages,
    /// A main procedure without a package (RM 7.1, 10.1).
    PackageMissing,
    /// A main procedure without the clause for its package (RM 10.1.2).
    MainWithoutClause,
    /// Further clauses before main (RM 10.1.2).
    MainClauses,
    /// Declarations of main (RM 6.3).
    MainDeclarations,
    /// Statements of main other than calls (RM 6.3).
    MainStatements,
    /// A declaration among statements (RM 3.11).
    DeclarationAmongStatements,
    /// A statement among declarations (RM 6.3).
    BeginMissing,
    /// A semicolon after is (RM 6.3).
    SemicolonAfterIs,
    /// A missing semicolon.
    SemicolonMissing,
    /// An end without the name of what it closes (RM 6.3, 7.1).
    NameAfterEnd,
    /// The name of an exception occurrence (RM 11.2).
    HandlerOccurrence,
    /// A with clause without its use clause (RM 10.1.2, 8.4).
    ClauseWithoutUse,
    /// The unit System (RM 13.7).
    SystemUnit,
    /// Output by Ada.Text_IO (RM A.10).
    TextIo,
    /// A timing event (RM D.15).
    TimingEvent,
    /// A suspension object (RM D.10).
    SuspensionObject,
    /// The unit Ada.Interrupts (RM C.3.2).
    InterruptUnit,
    /// The unit Ada.Execution_Time (RM D.14).
    ExecutionTimeUnit,
    /// Another predefined unit (RM A.2).
    OtherUnit,
    /// Seconds, Minutes or Nanoseconds (RM D.8).
    Seconds,
    /// A conversion to or from Duration, or a constant of Time_Span (RM D.8).
    DurationConversion,
    /// A first value that is computed from Clock.
    FirstValueFromClock,
    /// A relative delay (RM 9.6).
    RelativeDelay,
    /// The operator not before a relation (RM 4.5).
    NotOfRelation,
    /// A predefined type that the language leaves out (RM A.1).
    OtherType,
    /// Put or Read without the unit Control_IO.
    OutputUnit,
    /// A name of Ada.Real_Time without the unit (RM D.8).
    TimeUnit,
    /// Nothing where statements are wanted (RM 5.1).
    StatementMissing,
    /// A text without a main procedure (RM 10.2).
    MainMissing,
    /// Put with another number of parameters than two.
    PutArguments,
    /// A new value for what is no variable (RM 3.3).
    ChangedConstant,
    /// A return with a value in a procedure (RM 6.5).
    ReturnedValue,
    /// A task or a protected object in a body (RM D.7).
    LocalTask,
    /// A second entry of a protected object (RM D.7).
    SecondEntry,
    /// An entry of a task, or an accept (RM D.7).
    TaskEntry,
    /// A barrier that is no component (RM D.7).
    BarrierExpression,
    /// A select statement (RM D.7).
    Select,
    /// An abort statement (RM D.7).
    Abort,
    /// A requeue statement (RM D.7).
    Requeue,
    /// A case without others (RM 5.4).
    CaseWithoutOthers,
    /// Another spelling of `elsif`.
    ElsifWord,
    /// An `exit` with `if` (RM 5.7).
    ExitCondition,
    /// A colon after a choice (RM 5.4, 11.2).
    ArrowMissing,
    /// The word `range` in a loop (RM 5.5).
    RangeAfterIn,
    /// The word `do` before the statements of a loop.
    LoopForDo,
    /// The mode `in out` as one word (RM 6.1).
    InOutWords,
    /// A message of a raised exception (RM 11.3).
    RaiseMessage,
    /// A declaration that begins with the type, as in C.
    TypeFirst,
    /// A range with `to` between its bounds (RM 3.5).
    RangeByWord,
    /// A constant whose declaration begins with the word `constant` (RM 3.3.1).
    ConstantFirst,
    /// A semicolon after another one.
    SecondSemicolon,
    /// A word for a call before the name of what is called (RM 6.4).
    CallWord,
    /// A subtype without the name of its type (RM 3.2.2).
    SubtypeOfNothing,
    /// An equals sign after the name of a type (RM 3.2.1).
    EqualsForIs,
    /// A use clause in a package (RM 8.4).
    ClauseInPackage,
    /// A semicolon before `is` (RM 6.3).
    SemicolonBeforeIs,
    /// A procedure that begins as in another language.
    ProcedureWord,
    /// A function without the type of its result (RM 6.1).
    FunctionResult,
    /// Statements in the declaration of a task (RM 9.1).
    TaskStatements,
    /// A body in the specification of a package (RM 7.1).
    BodyInSpecification,
    /// An operand with a sign after an operator (RM 4.4).
    SignedOperand,
    /// A block for exceptions as in another language (RM 11.2).
    HandledBlock,
    /// An exception that is made where it is raised (RM 11.3).
    RaiseNew,
    /// A label where an expression is wanted (RM 4.4).
    LabelAsValue,
    /// The words of an end in one (RM 5.3, 5.4, 5.5).
    EndInOneWord,
    /// A case with `of` (RM 5.4).
    CaseOf,
    /// A loop that ends with a condition (RM 5.7).
    UntilLoop,
    /// A comma between declarations (RM 3.1).
    CommaForSemicolon,
    /// A procedure where a value is wanted (RM 6.4).
    ProcedureValue,
    /// A type where a value is wanted (RM 4.4).
    TypeValue,
    /// A task where a value or a call is wanted (RM 9.1).
    TaskValue,
    /// The name of the package as a prefix (RM 4.1.3).
    PackagePrefix,
    /// A protected object where a value or a call is wanted (RM 9.4).
    ProtectedValue,
    /// A component of a protected object outside of its body (RM 9.4, 9.5.1).
    ComponentOutside,
    /// A colon after a condition or a range.
    ColonAfterCondition,
    /// A semicolon after the word that begins statements.
    SemicolonAfterWord,
    /// The current time by another name (RM D.8).
    ClockByNow,
    /// A dot before the name of an attribute (RM 4.1.4).
    AttributeByDot,
    /// A conversion to Boolean (RM 4.6).
    BooleanConversion,
    /// A loop is left by another word (RM 5.7).
    LoopExit,
    /// The rest of a loop's statements is left out.
    ContinueWord,
    /// A doubled division sign.
    DivisionInPython,
    /// A range as a choice (RM 3.8.1, 5.4).
    ChoiceRange,
    /// An exception that isn't declared (RM 11.1).
    UndeclaredException,
    /// A loop with a step.
    LoopStep,
    /// An operator or an assignment without its last operand.
    OperandMissing,
    /// A closing parenthesis where none is open.
    StrayParenthesis,
    /// A relation of three operands (RM 4.4).
    SecondRelation,
    /// An if expression without one of its words (RM 4.5.7).
    IfExpressionWords,
    /// A bar as an operator.
    BitOperator,
    /// The word null as a value.
    NullValue,
    /// A constant without an initial value (RM 3.3.1).
    ConstantWithoutValue,
    /// A component before the operations of a protected object (RM 9.4).
    ComponentsFirst,
    /// An operation after the components of a protected object (RM 9.4).
    OperationsLast,
    /// A barrier in the declaration of an entry (RM 9.5.2).
    BarrierInDeclaration,
    /// A statement among declarations.
    AssignmentAmongDeclarations,
    /// The word exception before its name (RM 11.1).
    ExceptionFirst,
    /// A type or subtype in a body (RM 3.2).
    LocalType,
    /// A record type by another word (RM 3.8).
    RecordByStruct,
    /// A name of Ada.Real_Time with its unit (RM 8.4).
    UnitPrefix,
    /// An assignment sign in a condition.
    AssignmentInCondition,
    /// An arrow in place of an assignment sign.
    ArrowForAssignment,
    /// No condition where one is expected.
    ConditionMissing,
    /// An argument without parentheses.
    ParenthesisMissing,
    /// An if expression that must be static (RM 4.9).
    StaticIf,
    /// An expression that must be static (RM 4.9).
    StaticExpression,
}

impl Construct {
    /// What to write instead, as one line without its line feed; code is between two marks (96).
    pub fn text(self) -> &'static str
        ensures { result.now ≡ text_of self }
    {
        match self {
            Construct::Enumeration => ENUMERATION,
            Construct::RangeWithoutWord => RANGE_WITHOUT_WORD,
            Construct::ModularType => MODULAR_TYPE,
            Construct::DerivedType => DERIVED_TYPE,
            Construct::RealType => REAL_TYPE,
            Construct::AccessType => ACCESS_TYPE,
            Construct::PrivateType => PRIVATE_TYPE,
            Construct::NullRecord => NULL_RECORD,
            Construct::VariantPart => VARIANT_PART,
            Construct::ComponentDefault => COMPONENT_DEFAULT,
            Construct::AnonymousArray => ANONYMOUS_ARRAY,
            Construct::ArrayBound => ARRAY_BOUND,
            Construct::ArrayIndexRange => ARRAY_INDEX_RANGE,
            Construct::SecondDimension => SECOND_DIMENSION,
            Construct::NamedNumber => NAMED_NUMBER,
            Construct::ObjectRange => OBJECT_RANGE,
            Construct::SeveralNames => SEVERAL_NAMES,
            Construct::SeveralFormals => SEVERAL_FORMALS,
            Construct::FormalDefault => FORMAL_DEFAULT,
            Construct::SeveralTargets => SEVERAL_TARGETS,
            Construct::Aggregate => AGGREGATE,
            Construct::NamedActual => NAMED_ACTUAL,
            Construct::EmptyParentheses => EMPTY_PARENTHESES,
            Construct::QualifiedExpression => QUALIFIED_EXPRESSION,
            Construct::CharacterLiteral => CHARACTER_LITERAL,
            Construct::RealLiteral => REAL_LITERAL,
            Construct::ThreeDots => THREE_DOTS,
            Construct::RangeAttribute => RANGE_ATTRIBUTE,
            Construct::OtherAttribute => OTHER_ATTRIBUTE,
            Construct::Membership => MEMBERSHIP,
            Construct::ForOverType => FOR_OVER_TYPE,
            Construct::ForSubtypeRange => FOR_SUBTYPE_RANGE,
            Construct::ForOverArray => FOR_OVER_ARRAY,
            Construct::DownwardLoop => DOWNWARD_LOOP,
            Construct::LoopInC => LOOP_IN_C,
            Construct::LoopName => LOOP_NAME,
            Construct::NamedStatement => NAMED_STATEMENT,
            Construct::Goto => GOTO,
            Construct::QuantifiedExpression => QUANTIFIED_EXPRESSION,
            Construct::CaseExpression => CASE_EXPRESSION,
            Construct::MixedOperators => MIXED_OPERATORS,
            Construct::EqualsForAssignment => EQUALS_FOR_ASSIGNMENT,
            Construct::DoubleEquals => DOUBLE_EQUALS,
            Construct::OperatorInC => OPERATOR_IN_C,
            Construct::CommentInC => COMMENT_IN_C,
            Construct::AssertPragma => ASSERT_PRAGMA,
            Construct::PriorityPragma => PRIORITY_PRAGMA,
            Construct::AttachingPragma => ATTACHING_PRAGMA,
            Construct::OtherPragma => OTHER_PRAGMA,
            Construct::OtherProfile => OTHER_PROFILE,
            Construct::NoProfile => NO_PROFILE,
            Construct::SeveralAspects => SEVERAL_ASPECTS,
            Construct::OtherAspect => OTHER_ASPECT,
            Construct::PriorityInParentheses => PRIORITY_IN_PARENTHESES,
            Construct::TaskType => TASK_TYPE,
            Construct::ProtectedType => PROTECTED_TYPE,
            Construct::GenericUnit => GENERIC_UNIT,
            Construct::SeparateBody => SEPARATE_BODY,
            Construct::NullProcedure => NULL_PROCEDURE,
            Construct::ExpressionFunction => EXPRESSION_FUNCTION,
            Construct::FunctionStatements => FUNCTION_STATEMENTS,
            Construct::Renaming => RENAMING,
            Construct::NestedSubprogram => NESTED_SUBPROGRAM,
            Construct::PrivatePart => PRIVATE_PART,
            Construct::PackageStatements => PACKAGE_STATEMENTS,
            Construct::SeveralPackages => SEVERAL_PACKAGES,
            Construct::PackageMissing => PACKAGE_MISSING,
            Construct::MainWithoutClause => MAIN_WITHOUT_CLAUSE,
            Construct::MainClauses => MAIN_CLAUSES,
            Construct::MainDeclarations => MAIN_DECLARATIONS,
            Construct::MainStatements => MAIN_STATEMENTS,
            Construct::DeclarationAmongStatements => DECLARATION_AMONG_STATEMENTS,
            Construct::BeginMissing => BEGIN_MISSING,
            Construct::SemicolonAfterIs => SEMICOLON_AFTER_IS,
            Construct::SemicolonMissing => SEMICOLON_MISSING,
            Construct::NameAfterEnd => NAME_AFTER_END,
            Construct::HandlerOccurrence => HANDLER_OCCURRENCE,
            Construct::ClauseWithoutUse => CLAUSE_WITHOUT_USE,
            Construct::SystemUnit => SYSTEM_UNIT,
            Construct::TextIo => TEXT_IO,
            Construct::TimingEvent => TIMING_EVENT,
            Construct::SuspensionObject => SUSPENSION_OBJECT,
            Construct::InterruptUnit => INTERRUPT_UNIT,
            Construct::ExecutionTimeUnit => EXECUTION_TIME_UNIT,
            Construct::OtherUnit => OTHER_UNIT,
            Construct::Seconds => SECONDS,
            Construct::DurationConversion => DURATION_CONVERSION,
            Construct::FirstValueFromClock => FIRST_VALUE_FROM_CLOCK,
            Construct::RelativeDelay => RELATIVE_DELAY,
            Construct::NotOfRelation => NOT_OF_RELATION,
            Construct::OtherType => OTHER_TYPE,
            Construct::OutputUnit => OUTPUT_UNIT,
            Construct::TimeUnit => TIME_UNIT,
            Construct::StatementMissing => STATEMENT_MISSING,
            Construct::MainMissing => MAIN_MISSING,
            Construct::PutArguments => PUT_ARGUMENTS,
            Construct::ChangedConstant => CHANGED_CONSTANT,
            Construct::ReturnedValue => RETURNED_VALUE,
            Construct::LocalTask => LOCAL_TASK,
            Construct::SecondEntry => SECOND_ENTRY,
            Construct::TaskEntry => TASK_ENTRY,
            Construct::BarrierExpression => BARRIER_EXPRESSION,
            Construct::Select => SELECT,
            Construct::Abort => ABORT,
            Construct::Requeue => REQUEUE,
            Construct::CaseWithoutOthers => CASE_WITHOUT_OTHERS,
            Construct::ElsifWord => ELSIF_WORD,
            Construct::ExitCondition => EXIT_CONDITION,
            Construct::ArrowMissing => ARROW_MISSING,
            Construct::RangeAfterIn => RANGE_AFTER_IN,
            Construct::LoopForDo => LOOP_FOR_DO,
            Construct::InOutWords => IN_OUT_WORDS,
            Construct::RaiseMessage => RAISE_MESSAGE,
            Construct::TypeFirst => TYPE_FIRST,
            Construct::RangeByWord => RANGE_BY_WORD,
            Construct::ConstantFirst => CONSTANT_FIRST,
            Construct::SecondSemicolon => SECOND_SEMICOLON,
            Construct::CallWord => CALL_WORD,
            Construct::SubtypeOfNothing => SUBTYPE_OF_NOTHING,
            Construct::EqualsForIs => EQUALS_FOR_IS,
            Construct::ClauseInPackage => CLAUSE_IN_PACKAGE,
            Construct::SemicolonBeforeIs => SEMICOLON_BEFORE_IS,
            Construct::ProcedureWord => PROCEDURE_WORD,
            Construct::FunctionResult => FUNCTION_RESULT,
            Construct::TaskStatements => TASK_STATEMENTS,
            Construct::BodyInSpecification => BODY_IN_SPECIFICATION,
            Construct::SignedOperand => SIGNED_OPERAND,
            Construct::HandledBlock => HANDLED_BLOCK,
            Construct::RaiseNew => RAISE_NEW,
            Construct::LabelAsValue => LABEL_AS_VALUE,
            Construct::EndInOneWord => END_IN_ONE_WORD,
            Construct::CaseOf => CASE_OF,
            Construct::UntilLoop => UNTIL_LOOP,
            Construct::CommaForSemicolon => COMMA_FOR_SEMICOLON,
            Construct::ProcedureValue => PROCEDURE_VALUE,
            Construct::TypeValue => TYPE_VALUE,
            Construct::TaskValue => TASK_VALUE,
            Construct::PackagePrefix => PACKAGE_PREFIX,
            Construct::ProtectedValue => PROTECTED_VALUE,
            Construct::ComponentOutside => COMPONENT_OUTSIDE,
            Construct::ColonAfterCondition => COLON_AFTER_CONDITION,
            Construct::SemicolonAfterWord => SEMICOLON_AFTER_WORD,
            Construct::ClockByNow => CLOCK_BY_NOW,
            Construct::AttributeByDot => ATTRIBUTE_BY_DOT,
            Construct::BooleanConversion => BOOLEAN_CONVERSION,
            Construct::LoopExit => LOOP_EXIT,
            Construct::ContinueWord => CONTINUE_WORD,
            Construct::DivisionInPython => DIVISION_IN_PYTHON,
            Construct::ChoiceRange => CHOICE_RANGE,
            Construct::UndeclaredException => UNDECLARED_EXCEPTION,
            Construct::LoopStep => LOOP_STEP,
            Construct::OperandMissing => OPERAND_MISSING,
            Construct::StrayParenthesis => STRAY_PARENTHESIS,
            Construct::SecondRelation => SECOND_RELATION,
            Construct::IfExpressionWords => IF_EXPRESSION_WORDS,
            Construct::BitOperator => BIT_OPERATOR,
            Construct::NullValue => NULL_VALUE,
            Construct::ConstantWithoutValue => CONSTANT_WITHOUT_VALUE,
            Construct::ComponentsFirst => COMPONENTS_FIRST,
            Construct::OperationsLast => OPERATIONS_LAST,
            Construct::BarrierInDeclaration => BARRIER_IN_DECLARATION,
            Construct::AssignmentAmongDeclarations => ASSIGNMENT_AMONG_DECLARATIONS,
            Construct::ExceptionFirst => EXCEPTION_FIRST,
            Construct::LocalType => LOCAL_TYPE,
            Construct::RecordByStruct => RECORD_BY_STRUCT,
            Construct::UnitPrefix => UNIT_PREFIX,
            Construct::AssignmentInCondition => ASSIGNMENT_IN_CONDITION,
            Construct::ArrowForAssignment => ARROW_FOR_ASSIGNMENT,
            Construct::ConditionMissing => CONDITION_MISSING,
            Construct::ParenthesisMissing => PARENTHESIS_MISSING,
            Construct::StaticIf => STATIC_IF,
            Construct::StaticExpression => STATIC_EXPRESSION,
        }
    }
}

const ENUMERATION: &str = "\
Boolean is the only enumeration: write `type Colour is range 0 .. 1;` and a constant for each \
value, `Red : constant Colour := 0;`.";

const RANGE_WITHOUT_WORD: &str = "\
The bounds of an integer type follow `range`: write `type Count is range 0 .. 250;`.";

const MODULAR_TYPE: &str = "\
There are no modular types: write `type Byte is range 0 .. 255;`, and `(A + B) mod 256` where a \
value may pass the end.";

const DERIVED_TYPE: &str = "\
There are no derived types: write `type Speed is range 0 .. 100;`, or `subtype Speed is Integer \
range 0 .. 100;` where no conversion is wanted.";

const REAL_TYPE: &str = "\
There are no real types: count in a smaller unit, as `type Millivolts is range 0 .. 5_000;`.";

const ACCESS_TYPE: &str = "\
There are no access types: declare the objects in the package, and keep an index into an array \
of them.";

const PRIVATE_TYPE: &str = "\
There are no private and no tagged types: declare the whole type in the specification, `type \
Pair is record Low : Integer; High : Integer; end record;`.";

const NULL_RECORD: &str = "\
A record has one component at least: write `type Empty is record Unused : Boolean; end record;`.";

const VARIANT_PART: &str = "\
There are no variants: declare the components of all variants, and a Boolean that says which of \
them count.";

const COMPONENT_DEFAULT: &str = "\
A component has no default value: leave `:= ..` out, and assign the component in the first \
statements.";

const ANONYMOUS_ARRAY: &str = "\
An array has a named type: write `type Row is array (1 .. 3) of Integer;` and `A : Row;`.";

const ARRAY_BOUND: &str = "\
The index of an array has two bounds: write `array (1 .. 4) of Integer`.";

const ARRAY_INDEX_RANGE: &str = "\
The index of an array is a range or a subtype alone: write `array (1 .. 4) of Integer`.";

const SECOND_DIMENSION: &str = "\
An array has one index: write an array of arrays, `type Grid is array (1 .. 3) of Row;`.";

const NAMED_NUMBER: &str = "\
A constant has a type: write `Size : constant Integer := 4;`.";

const OBJECT_RANGE: &str = "\
No range stands here: declare a subtype, `subtype Percent is Integer range 0 .. 100;`, and write \
its name.";

const SEVERAL_NAMES: &str = "\
A declaration has one name: write `A : Integer; B : Integer;`.";

const SEVERAL_FORMALS: &str = "\
A formal parameter has its own subtype: write `(A : Integer; B : Integer)`.";

const FORMAL_DEFAULT: &str = "\
A formal parameter has no default value: leave `:= ..` out, and write the value in each call.";

const SEVERAL_TARGETS: &str = "\
One variable is assigned at a time: write `A := 1; B := 1;`.";

const AGGREGATE: &str = "\
There are no aggregates: assign part by part, `V (1) := 1; V (2) := 2;` or `P.Low := 1;`, all \
parts in a loop `for I in V'First .. V'Last loop V (I) := 0; end loop;`.";

const NAMED_ACTUAL: &str = "\
Actual parameters have no names here: write them in the order of the formal ones, `Set (1, 2);`.";

const EMPTY_PARENTHESES: &str = "\
A call without parameters has no parentheses: write `Run;`.";

const QUALIFIED_EXPRESSION: &str = "\
There are no qualified expressions: leave the name and the apostrophe out, or convert, `Integer \
(N)`.";

const CHARACTER_LITERAL: &str = "\
There are no characters: write a number, as `97`. A label of Put stands between quotation marks, \
`Put (\"level\", 1);`.";

const REAL_LITERAL: &str = "\
There are no real numbers: count in a smaller unit, as `1_500` thousandths.";

const THREE_DOTS: &str = "\
A range has two dots: write `1 .. 4`.";

const RANGE_ATTRIBUTE: &str = "\
There is no attribute Range: write `V'First .. V'Last`.";

const OTHER_ATTRIBUTE: &str = "\
The attributes are First, Last and, of arrays, Length: write `N + 1` for Succ, `N - 1` for Pred, \
`Integer (N)` for Pos, and `(if A < B then A else B)` for Min.";

const MEMBERSHIP: &str = "\
There is no membership test: write `X >= 0 and X <= 9`, or `X < 0 or X > 9` for `not in`.";

const FOR_OVER_TYPE: &str = "\
A loop names both bounds: write `for I in Index'First .. Index'Last loop`.";

const FOR_SUBTYPE_RANGE: &str = "\
A loop names its bounds alone: write `for I in 1 .. 4 loop`.";

const FOR_OVER_ARRAY: &str = "\
A loop goes over indexes: write `for I in V'First .. V'Last loop`, and `V (I)` for the element.";

const DOWNWARD_LOOP: &str = "\
Write `for I in reverse 1 .. 4 loop`.";

const LOOP_IN_C: &str = "\
Write `for I in 1 .. 4 loop .. end loop;`.";

const LOOP_NAME: &str = "\
Loops have no names, and `exit` leaves the innermost one: to leave several, set a Boolean that \
each loop asks, or `return;` from a procedure.";

const NAMED_STATEMENT: &str = "\
Loops and blocks have no names: leave the name and the colon out, and the name after its `end`.";

const GOTO: &str = "\
There is no goto: write a loop with `exit when`.";

const QUANTIFIED_EXPRESSION: &str = "\
There are no quantified expressions: set a Boolean in a loop.";

const CASE_EXPRESSION: &str = "\
There are no case expressions: write `(if N = 1 then A elsif N = 2 then B else C)`.";

const MIXED_OPERATORS: &str = "\
One chain has one logical operator: write parentheses, `(A and B) or C`.";

const EQUALS_FOR_ASSIGNMENT: &str = "\
`=` compares: write `:=` to assign.";

const DOUBLE_EQUALS: &str = "\
Write one `=`.";

const OPERATOR_IN_C: &str = "\
Write `N := N + 1;`.";

const COMMENT_IN_C: &str = "\
A comment runs from `--` to the end of its line.";

const ASSERT_PRAGMA: &str = "\
There is no pragma Assert: write `if not Fits then raise Program_Error; end if;`.";

const PRIORITY_PRAGMA: &str = "\
A priority is given by an aspect: write `task Watch with Priority => 10;`, `protected Store with \
Priority => 20 is` or `procedure Main with Priority => 5 is`.";

const ATTACHING_PRAGMA: &str = "\
A handler of an interrupt is attached by an aspect: write `procedure Handle with Attach_Handler \
=> 1;`.";

const OTHER_PRAGMA: &str = "\
Leave this pragma out: the only ones are `pragma Profile (Ravenscar);`, first, and `pragma \
Partition_Elaboration_Policy (Sequential);` after it.";

const OTHER_PROFILE: &str = "\
The profile is Ravenscar: write `pragma Profile (Ravenscar);`.";

const NO_PROFILE: &str = "\
Write `pragma Profile (Ravenscar);` before everything else.";

const SEVERAL_ASPECTS: &str = "\
A declaration has one aspect: keep `Priority` or `Attach_Handler` alone.";

const OTHER_ASPECT: &str = "\
Aspects are Priority, of a task, a protected object and main, and Attach_Handler, of a protected \
procedure: leave this one out.";

const PRIORITY_IN_PARENTHESES: &str = "\
A task has no discriminant, and its priority is an aspect: write `task Watch with Priority => \
10;`.";

const TASK_TYPE: &str = "\
There are no task types: declare each task, `task First; task Second;`, and let the body of each \
call one procedure with parameters, `Work (1);`.";

const PROTECTED_TYPE: &str = "\
There are no protected types: declare each object, `protected First is .. end First;`.";

const GENERIC_UNIT: &str = "\
There are no generic units: write the package or the procedure for its one type.";

const SEPARATE_BODY: &str = "\
There are no subunits: write the body here.";

const NULL_PROCEDURE: &str = "\
Write `procedure Run is begin null; end Run;`.";

const EXPRESSION_FUNCTION: &str = "\
Write the expression in a body: `function Twice (N : Integer) return Integer is begin return 2 * \
N; end Twice;`.";

const FUNCTION_STATEMENTS: &str = "\
A function is one `return` with an expression, as `return (if A > B then A else B);`: where more \
is wanted write a procedure with an `out` parameter, `procedure Larger (A : Integer; B : \
Integer; Most : out Integer) is`.";

const RENAMING: &str = "\
There are no renamings: write the name itself.";

const NESTED_SUBPROGRAM: &str = "\
Subprograms stand in the package, not in a body: move this one before the body that it is \
in.";

const PRIVATE_PART: &str = "\
The specification of a package has no private part: move these declarations into the package \
body.";

const PACKAGE_STATEMENTS: &str = "\
A package body has no statements: give variables a first value, or call a procedure in main.";

const SEVERAL_PACKAGES: &str = "\
A text has one package: move these declarations into it, with a prefix to their names where two \
are alike.";

const PACKAGE_MISSING: &str = "\
What main is to do stands in a package: write `package App is procedure Run; end App;`, its \
body, `with App;`, and `App.Run;` in main.";

const MAIN_WITHOUT_CLAUSE: &str = "\
Main names the package: write `with App;` before it.";

const MAIN_CLAUSES: &str = "\
Before main stands `with App;`, for the package alone: its statements are `null;` and \
`App.Run;`.";

const MAIN_DECLARATIONS: &str = "\
Main has no declarations: declare this in the package, or in the procedure of the package that \
main calls.";

const MAIN_STATEMENTS: &str = "\
Main's statements are `null;` and `App.Run;`: move these into a procedure of the package.";

const DECLARATION_AMONG_STATEMENTS: &str = "\
Declarations stand before `begin`: move this one there, or write a block, `declare M : \
Integer; begin .. end;`.";

const BEGIN_MISSING: &str = "\
A `begin` is missing before the first statement.";

const SEMICOLON_AFTER_IS: &str = "\
Leave out the `;` after `is`: declarations and `begin` follow.";

const SEMICOLON_MISSING: &str = "\
A `;` is missing before this, unless what ends there was cut by `--`, which begins a \
comment.";

const NAME_AFTER_END: &str = "\
The `end` of a body, a package, a task or a protected object has its name: write `end Main;`.";

const HANDLER_OCCURRENCE: &str = "\
A handler has no name for the occurrence: write `when others =>`.";

const CLAUSE_WITHOUT_USE: &str = "\
After each `with` stands the `use` of the same unit: write `with Control_IO; use Control_IO;`. \
The units are Ada.Real_Time and Control_IO.";

const SYSTEM_UNIT: &str = "\
Leave out the unit System: priorities are numbers, 0 to 30 of tasks and main, and up to 31 of \
protected objects.";

const TEXT_IO: &str = "\
Lines are written by Put with a label and a value: write `with Control_IO; use Control_IO;` and \
`Put (\"done\", 1);`.";

const TIMING_EVENT: &str = "\
There are no timing events: write a task that waits by `delay until At_Time;` and then does what \
the event's handler did.";

const SUSPENSION_OBJECT: &str = "\
There are no suspension objects: write a protected object with an entry, `entry Wait when \
Is_Open`, whose body sets `Is_Open := False;`, and a procedure that sets it to True.";

const INTERRUPT_UNIT: &str = "\
An interrupt is the number of its channel, 1 to 8: leave both clauses out, and write `procedure \
Handle with Attach_Handler => 1;`.";

const EXECUTION_TIME_UNIT: &str = "\
There is no execution time: computing takes none here. Measure times between `delay until`s by \
Clock of Ada.Real_Time.";

const OTHER_UNIT: &str = "\
Leave this unit out: the units are Ada.Real_Time and Control_IO.";

const SECONDS: &str = "\
Time spans are made by Milliseconds and Microseconds: write `Milliseconds (1_000)` for a second.";

const DURATION_CONVERSION: &str = "\
A time span has no other form: keep an Integer of milliseconds beside it, `Period : constant \
Integer := 10;`, and write `Milliseconds (Period)`.";

const FIRST_VALUE_FROM_CLOCK: &str = "\
The first value is `Clock` alone: write `Next : Time := Clock;`, and `Next := Next + \
Milliseconds (10);` as the first statement.";

const RELATIVE_DELAY: &str = "\
A task waits by `delay until`: write `delay until Clock + Milliseconds (500);` for half a second.";

const NOT_OF_RELATION: &str = "\
`not` takes one operand: write `not (X > 80)`, or `X <= 80`.";

const OTHER_TYPE: &str = "\
The types are Integer, Boolean, Time, Time_Span and those that the package declares: count in \
Integers.";

const OUTPUT_UNIT: &str = "\
Put and Read are of a unit: write `with Control_IO; use Control_IO;` before the package.";

const TIME_UNIT: &str = "\
Time and its operations are of a unit: write `with Ada.Real_Time; use Ada.Real_Time;` before the \
package.";

const STATEMENT_MISSING: &str = "\
A statement is wanted here: write `null;` where there is nothing to do.";

const MAIN_MISSING: &str = "\
A text ends with its main procedure: write `with App;` and `procedure Main is begin App.Run; end \
Main;` after the package body.";

const PUT_ARGUMENTS: &str = "\
Put has a label and a value: write `Put (\"level\", Level);`.";

const CHANGED_CONSTANT: &str = "\
Only variables change, and `out` and `in out` parameters: take a variable of its own, and a \
`while` loop for steps of another size.";

const RETURNED_VALUE: &str = "\
A procedure returns no value: assign it to an `out` parameter, and write `return;`.";

const LOCAL_TASK: &str = "\
Declare it in the package, and its body there.";

const SECOND_ENTRY: &str = "\
A protected object has one entry: use two objects, or a procedure for one of the two.";

const TASK_ENTRY: &str = "\
A task has no entries: let the tasks meet at the entry of a protected object.";

const BARRIER_EXPRESSION: &str = "\
A barrier is a Boolean component alone: keep `Is_Open : Boolean := False;`, set it where what \
the barrier asks for changes, and write `entry Pass when Is_Open is`.";

const SELECT: &str = "\
There is no select: a call of an entry waits until it is served, and what a task is to do \
meanwhile is done by a task of its own.";

const ABORT: &str = "\
There is no abort: let the task ask a protected object whether it is to end.";

const REQUEUE: &str = "\
There is no requeue: let the caller call again.";

const CASE_WITHOUT_OTHERS: &str = "\
A `case` ends with `when others =>`, also where the other choices have all values: write `when \
others => null;`.";

const ELSIF_WORD: &str = "\
The word is `elsif`: write `elsif N = 2 then`.";

const EXIT_CONDITION: &str = "\
Write `exit when N > 2;`, or `if N > 2 then exit; end if;`.";

const ARROW_MISSING: &str = "\
An arrow follows a choice: write `when 1 =>`, `when others =>`.";

const RANGE_AFTER_IN: &str = "\
The bounds follow `in`: write `for I in 1 .. 3 loop`.";

const LOOP_FOR_DO: &str = "\
The statements of a loop are between `loop` and `end loop;`: write `loop` for `do`.";

const IN_OUT_WORDS: &str = "\
The mode has two words: write `in out`.";

const RAISE_MESSAGE: &str = "\
An exception has no message: write `raise Bad;`, before it `Put (\"bad\", 1);` for what is \
to be written.";

const TYPE_FIRST: &str = "\
The name comes first: write `Count : Integer := 3;`.";

const RANGE_BY_WORD: &str = "\
Two dots stand between the bounds of a range: write `for I in 1 .. 3 loop`.";

const CONSTANT_FIRST: &str = "\
The name comes first: write `Size : constant Integer := 4;`.";

const SECOND_SEMICOLON: &str = "\
One `;` ends a statement or a declaration: leave the second one out.";

const CALL_WORD: &str = "\
A call begins with the name of what is called: write `Run;`.";

const SUBTYPE_OF_NOTHING: &str = "\
A subtype names its type: write `subtype Digit is Integer range 0 .. 9;`.";

const EQUALS_FOR_IS: &str = "\
`is` follows the name: write `type Digit is range 0 .. 9;`.";

const CLAUSE_IN_PACKAGE: &str = "\
Clauses stand before the package: write `with Ada.Real_Time; use Ada.Real_Time;` there.";

const SEMICOLON_BEFORE_IS: &str = "\
The `;` ends the declaration: leave it out before `is`.";

const PROCEDURE_WORD: &str = "\
Write `procedure Run is begin .. end Run;`, and with parameters `procedure Run (N : Integer) \
is`.";

const FUNCTION_RESULT: &str = "\
A function has a result: write `function Twice (N : Integer) return Integer is`.";

const TASK_STATEMENTS: &str = "\
What a task does stands in its body: write `task Pump;`, and `task body Pump is begin .. end \
Pump;` in the package body.";

const BODY_IN_SPECIFICATION: &str = "\
Bodies stand in the package body: write `procedure Run;` here.";

const SIGNED_OPERAND: &str = "\
An operand with a sign stands in parentheses: write `2 * (-1)`.";

const HANDLED_BLOCK: &str = "\
Exceptions are handled at the end of a block or a body: write `begin .. exception when Bad => .. \
end;`.";

const RAISE_NEW: &str = "\
An exception is declared, `Bad : exception;`, and raised by its name: write `raise Bad;`.";

const LABEL_AS_VALUE: &str = "\
There are no strings: a label stands in `Put (\"level\", Level);` alone.";

const END_IN_ONE_WORD: &str = "\
The words of an end stand apart: write `end if;`, `end case;` or `end loop;`.";

const CASE_OF: &str = "\
`is` follows the expression: write `case N is when 1 => .. when others => .. end case;`.";

const UNTIL_LOOP: &str = "\
A loop is left by `exit`: write `exit when N = 3;` as its last statement, and `end loop;`.";

const COMMA_FOR_SEMICOLON: &str = "\
Each declaration ends with `;`: write `A : Integer; B : Integer;`.";

const PROCEDURE_VALUE: &str = "\
A procedure has no value: give it an `out` parameter and call it, `Measure (N);`, or write a \
function.";

const TYPE_VALUE: &str = "\
A type is no value: write an object or a number, or convert one, `Count (N)`.";

const TASK_VALUE: &str = "\
A task has no value and is not called: it runs from the start of the program on.";

const PACKAGE_PREFIX: &str = "\
In the package its names have no prefix: write `Run;`.";

const PROTECTED_VALUE: &str = "\
A protected object is used by its operations: write `Store.Take (N);`.";

const COMPONENT_OUTSIDE: &str = "\
The components of a protected object are visible in its body alone: declare a function of it, \
`function Level return Integer;`, whose body returns the component, and write `Store.Level`.";

const COLON_AFTER_CONDITION: &str = "\
`then` follows a condition, and `loop` a range: write `if N = 1 then .. else .. end if;` and \
`for I in 1 .. 3 loop .. end loop;`.";

const SEMICOLON_AFTER_WORD: &str = "\
Leave out the `;` after this word: statements follow.";

const CLOCK_BY_NOW: &str = "\
The time is Clock of Ada.Real_Time: write `with Ada.Real_Time; use Ada.Real_Time;` before the \
package, and `Clock`.";

const ATTRIBUTE_BY_DOT: &str = "\
An attribute follows an apostrophe: write `Integer'Last`.";

const BOOLEAN_CONVERSION: &str = "\
Only numbers are converted: write `N /= 0`, and `(if B then 1 else 0)`.";

const LOOP_EXIT: &str = "\
A loop is left by `exit;`, or `exit when N = 3;`.";

const CONTINUE_WORD: &str = "\
There is no continue: write the statements that are left out in an `if`.";

const DIVISION_IN_PYTHON: &str = "\
Write one `/`: the quotient of two integers is an integer.";

const CHOICE_RANGE: &str = "\
A choice is one value: write `when 1 | 2 | 3 =>`, or an `if` with `N >= 1 and N <= 3`.";

const UNDECLARED_EXCEPTION: &str = "\
An exception is declared in the package, `Bad : exception;`; Constraint_Error and Program_Error \
are of the language.";

const LOOP_STEP: &str = "\
A `for` loop goes on by one: write `while I <= 9 loop .. I := I + 2; end loop;`.";

const OPERAND_MISSING: &str = "\
An operand is missing before this.";

const STRAY_PARENTHESIS: &str = "\
No parenthesis is open here: leave `)` out.";

const SECOND_RELATION: &str = "\
A relation has two operands: write `1 < N and N < 3`.";

const IF_EXPRESSION_WORDS: &str = "\
An if expression has three words: write `(if B then 1 else 2)`.";

const BIT_OPERATOR: &str = "\
`or` joins conditions: write `A or B`. There are no operations on bits.";

const NULL_VALUE: &str = "\
There is no null value: write a number, and keep a Boolean that says whether it counts.";

const CONSTANT_WITHOUT_VALUE: &str = "\
A constant has an initial value: write `Limit : constant Integer := 4;`.";

const COMPONENTS_FIRST: &str = "\
Components follow `private`: write `protected Store is procedure Put; private N : Integer := 0; \
end Store;`.";

const OPERATIONS_LAST: &str = "\
Operations stand before `private`: move this one there.";

const BARRIER_IN_DECLARATION: &str = "\
The barrier stands in the body: write `entry Go;` here, and `entry Go when Is_Open is` in the \
body.";

const ASSIGNMENT_AMONG_DECLARATIONS: &str = "\
Statements follow `begin`, and a variable is declared with its type: write `Count : Integer := \
3;`.";

const EXCEPTION_FIRST: &str = "\
The name comes first: write `Bad : exception;`.";

const LOCAL_TYPE: &str = "\
Types are declared in the package: move this one there.";

const RECORD_BY_STRUCT: &str = "\
Write `type Pair is record Low : Integer; High : Integer; end record;`.";

const UNIT_PREFIX: &str = "\
Names of a unit have no prefix: write `with Ada.Real_Time; use Ada.Real_Time;` before the \
package, and `Clock`.";

const ASSIGNMENT_IN_CONDITION: &str = "\
`=` compares: write `if N = 1 then`.";

const ARROW_FOR_ASSIGNMENT: &str = "\
`:=` assigns: write `N := 1;`.";

const CONDITION_MISSING: &str = "\
A condition is missing before this: write `if N = 1 then`, or `while N < 3 loop`.";

const PARENTHESIS_MISSING: &str = "\
An argument stands in parentheses: write `Milliseconds (500)`.";

const STATIC_IF: &str = "\
No if expression is static: write its value, or assign it in a statement.";

const STATIC_EXPRESSION: &str = "\
Write a number, or a constant that is declared in the package: `Size : constant Integer := 4;`.";
