//! The numbers of faults, each by what it means (docs/LANGUAGE.md, "Faults", and docs/FORMATS.md).

/// A source text has too many bytes.
pub const TEXT_TOO_LONG: u8 = 1;
/// A character or a sequence begins no token, or no comment may hold it (RM 2.1, 2.2).
pub const STRAY_CHARACTER: u8 = 2;
/// An identifier has a doubled or final underline, or too many characters (RM 2.3).
pub const WRONG_IDENTIFIER: u8 = 3;
/// A literal is too large, has an underline that is not between digits, or is followed at once by a letter or a number sign (RM 2.4.1).
pub const WRONG_LITERAL: u8 = 4;
/// A label is empty, too long, not closed on its line, or has another character than those from 33 to 126 (RM 2.6).
pub const WRONG_LABEL: u8 = 5;
/// No derivation allows the token.
pub const UNEXPECTED_TOKEN: u8 = 6;
/// Too many levels are open.
pub const TOO_MANY_LEVELS: u8 = 7;
/// A name is not visible where it is used, or there is no component or operation of this name (RM 4.1, 8.3).
pub const NAME_NOT_VISIBLE: u8 = 10;
/// A name is declared twice, or hides a visible one (RM 8.3).
pub const DECLARED_TWICE: u8 = 11;
/// A type is not as expected, or an operator, a call or a name has no meaning where it is used (RM 4).
pub const NO_MEANING: u8 = 12;
/// What is to be changed is a constant, a loop parameter, an `in` formal, or a component in the body of a protected function (RM 3.3, 6.4.1, 9.5.1).
pub const NOT_A_VARIABLE: u8 = 13;
/// An expression must be static, and is not (RM 4.9).
pub const NOT_STATIC: u8 = 14;
/// The value of an expression that must be static raises an exception or is outside its subtype (RM 4.9).
pub const WRONG_STATIC_VALUE: u8 = 15;
/// A call has not as many actual parameters as there are formal ones (RM 6.4).
pub const WRONG_ARGUMENT_COUNT: u8 = 16;
/// A case statement chooses a value twice, has no `others`, or has alternatives after it (RM 5.4).
pub const WRONG_CHOICES: u8 = 17;
/// A declaration has no body, or a body is a second one, matches no declaration or not the one before it (RM 3.11.1, 6.3.1, 7.2).
pub const UNMATCHED_BODY: u8 = 18;
/// An `exit`, a `return` or a `raise` without a name is where it can't be, or a `return` has a value outside a function (RM 5.7, 6.5, 11.3).
pub const MISPLACED_STATEMENT: u8 = 19;
/// A choice of a handler is no exception, or one that was named before, or an `others` that is not alone and last (RM 11.2).
pub const WRONG_HANDLER: u8 = 20;
/// A function has a formal parameter that is not `in`, or a composite formal or result.
pub const WRONG_FUNCTION: u8 = 21;
/// The name after an `end` is another one than that of what ends there (RM 6.3, 7.1).
pub const WRONG_END_NAME: u8 = 22;
/// A program passes a limit of the language, or its code a limit of images.
pub const LIMIT_PASSED: u8 = 23;
/// A task or a protected object is declared in a body or a block (RM D.7, No_Task_Hierarchy and No_Local_Protected_Objects).
pub const LOCAL_TASKING: u8 = 30;
/// A protected object has more than one entry (RM D.7, Max_Protected_Entries).
pub const SECOND_ENTRY: u8 = 31;
/// A task has an entry, or there is an `accept` (RM D.7, Max_Task_Entries).
pub const TASK_ENTRY: u8 = 32;
/// A barrier is neither the bare name of a component of its object, nor True or False (RM D.7, Simple_Barriers).
pub const WRONG_BARRIER: u8 = 33;
/// A delay is relative (RM D.7, No_Relative_Delay).
pub const RELATIVE_DELAY: u8 = 34;
/// There is a `select` (RM D.7, No_Select_Statements).
pub const SELECT_STATEMENT: u8 = 35;
/// There is an `abort` (RM D.7, No_Abort_Statements).
pub const ABORT_STATEMENT: u8 = 36;
/// There is a `requeue` (RM D.7, No_Requeue_Statements).
pub const REQUEUE_STATEMENT: u8 = 37;
/// An aspect is another one than Priority, of an operation another one than Attach_Handler, or a priority is not static or not in its range (RM D.1, D.3).
pub const WRONG_ASPECT: u8 = 38;
/// The pragmas are not those of the profile (RM D.13, H.6).
pub const WRONG_PRAGMAS: u8 = 39;
/// An image: the magic or the version is another one.
pub const WRONG_HEADER: u8 = 40;
/// An image: a section ends early.
pub const SECTION_CUT_SHORT: u8 = 41;
/// An image: bytes follow the last section.
pub const STRAY_BYTES: u8 = 42;
/// An image: the operands of an instruction are out of range by themselves.
pub const OPERAND_OUT_OF_RANGE: u8 = 43;
/// An image: a jump, a subprogram's end or a handler leaves its subprogram.
pub const JUMP_OUTSIDE: u8 = 44;
/// An image: something that is named is not there, or may not be used so.
pub const NAMED_THING_MISSING: u8 = 45;
/// An image: depths of the operand stack don't agree.
pub const DEPTHS_DISAGREE: u8 = 46;
/// An image: the tables don't agree, or pass a limit.
pub const TABLES_DISAGREE: u8 = 47;
/// A schedule: a line has another form.
pub const WRONG_SCHEDULE_LINE: u8 = 50;
/// Memory was refused.
pub const MEMORY_REFUSED: u8 = 60;
/// The handler of an interrupt is a function or has formal parameters (RM C.3.1).
pub const HANDLER_PROFILE: u8 = 70;
/// The channel of a handler is not static, or not one of those that there are (RM C.3.1).
pub const WRONG_INTERRUPT: u8 = 71;
/// A channel has a second handler (RM C.3.1).
pub const SECOND_HANDLER: u8 = 72;
/// A protected object with a handler has another priority than the highest (RM C.3.1, D.3).
pub const HANDLER_CEILING: u8 = 73;
