//! Instructions (docs/FORMATS.md, "Instructions").

/// A row of words that instructions with an index work on.
#[derive(Clone, Copy, PartialEq, Eq, Debug)]
pub enum Region {
    /// The locals of the running frame.
    Locals,
    /// The plain words, which all tasks share.
    Plain,
    /// The words of the object that the frame's subprogram belongs to.
    Object,
}

/// What an instruction does. Addresses are numbers of instructions, words, subprograms, labels or objects, from 0.
#[derive(Clone, Copy)]
pub enum Operation {
    /// 01 PUSH: gives the number.
    Push(i64),
    /// 02 DROP: takes the top word.
    Drop,
    /// 03 DUP: gives the top word once more.
    Duplicate,
    /// 04 LDL: gives the local word of this number.
    LoadLocal(u16),
    /// 05 STL: takes a word into the local of this number.
    StoreLocal(u16),
    /// 06 LDG: gives the plain word of this number.
    LoadPlain(u16),
    /// 07 STG: takes a word into the plain word of this number.
    StorePlain(u16),
    /// 08 LDP: gives the word of this number of the subprogram's object.
    LoadObject(u16),
    /// 09 STP: takes a word into the word of this number of the subprogram's object.
    StoreObject(u16),
    /// 0a LDX: takes an index and gives the word there in the region; an image fault outside.
    LoadIndexed(Region),
    /// 0b STX: takes an index and a word, and stores it there in the region; an image fault outside.
    StoreIndexed(Region),
    /// 0c LDB: takes an index and gives so many words from there in the region, in order; an image fault outside.
    LoadBlock {
        region: Region,
        words: u16,
    },
    /// 0d STB: takes an index and so many words, and stores them from there in the region; an image fault outside.
    StoreBlock {
        region: Region,
        words: u16,
    },
    /// 0e CPY: takes the indexes of target and source, and copies so many words, all read before one is written; an image fault outside.
    Copy {
        target: Region,
        source: Region,
        words: u16,
    },
    /// 0f NEG: minus the word; Constraint_Error on overflow (RM 4.5.4).
    Negate,
    /// 10 ABS: its absolute value; Constraint_Error on overflow (RM 4.5.6).
    Absolute,
    /// 11 ADD: the sum; Constraint_Error on overflow (RM 4.5.3).
    Add,
    /// 12 SUB: the difference; Constraint_Error on overflow (RM 4.5.3).
    Subtract,
    /// 13 MUL: the product; Constraint_Error on overflow (RM 4.5.5).
    Multiply,
    /// 14 DIV: the quotient, toward zero; Constraint_Error on a zero divisor or overflow (RM 4.5.5).
    Divide,
    /// 15 MOD: `mod`; Constraint_Error on a zero divisor (RM 4.5.5).
    Modulo,
    /// 16 REM: `rem`; Constraint_Error on a zero divisor (RM 4.5.5).
    Remainder,
    /// 17 CHK: takes two bounds and leaves the word below; Constraint_Error unless it lies between them (RM 3.5).
    CheckRange,
    /// 18 EQ: 1 where two words are equal, else 0.
    Equal,
    /// 19 NE: 1 where they differ, else 0.
    NotEqual,
    /// 1a LT: 1 where the first is less, else 0.
    Less,
    /// 1b LE: 1 where the first is less or equal, else 0.
    LessOrEqual,
    /// 1c GT: 1 where the first is greater, else 0.
    Greater,
    /// 1d GE: 1 where the first is greater or equal, else 0.
    GreaterOrEqual,
    /// 1e AND: two words, bit by bit.
    And,
    /// 1f OR: two words, bit by bit.
    Or,
    /// 20 XOR: two words, bit by bit.
    ExclusiveOr,
    /// 21 NOT: 1 where the word is 0, else 0.
    Not,
    /// 22 JMP: goes on at this instruction.
    Jump(u16),
    /// 23 JZ: takes a word, and goes on at this instruction where it is 0.
    JumpIfZero(u16),
    /// 24 JNZ: takes a word, and goes on at this instruction where it isn't 0.
    JumpIfNotZero(u16),
    /// 25 CALL: takes the parameters and calls the subprogram of this number; Storage_Error where 128 frames are in use.
    Call(u16),
    /// 26 PCALL: an external call of a procedure or function of an object, whose action it opens; Program_Error for the same object or the ceiling (RM 9.5.1,
    /// D.3).
    ProtectedCall(u16),
    /// 27 ECALL: calls the entry of the object of this number; runs, queues, or Program_Error inside any action, for the ceiling, or where a call is queued (RM
    /// 9.5.3, D.7).
    EntryCall(u16),
    /// 28 RET: gives the results to the caller, and ends the call, the action or the task.
    Return,
    /// 29 RAISE: takes an exception's number and raises it; an image fault where there is none.
    Raise,
    /// 2a BLK: Program_Error inside any action (RM 9.5.1).
    CheckBlocking,
    /// 2b DLY: takes a time, `delay until`; Program_Error inside any action (RM 9.6).
    DelayUntil,
    /// 2c PUT: takes a word and writes a line with the label of this number.
    PutLine(u16),
    /// 2d READ: takes a channel and gives its input; Constraint_Error where there is none of this number.
    ReadInput,
    /// 2e CLK: gives the time, in microseconds since the start.
    Clock,
}

/// One instruction: what it does, and how many words are on the frame's operand stack before it.
#[derive(Clone, Copy)]
pub struct Instr {
    /// The words on the operand stack before it.
    pub depth: u16,
    /// What it does.
    pub operation: Operation,
}
