//! What the numbers of raw sections denote (specs/Decoding). A number that denotes nothing gives way to one that does.
ghost use Rattle.std.specs.Prelude.{◌≡◌, ◌≤◌, IfOk, Some, map};
ghost use Rattle.image_loading.specs.Decoding.{barrier_from, block_from, entry_from, instruction_of, kind_from, object_from, operation_from, operation_of, region_from, sections_of, subprogram_from, task_from, text_from};

use crate::raw_sections::{
    RawInstruction, RawObject, RawSections, RawSubprogram, RawTask, RawText,
};
use arrayvec::ArrayVec;
use base::Text;
use handlers::Row;
use image::{Barrier, Instr, Kind, Object, Operation, Parts, Region, Subprogram, Task};
use std::alloc::{AllocError, Global};

fn region_from(number: u16) -> Region
    ensures { result ≡ region_from number }
{
    match number {
        1 => Region::Plain,
        2 => Region::Object,
        _ => Region::Locals,
    }
}

fn block_from(words: i64) -> u16
    ensures { result ≡ block_from words }
{
    if words < 0 {
        0
    } else {
        u16::try_from(words).unwrap_or(u16::MAX)
    }
}

fn barrier_from(number: u8, word: u16) -> Barrier
    ensures { result ≡ barrier_from number word }
{
    match number {
        0 => Barrier::Closed,
        2 => Barrier::Word(word),
        _ => Barrier::Open,
    }
}

fn kind_from(number: u8, object: u16) -> Kind
    ensures { result ≡ kind_from number object }
{
    match number {
        1 => Kind::ProtectedProcedure(object),
        2 => Kind::ProtectedFunction(object),
        3 => Kind::EntryBody(object),
        4 => Kind::TaskBody,
        _ => Kind::Plain,
    }
}

fn entry_from(number: u16) -> Option<u16>
    ensures { result ≡ entry_from number }
{
    if number == u16::MAX {
        None
    } else {
        Some(number)
    }
}

impl RawInstruction {
    /// Its operation, unless its opcode is unknown.
    #[tactic(auto, unfolding(crate::specs::Decoding::operation_from), using(crate::proofs::Opcodes::unknown))]
    pub(crate) fn operation(&self) -> Option<Operation>
        ensures { result ≡ operation_of self.now }
    {
        match self.opcode {
            1..=14 => Some(self.moving_operation()),
            15..=33 => Some(self.computing_operation()),
            34..=46 => Some(self.steering_operation()),
            _ => None,
        }
    }

    // 01 to 0e: moves words.
    #[tactic(auto, unfolding(crate::specs::Decoding::operation_from))]
    fn moving_operation(&self) -> Operation
        requires from { 1 ≤ self.now.opcode }
        requires to { self.now.opcode ≤ 14 }
        ensures { Some result ≡ operation_of self.now }
    {
        let region = region_from(self.address);
        let words = block_from(self.constant);
        match self.opcode {
            1 => Operation::Push(self.constant),
            2 => Operation::Drop,
            3 => Operation::Duplicate,
            4 => Operation::LoadLocal(self.address),
            5 => Operation::StoreLocal(self.address),
            6 => Operation::LoadPlain(self.address),
            7 => Operation::StorePlain(self.address),
            8 => Operation::LoadObject(self.address),
            9 => Operation::StoreObject(self.address),
            10 => Operation::LoadIndexed(region),
            11 => Operation::StoreIndexed(region),
            12 => Operation::LoadBlock { region, words },
            13 => Operation::StoreBlock { region, words },
            14 => Operation::Copy {
                target: region_from(self.address / 3),
                source: region_from(self.address % 3),
                words,
            },
            _ => unreachable!(),
        }
    }

    // 0f to 21: computes.
    #[tactic(auto, unfolding(crate::specs::Decoding::operation_from))]
    fn computing_operation(&self) -> Operation
        requires from { 15 ≤ self.now.opcode }
        requires to { self.now.opcode ≤ 33 }
        ensures { Some result ≡ operation_of self.now }
    {
        match self.opcode {
            15 => Operation::Negate,
            16 => Operation::Absolute,
            17 => Operation::Add,
            18 => Operation::Subtract,
            19 => Operation::Multiply,
            20 => Operation::Divide,
            21 => Operation::Modulo,
            22 => Operation::Remainder,
            23 => Operation::CheckRange,
            24 => Operation::Equal,
            25 => Operation::NotEqual,
            26 => Operation::Less,
            27 => Operation::LessOrEqual,
            28 => Operation::Greater,
            29 => Operation::GreaterOrEqual,
            30 => Operation::And,
            31 => Operation::Or,
            32 => Operation::ExclusiveOr,
            33 => Operation::Not,
            _ => unreachable!(),
        }
    }

    // 22 to 2e: goes elsewhere, or has to do with time, lines and inputs.
    #[tactic(auto, unfolding(crate::specs::Decoding::operation_from))]
    fn steering_operation(&self) -> Operation
        requires from { 34 ≤ self.now.opcode }
        requires to { self.now.opcode ≤ 46 }
        ensures { Some result ≡ operation_of self.now }
    {
        match self.opcode {
            34 => Operation::Jump(self.address),
            35 => Operation::JumpIfZero(self.address),
            36 => Operation::JumpIfNotZero(self.address),
            37 => Operation::Call(self.address),
            38 => Operation::ProtectedCall(self.address),
            39 => Operation::EntryCall(self.address),
            40 => Operation::Return,
            41 => Operation::Raise,
            42 => Operation::CheckBlocking,
            43 => Operation::DelayUntil,
            44 => Operation::PutLine(self.address),
            45 => Operation::ReadInput,
            46 => Operation::Clock,
            _ => unreachable!(),
        }
    }

    pub(crate) fn instruction(&self) -> Instr
        ensures { result ≡ instruction_of self.now }
    {
        Instr {
            depth: self.depth,
            operation: self.operation().unwrap_or(Operation::Raise),
        }
    }
}

impl RawSubprogram {
    pub(crate) fn subprogram(&self) -> Subprogram
        ensures { result ≡ subprogram_from self.now }
    {
        Subprogram {
            kind: kind_from(self.kind, self.object),
            end_: self.end_,
            parameters: self.parameters,
            results: self.results,
            locals: self.locals,
            stack: self.stack,
        }
    }
}

impl RawText {
    fn text(&self) -> Text
        ensures { result ≡ text_from self.now }
    {
        match Text::new(&self.bytes) {
            Some(text) => text,
            None => Text::of(ArrayVec::new()),
        }
    }
}

impl RawTask {
    fn task(&self) -> Task
        ensures { result ≡ task_from self.now }
    {
        Task {
            name: self.name.text(),
            priority: self.priority,
            subprogram: self.subprogram,
        }
    }
}

impl RawObject {
    /// The subprogram of its entry, if it has one.
    pub(crate) fn called(&self) -> Option<u16>
        ensures { result ≡ (object_from self.now).entry }
    {
        entry_from(self.entry)
    }

    /// What opens its entry.
    pub(crate) fn opening(&self) -> Barrier
        ensures { result ≡ (object_from self.now).barrier }
    {
        barrier_from(self.barrier, self.barrier_word)
    }

    fn object(&self, alloc: Global) -> Result<Object, AllocError>
        ensures { IfOk result (λ o. o ≡ object_from self.now) }
    {
        let words = self.words.to_vec(alloc)?;
        Ok(Object::new(self.ceiling, self.called(), self.opening(), words))
    }
}

impl RawSections {
    /// The sections that these denote.
    pub(crate) fn parts(&self, alloc: Global) -> Result<Parts, AllocError>
        ensures { IfOk result (λ parts. parts ≡ sections_of self.now) }
    {
        Ok(Parts {
            exceptions: texts(alloc, &self.exceptions)?,
            labels: texts(alloc, &self.labels)?,
            plain_words: self.plain_words.to_vec(alloc)?,
            objects: objects(alloc, &self.objects)?,
            subprograms: subprograms(alloc, &self.subprograms)?,
            tasks: tasks(alloc, &self.tasks)?,
            rows: rows(alloc, &self.rows)?,
            attachments: self.attachments.to_vec(alloc)?,
            instructions: instructions(alloc, &self.instructions)?,
        })
    }
}

fn texts(alloc: Global, texts: &[RawText]) -> Result<Vec<Text>, AllocError>
    ensures { IfOk result (λ v. v.items ≡ map text_from texts.now) }
{
    let mut made = Vec::new(alloc);
    for text in texts {
        made.push(text.text())?;
    }
    Ok(made)
}

fn objects(alloc: Global, objects: &[RawObject]) -> Result<Vec<Object>, AllocError>
    ensures { IfOk result (λ v. v.items ≡ map object_from objects.now) }
{
    let mut made = Vec::new(alloc);
    for object in objects {
        made.push(object.object(alloc)?)?;
    }
    Ok(made)
}

fn subprograms(alloc: Global, subprograms: &[RawSubprogram]) -> Result<Vec<Subprogram>, AllocError>
    ensures { IfOk result (λ v. v.items ≡ map subprogram_from subprograms.now) }
{
    let mut made = Vec::new(alloc);
    for subprogram in subprograms {
        made.push(subprogram.subprogram())?;
    }
    Ok(made)
}

fn tasks(alloc: Global, tasks: &[RawTask]) -> Result<Vec<Task>, AllocError>
    ensures { IfOk result (λ v. v.items ≡ map task_from tasks.now) }
{
    let mut made = Vec::new(alloc);
    for task in tasks {
        made.push(task.task())?;
    }
    Ok(made)
}

fn rows(alloc: Global, rows: &[Row]) -> Result<Vec<Row>, AllocError>
    ensures { IfOk result (λ v. v.items ≡ rows.now) }
{
    rows.to_vec(alloc)
}

fn instructions(alloc: Global, instructions: &[RawInstruction]) -> Result<Vec<Instr>, AllocError>
    ensures { IfOk result (λ v. v.items ≡ map instruction_of instructions.now) }
{
    let mut made = Vec::new(alloc);
    for instruction in instructions {
        made.push(instruction.instruction())?;
    }
    Ok(made)
}
