//! The listing of an image (docs/FORMATS.md, "Listing").
ghost use Rattle.std.specs.Prelude.{◌≡◌, ◌-◌, ◌++◌, ◌<◌, ◌^◌, flat_map, length, decimal, replicate, string_bytes, true, IfErr, IfOk, OnOk};
ghost use Rattle.std.specs.Fmt.{signed_decimal};
ghost use Rattle.std.specs.List.{list_all};
ghost use Rattle.std.specs.Str.{IsAscii};
ghost use Rattle.base.specs.Names.{is_label, is_name};
ghost use Rattle.image.specs.Faults.{memory_fault};
ghost use Rattle.image_format.specs.Listing.{attach_line, barrier_fields, exception_line, field, frame_fields, instruction_line, label_line, listing_of, mnemonic, numbered, object_line, operands, optional_field, right_in_five, row_line, subprogram_line, subprogram_lines, task_line};

use crate::encoding::{address_of, constant_of, kind_number};
use base::Text;
use handlers::Row;
use image::{Attachment, Barrier, Image, ImageFault, Instr, Object, Operation, Subprogram, Task};
use itoa::Buffer;
use std::alloc::{AllocError, Global};

// Its name in listings.
#[tactic(auto, unfolding(crate::specs::Listing::mnemonic))]
fn mnemonic(operation: &Operation) -> &'static str
    ensures { result.now ≡ mnemonic operation.now }
{
    match operation {
        Operation::Push(_) => "PUSH",
        Operation::Drop => "DROP",
        Operation::Duplicate => "DUP",
        Operation::LoadLocal(_) => "LDL",
        Operation::StoreLocal(_) => "STL",
        Operation::LoadPlain(_) => "LDG",
        Operation::StorePlain(_) => "STG",
        Operation::LoadObject(_) => "LDP",
        Operation::StoreObject(_) => "STP",
        Operation::LoadIndexed(_) => "LDX",
        Operation::StoreIndexed(_) => "STX",
        Operation::LoadBlock { .. } => "LDB",
        Operation::StoreBlock { .. } => "STB",
        Operation::Copy { .. } => "CPY",
        Operation::Negate => "NEG",
        Operation::Absolute => "ABS",
        Operation::Add => "ADD",
        Operation::Subtract => "SUB",
        Operation::Multiply => "MUL",
        Operation::Divide => "DIV",
        Operation::Modulo => "MOD",
        Operation::Remainder => "REM",
        Operation::CheckRange => "CHK",
        Operation::Equal => "EQ",
        Operation::NotEqual => "NE",
        Operation::Less => "LT",
        Operation::LessOrEqual => "LE",
        Operation::Greater => "GT",
        Operation::GreaterOrEqual => "GE",
        Operation::And => "AND",
        Operation::Or => "OR",
        Operation::ExclusiveOr => "XOR",
        Operation::Not => "NOT",
        Operation::Jump(_) => "JMP",
        Operation::JumpIfZero(_) => "JZ",
        Operation::JumpIfNotZero(_) => "JNZ",
        Operation::Call(_) => "CALL",
        Operation::ProtectedCall(_) => "PCALL",
        Operation::EntryCall(_) => "ECALL",
        Operation::Return => "RET",
        Operation::Raise => "RAISE",
        Operation::CheckBlocking => "BLK",
        Operation::DelayUntil => "DLY",
        Operation::PutLine(_) => "PUT",
        Operation::ReadInput => "READ",
        Operation::Clock => "CLK",
    }
}

fn put_field(out: &mut String, word: &str, number: usize) -> Result<(), AllocError>
    ensures { OnOk result (string_bytes out.new ≡ string_bytes out.old ++ field word.now number) }
{
    out.push_str(word)?;
    out.push_str(Buffer::new().format(number))
}

fn put_optional_field(out: &mut String, word: &str, number: Option<u16>) -> Result<(), AllocError>
    ensures { OnOk result (string_bytes out.new ≡ string_bytes out.old ++ optional_field word.now number) }
{
    match number {
        Some(number) => put_field(out, word, usize::from(number)),
        None => {
            out.push_str(word)?;
            out.push_str("-")
        }
    }
}

fn put_ascii(out: &mut String, text: &Text) -> Result<(), AllocError>
    requires { IsAscii text.now }
    ensures { OnOk result (string_bytes out.new ≡ string_bytes out.old ++ text.now) }
{
    let Ok(text) = str::from_utf8(text.as_bytes()) else {
        unreachable!()
    };
    out.push_str(text)
}

// What stands before a number of so many digits that is right in 5 places.
fn padding(digits: usize) -> &'static str
    ensures { result.now ≡ replicate (5 - digits) 32 }
{
    match digits {
        0 => "     ",
        1 => "    ",
        2 => "   ",
        3 => "  ",
        4 => " ",
        _ => "",
    }
}

fn put_right_in_five(out: &mut String, number: usize) -> Result<(), AllocError>
    ensures { OnOk result (string_bytes out.new ≡ string_bytes out.old ++ right_in_five number) }
{
    let mut buffer = Buffer::new();
    let digits = buffer.format(number);
    out.push_str(padding(digits.len()))?;
    out.push_str(digits)
}

#[tactic(auto, unfolding(crate::specs::Listing::operands))]
fn put_operands(out: &mut String, x: &Instr) -> Result<(), AllocError>
    ensures { OnOk result (string_bytes out.new ≡ string_bytes out.old ++ operands x.now) }
{
    put_field(out, " ", usize::from(x.depth))?;
    put_field(out, " ", usize::from(address_of(&x.operation)))?;
    out.push_str(" ")?;
    out.push_str(Buffer::new().format(constant_of(&x.operation)))?;
    out.push_str("\n")
}

fn put_instruction(out: &mut String, number: usize, x: &Instr) -> Result<(), AllocError>
    ensures { OnOk result (string_bytes out.new ≡ string_bytes out.old ++ instruction_line number x.now) }
{
    put_right_in_five(out, number)?;
    out.push_str(" ")?;
    out.push_str(mnemonic(&x.operation))?;
    put_operands(out, x)
}

fn put_exception(out: &mut String, number: usize, name: &Text) -> Result<(), AllocError>
    requires { is_name name.now ≡ true }
    ensures { OnOk result (string_bytes out.new ≡ string_bytes out.old ++ exception_line number name.now) }
{
    put_field(out, "exception ", number)?;
    out.push_str(" ")?;
    put_ascii(out, name)?;
    out.push_str("\n")
}

fn put_label(out: &mut String, number: usize, text: &Text) -> Result<(), AllocError>
    requires { is_label text.now ≡ true }
    ensures { OnOk result (string_bytes out.new ≡ string_bytes out.old ++ label_line number text.now) }
{
    put_field(out, "label ", number)?;
    out.push_str(" ")?;
    put_ascii(out, text)?;
    out.push_str("\n")
}

fn put_barrier(out: &mut String, barrier: Barrier) -> Result<(), AllocError>
    ensures { OnOk result (string_bytes out.new ≡ string_bytes out.old ++ barrier_fields barrier) }
{
    let (number, word) = match barrier {
        Barrier::Closed => (0, 0),
        Barrier::Open => (1, 0),
        Barrier::Word(word) => (2, word),
    };
    put_field(out, " barrier ", number)?;
    put_field(out, " word ", usize::from(word))
}

fn put_object(out: &mut String, number: usize, o: &Object) -> Result<(), AllocError>
    ensures { OnOk result (string_bytes out.new ≡ string_bytes out.old ++ object_line number o.now) }
{
    put_field(out, "object ", number)?;
    put_field(out, " ceiling ", usize::from(o.ceiling()))?;
    put_optional_field(out, " entry ", o.entry())?;
    put_barrier(out, o.barrier())?;
    put_field(out, " size ", o.words().len())?;
    out.push_str("\n")
}

fn put_task(out: &mut String, t: &Task) -> Result<(), AllocError>
    requires { is_name t.now.name ≡ true }
    ensures { OnOk result (string_bytes out.new ≡ string_bytes out.old ++ task_line t.now) }
{
    out.push_str("task ")?;
    put_ascii(out, &t.name)?;
    put_field(out, " priority ", usize::from(t.priority))?;
    put_field(out, " sub ", usize::from(t.subprogram))?;
    out.push_str("\n")
}

#[tactic(auto, unfolding(crate::specs::Listing::frame_fields))]
fn put_frame(out: &mut String, s: &Subprogram) -> Result<(), AllocError>
    ensures { OnOk result (string_bytes out.new ≡ string_bytes out.old ++ frame_fields s.now) }
{
    put_field(out, " params ", usize::from(s.parameters))?;
    put_field(out, " results ", usize::from(s.results))?;
    put_field(out, " locals ", usize::from(s.locals))?;
    put_field(out, " stack ", usize::from(s.stack))?;
    out.push_str("\n")
}

fn put_subprogram(out: &mut String, number: usize, s: &Subprogram) -> Result<(), AllocError>
    ensures { OnOk result (string_bytes out.new ≡ string_bytes out.old ++ subprogram_line number s.now) }
{
    put_field(out, "sub ", number)?;
    put_field(out, " kind ", usize::from(kind_number(&s.kind)))?;
    put_optional_field(out, " object ", s.kind.object())?;
    put_frame(out, s)
}

fn put_row(out: &mut String, r: &Row) -> Result<(), AllocError>
    ensures { OnOk result (string_bytes out.new ≡ string_bytes out.old ++ row_line r.now) }
{
    put_field(out, "handler ", usize::from(r.start))?;
    put_field(out, " ", usize::from(r.end_))?;
    put_field(out, " ", usize::from(r.exception))?;
    put_field(out, " ", usize::from(r.target))?;
    out.push_str("\n")
}

fn put_attachment(out: &mut String, a: &Attachment) -> Result<(), AllocError>
    ensures { OnOk result (string_bytes out.new ≡ string_bytes out.old ++ attach_line a.now) }
{
    put_field(out, "attach ", usize::from(a.channel))?;
    put_field(out, " ", usize::from(a.subprogram))?;
    out.push_str("\n")
}

// Exceptions are numbered from 1.
fn put_exceptions(out: &mut String, names: &[Text]) -> Result<(), AllocError>
    requires { list_all is_name names.now ≡ true }
    ensures { OnOk result (string_bytes out.new ≡ string_bytes out.old ++ numbered exception_line 1 names.now) }
{
    for (index, name) in names.iter().enumerate() {
        put_exception(out, index + 1, name)?;
    }
    Ok(())
}

fn put_labels(out: &mut String, labels: &[Text]) -> Result<(), AllocError>
    requires { list_all is_label labels.now ≡ true }
    ensures { OnOk result (string_bytes out.new ≡ string_bytes out.old ++ numbered label_line 0 labels.now) }
{
    for (number, text) in labels.iter().enumerate() {
        put_label(out, number, text)?;
    }
    Ok(())
}

fn put_objects(out: &mut String, objects: &[Object]) -> Result<(), AllocError>
    ensures { OnOk result (string_bytes out.new ≡ string_bytes out.old ++ numbered object_line 0 objects.now) }
{
    for (number, o) in objects.iter().enumerate() {
        put_object(out, number, o)?;
    }
    Ok(())
}

fn put_tasks(out: &mut String, tasks: &[Task]) -> Result<(), AllocError>
    requires { list_all (λ t. is_name t.name) tasks.now ≡ true }
    ensures { OnOk result (string_bytes out.new ≡ string_bytes out.old ++ flat_map task_line tasks.now) }
{
    for t in tasks {
        put_task(out, t)?;
    }
    Ok(())
}

fn put_rows(out: &mut String, rows: &[Row]) -> Result<(), AllocError>
    ensures { OnOk result (string_bytes out.new ≡ string_bytes out.old ++ flat_map row_line rows.now) }
{
    for r in rows {
        put_row(out, r)?;
    }
    Ok(())
}

fn put_attachments(out: &mut String, attachments: &[Attachment]) -> Result<(), AllocError>
    ensures { OnOk result (string_bytes out.new ≡ string_bytes out.old ++ flat_map attach_line attachments.now) }
{
    for a in attachments {
        put_attachment(out, a)?;
    }
    Ok(())
}

// Instructions that stand from a place on.
fn put_instructions(
    out: &mut String,
    place: usize,
    instructions: &[Instr],
) -> Result<(), AllocError>
    requires { place < 2 ^ 16 }
    ensures { OnOk result (string_bytes out.new ≡ string_bytes out.old ++ numbered instruction_line place instructions.now) }
{
    for (index, x) in instructions.iter().enumerate() {
        put_instruction(out, place + index, x)?;
    }
    Ok(())
}

// Each subprogram with its instructions.
fn put_subprograms(
    out: &mut String,
    subprograms: &[Subprogram],
    instructions: &[Instr],
) -> Result<(), AllocError>
    ensures { OnOk result (string_bytes out.new ≡ string_bytes out.old ++ subprogram_lines 0 0 subprograms.now instructions.now) }
{
    let mut place = 0;
    let mut rest = instructions;
    for (number, s) in subprograms.iter().enumerate() {
        let count = usize::from(s.end_).saturating_sub(place).min(rest.len());
        let (own, later) = rest.split_at(count);
        put_subprogram(out, number, s)?;
        put_instructions(out, place, own)?;
        place = usize::from(s.end_);
        rest = later;
    }
    Ok(())
}

fn put_image(out: &mut String, image: &Image) -> Result<(), AllocError>
    ensures { OnOk result (string_bytes out.new ≡ string_bytes out.old ++ listing_of image.now) }
{
    put_exceptions(out, image.exceptions())?;
    put_labels(out, image.labels())?;
    put_objects(out, image.objects())?;
    put_tasks(out, image.tasks())?;
    put_subprograms(out, image.subprograms(), image.instructions())?;
    put_rows(out, image.rows())?;
    put_attachments(out, image.attachments())
}

/// The listing of an image: a line for each exception, label, object, task, subprogram with its instructions, handler row, and handler of interrupts.
///
/// # Errors
/// 60, at byte 0, where memory was refused.
pub fn list(alloc: Global, image: &Image) -> Result<String, ImageFault>
    ensures listing { IfOk result (λ text. string_bytes text ≡ listing_of image.now) }
    ensures fault { IfErr result (λ fault. fault ≡ memory_fault) }
{
    let mut text = String::new(alloc);
    match put_image(&mut text, image) {
        Ok(()) => Ok(text),
        Err(_) => Err(ImageFault::memory()),
    }
}
