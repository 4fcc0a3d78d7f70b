//! The bytes of an image (docs/FORMATS.md, "Sections").
ghost use Rattle.std.specs.Prelude.{◌≡◌, [], ◌++◌, ◌∷◌, ◌≤◌, length, flat_map, sum_by, IfErr, IfOk, OnOk};
ghost use Rattle.image_format.specs.Bytes.{address_of, attached_count, attachment_bytes, barrier_bytes, bytes_of, code_bytes, constant_of, data_bytes, half, header_bytes, instruction_bytes, kind_number, name_bytes, object_bytes, opcode_of, region_number, row_bytes, subprogram_bytes, table_bytes, task_bytes, text, version_of, word};
ghost use Rattle.image.specs.Faults.{memory_fault};

use base::Text;
use base::limits::{CHANNELS, WORDS};
use byteorder::{BigEndian, ByteOrder};
use handlers::Row;
use image::{
    Attachment, Barrier, Image, ImageFault, Instr, Kind, Object, Operation, Region, Subprogram,
    Task,
};
use std::alloc::{AllocError, Global};

#[tactic(auto, unfolding(crate::specs::Bytes::half))]
fn put_half(out: &mut Vec<u8>, number: u16) -> Result<(), AllocError>
    ensures { OnOk result (out.new.items ≡ out.old.items ++ half number) }
{
    let mut bytes = [0; 2];
    BigEndian::write_u16(&mut bytes, number);
    out.extend_from_slice(&bytes)
}

#[tactic(auto, unfolding(crate::specs::Bytes::word))]
fn put_word(out: &mut Vec<u8>, number: i64) -> Result<(), AllocError>
    ensures { OnOk result (out.new.items ≡ out.old.items ++ word number) }
{
    let mut bytes = [0; 8];
    BigEndian::write_i64(&mut bytes, number);
    out.extend_from_slice(&bytes)
}

fn put_text(out: &mut Vec<u8>, text_: &Text) -> Result<(), AllocError>
    ensures { OnOk result (out.new.items ≡ out.old.items ++ text text_.now) }
{
    let bytes = text_.as_bytes();
    out.push(bytes.len() as u8)?;
    out.extend_from_slice(bytes)
}

// Its number in operands.
fn region_number(region: Region) -> u16
    ensures same { result ≡ region_number region }
    ensures small { result ≤ 2 }
{
    match region {
        Region::Locals => 0,
        Region::Plain => 1,
        Region::Object => 2,
    }
}

/// Its number in images (docs/FORMATS.md, "Instructions").
#[tactic(auto, unfolding(crate::specs::Bytes::opcode_of))]
pub(crate) fn opcode_of(operation: &Operation) -> u8
    ensures { result ≡ opcode_of operation.now }
{
    match operation {
        Operation::Push(_) => 1,
        Operation::Drop => 2,
        Operation::Duplicate => 3,
        Operation::LoadLocal(_) => 4,
        Operation::StoreLocal(_) => 5,
        Operation::LoadPlain(_) => 6,
        Operation::StorePlain(_) => 7,
        Operation::LoadObject(_) => 8,
        Operation::StoreObject(_) => 9,
        Operation::LoadIndexed(_) => 10,
        Operation::StoreIndexed(_) => 11,
        Operation::LoadBlock { .. } => 12,
        Operation::StoreBlock { .. } => 13,
        Operation::Copy { .. } => 14,
        Operation::Negate => 15,
        Operation::Absolute => 16,
        Operation::Add => 17,
        Operation::Subtract => 18,
        Operation::Multiply => 19,
        Operation::Divide => 20,
        Operation::Modulo => 21,
        Operation::Remainder => 22,
        Operation::CheckRange => 23,
        Operation::Equal => 24,
        Operation::NotEqual => 25,
        Operation::Less => 26,
        Operation::LessOrEqual => 27,
        Operation::Greater => 28,
        Operation::GreaterOrEqual => 29,
        Operation::And => 30,
        Operation::Or => 31,
        Operation::ExclusiveOr => 32,
        Operation::Not => 33,
        Operation::Jump(_) => 34,
        Operation::JumpIfZero(_) => 35,
        Operation::JumpIfNotZero(_) => 36,
        Operation::Call(_) => 37,
        Operation::ProtectedCall(_) => 38,
        Operation::EntryCall(_) => 39,
        Operation::Return => 40,
        Operation::Raise => 41,
        Operation::CheckBlocking => 42,
        Operation::DelayUntil => 43,
        Operation::PutLine(_) => 44,
        Operation::ReadInput => 45,
        Operation::Clock => 46,
    }
}

/// The operand `a` of the operation, 0 where it isn't named (docs/FORMATS.md, "Instructions").
#[tactic(auto, unfolding(crate::specs::Bytes::address_of))]
pub fn address_of(operation: &Operation) -> u16
    ensures { result ≡ address_of operation.now }
{
    match operation {
        Operation::LoadLocal(address)
        | Operation::StoreLocal(address)
        | Operation::LoadPlain(address)
        | Operation::StorePlain(address)
        | Operation::LoadObject(address)
        | Operation::StoreObject(address)
        | Operation::Jump(address)
        | Operation::JumpIfZero(address)
        | Operation::JumpIfNotZero(address)
        | Operation::Call(address)
        | Operation::ProtectedCall(address)
        | Operation::EntryCall(address)
        | Operation::PutLine(address) => *address,
        Operation::LoadIndexed(region)
        | Operation::StoreIndexed(region)
        | Operation::LoadBlock { region, .. }
        | Operation::StoreBlock { region, .. } => region_number(*region),
        Operation::Copy { target, source, .. } => 3 * region_number(*target)
            + region_number(*source),
        _ => 0,
    }
}

/// The operand `k` of the operation, 0 where it isn't named (docs/FORMATS.md, "Instructions").
#[tactic(auto, unfolding(crate::specs::Bytes::constant_of))]
pub fn constant_of(operation: &Operation) -> i64
    ensures { result ≡ constant_of operation.now }
{
    match operation {
        Operation::Push(word) => *word,
        Operation::LoadBlock { words, .. }
        | Operation::StoreBlock { words, .. }
        | Operation::Copy { words, .. } => i64::from(*words),
        _ => 0,
    }
}

// An instruction's opcode, depth and operands.
fn put_fields(
    out: &mut Vec<u8>,
    opcode: u8,
    depth: u16,
    address: u16,
    constant: i64,
) -> Result<(), AllocError>
    ensures { OnOk result (out.new.items ≡ out.old.items ++ opcode ∷ half depth ++ half address ++ word constant) }
{
    out.push(opcode)?;
    put_half(out, depth)?;
    put_half(out, address)?;
    put_word(out, constant)
}

fn put_instruction(out: &mut Vec<u8>, x: &Instr) -> Result<(), AllocError>
    ensures { OnOk result (out.new.items ≡ out.old.items ++ instruction_bytes x.now) }
{
    let operation = &x.operation;
    put_fields(
        out,
        opcode_of(operation),
        x.depth,
        address_of(operation),
        constant_of(operation),
    )
}

fn put_barrier(out: &mut Vec<u8>, barrier: Barrier) -> Result<(), AllocError>
    ensures { OnOk result (out.new.items ≡ out.old.items ++ barrier_bytes barrier) }
{
    let (number, word) = match barrier {
        Barrier::Closed => (0, 0),
        Barrier::Open => (1, 0),
        Barrier::Word(word) => (2, word),
    };
    out.push(number)?;
    put_half(out, word)
}

fn put_words(out: &mut Vec<u8>, words: &[i64]) -> Result<(), AllocError>
    ensures { OnOk result (out.new.items ≡ out.old.items ++ flat_map word words.now) }
{
    for word in words {
        put_word(out, *word)?;
    }
    Ok(())
}

fn put_object(out: &mut Vec<u8>, object: &Object) -> Result<(), AllocError>
    requires { length object.now.words ≤ WORDS }
    ensures { OnOk result (out.new.items ≡ out.old.items ++ object_bytes object.now) }
{
    out.push(object.ceiling())?;
    put_half(out, object.entry().unwrap_or(u16::MAX))?;
    put_barrier(out, object.barrier())?;
    put_half(out, object.words().len() as u16)?;
    put_words(out, object.words())
}

/// The number of the kind in images (docs/FORMATS.md, "Sections").
pub fn kind_number(kind: &Kind) -> u8
    ensures { result ≡ kind_number kind.now }
{
    match kind {
        Kind::Plain => 0,
        Kind::ProtectedProcedure(_) => 1,
        Kind::ProtectedFunction(_) => 2,
        Kind::EntryBody(_) => 3,
        Kind::TaskBody => 4,
    }
}

fn put_subprogram(out: &mut Vec<u8>, s: &Subprogram) -> Result<(), AllocError>
    ensures { OnOk result (out.new.items ≡ out.old.items ++ subprogram_bytes s.now) }
{
    out.push(kind_number(&s.kind))?;
    put_half(out, s.kind.object().unwrap_or(u16::MAX))?;
    put_half(out, s.end_)?;
    put_half(out, s.parameters)?;
    put_half(out, s.results)?;
    put_half(out, s.locals)?;
    put_half(out, s.stack)
}

fn put_task(out: &mut Vec<u8>, task: &Task) -> Result<(), AllocError>
    ensures { OnOk result (out.new.items ≡ out.old.items ++ task_bytes task.now) }
{
    put_text(out, &task.name)?;
    out.push(task.priority)?;
    put_half(out, task.subprogram)
}

fn put_row(out: &mut Vec<u8>, row: &Row) -> Result<(), AllocError>
    ensures { OnOk result (out.new.items ≡ out.old.items ++ row_bytes row.now) }
{
    put_half(out, row.start)?;
    put_half(out, row.end_)?;
    put_half(out, row.exception)?;
    put_half(out, row.target)
}

fn put_attachment(out: &mut Vec<u8>, a: &Attachment) -> Result<(), AllocError>
    ensures { OnOk result (out.new.items ≡ out.old.items ++ attachment_bytes a.now) }
{
    out.push(a.channel)?;
    put_half(out, a.subprogram)
}

fn put_texts(out: &mut Vec<u8>, texts: &[Text]) -> Result<(), AllocError>
    ensures { OnOk result (out.new.items ≡ out.old.items ++ flat_map text texts.now) }
{
    for one in texts {
        put_text(out, one)?;
    }
    Ok(())
}

fn put_objects(out: &mut Vec<u8>, objects: &[Object]) -> Result<(), AllocError>
    requires { sum_by (λ o. length o.words) objects.now ≤ WORDS }
    ensures { OnOk result (out.new.items ≡ out.old.items ++ flat_map object_bytes objects.now) }
{
    for object in objects {
        put_object(out, object)?;
    }
    Ok(())
}

fn put_subprograms(out: &mut Vec<u8>, subprograms: &[Subprogram]) -> Result<(), AllocError>
    ensures { OnOk result (out.new.items ≡ out.old.items ++ flat_map subprogram_bytes subprograms.now) }
{
    for s in subprograms {
        put_subprogram(out, s)?;
    }
    Ok(())
}

fn put_tasks(out: &mut Vec<u8>, tasks: &[Task]) -> Result<(), AllocError>
    ensures { OnOk result (out.new.items ≡ out.old.items ++ flat_map task_bytes tasks.now) }
{
    for task in tasks {
        put_task(out, task)?;
    }
    Ok(())
}

fn put_rows(out: &mut Vec<u8>, rows: &[Row]) -> Result<(), AllocError>
    ensures { OnOk result (out.new.items ≡ out.old.items ++ flat_map row_bytes rows.now) }
{
    for row in rows {
        put_row(out, row)?;
    }
    Ok(())
}

fn put_attachments(out: &mut Vec<u8>, attachments: &[Attachment]) -> Result<(), AllocError>
    ensures { OnOk result (out.new.items ≡ out.old.items ++ flat_map attachment_bytes attachments.now) }
{
    for attachment in attachments {
        put_attachment(out, attachment)?;
    }
    Ok(())
}

fn put_instructions(out: &mut Vec<u8>, instructions: &[Instr]) -> Result<(), AllocError>
    ensures { OnOk result (out.new.items ≡ out.old.items ++ flat_map instruction_bytes instructions.now) }
{
    for x in instructions {
        put_instruction(out, x)?;
    }
    Ok(())
}

// The first four bytes, the version and the counts that each version has.
fn put_header(out: &mut Vec<u8>, version: u16, counts: &[u16; 8]) -> Result<(), AllocError>
    ensures { OnOk result (out.new.items ≡ out.old.items ++ 65 ∷ 82 ∷ 86 ∷ 78 ∷ flat_map half (version ∷ counts.now)) }
{
    out.extend_from_slice(b"ARVN")?;
    put_half(out, version)?;
    put_halves(out, counts)
}

// The version that has a place for these attachments.
fn version_of(attachments: &[Attachment]) -> u16
    ensures { result ≡ version_of attachments.now }
{
    match attachments {
        [] => 1,
        [_, ..] => 2,
    }
}

// The count of attachments, where there are any.
fn put_attached_count(out: &mut Vec<u8>, attachments: &[Attachment]) -> Result<(), AllocError>
    requires { length attachments.now ≤ CHANNELS }
    ensures { OnOk result (out.new.items ≡ out.old.items ++ flat_map half (attached_count attachments.now)) }
{
    match attachments {
        [] => Ok(()),
        [_, ..] => put_half(out, attachments.len() as u16),
    }
}

fn put_halves(out: &mut Vec<u8>, numbers: &[u16]) -> Result<(), AllocError>
    ensures { OnOk result (out.new.items ≡ out.old.items ++ flat_map half numbers.now) }
{
    for number in numbers {
        put_half(out, *number)?;
    }
    Ok(())
}

// How many there are of each, in the order of the header.
fn counts(image: &Image) -> [u16; 8]
    ensures { result ≡ length image.now.instructions ∷ length image.now.subprograms ∷ length image.now.objects ∷ length image.now.tasks ∷ length
        image.now.exceptions ∷ length image.now.rows ∷ length image.now.labels ∷ length image.now.plain_words ∷ [] }
{
    [
        image.instructions().len() as u16,
        image.subprograms().len() as u16,
        image.objects().len() as u16,
        image.tasks().len() as u16,
        image.exceptions().len() as u16,
        image.rows().len() as u16,
        image.labels().len() as u16,
        image.plain_words().len() as u16,
    ]
}

#[tactic(auto, unfolding(crate::specs::Bytes::header_bytes))]
fn put_head(out: &mut Vec<u8>, image: &Image) -> Result<(), AllocError>
    ensures { OnOk result (out.new.items ≡ out.old.items ++ header_bytes image.now) }
{
    let attachments = image.attachments();
    put_header(out, version_of(attachments), &counts(image))?;
    put_attached_count(out, attachments)
}

#[tactic(auto, unfolding(crate::specs::Bytes::name_bytes))]
fn put_names(out: &mut Vec<u8>, image: &Image) -> Result<(), AllocError>
    ensures { OnOk result (out.new.items ≡ out.old.items ++ name_bytes image.now) }
{
    put_texts(out, image.exceptions())?;
    put_texts(out, image.labels())
}

#[tactic(auto, unfolding(crate::specs::Bytes::data_bytes))]
fn put_data(out: &mut Vec<u8>, image: &Image) -> Result<(), AllocError>
    ensures { OnOk result (out.new.items ≡ out.old.items ++ data_bytes image.now) }
{
    put_words(out, image.plain_words())?;
    put_objects(out, image.objects())
}

#[tactic(auto, unfolding(crate::specs::Bytes::table_bytes))]
fn put_tables(out: &mut Vec<u8>, image: &Image) -> Result<(), AllocError>
    ensures { OnOk result (out.new.items ≡ out.old.items ++ table_bytes image.now) }
{
    put_subprograms(out, image.subprograms())?;
    put_tasks(out, image.tasks())?;
    put_rows(out, image.rows())?;
    put_attachments(out, image.attachments())
}

#[tactic(auto, unfolding(crate::specs::Bytes::code_bytes))]
fn put_code(out: &mut Vec<u8>, image: &Image) -> Result<(), AllocError>
    ensures { OnOk result (out.new.items ≡ out.old.items ++ code_bytes image.now) }
{
    put_instructions(out, image.instructions())
}

fn put_image(out: &mut Vec<u8>, image: &Image) -> Result<(), AllocError>
    ensures { OnOk result (out.new.items ≡ out.old.items ++ bytes_of image.now) }
{
    put_head(out, image)?;
    put_names(out, image)?;
    put_data(out, image)?;
    put_tables(out, image)?;
    put_code(out, image)
}

/// The bytes of an image: of version 2 where it has handlers of interrupts, else of version 1.
///
/// # Errors
/// 60, at byte 0, where memory was refused.
pub fn encode(alloc: Global, image: &Image) -> Result<Vec<u8>, ImageFault>
    ensures bytes { IfOk result (λ bytes. bytes.items ≡ bytes_of image.now) }
    ensures fault { IfErr result (λ fault. fault ≡ memory_fault) }
{
    let mut bytes = Vec::new(alloc);
    match put_image(&mut bytes, image) {
        Ok(()) => Ok(bytes),
        Err(_) => Err(ImageFault::memory()),
    }
}
