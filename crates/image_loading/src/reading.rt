//! Reads the sections of an image off its bytes, nothing judged (docs/FORMATS.md, "Sections").
ghost use Rattle.std.specs.Prelude.{◌≡◌, ◌+◌, ◌≤◌, IfOk, length};
ghost use Rattle.image_loading.specs.ReadResults.{ReadsAs};
ghost use Rattle.image_loading.specs.Reading.{attachment_row, byte_at, counts_row, half_at, handler_row, instruction_row, read_attached_count, read_attachment, read_bytes, read_counts, read_image, read_instruction, read_many, read_object, read_raw, read_row, read_subprogram, read_task, read_text, read_word, subprogram_row, word_at};

use crate::raw_sections::{
    RawInstruction, RawObject, RawSections, RawSubprogram, RawTask, RawText,
};
use handlers::Row;
use image::Attachment;
use std::alloc::{AllocError, AllocFailed, Global};

/// Why bytes were not read.
#[derive(Clone, Copy, Debug, PartialEq, Eq)]
pub(crate) enum Unread {
    /// Memory was refused.
    Memory,
    /// The bytes end early.
    Short,
}

impl From<AllocError> for Unread {
    ghost use Rattle.std.specs.Prelude.{◌≡◌};
    ghost use Rattle.image_loading.specs.declared.reading.Unread.TheVariants.{Memory};

    ghost from_gives = { λ _ e. e ≡ Memory };

    fn from(_error: AllocError) -> Unread {
        Unread::Memory
    }
}

impl<T: Drop> From<AllocFailed<T>> for Unread {
    ghost use Rattle.std.specs.Prelude.{◌≡◌};
    ghost use Rattle.image_loading.specs.declared.reading.Unread.TheVariants.{Memory};

    ghost from_gives = { λ _ e. e ≡ Memory };

    fn from(_error: AllocFailed<T>) -> Unread {
        Unread::Memory
    }
}

// The first `count` bytes, and those after them.
#[tactic(auto, unfolding(crate::specs::Reading::read_bytes))]
fn bytes_of(bytes: &[u8], count: usize) -> Result<(&[u8], &[u8]), Unread>
    ensures gives { ReadsAs (λ x. (x.0.now, x.1.now)) result (read_bytes count bytes.now) }
    ensures length { IfOk result (λ x. length x.0.now ≡ count) }
{
    if bytes.len() < count {
        return Err(Unread::Short);
    }
    Ok(bytes.split_at(count))
}

#[tactic(auto, unfolding(crate::specs::Reading::byte_at))]
fn byte_at(row: &[u8], place: usize) -> u8
    requires { place + 1 ≤ length row.now }
    ensures { result ≡ byte_at row.now place }
{
    row[place]
}

#[tactic(auto, unfolding(crate::specs::Reading::half_at))]
fn half_at(row: &[u8], place: usize) -> u16
    requires { place + 2 ≤ length row.now }
    ensures { result ≡ half_at row.now place }
{
    let (_, half) = row.split_at(place);
    u16::from_be_bytes([half[0], half[1]])
}

#[tactic(auto, unfolding(crate::specs::Reading::word_at))]
fn word_at(row: &[u8], place: usize) -> i64
    requires { place + 8 ≤ length row.now }
    ensures { result ≡ word_at row.now place }
{
    let (_, word) = row.split_at(place);
    i64::from_be_bytes([
        word[0], word[1], word[2], word[3], word[4], word[5], word[6], word[7],
    ])
}

#[tactic(auto, unfolding(crate::specs::Reading::read_text))]
fn text_of(alloc: Global, bytes: &[u8]) -> Result<(RawText, &[u8]), Unread>
    ensures { ReadsAs (λ x. (x.0, x.1.now)) result (read_text bytes.now) }
{
    let (length, rest) = bytes_of(bytes, 1)?;
    let (text, rest) = bytes_of(rest, usize::from(byte_at(length, 0)))?;
    let bytes = Vec::from_slice(alloc, text)?;
    Ok((RawText { bytes }, rest))
}

#[tactic(auto, unfolding(crate::specs::Reading::read_word))]
fn word_of(bytes: &[u8]) -> Result<(i64, &[u8]), Unread>
    ensures { ReadsAs (λ x. (x.0, x.1.now)) result (read_word bytes.now) }
{
    let (row, rest) = bytes_of(bytes, 8)?;
    Ok((word_at(row, 0), rest))
}

#[tactic(auto, unfolding(crate::specs::Reading::read_object))]
fn object_of(alloc: Global, bytes: &[u8]) -> Result<(RawObject, &[u8]), Unread>
    ensures { ReadsAs (λ x. (x.0, x.1.now)) result (read_object bytes.now) }
{
    let (row, rest) = bytes_of(bytes, 8)?;
    let (words, rest) = words_of(alloc, half_at(row, 6), rest)?;
    let object = RawObject {
        ceiling: byte_at(row, 0),
        entry: half_at(row, 1),
        barrier: byte_at(row, 3),
        barrier_word: half_at(row, 4),
        words,
    };
    Ok((object, rest))
}

#[tactic(auto, unfolding(crate::specs::Reading::read_subprogram))]
fn subprogram_of(bytes: &[u8]) -> Result<(RawSubprogram, &[u8]), Unread>
    ensures { ReadsAs (λ x. (x.0, x.1.now)) result (read_subprogram bytes.now) }
{
    let (row, rest) = bytes_of(bytes, 13)?;
    let subprogram = RawSubprogram {
        kind: byte_at(row, 0),
        object: half_at(row, 1),
        end_: half_at(row, 3),
        parameters: half_at(row, 5),
        results: half_at(row, 7),
        locals: half_at(row, 9),
        stack: half_at(row, 11),
    };
    Ok((subprogram, rest))
}

#[tactic(auto, unfolding(crate::specs::Reading::read_task))]
fn task_of(alloc: Global, bytes: &[u8]) -> Result<(RawTask, &[u8]), Unread>
    ensures { ReadsAs (λ x. (x.0, x.1.now)) result (read_task bytes.now) }
{
    let (name, rest) = text_of(alloc, bytes)?;
    let (row, rest) = bytes_of(rest, 3)?;
    let task = RawTask {
        name,
        priority: byte_at(row, 0),
        subprogram: half_at(row, 1),
    };
    Ok((task, rest))
}

#[tactic(auto, unfolding(crate::specs::Reading::read_row))]
fn row_of(bytes: &[u8]) -> Result<(Row, &[u8]), Unread>
    ensures { ReadsAs (λ x. (x.0, x.1.now)) result (read_row bytes.now) }
{
    let (row, rest) = bytes_of(bytes, 8)?;
    let handler = Row {
        start: half_at(row, 0),
        end_: half_at(row, 2),
        exception: half_at(row, 4),
        target: half_at(row, 6),
    };
    Ok((handler, rest))
}

#[tactic(auto, unfolding(crate::specs::Reading::read_attachment))]
fn attachment_of(bytes: &[u8]) -> Result<(Attachment, &[u8]), Unread>
    ensures { ReadsAs (λ x. (x.0, x.1.now)) result (read_attachment bytes.now) }
{
    let (row, rest) = bytes_of(bytes, 3)?;
    let attachment = Attachment {
        channel: byte_at(row, 0),
        subprogram: half_at(row, 1),
    };
    Ok((attachment, rest))
}

#[tactic(auto, unfolding(crate::specs::Reading::read_instruction))]
fn instruction_of(bytes: &[u8]) -> Result<(RawInstruction, &[u8]), Unread>
    ensures { ReadsAs (λ x. (x.0, x.1.now)) result (read_instruction bytes.now) }
{
    let (row, rest) = bytes_of(bytes, 13)?;
    let instruction = RawInstruction {
        opcode: byte_at(row, 0),
        depth: half_at(row, 1),
        address: half_at(row, 3),
        constant: word_at(row, 5),
    };
    Ok((instruction, rest))
}

fn texts_of(alloc: Global, count: u16, bytes: &[u8]) -> Result<(Vec<RawText>, &[u8]), Unread>
    ensures { ReadsAs (λ x. (x.0.items, x.1.now)) result (read_many read_text count bytes.now) }
{
    let mut texts = Vec::new(alloc);
    let mut rest = bytes;
    for _ in 0..count {
        let (text, after) = text_of(alloc, rest)?;
        texts.push(text)?;
        rest = after;
    }
    Ok((texts, rest))
}

fn words_of(alloc: Global, count: u16, bytes: &[u8]) -> Result<(Vec<i64>, &[u8]), Unread>
    ensures { ReadsAs (λ x. (x.0.items, x.1.now)) result (read_many read_word count bytes.now) }
{
    let mut words = Vec::new(alloc);
    let mut rest = bytes;
    for _ in 0..count {
        let (word, after) = word_of(rest)?;
        words.push(word)?;
        rest = after;
    }
    Ok((words, rest))
}

fn objects_of(alloc: Global, count: u16, bytes: &[u8]) -> Result<(Vec<RawObject>, &[u8]), Unread>
    ensures { ReadsAs (λ x. (x.0.items, x.1.now)) result (read_many read_object count bytes.now) }
{
    let mut objects = Vec::new(alloc);
    let mut rest = bytes;
    for _ in 0..count {
        let (object, after) = object_of(alloc, rest)?;
        objects.push(object)?;
        rest = after;
    }
    Ok((objects, rest))
}

fn subprograms_of(
    alloc: Global,
    count: u16,
    bytes: &[u8],
) -> Result<(Vec<RawSubprogram>, &[u8]), Unread>
    ensures { ReadsAs (λ x. (x.0.items, x.1.now)) result (read_many read_subprogram count bytes.now) }
{
    let mut subprograms = Vec::new(alloc);
    let mut rest = bytes;
    for _ in 0..count {
        let (subprogram, after) = subprogram_of(rest)?;
        subprograms.push(subprogram)?;
        rest = after;
    }
    Ok((subprograms, rest))
}

fn tasks_of(alloc: Global, count: u16, bytes: &[u8]) -> Result<(Vec<RawTask>, &[u8]), Unread>
    ensures { ReadsAs (λ x. (x.0.items, x.1.now)) result (read_many read_task count bytes.now) }
{
    let mut tasks = Vec::new(alloc);
    let mut rest = bytes;
    for _ in 0..count {
        let (task, after) = task_of(alloc, rest)?;
        tasks.push(task)?;
        rest = after;
    }
    Ok((tasks, rest))
}

fn rows_of(alloc: Global, count: u16, bytes: &[u8]) -> Result<(Vec<Row>, &[u8]), Unread>
    ensures { ReadsAs (λ x. (x.0.items, x.1.now)) result (read_many read_row count bytes.now) }
{
    let mut rows = Vec::new(alloc);
    let mut rest = bytes;
    for _ in 0..count {
        let (row, after) = row_of(rest)?;
        rows.push(row)?;
        rest = after;
    }
    Ok((rows, rest))
}

fn attachments_of(
    alloc: Global,
    count: u16,
    bytes: &[u8],
) -> Result<(Vec<Attachment>, &[u8]), Unread>
    ensures { ReadsAs (λ x. (x.0.items, x.1.now)) result (read_many read_attachment count bytes.now) }
{
    let mut attachments = Vec::new(alloc);
    let mut rest = bytes;
    for _ in 0..count {
        let (attachment, after) = attachment_of(rest)?;
        attachments.push(attachment)?;
        rest = after;
    }
    Ok((attachments, rest))
}

fn instructions_of(
    alloc: Global,
    count: u16,
    bytes: &[u8],
) -> Result<(Vec<RawInstruction>, &[u8]), Unread>
    ensures { ReadsAs (λ x. (x.0.items, x.1.now)) result (read_many read_instruction count bytes.now) }
{
    let mut instructions = Vec::new(alloc);
    let mut rest = bytes;
    for _ in 0..count {
        let (instruction, after) = instruction_of(rest)?;
        instructions.push(instruction)?;
        rest = after;
    }
    Ok((instructions, rest))
}

/// The version and how many there are of each, as the header says.
#[derive(Clone, Copy)]
pub(crate) struct Counts {
    pub version: u16,
    pub instructions: u16,
    pub subprograms: u16,
    pub objects: u16,
    pub tasks: u16,
    pub exceptions: u16,
    pub rows: u16,
    pub labels: u16,
    pub plain_words: u16,
    pub attachments: u16,
}

// How many attachments there are: version 2 says it.
#[tactic(auto, unfolding(crate::specs::Reading::read_attached_count))]
fn attached_count_of(version: u16, bytes: &[u8]) -> Result<(u16, &[u8]), Unread>
    ensures { ReadsAs (λ x. (x.0, x.1.now)) result (read_attached_count version bytes.now) }
{
    if version != 2 {
        return Ok((0, bytes));
    }
    let (count, rest) = bytes_of(bytes, 2)?;
    Ok((half_at(count, 0), rest))
}

#[tactic(auto, unfolding(crate::specs::Reading::read_counts))]
fn counts_of(bytes: &[u8]) -> Result<(Counts, &[u8]), Unread>
    ensures { ReadsAs (λ x. (x.0, x.1.now)) result (read_counts bytes.now) }
{
    let (header, rest) = bytes_of(bytes, 22)?;
    let version = half_at(header, 4);
    let (attachments, rest) = attached_count_of(version, rest)?;
    let counts = Counts {
        version,
        instructions: half_at(header, 6),
        subprograms: half_at(header, 8),
        objects: half_at(header, 10),
        tasks: half_at(header, 12),
        exceptions: half_at(header, 14),
        rows: half_at(header, 16),
        labels: half_at(header, 18),
        plain_words: half_at(header, 20),
        attachments,
    };
    Ok((counts, rest))
}

#[tactic(auto, unfolding(crate::specs::Reading::read_raw))]
fn sections_of(alloc: Global, counts: Counts, bytes: &[u8]) -> Result<(RawSections, &[u8]), Unread>
    ensures { ReadsAs (λ x. (x.0, x.1.now)) result (read_raw counts bytes.now) }
{
    let (exceptions, rest) = texts_of(alloc, counts.exceptions, bytes)?;
    let (labels, rest) = texts_of(alloc, counts.labels, rest)?;
    let (plain_words, rest) = words_of(alloc, counts.plain_words, rest)?;
    let (objects, rest) = objects_of(alloc, counts.objects, rest)?;
    let (subprograms, rest) = subprograms_of(alloc, counts.subprograms, rest)?;
    let (tasks, rest) = tasks_of(alloc, counts.tasks, rest)?;
    let (rows, rest) = rows_of(alloc, counts.rows, rest)?;
    let (attachments, rest) = attachments_of(alloc, counts.attachments, rest)?;
    let (instructions, rest) = instructions_of(alloc, counts.instructions, rest)?;
    let sections = RawSections {
        version: counts.version,
        exceptions,
        labels,
        plain_words,
        objects,
        subprograms,
        tasks,
        rows,
        attachments,
        instructions,
    };
    Ok((sections, rest))
}

/// The sections at the front of bytes, as many of each as the header says, and the bytes after them.
#[tactic(auto, unfolding(crate::specs::Reading::read_image))]
pub(crate) fn read(alloc: Global, bytes: &[u8]) -> Result<(RawSections, &[u8]), Unread>
    ensures { ReadsAs (λ x. (x.0, x.1.now)) result (read_image bytes.now) }
{
    let (counts, rest) = counts_of(bytes)?;
    sections_of(alloc, counts, rest)
}
