//! Which rules the tables of an image break, and at which byte (specs/Loading).
ghost use Rattle.std.specs.Prelude.{◌≡◌, slice_get, IfOk};
ghost use Rattle.std.specs.List.{list_all};
ghost use Rattle.image_loading.specs.Decoding.{object_from};
ghost use Rattle.image_loading.specs.FaultOrder.{first_of};
ghost use Rattle.image_loading.specs.Loading.{attached_faults, attachment_faults, barrier_faults, barrier_number, behind_all, behind_object, behind_row, behind_task, behind_text, body_faults, ceiling_faults, count_faults, count_rule, crossing_faults, decoded_faults, each, entry_body_faults, entry_called_faults, entry_faults, exception_faults, handler_faults, has_barrier, is_end, is_exception, kind_faults, label_faults, last_size_byte, names_object, object_faults, region_faults, row_faults, size_faults, subprogram_faults, target_faults, task_body_faults, task_faults, text_byte, text_count_faults, word_of_barrier};
ghost use Rattle.image.specs.Operations.{called};
ghost use Rattle.image.specs.Rules.{are_nested, has_entry, is_barrier, is_task_body, may_handle, none_or};
ghost use Rattle.image.specs.Sections.{first_place};

use crate::fault_order::{after, after_all, rule, sooner};
use crate::raw_sections::{RawObject, RawSubprogram, RawTask, RawText};
use base::PredefinedException;
use base::faults::{DEPTHS_DISAGREE, JUMP_OUTSIDE, NAMED_THING_MISSING, TABLES_DISAGREE};
use base::limits::{
    CEILING, CHANNELS, EXCEPTIONS, FRAME_WORDS, INSTRUCTIONS, LABELS, NAME_LIMIT, OBJECTS, ROWS,
    SUBPROGRAMS, TASK_PRIORITY, TASKS,
};
use base::names::{is_label, is_name};
use handlers::{Row, first_crossing};
use image::{Attachment, Barrier, Draft, ImageFault, Kind, Parts, Subprogram};
use image_format::kind_number;
use std::alloc::{AllocError, Global};

fn behind_text(byte: u32, text: &RawText) -> u32
    ensures { result ≡ behind_text byte text.now }
{
    after(byte, text.bytes.len() + 1)
}

fn behind_object(byte: u32, object: &RawObject) -> u32
    ensures { result ≡ behind_object byte object.now }
{
    after_all(after(byte, 8), 8, object.words.len())
}

fn behind_task(byte: u32, task: &RawTask) -> u32
    ensures { result ≡ behind_task byte task.now }
{
    after(byte, task.name.bytes.len() + 4)
}

/// The byte after texts.
pub(crate) fn behind_texts(start: u32, texts: &[RawText]) -> u32
    ensures { result ≡ behind_all behind_text start texts.now }
{
    let mut byte = start;
    for text in texts {
        byte = behind_text(byte, text);
    }
    byte
}

/// The byte after objects.
pub(crate) fn behind_objects(start: u32, objects: &[RawObject]) -> u32
    ensures { result ≡ behind_all behind_object start objects.now }
{
    let mut byte = start;
    for object in objects {
        byte = behind_object(byte, object);
    }
    byte
}

/// The byte after tasks.
pub(crate) fn behind_tasks(start: u32, tasks: &[RawTask]) -> u32
    ensures { result ≡ behind_all behind_task start tasks.now }
{
    let mut byte = start;
    for task in tasks {
        byte = behind_task(byte, task);
    }
    byte
}

/// Where the size of the last object is, or `last` where there is none.
pub(crate) fn last_size_byte(last: u32, start: u32, objects: &[RawObject]) -> u32
    ensures { result ≡ last_size_byte last start objects.now }
{
    let mut size = last;
    let mut byte = start;
    for object in objects {
        size = after(byte, 6);
        byte = behind_object(byte, object);
    }
    size
}

// The rule that a count lies within its limits.
fn count_rule(byte: u32, least: usize, count: usize, most: usize) -> Option<ImageFault>
    ensures { result ≡ first_of (count_rule byte least count most) }
{
    let within = least <= count && count <= most;
    rule(TABLES_DISAGREE, byte, !within)
}

/// The first fault of the counts of instructions, subprograms, objects and tasks.
#[tactic(auto, using(crate::proofs::FirstFault::first_append))]
pub(crate) fn count_fault(parts: &Parts) -> Option<ImageFault>
    ensures { result ≡ first_of (count_faults parts.now) }
{
    sooner(
        count_rule(6, 1, parts.instructions.len(), INSTRUCTIONS),
        sooner(
            count_rule(8, 1, parts.subprograms.len(), SUBPROGRAMS),
            sooner(
                count_rule(10, 0, parts.objects.len(), OBJECTS),
                count_rule(12, 1, parts.tasks.len(), TASKS),
            ),
        ),
    )
}

/// The first fault of the counts of exceptions, handler rows and labels.
#[tactic(auto, using(crate::proofs::FirstFault::first_append))]
pub(crate) fn text_count_fault(parts: &Parts) -> Option<ImageFault>
    ensures { result ≡ first_of (text_count_faults parts.now) }
{
    sooner(
        count_rule(14, 4, parts.exceptions.len(), EXCEPTIONS),
        sooner(
            count_rule(16, 0, parts.rows.len(), ROWS),
            count_rule(18, 0, parts.labels.len(), LABELS),
        ),
    )
}

fn text_byte(byte: u32, text: &RawText) -> u32
    ensures { result ≡ text_byte byte text.now }
{
    let length = text.bytes.len();
    if 1 <= length && length <= NAME_LIMIT {
        after(byte, 1)
    } else {
        byte
    }
}

// Whether it is a name, and the predefined one where the exception of this number is predefined.
fn is_exception(number: usize, name: &[u8]) -> bool
    ensures { result ≡ is_exception number name.now }
{
    is_name(name)
        && match number {
            0 => PredefinedException::ConstraintError.name() == name,
            1 => PredefinedException::ProgramError.name() == name,
            2 => PredefinedException::StorageError.name() == name,
            3 => PredefinedException::TaskingError.name() == name,
            _ => true,
        }
}

fn exception_fault(number: usize, byte: u32, name: &RawText) -> Option<ImageFault>
    ensures { result ≡ first_of (exception_faults number byte name.now) }
{
    let holds = is_exception(number, &name.bytes);
    rule(TABLES_DISAGREE, text_byte(byte, name), !holds)
}

/// The first fault of the exceptions.
pub(crate) fn exceptions_fault(start: u32, names: &[RawText]) -> Option<ImageFault>
    ensures { result ≡ first_of (each behind_text exception_faults 0 start names.now) }
{
    let mut fault = None;
    let mut byte = start;
    for (number, name) in names.iter().enumerate() {
        fault = sooner(fault, exception_fault(number, byte, name));
        byte = behind_text(byte, name);
    }
    fault
}

fn label_fault(_number: usize, byte: u32, label: &RawText) -> Option<ImageFault>
    ensures { result ≡ first_of (label_faults _number byte label.now) }
{
    let holds = is_label(&label.bytes);
    rule(TABLES_DISAGREE, text_byte(byte, label), !holds)
}

/// The first fault of the labels.
pub(crate) fn labels_fault(start: u32, labels: &[RawText]) -> Option<ImageFault>
    ensures { result ≡ first_of (each behind_text label_faults 0 start labels.now) }
{
    let mut fault = None;
    let mut byte = start;
    for (number, label) in labels.iter().enumerate() {
        fault = sooner(fault, label_fault(number, byte, label));
        byte = behind_text(byte, label);
    }
    fault
}

fn entry_body_fault(byte: u32, number: usize, kind: &Kind) -> Option<ImageFault>
    ensures { result ≡ first_of (entry_body_faults byte number kind.now) }
{
    match kind {
        Kind::EntryBody(object) => rule(
            TABLES_DISAGREE,
            after(byte, 1),
            usize::from(*object) != number,
        ),
        _ => rule(TABLES_DISAGREE, byte, true),
    }
}

// The entry is of kind 3 and of its object.
fn entry_fault(
    parts: &Parts,
    subprograms: u32,
    number: usize,
    entry: Option<u16>,
) -> Option<ImageFault>
    ensures { result ≡ first_of (entry_faults parts.now subprograms number entry) }
{
    let entry = entry?;
    match parts.called(entry) {
        None => None,
        Some(s) => entry_body_fault(after(subprograms, 13 * usize::from(entry)), number, &s.kind),
    }
}

fn barrier_number(barrier: Barrier) -> u8
    ensures { result ≡ barrier_number barrier }
{
    match barrier {
        Barrier::Closed => 0,
        Barrier::Open => 1,
        Barrier::Word(_) => 2,
    }
}

fn barrier_word(barrier: Barrier) -> u16
    ensures { result ≡ word_of_barrier barrier }
{
    match barrier {
        Barrier::Closed | Barrier::Open => 0,
        Barrier::Word(word) => word,
    }
}

impl RawObject {
    // Whether the number is the barrier's, and there is a barrier only where there is an entry.
    fn has_barrier(&self) -> bool
        ensures { result ≡ has_barrier (object_from self.now) self.now.barrier }
    {
        let barrier = self.opening();
        barrier_number(barrier) == self.barrier
            && (self.called().is_some() || matches!(barrier, Barrier::Closed))
    }

    fn has_barrier_word(&self) -> bool
        ensures { result ≡ is_barrier (object_from self.now) (object_from self.now).barrier }
    {
        match self.opening() {
            Barrier::Closed | Barrier::Open => true,
            Barrier::Word(word) => usize::from(word) < self.words.len(),
        }
    }

    fn has_entry(&self, parts: &Parts) -> bool
        ensures { result ≡ has_entry parts.now (object_from self.now) }
    {
        match self.called() {
            None => true,
            Some(entry) => usize::from(entry) < parts.subprograms.len(),
        }
    }
}

#[tactic(auto, using(crate::proofs::FirstFault::first_append))]
fn barrier_fault(byte: u32, object: &RawObject) -> Option<ImageFault>
    ensures { result ≡ first_of (barrier_faults byte object.now (object_from object.now)) }
{
    let number = object.has_barrier();
    let word = barrier_word(object.opening()) == object.barrier_word;
    let lies = object.has_barrier_word();
    sooner(
        rule(TABLES_DISAGREE, after(byte, 3), !number),
        sooner(
            rule(TABLES_DISAGREE, after(byte, 4), !word),
            rule(TABLES_DISAGREE, after(byte, 6), !lies),
        ),
    )
}

#[tactic(auto, using(crate::proofs::FirstFault::first_append))]
fn ceiling_fault(parts: &Parts, byte: u32, object: &RawObject) -> Option<ImageFault>
    ensures { result ≡ first_of (ceiling_faults parts.now byte object.now) }
{
    let ceiling = object.ceiling <= CEILING;
    let exists = object.has_entry(parts);
    sooner(
        rule(TABLES_DISAGREE, byte, !ceiling),
        rule(NAMED_THING_MISSING, after(byte, 1), !exists),
    )
}

fn object_fault(
    parts: &Parts,
    subprograms: u32,
    number: usize,
    byte: u32,
    object: &RawObject,
) -> Option<ImageFault>
    ensures { result ≡ first_of (object_faults parts.now subprograms number byte object.now) }
{
    sooner(
        ceiling_fault(parts, byte, object),
        sooner(
            entry_fault(parts, subprograms, number, object.called()),
            barrier_fault(byte, object),
        ),
    )
}

/// The first fault of the objects.
pub(crate) fn objects_fault(
    parts: &Parts,
    subprograms: u32,
    start: u32,
    objects: &[RawObject],
) -> Option<ImageFault>
    ensures { result ≡ first_of (each behind_object (object_faults parts.now subprograms) 0 start objects.now) }
{
    let mut fault = None;
    let mut byte = start;
    for (number, object) in objects.iter().enumerate() {
        fault = sooner(
            fault,
            object_fault(parts, subprograms, number, byte, object),
        );
        byte = behind_object(byte, object);
    }
    fault
}

// Whether kinds 1 to 3 name an object, and the others none.
fn names_object(kind: &Kind, object: u16) -> bool
    ensures { result ≡ names_object kind.now object }
{
    kind.object().unwrap_or(u16::MAX) == object && !(kind.object().is_some() && object == u16::MAX)
}

#[tactic(auto, using(crate::proofs::FirstFault::first_append))]
fn kind_fault(
    parts: &Parts,
    number: usize,
    byte: u32,
    raw: &RawSubprogram,
    s: &Subprogram,
) -> Option<ImageFault>
    ensures { result ≡ first_of (kind_faults parts.now number byte raw.now s.now) }
{
    let exists = raw.object == u16::MAX || parts.has_object(s);
    let own = names_object(&s.kind, raw.object) && parts.is_entry_of_object(number, &s.kind);
    sooner(
        rule(TABLES_DISAGREE, byte, kind_number(&s.kind) != raw.kind),
        sooner(
            rule(NAMED_THING_MISSING, after(byte, 1), !exists),
            rule(TABLES_DISAGREE, after(byte, 1), !own),
        ),
    )
}

#[tactic(auto, using(crate::proofs::FirstFault::first_append))]
fn size_fault(byte: u32, s: &Subprogram) -> Option<ImageFault>
    ensures { result ≡ first_of (size_faults byte s.now) }
{
    let takes = s.kind.is_task_body() && s.parameters != 0;
    let gives = s.kind.is_task_body() && s.results != 0;
    let words = usize::from(s.locals) + usize::from(s.stack);
    sooner(
        rule(TABLES_DISAGREE, after(byte, 5), takes),
        sooner(
            rule(TABLES_DISAGREE, after(byte, 7), gives),
            sooner(
                rule(TABLES_DISAGREE, after(byte, 9), s.parameters > s.locals),
                rule(TABLES_DISAGREE, after(byte, 11), words > FRAME_WORDS),
            ),
        ),
    )
}

// Where the subprogram of this number begins.
fn first_place(parts: &Parts, number: usize) -> u16
    ensures { result ≡ first_place parts.now number }
{
    match number.checked_sub(1) {
        None => 0,
        Some(before) => match parts.subprograms.get(before) {
            None => 0,
            Some(s) => s.end_,
        },
    }
}

// Whether the end is behind the end before it, and the last one is the number of instructions.
fn is_end(parts: &Parts, number: usize, s: &Subprogram) -> bool
    ensures { result ≡ is_end parts.now number s.now }
{
    let left = parts.subprograms.len().checked_sub(number);
    first_place(parts, number) < s.end_
        && (left != Some(1) || usize::from(s.end_) == parts.instructions.len())
}

#[tactic(auto, using(crate::proofs::FirstFault::first_append))]
fn body_fault(
    parts: &Parts,
    ordered: bool,
    code: u32,
    number: usize,
    byte: u32,
    s: &Subprogram,
) -> Option<ImageFault>
    ensures { result ≡ first_of (body_faults parts.now ordered code number byte s.now) }
{
    let first = usize::from(first_place(parts, number));
    let last = usize::from(s.end_.saturating_sub(1));
    let falls = ordered && !parts.is_closed(s);
    let begins = ordered && !parts.has_depth(first, 0);
    sooner(
        rule(TABLES_DISAGREE, after(byte, 3), !is_end(parts, number, s)),
        sooner(
            rule(JUMP_OUTSIDE, after(code, 13 * last), falls),
            rule(DEPTHS_DISAGREE, after(code, 13 * first + 1), begins),
        ),
    )
}

fn decoded_fault(
    parts: &Parts,
    ordered: bool,
    code: u32,
    number: usize,
    byte: u32,
    raw: &RawSubprogram,
    s: &Subprogram,
) -> Option<ImageFault>
    ensures { result ≡ first_of (decoded_faults parts.now ordered code number byte raw.now s.now) }
{
    sooner(
        kind_fault(parts, number, byte, raw, s),
        sooner(
            size_fault(byte, s),
            body_fault(parts, ordered, code, number, byte, s),
        ),
    )
}

fn subprogram_fault(
    parts: &Parts,
    ordered: bool,
    code: u32,
    number: usize,
    byte: u32,
    raw: &RawSubprogram,
) -> Option<ImageFault>
    ensures { result ≡ first_of (subprogram_faults parts.now ordered code number byte raw.now) }
{
    decoded_fault(parts, ordered, code, number, byte, raw, &raw.subprogram())
}

/// The first fault of the subprograms. `ordered` says that their ends are in order.
pub(crate) fn subprograms_fault(
    parts: &Parts,
    ordered: bool,
    code: u32,
    start: u32,
    subprograms: &[RawSubprogram],
) -> Option<ImageFault>
    ensures { result ≡ first_of (each (behind_row 13) (subprogram_faults parts.now ordered code) 0 start subprograms.now) }
{
    let mut fault = None;
    let mut byte = start;
    for (number, s) in subprograms.iter().enumerate() {
        fault = sooner(
            fault,
            subprogram_fault(parts, ordered, code, number, byte, s),
        );
        byte = after(byte, 13);
    }
    fault
}

fn has_task_body(parts: &Parts, subprogram: u16) -> bool
    ensures { result ≡ none_or (slice_get parts.now.subprograms subprogram) (λ s. is_task_body s.kind) }
{
    match parts.called(subprogram) {
        None => true,
        Some(s) => s.kind.is_task_body(),
    }
}

#[tactic(auto, using(crate::proofs::FirstFault::first_append))]
fn task_body_fault(parts: &Parts, byte: u32, subprogram: u16) -> Option<ImageFault>
    ensures { result ≡ first_of (task_body_faults parts.now byte subprogram) }
{
    let exists = usize::from(subprogram) < parts.subprograms.len();
    let is_body = has_task_body(parts, subprogram);
    sooner(
        rule(NAMED_THING_MISSING, byte, !exists),
        rule(TABLES_DISAGREE, byte, !is_body),
    )
}

#[tactic(auto, using(crate::proofs::FirstFault::first_append))]
fn task_fault(parts: &Parts, _number: usize, byte: u32, task: &RawTask) -> Option<ImageFault>
    ensures { result ≡ first_of (task_faults parts.now _number byte task.now) }
{
    let behind_name = behind_text(byte, &task.name);
    let subprogram = after(byte, task.name.bytes.len() + 2);
    let is_named = is_name(&task.name.bytes);
    let priority = task.priority <= TASK_PRIORITY;
    sooner(
        rule(TABLES_DISAGREE, text_byte(byte, &task.name), !is_named),
        sooner(
            rule(TABLES_DISAGREE, behind_name, !priority),
            task_body_fault(parts, subprogram, task.subprogram),
        ),
    )
}

/// The first fault of the tasks.
pub(crate) fn tasks_fault(parts: &Parts, start: u32, tasks: &[RawTask]) -> Option<ImageFault>
    ensures { result ≡ first_of (each behind_task (task_faults parts.now) 0 start tasks.now) }
{
    let mut fault = None;
    let mut byte = start;
    for (number, task) in tasks.iter().enumerate() {
        fault = sooner(fault, task_fault(parts, number, byte, task));
        byte = behind_task(byte, task);
    }
    fault
}

#[tactic(auto, using(crate::proofs::FirstFault::first_append))]
fn region_fault(parts: &Parts, byte: u32, row: &Row) -> Option<ImageFault>
    ensures { result ≡ first_of (region_faults parts.now byte row.now) }
{
    let covers = row.start < row.end_;
    let exists = usize::from(row.exception) <= parts.exceptions.len();
    sooner(
        rule(JUMP_OUTSIDE, after(byte, 2), !covers),
        rule(TABLES_DISAGREE, after(byte, 4), !exists),
    )
}

#[tactic(auto, using(crate::proofs::FirstFault::first_append))]
fn target_fault(draft: &Draft, ordered: bool, code: u32, byte: u32, row: &Row) -> Option<ImageFault>
    ensures { result ≡ first_of (target_faults draft.now ordered code byte row.now) }
{
    let target = usize::from(row.target);
    let leaves = ordered && !draft.is_row_within(row);
    let begins = ordered && !draft.parts().has_depth(target, 1);
    sooner(
        rule(JUMP_OUTSIDE, after(byte, 6), leaves),
        rule(DEPTHS_DISAGREE, after(code, 13 * target + 1), begins),
    )
}

#[tactic(auto, using(crate::proofs::FirstFault::first_append))]
fn row_fault(
    draft: &Draft,
    ordered: bool,
    code: u32,
    _number: usize,
    byte: u32,
    row: &Row,
) -> Option<ImageFault>
    ensures { result ≡ first_of (row_faults draft.now ordered code _number byte row.now) }
{
    sooner(
        region_fault(draft.parts(), byte, row),
        target_fault(draft, ordered, code, byte, row),
    )
}

/// The first fault of the handler rows by themselves. `ordered` says that the ends of subprograms are in order.
pub(crate) fn rows_fault(
    draft: &Draft,
    ordered: bool,
    code: u32,
    start: u32,
    rows: &[Row],
) -> Option<ImageFault>
    ensures { result ≡ first_of (each (behind_row 8) (row_faults draft.now ordered code) 0 start rows.now) }
{
    let mut fault = None;
    let mut byte = start;
    for (number, row) in rows.iter().enumerate() {
        fault = sooner(fault, row_fault(draft, ordered, code, number, byte, row));
        byte = after(byte, 8);
    }
    fault
}

/// The fault of the first handler row that crosses a row before it.
///
/// # Errors
/// Where memory was refused.
pub(crate) fn crossing_fault(
    alloc: Global,
    start: u32,
    rows: &[Row],
) -> Result<Option<ImageFault>, AllocError>
    ensures { IfOk result (λ fault. fault ≡ first_of (each (behind_row 8) (crossing_faults rows.now) 0 start rows.now)) }
{
    Ok(match first_crossing(alloc, rows)? {
        None => None,
        Some(number) => rule(TABLES_DISAGREE, after(after_all(start, 8, number), 2), true),
    })
}

// Whether the subprogram, if it is there, may handle interrupts.
fn has_handler(parts: &Parts, number: u16) -> bool
    ensures { result ≡ none_or (called parts.now number) (may_handle parts.now) }
{
    match parts.called(number) {
        None => true,
        Some(s) => parts.may_handle(&s),
    }
}

#[tactic(auto, using(crate::proofs::FirstFault::first_append))]
fn handler_fault(parts: &Parts, byte: u32, number: u16) -> Option<ImageFault>
    ensures { result ≡ first_of (handler_faults parts.now byte number) }
{
    let exists = usize::from(number) < parts.subprograms.len();
    let handles = has_handler(parts, number);
    sooner(
        rule(NAMED_THING_MISSING, byte, !exists),
        rule(TABLES_DISAGREE, byte, !handles),
    )
}

#[tactic(auto, using(crate::proofs::FirstFault::first_append))]
fn attachment_fault(parts: &Parts, last: u8, byte: u32, a: &Attachment) -> Option<ImageFault>
    ensures { result ≡ first_of (attachment_faults parts.now last byte a.now) }
{
    let rises = last < a.channel && a.channel <= CHANNELS;
    sooner(
        rule(TABLES_DISAGREE, byte, !rises),
        handler_fault(parts, after(byte, 1), a.subprogram),
    )
}

/// The first fault of the attachments.
pub(crate) fn attached_fault(
    parts: &Parts,
    start: u32,
    attachments: &[Attachment],
) -> Option<ImageFault>
    ensures { result ≡ first_of (attached_faults parts.now 0 start attachments.now) }
{
    let mut fault = None;
    let mut last = 0;
    let mut byte = start;
    for a in attachments {
        fault = sooner(fault, attachment_fault(parts, last, byte, a));
        last = a.channel;
        byte = after(byte, 3);
    }
    fault
}
