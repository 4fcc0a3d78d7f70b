//! Loads images from bytes with full checks (docs/FORMATS.md, "Well-formed images").
ghost use Rattle.std.specs.Prelude.{◌≡◌, ◌++◌, [], length, nat_eq, not, ◌&&◌, if◌then◌else◌, IfErr, IfOk};
ghost use Rattle.image_loading.specs.Loaded.{IsLoaded, IsRead, RefusesBytes};
ghost use Rattle.image_format.specs.Bytes.{bytes_of};
ghost use Rattle.image_loading.specs.FaultOrder.{first_of};
ghost use Rattle.image_loading.specs.Loading.{agrees, all_crossing_faults, attached_count_faults, attachment_part_faults, attachments_start, behind_object, behind_row, behind_task, code_part_faults, code_start, each, faults_as, has_version, head_faults, header_faults, instruction_faults, labels_start, names_start, object_faults, objects_start, place_faults, row_faults, rows_start, subprogram_faults, subprograms_start, table_faults, task_faults, tasks_start, text_faults, word_faults, words_start};
ghost use Rattle.image.specs.Rules.{has_ends};

use crate::code_faults::{operands_fault, places_fault};
use crate::fault_order::{after, after_all, is_no_later, rule, sooner};
use crate::raw_sections::RawSections;
use crate::reading::{Unread, read};
use crate::table_faults::{
    attached_fault, behind_objects, behind_tasks, behind_texts, count_fault, crossing_fault,
    exceptions_fault, labels_fault, last_size_byte, objects_fault, rows_fault, subprograms_fault,
    tasks_fault, text_count_fault,
};
use base::faults::{SECTION_CUT_SHORT, STRAY_BYTES, TABLES_DISAGREE, WRONG_HEADER};
use base::limits::CHANNELS;
use image::{Draft, Image, ImageFault, Parts};
use std::alloc::{AllocError, Global};

// Where each section begins.
impl RawSections {
    fn names_start(&self) -> u32
        ensures { result ≡ names_start self.now }
    {
        if self.version == 2 { 24 } else { 22 }
    }

    fn labels_start(&self) -> u32
        ensures { result ≡ labels_start self.now }
    {
        behind_texts(self.names_start(), &self.exceptions)
    }

    fn words_start(&self) -> u32
        ensures { result ≡ words_start self.now }
    {
        behind_texts(self.labels_start(), &self.labels)
    }

    fn objects_start(&self) -> u32
        ensures { result ≡ objects_start self.now }
    {
        after_all(self.words_start(), 8, self.plain_words.len())
    }

    fn subprograms_start(&self) -> u32
        ensures { result ≡ subprograms_start self.now }
    {
        behind_objects(self.objects_start(), &self.objects)
    }

    fn tasks_start(&self) -> u32
        ensures { result ≡ tasks_start self.now }
    {
        after_all(self.subprograms_start(), 13, self.subprograms.len())
    }

    fn rows_start(&self) -> u32
        ensures { result ≡ rows_start self.now }
    {
        behind_tasks(self.tasks_start(), &self.tasks)
    }

    fn attachments_start(&self) -> u32
        ensures { result ≡ attachments_start self.now }
    {
        after_all(self.rows_start(), 8, self.rows.len())
    }

    fn code_start(&self) -> u32
        ensures { result ≡ code_start self.now }
    {
        after_all(self.attachments_start(), 3, self.attachments.len())
    }
}

// The rules of the sections, each part's first fault.
impl RawSections {
    fn word_fault(&self, parts: &Parts) -> Option<ImageFault>
        ensures { result ≡ first_of (word_faults self.now parts.now) }
    {
        let byte = last_size_byte(20, self.objects_start(), &self.objects);
        let few = parts.has_words();
        rule(TABLES_DISAGREE, byte, !few)
    }

    fn head_fault(&self, parts: &Parts) -> Option<ImageFault>
        ensures { result ≡ first_of (head_faults self.now parts.now) }
    {
        sooner(
            count_fault(parts),
            sooner(text_count_fault(parts), self.word_fault(parts)),
        )
    }

    #[tactic(auto, using(crate::proofs::FirstFault::first_append))]
    fn text_fault(&self) -> Option<ImageFault>
        ensures { result ≡ first_of (text_faults self.now) }
    {
        sooner(
            exceptions_fault(self.names_start(), &self.exceptions),
            labels_fault(self.labels_start(), &self.labels),
        )
    }

    fn all_objects_fault(&self, parts: &Parts) -> Option<ImageFault>
        ensures { result ≡ first_of (each behind_object (object_faults parts.now (subprograms_start self.now)) 0 (objects_start self.now) self.now.objects) }
    {
        objects_fault(
            parts,
            self.subprograms_start(),
            self.objects_start(),
            &self.objects,
        )
    }

    fn all_subprograms_fault(&self, parts: &Parts) -> Option<ImageFault>
        ensures { result ≡ first_of (each (behind_row 13) (subprogram_faults parts.now (has_ends parts.now) (code_start self.now)) 0
            (subprograms_start self.now) self.now.subprograms) }
    {
        subprograms_fault(
            parts,
            parts.has_ends(),
            self.code_start(),
            self.subprograms_start(),
            &self.subprograms,
        )
    }

    fn all_tasks_fault(&self, parts: &Parts) -> Option<ImageFault>
        ensures { result ≡ first_of (each behind_task (task_faults parts.now) 0 (tasks_start self.now) self.now.tasks) }
    {
        tasks_fault(parts, self.tasks_start(), &self.tasks)
    }

    fn table_fault(&self, parts: &Parts) -> Option<ImageFault>
        ensures { result ≡ first_of (table_faults self.now parts.now) }
    {
        sooner(
            self.all_objects_fault(parts),
            sooner(
                self.all_subprograms_fault(parts),
                self.all_tasks_fault(parts),
            ),
        )
    }

    fn attached_count_fault(&self) -> Option<ImageFault>
        ensures { result ≡ first_of (attached_count_faults self.now) }
    {
        let count = self.attachments.len();
        let within = 1 <= count && count <= usize::from(CHANNELS);
        rule(TABLES_DISAGREE, 22, self.version == 2 && !within)
    }

    #[tactic(auto, using(crate::proofs::FirstFault::first_append))]
    fn attachment_part_fault(&self, parts: &Parts) -> Option<ImageFault>
        ensures { result ≡ first_of (attachment_part_faults self.now parts.now) }
    {
        sooner(
            self.attached_count_fault(),
            attached_fault(parts, self.attachments_start(), &self.attachments),
        )
    }

    fn all_tables_fault(&self, parts: &Parts) -> Option<ImageFault>
        ensures { result ≡ first_of (table_faults self.now parts.now ++ attachment_part_faults self.now parts.now) }
    {
        sooner(self.table_fault(parts), self.attachment_part_fault(parts))
    }

    fn all_rows_fault(&self, draft: &Draft) -> Option<ImageFault>
        ensures { result ≡ first_of (each (behind_row 8) (row_faults draft.now (has_ends draft.now) (code_start self.now)) 0 (rows_start self.now)
            self.now.rows) }
    {
        rows_fault(
            draft,
            draft.parts().has_ends(),
            self.code_start(),
            self.rows_start(),
            &self.rows,
        )
    }

    fn all_operands_fault(&self) -> Option<ImageFault>
        ensures { result ≡ first_of (each (behind_row 13) instruction_faults 0 (code_start self.now) self.now.instructions) }
    {
        operands_fault(self.code_start(), &self.instructions)
    }

    fn all_places_fault(&self, draft: &Draft) -> Option<ImageFault>
        ensures { result ≡ first_of (if has_ends draft.now then each (behind_row 13) (place_faults draft.now (code_start self.now)) 0
            (code_start self.now) self.now.instructions else []) }
    {
        let code = self.code_start();
        if draft.parts().has_ends() {
            places_fault(draft, code, code, &self.instructions)
        } else {
            None
        }
    }

    fn code_part_fault(&self, draft: &Draft) -> Option<ImageFault>
        ensures { result ≡ first_of (code_part_faults self.now draft.now) }
    {
        sooner(
            self.all_rows_fault(draft),
            sooner(self.all_operands_fault(), self.all_places_fault(draft)),
        )
    }

    fn words_and_texts_fault(&self, parts: &Parts) -> Option<ImageFault>
        ensures { result ≡ first_of (head_faults self.now parts.now ++ text_faults self.now) }
    {
        sooner(self.head_fault(parts), self.text_fault())
    }

    // The first fault but for crossing handler regions.
    fn fault_but_crossing(&self, draft: &Draft) -> Option<ImageFault>
        ensures { result ≡ first_of (faults_as self.now draft.now) }
    {
        let parts = draft.parts();
        sooner(
            self.words_and_texts_fault(parts),
            sooner(self.all_tables_fault(parts), self.code_part_fault(draft)),
        )
    }

    /// The first of the rules 43 to 47 that these sections break, where they denote those of the draft. Whether handler regions cross
    /// is not asked where a fault comes before: then there may be more rows than an image has.
    ///
    /// # Errors
    /// Where memory was refused.
    #[tactic(auto, using(crate::proofs::FirstFault::first_append))]
    pub(crate) fn fault(
        &self,
        alloc: Global,
        draft: &Draft,
    ) -> Result<Option<ImageFault>, AllocError>
        ensures { IfOk result (λ fault. fault ≡ first_of (faults_as self.now draft.now ++ all_crossing_faults self.now)) }
    {
        let start = self.rows_start();
        let fault = self.fault_but_crossing(draft);
        if is_no_later(fault, TABLES_DISAGREE, after(start, 2)) {
            return Ok(fault);
        }
        let crossing = crossing_fault(alloc, start, &self.rows)?;
        Ok(sooner(fault, crossing))
    }
}

// Whether the bytes begin so, as far as both go.
fn agrees(front: &[u8], bytes: &[u8]) -> bool
    ensures { result ≡ agrees front.now bytes.now }
{
    let both = front.len().min(bytes.len());
    front[..both] == bytes[..both]
}

// Whether the version is one of the two, as far as bytes are there.
fn has_version(bytes: &[u8]) -> bool
    ensures { result ≡ has_version bytes.now }
{
    agrees(b"ARVN\x00\x01", bytes) || agrees(b"ARVN\x00\x02", bytes)
}

// The magic and the version.
#[tactic(auto, using(crate::proofs::FirstFault::first_append))]
fn header_fault(bytes: &[u8]) -> Option<ImageFault>
    ensures { result ≡ first_of (header_faults bytes.now) }
{
    let magic = agrees(b"ARVN", bytes);
    let header = has_version(bytes);
    sooner(
        rule(WRONG_HEADER, 0, !magic),
        rule(WRONG_HEADER, 4, magic && !header),
    )
}

// The sections of these bytes, all of them.
fn read_whole(alloc: Global, bytes: &[u8]) -> Result<RawSections, ImageFault>
    ensures read { IfOk result (λ raw. IsRead bytes.now raw) }
    ensures refused { IfErr result (λ fault. RefusesBytes bytes.now fault) }
{
    if let Some(fault) = header_fault(bytes) {
        return Err(fault);
    }
    match read(alloc, bytes) {
        Err(Unread::Memory) => Err(ImageFault::memory()),
        Err(Unread::Short) => Err(ImageFault {
            number: SECTION_CUT_SHORT,
            byte: after(0, bytes.len()),
        }),
        Ok((raw, behind)) => {
            if behind.is_empty() {
                return Ok(raw);
            }
            Err(ImageFault {
                number: STRAY_BYTES,
                byte: after(0, bytes.len().saturating_sub(behind.len())),
            })
        }
    }
}

/// The image of these bytes.
///
/// # Errors
/// The first of the rules 40 to 47 that is broken, at its byte: 40, 41, 42, then the least byte among 43 to 47, then the least number;
/// 60, at byte 0, where memory was refused.
pub fn load(alloc: Global, bytes: &[u8]) -> Result<Image, ImageFault>
    ensures bytes { IfOk result (λ image. bytes_of image ≡ bytes.now) }
    ensures loaded { IfOk result (λ image. IsLoaded bytes.now image) }
    ensures refused { IfErr result (λ fault. RefusesBytes bytes.now fault) }
{
    let raw = read_whole(alloc, bytes)?;
    let Ok(parts) = raw.parts(alloc) else {
        return Err(ImageFault::memory());
    };
    let draft = Draft::new(alloc, parts)?;
    match raw.fault(alloc, &draft) {
        Err(_) => Err(ImageFault::memory()),
        Ok(Some(fault)) => Err(fault),
        Ok(None) => draft.build(alloc),
    }
}
