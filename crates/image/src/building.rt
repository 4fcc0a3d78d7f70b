//! Images, well-formed by construction.
ghost use Rattle.std.specs.Prelude.{◌≡◌, IfErr, IfOk, OnOk};
ghost use Rattle.image.specs.Faults.{memory_fault};
ghost use Rattle.image.specs.Refusals.{RefusesImage};
ghost use Rattle.image.specs.Rules.{IsWellFormed};
ghost use Rattle.image.specs.Sections.{ends_of};
ghost use Rattle.image.specs.WordRanges.{ImageFits};

use crate::subprograms::subprogram_ends;
use crate::{Attachment, Draft, ImageFault, Instr, Object, Parts, Subprogram, Task, Text};
use handlers::{Row, Table};
use std::alloc::{AllocError, Global};
use std::marker::Model;

/// A well-formed image. Contracts see its sections.
#[derive(Drop)]
pub struct Image {
    pub(crate) parts: Parts,
    pub(crate) table: Table,
}

impl Model for Image {
    ghost use Rattle.std.specs.Prelude.{◌≡◌};
    ghost use Rattle.image.specs.Rules.{IsWellFormed};
    ghost use Rattle.image.specs.Sections.{Sections, ends_of};

    ghost Value = { Sections };

    ghost view = { λ i. i.parts };

    ghost invariant = { λ i. IsWellFormed i.parts × (i.table ≡ record { rows = i.parts.rows; ends = ends_of i.parts.subprograms }) };
}

impl Image {
    /// The image of these sections.
    ///
    /// # Errors
    /// 43 to 47, at byte 0, where that rule is broken; 60 where memory was refused.
    pub fn build(alloc: Global, parts: Parts) -> Result<Image, ImageFault>
        ensures same { IfOk result (λ image. image ≡ parts) }
        ensures well_formed { OnOk result (IsWellFormed parts) }
        ensures refused { IfErr result (RefusesImage parts) }
    {
        Draft::new(alloc, parts)?.build(alloc)
    }

    /// The exceptions' names, numbered from 1.
    pub fn exceptions(&self) -> &[Text]
        ensures same { result.now ≡ self.now.exceptions }
        ensures well_formed { IsWellFormed self.now }
    {
        &self.parts.exceptions
    }

    /// The labels of lines, numbered from 0.
    pub fn labels(&self) -> &[Text]
        ensures same { result.now ≡ self.now.labels }
        ensures well_formed { IsWellFormed self.now }
    {
        &self.parts.labels
    }

    /// The initial values of the plain words.
    pub fn plain_words(&self) -> &[i64]
        ensures same { result.now ≡ self.now.plain_words }
        ensures well_formed { IsWellFormed self.now }
    {
        &self.parts.plain_words
    }

    /// The protected objects, numbered from 0.
    pub fn objects(&self) -> &[Object]
        ensures same { result.now ≡ self.now.objects }
        ensures well_formed { IsWellFormed self.now }
    {
        &self.parts.objects
    }

    /// The subprograms, numbered from 0.
    pub fn subprograms(&self) -> &[Subprogram]
        ensures same { result.now ≡ self.now.subprograms }
        ensures well_formed { IsWellFormed self.now }
    {
        &self.parts.subprograms
    }

    /// The tasks in the order of declaration, main last.
    pub fn tasks(&self) -> &[Task]
        ensures same { result.now ≡ self.now.tasks }
        ensures well_formed { IsWellFormed self.now }
    {
        &self.parts.tasks
    }

    /// The handler rows in their given order.
    pub fn rows(&self) -> &[Row]
        ensures same { result.now ≡ self.now.rows }
        ensures well_formed { IsWellFormed self.now }
    {
        &self.parts.rows
    }

    /// The handlers of interrupts, by their channels in rising order (RM C.3.1).
    pub fn attachments(&self) -> &[Attachment]
        ensures same { result.now ≡ self.now.attachments }
        ensures well_formed { IsWellFormed self.now }
    {
        &self.parts.attachments
    }

    /// The table of the handler rows, for searches.
    pub fn handlers(&self) -> &Table
        ensures { result.now ≡ record { rows = self.now.rows; ends = ends_of self.now.subprograms } }
    {
        &self.table
    }

    /// The instructions, numbered from 0.
    pub fn instructions(&self) -> &[Instr]
        ensures same { result.now ≡ self.now.instructions }
        ensures well_formed { IsWellFormed self.now }
    {
        &self.parts.instructions
    }

    /// Constants and initial words are in 64 bits. It reads them and does nothing else: they are `i64`.
    pub fn words_fit(&self)
        ensures { ImageFits self.now }
    {
        self.parts.words_fit();
    }
}

impl Parts {
    pub(crate) fn copied_rows(&self, alloc: Global) -> Result<Vec<Row>, ImageFault>
        ensures ok { IfOk result (λ rows. rows.items ≡ self.now.rows) }
        ensures refused { IfErr result (λ fault. fault ≡ memory_fault) }
    {
        self.rows
            .to_vec(alloc)
            .map_err(|_: AllocError| ImageFault::memory())
    }

    // Where each subprogram ends.
    pub(crate) fn ends(&self, alloc: Global) -> Result<Vec<u16>, ImageFault>
        ensures ok { IfOk result (λ ends. ends.items ≡ ends_of self.now.subprograms) }
        ensures refused { IfErr result (λ fault. fault ≡ memory_fault) }
    {
        subprogram_ends(alloc, &self.subprograms).map_err(|_: AllocError| ImageFault::memory())
    }
}
