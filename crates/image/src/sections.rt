//! The sections of an image as they are handed in.
use crate::{Attachment, Instr, Object, Subprogram, Task, Text};
use handlers::Row;
use std::marker::Model;

/// The sections of an image (docs/FORMATS.md, "Sections"), well-formed or not.
#[derive(Drop)]
pub struct Parts {
    /// The exceptions' names, numbered from 1; the first four are the predefined ones (RM 11.1).
    pub exceptions: Vec<Text>,
    /// The labels of lines, numbered from 0.
    pub labels: Vec<Text>,
    /// The initial values of the words that all tasks share.
    pub plain_words: Vec<i64>,
    /// The protected objects, numbered from 0.
    pub objects: Vec<Object>,
    /// The subprograms, numbered from 0, in the order of their instructions.
    pub subprograms: Vec<Subprogram>,
    /// The tasks in the order of declaration, main last.
    pub tasks: Vec<Task>,
    /// The handler rows.
    pub rows: Vec<Row>,
    /// The handlers of interrupts, by their channels in rising order (RM C.3.1).
    pub attachments: Vec<Attachment>,
    /// The instructions, numbered from 0.
    pub instructions: Vec<Instr>,
}

impl Model for Parts {
    ghost use Rattle.image.specs.Sections.{Sections};

    ghost Value = { Sections };

    ghost view = { λ p. record {
      exceptions = p.exceptions.items;
      labels = p.labels.items;
      plain_words = p.plain_words.items;
      objects = p.objects.items;
      subprograms = p.subprograms.items;
      tasks = p.tasks.items;
      rows = p.rows.items;
      attachments = p.attachments.items;
      instructions = p.instructions.items;
    } };
}
