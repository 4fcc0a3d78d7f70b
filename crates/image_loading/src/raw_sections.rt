//! The sections of an image as its bytes give them, nothing judged (docs/FORMATS.md, "Sections").
use handlers::Row;
use image::Attachment;
use std::marker::Model;

/// A name or a label of any length.
#[derive(Drop)]
pub(crate) struct RawText {
    pub bytes: Vec<u8>,
}

impl Model for RawText {
    ghost use Rattle.std.specs.Prelude.{ℕ, List};

    ghost Value = { List ℕ };

    ghost view = { λ t. t.bytes.items };
}

/// A protected object with the numbers of its entry and its barrier.
#[derive(Drop)]
pub(crate) struct RawObject {
    pub ceiling: u8,
    pub entry: u16,
    pub barrier: u8,
    pub barrier_word: u16,
    pub words: Vec<i64>,
}

impl Model for RawObject {
    ghost use Rattle.image_loading.specs.RawRows.{RawObjectRow};

    ghost Value = { RawObjectRow };

    ghost view = { λ o. record { ceiling = o.ceiling; entry = o.entry; barrier = o.barrier; barrier_word = o.barrier_word; words = o.words.items } };
}

/// A subprogram with the numbers of its kind and its object.
#[derive(Clone, Copy)]
pub(crate) struct RawSubprogram {
    pub kind: u8,
    pub object: u16,
    pub end_: u16,
    pub parameters: u16,
    pub results: u16,
    pub locals: u16,
    pub stack: u16,
}

/// A task with a name of any length.
#[derive(Drop)]
pub(crate) struct RawTask {
    pub name: RawText,
    pub priority: u8,
    pub subprogram: u16,
}

impl Model for RawTask {
    ghost use Rattle.image_loading.specs.RawRows.{RawTaskRow};

    ghost Value = { RawTaskRow };

    ghost view = { λ t. record { name = t.name; priority = t.priority; subprogram = t.subprogram } };
}

/// An instruction with its opcode and both operands.
#[derive(Clone, Copy)]
pub(crate) struct RawInstruction {
    pub opcode: u8,
    pub depth: u16,
    pub address: u16,
    pub constant: i64,
}

/// The version, and the sections in the order of the bytes.
#[derive(Drop)]
pub(crate) struct RawSections {
    pub version: u16,
    pub exceptions: Vec<RawText>,
    pub labels: Vec<RawText>,
    pub plain_words: Vec<i64>,
    pub objects: Vec<RawObject>,
    pub subprograms: Vec<RawSubprogram>,
    pub tasks: Vec<RawTask>,
    pub rows: Vec<Row>,
    pub attachments: Vec<Attachment>,
    pub instructions: Vec<RawInstruction>,
}

impl Model for RawSections {
    ghost use Rattle.image_loading.specs.Reading.{Raw};

    ghost Value = { Raw };

    ghost view = { λ r. record {
      version = r.version;
      exceptions = r.exceptions.items;
      labels = r.labels.items;
      plain_words = r.plain_words.items;
      objects = r.objects.items;
      subprograms = r.subprograms.items;
      tasks = r.tasks.items;
      rows = r.rows.items;
      attachments = r.attachments.items;
      instructions = r.instructions.items;
    } };
}
