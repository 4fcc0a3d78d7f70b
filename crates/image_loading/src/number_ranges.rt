//! The numbers of an image fit their fields in its bytes: each is read, and has 16 or 64 bits.
ghost use Rattle.image.specs.Rules.{IsWellFormed};
ghost use Rattle.image_loading.specs.NumberRanges.{AttachmentFits, EachOf, InstructionFits, IsWord, ObjectFits, RowFits, SectionsFit, SubprogramFits, TaskNumbersFit};

use handlers::Row;
use image::{Attachment, Barrier, Image, Instr, Object, Subprogram, Task};
use image_format::{address_of, constant_of};

fn words_fit(words: &[i64])
    ensures { EachOf IsWord words.now }
{
    for word in words {
        let _word = *word;
    }
}

fn object_fits(object: &Object)
    ensures { ObjectFits object.now }
{
    let _entry = object.entry().unwrap_or(u16::MAX);
    let _word = match object.barrier() {
        Barrier::Closed | Barrier::Open => 0,
        Barrier::Word(word) => word,
    };
    words_fit(object.words());
}

fn objects_fit(objects: &[Object])
    ensures { EachOf ObjectFits objects.now }
{
    for object in objects {
        object_fits(object);
    }
}

fn subprogram_fits(s: &Subprogram)
    ensures { SubprogramFits s.now }
{
    let _object = s.kind.object().unwrap_or(u16::MAX);
    let _end = s.end_;
    let _parameters = s.parameters;
    let _results = s.results;
    let _locals = s.locals;
    let _stack = s.stack;
}

fn subprograms_fit(subprograms: &[Subprogram])
    ensures { EachOf SubprogramFits subprograms.now }
{
    for s in subprograms {
        subprogram_fits(s);
    }
}

fn task_fits(task: &Task)
    ensures { TaskNumbersFit task.now }
{
    let _subprogram = task.subprogram;
}

fn tasks_fit(tasks: &[Task])
    ensures { EachOf TaskNumbersFit tasks.now }
{
    for task in tasks {
        task_fits(task);
    }
}

fn row_fits(row: &Row)
    ensures { RowFits row.now }
{
    let _start = row.start;
    let _end = row.end_;
    let _exception = row.exception;
    let _target = row.target;
}

fn rows_fit(rows: &[Row])
    ensures { EachOf RowFits rows.now }
{
    for row in rows {
        row_fits(row);
    }
}

fn attachment_fits(a: &Attachment)
    ensures { AttachmentFits a.now }
{
    let _subprogram = a.subprogram;
}

fn attachments_fit(attachments: &[Attachment])
    ensures { EachOf AttachmentFits attachments.now }
{
    for a in attachments {
        attachment_fits(a);
    }
}

fn instruction_fits(x: &Instr)
    ensures { InstructionFits x.now }
{
    let _depth = x.depth;
    let _address = address_of(&x.operation);
    let _constant = constant_of(&x.operation);
}

fn instructions_fit(instructions: &[Instr])
    ensures { EachOf InstructionFits instructions.now }
{
    for x in instructions {
        instruction_fits(x);
    }
}

/// Reads the numbers of an image.
pub(crate) fn sections_fit(image: &Image)
    ensures fit { SectionsFit image.now }
    ensures well_formed { IsWellFormed image.now }
{
    words_fit(image.plain_words());
    objects_fit(image.objects());
    subprograms_fit(image.subprograms());
    tasks_fit(image.tasks());
    rows_fit(image.rows());
    attachments_fit(image.attachments());
    instructions_fit(image.instructions());
}
