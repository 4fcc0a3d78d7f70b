//! The limits of texts, programs, images and runs, each once and by its name (docs/LANGUAGE.md and docs/FORMATS.md, "Limits").

/// The most bytes of a source text.
pub const TEXT_LIMIT: usize = 65_536;
/// The most characters of an identifier or a name.
pub const NAME_LIMIT: usize = 40;
/// The most characters of a label.
pub const LABEL_LIMIT: usize = 40;
/// The greatest value of a literal, `2**63 - 1`.
pub const LARGEST_NUMBER: u64 = 0x7fff_ffff_ffff_ffff;

/// Levels of a source text that may be open at once (docs/LANGUAGE.md, "Grammar").
pub const LEVELS: u8 = 40;

/// Priorities are below this number (RM D.1).
pub const PRIORITIES: usize = 32;
/// The greatest base priority of a task (RM D.1).
pub const TASK_PRIORITY: u8 = 30;
/// The greatest ceiling priority of a protected object (RM D.3).
pub const CEILING: u8 = 31;

/// Instructions of an image.
pub const INSTRUCTIONS: usize = 65_535;
/// Subprograms of an image: those of the source, the tasks' bodies and main's.
pub const SUBPROGRAMS: usize = 193;
/// The predefined exceptions (RM 11.1).
pub const PREDEFINED_EXCEPTIONS: usize = 4;
/// Exceptions of an image: the predefined ones and those of the source.
pub const EXCEPTIONS: usize = 36;
/// Labels of an image.
pub const LABELS: usize = 1_024;
/// Plain words and words of objects of an image together.
pub const WORDS: usize = 8_192;
/// Subprograms of a source.
pub const PROCEDURES: usize = 128;
/// Formal parameters of a subprogram or an entry.
pub const FORMALS: usize = 8;
/// Components of an array.
pub const COMPONENTS: usize = 1_024;
/// Tasks, main among them.
pub const TASKS: usize = 65;
/// Protected objects.
pub const OBJECTS: usize = 64;
/// Handler rows of an image.
pub const ROWS: usize = 4_096;

/// Open frames of a task, its body's frame among them.
pub const FRAMES: usize = 128;
/// Words of a frame: its locals and its operand stack.
pub const FRAME_WORDS: usize = 512;

/// Input channels are 1 up to this number.
pub const CHANNELS: u8 = 8;
/// What answers say for the handler of an interrupt that runs (RM C.3.1); no task has this number.
pub const ACTOR: u8 = 255;
/// Lines of a schedule.
pub const SCHEDULE_LINES: usize = 4_096;
