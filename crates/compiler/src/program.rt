//! The sections of the image of a program.
ghost use Rattle.std.specs.Prelude.{◌≡◌, length, false, true, IfErr, IfOk};
ghost use Rattle.ada_tree.specs.ProgramTree.{program_tree};
ghost use Rattle.meaning.specs.Programs.{base_priority, package_items, program_of};
ghost use Rattle.package_code.specs.Directory.{HasNoNumbers, IsDirectory};
ghost use Rattle.package_code.specs.Globals.{AreGlobals};
ghost use Rattle.package_code.specs.Objects.{HaveObjects, objects_have_words};
ghost use Rattle.package_code.specs.Places.{HasPlaces};
ghost use Rattle.package_code.specs.Program.{HasProgram, KeepsTables, PassesTable, is_within_limits};
ghost use Rattle.package_code.specs.Refusing.{RefusesSections, RefusesLinking, program_labels, program_rows};

use crate::laws::{names_are_sound, variables_are_placed};
use base::limits::{EXCEPTIONS, LABELS, OBJECTS, ROWS, SUBPROGRAMS, TASKS};
use expr_code::{ImageLimit, Refusal};
use expr_soundness::laws::scopes_are_sound;
use image::{Kind, Object, Parts, Task};
use lexer::Text;
use package_code::{
    Directory, Globals, ProtectedObjects, Walk, attachments, globals_of, object_rows,
    protected_objects, row, task_row, task_rows, walk_over,
};
use program_soundness::body_laws::{fronts_fit, names_are_known, premises_hold};
use program_soundness::program_laws::starts_are_sound;
use ravenscar::Accepted;
use source_laws::cover_laws::{declarations_tell, names_are_covered};
use source_laws::laws::texts_are_spelled;
use source_laws::table_laws::{main_is_known, main_may_be_added, tables_are_small};
use std::alloc::Global;
use stmt_code::PlaceRow;
use types::laws::{shapes_stay, values_have_words};

// The row of main, whose subprogram has this number.
fn main_task(accepted: &Accepted, number: usize) -> Result<Task, Refusal>
    ensures refused { IfErr result (λ why. HasNoNumbers number why) }
    ensures task { let t = program_tree accepted.now in IfOk result (λ task. task ≡ record
        { name = t.main.name.name; priority = base_priority (program_of t).scope t.main.aspect; subprogram = number }) }
{
    let subprogram = u16::try_from(number).map_err(|_| Refusal::Limit(ImageLimit::Subprograms))?;
    let main = &accepted.program().main;
    task_row(accepted.scope(), &main.name, &main.aspect, subprogram)
}

/// What the declarations of a program give: the first words of its variables, its exceptions, the rows of its protected objects, and what bodies see of them.
#[derive(Drop)]
pub(crate) struct DeclaredTables {
    pub(crate) words: Vec<i64>,
    pub(crate) exceptions: Vec<Text>,
    pub(crate) objects: Vec<Object>,
    pub(crate) directory: Directory,
}

/// The tables of what a program declares, in the order of its text.
///
/// # Errors
/// As `sections`.
pub(crate) fn declarations(alloc: Global, accepted: &Accepted) -> Result<DeclaredTables, Refusal>
    ensures globals { let t = program_tree accepted.now in IfOk result (λ told. AreGlobals (program_of t).scope (package_items t.package_)
        (record { slots = told.directory.slots; words = told.words; exceptions = told.exceptions })) }
    ensures directory { IfOk result (λ told. IsDirectory (program_tree accepted.now) told.directory) }
    ensures objects { IfOk result (λ told. HaveObjects (program_tree accepted.now) told.objects.items) }
    ensures made { let t = program_tree accepted.now in IfOk result (λ told. objects_have_words (program_of t).scope (package_items t.package_) ≡ true) }
    ensures refused { IfErr result (λ why. RefusesSections (program_tree accepted.now) why) }
{
    declarations_tell();
    names_are_sound();
    variables_are_placed();
    let package_ = &accepted.program().package_;
    let scope = accepted.scope();
    let Globals {
        slots,
        words,
        exceptions,
    } = globals_of(alloc, scope, package_)?;
    let ProtectedObjects {
        declared,
        components,
    } = protected_objects(alloc, scope, package_)?;
    let directory = Directory::new(alloc, slots, components, scope, package_)?;
    let objects = object_rows(alloc, accepted, &directory, &declared)?;
    Ok(DeclaredTables {
        words,
        exceptions,
        objects,
        directory,
    })
}

/// The sections of the image of a program, and the places of its statements.
#[derive(Drop)]
pub(crate) struct Linked {
    pub(crate) parts: Parts,
    pub(crate) places: Vec<PlaceRow>,
}

// The code of its subprograms and tasks one behind another, in the order of their bodies, with their rows of handlers, that of main behind them, and the
// variables, protected objects and tasks in the order of their declarations; and the places of the statements of these bodies.
fn put_together(alloc: Global, accepted: &Accepted) -> Result<Linked, Refusal>
    ensures program { IfOk result (λ linked. HasProgram (program_tree accepted.now) linked.parts) }
    ensures places { IfOk result (λ linked. HasPlaces (program_tree accepted.now) linked.parts linked.places.items) }
    ensures labels { IfOk result (λ linked. linked.parts.labels ≡ program_labels (program_tree accepted.now)) }
    ensures rows { IfOk result (λ linked. length linked.parts.rows ≡ program_rows (program_tree accepted.now)) }
    ensures refused { IfErr result (λ why. RefusesSections (program_tree accepted.now) why) }
{
    main_is_known();
    main_may_be_added();
    names_are_covered();
    premises_hold();
    tables_are_small();
    let program = accepted.program();
    let DeclaredTables {
        words,
        exceptions,
        objects,
        directory,
    } = declarations(alloc, accepted)?;
    let walk = walk_over(alloc, accepted, &directory, exceptions)?;
    let Walk {
        mut draft,
        visible,
        mut subprograms,
        ..
    } = walk;
    let main = draft.main(&visible, &program.main.statements)?;
    let mut tasks = task_rows(alloc, accepted, &directory)?;
    tasks.push(main_task(accepted, subprograms.len())?)?;
    subprograms.push(row(Kind::TaskBody, main, &draft)?)?;
    let (rows, places) = draft.rows.split();
    let parts = Parts {
        exceptions: draft.exceptions,
        labels: draft.labels.texts(alloc)?,
        plain_words: words,
        objects,
        subprograms,
        tasks,
        rows,
        instructions: draft.code.instructions,
        attachments: attachments(alloc, accepted, &directory)?,
    };
    Ok(Linked { parts, places })
}

// Whether what the program has of its own is within the limits of images.
fn is_within_limits(parts: &Parts) -> bool
    ensures { result ≡ is_within_limits parts.now }
{
    parts.subprograms.len() <= SUBPROGRAMS
        && parts.tasks.len() <= TASKS
        && parts.exceptions.len() <= EXCEPTIONS
        && parts.labels.len() <= LABELS
        && parts.has_words()
        && parts.rows.len() <= ROWS
        && parts.objects.len() <= OBJECTS
}

// A limit that is passed by what the program has of its own.
fn passed_limit(parts: &Parts) -> ImageLimit
    requires passed { is_within_limits parts.now ≡ false }
    ensures { PassesTable parts.now result }
{
    if SUBPROGRAMS < parts.subprograms.len() {
        ImageLimit::Subprograms
    } else if TASKS < parts.tasks.len() {
        ImageLimit::Tasks
    } else if EXCEPTIONS < parts.exceptions.len() {
        ImageLimit::Exceptions
    } else if LABELS < parts.labels.len() {
        ImageLimit::Labels
    } else if !parts.has_words() {
        ImageLimit::Words
    } else if ROWS < parts.rows.len() {
        ImageLimit::Rows
    } else {
        ImageLimit::Objects
    }
}

// They are put together, and have the texts and counts of an image.
fn within_tables(alloc: Global, accepted: &Accepted) -> Result<Linked, Refusal>
    ensures program { IfOk result (λ linked. HasProgram (program_tree accepted.now) linked.parts) }
    ensures places { IfOk result (λ linked. HasPlaces (program_tree accepted.now) linked.parts linked.places.items) }
    ensures tables { IfOk result (λ linked. KeepsTables linked.parts) }
    ensures refused { IfErr result (λ why. RefusesSections (program_tree accepted.now) why) }
{
    fronts_fit();
    names_are_known();
    premises_hold();
    scopes_are_sound();
    shapes_stay();
    starts_are_sound();
    texts_are_spelled();
    values_have_words();
    let _program = accepted.program();
    let linked = put_together(alloc, accepted)?;
    if !is_within_limits(&linked.parts) {
        return Err(Refusal::Limit(passed_limit(&linked.parts)));
    }
    Ok(linked)
}

/// The sections of the image of an accepted program (docs/FORMATS.md): the code of its subprograms and tasks one after another, in the order of their bodies,
/// with their rows of handlers, that of main after them, the variables, the protected objects and the tasks in the order of their declarations, and main as
/// the last task (RM 10.2). They make a well-formed image (`sections_are_well_formed`). With them come the places of the statements of its bodies.
///
/// # Errors
/// `Limit` where the bound on its instructions, the choices of its handlers, or the words of a frame or of an object, pass those of images (specs/Refusing),
/// with the limit that may be passed; `Memory` where memory was refused.
pub(crate) fn sections(alloc: Global, accepted: &Accepted) -> Result<Linked, Refusal>
    ensures program { IfOk result (λ linked. HasProgram (program_tree accepted.now) linked.parts) }
    ensures places { IfOk result (λ linked. HasPlaces (program_tree accepted.now) linked.parts linked.places.items) }
    ensures tables { IfOk result (λ linked. KeepsTables linked.parts) }
    ensures refused { IfErr result (λ why. RefusesLinking (program_tree accepted.now) why) }
{
    tables_are_small();
    let _program = accepted.program();
    within_tables(alloc, accepted)
}
