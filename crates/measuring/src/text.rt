//! The text of measures (docs/FORMATS.md, "Measures").
ghost use Rattle.std.specs.Prelude.{◌≡◌, ◌*◌, ◌≤◌, ◌++◌, IfOk, OnOk, length, ℕ};
ghost use Rattle.base.specs.declared.limits.TheConstants.{OBJECTS, TASKS};
ghost use Rattle.tracing.specs.declared.calls.TheConstants.{ACTORS};
ghost use Rattle.measuring.specs.Stories.{ObjectCalls, Stories, Usages};
ghost use Rattle.measuring.specs.Tables.{AreMeasured, AreWhole, IsGrid, IsTable};
ghost use Rattle.measuring.specs.Text as texts;
ghost use Rattle.measuring.specs.Text.{actors_of, below, run_text, shown_frames, shown_object, shown_usage, shown_wait, shown_work};

use crate::actor::ActorMeasures;
use crate::blocking::{blocking, usage_at};
use crate::counting::Measures;
use crate::instants::Instants;
use crate::object::ObjectMeasures;
use crate::row_text::{
    instants_row, object_row, shown_frames, shown_usage, shown_wait, shown_work,
};
use crate::usage::UsageMeasures;
use base::limits::CHANNELS;
use image::{Image, Text};
use std::alloc::{AllocError, Global};

/// The form in which measures are written.
#[derive(Clone, Copy, PartialEq, Eq, Debug)]
pub enum Form {
    /// Columns with headings, for people.
    Table,
    /// Fields that are separated by tabs, for tools.
    Fields,
}

/// The headings of the tables.
const WORK_HEADING: &[u8] =
    b" priority      jobs     steps     least   longest  response  blocking preempted task\n";

const WAITS_HEADING: &[u8] =
    b"\n   queued     worst     total      late     worst     apart task\n";

const FRAMES_HEADING: &[u8] = b"\n   frames     words task\n";

const OBJECTS_HEADING: &[u8] = b"\n  ceiling     calls    queued object\n";

const USAGES_HEADING: &[u8] = b"\n    calls   longest task object\n";

const INSTANTS_HEADING: &[u8] = b"\n    steps at time\n";

// Appends a heading, where there are headings.
fn add_heading(text: &mut Vec<u8>, form: Form, heading: &[u8]) -> Result<(), AllocError>
    ensures { OnOk result (text.new.items ≡ text.old.items ++ texts.heading form heading.now) }
{
    match form {
        Form::Table => text.extend_from_slice(heading),
        Form::Fields => Ok(()),
    }
}

// Appends the rows of the work of tasks and handlers.
fn add_work(
    text: &mut Vec<u8>,
    form: Form,
    image: &Image,
    tasks: u8,
    objects: u8,
    actors: &[ActorMeasures],
    usages: &[UsageMeasures],
) -> Result<(), AllocError>
    requires tasks { tasks ≡ length image.now.tasks }
    requires few { tasks ≤ TASKS }
    requires objects { objects ≡ length image.now.objects }
    requires few_objects { objects ≤ OBJECTS }
    requires room { length actors.now ≡ ACTORS }
    requires usages { length usages.now ≡ ACTORS * OBJECTS }
    ensures { (m : ℕ → ActorMeasures) (u : ℕ → ℕ → UsageMeasures) → IsTable actors.now m → IsGrid usages.now u → OnOk result
        (text.new.items ≡ text.old.items ++ below (actors_of image.now) (shown_work form image.now m u)) }
{
    for actor in 0..tasks + (CHANNELS + 1) {
        let measures = &actors[usize::from(actor)];
        let steps = blocking(image, tasks, objects, usages, actor);
        text.extend_from_slice(shown_work(form, image, tasks, actor, steps, measures).as_slice())?;
    }
    Ok(())
}

// Appends the rows of the waiting of tasks and handlers.
fn add_waits(
    text: &mut Vec<u8>,
    form: Form,
    image: &Image,
    tasks: u8,
    actors: &[ActorMeasures],
) -> Result<(), AllocError>
    requires tasks { tasks ≡ length image.now.tasks }
    requires few { tasks ≤ TASKS }
    requires room { length actors.now ≡ ACTORS }
    ensures { (m : ℕ → ActorMeasures) → IsTable actors.now m → OnOk result
        (text.new.items ≡ text.old.items ++ below (actors_of image.now) (shown_wait form image.now m)) }
{
    for actor in 0..tasks + (CHANNELS + 1) {
        let measures = &actors[usize::from(actor)];
        text.extend_from_slice(shown_wait(form, image, tasks, actor, measures).as_slice())?;
    }
    Ok(())
}

// Appends the rows of the frames of tasks and handlers.
fn add_frames(
    text: &mut Vec<u8>,
    form: Form,
    image: &Image,
    tasks: u8,
    actors: &[ActorMeasures],
) -> Result<(), AllocError>
    requires tasks { tasks ≡ length image.now.tasks }
    requires few { tasks ≤ TASKS }
    requires room { length actors.now ≡ ACTORS }
    ensures { (m : ℕ → ActorMeasures) → IsTable actors.now m → OnOk result
        (text.new.items ≡ text.old.items ++ below (actors_of image.now) (shown_frames form image.now m)) }
{
    for actor in 0..tasks + (CHANNELS + 1) {
        let measures = &actors[usize::from(actor)];
        text.extend_from_slice(shown_frames(form, image, tasks, actor, measures).as_slice())?;
    }
    Ok(())
}

// Appends the rows of objects, of which there are so many.
fn add_objects(
    text: &mut Vec<u8>,
    form: Form,
    image: &Image,
    names: &[Text],
    count: u8,
    objects: &[ObjectMeasures],
) -> Result<(), AllocError>
    requires count { count ≡ length image.now.objects }
    requires room { length objects.now ≡ ACTORS }
    ensures { (m : ℕ → ObjectMeasures) → IsTable objects.now m → OnOk result
        (text.new.items ≡ text.old.items ++ below (length image.now.objects) (shown_object form image.now names.now m)) }
{
    for object in 0..count {
        let measures = &objects[usize::from(object)];
        text.extend_from_slice(object_row(form, image, names, object, measures).as_slice())?;
    }
    Ok(())
}

// Appends the rows of a task or handler at objects, of which there are so many.
fn add_usages_of(
    text: &mut Vec<u8>,
    form: Form,
    image: &Image,
    names: &[Text],
    actor: u8,
    count: u8,
    usages: &[UsageMeasures],
) -> Result<(), AllocError>
    requires few { count ≤ OBJECTS }
    requires room { length usages.now ≡ ACTORS * OBJECTS }
    ensures { (u : ℕ → ℕ → UsageMeasures) → IsGrid usages.now u → OnOk result
        (text.new.items ≡ text.old.items ++ below count (shown_usage form image.now names.now u actor)) }
{
    for object in 0..count {
        let measures = usage_at(usages, actor, object);
        text.extend_from_slice(shown_usage(
            form, image, names, actor, object, &measures,
        ).as_slice())?;
    }
    Ok(())
}

// Appends the rows of tasks and handlers at objects, of which there are so many.
fn add_usages(
    text: &mut Vec<u8>,
    form: Form,
    image: &Image,
    names: &[Text],
    tasks: u8,
    objects: u8,
    usages: &[UsageMeasures],
) -> Result<(), AllocError>
    requires tasks { tasks ≡ length image.now.tasks }
    requires few { tasks ≤ TASKS }
    requires objects { objects ≡ length image.now.objects }
    requires few_objects { objects ≤ OBJECTS }
    requires room { length usages.now ≡ ACTORS * OBJECTS }
    ensures { (u : ℕ → ℕ → UsageMeasures) → IsGrid usages.now u → OnOk result (text.new.items ≡ text.old.items ++
        below (actors_of image.now) (λ t. below (length image.now.objects) (shown_usage form image.now names.now u t))) }
{
    for actor in 0..tasks + (CHANNELS + 1) {
        add_usages_of(text, form, image, names, actor, objects, usages)?;
    }
    Ok(())
}

/// The text of measures, where there are so many tasks and objects, and the objects have these names.
///
/// # Errors
/// Where memory was refused.
pub(crate) fn text_of(
    alloc: Global,
    form: Form,
    image: &Image,
    names: &[Text],
    tasks: u8,
    objects: u8,
    measures: &Measures,
) -> Result<Vec<u8>, AllocError>
    requires tasks { tasks ≡ length image.now.tasks }
    requires few { tasks ≤ TASKS }
    requires objects { objects ≡ length image.now.objects }
    requires few_objects { objects ≤ OBJECTS }
    requires whole { AreWhole measures.now }
    ensures { (stories : Stories) (calls : ObjectCalls) (used : Usages) (instants : Instants) → AreMeasured measures.now stories calls used instants →
        IfOk result (λ text. text.items ≡ run_text form image.now names.now stories calls used instants) }
{
    let mut text = Vec::new(alloc);
    let actors = measures.actors.as_slice();
    let usages = measures.usages.as_slice();
    add_heading(&mut text, form, WORK_HEADING)?;
    add_work(&mut text, form, image, tasks, objects, actors, usages)?;
    add_heading(&mut text, form, WAITS_HEADING)?;
    add_waits(&mut text, form, image, tasks, actors)?;
    add_heading(&mut text, form, FRAMES_HEADING)?;
    add_frames(&mut text, form, image, tasks, actors)?;
    add_heading(&mut text, form, OBJECTS_HEADING)?;
    add_objects(&mut text, form, image, names, objects, &measures.objects)?;
    add_heading(&mut text, form, USAGES_HEADING)?;
    add_usages(&mut text, form, image, names, tasks, objects, usages)?;
    add_heading(&mut text, form, INSTANTS_HEADING)?;
    text.extend_from_slice(instants_row(form, measures.instants).as_slice())?;
    Ok(text)
}
