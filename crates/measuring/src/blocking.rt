//! How long actions of lower tasks may keep a task waiting.
ghost use Rattle.std.specs.Prelude.{◌≡◌, ◌*◌, ◌<◌, ◌≤◌, if◌then◌else◌, length, ℕ};
ghost use Rattle.base.specs.declared.limits.TheConstants.{OBJECTS, TASKS};
ghost use Rattle.image.specs.Code.{partition_of};
ghost use Rattle.tracing.specs.declared.calls.TheConstants.{ACTORS};
ghost use Rattle.measuring.specs.Measures.{blocked_by, can_block};
ghost use Rattle.measuring.specs.Tables.{IsGrid};
ghost use Rattle.measuring.specs.Text.{blocking_in};

use crate::usage::UsageMeasures;
use base::limits::{CEILING, CHANNELS, OBJECTS};
use image::Image;

/// The base priority of a task, or of a handler.
pub(crate) fn base_priority(image: &Image, actor: u8) -> u8
    ensures { result ≡ (partition_of image.now).base actor }
{
    match image.tasks().get(usize::from(actor)) {
        Some(task) => task.priority,
        None => CEILING,
    }
}

/// The ceiling priority of an object.
pub(crate) fn ceiling(image: &Image, object: u8) -> u8
    ensures { result ≡ (partition_of image.now).ceiling object }
{
    match image.objects().get(usize::from(object)) {
        Some(object) => object.ceiling(),
        None => 0,
    }
}

/// What is measured of a task or handler at an object.
pub(crate) fn usage_at(usages: &[UsageMeasures], actor: u8, object: u8) -> UsageMeasures
    requires room { length usages.now ≡ ACTORS * OBJECTS }
    requires object { object < OBJECTS }
    ensures { (usage : ℕ → ℕ → UsageMeasures) → IsGrid usages.now usage → result ≡ usage actor object }
{
    usages[usize::from(actor) * OBJECTS + usize::from(object)]
}

// Whether an action of one task at an object can keep another one waiting.
fn can_block(image: &Image, waiting: u8, actor: u8, object: u8) -> bool
    ensures { result ≡ can_block (partition_of image.now) waiting actor object }
{
    let priority = base_priority(image, waiting);
    base_priority(image, actor) < priority && priority <= ceiling(image, object)
}

// The most steps of an action of this task at an object, where it can keep the other one waiting.
fn steps_of_action(
    image: &Image,
    usages: &[UsageMeasures],
    waiting: u8,
    actor: u8,
    object: u8,
) -> u64
    requires room { length usages.now ≡ ACTORS * OBJECTS }
    requires object { object < OBJECTS }
    ensures { (usage : ℕ → ℕ → UsageMeasures) → IsGrid usages.now usage →
        result ≡ (if can_block (partition_of image.now) waiting actor object then (usage actor object).longest_action else 0) }
{
    let measures = usage_at(usages, actor, object);
    if can_block(image, waiting, actor, object) {
        measures.longest_action
    } else {
        0
    }
}

// The most steps of one action of this task that can keep the other one waiting, at so many objects.
fn blocked_by(image: &Image, objects: u8, usages: &[UsageMeasures], waiting: u8, actor: u8) -> u64
    requires few { objects ≤ OBJECTS }
    requires room { length usages.now ≡ ACTORS * OBJECTS }
    ensures { (usage : ℕ → ℕ → UsageMeasures) → IsGrid usages.now usage →
        result ≡ blocked_by (partition_of image.now) objects (λ o. (usage actor o).longest_action) waiting actor }
{
    let mut most = 0u64;
    for object in 0..objects {
        most = most.max(steps_of_action(image, usages, waiting, actor, object));
    }
    most
}

/// The most steps of one action that can keep a task or handler waiting.
pub(crate) fn blocking(
    image: &Image,
    tasks: u8,
    objects: u8,
    usages: &[UsageMeasures],
    waiting: u8,
) -> u64
    requires tasks { tasks ≡ length image.now.tasks }
    requires few_tasks { tasks ≤ TASKS }
    requires objects { objects ≡ length image.now.objects }
    requires few_objects { objects ≤ OBJECTS }
    requires room { length usages.now ≡ ACTORS * OBJECTS }
    ensures { (usage : ℕ → ℕ → UsageMeasures) → IsGrid usages.now usage → result ≡ blocking_in image.now usage waiting }
{
    let mut most = 0u64;
    for actor in 0..tasks + (CHANNELS + 1) {
        most = most.max(blocked_by(image, objects, usages, waiting, actor));
    }
    most
}
