//! The measures of the runs of an image, in the order in which they are written.
ghost use Rattle.std.specs.Prelude.{◌≡◌, ◌++◌, IfOk, OnOk, length, map};
ghost use Rattle.measuring.specs.Text.{actors_of};
ghost use Rattle.set_measures.specs.Choices.{each_below};
ghost use Rattle.set_measures.specs.Quantities.{measures_of, of_actor, of_object, of_usage};
ghost use Rattle.set_measures.specs.declared.measure.Measure.TheVariants.{OfActor};

use crate::measure::{ActorQuantity, Measure, ObjectQuantity, UsageQuantity};
use base::limits::CHANNELS;
use image::Image;
use measuring::{object_count, task_count};
use std::alloc::{AllocError, Global};

const ACTOR_QUANTITIES: [ActorQuantity; 15] = [
    ActorQuantity::Jobs,
    ActorQuantity::Steps,
    ActorQuantity::LeastSteps,
    ActorQuantity::MostSteps,
    ActorQuantity::Response,
    ActorQuantity::Blocking,
    ActorQuantity::Preemptions,
    ActorQuantity::QueuedCalls,
    ActorQuantity::LongestWait,
    ActorQuantity::TotalWait,
    ActorQuantity::LateDelays,
    ActorQuantity::Lateness,
    ActorQuantity::LeastDistance,
    ActorQuantity::Frames,
    ActorQuantity::Words,
];

// Adds these of a task or handler.
fn add_quantities(
    list: &mut Vec<Measure>,
    actor: u8,
    quantities: &[ActorQuantity],
) -> Result<(), AllocError>
    ensures { OnOk result (list.new.items ≡ list.old.items ++ map (OfActor actor) quantities.now) }
{
    for quantity in quantities {
        list.push(Measure::OfActor {
            actor,
            quantity: *quantity,
        })?;
    }
    Ok(())
}

// Adds those of a task or handler.
fn add_actor(list: &mut Vec<Measure>, actor: u8) -> Result<(), AllocError>
    ensures { OnOk result (list.new.items ≡ list.old.items ++ of_actor actor) }
{
    add_quantities(list, actor, &ACTOR_QUANTITIES)
}

// Adds those of an object.
fn add_object(list: &mut Vec<Measure>, object: u8) -> Result<(), AllocError>
    ensures { OnOk result (list.new.items ≡ list.old.items ++ of_object object) }
{
    list.push(Measure::OfObject {
        object,
        quantity: ObjectQuantity::Calls,
    })?;
    list.push(Measure::OfObject {
        object,
        quantity: ObjectQuantity::QueuedCalls,
    })?;
    Ok(())
}

// Adds those of a task or handler at an object.
fn add_usage(list: &mut Vec<Measure>, actor: u8, object: u8) -> Result<(), AllocError>
    ensures { OnOk result (list.new.items ≡ list.old.items ++ of_usage actor object) }
{
    list.push(Measure::OfUsage {
        actor,
        object,
        quantity: UsageQuantity::Calls,
    })?;
    list.push(Measure::OfUsage {
        actor,
        object,
        quantity: UsageQuantity::LongestAction,
    })?;
    Ok(())
}

// Adds those of so many tasks and handlers.
fn add_actors(list: &mut Vec<Measure>, actors: u8) -> Result<(), AllocError>
    ensures { OnOk result (list.new.items ≡ list.old.items ++ each_below actors of_actor) }
{
    for actor in 0..actors {
        add_actor(list, actor)?;
    }
    Ok(())
}

// Adds those of so many objects.
fn add_objects(list: &mut Vec<Measure>, objects: u8) -> Result<(), AllocError>
    ensures { OnOk result (list.new.items ≡ list.old.items ++ each_below objects of_object) }
{
    for object in 0..objects {
        add_object(list, object)?;
    }
    Ok(())
}

// Adds those of a task or handler at so many objects.
fn add_usages_of(list: &mut Vec<Measure>, actor: u8, objects: u8) -> Result<(), AllocError>
    ensures { OnOk result (list.new.items ≡ list.old.items ++ each_below objects (of_usage actor)) }
{
    for object in 0..objects {
        add_usage(list, actor, object)?;
    }
    Ok(())
}

// Adds those of so many tasks and handlers at so many objects.
fn add_usages(list: &mut Vec<Measure>, actors: u8, objects: u8) -> Result<(), AllocError>
    ensures { OnOk result (list.new.items ≡ list.old.items ++ each_below actors (λ t. each_below objects (of_usage t))) }
{
    for actor in 0..actors {
        add_usages_of(list, actor, objects)?;
    }
    Ok(())
}

/// The measures of the runs of an image.
///
/// # Errors
/// Where memory was refused.
pub(crate) fn measures_of(alloc: Global, image: &Image) -> Result<Vec<Measure>, AllocError>
    ensures { IfOk result (λ list. list.items ≡ measures_of image.now) }
{
    let actors = task_count(image) + (CHANNELS + 1);
    let objects = object_count(image);
    let mut list = Vec::new(alloc);
    add_actors(&mut list, actors)?;
    add_objects(&mut list, objects)?;
    add_usages(&mut list, actors, objects)?;
    list.push(Measure::OfInstants)?;
    Ok(list)
}
