//! The value that a run has of a measure.
ghost use Rattle.std.specs.Prelude.{◌≡◌};
ghost use Rattle.measuring.specs.Measures.{measures, usage_measures};
ghost use Rattle.measuring.specs.Text.{frames_of};
ghost use Rattle.measuring.specs.Tables.{AreMeasured, AreWhole};
ghost use Rattle.measuring.specs.Runs.{calls, instants, stories, usages};
ghost use Rattle.set_measures.specs.Quantities.{actor_value, has_run, object_value, usage_value, value_of, value_of_actor};
ghost use Rattle.set_measures.specs.Runs.{Run};

use crate::measure::{ActorQuantity, Measure, ObjectQuantity, UsageQuantity};
use base::limits::OBJECTS;
use image::Image;
use measuring::{ActorMeasures, Measures, ObjectMeasures, UsageMeasures, task_count};

// How many frames of a task or handler count to their limit.
fn frames(image: &Image, actor: u8, measures: &ActorMeasures) -> u64
    ensures { result ≡ frames_of image.now actor measures.now }
{
    if actor < task_count(image) {
        measures.deepest.saturating_add(1)
    } else {
        measures.deepest
    }
}

fn actor_value(
    frames: u64,
    blocking: u64,
    measures: &ActorMeasures,
    quantity: ActorQuantity,
) -> Option<u64>
    ensures { result ≡ actor_value frames blocking measures.now quantity }
{
    match quantity {
        ActorQuantity::Jobs => Some(measures.jobs),
        ActorQuantity::Steps => Some(measures.steps),
        ActorQuantity::LeastSteps => measures.shortest_job,
        ActorQuantity::MostSteps => Some(measures.longest_job),
        ActorQuantity::Response => Some(measures.response),
        ActorQuantity::Blocking => Some(blocking),
        ActorQuantity::Preemptions => Some(measures.preempted),
        ActorQuantity::QueuedCalls => Some(measures.waits),
        ActorQuantity::LongestWait => Some(measures.longest_wait),
        ActorQuantity::TotalWait => Some(measures.total_wait),
        ActorQuantity::LateDelays => Some(measures.late),
        ActorQuantity::Lateness => Some(measures.latest),
        ActorQuantity::LeastDistance => measures.least_apart,
        ActorQuantity::Frames => Some(frames),
        ActorQuantity::Words => Some(measures.widest),
    }
}

// Whether it is a task, or a handler that has run.
fn has_run(image: &Image, actor: u8, measures: &ActorMeasures) -> bool
    ensures { result ≡ has_run image.now actor measures.now }
{
    actor < task_count(image) || 0 < measures.jobs
}

// The value that a task or handler has, of which this is measured and which such an action can keep waiting.
fn value_of_actor(
    image: &Image,
    actor: u8,
    blocking: u64,
    measures: &ActorMeasures,
    quantity: ActorQuantity,
) -> Option<u64>
    ensures { result ≡ value_of_actor image.now actor blocking measures.now quantity }
{
    if has_run(image, actor, measures) {
        let frames = frames(image, actor, measures);
        actor_value(frames, blocking, measures, quantity)
    } else {
        None
    }
}

fn object_value(measures: &ObjectMeasures, quantity: ObjectQuantity) -> u64
    ensures { result ≡ object_value measures.now quantity }
{
    match quantity {
        ObjectQuantity::Calls => measures.calls,
        ObjectQuantity::QueuedCalls => measures.queued,
    }
}

fn usage_value(measures: &UsageMeasures, quantity: UsageQuantity) -> u64
    ensures { result ≡ usage_value measures.now quantity }
{
    match quantity {
        UsageQuantity::Calls => measures.calls,
        UsageQuantity::LongestAction => measures.longest_action,
    }
}

/// The value of a measure in the run of an image of which this is measured; none of a handler that hasn't run, and none of a task at an object whose number no
/// image has.
pub(crate) fn value(image: &Image, measures: &Measures, measure: Measure) -> Option<u64>
    requires { AreWhole measures.now }
    ensures { (r : Run) → AreMeasured measures.now (stories image.now r.schedule r.bound.steps) (calls image.now r.schedule r.bound.steps)
        (usages image.now r.schedule r.bound.steps) (instants image.now r.schedule r.bound.steps) → result ≡ value_of image.now r measure }
{
    match measure {
        Measure::OfActor { actor, quantity } => {
            let measured = measures.actor(actor);
            let blocking = measures.blocking(image, actor);
            value_of_actor(image, actor, blocking, &measured, quantity)
        }
        Measure::OfObject { object, quantity } => {
            Some(object_value(&measures.object(object), quantity))
        }
        Measure::OfUsage {
            actor,
            object,
            quantity,
        } => {
            if usize::from(object) < OBJECTS {
                Some(usage_value(&measures.usage(actor, object), quantity))
            } else {
                None
            }
        }
        Measure::OfInstants => Some(measures.instants().most),
    }
}
