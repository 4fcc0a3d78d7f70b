//! The names of what is measured.
ghost use Rattle.std.specs.Prelude.{◌≡◌, ◌≤◌, length};
ghost use Rattle.set_measures.specs.Text.{actor_word, object_word, usage_word};

use crate::measure::{ActorQuantity, ObjectQuantity, UsageQuantity};

/// The name of what is measured of a task.
pub(crate) fn actor_word(quantity: ActorQuantity) -> &'static [u8]
    ensures is { result.now ≡ actor_word quantity }
    ensures short { length result.now ≤ 16 }
{
    match quantity {
        ActorQuantity::Jobs => b"jobs",
        ActorQuantity::Steps => b"steps",
        ActorQuantity::LeastSteps => b"least steps",
        ActorQuantity::MostSteps => b"most steps",
        ActorQuantity::Response => b"response",
        ActorQuantity::Blocking => b"blocking",
        ActorQuantity::Preemptions => b"preemptions",
        ActorQuantity::QueuedCalls => b"queued calls",
        ActorQuantity::LongestWait => b"longest wait",
        ActorQuantity::TotalWait => b"total wait",
        ActorQuantity::LateDelays => b"late delays",
        ActorQuantity::Lateness => b"lateness",
        ActorQuantity::LeastDistance => b"least distance",
        ActorQuantity::Frames => b"frames",
        ActorQuantity::Words => b"words",
    }
}

/// The name of what is measured of an object.
pub(crate) fn object_word(quantity: ObjectQuantity) -> &'static [u8]
    ensures is { result.now ≡ object_word quantity }
    ensures short { length result.now ≤ 16 }
{
    match quantity {
        ObjectQuantity::Calls => b"calls",
        ObjectQuantity::QueuedCalls => b"queued calls",
    }
}

/// The name of what is measured of a task at an object.
pub(crate) fn usage_word(quantity: UsageQuantity) -> &'static [u8]
    ensures is { result.now ≡ usage_word quantity }
    ensures short { length result.now ≤ 16 }
{
    match quantity {
        UsageQuantity::Calls => b"calls",
        UsageQuantity::LongestAction => b"longest action",
    }
}
