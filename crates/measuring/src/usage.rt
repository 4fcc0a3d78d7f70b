//! What a task does at a protected object, by one event of a trace or by one step, and what is measured of it.
ghost use Rattle.std.specs.Prelude.{◌≡◌, ◌∷◌, List};
ghost use Rattle.measuring.specs.Measures.{usage_measures};
ghost use Rattle.measuring.specs.Stories.{usage_of};

use tracing::Event;

/// What a task, or the handler of an interrupt, does at a protected object.
#[derive(Clone, Copy, PartialEq, Eq, Debug)]
pub enum Usage {
    /// It calls the object: that opens an action, or waits in the queue of an entry (RM 9.5.1, 9.5.3).
    Calls,
    /// It takes a step while it has an action of the object open.
    StepsInside,
    /// Its action of the object is over.
    Leaves,
}

/// What is done, by which task or handler, and at which object, by their numbers.
#[derive(Clone, Copy, PartialEq, Eq, Debug)]
pub struct UsageNotice {
    pub task: u8,
    pub object: u8,
    pub usage: Usage,
}

/// What is measured of a task at an object. No number is greater than 2**64 - 1, and a greater one is written as that.
#[derive(Clone, Copy, PartialEq, Eq, Debug, Default)]
pub struct UsageMeasures {
    /// How often it has called the object.
    pub calls: u64,
    /// How many steps it has taken in its last action of the object so far.
    pub last_action: u64,
    /// The most steps of an action.
    pub longest_action: u64,
}

impl UsageMeasures {
    /// With what it does next.
    pub(crate) fn note(&mut self, usage: Usage)
        ensures { (usages : List Usage) → self.old ≡ usage_measures usages → self.new ≡ usage_measures (usage ∷ usages) }
    {
        match usage {
            Usage::Calls => self.calls = self.calls.saturating_add(1),
            Usage::StepsInside => {
                self.last_action = self.last_action.saturating_add(1);
                self.longest_action = self.longest_action.max(self.last_action);
            }
            Usage::Leaves => self.last_action = 0,
        }
    }
}

/// What an event says that a task does at an object, if it says that.
pub(crate) fn usage_of(event: &Event) -> Option<UsageNotice>
    ensures { result ≡ usage_of event.now }
{
    let (task, object, usage) = match event {
        Event::Enters { task, object, .. } | Event::Queues { task, object, .. } => {
            (*task, *object, Usage::Calls)
        }
        Event::Leaves { task, object, .. } => (*task, *object, Usage::Leaves),
        _ => return None,
    };
    Some(UsageNotice {
        task,
        object,
        usage,
    })
}
