//! What is measured of each run of a set.
ghost use Rattle.std.specs.Prelude.{◌≡◌};
ghost use Rattle.set_measures.specs.Quantities.{direction_of, direction_of_actor};

/// What is measured of a task, or of the handler of an interrupt (docs/FORMATS.md, "Measures").
#[derive(Clone, Copy)]
pub enum ActorQuantity {
    /// How many jobs of it have begun.
    Jobs,
    /// How many steps it has taken.
    Steps,
    /// The least steps of a job, of those that are over.
    LeastSteps,
    /// The most steps of a job.
    MostSteps,
    /// The most steps of the run from the beginning of a job to its last step.
    Response,
    /// The most steps of one action that can keep it waiting.
    Blocking,
    /// How often it has been preempted.
    Preemptions,
    /// How many of its calls have waited in the queue of an entry, and are over.
    QueuedCalls,
    /// How many microseconds one of them has waited at most.
    LongestWait,
    /// How many microseconds they have waited in all.
    TotalWait,
    /// How often the time of a `delay until` had passed.
    LateDelays,
    /// By how many microseconds at most.
    Lateness,
    /// The least time between the beginnings of two jobs, one after the other, in microseconds.
    LeastDistance,
    /// The most frames that it has had at once.
    Frames,
    /// The most words that its frames have had together.
    Words,
}

/// What is measured of a protected object.
#[derive(Clone, Copy)]
pub enum ObjectQuantity {
    /// How often it has been called.
    Calls,
    /// How many of these calls waited in the queue of its entry.
    QueuedCalls,
}

/// What is measured of a task or handler at a protected object.
#[derive(Clone, Copy)]
pub enum UsageQuantity {
    /// How often it has called the object.
    Calls,
    /// The most steps of an action.
    LongestAction,
}

/// What is measured, and of whom: of tasks and handlers, and of objects, by their numbers.
#[derive(Clone, Copy)]
pub enum Measure {
    OfActor {
        actor: u8,
        quantity: ActorQuantity,
    },
    OfObject {
        object: u8,
        quantity: ObjectQuantity,
    },
    OfUsage {
        actor: u8,
        object: u8,
        quantity: UsageQuantity,
    },
    /// The most steps that are taken at one time.
    OfInstants,
}

/// Which of the values of a measure is asked for.
#[derive(Clone, Copy)]
pub enum Direction {
    Greatest,
    Least,
}

impl ActorQuantity {
    fn direction(self) -> Direction
        ensures { result ≡ direction_of_actor self }
    {
        match self {
            ActorQuantity::LeastSteps | ActorQuantity::LeastDistance => Direction::Least,
            _ => Direction::Greatest,
        }
    }
}

impl Measure {
    /// Whether the greatest value is asked for or the least: the least of the least steps of a job, and of the least distance of two jobs.
    pub fn direction(self) -> Direction
        ensures { result ≡ direction_of self }
    {
        match self {
            Measure::OfActor { quantity, .. } => quantity.direction(),
            Measure::OfObject { .. } | Measure::OfUsage { .. } | Measure::OfInstants => {
                Direction::Greatest
            }
        }
    }
}
