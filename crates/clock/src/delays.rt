//! What every keeper of sleeping tasks does.
ghost use Rattle.std.specs.Prelude.{◌≡◌, ◌<◌, ◌++◌, ◌∷◌, List, [], length};
ghost use Rattle.clock.specs.Sleepers.{due, least_wake, waiting, wake_of};
ghost use Rattle.clock.specs.declared.delays.Sleeper.{Sleeper as Row};
ghost use Rattle.base.specs.declared.limits.TheConstants.{TASKS};

use arrayvec::ArrayVec;
use base::limits::TASKS;

/// A task that waits for a time (RM 9.6).
#[derive(Clone, Copy, PartialEq, Eq, Debug, Default)]
pub struct Sleeper {
    /// The task's number.
    pub task: u8,
    /// The time that it waits for, in microseconds since the start.
    pub wake: i64,
}

/// The sleeping tasks, in the order in which they began to wait. Nothing takes memory or fails. There is room for 65, which are all the
/// tasks that there are.
pub trait Delays {
    ghost sleepers: { Self → List Row };

    /// Nobody sleeps.
    fn new() -> Self
        ensures { sleepers result ≡ [] };

    /// A task begins to wait for a time, in microseconds since the start.
    fn add(&mut self, task: u8, wake: i64)
        requires room { length (sleepers self.old) < TASKS }
        ensures { sleepers self.new ≡ sleepers self.old ++ record { task = task; wake = wake } ∷ [] };

    /// The least time that somebody waits for, if there is one.
    fn next_time(&self) -> Option<i64>
        ensures { result ≡ least_wake (sleepers self.now) };

    /// The time that a task waits for, if it sleeps; of a task that was added twice, the first one.
    fn wake_time(&self, task: u8) -> Option<i64>
        ensures { result ≡ wake_of task (sleepers self.now) };

    /// The sleepers, in the order in which they began to wait.
    fn in_order(&self) -> ArrayVec<Sleeper, TASKS>
        ensures { result.items ≡ sleepers self.now };

    /// Takes out the tasks that wait for `now` or an earlier time, in the order in which they began to wait.
    fn expire(&mut self, now: i64) -> ArrayVec<u8, TASKS>
        ensures tasks { result.items ≡ due now (sleepers self.old) }
        ensures left { sleepers self.new ≡ waiting now (sleepers self.old) };
}
