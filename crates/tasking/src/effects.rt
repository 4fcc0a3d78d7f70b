//! What a step of the running task asks for: each is the kernel's effect, followed by dispatching and the clock.
ghost use Rattle.std.specs.Prelude.{◌≡◌, ◌<◌, ℕ, Bool, false, None, Some};
ghost use Rattle.kernel.specs.Effects.{Breaks, Delays as DelaysUntil, Dies, Ends, Finishes, Opens, Queues, Views, after, call_refusal, ending_of, is_full};
ghost use Rattle.kernel.specs.Invariant.{Kept};
ghost use Rattle.kernel.specs.Worlds.{is_handler_over};
ghost use Rattle.tasking.specs.Held.{ending_as, kernel_of};
ghost use Rattle.tasking.specs.Orderly.{IsTask};

use crate::reports::{Ended, Kind, Outcome};
use crate::tasking::Tasking;
use clock::Delays;
use dispatch::Ready;
use kernel::laws::reaches_callers;

impl<'a, R: Ready, D: Delays> Tasking<'a, R, D> {
    /// `delay until` of the running task, outside of actions (RM 9.6). A time that isn't later than now is due: the task goes to the
    /// tail of its list (RM D.2.3). Handlers delay nowhere.
    pub fn delay_until(&mut self, task: u8, until: i64)
        requires task { IsTask (kernel_of self.old) task }
        requires running { self.old.running ≡ Some task }
        ensures { kernel_of self.new ≡ after task (DelaysUntil until) (kernel_of self.old) }
    {
        self.delays(task, until);
        self.settle();
    }

    /// The running task opens an action of an object for a procedure or an entry, which `call_refusal` doesn't refuse (RM 9.5.1).
    pub fn open_to_write(&mut self, task: u8, object: u8)
        requires running { self.old.running ≡ Some task }
        requires object { object < (kernel_of self.old).partition.objects }
        requires allowed { call_refusal (kernel_of self.old) task object ≡ None }
        ensures { kernel_of self.new ≡ after task (Opens object) (kernel_of self.old) }
    {
        self.opens(task, object, Kind::Writes);
        self.settle();
    }

    /// The running task opens an action of an object for a function, which `call_refusal` doesn't refuse (RM 9.5.1).
    pub fn open_to_read(&mut self, task: u8, object: u8)
        requires running { self.old.running ≡ Some task }
        requires object { object < (kernel_of self.old).partition.objects }
        requires allowed { call_refusal (kernel_of self.old) task object ≡ None }
        ensures { kernel_of self.new ≡ after task (Views object) (kernel_of self.old) }
    {
        self.opens(task, object, Kind::Reads);
        self.settle();
    }

    /// The running task's entry call waits in the queue of an object, in which no other waits (RM 9.5.3, D.7).
    pub fn queue(&mut self, task: u8, object: u8)
        requires task { IsTask (kernel_of self.old) task }
        requires running { self.old.running ≡ Some task }
        requires object { object < (kernel_of self.old).partition.objects }
        requires room { is_full (kernel_of self.old) object ≡ false }
        ensures { kernel_of self.new ≡ after task (Queues object) (kernel_of self.old) }
    {
        self.leaves(task);
        self.queues(task, object);
        self.settle();
    }

    /// The body that the running task's innermost action runs is left, which reports whether the barrier is open then. The action is closed;
    /// or it goes on with the entry body for the queued call; or it is closed and the caller that it has served is ready (RM 9.5.3).
    pub fn end_action(&mut self, task: u8, is_open: bool) -> Ended
        requires running { self.old.running ≡ Some task }
        requires kept { (barrier : ℕ → Bool) × Kept barrier (kernel_of self.old) }
        ensures ending { ending_as result.ending ≡ ending_of is_open ((kernel_of self.old).actions task) (kernel_of self.old).queued }
        ensures over { result.is_over ≡ is_handler_over (kernel_of self.old) task (Ends is_open) }
        ensures kernel { kernel_of self.new ≡ after task (Ends is_open) (kernel_of self.old) }
    {
        reaches_callers();
        let ending = self.ending(task, is_open);
        self.ends_by(task, ending);
        let is_over = self.goes_if_over(task);
        self.settle();
        Ended { ending, is_over }
    }

    /// The running task has finished its body (RM 9.3).
    pub fn finish(&mut self, task: u8)
        requires task { IsTask (kernel_of self.old) task }
        requires running { self.old.running ≡ Some task }
        ensures { kernel_of self.new ≡ after task Finishes (kernel_of self.old) }
    {
        self.leaves(task);
        self.settle();
    }

    /// An exception leaves the body of a task: the run is over (RM 11.4.1).
    pub fn die(&mut self, task: u8, exception: u16)
        ensures { kernel_of self.new ≡ after task (Dies exception) (kernel_of self.old) }
    {
        self.breaks_off(Outcome::Unhandled { exception, task });
    }

    /// The code of a task did what no compiled code does: the run is over.
    pub fn break_off(&mut self)
        ensures { (task : ℕ) → kernel_of self.new ≡ after task Breaks (kernel_of self.old) }
    {
        self.breaks_off(Outcome::ImageFault);
    }
}
