//! What every keeper of ready tasks does.
ghost use Rattle.std.specs.Prelude.{◌≡◌, IfSome, ◌<◌, ℕ, List, [], length};
ghost use Rattle.dispatch.specs.Queues.{Queues, head_at, highest, with_head, with_tail, without_head};
ghost use Rattle.base.specs.declared.limits.TheConstants.{PRIORITIES, TASKS};

/// The ready tasks that do not run: for each priority a list, its head first (RM D.2.1). Nothing takes memory or fails. Priorities are
/// below 32, and each list has room for 65 tasks, which are all that there are.
pub trait Ready {
    ghost queues: { Self → Queues };

    /// No task is ready.
    fn new() -> Self
        ensures { (p : ℕ) → queues result p ≡ [] };

    /// Adds a task at the tail of the list of a priority.
    fn add_tail(&mut self, task: u8, priority: u8)
        requires priority { priority < PRIORITIES }
        requires room { length (queues self.old priority) < TASKS }
        ensures { (p : ℕ) → queues self.new p ≡ with_tail task priority (queues self.old) p };

    /// Adds a task at the head of the list of a priority.
    fn add_head(&mut self, task: u8, priority: u8)
        requires priority { priority < PRIORITIES }
        requires room { length (queues self.old priority) < TASKS }
        ensures { (p : ℕ) → queues self.new p ≡ with_head task priority (queues self.old) p };

    /// The highest priority whose list is not empty, if there is one.
    fn highest(&self) -> Option<u8>
        ensures same { result ≡ highest (queues self.now) }
        ensures below { IfSome result (λ priority. priority < PRIORITIES) };

    /// Takes the head of the highest list that is not empty, if there is one.
    fn take_highest(&mut self) -> Option<u8>
        ensures task { result ≡ head_at (highest (queues self.old)) (queues self.old) }
        ensures left { (p : ℕ) → queues self.new p ≡ without_head (highest (queues self.old)) (queues self.old) p };
}
