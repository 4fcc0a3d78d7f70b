//! Steps that return what they write before it is text.
ghost use Rattle.std.specs.Prelude.{◌≡◌, None, Some, ℕ, ◌+◌, ◌≤◌, ◌++◌};
ghost use Rattle.kernel.specs.State.{Outcome as KernelOutcome};
ghost use Rattle.image.specs.Code.{code};
ghost use Rattle.execution.specs.Held.{lines_of};
ghost use Rattle.machine.specs.Stands.{HoldsWorld};
ghost use Rattle.tasking.specs.Held.{kernel_of};

use crate::running::Machine;
use clock::Delays;
use dispatch::Ready;
use execution::Line;
use image_laws::outcome_stays;
use processor::Steps;
use std::sync::ledger::Ledger;

impl<'a, R: Ready, D: Delays> Machine<'a, R, D> {
    /// Does one step, which is counted, as `step` does, and returns the line that it has written, if it has written one, before that is text. After the last
    /// step it changes nothing and counts nothing.
    pub fn step_line<L: Ledger>(&mut self, steps: &mut Steps<L>) -> Option<Line>
        ensures world { (m : ℕ) → HoldsWorld self.old (code self.old.image self.old.schedule m) → HoldsWorld self.new
            (code self.old.image self.old.schedule (m + 1)) × ((code self.old.image self.old.schedule (m + 1)).kernel.lines
            ≡ (code self.old.image self.old.schedule m).kernel.lines ++ lines_of self.old.image result) }
        ensures image { self.new.image ≡ self.old.image }
        ensures schedule { self.new.schedule ≡ self.old.schedule }
        ensures one { steps.new ≤ steps.old + 1 }
        ensures count { (kernel_of self.old.tasking).outcome ≡ None → steps.new ≡ steps.old + 1 }
        ensures done { (o : KernelOutcome) → (kernel_of self.old.tasking).outcome ≡ Some o →
            (result ≡ None) × (self.new ≡ self.old) × (steps.new ≡ steps.old) }
    {
        outcome_stays();
        self.execution.step(steps)
    }
}
