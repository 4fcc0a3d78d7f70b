//! What the kernel makes of the step of a task: its effect, and what that comes to in other tasks.
ghost use Rattle.std.specs.Prelude.{◌≡◌, ◌<◌, ◌+◌, ◌-◌, [], IfSome, None, length};
ghost use Rattle.image_laws.specs.Whole.{IsWhole};
ghost use Rattle.kernel.specs.Calm.{IsRunner};
ghost use Rattle.tasking.specs.Held.{kernel_of};
ghost use Rattle.execution.specs.Held.{Leads, lines_of, world_of};
ghost use Rattle.execution.specs.Settling.{HasPassed, KernelDoes, Owes, Settles};
ghost use Rattle.task_steps.specs.declared.acts.Effect.TheVariants as effects;

use crate::execution_of::Advance;
use crate::line::Line;
use crate::state::State;
use clock::Delays;
use dispatch::Ready;
use image_laws::{code_leads_on, effects_named, lines_unread, steps_whole};
use kernel::laws::{quiet_stays, reaches_callers, runner_is_calm, says_on};
use processor::Steps;
use std::sync::ledger::Ledger;
use task_steps::{Act, Effect, Given};
use tasking::Ending;
use tasking::laws::{kept_with_lines, lines_apart};

// What came of a step: the line that it wrote, if any, and whether the handler that took it is over.
#[derive(Clone, Copy)]
struct Settlement {
    line: Option<Line>,
    is_over: bool,
}

impl<'a, 's, R: Ready, D: Delays> State<'a, 's, R, D> {
    /// Steps of the running task, up to the first that asks something of the kernel, and what comes of that.
    pub(crate) fn advance_task<L: Ledger>(
        &mut self,
        task: u8,
        limit: u64,
        steps: &mut Steps<L>,
    ) -> Advance
        requires whole { IsWhole self.old.image (world_of self.old) }
        requires runs { IsRunner (kernel_of self.old.tasking) task }
        requires some { 0 < limit }
        ensures whole { IsWhole self.new.image (world_of self.new) }
        ensures leads { Leads (limit - result.left) self.old self.new (lines_of self.old.image result.line) }
        ensures left { result.left < limit }
        ensures count { steps.new ≡ steps.old + (limit - result.left) }
        ensures going { IfSome result.line (λ line. (kernel_of self.new.tasking).outcome ≡ None) }
    {
        steps_whole();
        effects_named();
        lines_unread();
        lines_apart();
        kept_with_lines();
        let went = self.go(task, limit, steps);
        let line = match went.act {
            None => None,
            Some(act) => self.settle(task, act),
        };
        Advance {
            left: went.left,
            line,
        }
    }

    /// Does what the step of the running task asks of the kernel, and returns the line that it writes, if any.
    pub(crate) fn settle(&mut self, task: u8, act: Act) -> Option<Line>
        requires owes { Owes self.old task act }
        requires passed { HasPassed (length self.old.image.objects) (kernel_of self.old.tasking) task act.effect }
        ensures settles { Settles self.old self.new task act (lines_of self.old.image result) }
        ensures going { IfSome result (λ line. (kernel_of self.new.tasking).outcome ≡ None) }
    {
        steps_whole();
        let before = self.tasking.handler();
        let settled = self.does(task, act);
        self.prepare_if_begun(before, settled.is_over);
        settled.line
    }

    // What the step asks of the kernel, and what that comes to in other tasks.
    fn does(&mut self, task: u8, act: Act) -> Settlement
        requires owes { Owes self.old task act }
        requires passed { HasPassed (length self.old.image.objects) (kernel_of self.old.tasking) task act.effect }
        ensures does { KernelDoes self.old self.new task act result.is_over (lines_of self.old.image result.line) }
        ensures going { IfSome result.line (λ line. (kernel_of self.new.tasking).outcome ≡ None) }
    {
        runner_is_calm();
        quiet_stays();
        says_on();
        match act.effect {
            Effect::Quiet => {}
            Effect::Finishes => self.tasking.finish(task),
            Effect::Breaks => self.tasking.break_off(),
            Effect::Says { label, value } => {
                let line = Some(self.line(task, label, value));
                return Settlement {
                    line,
                    is_over: false,
                };
            }
            Effect::Delays { until } => self.tasking.delay_until(task, until),
            Effect::Opens { object } => self.tasking.open_to_write(task, object),
            Effect::Views { object } => self.tasking.open_to_read(task, object),
            Effect::Queues { object } => self.tasking.queue(task, object),
            Effect::Ends { is_open } => {
                let is_over = self.ends(task, is_open, act.given);
                return Settlement {
                    line: None,
                    is_over,
                };
            }
            Effect::Dies { exception } => self.tasking.die(task, exception),
        }
        Settlement {
            line: None,
            is_over: false,
        }
    }

    // The line of a task, now.
    fn line(&self, task: u8, label: u16, value: i64) -> Line
        ensures { result ≡ record { time = (kernel_of self.now.tasking).now; task = task; label = label; value = value } }
    {
        Line {
            time: self.tasking.now(),
            task,
            label,
            value,
        }
    }

    // The body that the innermost action of the running task runs is left; whether a handler is over with it.
    fn ends(&mut self, task: u8, is_open: bool, given: Option<Given>) -> bool
        requires { Owes self.old task (record { effect = effects.Ends is_open; given = given }) }
        ensures { KernelDoes self.old self.new task (record { effect = effects.Ends is_open; given = given }) result [] }
    {
        steps_whole();
        reaches_callers();
        code_leads_on();
        let _handler = self.tasking.handler();
        let ended = self.tasking.end_action(task, is_open);
        match ended.ending {
            Ending::Closes => {}
            Ending::TakesOver { object, caller } => self.serves(task, object, caller),
            Ending::HandsBack { caller } => self.hands_back(caller, given),
        }
        ended.is_over
    }
}
