//! What the end of an action makes of two tasks: the body of an entry is run for a queued caller, or the caller goes on (RM 9.5.3).
ghost use Rattle.std.specs.Prelude.{◌≡◌, ◌≤◌, ◌+◌, ◌++◌, Some, length};
ghost use Rattle.image.specs.Steps.{Raised, Results};
ghost use Rattle.task_steps.specs.Acting.{given_of};
ghost use Rattle.execution.specs.Settling.{CanReceive, CanServe, given_tasks, served_tasks};

use crate::state::State;
use clock::Delays;
use dispatch::Ready;
use image_laws::code_leads_on;
use processor::{Role, TaskState};
use task_steps::{Given, called, entry, first_place};

impl<'a, 's, R: Ready, D: Delays> State<'a, 's, R, D> {
    /// The task runs the entry body of an object for a caller, whose parameters leave its operand stack.
    pub(crate) fn serves(&mut self, task: u8, object: u8, caller: u8)
        requires { CanServe self.old.image self.old.tasks task object caller }
        ensures { self.new ≡ record self.old { tasks = served_tasks self.old.image self.old.tasks task object caller } }
    {
        code_leads_on();
        let Some(number) = entry(&self.program, u16::from(object)) else {
            unreachable!()
        };
        let Some(subprogram) = called(&self.program, number) else {
            unreachable!()
        };
        let place = first_place(&self.program, number);
        let row = self.row(task);
        let Some(waiting) = self.tasks.get_mut(usize::from(caller)) else {
            unreachable!()
        };
        self.parameters.keep(waiting.top(subprogram.parameters));
        waiting.drop_top(subprogram.parameters);
        let Some(server) = self.tasks.get_mut(row) else {
            unreachable!()
        };
        let role = Role::Serving {
            object: u16::from(object),
            caller,
            pending: server.raising(),
        };
        server.serve(number, place, &subprogram, role, self.parameters.words());
    }

    /// The caller that was served goes on after its entry call with the results, or raises the exception there in its next step.
    pub(crate) fn hands_back(&mut self, caller: u8, given: Option<Given>)
        requires { CanReceive self.old.image self.old.tasks caller (given_of self.old.memory.passed given) }
        ensures { self.new ≡ record self.old { tasks = given_tasks self.old.image self.old.tasks caller (given_of self.old.memory.passed given) } }
    {
        match given {
            Some(Given::Results) => self.gives_results(caller),
            Some(Given::Raised(exception)) => self.gives_exception(caller, exception),
            None => unreachable!(),
        }
    }

    // The caller goes on behind its entry call with the words that are on their way.
    fn gives_results(&mut self, caller: u8)
        requires { CanReceive self.old.image self.old.tasks caller (Some (Results self.old.memory.passed)) }
        ensures { self.new ≡ record self.old { tasks = given_tasks self.old.image self.old.tasks caller (Some (Results self.old.memory.passed)) } }
    {
        let Some(state) = self.tasks.get_mut(usize::from(caller)) else {
            unreachable!()
        };
        push_results(state, self.memory.passed());
        state.advance();
    }

    // The caller raises an exception at its entry call in its next step.
    fn gives_exception(&mut self, caller: u8, exception: u16)
        requires { CanReceive self.old.image self.old.tasks caller (Some (Raised exception)) }
        ensures { self.new ≡ record self.old { tasks = given_tasks self.old.image self.old.tasks caller (Some (Raised exception)) } }
    {
        let Some(state) = self.tasks.get_mut(usize::from(caller)) else {
            unreachable!()
        };
        state.set_raising(Some(exception));
    }
}

// Puts these words on the operand stack of a task, the first one on top.
fn push_results(state: &mut TaskState, words: &[i64])
    requires { length state.old.task.frame.locals + length state.old.task.frame.stack + length words.now ≤ state.old.width }
    ensures { state.new ≡ record state.old {
      task = record state.old.task { frame = record state.old.task.frame { stack = words.now ++ state.old.task.frame.stack } };
    } }
{
    for index in 0..words.len() {
        state.push(words[words.len() - 1 - index]);
    }
}
