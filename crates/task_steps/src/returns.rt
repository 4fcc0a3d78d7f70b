//! Returns: the end of the task's body, of a call, of a call and its action, or of a body that was run for a queued caller (RM 9.5.3).
ghost use Rattle.std.specs.Prelude.{◌≡◌};
ghost use Rattle.image.specs.declared.instruction.Operation.TheVariants as operations;
ghost use Rattle.image_laws.specs.Room.{widest};
ghost use Rattle.task_steps.specs.Stepping.{Does, IsReadyFor};

use crate::acts::{Act, Effect, Given};
use crate::lookups::results;
use crate::memory::Memory;
use crate::raising::ends;
use processor::{Program, Role, TaskState};

/// RET.
pub(crate) fn leave(program: &Program, state: &mut TaskState, memory: &mut Memory) -> Act
    requires here { IsReadyFor program.now state.old.task operations.Return }
    requires width { state.old.width ≡ widest program.now }
    ensures does { Does program.now operations.Return state.old.task memory.old result memory.new state.new.task }
    ensures width { state.new.width ≡ state.old.width }
{
    let results = results(program, state);
    if state.callers() == 0 {
        return Act::of(Effect::Finishes);
    }
    match state.role() {
        Role::Inner => {
            state.leave(results);
            Act::of(Effect::Quiet)
        }
        Role::Opened { object } => {
            state.leave(results);
            ends(program, memory, object, None)
        }
        Role::Serving {
            object,
            pending,
            ..
        } => {
            memory.keep_turned(state.top(results));
            state.abandon();
            state.set_raising(pending);
            ends(program, memory, object, Some(Given::Results))
        }
    }
}
