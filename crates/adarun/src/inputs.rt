//! What a run is made of again: the program of a text, and a schedule.
ghost use Rattle.std.specs.Prelude.{IfOk};
ghost use Rattle.adarun.specs.Naming.{CompilesNamed};
ghost use Rattle.clock.specs.Schedules.{IsScheduleText};

use crate::compilation::{Named, compile_named};
use clock::Schedule;
use std::alloc::{AllocError, Global};

/// The program of a text, and a schedule.
#[derive(Drop)]
pub(crate) struct Inputs {
    pub(crate) named: Named,
    pub(crate) schedule: Schedule,
}

/// The program of a text, and the schedule that these lines are.
///
/// # Errors
/// Where memory was refused, or the text isn't compiled or the schedule isn't one.
pub(crate) fn inputs_of(alloc: Global, text: &[u8], lines: &[u8]) -> Result<Inputs, AllocError>
    ensures means { IfOk result (λ inputs. CompilesNamed text.now inputs.named.image inputs.named.objects.items inputs.named.places) }
    ensures read { IfOk result (λ inputs. IsScheduleText lines.now inputs.schedule) }
{
    let Ok(named) = compile_named(alloc, text) else {
        return Err(AllocError);
    };
    let Ok(schedule) = Schedule::read(alloc, lines) else {
        return Err(AllocError);
    };
    Ok(Inputs { named, schedule })
}
