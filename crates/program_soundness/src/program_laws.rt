//! The laws of the runs of accepted programs, each what a function without work ensures.
ghost use Rattle.program_soundness.specs.ProgramLaws.{ProgramsHaveMeaning, StartsAreSound};

use crate::body_laws::{handlers_are_sound, premises_hold, procedures_are_sound, works_are_sound};
use crate::function_laws::functions_are_sound;
use crate::run_laws::runs_have_meaning;
use crate::scope_laws::{barriers_are_their_own, objects_are_sound, partitions_fit};

/// The start of each accepted program is sound (RM 3.3.1, 9.2, 10.2, C.3.1, D.1, D.3, D.7).
pub fn starts_are_sound()
    ensures { StartsAreSound }
{
    partitions_fit();
    barriers_are_their_own();
    objects_are_sound();
    premises_hold();
    functions_are_sound();
    procedures_are_sound();
    handlers_are_sound();
    works_are_sound();
}

/// No run of an accepted program ends by the exception that is none, whatever its schedule (RM 11.4.1).
pub fn programs_have_meaning()
    ensures { ProgramsHaveMeaning }
{
    runs_have_meaning();
    starts_are_sound();
}
