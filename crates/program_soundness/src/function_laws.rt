//! The law of the functions of an accepted program, as what a function without work ensures.
ghost use Rattle.program_soundness.specs.FunctionLaws.{ProgramFunctionsAreSound};

use crate::body_laws::{names_are_known, premises_hold};
use expr_soundness::laws::scopes_are_sound;

/// What a function returns is legal where its formals are visible, and the place of a call agrees with these names (RM 6.3, 6.4, 9.5.1).
pub fn functions_are_sound()
    ensures { ProgramFunctionsAreSound }
{
    scopes_are_sound();
    names_are_known();
    premises_hold();
}
