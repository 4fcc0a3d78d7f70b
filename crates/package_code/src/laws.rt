//! The laws of bodies that the walk over them rests on, each what a function without work ensures.
ghost use Rattle.package_code.specs.Laws.{BodiesAreNumbered, TasksHaveBodies};

use expr_soundness::laws::scopes_are_sound;
use program_soundness::body_laws::{names_are_known, premises_hold};

/// Each body of an accepted program has the number of its name, since no two of them have one name outside of protected objects or within one.
pub fn bodies_are_numbered()
    ensures { BodiesAreNumbered }
{
    names_are_known();
    premises_hold();
    scopes_are_sound();
}

/// Each task that is declared in an accepted program has one body, whose number is known by its name.
pub fn tasks_have_bodies()
    ensures { TasksHaveBodies }
{
    names_are_known();
    premises_hold();
    scopes_are_sound();
}
