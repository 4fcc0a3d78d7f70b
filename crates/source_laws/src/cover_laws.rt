//! That accepted texts give all that their code needs.
ghost use Rattle.source_laws.specs.Covered.{DeclarationsTell, NamesAreCovered};

use crate::laws::{bodies_call_few, bodies_keep_limits, fronts_keep_limits};
use crate::table_laws::tables_are_small;
use expr_soundness::laws::scopes_are_sound;
use program_soundness::body_laws::{fronts_fit, names_are_known, premises_hold};
use program_soundness::program_laws::starts_are_sound;
use program_soundness::scope_laws::{declarations_are_sound, objects_are_sound};
use types::laws::{shapes_stay, values_have_words};

/// The declarations of an accepted text give the first words of its variables and of the components of its protected objects.
pub fn declarations_tell()
    ensures { DeclarationsTell }
{
    declarations_are_sound();
    fronts_fit();
    fronts_keep_limits();
    names_are_known();
    objects_are_sound();
    premises_hold();
    scopes_are_sound();
    shapes_stay();
    starts_are_sound();
    values_have_words();
}

/// What is visible before the parameters of each body of an accepted text has what its code needs: objects have places, subprograms and operations
/// numbers, functions results of one word, exceptions numbers.
pub fn names_are_covered()
    ensures { NamesAreCovered }
{
    bodies_call_few();
    bodies_keep_limits();
    fronts_fit();
    names_are_known();
    premises_hold();
    scopes_are_sound();
    shapes_stay();
    starts_are_sound();
    tables_are_small();
    values_have_words();
}
