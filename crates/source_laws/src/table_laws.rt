//! What an accepted program has of all that an image has a limit for, and what its main calls.
ghost use Rattle.package_code.specs.Laws.{MainIsKnown, MainMayBeAdded, TablesAreSmall};

use expr_soundness::laws::scopes_are_sound;
use legality::laws::words_have_room;
use program_soundness::body_laws::{fronts_fit, names_are_known, premises_hold};
use program_soundness::program_laws::starts_are_sound;
use types::laws::{shapes_stay, values_have_words};

/// An accepted program has no more labels, words of variables and components, subprograms, exceptions, tasks and protected objects than an image
/// (docs/LANGUAGE.md, "Limits").
pub fn tables_are_small()
    ensures { TablesAreSmall }
{
    fronts_fit();
    names_are_known();
    premises_hold();
    scopes_are_sound();
    shapes_stay();
    starts_are_sound();
    values_have_words();
    words_have_room();
}

/// Each procedure that main of an accepted program calls has a body, and so a number.
pub fn main_is_known()
    ensures { MainIsKnown }
{
    fronts_fit();
    names_are_known();
    premises_hold();
    scopes_are_sound();
    shapes_stay();
    starts_are_sound();
    values_have_words();
}

/// Main of an accepted program calls procedures of the package without parameters.
pub fn main_may_be_added()
    ensures { MainMayBeAdded }
{
    fronts_fit();
    names_are_known();
    premises_hold();
    scopes_are_sound();
    shapes_stay();
    starts_are_sound();
    values_have_words();
}
