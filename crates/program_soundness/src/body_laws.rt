//! The laws of the bodies of an accepted program, each what a function without work ensures.
ghost use Rattle.program_soundness.specs.BodyLaws.{FrontsFit, HandlersAreSound, NamesAreKnown, PremisesHold, ProceduresAreSound, WorksAreSound};

use crate::scope_laws::declarations_are_sound;
use declaration_rules::laws::names_are_added;
use expr_soundness::laws::{
    agreement_is_kept, calls_are_typed, scopes_are_sound, targets_are_variables,
};
use types::laws::initial_values_have_shape;

/// The names at each declaration and body of the package, and at each operation of its protected objects, are known (RM 8.2, 8.3, 9.4).
pub fn names_are_known()
    ensures { NamesAreKnown }
{
    declarations_are_sound();
    crate::scope_laws::scopes_are_sound();
}

/// The laws of values, names and targets hold of every legal program, whose names are known (RM 3, 4, 8.3).
pub fn premises_hold()
    ensures { PremisesHold }
{
    initial_values_have_shape();
    names_are_added();
    agreement_is_kept();
    calls_are_typed();
    targets_are_variables();
    crate::scope_laws::scopes_are_sound();
}

/// A place of the package's bodies fits the names that are visible before each declaration and body (RM 7.2, 8.3).
pub fn fronts_fit()
    ensures { FrontsFit }
{
    scopes_are_sound();
    names_are_known();
    premises_hold();
}

/// The bodies of procedures and entries, those of protected objects among them, can be begun with each values of their parameters (RM 6.4, 9.5).
pub fn procedures_are_sound()
    ensures { ProceduresAreSound }
{
    scopes_are_sound();
    names_are_known();
    premises_hold();
}

/// The handlers of channels are procedures without parameters, of objects with the highest ceiling (RM C.3.1).
pub fn handlers_are_sound()
    ensures { HandlersAreSound }
{
    scopes_are_sound();
    names_are_known();
    premises_hold();
}

/// Tasks, main and handlers begin with work that breaks no rule (RM 9.2, 10.2, C.3.1).
pub fn works_are_sound()
    ensures { WorksAreSound }
{
    scopes_are_sound();
    names_are_known();
    premises_hold();
}
