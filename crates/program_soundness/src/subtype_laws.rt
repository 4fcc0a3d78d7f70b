//! The laws of values in the runs of accepted programs, each what a function without work ensures.
ghost use Rattle.program_soundness.specs.LyingWorlds.{ProgramsKeepSubtypes, RunsKeepSubtypes, StartsLie};

use crate::body_laws::{names_are_known, premises_hold};
use crate::program_laws::starts_are_sound;
use crate::run_laws::runs_are_sound;
use crate::scope_laws::objects_are_sound;
use declaration_rules::laws::names_are_added;
use expr_soundness::laws::{
    agreement_is_kept, calls_are_typed, initial_values_lie, scopes_are_sound, targets_are_variables,
};
use step_soundness::laws::steps_keep_subtypes;
use types::laws::{initial_values_have_shape, static_is_value};

/// In each world of a run every value lies in its subtype, part by part, where those of its start do (RM 3.2).
pub fn runs_keep_subtypes()
    ensures { RunsKeepSubtypes }
{
    initial_values_have_shape();
    names_are_added();
    agreement_is_kept();
    calls_are_typed();
    targets_are_variables();
    steps_keep_subtypes();
    runs_are_sound();
}

/// The variables and components of each accepted program begin in their subtypes, as each object does that is given no value (RM 3.3.1, 6.4.1).
pub fn starts_lie()
    ensures { StartsLie }
{
    static_is_value();
    initial_values_lie();
    scopes_are_sound();
    names_are_known();
    premises_hold();
    objects_are_sound();
}

/// In each world that a run of an accepted program comes to, every object's value lies in its declared subtype, and each part of it in its own (RM 3.2).
pub fn programs_keep_subtypes()
    ensures { ProgramsKeepSubtypes }
{
    runs_keep_subtypes();
    starts_are_sound();
    starts_lie();
}
