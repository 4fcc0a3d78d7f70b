//! The laws of the runs of an accepted program, each what a function without work ensures.
ghost use Rattle.program_soundness.specs.RunLaws.{RunsAreSound, RunsHaveMeaning};

use declaration_rules::laws::names_are_added;
use expr_soundness::laws::{agreement_is_kept, calls_are_typed, targets_are_variables};
use kernel::laws::{
    begins_kept, four_statements_hold, kept_by_every_effect, start_settles, steps_settle,
};
use step_soundness::laws::{
    callers_go_on, effects_pass, others_stay_sound, servers_are_sound, steps_are_sound,
    stores_are_alike,
};
use types::laws::initial_values_have_shape;

/// Every world of a run is sound, where the start of the program is.
pub fn runs_are_sound()
    ensures { RunsAreSound }
{
    begins_kept();
    start_settles();
    kept_by_every_effect();
    steps_settle();
    four_statements_hold();
    initial_values_have_shape();
    names_are_added();
    agreement_is_kept();
    calls_are_typed();
    targets_are_variables();
    steps_are_sound();
    others_stay_sound();
    servers_are_sound();
    callers_go_on();
    stores_are_alike();
    effects_pass();
}

/// No run ends by the exception that is none, where the start of the program is sound (RM 11.4.1).
pub fn runs_have_meaning()
    ensures { RunsHaveMeaning }
{
    runs_are_sound();
}
