//! That the meaning of an accepted text is what its tokens say, and that no run of it passes over something that isn't there.
ghost use Rattle.source_laws.specs.Counted.{CodeWithinTokens, PartsWithinTokens};
ghost use Rattle.source_laws.specs.Meant.{MeaningIsTold};
ghost use Rattle.source_laws.specs.MeantRuns.{ActualsFit, RunsHaveAll};

use expr_soundness::laws::scopes_are_sound;
use program_soundness::body_laws::{fronts_fit, names_are_known, premises_hold};
use program_soundness::program_laws::starts_are_sound;
use program_soundness::run_laws::runs_are_sound;
use program_soundness::scope_laws::declarations_are_sound;
use types::laws::{shapes_stay, static_is_value, values_have_words};

/// An accepted text gives all that its meaning takes from it: which subtype a name is, the initial values, the priorities and ceilings, one body for each task,
/// a value for each function, one value for each choice of a `case`. So no value is taken that the meaning has for want of one (docs/LANGUAGE.md).
pub fn meaning_is_told()
    ensures { MeaningIsTold }
{
    declarations_are_sound();
    fronts_fit();
    names_are_known();
    premises_hold();
    scopes_are_sound();
    shapes_stay();
    starts_are_sound();
    static_is_value();
    values_have_words();
}

/// Actual parameters that are evaluated have a value for each parameter that is copied in, and a target for each that is copied back.
pub fn actuals_fit()
    ensures { ActualsFit }
{}

/// In each world that a run of an accepted text comes to, under any schedule, what the next step takes is there: each barrier is True or False, a task that
/// waits in an entry call has that call to do, values have their targets, and each target is an object, or a part of one, that is there.
pub fn runs_have_all()
    ensures { RunsHaveAll }
{
    fronts_fit();
    names_are_known();
    premises_hold();
    runs_are_sound();
    scopes_are_sound();
    shapes_stay();
    starts_are_sound();
    values_have_words();
}

/// Each expression, statement, body and item of a text has no more nodes than the tokens that spell it.
pub fn parts_within_tokens()
    ensures { PartsWithinTokens }
{}

/// The code of each body takes at most 20 instructions for each token that spells it, and two for each word of its formals and objects.
pub fn code_within_tokens()
    ensures { CodeWithinTokens }
{}
