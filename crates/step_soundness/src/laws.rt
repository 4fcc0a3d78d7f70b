//! The laws of the steps of an accepted program, each what a function without work ensures.
ghost use Rattle.step_soundness.specs.InSubtypes.{StepsKeepSubtypes};
ghost use Rattle.step_soundness.specs.Laws.{CallersGoOn, EffectsPass, OthersStaySound, ServersAreSound, StepsAreSound, StoresAreAlike};

use expr_soundness::laws::{composites_lie, stored_values_lie};

/// A task whose work is judged, at a place that fits the visible names, takes a step that has a meaning, and all holds again after it.
pub fn steps_are_sound()
    ensures { StepsAreSound }
{}

/// Where all values of the store and of a task lie in their subtypes, part by part, they do so after each step of the task (RM 3.2, 5.2, 6.4.1).
pub fn steps_keep_subtypes()
    ensures { StepsKeepSubtypes }
{
    composites_lie();
    stored_values_lie();
}

/// What holds of a task goes on holding while another one takes such a step.
pub fn others_stay_sound()
    ensures { OthersStaySound }
{}

/// What holds of a task with one store holds with each other one that is sound.
pub fn stores_are_alike()
    ensures { StoresAreAlike }
{}

/// A task that has ended its action may run the entry body for the queued caller (RM 9.5.3).
pub fn servers_are_sound()
    ensures { ServersAreSound }
{}

/// A caller that was served goes on after its entry call (RM 9.5.3).
pub fn callers_go_on()
    ensures { CallersGoOn }
{}

/// The refusals before the effect of such a step were passed, and barriers change only under an action that may write their object (RM 9.5.1, 9.5.3).
pub fn effects_pass()
    ensures { EffectsPass }
{}
