//! The laws of code that does the work of statements, each as what a function without work ensures.
ghost use Rattle.step_simulation.specs.Laws.{EffectsAreMet, StepsAreMet};

use kernel::laws::quiet_stays;
use step_soundness::laws::steps_are_sound;

/// Each step of a task is met by the code that does its work.
pub fn steps_are_met()
    ensures { StepsAreMet }
{
    quiet_stays();
    steps_are_sound();
}

/// After the effect of each step the code of all tasks does their work again.
pub fn effects_are_met()
    ensures { EffectsAreMet }
{}
