//! The laws of images with the code of a program, each what a function without work ensures.
ghost use Rattle.package_code.specs.LinkLaws.{LinkedKeepsCount, LinkedMeansTheSame};

use image_laws::steps_whole;
use kernel::laws::{left_unmoved, lines_grow, quiet_stays, reaches_callers, runner_is_calm};
use meaning::laws::count_gives_meaning;
use program_soundness::body_laws::premises_hold;
use program_soundness::program_laws::starts_are_sound;
use program_soundness::run_laws::runs_are_sound;
use program_soundness::subtype_laws::programs_keep_subtypes;
use step_simulation::laws::{effects_are_met, steps_are_met};

/// A well-formed image that has the code of an accepted program keeps the count of steps.
pub fn linked_keeps_count()
    ensures { LinkedKeepsCount }
{
    steps_whole();
    left_unmoved();
    lines_grow();
    quiet_stays();
    reaches_callers();
    runner_is_calm();
    premises_hold();
    starts_are_sound();
    runs_are_sound();
    programs_keep_subtypes();
    effects_are_met();
    steps_are_met();
}

/// A well-formed image that has the code of an accepted program has its meaning.
pub fn linked_means_the_same()
    ensures { LinkedMeansTheSame }
{
    count_gives_meaning();
    linked_keeps_count();
}
