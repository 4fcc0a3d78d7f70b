//! The laws of the whole: each is what a function without work ensures.
ghost use Rattle.adarun.specs.Explaining.{ChoicesFaultsExplained, ScheduleFaultsExplained, TextFaultsExplained};
ghost use Rattle.adarun.specs.Joined.{RunsAsItsSource};

use fault_numbers::{grammar_numbers, legality_numbers, restriction_numbers, spelling_numbers};
use image::Image;
use image_laws::{code_leads_on, outcome_stays, steps_whole};
use image_loading::laws::comes_back;

/// What is loaded from the bytes of an image that a source compiles to runs as the source does: what `run` writes of it under a schedule
/// within a limit is what `go` writes of the source.
pub fn loaded_image_runs_as_its_source(image: &Image)
    ensures { RunsAsItsSource image.now }
{
    code_leads_on();
    outcome_stays();
    steps_whole();
    comes_back(image);
}

/// What a text, a schedule or a set of schedules is refused with has a number that is explained.
pub fn refusals_are_explained()
    ensures texts { TextFaultsExplained }
    ensures schedules { ScheduleFaultsExplained }
    ensures choices { ChoicesFaultsExplained }
{
    spelling_numbers();
    grammar_numbers();
    legality_numbers();
    restriction_numbers();
}
