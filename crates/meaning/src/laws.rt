// The laws of source runs and of the same meaning: each is what a function without work ensures.
ghost use Rattle.meaning.specs.Laws.{CountGivesMeaning, MeaningIsWritten, MeaningNeverFaults, SourceLinesGrow, SourceNeverFaults, SourceStays};
ghost use Rattle.meaning.specs.NullExample.{ReturnMeansNulls};

use kernel::laws::{
    begins_kept, kept_by_every_effect, lines_grow, quiet_stays, reaches_callers, runner_is_calm,
    start_settles, steps_settle,
};

/// A world of a source run that has an outcome does not change.
pub fn source_stays()
    ensures { SourceStays }
{}

/// The lines of a world of a source run begin those of each later world.
pub fn source_lines_grow()
    ensures { SourceLinesGrow }
{
    lines_grow();
}

/// An image fault is no outcome of a source run.
pub fn source_never_faults()
    ensures { SourceNeverFaults }
{}

/// An image fault is no outcome of an image that has the meaning of a program.
pub fn meaning_never_faults()
    ensures { MeaningNeverFaults }
{}

/// An image whose run keeps a count of steps, with the names of the program, has the meaning of the program, in both directions.
pub fn count_gives_meaning()
    ensures { CountGivesMeaning }
{
    lines_grow();
}

/// Where an image has the meaning of a program, both write the same text if one of them comes to an outcome; cut anywhere, the code has written
/// a beginning of the lines of the source.
pub fn meaning_is_written()
    ensures { MeaningIsWritten }
{}

/// The image whose only instruction is a return has the meaning of each main of null statements, by the law of met steps.
pub fn return_means_nulls()
    ensures { ReturnMeansNulls }
{
    begins_kept();
    kept_by_every_effect();
    steps_settle();
    start_settles();
    lines_grow();
    quiet_stays();
    reaches_callers();
    runner_is_calm();
}
