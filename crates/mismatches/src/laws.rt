//! What holds of remarks, as what a function without work ensures.
ghost use Rattle.mismatches.specs.Laws.{RemarksAreFaults};

/// Where types are said not to match rule 12 is broken.
pub fn remarks_are_faults()
    ensures { RemarksAreFaults }
{}
