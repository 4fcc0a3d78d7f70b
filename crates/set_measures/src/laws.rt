//! A law of the schedules of a set, the contract of an empty function.
ghost use Rattle.set_measures.specs.AllSchedules.{AreAllSchedules};

/// The schedules that are gone through are those of the set and no others, and there is one for each choice.
pub fn schedules_are_those_of_the_set()
    ensures { AreAllSchedules }
{}
