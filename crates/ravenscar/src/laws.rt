//! What the list of all broken rules shows, what a function without work ensures.
ghost use Rattle.ravenscar.specs.BrokenRules.{ListShowsAcceptance};

/// The list of all broken rules is empty just where a program is legal and within the profile; otherwise no broken rule comes before its first.
pub fn list_shows_acceptance()
    ensures { ListShowsAcceptance }
{}
