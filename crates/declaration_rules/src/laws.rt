//! The laws of visible names, each what a function without work ensures.
ghost use Rattle.declaration_rules.specs.Laws.{NamesAreAdded, ObjectBodiesEnd};

/// Declarations only add names, at the end: a body ends by dropping those after the ones before it.
pub fn names_are_added()
    ensures { NamesAreAdded }
{}

/// Where the body of a protected object ends and its operations are put back, all is as it was before the body.
pub fn object_bodies_end()
    ensures { ObjectBodiesEnd }
{}
