//! The laws of static values, bounds, layouts and words, each what a function without work ensures.
ghost use Rattle.types.specs.Bounds.{StaticBounds};
ghost use Rattle.types.specs.Laws.{InitialValuesHaveShape, ObjectsLieApart, PartsHavePlaces, ShapesStay, ValuesHaveWords};
ghost use Rattle.types.specs.Statics.{StaticIsValue};

/// A static expression has its value at every place where nothing hides the names of the scope, whatever can be called there.
pub fn static_is_value()
    ensures { StaticIsValue }
{}

/// A static expression whose evaluation doesn't raise has its value for both bounds, whatever its form (RM 4.9).
pub fn static_bounds()
    ensures { StaticBounds }
{}

/// The words of different objects do not overlap, and lie within those of all objects together.
pub fn objects_lie_apart()
    ensures { ObjectsLieApart }
{}

/// A value takes the words of its shape, and comes back from them.
pub fn values_have_words()
    ensures { ValuesHaveWords }
{}

/// The value of an object without initial value is of the shape of its subtype.
pub fn initial_values_have_shape()
    ensures { InitialValuesHaveShape }
{}

/// The shape of a subtype, and so its words, stays as it is while further names become visible.
pub fn shapes_stay()
    ensures { ShapesStay }
{}

/// The words of a component are at its place among those of the whole.
pub fn parts_have_places()
    ensures { PartsHavePlaces }
{}
