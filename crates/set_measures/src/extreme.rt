//! The greatest or the least value of a measure in the runs so far.
ghost use Rattle.std.specs.Prelude.{◌≡◌, ◌+◌, ◌++◌, ◌∷◌, [], List, None, Option, length, ℕ};
ghost use Rattle.set_measures.specs.Extremes.{IsExtremeOf, capped, is_past};
ghost use Rattle.set_measures.specs.Quantities.{direction_of};

use crate::measure::{Direction, Measure};

/// The greatest value of a measure, or the least, and the number of the first schedule that gives it, counted from 1. No number is greater than 2**64 - 1, and
/// a greater one is written as that.
#[derive(Clone, Copy)]
pub struct Extreme {
    pub value: u64,
    pub number: u64,
}

/// A measure and its extreme, if a run has a value of it.
#[derive(Clone, Copy)]
pub struct Row {
    pub measure: Measure,
    pub extreme: Option<Extreme>,
}

// Whether the first value is past the second one.
fn is_past(direction: Direction, value: u64, other: u64) -> bool
    ensures { result ≡ is_past direction value other }
{
    match direction {
        Direction::Greatest => other < value,
        Direction::Least => value < other,
    }
}

// The extreme with one more value, that of the run with this number.
fn with_value(
    direction: Direction,
    extreme: Option<Extreme>,
    value: Option<u64>,
    number: u64,
) -> Option<Extreme>
    ensures { (values : List (Option ℕ)) → number ≡ capped (length values + 1) → IsExtremeOf direction values extreme →
        IsExtremeOf direction (values ++ value ∷ []) result }
{
    let Some(value) = value else {
        return extreme;
    };
    let Some(so_far) = extreme else {
        return Some(Extreme { value, number });
    };
    if is_past(direction, value, so_far.value) {
        Some(Extreme { value, number })
    } else {
        Some(so_far)
    }
}

impl Row {
    /// The row of a measure of which no run has a value yet.
    pub(crate) fn new(measure: Measure) -> Row
        ensures measure { result.measure ≡ measure }
        ensures extreme { result.extreme ≡ None }
    {
        Row {
            measure,
            extreme: None,
        }
    }

    /// The row with the value of one more run, which has this number.
    pub(crate) fn with(self, value: Option<u64>, number: u64) -> Row
        ensures measure { result.measure ≡ self.measure }
        ensures extreme { (values : List (Option ℕ)) → number ≡ capped (length values + 1) → IsExtremeOf (direction_of self.measure) values self.extreme →
            IsExtremeOf (direction_of self.measure) (values ++ value ∷ []) result.extreme }
    {
        Row {
            measure: self.measure,
            extreme: with_value(self.measure.direction(), self.extreme, value, number),
        }
    }
}
