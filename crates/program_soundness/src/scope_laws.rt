//! The laws of the names, objects, functions and barriers of an accepted program, each what a function without work ensures.
ghost use Rattle.program_soundness.specs.ScopeLaws.{BarriersAreTheirOwn, DeclarationsAreSound, ObjectsAreSound, PartitionsFit, ProgramScopesAreSound};

use types::laws::{initial_values_have_shape, static_is_value};

/// Declarations that break no rule keep the visible names known (RM 3, 6.1, 8.3, 9.4).
pub fn declarations_are_sound()
    ensures { DeclarationsAreSound }
{}

/// The names of a legal program are known: all of them, and those at each body of its package (RM 8.2, 8.3).
pub fn scopes_are_sound()
    ensures { ProgramScopesAreSound }
{}

/// Priorities and ceilings of every program are in their range (RM D.1, D.3).
pub fn partitions_fit()
    ensures { PartitionsFit }
{}

/// The barriers of a program that keeps the profile read the components of their own object alone (RM D.7).
pub fn barriers_are_their_own()
    ensures { BarriersAreTheirOwn }
{}

/// Variables and components of a legal program have values of their types at the start (RM 3.3.1).
pub fn objects_are_sound()
    ensures { ObjectsAreSound }
{
    static_is_value();
    initial_values_have_shape();
}
