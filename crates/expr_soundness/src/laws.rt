//! The laws of values, types and bounds, each what a function without work ensures.
ghost use Rattle.expr_soundness.specs.BoundsLaw.{AllValuesLie, ChecksAreSpared, ExpressionsLie, LanguageLies, ValuesAreBounded, VisibleValuesLie};
ghost use Rattle.expr_soundness.specs.CompositesLaw.{CompositesLie};
ghost use Rattle.expr_soundness.specs.InitialLaw.{InitialValuesLie};
ghost use Rattle.expr_soundness.specs.Laws.{AgreementIsKept, CallsAreTyped, ExpressionsAreTyped, ScopesAreSound};
ghost use Rattle.expr_soundness.specs.StoringLaw.{StoredValuesLie};
ghost use Rattle.expr_soundness.specs.Variables.{TargetsAreVariables};

use types::laws::static_is_value;

/// A legal expression comes to a value of its type or raises an exception, at every place that agrees with the visible names and where calls are answered
/// (RM 4).
pub fn expressions_are_typed()
    ensures { ExpressionsAreTyped }
{}

/// Where each function's value is legal in a scope that agrees with the place of its body, calls are answered, however many frames are left (RM 6.4).
pub fn calls_are_typed()
    ensures { CallsAreTyped }
{}

/// The names that are always visible are sound, and stay so with each sound declaration more (RM 3, 8.3, A.1).
pub fn scopes_are_sound()
    ensures { ScopesAreSound }
{}

/// A place agrees with fewer names, with one more object on both sides, with a value of the same type stored, and whatever else of it changes
/// (RM 3.3, 5.2, 8.3).
pub fn agreement_is_kept()
    ensures { AgreementIsKept }
{}

/// A legal name of a variable, or of a part of one, names a part of an object that is there; what is stored in it keeps all else as it is
/// (RM 4.1, 5.2, 6.4.1).
pub fn targets_are_variables()
    ensures { TargetsAreVariables }
{}

/// A legal expression comes to a value between its bounds, or raises an exception, where what is visible has values in its subtypes and functions return
/// such (RM 3.2, 4).
pub fn expressions_lie()
    ensures { ExpressionsLie }
{
    static_is_value();
}

/// A legal expression has a value between its bounds, or raises an exception, where each function is sound, however many frames are left; results are checked.
pub fn values_are_bounded()
    ensures { ValuesAreBounded }
{
    static_is_value();
    calls_are_typed();
}

/// An expression whose bounds lie inside a subtype passes the check against it (RM 4.6, 5.2, 6.4.1, 6.5).
pub fn checks_are_spared()
    ensures { ChecksAreSpared }
{
    static_is_value();
}

/// What is visible lies in its subtypes where all does that a place has, and loop parameters have numbers of their ranges (RM 3.2, 5.5).
pub fn visible_values_lie()
    ensures { VisibleValuesLie }
{
    language_lies();
}

/// All that has a value lies in its subtype, where what functions return lies in the subtypes of their results (RM 6.5).
pub fn all_values_lie()
    ensures { AllValuesLie }
{
    visible_values_lie();
}

/// What Ada.Real_Time and Control_IO give for actuals in their subtypes is of the base range, where the time and the inputs are (RM D.8).
pub fn language_lies()
    ensures { LanguageLies }
{}

/// An object without initial value begins in its subtype, part by part, where each subtype has the value at which its objects begin (RM 3.3.1).
pub fn initial_values_lie()
    ensures { InitialValuesLie }
{}

/// An object with a part changed to a value of that part's subtype lies in its own subtype as before (RM 5.2).
pub fn stored_values_lie()
    ensures { StoredValuesLie }
{}

/// A legal expression of a composite type comes to a value each part of which lies in its subtype, where the parts of the visible objects do and functions
/// return no composite values (RM 3.2, 4).
pub fn composites_lie()
    ensures { CompositesLie }
{
    calls_are_typed();
}
