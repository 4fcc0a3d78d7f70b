//! The laws of code of statements and of whole subprograms, each what a function without work ensures.
ghost use Rattle.stmt_code.specs.Whole.{KeptCodePasses};
ghost use Rattle.kernel.specs.Laws.{QuietStays};
ghost use Rattle.expr_soundness.specs.Laws.{AgreementIsKept, CallsAreTyped, ExpressionsAreTyped, ScopesAreSound};
ghost use Rattle.expr_soundness.specs.BoundsLaw.{AllValuesLie, ChecksAreSpared, ValuesAreBounded, VisibleValuesLie};
ghost use Rattle.handlers.specs.Laws.{RowsAround, RowsInside};
ghost use Rattle.types.specs.Laws.{InitialValuesHaveShape, PartsHavePlaces, ShapesStay, ValuesHaveWords};
ghost use Rattle.types.specs.Statics.{StaticIsValue};

use expr_soundness::laws::{
    agreement_is_kept, all_values_lie, calls_are_typed, checks_are_spared, expressions_are_typed,
    scopes_are_sound, values_are_bounded, visible_values_lie,
};
use handlers::laws::{rows_around, rows_inside};
use kernel::laws::quiet_stays;
use types::laws::{
    initial_values_have_shape, parts_have_places, shapes_stay, static_is_value, values_have_words,
};

/// What the methods of whole subprograms add keeps the rules of images on code, one subprogram after another.
pub fn kept_code_passes()
    ensures { KeptCodePasses }
{}

/// The laws by which the code of a body does what the body says.
pub(crate) fn body_laws()
    ensures quiet { QuietStays }
    ensures typed { ExpressionsAreTyped }
    ensures spared { ChecksAreSpared }
    ensures lie { AllValuesLie }
    ensures words { ValuesHaveWords }
    ensures places { PartsHavePlaces }
    ensures kept { AgreementIsKept }
    ensures calls { CallsAreTyped }
    ensures shaped { InitialValuesHaveShape }
    ensures stay { ShapesStay }
    ensures scopes { ScopesAreSound }
    ensures bounded { ValuesAreBounded }
    ensures visible { VisibleValuesLie }
    ensures inside { RowsInside }
    ensures around { RowsAround }
    ensures statics { StaticIsValue }
{
    quiet_stays();
    expressions_are_typed();
    checks_are_spared();
    all_values_lie();
    values_have_words();
    parts_have_places();
    agreement_is_kept();
    calls_are_typed();
    initial_values_have_shape();
    shapes_stay();
    scopes_are_sound();
    values_are_bounded();
    visible_values_lie();
    rows_inside();
    rows_around();
    static_is_value();
}
