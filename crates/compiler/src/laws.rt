//! The laws of code that is put together from a program, each what a function without work ensures.
ghost use Rattle.package_code.specs.Laws.{NamesAreSound, SectionsAreBounded, SectionsAreWellFormed, SectionsMeanTheSame, VariablesArePlaced};
ghost use Rattle.package_code.specs.Places.{PlacesAreTold};
ghost use Rattle.compiler.specs.Compiled.{SectionsKeepTokenCounts};
ghost use Rattle.compiler.specs.Located.{PlacesAreInnermost};

use crate::link_laws::{linked_keeps_count, linked_means_the_same};
use expr_soundness::laws::scopes_are_sound;
use image_laws::code_leads_on;
use kernel::laws::{quiet_stays, views_back, views_on};
use program_soundness::body_laws::{fronts_fit, names_are_known, premises_hold};
use program_soundness::program_laws::starts_are_sound;
use source_laws::count_laws::subprograms_within_tokens;
use stmt_code::laws::kept_code_passes;
use types::laws::{initial_values_have_shape, shapes_stay, values_have_words};

/// The names of an accepted program are sound.
pub fn names_are_sound()
    ensures { NamesAreSound }
{
    premises_hold();
}

/// Each variable of an accepted program has a place of its own, since no two of them have one name.
pub fn variables_are_placed()
    ensures { VariablesArePlaced }
{
    premises_hold();
}

/// A well-formed image that was put together from an accepted program has its meaning, and keeps the count of steps.
pub fn sections_mean_the_same()
    ensures { SectionsMeanTheSame }
{
    code_leads_on();
    fronts_fit();
    initial_values_have_shape();
    linked_keeps_count();
    linked_means_the_same();
    names_are_known();
    premises_hold();
    quiet_stays();
    scopes_are_sound();
    shapes_stay();
    starts_are_sound();
    values_have_words();
    views_back();
    views_on();
}

/// The rows of places that come with the code of an accepted program are those of the declarations and statements of its bodies.
pub fn places_are_told()
    ensures { PlacesAreTold }
{
    code_leads_on();
    fronts_fit();
    initial_values_have_shape();
    names_are_known();
    premises_hold();
    quiet_stays();
    scopes_are_sound();
    shapes_stay();
    starts_are_sound();
    values_have_words();
    views_back();
    views_on();
}

/// The first row of places that covers an instruction is that of the innermost statement or declaration whose code it is.
pub fn places_are_innermost()
    ensures { PlacesAreInnermost }
{}

/// Each subprogram of sections that were put together from a program has at most 20 instructions for each part of its text, and two for each word of an object
/// that is declared in it.
pub fn sections_are_bounded()
    ensures { SectionsAreBounded }
{}

/// Each subprogram of a well-formed image that was put together from an accepted program has at most 20 instructions for each of its own tokens, and two for
/// each word of its formals and objects, and at most one row of handlers for each token; and of the steps of code for one step of the program, or for one call
/// of a function within it, each of its frames takes at most 40 for each token, and 16 for each word.
pub fn sections_keep_token_counts()
    ensures { SectionsKeepTokenCounts }
{
    sections_are_bounded();
    sections_mean_the_same();
    subprograms_within_tokens();
}

/// What `sections` puts together from an accepted program is well-formed (docs/FORMATS.md, 43 to 47).
pub fn sections_are_well_formed()
    ensures { SectionsAreWellFormed }
{
    fronts_fit();
    kept_code_passes();
    names_are_known();
    premises_hold();
    scopes_are_sound();
    shapes_stay();
    starts_are_sound();
    values_have_words();
}
