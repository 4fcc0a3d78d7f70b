//! The laws of source texts, each what a function without work ensures.
ghost use Rattle.source_laws.specs.Limits.{LimitsAreTold, SmallHasRoom, SmallIsUnlimited};
ghost use Rattle.source_laws.specs.Small.{SmallCodeFits};
ghost use Rattle.source_laws.specs.Spelled.{TextsAreSpelled};
ghost use Rattle.source_laws.specs.Visible.{BodiesCallFew, BodiesKeepLimits, CalleesHaveFew, FrontsAreSmall, FrontsKeepLimits, NothingIsUnfit};

use crate::cover_laws::names_are_covered;
use crate::depth_laws::{functions_have_room, procedures_have_room};
use crate::table_laws::tables_are_small;
use ada_tree::laws::size_within_tokens;
use expr_soundness::laws::scopes_are_sound;
use legality::laws::words_have_room;
use program_soundness::body_laws::{fronts_fit, names_are_known, premises_hold};
use program_soundness::program_laws::starts_are_sound;
use size_rules::laws::words_add_up;
use types::laws::{shapes_stay, values_have_words};

/// The names and labels in the tree of a text are spelled as such (docs/LANGUAGE.md, "Lexical elements").
pub fn texts_are_spelled()
    ensures { TextsAreSpelled }
{}

/// The code of a small program passes neither the limit of instructions nor that of rows of handlers.
pub fn small_code_fits()
    ensures { SmallCodeFits }
{
    size_within_tokens();
    tables_are_small();
}

/// In front of each declaration and body of the package of an accepted text objects have no more words than an image, and each part of a value has a word
/// (docs/LANGUAGE.md, "Limits").
pub fn fronts_keep_limits()
    ensures { FrontsKeepLimits }
{
    names_are_known();
    premises_hold();
    shapes_stay();
    words_have_room();
}

/// Before the parameters of each body with code, also in the body of a protected object, objects have no more words than an image.
pub fn bodies_keep_limits()
    ensures { BodiesKeepLimits }
{
    fronts_keep_limits();
    names_are_known();
    premises_hold();
    scopes_are_sound();
    shapes_stay();
    words_have_room();
}

/// Nothing that code of an accepted text needs takes no words, or more than an image has.
pub fn nothing_is_unfit()
    ensures { NothingIsUnfit }
{
    bodies_keep_limits();
    fronts_fit();
    fronts_keep_limits();
    names_are_known();
    premises_hold();
    scopes_are_sound();
    shapes_stay();
    starts_are_sound();
    values_have_words();
    words_add_up();
    words_have_room();
}

/// What can be called before each declaration and body of the package of an accepted text has at most 8 formals, and those of functions are scalar.
pub fn callees_have_few()
    ensures { CalleesHaveFew }
{
    names_are_known();
    premises_hold();
    scopes_are_sound();
}

/// What can be called before the parameters of each body with code, also in the body of a protected object, has few formals.
pub fn bodies_call_few()
    ensures { BodiesCallFew }
{
    callees_have_few();
    names_are_known();
    premises_hold();
    scopes_are_sound();
}

/// What is visible before the parameters of each body is small in a text whose bodies are: formals of what can be called take at most 64 words.
pub fn fronts_are_small()
    ensures { FrontsAreSmall }
{
    bodies_call_few();
    bodies_keep_limits();
    fronts_fit();
    names_are_known();
    premises_hold();
    scopes_are_sound();
    shapes_stay();
    starts_are_sound();
    values_have_words();
    words_have_room();
}

/// The frames and operand stacks of the code of a text whose bodies are small have room.
pub fn small_has_room()
    ensures { SmallHasRoom }
{
    fronts_are_small();
    fronts_fit();
    functions_have_room();
    names_are_known();
    names_are_covered();
    premises_hold();
    procedures_have_room();
    scopes_are_sound();
    shapes_stay();
    starts_are_sound();
    values_have_words();
}

/// The code of an accepted text passes a limit of images only by the instructions, or the rows of handlers, of all of it, or by the words of a frame, where
/// not each body is small.
pub fn limits_are_told()
    ensures { LimitsAreTold }
{
    nothing_is_unfit();
    small_has_room();
}

/// The code of a small accepted text passes no limit of images.
pub fn small_is_unlimited()
    ensures { SmallIsUnlimited }
{
    small_code_fits();
}
