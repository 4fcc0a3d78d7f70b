//! The words with which variables of a package begin (RM 3.3.1).
ghost use Rattle.std.specs.Prelude.{◌≡◌, ◌∷◌, ◌++◌, [], true, IfErr, OnOk};
ghost use Rattle.ada_tree.specs.ExpressionTree.{expr_tree};
ghost use Rattle.ada_tree.specs.StatementTree.{optional_tree};
ghost use Rattle.image.specs.WordRanges.{Fits64};
ghost use Rattle.types.specs.Shapes.{initial, value_words};
ghost use Rattle.types.specs.Values.{value_of};
ghost use Rattle.expr_soundness.specs.meaning.specs.Programs.{initial_value};
ghost use Rattle.expr_soundness.specs.SoundScopes.{IsKnown, SoundScope};
ghost use Rattle.expr_code.specs.Naming.{scalar_word};
ghost use Rattle.expr_code.specs.Refusing.{IsRefused};
ghost use Rattle.package_code.specs.Providing.{tells_value};

use ada_tree::Expr;
use expr_code::{Refusal, scalar_word};
use type_rules::fixed_scalar;
use types::laws::static_is_value;
use types::{Scope, Subtype, TypeForm, Value};

// Adds a word.
fn push_word(words: &mut Vec<i64>, word: i64) -> Result<(), Refusal>
    ensures words { OnOk result (words.new.items ≡ words.old.items ++ word ∷ []) }
    ensures refused { IfErr result (λ why. IsRefused 0 0 why) }
{
    words.push(word)?;
    Ok(())
}

// Adds the words of an object without initial value.
fn push_default(words: &mut Vec<i64>, scope: &Scope, subtype: Subtype) -> Result<(), Refusal>
    requires sound { SoundScope scope.now }
    requires known { IsKnown scope.now subtype }
    ensures words { OnOk result (words.new.items ≡ words.old.items ++ value_words (initial scope.now subtype)) }
    ensures refused { IfErr result (λ why. IsRefused 0 0 why) }
{
    match scope.form(subtype.type_number) {
        Some(TypeForm::Integer) => push_word(words, subtype.first),
        Some(TypeForm::Boolean) => push_word(words, 0),
        Some(TypeForm::Time) => push_word(words, 0),
        Some(TypeForm::TimeSpan) => push_word(words, 0),
        Some(TypeForm::Array(_, many, element)) => {
            for _ in 0..*many {
                push_default(words, scope, *element)?;
            }
            Ok(())
        }
        Some(TypeForm::Record(components)) => {
            for component in components.as_slice() {
                push_default(words, scope, component.subtype)?;
            }
            Ok(())
        }
        None => unreachable!(),
    }
}

// Adds the word of a value that is known.
fn push_fixed(words: &mut Vec<i64>, value: Value) -> Result<(), Refusal>
    ensures words { OnOk result (words.new.items ≡ words.old.items ++ value_words (value_of value)) }
    ensures fits { Fits64 (scalar_word value) }
    ensures refused { IfErr result (λ why. IsRefused 0 0 why) }
{
    let word = scalar_word(value);
    push_word(words, word)
}

/// Adds the words of the initial value of a variable of a package: of the one that is given, which its text gives, or that of an object without.
pub(crate) fn push_initial(
    words: &mut Vec<i64>,
    scope: &Scope,
    subtype: Subtype,
    value: &Option<Expr>,
) -> Result<(), Refusal>
    requires sound { SoundScope scope.now }
    requires known { IsKnown scope.now subtype }
    requires told { tells_value scope.now subtype (optional_tree expr_tree value.now) ≡ true }
    ensures words { OnOk result (words.new.items ≡ words.old.items ++ value_words (initial_value scope.now subtype (optional_tree expr_tree value.now))) }
    ensures refused { IfErr result (λ why. IsRefused 0 0 why) }
{
    static_is_value();
    match value {
        Some(value) => match fixed_scalar(scope, Some(subtype), value) {
            Some(first) => push_fixed(words, first),
            None => unreachable!(),
        },
        None => push_default(words, scope, subtype),
    }
}
