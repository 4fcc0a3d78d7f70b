//! What a name is that has no meaning where it is, by the word that introduces it; a component of a protected object outside of its body.
ghost use Rattle.std.specs.Prelude.{◌≡◌, ◌≤◌, length, option_map};
ghost use Rattle.remedies.specs.Misuse.{begins_part, component_after, introduced_as, is_dot, is_predefined_type, misused_at, misused_here, misused_name, named_component, or_predefined, outside_at, unless_part, without_type, word_construct};

use crate::construct::Construct;
use crate::likeness::{kind_before, name_of};
use crate::name::{Name, name_text};
use crate::row::{kind_at, kind_from_end};
use crate::text_tokens::TextTokens;
use base::faults::{NAME_NOT_VISIBLE, NO_MEANING};
use lexer::{Delimiter, Token, TokenKind, Word};

fn word_construct(kind: Option<&TokenKind>) -> Option<Construct>
    ensures { result ≡ word_construct (option_map (λ k. k.now) kind.entry) }
{
    match kind {
        Some(TokenKind::Word(Word::Procedure)) => Some(Construct::ProcedureValue),
        Some(TokenKind::Word(Word::Type)) => Some(Construct::TypeValue),
        Some(TokenKind::Word(Word::Subtype)) => Some(Construct::TypeValue),
        Some(TokenKind::Word(Word::Task)) => Some(Construct::TaskValue),
        Some(TokenKind::Word(Word::Package)) => Some(Construct::PackagePrefix),
        Some(TokenKind::Word(Word::Protected)) => Some(Construct::ProtectedValue),
        _ => None,
    }
}

// By the word before the token with so many before it.
fn introduced_as(tokens: &[Token], number: Option<usize>) -> Option<Construct>
    ensures { result ≡ introduced_as tokens.now number }
{
    match number {
        Some(number) => word_construct(kind_before(number, tokens)),
        None => None,
    }
}

fn is_predefined_type(name: &[u8]) -> bool
    ensures { result ≡ is_predefined_type name.now }
{
    name == name_text(Name::Integer)
        || name == name_text(Name::Natural)
        || name == name_text(Name::Positive)
        || name == name_text(Name::Boolean)
        || name == name_text(Name::Time)
        || name == name_text(Name::TimeSpan)
}

fn or_predefined(name: &[u8], construct: Option<Construct>) -> Option<Construct>
    ensures { result ≡ or_predefined name.now construct }
{
    match construct {
        Some(construct) => Some(construct),
        None => {
            if is_predefined_type(name) {
                Some(Construct::TypeValue)
            } else {
                None
            }
        }
    }
}

fn misused_name(tokens: &TextTokens, name: Option<&[u8]>) -> Option<Construct>
    ensures { result ≡ misused_name tokens.now (option_map (λ n. n.now) name.entry) }
{
    match name {
        Some(name) => {
            let number = tokens.first_same(name, 0);
            or_predefined(name, introduced_as(tokens.tokens(), number))
        }
        None => None,
    }
}

fn begins_part(kind: Option<&TokenKind>) -> bool
    ensures { result ≡ begins_part (option_map (λ k. k.now) kind.entry) }
{
    matches!(
        kind,
        Some(TokenKind::Delimiter(Delimiter::LeftParenthesis | Delimiter::Apostrophe))
    )
}

fn without_type(construct: Option<Construct>) -> Option<Construct>
    ensures { result ≡ without_type construct }
{
    match construct {
        Some(Construct::TypeValue) => None,
        other => other,
    }
}

// A conversion or an attribute begins with a type.
fn unless_part(next: Option<&TokenKind>, construct: Option<Construct>) -> Option<Construct>
    ensures { result ≡ unless_part (option_map (λ k. k.now) next.entry) construct }
{
    if begins_part(next) {
        without_type(construct)
    } else {
        construct
    }
}

fn misused_here(number: usize, tokens: &TextTokens) -> Option<Construct>
    requires { number ≤ length tokens.now }
    ensures { result ≡ misused_here number tokens.now }
{
    let construct = misused_name(tokens, name_of(kind_at(number, tokens.tokens())));
    unless_part(kind_at(number + 1, tokens.tokens()), construct)
}

fn is_dot(kind: Option<&TokenKind>) -> bool
    ensures { result ≡ is_dot (option_map (λ k. k.now) kind.entry) }
{
    matches!(kind, Some(TokenKind::Delimiter(Delimiter::Dot)))
}

fn named_component(tokens: &TextTokens, name: Option<&[u8]>) -> Option<Construct>
    ensures { result ≡ named_component tokens.now (option_map (λ n. n.now) name.entry) }
{
    match name {
        Some(name) => match tokens.first_declared(name) {
            Some(_) => Some(Construct::ComponentOutside),
            None => None,
        },
        None => None,
    }
}

fn component_after(
    object: Option<Construct>,
    tokens: &TextTokens,
    name: Option<&[u8]>,
) -> Option<Construct>
    ensures { result ≡ component_after object tokens.now (option_map (λ n. n.now) name.entry) }
{
    match object {
        Some(Construct::ProtectedValue) => named_component(tokens, name),
        _ => None,
    }
}

fn outside_at(number: usize, tokens: &TextTokens) -> Option<Construct>
    requires { number ≤ length tokens.now }
    ensures { result ≡ outside_at number tokens.now }
{
    let (front, _) = tokens.tokens().split_at(number);
    if is_dot(kind_from_end(0, front)) {
        let object = misused_name(tokens, name_of(kind_from_end(1, front)));
        component_after(object, tokens, name_of(kind_at(number, tokens.tokens())))
    } else {
        None
    }
}

/// What the name at the place of a fault is: of a fault 12 what is no value, and no call: a procedure, a type, a task, the package, a protected object; of a
/// fault 10 a component, where the name of a protected object and a dot are before it. None where there is no name, or another one, and of other faults.
pub fn misused_at(fault: u64, place: u32, tokens: &TextTokens) -> Option<Construct>
    ensures { result ≡ misused_at fault place tokens.now }
{
    let number = tokens.count_before(place);
    if fault == u64::from(NO_MEANING) {
        misused_here(number, tokens)
    } else if fault == u64::from(NAME_NOT_VISIBLE) {
        outside_at(number, tokens)
    } else {
        None
    }
}
