//! The texts that identifiers and string literals spell.
ghost use Rattle.std.specs.Prelude.{◌≡◌, ◌≤◌, length};
ghost use Rattle.base.specs.declared.limits.TheConstants.{LABEL_LIMIT, NAME_LIMIT};
ghost use Rattle.lexer.specs.Elements.{upper_case};

use arrayvec::ArrayVec;
use base::Text;

/// The name that an identifier or a reserved word spells (RM 2.3): its characters, with the letters in upper case. Identifiers that
/// differ only in case have the same name.
pub(crate) fn name_of(element: &[u8]) -> Text
    requires { length element.now ≤ NAME_LIMIT }
    ensures { result ≡ upper_case element.now }
{
    let mut bytes = ArrayVec::new();
    for character in element {
        bytes.push(character.to_ascii_uppercase());
    }
    Text::of(bytes)
}

/// The label that a string literal spells (RM 2.6): the characters between its quotation marks.
pub(crate) fn label_of(element: &[u8]) -> Text
    requires { length element.now ≤ LABEL_LIMIT }
    ensures { result ≡ element.now }
{
    let mut bytes = ArrayVec::new();
    for character in element {
        bytes.push(*character);
    }
    Text::of(bytes)
}
