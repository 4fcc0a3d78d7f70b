//! Names and labels in upper case (RM 2.3, 2.9).
ghost use Rattle.std.specs.Prelude.{◌≡◌, bytes_eq};
ghost use Rattle.std.specs.List.{list_all, list_any};
ghost use Rattle.base.specs.Names.{is_digit, is_identifier, is_label, is_label_character, is_letter, is_name, is_rest, is_reserved};

use crate::limits::{LABEL_LIMIT, NAME_LIMIT};

/// The reserved words, in upper case and in order (RM 2.9).
pub const RESERVED_WORDS: [&str; 73] = [
    "ABORT",
    "ABS",
    "ABSTRACT",
    "ACCEPT",
    "ACCESS",
    "ALIASED",
    "ALL",
    "AND",
    "ARRAY",
    "AT",
    "BEGIN",
    "BODY",
    "CASE",
    "CONSTANT",
    "DECLARE",
    "DELAY",
    "DELTA",
    "DIGITS",
    "DO",
    "ELSE",
    "ELSIF",
    "END",
    "ENTRY",
    "EXCEPTION",
    "EXIT",
    "FOR",
    "FUNCTION",
    "GENERIC",
    "GOTO",
    "IF",
    "IN",
    "INTERFACE",
    "IS",
    "LIMITED",
    "LOOP",
    "MOD",
    "NEW",
    "NOT",
    "NULL",
    "OF",
    "OR",
    "OTHERS",
    "OUT",
    "OVERRIDING",
    "PACKAGE",
    "PRAGMA",
    "PRIVATE",
    "PROCEDURE",
    "PROTECTED",
    "RAISE",
    "RANGE",
    "RECORD",
    "REM",
    "RENAMES",
    "REQUEUE",
    "RETURN",
    "REVERSE",
    "SELECT",
    "SEPARATE",
    "SOME",
    "SUBTYPE",
    "SYNCHRONIZED",
    "TAGGED",
    "TASK",
    "TERMINATE",
    "THEN",
    "TYPE",
    "UNTIL",
    "USE",
    "WHEN",
    "WHILE",
    "WITH",
    "XOR",
];

/// Whether it is a name: an identifier in upper case of at most 40 characters that is no reserved word.
pub fn is_name(name: &[u8]) -> bool
    ensures { result ≡ is_name name.now }
{
    is_identifier(name) && name.len() <= NAME_LIMIT && !is_reserved(name)
}

/// Whether it is a label: 1 to 40 characters from 33 to 126, no quotation mark among them.
pub fn is_label(label: &[u8]) -> bool
    ensures { result ≡ is_label label.now }
{
    1 <= label.len() && label.len() <= LABEL_LIMIT && has_label_characters(label)
}

/// Whether a label may hold each of these bytes: characters from 33 to 126 but the quotation mark.
pub fn has_label_characters(label: &[u8]) -> bool
    ensures { result ≡ list_all is_label_character label.now }
{
    label.iter().all(|c| is_label_character(*c))
}

fn is_identifier(name: &[u8]) -> bool
    ensures { result ≡ is_identifier name.now }
{
    match name {
        [] => false,
        [first, rest @ ..] => is_letter(*first) && is_rest(rest),
    }
}

// Whether these may follow the first letter: letters, digits, and underlines that a letter or digit follows.
fn is_rest(rest: &[u8]) -> bool
    ensures { result ≡ is_rest rest.now }
{
    match rest {
        [] => true,
        [last] => is_letter(*last) || is_digit(*last),
        [c, tail @ ..] => {
            (is_letter(*c) || is_digit(*c) || *c == b'_' && tail[0] != b'_') && is_rest(tail)
        }
    }
}

fn is_reserved(name: &[u8]) -> bool
    ensures { result ≡ is_reserved name.now }
{
    is_among(&RESERVED_WORDS, name)
}

fn is_among(words: &[&str], name: &[u8]) -> bool
    ensures { result ≡ list_any (λ word. bytes_eq word.now name.now) words.now }
{
    words.iter().any(|word| word.as_bytes() == name)
}

fn is_letter(c: u8) -> bool
    ensures { result ≡ is_letter c }
{
    c.is_ascii_uppercase()
}

fn is_digit(c: u8) -> bool
    ensures { result ≡ is_digit c }
{
    c.is_ascii_digit()
}

fn is_label_character(c: u8) -> bool
    ensures { result ≡ is_label_character c }
{
    (33..=126).contains(&c) && c != b'"'
}
