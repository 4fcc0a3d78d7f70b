//! The delimiters.
ghost use Rattle.std.specs.Prelude.{◌≡◌, ◌≤◌, IfSome, bytes_eq, find, length};
ghost use Rattle.ada2012_lexer.specs.Delimiters.{compound_at, delimiter_text, simple_at};

/// A delimiter (RM 2.2): the ten compound ones, then the sixteen simple ones.
#[derive(Clone, Copy, PartialEq, Eq)]
pub enum Delimiter {
    /// `=>`
    Arrow,
    /// `..`
    DoubleDot,
    /// `**`
    DoubleStar,
    /// `:=`
    Assignment,
    /// `/=`
    Inequality,
    /// `>=`
    GreaterOrEqual,
    /// `<=`
    LessOrEqual,
    /// `<<`
    LeftLabelBracket,
    /// `>>`
    RightLabelBracket,
    /// `<>`
    Box,
    /// `&`
    Ampersand,
    /// `'`
    Apostrophe,
    /// `(`
    LeftParenthesis,
    /// `)`
    RightParenthesis,
    /// `*`
    Asterisk,
    /// `+`
    Plus,
    /// `,`
    Comma,
    /// `-`
    Minus,
    /// `.`
    Dot,
    /// `/`
    Slash,
    /// `:`
    Colon,
    /// `;`
    Semicolon,
    /// `<`
    LessThan,
    /// `=`
    Equals,
    /// `>`
    GreaterThan,
    /// `|`
    VerticalLine,
}

// Their characters, in the order of the variants.
const TEXTS: [&str; 26] = [
    "=>", "..", "**", ":=", "/=", ">=", "<=", "<<", ">>", "<>", "&", "'", "(", ")", "*", "+", ",",
    "-", ".", "/", ":", ";", "<", "=", ">", "|",
];

const COMPOUND: [Delimiter; 10] = [
    Delimiter::Arrow,
    Delimiter::DoubleDot,
    Delimiter::DoubleStar,
    Delimiter::Assignment,
    Delimiter::Inequality,
    Delimiter::GreaterOrEqual,
    Delimiter::LessOrEqual,
    Delimiter::LeftLabelBracket,
    Delimiter::RightLabelBracket,
    Delimiter::Box,
];

const SIMPLE: [Delimiter; 16] = [
    Delimiter::Ampersand,
    Delimiter::Apostrophe,
    Delimiter::LeftParenthesis,
    Delimiter::RightParenthesis,
    Delimiter::Asterisk,
    Delimiter::Plus,
    Delimiter::Comma,
    Delimiter::Minus,
    Delimiter::Dot,
    Delimiter::Slash,
    Delimiter::Colon,
    Delimiter::Semicolon,
    Delimiter::LessThan,
    Delimiter::Equals,
    Delimiter::GreaterThan,
    Delimiter::VerticalLine,
];

impl Delimiter {
    /// Its one or two characters.
    pub fn text(self) -> &'static [u8]
        ensures { result.now ≡ delimiter_text self }
    {
        TEXTS[self as usize].as_bytes()
    }
}

fn find_delimiter(delimiters: &[Delimiter], text: &[u8]) -> Option<Delimiter>
    ensures { result ≡ find (λ delimiter. bytes_eq (delimiter_text delimiter) text.now) delimiters.now }
{
    delimiters
        .iter()
        .copied()
        .find(|delimiter| delimiter.text() == text)
}

/// The compound delimiter at the front of a text.
pub(crate) fn compound_at(text: &[u8]) -> Option<Delimiter>
    ensures value { result ≡ compound_at text.now }
    ensures in_text { IfSome result (λ _. 2 ≤ length text.now) }
{
    match text {
        [_, _, ..] => find_delimiter(&COMPOUND, &text[..2]),
        _ => None,
    }
}

/// The simple delimiter at the front of a text.
pub(crate) fn simple_at(text: &[u8]) -> Option<Delimiter>
    ensures value { result ≡ simple_at text.now }
    ensures in_text { IfSome result (λ _. 1 ≤ length text.now) }
{
    match text {
        [_, ..] => find_delimiter(&SIMPLE, &text[..1]),
        [] => None,
    }
}
