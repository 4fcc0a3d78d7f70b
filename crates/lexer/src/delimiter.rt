//! The delimiters.

/// A delimiter (RM 2.2).
#[derive(Clone, Copy, Debug, PartialEq, Eq)]
pub enum Delimiter {
    /// `(`
    LeftParenthesis,
    /// `)`
    RightParenthesis,
    /// `,`
    Comma,
    /// `;`
    Semicolon,
    /// `:`
    Colon,
    /// `.`
    Dot,
    /// `'`
    Apostrophe,
    /// `+`
    Plus,
    /// `-`
    Minus,
    /// `*`
    Asterisk,
    /// `/`
    Slash,
    /// `=`
    Equals,
    /// `<`
    LessThan,
    /// `>`
    GreaterThan,
    /// `|`
    VerticalLine,
    /// `=>`
    Arrow,
    /// `..`
    DoubleDot,
    /// `:=`
    Assignment,
    /// `/=`
    Inequality,
    /// `<=`
    LessOrEqual,
    /// `>=`
    GreaterOrEqual,
}
