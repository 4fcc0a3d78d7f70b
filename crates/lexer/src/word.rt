//! The reserved words.
ghost use Rattle.std.specs.Prelude.{◌≡◌, find, bytes_eq};
ghost use Rattle.lexer.specs.Words.{spelling};
ghost use Rattle.lexer.specs.Reading.{words_with, reserved};

use base::names::RESERVED_WORDS;

/// A reserved word (RM 2.9). Each variant is named by its word.
#[derive(Clone, Copy, Debug, PartialEq, Eq)]
pub enum Word {
    Abort,
    Abs,
    Abstract,
    Accept,
    Access,
    Aliased,
    All,
    And,
    Array,
    At,
    Begin,
    Body,
    Case,
    Constant,
    Declare,
    Delay,
    Delta,
    Digits,
    Do,
    Else,
    Elsif,
    End,
    Entry,
    Exception,
    Exit,
    For,
    Function,
    Generic,
    Goto,
    If,
    In,
    Interface,
    Is,
    Limited,
    Loop,
    Mod,
    New,
    Not,
    Null,
    Of,
    Or,
    Others,
    Out,
    Overriding,
    Package,
    Pragma,
    Private,
    Procedure,
    Protected,
    Raise,
    Range,
    Record,
    Rem,
    Renames,
    Requeue,
    Return,
    Reverse,
    Select,
    Separate,
    Some,
    Subtype,
    Synchronized,
    Tagged,
    Task,
    Terminate,
    Then,
    Type,
    Until,
    Use,
    When,
    While,
    With,
    Xor,
}

impl Word {
    /// The letters of the word, in upper case.
    pub fn spelling(self) -> &'static [u8]
        ensures { result.now ≡ spelling self }
    {
        RESERVED_WORDS[self as usize].as_bytes()
    }
}

// The words of the letters that begin five or more.
const WITH_A: [Word; 10] = [
    Word::Abort,
    Word::Abs,
    Word::Abstract,
    Word::Accept,
    Word::Access,
    Word::Aliased,
    Word::All,
    Word::And,
    Word::Array,
    Word::At,
];

const WITH_D: [Word; 5] = [
    Word::Declare,
    Word::Delay,
    Word::Delta,
    Word::Digits,
    Word::Do,
];

const WITH_E: [Word; 6] = [
    Word::Else,
    Word::Elsif,
    Word::End,
    Word::Entry,
    Word::Exception,
    Word::Exit,
];

const WITH_O: [Word; 5] = [
    Word::Of,
    Word::Or,
    Word::Others,
    Word::Out,
    Word::Overriding,
];

const WITH_P: [Word; 5] = [
    Word::Package,
    Word::Pragma,
    Word::Private,
    Word::Procedure,
    Word::Protected,
];

const WITH_R: [Word; 8] = [
    Word::Raise,
    Word::Range,
    Word::Record,
    Word::Rem,
    Word::Renames,
    Word::Requeue,
    Word::Return,
    Word::Reverse,
];

const WITH_S: [Word; 5] = [
    Word::Select,
    Word::Separate,
    Word::Some,
    Word::Subtype,
    Word::Synchronized,
];

const WITH_T: [Word; 5] = [
    Word::Tagged,
    Word::Task,
    Word::Terminate,
    Word::Then,
    Word::Type,
];

/// The reserved words that begin with this letter.
fn words_with(letter: u8) -> &'static [Word]
    ensures { result.now ≡ words_with letter }
{
    match letter {
        b'A' => &WITH_A,
        b'B' => &[Word::Begin, Word::Body],
        b'C' => &[Word::Case, Word::Constant],
        b'D' => &WITH_D,
        b'E' => &WITH_E,
        b'F' => &[Word::For, Word::Function],
        b'G' => &[Word::Generic, Word::Goto],
        b'I' => &[Word::If, Word::In, Word::Interface, Word::Is],
        b'L' => &[Word::Limited, Word::Loop],
        b'M' => &[Word::Mod],
        b'N' => &[Word::New, Word::Not, Word::Null],
        b'O' => &WITH_O,
        b'P' => &WITH_P,
        b'R' => &WITH_R,
        b'S' => &WITH_S,
        b'T' => &WITH_T,
        b'U' => &[Word::Until, Word::Use],
        b'W' => &[Word::When, Word::While, Word::With],
        b'X' => &[Word::Xor],
        _ => &[],
    }
}

/// The first of the words that is spelled so.
fn find_word(words: &[Word], name: &[u8]) -> Option<Word>
    ensures { result ≡ find (λ word. bytes_eq (spelling word) name.now) words.now }
{
    words.iter().copied().find(|word| word.spelling() == name)
}

/// The reserved word of these letters, which are in upper case.
#[tactic(auto, unfolding(crate::specs::Reading::reserved))]
pub fn reserved_word(name: &[u8]) -> Option<Word>
    ensures { result ≡ reserved name.now }
{
    match name {
        [letter, ..] => find_word(words_with(*letter), name),
        [] => None,
    }
}
