//! The reserved words by their names.
ghost use Rattle.std.specs.Prelude.{◌≡◌, bytes_eq, find};
ghost use Rattle.lexer.specs.Words.{spelling};
ghost use Rattle.ada2012_lexer.specs.Words.{word_of};

use lexer::Word;

// The reserved words (RM 2.9).
const WORDS: [Word; 73] = [
    Word::Abort,
    Word::Abs,
    Word::Abstract,
    Word::Accept,
    Word::Access,
    Word::Aliased,
    Word::All,
    Word::And,
    Word::Array,
    Word::At,
    Word::Begin,
    Word::Body,
    Word::Case,
    Word::Constant,
    Word::Declare,
    Word::Delay,
    Word::Delta,
    Word::Digits,
    Word::Do,
    Word::Else,
    Word::Elsif,
    Word::End,
    Word::Entry,
    Word::Exception,
    Word::Exit,
    Word::For,
    Word::Function,
    Word::Generic,
    Word::Goto,
    Word::If,
    Word::In,
    Word::Interface,
    Word::Is,
    Word::Limited,
    Word::Loop,
    Word::Mod,
    Word::New,
    Word::Not,
    Word::Null,
    Word::Of,
    Word::Or,
    Word::Others,
    Word::Out,
    Word::Overriding,
    Word::Package,
    Word::Pragma,
    Word::Private,
    Word::Procedure,
    Word::Protected,
    Word::Raise,
    Word::Range,
    Word::Record,
    Word::Rem,
    Word::Renames,
    Word::Requeue,
    Word::Return,
    Word::Reverse,
    Word::Select,
    Word::Separate,
    Word::Some,
    Word::Subtype,
    Word::Synchronized,
    Word::Tagged,
    Word::Task,
    Word::Terminate,
    Word::Then,
    Word::Type,
    Word::Until,
    Word::Use,
    Word::When,
    Word::While,
    Word::With,
    Word::Xor,
];

fn find_word(words: &[Word], name: &[u8]) -> Option<Word>
    ensures { result ≡ find (λ word. bytes_eq (spelling word) name.now) words.now }
{
    words.iter().copied().find(|word| word.spelling() == name)
}

/// The reserved word of these letters, which are in upper case.
#[tactic(auto, unfolding(crate::specs::Words::word_of))]
pub(crate) fn word_of(name: &[u8]) -> Option<Word>
    ensures { result ≡ word_of name.now }
{
    find_word(&WORDS, name)
}
