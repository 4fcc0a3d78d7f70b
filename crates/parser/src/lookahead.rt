//! Looking at the next token, and going past a word that may be left out.
ghost use Rattle.std.specs.Prelude.{◌≡◌};
ghost use Rattle.lexer.specs.declared.token.TokenKind.TheVariants as kinds;
ghost use Rattle.parser.specs.Reading.{Gives, first};
ghost use Rattle.parser.specs.MoreReading.{flag, is_identifier, next_word};

use crate::parser::Parser;
use crate::refusal::Refusal;
use lexer::{Token, TokenKind, Word};

impl<'a> Parser<'a> {
    /// Does an identifier come next?
    pub(crate) fn at_identifier(&self) -> bool
        ensures { result ≡ is_identifier (first self.now.rest.now) }
    {
        matches!(
            self.rest,
            [
                Token {
                    kind: TokenKind::Identifier(_),
                    ..
                },
                ..
            ]
        )
    }

    /// The word that comes next, if one does.
    pub(crate) fn next_word(&self) -> Option<Word>
        ensures { result ≡ next_word (first self.now.rest.now) }
    {
        match self.rest {
            [
                Token {
                    kind: TokenKind::Word(word),
                    ..
                },
                ..
            ] => Some(*word),
            _ => None,
        }
    }

    /// Goes past this word if it comes next, and says whether it did.
    pub(crate) fn passes(&mut self, word: Word) -> Result<bool, Refusal>
        ensures { Gives (λ there. there) result self.new.rest.now (flag (kinds.Word word) self.old.rest.now) }
    {
        if self.at_word(word) {
            self.word(word)?;
            return Ok(true);
        }
        Ok(false)
    }
}
