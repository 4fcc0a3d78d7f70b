//! A text with its tokens and its tree, as far as it has them: read once for all that is said of the text.
ghost use Rattle.std.specs.Prelude.{◌≡◌, IfOk, option_map};
ghost use Rattle.lexer.specs.Spelling.{Spells};
ghost use Rattle.diagnostics.specs.hints.ParsedTexts.{AreTokensOf, IsReadingOf};

use ada_tree::Program;
use base::faults::MEMORY_REFUSED;
use lexer::{Fault, Token, spelled_in_order, tokens};
use mismatches::Remarks;
use parser::parse;
use remedies::TextTokens;
use std::alloc::{AllocError, Global};
use std::marker::Model;

/// What a text is read as.
#[derive(Drop)]
pub(crate) enum Reading {
    /// It breaks a rule of spelling (RM 2).
    Misspelled,
    /// Its tokens, which no tree derives, and the fault of these.
    Treeless {
        tokens: TextTokens,
        fault: Fault,
    },
    /// Its tokens, the tree that derives them, and what is said of conflicts in it.
    Derived {
        tokens: TextTokens,
        program: Program,
        remarks: Remarks,
    },
}

/// A text that was read: its tokens and its tree, or why it has none. Contracts see the bytes of the text.
#[derive(Drop)]
pub struct ParsedText<'a> {
    text: &'a [u8],
    reading: Reading,
}

impl<'a> Model for ParsedText<'a> {
    ghost use Rattle.std.specs.Prelude.{ℕ, List};
    ghost use Rattle.diagnostics.specs.hints.ParsedTexts.{IsReadingOf};

    ghost Value = { List ℕ };

    ghost view = { λ p. p.text.now };

    ghost invariant = { λ p. IsReadingOf p.text.now p.reading };
}

fn text_tokens(alloc: Global, text: &[u8], tokens: Vec<Token>) -> Result<TextTokens, AllocError>
    requires { Spells text.now tokens.items }
    ensures { IfOk result (λ list. Spells text.now list) }
{
    spelled_in_order();
    TextTokens::new(alloc, tokens)
}

fn reading_of_tokens(alloc: Global, text: &[u8], tokens: TextTokens) -> Result<Reading, AllocError>
    requires { Spells text.now tokens }
    ensures { IfOk result (λ reading. IsReadingOf text.now reading) }
{
    match parse(alloc, tokens.tokens()) {
        Ok(program) => {
            let remarks = Remarks::of(alloc, &program)?;
            Ok(Reading::Derived {
                tokens,
                program,
                remarks,
            })
        }
        Err(fault) => {
            if fault.number == MEMORY_REFUSED {
                Err(AllocError)
            } else {
                Ok(Reading::Treeless { tokens, fault })
            }
        }
    }
}

fn reading_of(alloc: Global, text: &[u8]) -> Result<Reading, AllocError>
    ensures { IfOk result (λ reading. IsReadingOf text.now reading) }
{
    match tokens(alloc, text) {
        Ok(list) => {
            let list = text_tokens(alloc, text, list)?;
            reading_of_tokens(alloc, text, list)
        }
        Err(fault) => {
            if fault.number == MEMORY_REFUSED {
                Err(AllocError)
            } else {
                Ok(Reading::Misspelled)
            }
        }
    }
}

impl<'a> ParsedText<'a> {
    /// Reads the text: its tokens (RM 2), and the tree that the grammar derives them from (docs/LANGUAGE.md, "Grammar").
    ///
    /// # Errors
    /// Where memory was refused.
    pub fn read(alloc: Global, text: &'a [u8]) -> Result<ParsedText<'a>, AllocError>
        ensures { IfOk result (λ parsed. parsed ≡ text.now) }
    {
        let reading = reading_of(alloc, text)?;
        Ok(ParsedText { text, reading })
    }

    /// The bytes of the text.
    pub fn text(&self) -> &'a [u8]
        ensures { result.now ≡ self.now }
    {
        self.text
    }

    /// What the text is read as.
    pub(crate) fn reading(&self) -> &Reading
        ensures { IsReadingOf self.now result.now }
    {
        &self.reading
    }

    /// The tokens of the text; None where it breaks a rule of spelling.
    pub(crate) fn tokens(&self) -> Option<&TextTokens>
        ensures { AreTokensOf self.now (option_map (λ list. list.now) result) }
    {
        match self.reading() {
            Reading::Misspelled => None,
            Reading::Treeless { tokens, .. } | Reading::Derived { tokens, .. } => Some(tokens),
        }
    }
}
