//! From a text to its tokens.
ghost use Rattle.std.specs.Prelude.{◌≡◌, ◌⊎◌, List, IfOk, IfErr};
ghost use Rattle.lexer.specs.declared.fault.Fault.{Fault};
ghost use Rattle.lexer.specs.declared.token.Token.{Token};
ghost use Rattle.lexer.specs.Reading.{fault_at};
ghost use Rattle.lexer.specs.Spelling.{Spells, IsBroken, IsRefusedForMemory, Gave, NamesAtLatest, SpelledOnce, SpellsInOrder};

use crate::element::read_element;
use crate::{Fault, Token};
use base::faults::TEXT_TOO_LONG;
use base::limits::TEXT_LIMIT;
use std::alloc::Global;

/// The fault of a rule that is broken at a place, where the text is no longer than it may be up to there.
fn fault_at(number: u8, place: usize) -> Fault
    ensures { result ≡ fault_at number place }
{
    if place < TEXT_LIMIT {
        Fault {
            number,
            place: place as u32,
        }
    } else {
        Fault {
            number: TEXT_TOO_LONG,
            place: TEXT_LIMIT as u32,
        }
    }
}

/// The tokens that spell a source text (RM 2; docs/LANGUAGE.md, "Spelling").
///
/// # Errors
///
/// A fault 1 to 5 where the text breaks that rule: the least such place, and the least number there. Fault 60 where memory is refused.
pub fn tokens(alloc: Global, text: &[u8]) -> Result<Vec<Token>, Fault>
    // What is given spells the text.
    ensures sound { IfOk result (λ v. Spells text.now v.items) }
    // What spells the text is given, unless memory is refused.
    ensures complete { (list : List Token) → Spells text.now list → Gave result list }
    // A text that breaks a rule is refused, and the least place is named.
    ensures least { (f : Fault) → IsBroken text.now f → NamesAtLatest result f }
    // The rule that a fault names is broken at its place, or memory was refused.
    ensures fault { IfErr result (λ f. IsBroken text.now f ⊎ IsRefusedForMemory text.now f) }
{
    let mut tokens = Vec::new(alloc);
    let mut at = 0;
    while at < text.len() {
        let element = match read_element(&text[at..]) {
            Ok(element) => element,
            Err(broken) => return Err(fault_at(broken.number, at + broken.offset)),
        };
        let end = at + element.length;
        if end > TEXT_LIMIT {
            return Err(fault_at(TEXT_TOO_LONG, TEXT_LIMIT));
        }
        if let Some(kind) = element.kind {
            tokens.push(Token {
                kind,
                start: at as u32,
                end_: end as u32,
            })?;
        }
        at = end;
    }
    Ok(tokens)
}

/// A text is spelled by one list of tokens at most.
pub fn spelled_once()
    ensures { SpelledOnce }
{}

/// The spans of the tokens that spell a text lie in it, one after another, and none is empty.
pub fn spelled_in_order()
    ensures { SpellsInOrder }
{}
