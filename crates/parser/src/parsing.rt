//! Parsing whole token lists.
ghost use Rattle.std.specs.Prelude.{◌≡◌, IfOk, IfErr, []};
ghost use Rattle.ada_tree.specs.ProgramTree.{ProgramTree, program_tree};
ghost use Rattle.parser.specs.Reading.{Gives};
ghost use Rattle.parser.specs.ProgramReading.{whole_at};
ghost use Rattle.parser.specs.Parsing.{Derives, GaveTree, IsLongestBeginning, IsRefusal, HasOneTree, end_of, place_at, fault_of, answer_of, count_of};

use crate::parser::Parser;
use crate::refusal::{Broken, Refusal};
use ada_tree::Program;
use ada_tree::laws::limit_is_depth;
use base::faults::{TOO_MANY_LEVELS, UNEXPECTED_TOKEN};
use base::limits::LEVELS;
use lexer::{Fault, Token};
use std::alloc::{AllocError, Global};

/// The place where the last token ends.
fn end_of(tokens: &[Token]) -> u32
    ensures { result ≡ end_of tokens.now }
{
    match tokens {
        [.., last] => last.end_,
        [] => 0,
    }
}

/// The place where so many tokens are left.
fn place_at(tokens: &[Token], left: usize) -> u32
    ensures { result ≡ place_at tokens.now left }
{
    match tokens.get(tokens.len().saturating_sub(left)) {
        Some(token) => token.start,
        None => end_of(tokens),
    }
}

/// The fault where a rule is broken.
fn fault_of(tokens: &[Token], broken: Broken) -> Fault
    ensures { result ≡ fault_of tokens.now broken }
{
    Fault {
        number: if broken.deep {
            TOO_MANY_LEVELS
        } else {
            UNEXPECTED_TOKEN
        },
        place: place_at(tokens, broken.left),
    }
}

/// What was read, or the fault.
fn answer_of(tokens: &[Token], read: Result<Program, Refusal>) -> Result<Program, Fault>
    ensures { result ≡ answer_of tokens.now read }
{
    match read {
        Ok(program) => Ok(program),
        Err(Refusal::Memory) => Err(Fault::memory()),
        Err(Refusal::Broken(broken)) => Err(fault_of(tokens, broken)),
    }
}

/// How many tokens are before the fault, or all of them; None where memory was refused.
fn count_of(tokens: &[Token], read: Result<Program, Refusal>) -> Option<usize>
    ensures { result ≡ count_of tokens.now read }
{
    match read {
        Ok(_) => Some(tokens.len()),
        Err(Refusal::Memory) => None,
        Err(Refusal::Broken(broken)) => Some(tokens.len().saturating_sub(broken.left)),
    }
}

fn whole(alloc: Global, tokens: &[Token]) -> Result<Program, Refusal>
    ensures { Gives program_tree result [] (whole_at LEVELS tokens.now) }
{
    let mut parser = Parser {
        alloc,
        rest: tokens,
    };
    let program = parser.program(LEVELS)?;
    parser.end()?;
    Ok(program)
}

/// The tree of a program that the tokens spell, or the first fault (docs/LANGUAGE.md, "Grammar").
/// Number 6 is the fault of a token that no derivation allows, or of the end of the tokens, and number 7 that of a token that opens
/// a level where 40 are open; the place is the token's, or the end of the last token. Number 60 at place 0 says that memory was refused.
pub fn parse(alloc: Global, tokens: &[Token]) -> Result<Program, Fault>
    // The tree derives the tokens.
    ensures found { IfOk result (λ p. Derives (program_tree p) tokens.now) }
    // What derives the tokens is found, unless memory is refused.
    ensures only { (t : ProgramTree) → Derives t tokens.now → GaveTree result t }
    // A fault stands at the first token that no derivation allows, or at the end: those before it begin a list that some tree derives.
    // 7 stands at a token that may open a level, behind 40 such tokens or more. Or memory was refused.
    ensures fault { IfErr result (λ f. IsRefusal tokens.now f) }
{
    limit_is_depth();
    let read = whole(alloc, tokens);
    answer_of(tokens, read)
}

/// How many of the tokens, from the first on, begin a list that has a tree: all of them, or those before the first token that no
/// derivation allows.
///
/// # Errors
/// Where memory was refused.
pub fn longest_beginning(alloc: Global, tokens: &[Token]) -> Result<usize, AllocError>
    ensures { IfOk result (λ count. IsLongestBeginning tokens.now count) }
{
    limit_is_depth();
    let read = whole(alloc, tokens);
    match count_of(tokens, read) {
        Some(count) => Ok(count),
        None => Err(AllocError),
    }
}

/// The grammar has at most one tree for a list of tokens.
pub fn one_tree()
    ensures { HasOneTree }
{
    limit_is_depth();
}
