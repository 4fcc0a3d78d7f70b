//! Recognizing what a fault is about, by the tokens around its place.
ghost use Rattle.std.specs.Prelude.{◌≡◌, ◌≤◌, IfOk, length, option_map};
ghost use Rattle.std.specs.List.{list_any};
ghost use Rattle.remedies.specs.Recognition.{begins_unit, construct_at, construct_between, count_before, first_fitting, fits_tokens, grammar_between, is_end, is_missing, name_between, open_at, rule_between, unclosed_at, unclosed_between, wants_end, without_end};

use crate::construct::Construct;
use crate::grammar_rows::GRAMMAR_ROWS;
use crate::name_rows::NAME_ROWS;
use crate::opening::Opening;
use crate::openings::open_after;
use crate::row::{Region, Row, fits, fits_tokens, is_in, kind_at, kind_from_end};
use crate::rule_rows::RULE_ROWS;
use crate::text_tokens::TextTokens;
use base::faults::{NAME_NOT_VISIBLE, UNEXPECTED_TOKEN};
use lexer::{Token, TokenKind, Word};
use std::alloc::{AllocError, Global};

fn first_fitting(
    rows: &[Row],
    fault: u64,
    front: &[Token],
    back: &[Token],
    opening: Option<Opening>,
) -> Option<Construct>
    ensures { result ≡ first_fitting rows.now fault front.now back.now opening }
{
    for row in rows {
        if fits(row, fault, front, back, opening) {
            return Some(row.construct);
        }
    }
    None
}

// Whether a row fits the tokens next to the fault.
fn some_fits_tokens(rows: &[Row], fault: u64, front: &[Token], back: &[Token]) -> bool
    ensures { result ≡ list_any (λ r. fits_tokens r fault front.now back.now) rows.now }
{
    for row in rows {
        if fits_tokens(row, fault, front, back) {
            return true;
        }
    }
    false
}

/// How many of the tokens begin before the place.
pub fn count_before(place: u32, tokens: &[Token]) -> usize
    ensures count { result ≡ count_before place tokens.now }
    ensures most { result ≤ length tokens.now }
{
    for (number, token) in tokens.iter().enumerate() {
        if token.start >= place {
            return number;
        }
    }
    tokens.len()
}

fn is_end(kind: Option<&TokenKind>) -> bool
    ensures { result ≡ is_end (option_map (λ k. k.now) kind.entry) }
{
    matches!(kind, Some(TokenKind::Word(Word::End)))
}

fn without_end(tokens: &[Token]) -> &[Token]
    ensures { result.now ≡ without_end tokens.now }
{
    if is_end(kind_from_end(0, tokens)) {
        &tokens[..tokens.len().saturating_sub(1)]
    } else {
        tokens
    }
}

fn open_at(alloc: Global, front: &[Token]) -> Result<Option<Opening>, AllocError>
    ensures { IfOk result (λ opening. opening ≡ open_at front.now) }
{
    open_after(alloc, without_end(front))
}

// The construct of the first row that fits. What is open is looked for where some row fits the tokens next to the fault.
fn first_fitting_at(
    alloc: Global,
    rows: &[Row],
    fault: u64,
    front: &[Token],
    back: &[Token],
) -> Result<Option<Construct>, AllocError>
    ensures { IfOk result (λ construct. construct ≡ first_fitting rows.now fault front.now back.now (open_at front.now)) }
{
    if some_fits_tokens(rows, fault, front, back) {
        let opening = open_at(alloc, front)?;
        Ok(first_fitting(rows, fault, front, back, opening))
    } else {
        Ok(None)
    }
}

#[tactic(auto, unfolding(crate::specs::Recognition::grammar_between))]
fn grammar_between(
    alloc: Global,
    fault: u64,
    front: &[Token],
    back: &[Token],
) -> Result<Option<Construct>, AllocError>
    ensures { IfOk result (λ construct. construct ≡ grammar_between fault front.now back.now) }
{
    first_fitting_at(alloc, &GRAMMAR_ROWS, fault, front, back)
}

#[tactic(auto, unfolding(crate::specs::Recognition::name_between))]
fn name_between(
    alloc: Global,
    fault: u64,
    front: &[Token],
    back: &[Token],
) -> Result<Option<Construct>, AllocError>
    ensures { IfOk result (λ construct. construct ≡ name_between fault front.now back.now) }
{
    first_fitting_at(alloc, &NAME_ROWS, fault, front, back)
}

#[tactic(auto, unfolding(crate::specs::Recognition::rule_between))]
fn rule_between(
    alloc: Global,
    fault: u64,
    front: &[Token],
    back: &[Token],
) -> Result<Option<Construct>, AllocError>
    ensures { IfOk result (λ construct. construct ≡ rule_between fault front.now back.now) }
{
    first_fitting_at(alloc, &RULE_ROWS, fault, front, back)
}

fn construct_between(
    alloc: Global,
    fault: u64,
    front: &[Token],
    back: &[Token],
) -> Result<Option<Construct>, AllocError>
    ensures { IfOk result (λ construct. construct ≡ construct_between fault front.now back.now) }
{
    if fault == u64::from(UNEXPECTED_TOKEN) {
        grammar_between(alloc, fault, front, back)
    } else if fault == u64::from(NAME_NOT_VISIBLE) {
        name_between(alloc, fault, front, back)
    } else {
        rule_between(alloc, fault, front, back)
    }
}

/// The construct at the place of a fault of this number, in a text of these tokens; None where none is recognized.
///
/// # Errors
/// Where memory was refused.
pub fn construct_at(
    alloc: Global,
    fault: u64,
    place: u32,
    tokens: &TextTokens,
) -> Result<Option<Construct>, AllocError>
    ensures { IfOk result (λ construct. construct ≡ construct_at fault place tokens.now) }
{
    let (front, back) = tokens.tokens().split_at(tokens.count_before(place));
    construct_between(alloc, fault, front, back)
}

fn begins_unit(kind: Option<&TokenKind>) -> bool
    ensures { result ≡ begins_unit (option_map (λ k. k.now) kind.entry) }
{
    matches!(
        kind,
        Some(TokenKind::Word(
            Word::Procedure
                | Word::Function
                | Word::Task
                | Word::Protected
                | Word::Package
                | Word::With
        ))
    )
}

fn is_missing(kind: Option<&TokenKind>) -> bool
    ensures { result ≡ is_missing (option_map (λ k. k.now) kind.entry) }
{
    kind.is_none()
}

fn wants_end(front: &[Token], back: &[Token], opening: Option<Opening>) -> bool
    ensures { result ≡ wants_end front.now back.now opening }
{
    is_end(kind_from_end(0, front))
        || is_missing(kind_at(0, back))
        || (is_in(Region::AmongStatements, opening) && begins_unit(kind_at(0, back)))
}

fn unclosed_between(
    alloc: Global,
    front: &[Token],
    back: &[Token],
) -> Result<Option<Opening>, AllocError>
    ensures { IfOk result (λ opening. opening ≡ unclosed_between front.now back.now) }
{
    let opening = open_at(alloc, front)?;
    Ok(if wants_end(front, back, opening) {
        opening
    } else {
        None
    })
}

/// What is open at the place, in a text of these tokens, where an `end` of it is wrong or missing there: an `end` is the token before the place, the text
/// ends there, or what is there can't be among statements. None where nothing is open, or none of this is so.
///
/// # Errors
/// Where memory was refused.
pub fn unclosed_at(
    alloc: Global,
    place: u32,
    tokens: &[Token],
) -> Result<Option<Opening>, AllocError>
    ensures { IfOk result (λ opening. opening ≡ unclosed_at place tokens.now) }
{
    let (front, back) = tokens.split_at(count_before(place, tokens));
    unclosed_between(alloc, front, back)
}
