//! The tokens of a text, in which what faults ask is looked up without going through all of them.
ghost use Rattle.std.specs.Prelude.{◌≡◌, ◌≤◌, ◌-◌, ◌++◌, IfOk, OnOk, length, option_map, slice_get};
ghost use Rattle.std.specs.List.{find};
ghost use Rattle.remedies.specs.Likeness.{declares_near, first_where, introduces_same};
ghost use Rattle.remedies.specs.Misuse.{declares_same};
ghost use Rattle.remedies.specs.Recognition.{count_before};
ghost use Rattle.remedies.specs.TextTokens.{BeginFrom, all_declared_by, if_begins_at, is_declared_by, is_name_from, is_near_name, number_if, token_at};
ghost use Rattle.remedies.specs.declared.text_tokens.DeclaredBy.TheVariants as ways;

use crate::likeness::{introduces, is_colon, is_near, is_same, kind_before, name_of};
use crate::row::kind_at;
use lexer::Token;
use std::alloc::{AllocError, Global};
use std::marker::Model;

/// What declares a name, of that which stands beside it.
#[derive(Clone, Copy)]
enum DeclaredBy {
    /// A word in front of it, as `procedure` or `task`.
    Word,
    /// A colon behind it.
    Colon,
    /// A word or a colon.
    Either,
}

/// The tokens of a text, and which of them are declared by a word, by a colon, and by either: each given by how many are before it. Contracts see the tokens.
#[derive(Drop)]
pub struct TextTokens {
    tokens: Vec<Token>,
    by_word: Vec<usize>,
    by_colon: Vec<usize>,
    by_either: Vec<usize>,
}

impl Model for TextTokens {
    ghost use Rattle.std.specs.Prelude.{List};
    ghost use Rattle.std.specs.Coded.{codes};
    ghost use Rattle.lexer.specs.declared.token.Token as declared;
    ghost use Rattle.lexer.specs.contracts.token.Token as contract;
    ghost use Rattle.remedies.specs.TextTokens.{AreTablesOf};

    ghost Value = { List declared.Token };

    ghost coded = { Prim.hlevel (codes, contract.the_row.coded) };

    ghost view = { λ t. t.tokens.items };

    ghost invariant = { λ t. AreTablesOf t.tokens.items t.by_word.items t.by_colon.items t.by_either.items };
}

// The token with so many before it, where it begins at the place.
fn if_begins_at(place: u32, number: usize, tokens: &[Token]) -> Option<&Token>
    ensures { option_map (λ t. t.now) result ≡ if_begins_at place (slice_get tokens.now number) }
{
    match tokens.get(number) {
        Some(token) => {
            if token.start == place {
                Some(token)
            } else {
                None
            }
        }
        None => None,
    }
}

// How many of the tokens, which begin one after another, begin before the place.
fn starting_before(place: u32, tokens: &[Token]) -> usize
    requires { BeginFrom 0 tokens.now }
    ensures count { result ≡ count_before place tokens.now }
    ensures most { result ≤ length tokens.now }
{
    tokens.partition_point(|token| token.start < place)
}

// Adds a number to those that are kept, if it is one of them.
fn keep_where(numbers: &mut Vec<usize>, is_kept: bool, number: usize) -> Result<(), AllocError>
    ensures { OnOk result (numbers.new.items ≡ numbers.old.items ++ number_if is_kept number) }
{
    if is_kept {
        numbers.push(number)?;
    }
    Ok(())
}

// Whether the token with so many before it is declared in this way.
fn is_declared_by(way: DeclaredBy, tokens: &[Token], number: usize) -> bool
    requires { number ≤ length tokens.now }
    ensures { result ≡ is_declared_by way tokens.now number }
{
    let by_word = introduces(kind_before(number, tokens));
    let by_colon = is_colon(kind_at(number + 1, tokens));
    match way {
        DeclaredBy::Word => by_word,
        DeclaredBy::Colon => by_colon,
        DeclaredBy::Either => by_word || by_colon,
    }
}

// The tokens that are declared in this way, each by how many are before it.
fn all_declared_by(
    alloc: Global,
    way: DeclaredBy,
    tokens: &[Token],
) -> Result<Vec<usize>, AllocError>
    ensures { IfOk result (λ numbers. numbers.items ≡ all_declared_by way tokens.now) }
{
    let mut numbers = Vec::new(alloc);
    let mut number = 0;
    while number < tokens.len() {
        keep_where(&mut numbers, is_declared_by(way, tokens, number), number)?;
        number += 1;
    }
    Ok(numbers)
}

// The first of these tokens that is the name, from the one with so many before it on.
fn first_same_in(numbers: &[usize], name: &[u8], tokens: &[Token], from: usize) -> Option<usize>
    ensures { result ≡ find (is_name_from name.now tokens.now from) numbers.now }
{
    for number in numbers {
        if from <= *number && is_same(name, name_of(kind_at(*number, tokens))) {
            return Some(*number);
        }
    }
    None
}

// The first of these tokens that is a name like this one.
fn first_near_in(numbers: &[usize], name: &[u8], tokens: &[Token]) -> Option<usize>
    ensures { result ≡ find (is_near_name name.now tokens.now) numbers.now }
{
    for number in numbers {
        if is_near(name, name_of(kind_at(*number, tokens))) {
            return Some(*number);
        }
    }
    None
}

impl TextTokens {
    /// Finds which of these tokens, which begin one after another, are declared.
    ///
    /// # Errors
    /// Where memory was refused.
    pub fn new(alloc: Global, tokens: Vec<Token>) -> Result<TextTokens, AllocError>
        requires { BeginFrom 0 tokens.items }
        ensures { IfOk result (λ t. t ≡ tokens.items) }
    {
        let by_word = all_declared_by(alloc, DeclaredBy::Word, &tokens)?;
        let by_colon = all_declared_by(alloc, DeclaredBy::Colon, &tokens)?;
        let by_either = all_declared_by(alloc, DeclaredBy::Either, &tokens)?;
        Ok(TextTokens {
            tokens,
            by_word,
            by_colon,
            by_either,
        })
    }

    /// The tokens.
    pub fn tokens(&self) -> &[Token]
        ensures same { result.now ≡ self.now }
        ensures in_order { BeginFrom 0 result.now }
    {
        &self.tokens
    }

    fn by_word(&self) -> &[usize]
        ensures { result.now ≡ all_declared_by ways.Word self.now }
    {
        &self.by_word
    }

    fn by_colon(&self) -> &[usize]
        ensures { result.now ≡ all_declared_by ways.Colon self.now }
    {
        &self.by_colon
    }

    fn by_either(&self) -> &[usize]
        ensures { result.now ≡ all_declared_by ways.Either self.now }
    {
        &self.by_either
    }

    /// How many of the tokens begin before the place.
    pub fn count_before(&self, place: u32) -> usize
        ensures count { result ≡ count_before place self.now }
        ensures most { result ≤ length self.now }
    {
        starting_before(place, self.tokens())
    }

    /// The token that begins at the place, if one does.
    pub fn at(&self, place: u32) -> Option<&Token>
        ensures { option_map (λ t. t.now) result ≡ token_at place self.now }
    {
        if_begins_at(place, self.count_before(place), self.tokens())
    }

    /// The first token from the one with so many before it on that is the name, and introduced by a word as `procedure` or `task`: where it is declared, or
    /// has its body; None where there is none.
    pub fn first_same(&self, name: &[u8], from: usize) -> Option<usize>
        ensures { result ≡ first_where (introduces_same name.now self.now) from (length self.now - from) }
    {
        first_same_in(self.by_word(), name, self.tokens(), from)
    }

    /// The first token that is the name, and that a colon follows.
    pub(crate) fn first_declared(&self, name: &[u8]) -> Option<usize>
        ensures { result ≡ first_where (declares_same name.now self.now) 0 (length self.now) }
    {
        first_same_in(self.by_colon(), name, self.tokens(), 0)
    }

    /// The first token that declares a name like this one.
    pub(crate) fn first_near(&self, name: &[u8]) -> Option<usize>
        ensures { result ≡ first_where (declares_near name.now self.now) 0 (length self.now) }
    {
        first_near_in(self.by_either(), name, self.tokens())
    }
}
