//! Reading expressions.
ghost use Rattle.std.specs.Prelude.{◌≡◌, map, false, Ok, if◌then◌else◌};
ghost use Rattle.ada_tree.specs.ExpressionTree.{Unary, Binary, expr_tree, name_tree, selector_tree, argument_tree, elsif_value_tree};
ghost use Rattle.lexer.specs.declared.word.Word.TheVariants as words;
ghost use Rattle.lexer.specs.declared.delimiter.Delimiter.TheVariants as marks;
ghost use Rattle.parser.specs.Reading.{Gives, first, is_next, opened, seq, mapped, nothing, refuse, closed, skip_mark};
ghost use Rattle.parser.specs.ExpressionReading as reading;

use crate::parser::Parser;
use crate::refusal::Refusal;
use ada_tree::{Argument, BinaryOperator, ElsifValue, Expr, NameExpr, Selector, UnaryOperator};
use lexer::{Delimiter, Token, TokenKind, Word};

/// The first word of a logical operator.
fn first_word(operator: BinaryOperator) -> Word
    ensures { result ≡ reading.first_word operator }
{
    match operator {
        BinaryOperator::And | BinaryOperator::AndThen => Word::And,
        BinaryOperator::Or | BinaryOperator::OrElse => Word::Or,
        _ => Word::Xor,
    }
}

/// The second word of a logical operator, if it has two.
fn second_word(operator: BinaryOperator) -> Option<Word>
    ensures { result ≡ reading.second_word operator }
{
    match operator {
        BinaryOperator::AndThen => Some(Word::Then),
        BinaryOperator::OrElse => Some(Word::Else),
        _ => None,
    }
}

// What the next token is.
impl<'a> Parser<'a> {
    /// An operator of a term.
    fn multiplying(&self) -> Option<BinaryOperator>
        ensures { result ≡ reading.next_of reading.multiplying (first self.now.rest.now) }
    {
        let [token, ..] = self.rest else {
            return None;
        };
        match token.kind {
            TokenKind::Delimiter(Delimiter::Asterisk) => Some(BinaryOperator::Multiply),
            TokenKind::Delimiter(Delimiter::Slash) => Some(BinaryOperator::Divide),
            TokenKind::Word(Word::Mod) => Some(BinaryOperator::Mod),
            TokenKind::Word(Word::Rem) => Some(BinaryOperator::Rem),
            _ => None,
        }
    }

    /// An operator between terms.
    fn adding(&self) -> Option<BinaryOperator>
        ensures { result ≡ reading.next_of reading.adding (first self.now.rest.now) }
    {
        let [token, ..] = self.rest else {
            return None;
        };
        match token.kind {
            TokenKind::Delimiter(Delimiter::Plus) => Some(BinaryOperator::Add),
            TokenKind::Delimiter(Delimiter::Minus) => Some(BinaryOperator::Subtract),
            _ => None,
        }
    }

    /// The operator of a relation.
    fn relational(&self) -> Option<BinaryOperator>
        ensures { result ≡ reading.next_of reading.relational (first self.now.rest.now) }
    {
        let [token, ..] = self.rest else {
            return None;
        };
        match token.kind {
            TokenKind::Delimiter(Delimiter::Equals) => Some(BinaryOperator::Equal),
            TokenKind::Delimiter(Delimiter::Inequality) => Some(BinaryOperator::NotEqual),
            TokenKind::Delimiter(Delimiter::LessThan) => Some(BinaryOperator::Less),
            TokenKind::Delimiter(Delimiter::LessOrEqual) => Some(BinaryOperator::LessOrEqual),
            TokenKind::Delimiter(Delimiter::GreaterThan) => Some(BinaryOperator::Greater),
            TokenKind::Delimiter(Delimiter::GreaterOrEqual) => Some(BinaryOperator::GreaterOrEqual),
            _ => None,
        }
    }

    /// A sign, and its place.
    fn sign(&self) -> Option<(UnaryOperator, u32)>
        ensures { result ≡ reading.next_unary reading.sign (first self.now.rest.now) }
    {
        let [token, ..] = self.rest else {
            return None;
        };
        match token.kind {
            TokenKind::Delimiter(Delimiter::Plus) => Some((UnaryOperator::Plus, token.start)),
            TokenKind::Delimiter(Delimiter::Minus) => Some((UnaryOperator::Minus, token.start)),
            _ => None,
        }
    }

    /// An operator before a primary, and its place.
    fn prefix(&self) -> Option<(UnaryOperator, u32)>
        ensures { result ≡ reading.next_unary reading.prefix (first self.now.rest.now) }
    {
        let [token, ..] = self.rest else {
            return None;
        };
        match token.kind {
            TokenKind::Word(Word::Abs) => Some((UnaryOperator::Abs, token.start)),
            TokenKind::Word(Word::Not) => Some((UnaryOperator::Not, token.start)),
            _ => None,
        }
    }

    fn at_selector(&self) -> bool
        ensures { result ≡ reading.begins_selector (first self.now.rest.now) }
    {
        matches!(
            self.rest,
            [
                Token {
                    kind: TokenKind::Delimiter(
                        Delimiter::LeftParenthesis | Delimiter::Dot | Delimiter::Apostrophe
                    ),
                    ..
                },
                ..
            ]
        )
    }

    fn at_relational(&self) -> bool
        ensures { result ≡ reading.begins reading.relational (first self.now.rest.now) }
    {
        self.relational().is_some()
    }

    fn at_logical(&self) -> bool
        ensures { result ≡ reading.begins_logical (first self.now.rest.now) }
    {
        matches!(
            self.rest,
            [
                Token {
                    kind: TokenKind::Word(Word::And | Word::Or | Word::Xor),
                    ..
                },
                ..
            ]
        )
    }
}

// Names.
impl<'a> Parser<'a> {
    #[cycle(expression)]
    fn argument(&mut self, levels: u8) -> Result<Argument, Refusal>
        ensures { Gives argument_tree result self.new.rest.now (reading.argument_in (reading.values_at levels) self.old.rest.now) }
    {
        if let [
            Token {
                kind: TokenKind::Label(label),
                start,
                ..
            },
            rest @ ..,
        ] = self.rest
        {
            self.rest = rest;
            return Ok(Argument::Label(label.clone()?, *start));
        }
        Ok(Argument::Expr(self.expression(levels)?))
    }

    #[cycle(expression)]
    fn argument_list(&mut self, levels: u8) -> Result<Vec<Argument>, Refusal>
        ensures { Gives (λ all. map argument_tree all.items) result self.new.rest.now (reading.arguments_list (reading.values_at levels) self.old.rest.now) }
    {
        let mut all = Vec::new(self.alloc);
        let one = self.argument(levels)?;
        all.push(one)?;
        while self.at_mark(Delimiter::Comma) {
            self.mark(Delimiter::Comma)?;
            let next = self.argument(levels)?;
            all.push(next)?;
        }
        Ok(all)
    }

    #[cycle(expression)]
    fn arguments(&mut self, levels: u8) -> Result<Selector, Refusal>
        ensures { Gives selector_tree result self.new.rest.now (opened (reading.values levels) reading.arguments_in self.old.rest.now) }
    {
        let inside = self.open(levels)?;
        self.mark(Delimiter::LeftParenthesis)?;
        let all = self.argument_list(inside)?;
        self.mark(Delimiter::RightParenthesis)?;
        Ok(Selector::of_arguments(all))
    }

    #[inline(never)]
    fn component(&mut self) -> Result<Selector, Refusal>
        ensures { Gives selector_tree result self.new.rest.now (reading.component_of self.old.rest.now) }
    {
        self.mark(Delimiter::Dot)?;
        Ok(Selector::Component(self.identifier()?))
    }

    #[inline(never)]
    fn attribute(&mut self) -> Result<Selector, Refusal>
        ensures { Gives selector_tree result self.new.rest.now (reading.attribute_of self.old.rest.now) }
    {
        self.mark(Delimiter::Apostrophe)?;
        Ok(Selector::Attribute(self.identifier()?))
    }

    #[cycle(expression)]
    fn selector(&mut self, levels: u8) -> Result<Selector, Refusal>
        ensures { Gives selector_tree result self.new.rest.now (reading.selector_in (reading.values levels) self.old.rest.now) }
    {
        if self.at_mark(Delimiter::LeftParenthesis) {
            self.arguments(levels)
        } else if self.at_mark(Delimiter::Dot) {
            self.component()
        } else {
            self.attribute()
        }
    }

    #[cycle(expression)]
    fn selectors(&mut self, levels: u8) -> Result<Vec<Selector>, Refusal>
        ensures { Gives (λ all. map selector_tree all.items) result self.new.rest.now (reading.selectors_in (reading.values levels) self.old.rest.now) }
    {
        let mut all = Vec::new(self.alloc);
        while self.at_selector() {
            let next = self.selector(levels)?;
            all.push(next)?;
        }
        Ok(all)
    }

    /// A name, with at most so many more levels.
    #[cycle(expression)]
    #[tactic(auto, unfolding(crate::specs::ExpressionReading::name_in))]
    pub(crate) fn name(&mut self, levels: u8) -> Result<NameExpr, Refusal>
        ensures { Gives name_tree result self.new.rest.now (reading.name_at levels self.old.rest.now) }
    {
        let first = self.identifier()?;
        let selectors = self.selectors(levels)?;
        Ok(NameExpr { first, selectors })
    }
}

// Primaries.
impl<'a> Parser<'a> {
    /// What was read, unless a token follows that may not.
    #[inline(never)]
    fn ended(&self, all: Expr, follows: bool) -> Result<Expr, Refusal>
        ensures { Gives expr_tree result self.now.rest.now (if follows then refuse false self.now.rest.now else Ok (expr_tree all, self.now.rest.now)) }
    {
        if follows {
            return Err(self.refusal(false));
        }
        Ok(all)
    }

    #[cycle(expression)]
    fn elsif_value(&mut self, levels: u8) -> Result<ElsifValue, Refusal>
        ensures { Gives elsif_value_tree result self.new.rest.now (reading.elsif_value_in (reading.values_at levels) self.old.rest.now) }
    {
        self.word(Word::Elsif)?;
        let condition = self.expression(levels)?;
        self.word(Word::Then)?;
        let value = self.expression(levels)?;
        Ok(ElsifValue { condition, value })
    }

    #[cycle(expression)]
    #[inline(never)]
    fn elsif_values(&mut self, levels: u8) -> Result<Vec<ElsifValue>, Refusal>
        ensures { Gives (λ all. map elsif_value_tree all.items) result self.new.rest.now
            (reading.elsif_values_in (reading.values_at levels) self.old.rest.now) }
    {
        let mut all = Vec::new(self.alloc);
        while self.at_word(Word::Elsif) {
            let next = self.elsif_value(levels)?;
            all.push(next)?;
        }
        Ok(all)
    }

    #[cycle(expression)]
    #[inline(never)]
    fn conditional(&mut self, levels: u8, place: u32) -> Result<Expr, Refusal>
        ensures { Gives expr_tree result self.new.rest.now (opened (reading.values levels) (reading.conditional_in place) self.old.rest.now) }
    {
        let inside = self.open(levels)?;
        self.word(Word::If)?;
        let condition = self.expression(inside)?;
        self.word(Word::Then)?;
        let value = self.expression(inside)?;
        let elsif_values = self.elsif_values(inside)?;
        self.word(Word::Else)?;
        let else_value = self.expression(inside)?;
        Ok(Expr::conditional(
            self.alloc,
            place,
            condition,
            value,
            elsif_values,
            else_value,
        )?)
    }

    #[cycle(expression)]
    fn enclosed(&mut self, levels: u8, place: u32) -> Result<Expr, Refusal>
        ensures { Gives expr_tree result self.new.rest.now (reading.enclosed_in (reading.values_at levels) place self.old.rest.now) }
    {
        if self.at_word(Word::If) {
            return self.conditional(levels, place);
        }
        let inner = self.expression(levels)?;
        Ok(Expr::parenthesized(self.alloc, place, inner)?)
    }

    #[cycle(expression)]
    #[inline(never)]
    fn parenthesis(&mut self, levels: u8) -> Result<Expr, Refusal>
        ensures { Gives expr_tree result self.new.rest.now (opened (reading.values levels) reading.parenthesis_in self.old.rest.now) }
    {
        let inside = self.open(levels)?;
        let place = self.mark(Delimiter::LeftParenthesis)?;
        let all = self.enclosed(inside, place)?;
        self.mark(Delimiter::RightParenthesis)?;
        Ok(all)
    }

    #[cycle(expression)]
    #[inline(never)]
    fn named_primary(&mut self, levels: u8) -> Result<Expr, Refusal>
        ensures { Gives expr_tree result self.new.rest.now (reading.named_in (reading.values levels) self.old.rest.now) }
    {
        Ok(Expr::of_name(self.name(levels)?))
    }

    #[cycle(expression)]
    fn open_primary(&mut self, levels: u8) -> Result<Expr, Refusal>
        ensures { Gives expr_tree result self.new.rest.now (reading.open_primary_in (reading.values levels) self.old.rest.now) }
    {
        match self.rest {
            [
                Token {
                    kind: TokenKind::Delimiter(Delimiter::LeftParenthesis),
                    ..
                },
                ..
            ] => self.parenthesis(levels),
            [
                Token {
                    kind: TokenKind::Number(value),
                    start,
                    ..
                },
                rest @ ..,
            ] => {
                self.rest = rest;
                Ok(Expr::Number(*value, *start))
            }
            _ => self.named_primary(levels),
        }
    }

    #[cycle(expression)]
    #[tactic(auto, unfolding(crate::specs::ExpressionReading::primary_in))]
    fn primary(&mut self, levels: u8) -> Result<Expr, Refusal>
        ensures { Gives expr_tree result self.new.rest.now (reading.primary_in (reading.values levels) self.old.rest.now) }
    {
        match self.open_primary(levels) {
            Ok(primary) => self.ended(primary, self.at_selector()),
            Err(refusal) => Err(refusal),
        }
    }
}

// Operations. What stands behind an operator is read by methods of its own, so that the frames that are open at each level stay small.
impl<'a> Parser<'a> {
    #[inline(never)]
    fn binary(&self, operator: BinaryOperator, left: Expr, right: Expr) -> Result<Expr, Refusal>
        ensures { Gives expr_tree result self.now.rest.now (nothing (Binary operator (expr_tree left) (expr_tree right)) self.now.rest.now) }
    {
        Ok(Expr::binary(self.alloc, operator, left, right)?)
    }

    #[cycle(expression)]
    #[inline(never)]
    fn modified(&mut self, levels: u8, operator: UnaryOperator, place: u32) -> Result<Expr, Refusal>
        ensures { Gives expr_tree result self.new.rest.now (mapped (Unary operator place) (reading.primary_in (reading.values levels)) self.old.rest.now) }
    {
        let operand = self.primary(levels)?;
        Ok(Expr::unary(self.alloc, operator, place, operand)?)
    }

    #[cycle(expression)]
    #[tactic(auto, unfolding(crate::specs::ExpressionReading::factor_in))]
    fn factor(&mut self, levels: u8) -> Result<Expr, Refusal>
        ensures { Gives expr_tree result self.new.rest.now (reading.factor_in (reading.values levels) self.old.rest.now) }
    {
        match self.prefix() {
            Some((operator, place)) => {
                self.pass();
                self.modified(levels, operator, place)
            }
            None => self.primary(levels),
        }
    }

    /// What follows the first factor of a term.
    #[cycle(expression)]
    #[inline(never)]
    fn product(&mut self, levels: u8, first: Expr) -> Result<Expr, Refusal>
        ensures { Gives expr_tree result self.new.rest.now (reading.chained reading.multiplying (reading.factor_in (reading.values levels))
            (expr_tree first) self.old.rest.now) }
    {
        let mut left = first;
        while let Some(operator) = self.multiplying() {
            self.pass();
            let right = self.factor(levels)?;
            left = self.binary(operator, left, right)?;
        }
        Ok(left)
    }

    #[cycle(expression)]
    fn term(&mut self, levels: u8) -> Result<Expr, Refusal>
        ensures { Gives expr_tree result self.new.rest.now (reading.term_in (reading.values levels) self.old.rest.now) }
    {
        match self.factor(levels) {
            Ok(first) => self.product(levels, first),
            Err(refusal) => Err(refusal),
        }
    }

    #[cycle(expression)]
    #[inline(never)]
    fn negated(&mut self, levels: u8, operator: UnaryOperator, place: u32) -> Result<Expr, Refusal>
        ensures { Gives expr_tree result self.new.rest.now (mapped (Unary operator place) (reading.term_in (reading.values levels)) self.old.rest.now) }
    {
        let operand = self.term(levels)?;
        Ok(Expr::unary(self.alloc, operator, place, operand)?)
    }

    #[cycle(expression)]
    fn signed(&mut self, levels: u8) -> Result<Expr, Refusal>
        ensures { Gives expr_tree result self.new.rest.now (reading.prefixed reading.sign (reading.term_in (reading.values levels)) self.old.rest.now) }
    {
        match self.sign() {
            Some((operator, place)) => {
                self.pass();
                self.negated(levels, operator, place)
            }
            None => self.term(levels),
        }
    }

    /// What follows the first term of a sum.
    #[cycle(expression)]
    #[inline(never)]
    fn sum(&mut self, levels: u8, first: Expr) -> Result<Expr, Refusal>
        ensures { Gives expr_tree result self.new.rest.now (reading.chained reading.adding (reading.term_in (reading.values levels)) (expr_tree first)
            self.old.rest.now) }
    {
        let mut left = first;
        while let Some(operator) = self.adding() {
            self.pass();
            let right = self.term(levels)?;
            left = self.binary(operator, left, right)?;
        }
        Ok(left)
    }

    /// A sum: an expression without relations and logical operators, with at most so many more levels.
    #[cycle(expression)]
    pub(crate) fn simple(&mut self, levels: u8) -> Result<Expr, Refusal>
        ensures { Gives expr_tree result self.new.rest.now (reading.simple_at levels self.old.rest.now) }
    {
        match self.signed(levels) {
            Ok(first) => self.sum(levels, first),
            Err(refusal) => Err(refusal),
        }
    }

    #[cycle(expression)]
    #[inline(never)]
    fn compared(&mut self, levels: u8, left: Expr) -> Result<Expr, Refusal>
        ensures { Gives expr_tree result self.new.rest.now (reading.compared_in (reading.values levels) (expr_tree left) self.old.rest.now) }
    {
        match self.relational() {
            Some(operator) => {
                self.pass();
                let right = self.simple(levels)?;
                self.binary(operator, left, right)
            }
            None => Ok(left),
        }
    }

    /// What follows the first sum of a relation.
    #[cycle(expression)]
    #[inline(never)]
    fn related(&mut self, levels: u8, left: Expr) -> Result<Expr, Refusal>
        ensures { Gives expr_tree result self.new.rest.now (closed (reading.begins reading.relational)
            (reading.compared_in (reading.values levels) (expr_tree left)) self.old.rest.now) }
    {
        let relation = self.compared(levels, left)?;
        self.ended(relation, self.at_relational())
    }

    #[cycle(expression)]
    #[tactic(auto, unfolding(crate::specs::ExpressionReading::relation_in))]
    fn relation(&mut self, levels: u8) -> Result<Expr, Refusal>
        ensures { Gives expr_tree result self.new.rest.now (reading.relation_in (reading.values levels) self.old.rest.now) }
    {
        match self.simple(levels) {
            Ok(left) => self.related(levels, left),
            Err(refusal) => Err(refusal),
        }
    }

    #[inline(never)]
    fn logical(&mut self) -> Result<BinaryOperator, Refusal>
        ensures { Gives (λ operator. operator) result self.new.rest.now (reading.logical_of self.old.rest.now) }
    {
        if self.at_word(Word::And) {
            self.word(Word::And)?;
            return self.with_more(BinaryOperator::And, Word::Then, BinaryOperator::AndThen);
        }
        if self.at_word(Word::Or) {
            self.word(Word::Or)?;
            return self.with_more(BinaryOperator::Or, Word::Else, BinaryOperator::OrElse);
        }
        self.word(Word::Xor)?;
        Ok(BinaryOperator::Xor)
    }

    fn with_more(
        &mut self,
        short: BinaryOperator,
        more: Word,
        long: BinaryOperator,
    ) -> Result<BinaryOperator, Refusal>
        ensures { Gives (λ operator. operator) result self.new.rest.now (reading.with_more short more long self.old.rest.now) }
    {
        if !self.at_word(more) {
            return Ok(short);
        }
        self.word(more)?;
        Ok(long)
    }

    /// Goes past the logical operator again.
    #[inline(never)]
    fn repeated(&mut self, operator: BinaryOperator) -> Result<(), Refusal>
        ensures { Gives (λ _. tt) result self.new.rest.now (reading.repeated operator self.old.rest.now) }
    {
        self.word(first_word(operator))?;
        match second_word(operator) {
            Some(word) => {
                self.word(word)?;
                Ok(())
            }
            None => Ok(()),
        }
    }

    #[cycle(expression)]
    #[inline(never)]
    fn chain(&mut self, levels: u8, left: Expr, operator: BinaryOperator) -> Result<Expr, Refusal>
        ensures { Gives expr_tree result self.new.rest.now (reading.logical_chain (reading.values levels) (expr_tree left) operator self.old.rest.now) }
    {
        let right = self.relation(levels)?;
        let mut all = Expr::binary(self.alloc, operator, left, right)?;
        while self.at_word(first_word(operator)) {
            self.repeated(operator)?;
            let right = self.relation(levels)?;
            all = Expr::binary(self.alloc, operator, all, right)?;
        }
        Ok(all)
    }

    #[cycle(expression)]
    fn combined(&mut self, levels: u8, left: Expr) -> Result<Expr, Refusal>
        ensures { Gives expr_tree result self.new.rest.now (reading.logical_in (reading.values levels) (expr_tree left) self.old.rest.now) }
    {
        if !self.at_logical() {
            return Ok(left);
        }
        let operator = self.logical()?;
        self.chain(levels, left, operator)
    }

    /// What follows the first relation of an expression.
    #[cycle(expression)]
    #[inline(never)]
    fn completed(&mut self, levels: u8, left: Expr) -> Result<Expr, Refusal>
        ensures { Gives expr_tree result self.new.rest.now (closed reading.begins_logical
            (reading.logical_in (reading.values levels) (expr_tree left)) self.old.rest.now) }
    {
        let all = self.combined(levels, left)?;
        self.ended(all, self.at_logical())
    }

    /// An expression, with at most so many more levels.
    #[cycle(expression)]
    #[tactic(auto, unfolding(crate::specs::ExpressionReading::expression_in))]
    pub(crate) fn expression(&mut self, levels: u8) -> Result<Expr, Refusal>
        ensures { Gives expr_tree result self.new.rest.now (reading.expression_at levels self.old.rest.now) }
    {
        match self.relation(levels) {
            Ok(left) => self.completed(levels, left),
            Err(refusal) => Err(refusal),
        }
    }
}
