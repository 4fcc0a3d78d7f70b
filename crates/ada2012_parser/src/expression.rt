//! Reading expressions and names.
ghost use Rattle.std.specs.Prelude.{◌<◌, IfOk, IfSome, OnOk, length, map};
ghost use Rattle.ada2012_tree.specs.Spans.{NoTrees, only, trees_of};
ghost use Rattle.ada2012_tree.specs.ExpressionSpans.{association_spans, attribute_spans, choice_spans, condition_spans, expr_spans, name_spans, operand_spans, selector_spans};
ghost use Rattle.ada2012_parser.specs.Reading.{AreReadSince, Reads, ReadsSome, here};

use crate::fault::Stop;
use crate::parser::Parser;
use crate::{Expected, LeftOut};
use ada2012_lexer::{Delimiter, Token, TokenKind};
use ada2012_tree::{
    Association, AttributeName, BinaryOperator, Choice, Condition, Expr, Membership, Name, Operand,
    Range, Selector, UnaryOperator,
};
use lexer::Word;

// What the next token is.
impl<'a> Parser<'a> {
    /// An operator of a term.
    fn multiplying(&self) -> Option<BinaryOperator>
        ensures { IfSome result (λ _. 0 < length self.now.rest.now) }
    {
        let [token, ..] = self.rest else {
            return None;
        };
        match token.kind {
            TokenKind::Delimiter(Delimiter::Asterisk) => Some(BinaryOperator::Multiply),
            TokenKind::Delimiter(Delimiter::Slash) => Some(BinaryOperator::Divide),
            TokenKind::Word(Word::Mod) => Some(BinaryOperator::Mod),
            TokenKind::Word(Word::Rem) => Some(BinaryOperator::Rem),
            _ => None,
        }
    }

    /// An operator between terms.
    fn adding(&self) -> Option<BinaryOperator>
        ensures { IfSome result (λ _. 0 < length self.now.rest.now) }
    {
        let [token, ..] = self.rest else {
            return None;
        };
        match token.kind {
            TokenKind::Delimiter(Delimiter::Plus) => Some(BinaryOperator::Add),
            TokenKind::Delimiter(Delimiter::Minus) => Some(BinaryOperator::Subtract),
            TokenKind::Delimiter(Delimiter::Ampersand) => Some(BinaryOperator::Concatenate),
            _ => None,
        }
    }

    /// The operator of a relation.
    fn relational(&self) -> Option<BinaryOperator>
        ensures { IfSome result (λ _. 0 < length self.now.rest.now) }
    {
        let [token, ..] = self.rest else {
            return None;
        };
        match token.kind {
            TokenKind::Delimiter(Delimiter::Equals) => Some(BinaryOperator::Equal),
            TokenKind::Delimiter(Delimiter::Inequality) => Some(BinaryOperator::NotEqual),
            TokenKind::Delimiter(Delimiter::LessThan) => Some(BinaryOperator::Less),
            TokenKind::Delimiter(Delimiter::LessOrEqual) => Some(BinaryOperator::LessOrEqual),
            TokenKind::Delimiter(Delimiter::GreaterThan) => Some(BinaryOperator::Greater),
            TokenKind::Delimiter(Delimiter::GreaterOrEqual) => Some(BinaryOperator::GreaterOrEqual),
            _ => None,
        }
    }

    /// An operator before a primary.
    fn prefix(&self) -> Option<UnaryOperator>
        ensures { IfSome result (λ _. 0 < length self.now.rest.now) }
    {
        let [token, ..] = self.rest else {
            return None;
        };
        match token.kind {
            TokenKind::Word(Word::Abs) => Some(UnaryOperator::Abs),
            TokenKind::Word(Word::Not) => Some(UnaryOperator::Not),
            _ => None,
        }
    }

    /// A sign.
    fn sign(&self) -> Option<UnaryOperator>
        ensures { IfSome result (λ _. 0 < length self.now.rest.now) }
    {
        let [token, ..] = self.rest else {
            return None;
        };
        match token.kind {
            TokenKind::Delimiter(Delimiter::Plus) => Some(UnaryOperator::Plus),
            TokenKind::Delimiter(Delimiter::Minus) => Some(UnaryOperator::Minus),
            _ => None,
        }
    }

    /// The operator of a membership test: `in`, or `not`, after which `in` has to follow.
    fn membership(&self) -> Option<Membership> {
        match self.next_word() {
            Some(Word::In) => Some(Membership::In),
            Some(Word::Not) => Some(Membership::NotIn),
            _ => None,
        }
    }

    fn at_selector(&self) -> bool {
        matches!(
            self.rest,
            [
                Token {
                    kind: TokenKind::Delimiter(
                        Delimiter::LeftParenthesis | Delimiter::Dot | Delimiter::Apostrophe
                    ),
                    ..
                },
                ..
            ]
        )
    }

    fn at_logical(&self) -> bool {
        matches!(self.next_word(), Some(Word::And | Word::Or | Word::Xor))
    }
}

// Names.
impl<'a> Parser<'a> {
    #[inline(never)]
    fn component(&mut self) -> Result<Selector, Stop>
        ensures { IfOk result (λ selector. ReadsSome (here self.old) self.old self.new (only (selector_spans selector))) }
    {
        let start = self.here();
        self.mark(Delimiter::Dot)?;
        if self.at_word(Word::All) {
            return Err(self.left_out(LeftOut::Access));
        }
        let name = self.identifier()?;
        Ok(Selector::Component(self.since(start), name))
    }

    /// The name of an attribute, after its apostrophe.
    #[inline(never)]
    fn attribute_name(&mut self) -> Result<AttributeName, Stop>
        ensures { IfOk result (λ name. ReadsSome (here self.old) self.old self.new (only (attribute_spans name))) }
    {
        match self.next_word() {
            Some(word @ (Word::Access | Word::Range | Word::Mod | Word::Digits | Word::Delta)) => {
                Ok(AttributeName::Word(word, self.word_span(word)?))
            }
            Some(_) => Err(self.unexpected(Expected::Attribute)),
            None => Ok(AttributeName::Identifier(self.identifier()?)),
        }
    }

    /// An attribute, or the operand of a qualified expression.
    #[cycle(expression)]
    #[inline(never)]
    fn qualification(&mut self, levels: u8) -> Result<Selector, Stop>
        ensures { IfOk result (λ selector. ReadsSome (here self.old) self.old self.new (only (selector_spans selector))) }
    {
        let start = self.here();
        self.mark(Delimiter::Apostrophe)?;
        if self.at_mark(Delimiter::LeftParenthesis) {
            let operand = self.parenthesis(levels)?;
            return Ok(Selector::qualified(self.alloc, self.since(start), operand)?);
        }
        let name = self.attribute_name()?;
        Ok(Selector::Attribute(self.since(start), name))
    }

    #[cycle(expression)]
    fn arguments(&mut self, levels: u8) -> Result<Selector, Stop>
        ensures { IfOk result (λ selector. ReadsSome (here self.old) self.old self.new (only (selector_spans selector))) }
    {
        let start = self.here();
        let inside = self.open(levels)?;
        self.mark(Delimiter::LeftParenthesis)?;
        let all = self.association_list(inside)?;
        self.mark(Delimiter::RightParenthesis)?;
        Ok(Selector::arguments(self.since(start), all))
    }

    #[cycle(expression)]
    fn selector(&mut self, levels: u8) -> Result<Selector, Stop>
        ensures { IfOk result (λ selector. ReadsSome (here self.old) self.old self.new (only (selector_spans selector))) }
    {
        if self.at_mark(Delimiter::LeftParenthesis) {
            self.arguments(levels)
        } else if self.at_mark(Delimiter::Dot) {
            self.component()
        } else {
            self.qualification(levels)
        }
    }

    #[cycle(expression)]
    fn selectors(&mut self, levels: u8) -> Result<Vec<Selector>, Stop>
        ensures { IfOk result (λ all. Reads (here self.old) self.old self.new (trees_of (map selector_spans all.items))) }
    {
        let mut all = Vec::new(self.alloc);
        while self.at_selector() {
            let next = self.selector(levels)?;
            all.push(next)?;
        }
        Ok(all)
    }

    /// A name, with at most so many more levels.
    #[cycle(expression)]
    pub(crate) fn name(&mut self, levels: u8) -> Result<Name, Stop>
        ensures { IfOk result (λ name. ReadsSome (here self.old) self.old self.new (only (name_spans name))) }
    {
        let start = self.here();
        let prefix = self.identifier()?;
        let selectors = self.selectors(levels)?;
        Ok(Name {
            span: self.since(start),
            prefix,
            selectors,
        })
    }
}

// Associations.
impl<'a> Parser<'a> {
    /// A choice whose first expression was read from this place on.
    #[cycle(expression)]
    fn choice_after(&mut self, levels: u8, start: u32, first: Expr) -> Result<Choice, Stop>
        requires { AreReadSince start self.old (only (expr_spans first)) }
        ensures { IfOk result (λ choice. Reads start self.old self.new (only (choice_spans choice))) }
    {
        if !self.at_mark(Delimiter::DoubleDot) {
            return Ok(Choice::value(first));
        }
        self.mark(Delimiter::DoubleDot)?;
        let last = self.simple(levels)?;
        Ok(Choice::range(Range {
            span: self.since(start),
            first,
            last,
        }))
    }

    /// A choice: a value, a range, or `others`.
    #[cycle(expression)]
    fn choice(&mut self, levels: u8) -> Result<Choice, Stop>
        ensures { IfOk result (λ choice. ReadsSome (here self.old) self.old self.new (only (choice_spans choice))) }
    {
        if self.at_word(Word::Others) {
            return Ok(Choice::Others(self.word_span(Word::Others)?));
        }
        let start = self.here();
        let first = self.expression(levels)?;
        self.choice_after(levels, start, first)
    }

    /// The choices after a first one, each after a vertical line.
    #[cycle(expression)]
    fn more_choices(&mut self, levels: u8, start: u32, first: Choice) -> Result<Vec<Choice>, Stop>
        requires { AreReadSince start self.old (only (choice_spans first)) }
        ensures { IfOk result (λ all. Reads start self.old self.new (trees_of (map choice_spans all.items))) }
    {
        let mut all = Vec::new(self.alloc);
        all.push(first)?;
        while self.at_mark(Delimiter::VerticalLine) {
            self.mark(Delimiter::VerticalLine)?;
            let next = self.choice(levels)?;
            all.push(next)?;
        }
        Ok(all)
    }

    /// Choices, one or more.
    pub(crate) fn choices(&mut self, levels: u8) -> Result<Vec<Choice>, Stop>
        ensures { IfOk result (λ all. ReadsSome (here self.old) self.old self.new (trees_of (map choice_spans all.items))) }
    {
        let start = self.here();
        let first = self.choice(levels)?;
        self.more_choices(levels, start, first)
    }

    /// The value of an association, after its arrow.
    #[cycle(expression)]
    fn associated(&mut self, levels: u8) -> Result<Expr, Stop>
        ensures { IfOk result (λ value. ReadsSome (here self.old) self.old self.new (only (expr_spans value))) }
    {
        self.mark(Delimiter::Arrow)?;
        if self.at_mark(Delimiter::Box) {
            return Err(self.left_out(LeftOut::DefaultComponent));
        }
        self.expression(levels)
    }

    /// An association with choices, of which the first was read from this place on.
    #[cycle(expression)]
    #[inline(never)]
    fn named_association(
        &mut self,
        levels: u8,
        start: u32,
        first: Choice,
    ) -> Result<Association, Stop>
        requires { AreReadSince start self.old (only (choice_spans first)) }
        ensures { IfOk result (λ association. ReadsSome start self.old self.new (only (association_spans association))) }
    {
        let choices = self.more_choices(levels, start, first)?;
        let value = self.associated(levels)?;
        Ok(Association {
            span: self.since(start),
            choices,
            value,
        })
    }

    fn at_choice_end(&self) -> bool {
        self.at_mark(Delimiter::Arrow)
            || self.at_mark(Delimiter::VerticalLine)
            || self.at_mark(Delimiter::DoubleDot)
    }

    /// An association whose first expression was read from this place on.
    #[cycle(expression)]
    fn association_after(
        &mut self,
        levels: u8,
        start: u32,
        first: Expr,
    ) -> Result<Association, Stop>
        requires { AreReadSince start self.old (only (expr_spans first)) }
        ensures { IfOk result (λ association. Reads start self.old self.new (only (association_spans association))) }
    {
        if self.at_choice_end() {
            let choice = self.choice_after(levels, start, first)?;
            if !self.at_choice_end() {
                return Err(self.left_out(LeftOut::Slice));
            }
            return self.named_association(levels, start, choice);
        }
        Ok(Association {
            span: self.since(start),
            choices: Vec::new(self.alloc),
            value: first,
        })
    }

    /// One of several things in parentheses.
    #[cycle(expression)]
    fn association(&mut self, levels: u8) -> Result<Association, Stop>
        ensures { IfOk result (λ association. ReadsSome (here self.old) self.old self.new (only (association_spans association))) }
    {
        let start = self.here();
        if self.at_word(Word::Others) {
            let others = Choice::Others(self.word_span(Word::Others)?);
            return self.named_association(levels, start, others);
        }
        let first = self.expression(levels)?;
        self.association_after(levels, start, first)
    }

    /// The associations after a first one, each after a comma.
    #[cycle(expression)]
    fn more_associations(
        &mut self,
        levels: u8,
        start: u32,
        first: Association,
    ) -> Result<Vec<Association>, Stop>
        requires { AreReadSince start self.old (only (association_spans first)) }
        ensures { IfOk result (λ all. Reads start self.old self.new (trees_of (map association_spans all.items))) }
    {
        let mut all = Vec::new(self.alloc);
        all.push(first)?;
        while self.at_mark(Delimiter::Comma) {
            self.mark(Delimiter::Comma)?;
            let next = self.association(levels)?;
            all.push(next)?;
        }
        Ok(all)
    }

    /// Associations, one or more.
    #[cycle(expression)]
    pub(crate) fn association_list(&mut self, levels: u8) -> Result<Vec<Association>, Stop>
        ensures { IfOk result (λ all. ReadsSome (here self.old) self.old self.new (trees_of (map association_spans all.items))) }
    {
        let start = self.here();
        let first = self.association(levels)?;
        self.more_associations(levels, start, first)
    }
}

// Primaries.
impl<'a> Parser<'a> {
    /// A condition and its value, after `if` or `elsif`.
    #[cycle(expression)]
    fn condition(&mut self, levels: u8, word: Word) -> Result<Condition, Stop>
        ensures { IfOk result (λ condition. ReadsSome (here self.old) self.old self.new (only (condition_spans condition))) }
    {
        let start = self.here();
        self.word(word)?;
        let condition = self.expression(levels)?;
        self.word(Word::Then)?;
        let value = self.expression(levels)?;
        Ok(Condition {
            span: self.since(start),
            condition,
            value,
        })
    }

    #[cycle(expression)]
    fn conditions(&mut self, levels: u8) -> Result<Vec<Condition>, Stop>
        ensures { IfOk result (λ all. ReadsSome (here self.old) self.old self.new (trees_of (map condition_spans all.items))) }
    {
        let mut all = Vec::new(self.alloc);
        let first = self.condition(levels, Word::If)?;
        all.push(first)?;
        while self.at_word(Word::Elsif) {
            let next = self.condition(levels, Word::Elsif)?;
            all.push(next)?;
        }
        Ok(all)
    }

    /// An if expression, after the parenthesis at this place.
    #[cycle(expression)]
    #[inline(never)]
    fn conditional(&mut self, levels: u8, start: u32) -> Result<Expr, Stop>
        requires { AreReadSince start self.old NoTrees }
        ensures { IfOk result (λ e. ReadsSome start self.old self.new (only (expr_spans e))) }
    {
        let conditions = self.conditions(levels)?;
        self.word(Word::Else)?;
        let other = self.expression(levels)?;
        self.mark(Delimiter::RightParenthesis)?;
        Ok(Expr::conditional(self.alloc, self.since(start), conditions, other)?)
    }

    /// An aggregate, whose first association was read, after the parenthesis at this place.
    #[cycle(expression)]
    #[inline(never)]
    fn aggregate(&mut self, levels: u8, start: u32, first: Association) -> Result<Expr, Stop>
        requires { AreReadSince start self.old (only (association_spans first)) }
        ensures { IfOk result (λ e. ReadsSome start self.old self.new (only (expr_spans e))) }
    {
        let all = self.more_associations(levels, start, first)?;
        self.mark(Delimiter::RightParenthesis)?;
        Ok(Expr::aggregate(self.since(start), all))
    }

    /// What is in parentheses, after the first one at this place.
    #[cycle(expression)]
    fn enclosed(&mut self, levels: u8, start: u32) -> Result<Expr, Stop>
        requires { AreReadSince start self.old NoTrees }
        ensures { IfOk result (λ e. ReadsSome start self.old self.new (only (expr_spans e))) }
    {
        let inner = self.here();
        if self.at_word(Word::Others) {
            let first = self.association(levels)?;
            return self.aggregate(levels, start, first);
        }
        let first = self.expression(levels)?;
        if self.at_mark(Delimiter::RightParenthesis) {
            self.mark(Delimiter::RightParenthesis)?;
            return Ok(Expr::parenthesized(self.alloc, self.since(start), first)?);
        }
        let first = self.association_after(levels, inner, first)?;
        self.aggregate(levels, start, first)
    }

    /// An expression in parentheses, an aggregate or an if expression.
    #[cycle(expression)]
    #[inline(never)]
    pub(crate) fn parenthesis(&mut self, levels: u8) -> Result<Expr, Stop>
        ensures { IfOk result (λ e. ReadsSome (here self.old) self.old self.new (only (expr_spans e))) }
    {
        let start = self.here();
        let inside = self.open(levels)?;
        self.mark(Delimiter::LeftParenthesis)?;
        match self.next_word() {
            Some(Word::If) => self.conditional(inside, start),
            Some(Word::Case) => Err(self.left_out(LeftOut::CaseExpression)),
            Some(Word::For) => Err(self.left_out(LeftOut::QuantifiedExpression)),
            Some(Word::Raise) => Err(self.left_out(LeftOut::RaiseExpression)),
            _ => self.enclosed(inside, start),
        }
    }

    #[cycle(expression)]
    #[inline(never)]
    fn named_primary(&mut self, levels: u8) -> Result<Expr, Stop>
        ensures { IfOk result (λ e. ReadsSome (here self.old) self.old self.new (only (expr_spans e))) }
    {
        let start = self.here();
        let name = self.name(levels)?;
        Ok(Expr::of_name(self.since(start), name))
    }

    /// Why no primary begins here.
    fn no_primary(&self) -> Stop {
        match self.next_word() {
            Some(Word::Null | Word::New) => self.left_out(LeftOut::Access),
            _ => self.unexpected(Expected::Expression),
        }
    }

    #[cycle(expression)]
    fn primary(&mut self, levels: u8) -> Result<Expr, Stop>
        ensures { IfOk result (λ e. ReadsSome (here self.old) self.old self.new (only (expr_spans e))) }
    {
        let [token, ..] = self.rest else {
            return Err(self.no_primary());
        };
        match token.kind {
            TokenKind::Delimiter(Delimiter::LeftParenthesis) => self.parenthesis(levels),
            TokenKind::Integer(value) => Ok(Expr::integer(self.pass(), value)),
            TokenKind::Real => Ok(Expr::real(self.pass())),
            TokenKind::Character(character) => Ok(Expr::character(self.pass(), character)),
            TokenKind::StringLiteral => Ok(Expr::string_literal(self.pass())),
            TokenKind::Identifier(_) => self.named_primary(levels),
            _ => Err(self.no_primary()),
        }
    }
}

// Operations.
impl<'a> Parser<'a> {
    /// An operator and its operand, after a first operand.
    #[cycle(expression)]
    #[inline(never)]
    fn power(&mut self, levels: u8) -> Result<Vec<Operand>, Stop>
        ensures { IfOk result (λ all. ReadsSome (here self.old) self.old self.new (trees_of (map operand_spans all.items))) }
    {
        let start = self.here();
        self.mark(Delimiter::DoubleStar)?;
        let value = self.primary(levels)?;
        let mut all = Vec::new(self.alloc);
        all.push(Operand {
            span: self.since(start),
            operator: BinaryOperator::Power,
            value,
        })?;
        Ok(all)
    }

    #[cycle(expression)]
    #[inline(never)]
    fn modified(&mut self, levels: u8, operator: UnaryOperator) -> Result<Expr, Stop>
        requires { 0 < length self.old.rest.now }
        ensures { IfOk result (λ e. ReadsSome (here self.old) self.old self.new (only (expr_spans e))) }
    {
        let start = self.here();
        self.pass();
        let operand = self.primary(levels)?;
        Ok(Expr::unary(self.alloc, self.since(start), operator, operand)?)
    }

    #[cycle(expression)]
    fn factor(&mut self, levels: u8) -> Result<Expr, Stop>
        ensures { IfOk result (λ e. ReadsSome (here self.old) self.old self.new (only (expr_spans e))) }
    {
        if let Some(operator) = self.prefix() {
            return self.modified(levels, operator);
        }
        let start = self.here();
        let first = self.primary(levels)?;
        if !self.at_mark(Delimiter::DoubleStar) {
            return Ok(first);
        }
        let operands = self.power(levels)?;
        Ok(Expr::chain(self.alloc, self.since(start), first, operands)?)
    }

    #[cycle(expression)]
    fn multiplied(&mut self, levels: u8, operator: BinaryOperator) -> Result<Operand, Stop>
        requires { 0 < length self.old.rest.now }
        ensures { IfOk result (λ operand. ReadsSome (here self.old) self.old self.new (only (operand_spans operand))) }
    {
        let start = self.here();
        self.pass();
        let value = self.factor(levels)?;
        Ok(Operand {
            span: self.since(start),
            operator,
            value,
        })
    }

    /// What follows the first factor of a term.
    #[cycle(expression)]
    #[inline(never)]
    fn factors(&mut self, levels: u8) -> Result<Vec<Operand>, Stop>
        ensures { IfOk result (λ all. Reads (here self.old) self.old self.new (trees_of (map operand_spans all.items))) }
    {
        let mut all = Vec::new(self.alloc);
        while let Some(operator) = self.multiplying() {
            let next = self.multiplied(levels, operator)?;
            all.push(next)?;
        }
        Ok(all)
    }

    #[cycle(expression)]
    fn term(&mut self, levels: u8) -> Result<Expr, Stop>
        ensures { IfOk result (λ e. ReadsSome (here self.old) self.old self.new (only (expr_spans e))) }
    {
        let start = self.here();
        let first = self.factor(levels)?;
        if self.multiplying().is_none() {
            return Ok(first);
        }
        let operands = self.factors(levels)?;
        Ok(Expr::chain(self.alloc, self.since(start), first, operands)?)
    }

    #[cycle(expression)]
    #[inline(never)]
    fn signed_term(&mut self, levels: u8, operator: UnaryOperator) -> Result<Expr, Stop>
        requires { 0 < length self.old.rest.now }
        ensures { IfOk result (λ e. ReadsSome (here self.old) self.old self.new (only (expr_spans e))) }
    {
        let start = self.here();
        self.pass();
        let operand = self.term(levels)?;
        Ok(Expr::unary(self.alloc, self.since(start), operator, operand)?)
    }

    /// The first term of a sum, with its sign.
    #[cycle(expression)]
    fn signed(&mut self, levels: u8) -> Result<Expr, Stop>
        ensures { IfOk result (λ e. ReadsSome (here self.old) self.old self.new (only (expr_spans e))) }
    {
        match self.sign() {
            Some(operator) => self.signed_term(levels, operator),
            None => self.term(levels),
        }
    }

    #[cycle(expression)]
    fn added(&mut self, levels: u8, operator: BinaryOperator) -> Result<Operand, Stop>
        requires { 0 < length self.old.rest.now }
        ensures { IfOk result (λ operand. ReadsSome (here self.old) self.old self.new (only (operand_spans operand))) }
    {
        let start = self.here();
        self.pass();
        let value = self.term(levels)?;
        Ok(Operand {
            span: self.since(start),
            operator,
            value,
        })
    }

    /// What follows the first term of a sum.
    #[cycle(expression)]
    #[inline(never)]
    fn terms(&mut self, levels: u8) -> Result<Vec<Operand>, Stop>
        ensures { IfOk result (λ all. Reads (here self.old) self.old self.new (trees_of (map operand_spans all.items))) }
    {
        let mut all = Vec::new(self.alloc);
        while let Some(operator) = self.adding() {
            let next = self.added(levels, operator)?;
            all.push(next)?;
        }
        Ok(all)
    }

    /// A simple expression: one without relations and logical operators, with at most so many more levels.
    #[cycle(expression)]
    pub(crate) fn simple(&mut self, levels: u8) -> Result<Expr, Stop>
        ensures { IfOk result (λ e. ReadsSome (here self.old) self.old self.new (only (expr_spans e))) }
    {
        let start = self.here();
        let first = self.signed(levels)?;
        if self.adding().is_none() {
            return Ok(first);
        }
        let operands = self.terms(levels)?;
        Ok(Expr::chain(self.alloc, self.since(start), first, operands)?)
    }

    /// The operator of a relation, and its second operand.
    #[cycle(expression)]
    #[inline(never)]
    fn compared(&mut self, levels: u8, operator: BinaryOperator) -> Result<Vec<Operand>, Stop>
        requires { 0 < length self.old.rest.now }
        ensures { IfOk result (λ all. ReadsSome (here self.old) self.old self.new (trees_of (map operand_spans all.items))) }
    {
        let start = self.here();
        self.pass();
        let value = self.simple(levels)?;
        let mut all = Vec::new(self.alloc);
        all.push(Operand {
            span: self.since(start),
            operator,
            value,
        })?;
        Ok(all)
    }

    /// A choice of a membership test: a value or a range.
    #[cycle(expression)]
    fn member(&mut self, levels: u8) -> Result<Choice, Stop>
        ensures { IfOk result (λ choice. ReadsSome (here self.old) self.old self.new (only (choice_spans choice))) }
    {
        let start = self.here();
        let first = self.simple(levels)?;
        self.choice_after(levels, start, first)
    }

    /// The choices of a membership test.
    #[cycle(expression)]
    #[inline(never)]
    fn members(&mut self, levels: u8) -> Result<Vec<Choice>, Stop>
        ensures { IfOk result (λ all. ReadsSome (here self.old) self.old self.new (trees_of (map choice_spans all.items))) }
    {
        let mut all = Vec::new(self.alloc);
        let first = self.member(levels)?;
        all.push(first)?;
        while self.at_mark(Delimiter::VerticalLine) {
            self.mark(Delimiter::VerticalLine)?;
            let next = self.member(levels)?;
            all.push(next)?;
        }
        Ok(all)
    }

    /// Passes `in` or `not in`.
    fn membership_words(&mut self, membership: Membership) -> Result<(), Stop>
        ensures { OnOk result (ReadsSome (here self.old) self.old self.new NoTrees) }
    {
        if membership == Membership::In {
            return self.word(Word::In);
        }
        self.word(Word::Not)?;
        self.word(Word::In)
    }

    /// A membership test of this value, which was read from this place on.
    #[cycle(expression)]
    #[inline(never)]
    fn tested(
        &mut self,
        levels: u8,
        start: u32,
        value: Expr,
        membership: Membership,
    ) -> Result<Expr, Stop>
        requires { AreReadSince start self.old (only (expr_spans value)) }
        ensures { IfOk result (λ e. ReadsSome start self.old self.new (only (expr_spans e))) }
    {
        self.membership_words(membership)?;
        let choices = self.members(levels)?;
        Ok(Expr::membership(self.alloc, self.since(start), value, membership, choices)?)
    }

    /// What follows the first operand of a relation, which was read from this place on.
    #[cycle(expression)]
    fn related(&mut self, levels: u8, start: u32, first: Expr) -> Result<Expr, Stop>
        requires { AreReadSince start self.old (only (expr_spans first)) }
        ensures { IfOk result (λ e. Reads start self.old self.new (only (expr_spans e))) }
    {
        if let Some(operator) = self.relational() {
            let operands = self.compared(levels, operator)?;
            return Ok(Expr::chain(self.alloc, self.since(start), first, operands)?);
        }
        match self.membership() {
            Some(membership) => self.tested(levels, start, first, membership),
            None => Ok(first),
        }
    }

    #[cycle(expression)]
    fn relation(&mut self, levels: u8) -> Result<Expr, Stop>
        ensures { IfOk result (λ e. ReadsSome (here self.old) self.old self.new (only (expr_spans e))) }
    {
        let start = self.here();
        let first = self.simple(levels)?;
        self.related(levels, start, first)
    }

    /// A logical operator.
    #[inline(never)]
    fn logical(&mut self) -> Result<BinaryOperator, Stop>
        ensures { OnOk result (ReadsSome (here self.old) self.old self.new NoTrees) }
    {
        if self.at_word(Word::And) {
            self.word(Word::And)?;
            return self.with_more(BinaryOperator::And, Word::Then, BinaryOperator::AndThen);
        }
        if self.at_word(Word::Or) {
            self.word(Word::Or)?;
            return self.with_more(BinaryOperator::Or, Word::Else, BinaryOperator::OrElse);
        }
        self.word(Word::Xor)?;
        Ok(BinaryOperator::Xor)
    }

    fn with_more(
        &mut self,
        short: BinaryOperator,
        more: Word,
        long: BinaryOperator,
    ) -> Result<BinaryOperator, Stop>
        ensures { OnOk result (Reads (here self.old) self.old self.new NoTrees) }
    {
        if !self.at_word(more) {
            return Ok(short);
        }
        self.word(more)?;
        Ok(long)
    }

    #[cycle(expression)]
    fn joined_by(&mut self, levels: u8) -> Result<Operand, Stop>
        ensures { IfOk result (λ operand. ReadsSome (here self.old) self.old self.new (only (operand_spans operand))) }
    {
        let start = self.here();
        let operator = self.logical()?;
        let value = self.relation(levels)?;
        Ok(Operand {
            span: self.since(start),
            operator,
            value,
        })
    }

    /// A further operator, which has to be this one, and its operand.
    #[cycle(expression)]
    fn joined_alike(&mut self, levels: u8, wanted: BinaryOperator) -> Result<Operand, Stop>
        ensures { IfOk result (λ operand. ReadsSome (here self.old) self.old self.new (only (operand_spans operand))) }
    {
        let start = self.here();
        let other = self.unexpected(Expected::SameOperator);
        let operator = self.logical()?;
        if operator != wanted {
            return Err(other);
        }
        let value = self.relation(levels)?;
        Ok(Operand {
            span: self.since(start),
            operator,
            value,
        })
    }

    /// What follows the first relation of an expression: logical operators that are all the same.
    #[cycle(expression)]
    #[inline(never)]
    fn relations(&mut self, levels: u8) -> Result<Vec<Operand>, Stop>
        ensures { IfOk result (λ all. ReadsSome (here self.old) self.old self.new (trees_of (map operand_spans all.items))) }
    {
        let mut all = Vec::new(self.alloc);
        let first = self.joined_by(levels)?;
        let operator = first.operator;
        all.push(first)?;
        while self.at_logical() {
            let next = self.joined_alike(levels, operator)?;
            all.push(next)?;
        }
        Ok(all)
    }

    /// An expression, with at most so many more levels.
    #[cycle(expression)]
    pub(crate) fn expression(&mut self, levels: u8) -> Result<Expr, Stop>
        ensures { IfOk result (λ e. ReadsSome (here self.old) self.old self.new (only (expr_spans e))) }
    {
        let start = self.here();
        let first = self.relation(levels)?;
        if !self.at_logical() {
            return Ok(first);
        }
        let operands = self.relations(levels)?;
        Ok(Expr::chain(self.alloc, self.since(start), first, operands)?)
    }
}
