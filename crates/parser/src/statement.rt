//! Reading statements.
ghost use Rattle.std.specs.Prelude.{◌≡◌, map, false};
ghost use Rattle.ada_tree.specs.ExpressionTree.{expr_tree};
ghost use Rattle.ada_tree.specs.StatementTree.{stmt_tree, stmt_trees, elsif_tree, alternative_tree, handler_tree, handler_trees, choices_tree, iteration_tree, declaration_tree, optional_tree};
ghost use Rattle.parser.specs.Reading.{Gives, first, opened};
ghost use Rattle.parser.specs.StatementReading as reading;
ghost use Rattle.parser.specs.StatementReading.{readers, readers_at};

use crate::parser::Parser;
use crate::refusal::Refusal;
use ada_tree::{
    Alternative, CaseChoices, Declaration, ElsifPart, ExceptionChoice, Expr, Handler, Identifier,
    Iteration, Stmt,
};
use lexer::{Delimiter, Token, TokenKind, Word};

// Statements without statements in them.
impl<'a> Parser<'a> {
    #[inline(never)]
    fn null(&mut self) -> Result<Stmt, Refusal>
        ensures { Gives stmt_tree result self.new.rest.now (reading.null_at self.old.rest.now) }
    {
        let place = self.word(Word::Null)?;
        self.mark(Delimiter::Semicolon)?;
        Ok(Stmt::Null(place))
    }

    /// An assignment or a call.
    #[inline(never)]
    fn named(&mut self, levels: u8) -> Result<Stmt, Refusal>
        ensures { Gives stmt_tree result self.new.rest.now (reading.named_at levels self.old.rest.now) }
    {
        let name = self.name(levels)?;
        let value = self.initial_part(levels)?;
        self.mark(Delimiter::Semicolon)?;
        match value {
            Some(value) => Ok(Stmt::Assignment(name, value)),
            None => Ok(Stmt::Call(name)),
        }
    }

    fn condition_part(&mut self, levels: u8) -> Result<Option<Expr>, Refusal>
        ensures { Gives (optional_tree expr_tree) result self.new.rest.now (reading.condition_part levels self.old.rest.now) }
    {
        if !self.at_word(Word::When) {
            return Ok(None);
        }
        self.word(Word::When)?;
        let condition = self.expression(levels)?;
        Ok(Some(condition))
    }

    #[inline(never)]
    fn exit(&mut self, levels: u8) -> Result<Stmt, Refusal>
        ensures { Gives stmt_tree result self.new.rest.now (reading.exit_at levels self.old.rest.now) }
    {
        let place = self.word(Word::Exit)?;
        let condition = self.condition_part(levels)?;
        self.mark(Delimiter::Semicolon)?;
        Ok(Stmt::Exit(place, condition))
    }

    fn value_part(&mut self, levels: u8) -> Result<Option<Expr>, Refusal>
        ensures { Gives (optional_tree expr_tree) result self.new.rest.now (reading.value_part levels self.old.rest.now) }
    {
        if self.at_mark(Delimiter::Semicolon) {
            return Ok(None);
        }
        let value = self.expression(levels)?;
        Ok(Some(value))
    }

    #[inline(never)]
    fn return_(&mut self, levels: u8) -> Result<Stmt, Refusal>
        ensures { Gives stmt_tree result self.new.rest.now (reading.return_at levels self.old.rest.now) }
    {
        let place = self.word(Word::Return)?;
        let value = self.value_part(levels)?;
        self.mark(Delimiter::Semicolon)?;
        Ok(Stmt::Return(place, value))
    }

    fn name_part(&mut self) -> Result<Option<Identifier>, Refusal>
        ensures { Gives (λ name. name) result self.new.rest.now (reading.name_part self.old.rest.now) }
    {
        if !self.at_identifier() {
            return Ok(None);
        }
        let name = self.identifier()?;
        Ok(Some(name))
    }

    #[inline(never)]
    fn raise(&mut self) -> Result<Stmt, Refusal>
        ensures { Gives stmt_tree result self.new.rest.now (reading.raise_at self.old.rest.now) }
    {
        let place = self.word(Word::Raise)?;
        let name = self.name_part()?;
        self.mark(Delimiter::Semicolon)?;
        Ok(Stmt::Raise(place, name))
    }

    #[inline(never)]
    fn delay(&mut self, levels: u8) -> Result<Stmt, Refusal>
        ensures { Gives stmt_tree result self.new.rest.now (reading.delay_at levels self.old.rest.now) }
    {
        let place = self.word(Word::Delay)?;
        if self.at_word(Word::Until) {
            self.word(Word::Until)?;
            let time = self.expression(levels)?;
            self.mark(Delimiter::Semicolon)?;
            return Ok(Stmt::DelayUntil(place, time));
        }
        let duration = self.expression(levels)?;
        self.mark(Delimiter::Semicolon)?;
        Ok(Stmt::Delay(place, duration))
    }

    #[inline(never)]
    fn abort(&mut self) -> Result<Stmt, Refusal>
        ensures { Gives stmt_tree result self.new.rest.now (reading.abort_at self.old.rest.now) }
    {
        let place = self.word(Word::Abort)?;
        let name = self.identifier()?;
        self.mark(Delimiter::Semicolon)?;
        Ok(Stmt::Abort(place, name))
    }

    /// A dot and an identifier, if they are there.
    pub(crate) fn component_part(&mut self) -> Result<Option<Identifier>, Refusal>
        ensures { Gives (λ name. name) result self.new.rest.now (reading.component_part self.old.rest.now) }
    {
        if !self.at_mark(Delimiter::Dot) {
            return Ok(None);
        }
        self.mark(Delimiter::Dot)?;
        let name = self.identifier()?;
        Ok(Some(name))
    }

    #[inline(never)]
    fn requeue(&mut self) -> Result<Stmt, Refusal>
        ensures { Gives stmt_tree result self.new.rest.now (reading.requeue_at self.old.rest.now) }
    {
        let place = self.word(Word::Requeue)?;
        let first = self.identifier()?;
        let second = self.component_part()?;
        self.mark(Delimiter::Semicolon)?;
        Ok(Stmt::Requeue(place, first, second))
    }

    #[inline(never)]
    fn accept(&mut self) -> Result<Stmt, Refusal>
        ensures { Gives stmt_tree result self.new.rest.now (reading.accept_at self.old.rest.now) }
    {
        let place = self.word(Word::Accept)?;
        let name = self.identifier()?;
        self.mark(Delimiter::Semicolon)?;
        Ok(Stmt::Accept(place, name))
    }

    /// Goes past any token.
    fn any(&mut self) -> Result<(), Refusal>
        ensures { Gives (λ _. tt) result self.new.rest.now (reading.any_at self.old.rest.now) }
    {
        match self.rest {
            [_, rest @ ..] => {
                self.rest = rest;
                Ok(())
            }
            [] => Err(self.refusal(false)),
        }
    }

    /// Goes to the next `select`, and past it: `end` must be before it.
    fn selected(&mut self) -> Result<(), Refusal>
        ensures { Gives (λ _. tt) result self.new.rest.now (reading.selected_at false self.old.rest.now) }
    {
        let mut behind_end = false;
        while !self.at_word(Word::Select) {
            behind_end = self.at_word(Word::End);
            self.any()?;
        }
        if !behind_end {
            return Err(self.refusal(false));
        }
        self.any()
    }

    #[inline(never)]
    fn select(&mut self) -> Result<Stmt, Refusal>
        ensures { Gives stmt_tree result self.new.rest.now (reading.select_at self.old.rest.now) }
    {
        let place = self.word(Word::Select)?;
        self.selected()?;
        self.mark(Delimiter::Semicolon)?;
        Ok(Stmt::Select(place))
    }
}

// Parts of statements without statements in them.
impl<'a> Parser<'a> {
    fn choice_list(&mut self, levels: u8) -> Result<Vec<Expr>, Refusal>
        ensures { Gives (λ all. map expr_tree all.items) result self.new.rest.now (reading.choice_list_at levels self.old.rest.now) }
    {
        let mut all = Vec::new(self.alloc);
        let head = self.expression(levels)?;
        all.push(head)?;
        while self.at_mark(Delimiter::VerticalLine) {
            self.mark(Delimiter::VerticalLine)?;
            let next = self.expression(levels)?;
            all.push(next)?;
        }
        Ok(all)
    }

    fn choices(&mut self, levels: u8) -> Result<CaseChoices, Refusal>
        ensures { Gives choices_tree result self.new.rest.now (reading.choices_at levels self.old.rest.now) }
    {
        if self.at_word(Word::Others) {
            let place = self.word(Word::Others)?;
            return Ok(CaseChoices::Others(place));
        }
        let all = self.choice_list(levels)?;
        Ok(CaseChoices::Values(all))
    }

    /// What is before the statements of a loop, and its place.
    #[inline(never)]
    fn iteration(&mut self, levels: u8) -> Result<(u32, Iteration), Refusal>
        ensures { Gives (λ x. (x.0, iteration_tree x.1)) result self.new.rest.now (reading.iteration_at levels self.old.rest.now) }
    {
        if self.at_word(Word::While) {
            let place = self.word(Word::While)?;
            let condition = self.expression(levels)?;
            self.word(Word::Loop)?;
            return Ok((place, Iteration::While(condition)));
        }
        if self.at_word(Word::For) {
            let place = self.word(Word::For)?;
            let parameter = self.identifier()?;
            self.word(Word::In)?;
            let reversed = self.passes(Word::Reverse)?;
            let range = self.range(levels)?;
            self.word(Word::Loop)?;
            return Ok((place, Iteration::For(parameter, reversed, range)));
        }
        let place = self.word(Word::Loop)?;
        Ok((place, Iteration::Forever))
    }

    fn exception_choice(&mut self) -> Result<ExceptionChoice, Refusal>
        ensures { Gives (λ choice. choice) result self.new.rest.now (reading.exception_choice_at self.old.rest.now) }
    {
        if self.at_word(Word::Others) {
            let place = self.word(Word::Others)?;
            return Ok(ExceptionChoice::Others(place));
        }
        let name = self.identifier()?;
        Ok(ExceptionChoice::Exception(name))
    }

    fn exception_list(&mut self) -> Result<Vec<ExceptionChoice>, Refusal>
        ensures { Gives (λ all. all.items) result self.new.rest.now (reading.exception_list_at self.old.rest.now) }
    {
        let mut all = Vec::new(self.alloc);
        let head = self.exception_choice()?;
        all.push(head)?;
        while self.at_mark(Delimiter::VerticalLine) {
            self.mark(Delimiter::VerticalLine)?;
            let next = self.exception_choice()?;
            all.push(next)?;
        }
        Ok(all)
    }

    /// What is before the statements of a block, and its place.
    fn block_start(&mut self, levels: u8) -> Result<(u32, Vec<Declaration>), Refusal>
        ensures { Gives (λ x. (x.0, map declaration_tree x.1.items)) result self.new.rest.now (reading.block_start_at levels self.old.rest.now) }
    {
        if self.at_word(Word::Declare) {
            let place = self.word(Word::Declare)?;
            let declarations = self.declarations(levels)?;
            self.word(Word::Begin)?;
            return Ok((place, declarations));
        }
        let place = self.word(Word::Begin)?;
        Ok((place, Vec::new(self.alloc)))
    }

    fn at_statement(&self) -> bool
        ensures { result ≡ reading.begins_statement (first self.now.rest.now) }
    {
        let [token, ..] = self.rest else {
            return false;
        };
        begins_statement(&token.kind)
    }
}

/// Can a statement begin with this token?
fn begins_statement(kind: &TokenKind) -> bool
    ensures { result ≡ reading.can_begin kind.now }
{
    match kind {
        TokenKind::Identifier(_) => true,
        TokenKind::Word(word) => matches!(
            word,
            Word::Null
                | Word::Exit
                | Word::Return
                | Word::Raise
                | Word::Delay
                | Word::If
                | Word::Case
                | Word::Loop
                | Word::While
                | Word::For
                | Word::Begin
                | Word::Declare
                | Word::Abort
                | Word::Requeue
                | Word::Accept
                | Word::Select
        ),
        _ => false,
    }
}

// Statements with statements in them, and their parts.
impl<'a> Parser<'a> {
    #[cycle(statement)]
    fn elsif(&mut self, levels: u8) -> Result<ElsifPart, Refusal>
        ensures { Gives elsif_tree result self.new.rest.now (reading.elsif_at (readers_at levels) self.old.rest.now) }
    {
        self.word(Word::Elsif)?;
        let condition = self.expression(levels)?;
        self.word(Word::Then)?;
        let statements = self.statements(levels)?;
        Ok(ElsifPart {
            condition,
            statements,
        })
    }

    #[cycle(statement)]
    fn elsif_list(&mut self, levels: u8) -> Result<Vec<ElsifPart>, Refusal>
        ensures { Gives (λ all. map elsif_tree all.items) result self.new.rest.now (reading.elsif_list_at (readers_at levels) self.old.rest.now) }
    {
        let mut all = Vec::new(self.alloc);
        while self.at_word(Word::Elsif) {
            let next = self.elsif(levels)?;
            all.push(next)?;
        }
        Ok(all)
    }

    #[cycle(statement)]
    fn else_part(&mut self, levels: u8) -> Result<Vec<Stmt>, Refusal>
        ensures { Gives (λ all. stmt_trees all.items) result self.new.rest.now (reading.else_at (readers_at levels) self.old.rest.now) }
    {
        if !self.at_word(Word::Else) {
            return Ok(Vec::new(self.alloc));
        }
        self.word(Word::Else)?;
        let all = self.statements(levels)?;
        Ok(all)
    }

    #[cycle(statement)]
    fn if_statement(&mut self, levels: u8) -> Result<Stmt, Refusal>
        ensures { Gives stmt_tree result self.new.rest.now (opened (readers levels) reading.if_at self.old.rest.now) }
    {
        let inside = self.open(levels)?;
        let place = self.word(Word::If)?;
        let condition = self.expression(inside)?;
        self.word(Word::Then)?;
        let then_part = self.statements(inside)?;
        let elsif_parts = self.elsif_list(inside)?;
        let else_part = self.else_part(inside)?;
        self.word(Word::End)?;
        self.word(Word::If)?;
        self.mark(Delimiter::Semicolon)?;
        Ok(Stmt::conditional(place, condition, then_part, elsif_parts, else_part))
    }

    #[cycle(statement)]
    fn alternative(&mut self, levels: u8) -> Result<Alternative, Refusal>
        ensures { Gives alternative_tree result self.new.rest.now (reading.alternative_at (readers_at levels) self.old.rest.now) }
    {
        let place = self.word(Word::When)?;
        let choices = self.choices(levels)?;
        self.mark(Delimiter::Arrow)?;
        let statements = self.statements(levels)?;
        Ok(Alternative {
            place,
            choices,
            statements,
        })
    }

    #[cycle(statement)]
    fn alternative_list(&mut self, levels: u8) -> Result<Vec<Alternative>, Refusal>
        ensures { Gives (λ all. map alternative_tree all.items) result self.new.rest.now (reading.alternative_list_at (readers_at levels) self.old.rest.now) }
    {
        let mut all = Vec::new(self.alloc);
        let head = self.alternative(levels)?;
        all.push(head)?;
        while self.at_word(Word::When) {
            let next = self.alternative(levels)?;
            all.push(next)?;
        }
        Ok(all)
    }

    #[cycle(statement)]
    fn case_statement(&mut self, levels: u8) -> Result<Stmt, Refusal>
        ensures { Gives stmt_tree result self.new.rest.now (opened (readers levels) reading.case_at self.old.rest.now) }
    {
        let inside = self.open(levels)?;
        let place = self.word(Word::Case)?;
        let value = self.expression(inside)?;
        self.word(Word::Is)?;
        let alternatives = self.alternative_list(inside)?;
        self.word(Word::End)?;
        self.word(Word::Case)?;
        self.mark(Delimiter::Semicolon)?;
        Ok(Stmt::case(place, value, alternatives))
    }

    #[cycle(statement)]
    #[inline(never)]
    fn loop_statement(&mut self, levels: u8) -> Result<Stmt, Refusal>
        ensures { Gives stmt_tree result self.new.rest.now (opened (readers levels) reading.loop_at self.old.rest.now) }
    {
        let inside = self.open(levels)?;
        let (place, iteration) = self.iteration(inside)?;
        let statements = self.statements(inside)?;
        self.word(Word::End)?;
        self.word(Word::Loop)?;
        self.mark(Delimiter::Semicolon)?;
        Ok(Stmt::iterated(place, iteration, statements))
    }

    #[cycle(statement)]
    fn handler(&mut self, levels: u8) -> Result<Handler, Refusal>
        ensures { Gives handler_tree result self.new.rest.now (reading.handler_at (readers_at levels).statements self.old.rest.now) }
    {
        self.word(Word::When)?;
        let choices = self.exception_list()?;
        self.mark(Delimiter::Arrow)?;
        let statements = self.statements(levels)?;
        Ok(Handler {
            choices,
            statements,
        })
    }

    #[cycle(statement)]
    fn handler_list(&mut self, levels: u8) -> Result<Vec<Handler>, Refusal>
        ensures { Gives (λ all. map handler_tree all.items) result self.new.rest.now
            (reading.handler_list_at (readers_at levels).statements self.old.rest.now) }
    {
        let mut all = Vec::new(self.alloc);
        let head = self.handler(levels)?;
        all.push(head)?;
        while self.at_word(Word::When) {
            let next = self.handler(levels)?;
            all.push(next)?;
        }
        Ok(all)
    }

    /// The handlers after `exception`, if there are any.
    #[cycle(statement)]
    pub(crate) fn handlers(&mut self, levels: u8) -> Result<Vec<Handler>, Refusal>
        ensures { Gives (λ all. handler_trees all.items) result self.new.rest.now (reading.handlers_at (readers_at levels).statements self.old.rest.now) }
    {
        if !self.at_word(Word::Exception) {
            return Ok(Vec::new(self.alloc));
        }
        self.word(Word::Exception)?;
        let all = self.handler_list(levels)?;
        Ok(all)
    }

    #[cycle(statement)]
    fn block_statement(&mut self, levels: u8) -> Result<Stmt, Refusal>
        ensures { Gives stmt_tree result self.new.rest.now (opened (readers levels) reading.block_at self.old.rest.now) }
    {
        let inside = self.open(levels)?;
        let (place, declarations) = self.block_start(inside)?;
        let statements = self.statements(inside)?;
        let handlers = self.handlers(inside)?;
        self.word(Word::End)?;
        self.mark(Delimiter::Semicolon)?;
        Ok(Stmt::block(place, declarations, statements, handlers))
    }

    #[cycle(statement)]
    fn statement(&mut self, levels: u8) -> Result<Stmt, Refusal>
        ensures { Gives stmt_tree result self.new.rest.now (reading.statement_at levels (readers levels) self.old.rest.now) }
    {
        match self.next_word() {
            Some(Word::Null) => self.null(),
            Some(Word::Exit) => self.exit(levels),
            Some(Word::Return) => self.return_(levels),
            Some(Word::Raise) => self.raise(),
            Some(Word::Delay) => self.delay(levels),
            Some(Word::If) => self.if_statement(levels),
            Some(Word::Case) => self.case_statement(levels),
            Some(Word::Loop | Word::While | Word::For) => self.loop_statement(levels),
            Some(Word::Begin | Word::Declare) => self.block_statement(levels),
            Some(Word::Abort) => self.abort(),
            Some(Word::Requeue) => self.requeue(),
            Some(Word::Accept) => self.accept(),
            Some(Word::Select) => self.select(),
            _ => self.named(levels),
        }
    }

    /// One or more statements.
    #[cycle(statement)]
    pub(crate) fn statements(&mut self, levels: u8) -> Result<Vec<Stmt>, Refusal>
        ensures { Gives (λ all. map stmt_tree all.items) result self.new.rest.now (reading.statement_list_at levels (readers levels) self.old.rest.now) }
    {
        let mut all = Vec::new(self.alloc);
        let head = self.statement(levels)?;
        all.push(head)?;
        while self.at_statement() {
            let next = self.statement(levels)?;
            all.push(next)?;
        }
        Ok(all)
    }
}
