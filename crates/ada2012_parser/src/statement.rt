//! Reading statements.
ghost use Rattle.std.specs.Prelude.{IfOk, OnOk, map};
ghost use Rattle.ada2012_tree.specs.Spans.{NoTrees, only, trees_of};
ghost use Rattle.ada2012_tree.specs.ExpressionSpans.{expr_spans, identifier_spans, name_spans};
ghost use Rattle.ada2012_tree.specs.SubtypeSpans.{optional};
ghost use Rattle.ada2012_tree.specs.DeclarationSpans.{exception_spans, iteration_spans};
ghost use Rattle.ada2012_tree.specs.StatementSpans.{alternative_spans, body_spans, branch_spans, handler_spans, statement_spans};
ghost use Rattle.ada2012_parser.specs.Reading.{AreReadSince, Reads, ReadsSome, here};

use crate::fault::Stop;
use crate::parser::Parser;
use crate::{Expected, LeftOut};
use ada2012_lexer::Delimiter;
use ada2012_tree::{
    Alternative, Body, Branch, ExceptionChoice, Expr, Handler, Identifier, Iteration, Name,
    Statement,
};
use lexer::Word;

// Statements without statements in them.
impl<'a> Parser<'a> {
    #[inline(never)]
    fn null(&mut self) -> Result<Statement, Stop>
        ensures { IfOk result (λ s. ReadsSome (here self.old) self.old self.new (only (statement_spans s))) }
    {
        let start = self.here();
        self.word(Word::Null)?;
        self.mark(Delimiter::Semicolon)?;
        Ok(Statement::Null(self.since(start)))
    }

    /// An assignment or a call.
    #[inline(never)]
    fn named(&mut self, levels: u8) -> Result<Statement, Stop>
        ensures { IfOk result (λ s. ReadsSome (here self.old) self.old self.new (only (statement_spans s))) }
    {
        let start = self.here();
        let name = self.name(levels)?;
        if !self.at_mark(Delimiter::Assignment) {
            self.mark(Delimiter::Semicolon)?;
            return Ok(Statement::Call(self.since(start), name));
        }
        self.mark(Delimiter::Assignment)?;
        let value = self.expression(levels)?;
        self.mark(Delimiter::Semicolon)?;
        Ok(Statement::Assignment(self.since(start), name, value))
    }

    /// An expression, unless the statement ends here.
    fn optional_value(&mut self, levels: u8) -> Result<Option<Expr>, Stop>
        ensures { IfOk result (λ value. Reads (here self.old) self.old self.new (optional expr_spans value)) }
    {
        if self.at_mark(Delimiter::Semicolon) {
            return Ok(None);
        }
        let value = self.expression(levels)?;
        Ok(Some(value))
    }

    #[inline(never)]
    fn return_(&mut self, levels: u8) -> Result<Statement, Stop>
        ensures { IfOk result (λ s. ReadsSome (here self.old) self.old self.new (only (statement_spans s))) }
    {
        let start = self.here();
        self.word(Word::Return)?;
        if self.at_identifier_before(Delimiter::Colon) {
            return Err(self.left_out(LeftOut::ExtendedReturn));
        }
        let value = self.optional_value(levels)?;
        self.mark(Delimiter::Semicolon)?;
        Ok(Statement::Return(self.since(start), value))
    }

    /// An identifier, if one comes next.
    fn optional_identifier(&mut self) -> Result<Option<Identifier>, Stop>
        ensures { IfOk result (λ name. Reads (here self.old) self.old self.new (optional identifier_spans name)) }
    {
        if !self.at_identifier() {
            return Ok(None);
        }
        let name = self.identifier()?;
        Ok(Some(name))
    }

    /// An expression after this word, if the word comes next.
    fn value_after(&mut self, levels: u8, word: Word) -> Result<Option<Expr>, Stop>
        ensures { IfOk result (λ value. Reads (here self.old) self.old self.new (optional expr_spans value)) }
    {
        if !self.at_word(word) {
            return Ok(None);
        }
        self.word(word)?;
        let value = self.expression(levels)?;
        Ok(Some(value))
    }

    #[inline(never)]
    fn exit(&mut self, levels: u8) -> Result<Statement, Stop>
        ensures { IfOk result (λ s. ReadsSome (here self.old) self.old self.new (only (statement_spans s))) }
    {
        let start = self.here();
        self.word(Word::Exit)?;
        let name = self.optional_identifier()?;
        let condition = self.value_after(levels, Word::When)?;
        self.mark(Delimiter::Semicolon)?;
        Ok(Statement::Exit(self.since(start), name, condition))
    }

    /// A name, unless the statement ends here.
    fn optional_name(&mut self, levels: u8) -> Result<Option<Name>, Stop>
        ensures { IfOk result (λ name. Reads (here self.old) self.old self.new (optional name_spans name)) }
    {
        if self.at_mark(Delimiter::Semicolon) {
            return Ok(None);
        }
        let name = self.name(levels)?;
        Ok(Some(name))
    }

    #[inline(never)]
    fn raise(&mut self, levels: u8) -> Result<Statement, Stop>
        ensures { IfOk result (λ s. ReadsSome (here self.old) self.old self.new (only (statement_spans s))) }
    {
        let start = self.here();
        self.word(Word::Raise)?;
        let name = self.optional_name(levels)?;
        let message = self.value_after(levels, Word::With)?;
        self.mark(Delimiter::Semicolon)?;
        Ok(Statement::Raise(self.since(start), name, message))
    }

    #[inline(never)]
    fn delay(&mut self, levels: u8) -> Result<Statement, Stop>
        ensures { IfOk result (λ s. ReadsSome (here self.old) self.old self.new (only (statement_spans s))) }
    {
        let start = self.here();
        self.word(Word::Delay)?;
        let until = self.passes(Word::Until)?;
        let time = self.expression(levels)?;
        self.mark(Delimiter::Semicolon)?;
        if until {
            return Ok(Statement::DelayUntil(self.since(start), time));
        }
        Ok(Statement::Delay(self.since(start), time))
    }

    #[inline(never)]
    fn pragma_statement(&mut self, levels: u8) -> Result<Statement, Stop>
        ensures { IfOk result (λ s. ReadsSome (here self.old) self.old self.new (only (statement_spans s))) }
    {
        Ok(Statement::Pragma(self.pragma(levels)?))
    }

    /// Why no statement begins here.
    fn no_statement(&self) -> Stop {
        match self.next_word() {
            Some(Word::Abort) => self.left_out(LeftOut::Abort),
            Some(Word::Accept) => self.left_out(LeftOut::Accept),
            Some(Word::Goto) => self.left_out(LeftOut::Goto),
            Some(Word::Requeue) => self.left_out(LeftOut::Requeue),
            Some(Word::Select) => self.left_out(LeftOut::Select),
            None if self.at_mark(Delimiter::LeftLabelBracket) => self.left_out(LeftOut::Goto),
            _ => self.unexpected(Expected::Statement),
        }
    }

    /// A statement that holds none.
    #[inline(never)]
    fn simple_statement(&mut self, levels: u8) -> Result<Statement, Stop>
        ensures { IfOk result (λ s. ReadsSome (here self.old) self.old self.new (only (statement_spans s))) }
    {
        match self.next_word() {
            Some(Word::Null) => self.null(),
            Some(Word::Return) => self.return_(levels),
            Some(Word::Exit) => self.exit(levels),
            Some(Word::Raise) => self.raise(levels),
            Some(Word::Delay) => self.delay(levels),
            Some(Word::Pragma) => self.pragma_statement(levels),
            None if self.at_identifier() => self.named(levels),
            _ => Err(self.no_statement()),
        }
    }
}

// What loops go over, and what handlers take.
impl<'a> Parser<'a> {
    #[inline(never)]
    fn for_iteration(&mut self, levels: u8) -> Result<Iteration, Stop>
        ensures { IfOk result (λ iteration. ReadsSome (here self.old) self.old self.new (iteration_spans iteration)) }
    {
        self.word(Word::For)?;
        let parameter = self.identifier()?;
        if self.at_word(Word::Of) {
            self.word(Word::Of)?;
            let array = self.name(levels)?;
            return Ok(Iteration::Of(parameter, array));
        }
        self.word(Word::In)?;
        let reversed = self.passes(Word::Reverse)?;
        let range = self.discrete_range(levels)?;
        Ok(Iteration::For(parameter, reversed, range))
    }

    #[inline(never)]
    fn while_iteration(&mut self, levels: u8) -> Result<Iteration, Stop>
        ensures { IfOk result (λ iteration. ReadsSome (here self.old) self.old self.new (iteration_spans iteration)) }
    {
        self.word(Word::While)?;
        let condition = self.expression(levels)?;
        Ok(Iteration::While(condition))
    }

    fn iteration(&mut self, levels: u8) -> Result<Iteration, Stop>
        ensures { IfOk result (λ iteration. Reads (here self.old) self.old self.new (iteration_spans iteration)) }
    {
        match self.next_word() {
            Some(Word::For) => self.for_iteration(levels),
            Some(Word::While) => self.while_iteration(levels),
            _ => Ok(Iteration::Forever),
        }
    }

    fn exception_choice(&mut self, levels: u8) -> Result<ExceptionChoice, Stop>
        ensures { IfOk result (λ choice. ReadsSome (here self.old) self.old self.new (only (exception_spans choice))) }
    {
        if self.at_word(Word::Others) {
            return Ok(ExceptionChoice::Others(self.word_span(Word::Others)?));
        }
        Ok(ExceptionChoice::Name(self.name(levels)?))
    }

    #[inline(never)]
    fn exception_choices(&mut self, levels: u8) -> Result<Vec<ExceptionChoice>, Stop>
        ensures { IfOk result (λ all. ReadsSome (here self.old) self.old self.new (trees_of (map exception_spans all.items))) }
    {
        let mut all = Vec::new(self.alloc);
        let first = self.exception_choice(levels)?;
        all.push(first)?;
        while self.at_mark(Delimiter::VerticalLine) {
            self.mark(Delimiter::VerticalLine)?;
            let next = self.exception_choice(levels)?;
            all.push(next)?;
        }
        Ok(all)
    }

    /// The name of an occurrence and its colon, if they are there.
    fn occurrence(&mut self) -> Result<Option<Identifier>, Stop>
        ensures { IfOk result (λ name. Reads (here self.old) self.old self.new (optional identifier_spans name)) }
    {
        if !self.at_identifier_before(Delimiter::Colon) {
            return Ok(None);
        }
        let name = self.identifier()?;
        self.mark(Delimiter::Colon)?;
        Ok(Some(name))
    }
}

// Statements that hold statements.
impl<'a> Parser<'a> {
    /// Does what comes next end a sequence of statements?
    fn at_sequence_end(&self) -> bool {
        matches!(
            self.next_word(),
            Some(Word::End | Word::Else | Word::Elsif | Word::When | Word::Exception)
        )
    }

    /// Statements, one or more.
    #[cycle(statement)]
    #[inline(never)]
    fn sequence(&mut self, levels: u8) -> Result<Vec<Statement>, Stop>
        ensures { IfOk result (λ all. ReadsSome (here self.old) self.old self.new (trees_of (map statement_spans all.items))) }
    {
        let mut all = Vec::new(self.alloc);
        let first = self.statement(levels)?;
        all.push(first)?;
        while !self.at_sequence_end() {
            let next = self.statement(levels)?;
            all.push(next)?;
        }
        Ok(all)
    }

    /// A condition and its statements, after `if` or `elsif`.
    #[cycle(statement)]
    fn branch(&mut self, levels: u8, word: Word) -> Result<Branch, Stop>
        ensures { IfOk result (λ branch. ReadsSome (here self.old) self.old self.new (only (branch_spans branch))) }
    {
        let start = self.here();
        self.word(word)?;
        let condition = self.expression(levels)?;
        self.word(Word::Then)?;
        let statements = self.sequence(levels)?;
        Ok(Branch {
            span: self.since(start),
            condition,
            statements,
        })
    }

    #[cycle(statement)]
    #[inline(never)]
    fn branches(&mut self, levels: u8) -> Result<Vec<Branch>, Stop>
        ensures { IfOk result (λ all. ReadsSome (here self.old) self.old self.new (trees_of (map branch_spans all.items))) }
    {
        let mut all = Vec::new(self.alloc);
        let first = self.branch(levels, Word::If)?;
        all.push(first)?;
        while self.at_word(Word::Elsif) {
            let next = self.branch(levels, Word::Elsif)?;
            all.push(next)?;
        }
        Ok(all)
    }

    /// The statements after `else`, if it is there.
    #[cycle(statement)]
    fn else_part(&mut self, levels: u8) -> Result<Vec<Statement>, Stop>
        ensures { IfOk result (λ all. Reads (here self.old) self.old self.new (trees_of (map statement_spans all.items))) }
    {
        if !self.at_word(Word::Else) {
            return Ok(Vec::new(self.alloc));
        }
        self.word(Word::Else)?;
        self.sequence(levels)
    }

    /// Passes `end`, this word and a semicolon.
    fn end_of(&mut self, word: Word) -> Result<(), Stop>
        ensures { OnOk result (ReadsSome (here self.old) self.old self.new NoTrees) }
    {
        self.word(Word::End)?;
        self.word(word)?;
        self.mark(Delimiter::Semicolon)
    }

    #[cycle(statement)]
    #[inline(never)]
    fn if_statement(&mut self, levels: u8) -> Result<Statement, Stop>
        ensures { IfOk result (λ s. ReadsSome (here self.old) self.old self.new (only (statement_spans s))) }
    {
        let start = self.here();
        let inside = self.open(levels)?;
        let branches = self.branches(inside)?;
        let other = self.else_part(inside)?;
        self.end_of(Word::If)?;
        Ok(Statement::conditional(self.since(start), branches, other))
    }

    #[cycle(statement)]
    fn alternative(&mut self, levels: u8) -> Result<Alternative, Stop>
        ensures { IfOk result (λ alternative. ReadsSome (here self.old) self.old self.new (only (alternative_spans alternative))) }
    {
        let start = self.here();
        self.word(Word::When)?;
        let choices = self.choices(levels)?;
        self.mark(Delimiter::Arrow)?;
        let statements = self.sequence(levels)?;
        Ok(Alternative {
            span: self.since(start),
            choices,
            statements,
        })
    }

    #[cycle(statement)]
    #[inline(never)]
    fn alternatives(&mut self, levels: u8) -> Result<Vec<Alternative>, Stop>
        ensures { IfOk result (λ all. ReadsSome (here self.old) self.old self.new (trees_of (map alternative_spans all.items))) }
    {
        let mut all = Vec::new(self.alloc);
        let first = self.alternative(levels)?;
        all.push(first)?;
        while self.at_word(Word::When) {
            let next = self.alternative(levels)?;
            all.push(next)?;
        }
        Ok(all)
    }

    #[cycle(statement)]
    #[inline(never)]
    fn case(&mut self, levels: u8) -> Result<Statement, Stop>
        ensures { IfOk result (λ s. ReadsSome (here self.old) self.old self.new (only (statement_spans s))) }
    {
        let start = self.here();
        let inside = self.open(levels)?;
        self.word(Word::Case)?;
        let value = self.expression(inside)?;
        self.word(Word::Is)?;
        let alternatives = self.alternatives(inside)?;
        self.end_of(Word::Case)?;
        Ok(Statement::case(self.since(start), value, alternatives))
    }

    /// A loop statement, whose name was read from this place on, if it has one.
    #[cycle(statement)]
    #[inline(never)]
    fn loop_after(
        &mut self,
        levels: u8,
        start: u32,
        name: Option<Identifier>,
    ) -> Result<Statement, Stop>
        requires { AreReadSince start self.old (optional identifier_spans name) }
        ensures { IfOk result (λ s. ReadsSome start self.old self.new (only (statement_spans s))) }
    {
        let inside = self.open(levels)?;
        let iteration = self.iteration(inside)?;
        self.word(Word::Loop)?;
        let statements = self.sequence(inside)?;
        self.word(Word::End)?;
        self.word(Word::Loop)?;
        self.end_name()?;
        self.mark(Delimiter::Semicolon)?;
        Ok(Statement::iterated(self.since(start), name, iteration, statements))
    }

    /// A block, whose name was read from this place on, if it has one.
    #[cycle(statement)]
    #[inline(never)]
    fn block_after(
        &mut self,
        levels: u8,
        start: u32,
        name: Option<Identifier>,
    ) -> Result<Statement, Stop>
        requires { AreReadSince start self.old (optional identifier_spans name) }
        ensures { IfOk result (λ s. ReadsSome start self.old self.new (only (statement_spans s))) }
    {
        let inside = self.open(levels)?;
        self.passes(Word::Declare)?;
        let body = self.body(inside, true)?;
        self.end_name()?;
        self.mark(Delimiter::Semicolon)?;
        Ok(Statement::block(self.since(start), name, body))
    }

    /// A loop or a block, whose name was read from this place on, if it has one.
    #[cycle(statement)]
    fn compound_after(
        &mut self,
        levels: u8,
        start: u32,
        name: Option<Identifier>,
    ) -> Result<Statement, Stop>
        requires { AreReadSince start self.old (optional identifier_spans name) }
        ensures { IfOk result (λ s. ReadsSome start self.old self.new (only (statement_spans s))) }
    {
        match self.next_word() {
            Some(Word::Loop | Word::For | Word::While) => self.loop_after(levels, start, name),
            Some(Word::Declare | Word::Begin) => self.block_after(levels, start, name),
            _ => Err(self.no_statement()),
        }
    }

    /// A loop or a block with its name.
    #[cycle(statement)]
    fn labelled(&mut self, levels: u8) -> Result<Statement, Stop>
        ensures { IfOk result (λ s. ReadsSome (here self.old) self.old self.new (only (statement_spans s))) }
    {
        let start = self.here();
        let name = self.identifier()?;
        self.mark(Delimiter::Colon)?;
        self.compound_after(levels, start, Some(name))
    }

    #[cycle(statement)]
    pub(crate) fn statement(&mut self, levels: u8) -> Result<Statement, Stop>
        ensures { IfOk result (λ s. ReadsSome (here self.old) self.old self.new (only (statement_spans s))) }
    {
        match self.next_word() {
            Some(Word::If) => self.if_statement(levels),
            Some(Word::Case) => self.case(levels),
            Some(Word::Loop | Word::For | Word::While | Word::Declare | Word::Begin) => {
                self.compound_after(levels, self.here(), None)
            }
            None if self.at_identifier_before(Delimiter::Colon) => self.labelled(levels),
            _ => self.simple_statement(levels),
        }
    }
}

// Bodies.
impl<'a> Parser<'a> {
    #[cycle(statement)]
    fn handler(&mut self, levels: u8) -> Result<Handler, Stop>
        ensures { IfOk result (λ handler. ReadsSome (here self.old) self.old self.new (only (handler_spans handler))) }
    {
        let start = self.here();
        self.word(Word::When)?;
        let occurrence = self.occurrence()?;
        let choices = self.exception_choices(levels)?;
        self.mark(Delimiter::Arrow)?;
        let statements = self.sequence(levels)?;
        Ok(Handler {
            span: self.since(start),
            occurrence,
            choices,
            statements,
        })
    }

    /// Handlers, one or more.
    #[cycle(statement)]
    #[inline(never)]
    fn handler_list(&mut self, levels: u8) -> Result<Vec<Handler>, Stop>
        ensures { IfOk result (λ all. ReadsSome (here self.old) self.old self.new (trees_of (map handler_spans all.items))) }
    {
        let mut all = Vec::new(self.alloc);
        let first = self.handler(levels)?;
        all.push(first)?;
        while self.at_word(Word::When) {
            let next = self.handler(levels)?;
            all.push(next)?;
        }
        Ok(all)
    }

    /// `exception` and handlers, if they are there.
    #[cycle(statement)]
    fn handlers(&mut self, levels: u8) -> Result<Vec<Handler>, Stop>
        ensures { IfOk result (λ all. Reads (here self.old) self.old self.new (trees_of (map handler_spans all.items))) }
    {
        if !self.at_word(Word::Exception) {
            return Ok(Vec::new(self.alloc));
        }
        self.word(Word::Exception)?;
        self.handler_list(levels)
    }

    /// The statements after `begin`, which may be left out if no statements are needed.
    #[cycle(statement)]
    fn begun(&mut self, levels: u8, needed: bool) -> Result<Vec<Statement>, Stop>
        ensures { IfOk result (λ all. Reads (here self.old) self.old self.new (trees_of (map statement_spans all.items))) }
    {
        if !needed && !self.at_word(Word::Begin) {
            return Ok(Vec::new(self.alloc));
        }
        self.word(Word::Begin)?;
        self.sequence(levels)
    }

    /// Declarations, statements and handlers, and `end`. Whether statements are needed says the caller.
    #[cycle(statement)]
    #[inline(never)]
    pub(crate) fn body(&mut self, levels: u8, needed: bool) -> Result<Body, Stop>
        ensures { IfOk result (λ body. ReadsSome (here self.old) self.old self.new (only (body_spans body))) }
    {
        let start = self.here();
        let declarations = self.declarations(levels)?;
        let statements = self.begun(levels, needed)?;
        let handlers = self.handlers(levels)?;
        self.word(Word::End)?;
        Ok(Body::new(self.since(start), declarations, statements, handlers))
    }
}
