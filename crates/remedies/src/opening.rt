//! What a token opens or closes.
ghost use Rattle.std.specs.Prelude.{◌≡◌};
ghost use Rattle.remedies.specs.Openings.{action_of, action_of_if, action_of_word, begun, body_of, lead_of, unless_end};

use lexer::{Delimiter, TokenKind, Word};

/// What is open at a place of a text: up to its `end`, or to its closing parenthesis.
#[derive(Clone, Copy, Debug, PartialEq, Eq)]
pub enum Opened {
    /// A parenthesis.
    Parenthesis,
    /// The specification of a package.
    Package,
    /// The body of a package.
    PackageBody,
    /// The declaration of a task.
    Task,
    /// The declaration of a protected object.
    Protected,
    /// The body of a protected object.
    ProtectedBody,
    /// The declarations of the body of a subprogram, an entry or a task.
    Declarations,
    /// The statements and handlers of such a body.
    Statements,
    /// The main procedure before its `begin`.
    Main,
    /// The statements of the main procedure.
    MainStatements,
    /// The declarations of a block.
    Declare,
    /// The statements and handlers of a block.
    Block,
    /// An `if` statement.
    If,
    /// A `case` statement.
    Case,
    /// A loop.
    Loop,
    /// A record type.
    Record,
    /// A `select` statement.
    Select,
}

/// What is open, and how many tokens are before the one that opened it.
#[derive(Clone, Copy, Debug, PartialEq, Eq)]
pub struct Opening {
    pub opened: Opened,
    pub before: usize,
}

/// What the token before another one is, as far as it decides whether that one opens anything.
#[derive(Clone, Copy)]
pub enum Lead {
    /// The word `end`.
    End,
    /// An opening parenthesis.
    Parenthesis,
    /// Any other token, or none.
    Other,
}

/// What a token does to what is open.
#[derive(Clone, Copy)]
pub enum Action {
    /// It opens this.
    Opens(Opened),
    /// It closes what was opened last.
    Closes,
    /// It is `begin`.
    Begins,
    /// It is `body`: what was introduced is a body.
    IntroducesBody,
    /// It introduces what the next `is` opens.
    Introduces(Opened),
    /// It introduces something whose `is` opens nothing.
    IntroducesNothing,
    /// It is `is`.
    OpensIntroduced,
    /// None of these.
    Nothing,
}

/// Which of its kinds the token before it is.
pub(crate) fn lead_of(kind: &TokenKind) -> Lead
    ensures { result ≡ lead_of kind.now }
{
    match kind {
        TokenKind::Word(Word::End) => Lead::End,
        TokenKind::Delimiter(Delimiter::LeftParenthesis) => Lead::Parenthesis,
        _ => Lead::Other,
    }
}

// What a word opens that after `end` only names what is closed.
fn unless_end(lead: Lead, opened: Opened) -> Action
    ensures { result ≡ unless_end lead opened }
{
    match lead {
        Lead::End => Action::Nothing,
        _ => Action::Opens(opened),
    }
}

// An `if` after a parenthesis is that of an expression.
fn action_of_if(lead: Lead) -> Action
    ensures { result ≡ action_of_if lead }
{
    match lead {
        Lead::Other => Action::Opens(Opened::If),
        _ => Action::Nothing,
    }
}

// The `is` of a `case` opens nothing, since `case` did.
fn action_of_word(word: Word, lead: Lead) -> Action
    ensures { result ≡ action_of_word word lead }
{
    match word {
        Word::End => Action::Closes,
        Word::Is => Action::OpensIntroduced,
        Word::Begin => Action::Begins,
        Word::Body => Action::IntroducesBody,
        Word::Package => Action::Introduces(Opened::Package),
        Word::Procedure | Word::Function | Word::Entry => Action::Introduces(Opened::Declarations),
        Word::Task => Action::Introduces(Opened::Task),
        Word::Protected => Action::Introduces(Opened::Protected),
        Word::Type | Word::Subtype => Action::IntroducesNothing,
        Word::Declare => Action::Opens(Opened::Declare),
        Word::If => action_of_if(lead),
        Word::Case => unless_end(lead, Opened::Case),
        Word::Loop => unless_end(lead, Opened::Loop),
        Word::Record => unless_end(lead, Opened::Record),
        Word::Select => unless_end(lead, Opened::Select),
        _ => Action::Nothing,
    }
}

/// What a token of this kind does, by the kind of the token before it.
pub(crate) fn action_of(kind: &TokenKind, lead: Lead) -> Action
    ensures { result ≡ action_of kind.now lead }
{
    match kind {
        TokenKind::Word(word) => action_of_word(*word, lead),
        TokenKind::Delimiter(Delimiter::LeftParenthesis) => Action::Opens(Opened::Parenthesis),
        TokenKind::Delimiter(Delimiter::RightParenthesis) => Action::Closes,
        _ => Action::Nothing,
    }
}

/// What `is` opens after `body`.
pub(crate) fn body_of(opened: Opened) -> Opened
    ensures { result ≡ body_of opened }
{
    match opened {
        Opened::Package => Opened::PackageBody,
        Opened::Protected => Opened::ProtectedBody,
        Opened::Task => Opened::Declarations,
        _ => opened,
    }
}

/// What is open after `begin` in place of declarations; None where `begin` opens a block.
pub(crate) fn begun(opened: Opened) -> Option<Opened>
    ensures { result ≡ begun opened }
{
    match opened {
        Opened::Declarations => Some(Opened::Statements),
        Opened::Main => Some(Opened::MainStatements),
        Opened::Declare => Some(Opened::Block),
        _ => None,
    }
}
