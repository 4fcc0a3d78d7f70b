//! Where constructs begin and end, and names that are alike.

use crate::source::{Source, is_mark, is_word, span_of};
use ada2012_lexer::{Delimiter, Span, Token};
use ada2012_tree::{Association, Declaration, Identifier, Name, Selector};
use lexer::Word;

/// The bytes of a declaration, with its semicolon.
pub fn declaration_span(declaration: &Declaration) -> Span {
    match declaration {
        Declaration::Object(object) => object.span,
        Declaration::Number(span, _, _) => *span,
        Declaration::Exception(span, _) => *span,
        Declaration::Type(own) => own.span,
        Declaration::Subtype(span, _, _, _) => *span,
        Declaration::Subprogram(span, _, _) => *span,
        Declaration::NullProcedure(span, _, _) => *span,
        Declaration::ExpressionFunction(span, _, _, _) => *span,
        Declaration::SubprogramBody(span, _, _, _) => *span,
        Declaration::Task(task) => task.span,
        Declaration::TaskBody(span, _, _) => *span,
        Declaration::Protected(object) => object.span,
        Declaration::ProtectedBody(span, _, _) => *span,
        Declaration::EntryBody(span, _, _, _, _) => *span,
        Declaration::Use(clause) => clause.span,
        Declaration::Pragma(pragma) => pragma.span,
    }
}

/// Does the span of a part begin within another span?
pub fn begins_in(whole: Span, part: Span) -> bool {
    whole.start <= part.start && part.start < whole.end_
}

/// Are two identifiers the same, whatever the case of letters?
pub fn are_same(left: &Identifier, right: &Identifier) -> bool {
    left.name.as_bytes() == right.name.as_bytes()
}

fn are_same_selectors(left: &Selector, right: &Selector) -> bool {
    match (left, right) {
        (Selector::Component(_, left), Selector::Component(_, right)) => are_same(left, right),
        _ => false,
    }
}

/// Are two names the same identifiers with dots between them?
pub fn are_same_names(left: &Name, right: &Name) -> bool {
    if !are_same(&left.prefix, &right.prefix) || left.selectors.len() != right.selectors.len() {
        return false;
    }
    for (left, right) in left.selectors.iter().zip(right.selectors.iter()) {
        if !are_same_selectors(left, right) {
            return false;
        }
    }
    true
}

/// The identifier with which a name ends, if it is identifiers with dots between them.
pub fn last_identifier(name: &Name) -> Option<&Identifier> {
    match name.selectors.as_slice() {
        [] => Some(&name.prefix),
        [.., Selector::Component(_, identifier)] => Some(identifier),
        _ => None,
    }
}

impl<'a> Source<'a> {
    /// From the last `end` of a construct to the end of this, which is its semicolon.
    pub fn tail(&self, whole: Span) -> Option<Span> {
        let first = self.number_from(whole.start);
        let tokens = self.tokens.get(first..self.number_from(whole.end_))?;
        for token in tokens.iter().rev() {
            if is_word(token, Word::End) {
                return Some(Span {
                    start: token.start,
                    end_: whole.end_,
                });
            }
        }
        None
    }

    /// Where the `end if;` of an if statement begins.
    pub fn if_tail(&self, whole: Span) -> Option<u32> {
        let semicolon = self.token_before(whole.end_)?;
        let word = self.token_before(semicolon.start)?;
        let end = self.token_before(word.start)?;
        if is_word(end, Word::End) {
            Some(end.start)
        } else {
            None
        }
    }

    /// From a place to the first `is` from another place on.
    pub fn head(&self, start: u32, after: u32) -> Option<Span> {
        let is = self.word_from(after, Word::Is)?;
        Some(Span {
            start,
            end_: is.end_,
        })
    }

    /// The identifier after the last `end` of a construct.
    pub fn end_name(&self, whole: Span) -> Option<&'a Token> {
        let tail = self.tail(whole)?;
        let semicolon = self.token_before(whole.end_)?;
        let last = self.token_before(semicolon.start)?;
        if is_word(last, Word::End) || last.start <= tail.start {
            return None;
        }
        Some(last)
    }

    /// The dot at a place after a prefix.
    pub fn dot_from(&self, place: u32) -> Option<Span> {
        let token = self.token_from(place)?;
        if is_mark(token, Delimiter::Dot) {
            Some(span_of(token))
        } else {
            None
        }
    }

    /// Is there a dot before a place?
    pub fn is_selected(&self, place: u32) -> bool {
        match self.token_before(place) {
            Some(token) => is_mark(token, Delimiter::Dot),
            None => false,
        }
    }
}

/// What a name with parentheses at its end has before them, and what is in them.
pub fn called(name: &Name) -> Option<(&Identifier, &[Association])> {
    match name.selectors.as_slice() {
        [Selector::Arguments(_, arguments)] => Some((&name.prefix, arguments.as_slice())),
        [
            ..,
            Selector::Component(_, identifier),
            Selector::Arguments(_, arguments),
        ] => Some((identifier, arguments.as_slice())),
        _ => None,
    }
}
