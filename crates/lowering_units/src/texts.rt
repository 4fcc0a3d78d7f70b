//! Lines of text (RM A.10.7): `Put` of Control_IO, with the text as a label and the value whose image is in it.

use ada2012_lexer::Span;
use ada2012_names::{EntityId, Predefined};
use ada2012_tree::{
    Association, AttributeName, BinaryOperator, Clause, Expr, ExprKind, Identifier, Name, Selector,
    Statement, Unit,
};
use lowering_text::{Changes, NoteKind, Whole, called, last_identifier};
use std::alloc::{AllocError, Global};

const LABEL_LENGTH: usize = 40;

/// How a value is written as an Integer.
#[derive(Clone, Copy, PartialEq, Eq)]
enum Form {
    /// It is one.
    Plain,
    /// It is a truth value.
    Truth,
    /// It is converted.
    Converted,
}

/// An operand of `&` in a text.
#[derive(Clone, Copy)]
enum Piece {
    /// A string literal, with its quotation marks.
    Literal(Span),
    /// The image of this value.
    Image(Span, Form),
    /// What an occurrence of an exception says.
    Occurrence,
}

/// The calls for a line of text, as far as they are written.
#[derive(Drop)]
struct Line {
    calls: Vec<u8>,
    // What comes before the next value.
    label: Vec<u8>,
    // Is anything of the text left out?
    cut: bool,
}

// How a value of a subtype is written, none where it is no number and no truth value.
fn form_of(whole: &Whole<'_>, subtype: Option<EntityId>) -> Option<Form> {
    let Some(subtype) = subtype else {
        return Some(Form::Converted);
    };
    match whole.names.predefined(whole.names.type_of(subtype)) {
        Some(Predefined::Integer) => Some(Form::Plain),
        Some(Predefined::Boolean) => Some(Form::Truth),
        Some(_) => None,
        None => Some(Form::Converted),
    }
}

fn is_image(attribute: &AttributeName) -> bool {
    match attribute {
        AttributeName::Identifier(identifier) => {
            let name = identifier.name.as_bytes();
            name == "IMAGE".as_bytes() || name == "IMG".as_bytes()
        }
        AttributeName::Word(_, _) => false,
    }
}

// The entity that a name without parentheses denotes, of which these are the selectors.
fn entity_of(whole: &Whole<'_>, prefix: &Identifier, selectors: &[Selector]) -> Option<EntityId> {
    match selectors {
        [] => whole.denoted(prefix.span),
        [.., Selector::Component(_, identifier)] => whole.denoted(identifier.span),
        _ => None,
    }
}

// `T'Image (E)`.
fn image_of_subtype(
    whole: &Whole<'_>,
    name: &Name,
    selectors: &[Selector],
    arguments: &[Association],
) -> Option<Piece> {
    let [argument] = arguments else {
        return None;
    };
    let subtype = entity_of(whole, &name.prefix, selectors)?;
    let form = form_of(whole, Some(subtype))?;
    Some(Piece::Image(argument.value.span, form))
}

// `X'Image`, the attribute beginning at this place.
fn image_of_object(
    whole: &Whole<'_>,
    name: &Name,
    selectors: &[Selector],
    end: u32,
) -> Option<Piece> {
    let subtype = match entity_of(whole, &name.prefix, selectors) {
        Some(object) => whole.names.subtype_of(object),
        None => None,
    };
    let form = form_of(whole, subtype)?;
    let value = Span {
        start: name.span.start,
        end_: end,
    };
    Some(Piece::Image(value, form))
}

// Is it a call of one of the functions that say something of an occurrence?
fn is_of_occurrence(whole: &Whole<'_>, name: &Name) -> bool {
    let Some((function, _)) = called(name) else {
        return false;
    };
    match whole.denoted(function.span) {
        Some(id) => matches!(
            whole.names.predefined(id),
            Some(
                Predefined::ExceptionName
                    | Predefined::ExceptionMessage
                    | Predefined::ExceptionInformation
            )
        ),
        None => false,
    }
}

fn piece_of_name(whole: &Whole<'_>, name: &Name) -> Option<Piece> {
    match name.selectors.as_slice() {
        [
            selectors @ ..,
            Selector::Attribute(_, attribute),
            Selector::Arguments(_, arguments),
        ] if is_image(attribute) => image_of_subtype(whole, name, selectors, arguments),
        [selectors @ .., Selector::Attribute(span, attribute)] if is_image(attribute) => {
            image_of_object(whole, name, selectors, span.start)
        }
        _ if is_of_occurrence(whole, name) => Some(Piece::Occurrence),
        _ => None,
    }
}

fn piece_of(whole: &Whole<'_>, e: &Expr) -> Option<Piece> {
    match &e.kind {
        ExprKind::StringLiteral => Some(Piece::Literal(e.span)),
        ExprKind::Name(name) => piece_of_name(whole, name),
        _ => None,
    }
}

// The operands of `&` in a text, or its only part; none where there is one that has no other words.
fn pieces_of(
    alloc: Global,
    whole: &Whole<'_>,
    text: &Expr,
) -> Result<Option<Vec<Piece>>, AllocError> {
    let mut pieces = Vec::new(alloc);
    let ExprKind::Chain(first, operands) = &text.kind else {
        return match piece_of(whole, text) {
            Some(piece) => {
                pieces.push(piece)?;
                Ok(Some(pieces))
            }
            None => Ok(None),
        };
    };
    match piece_of(whole, first) {
        Some(piece) => pieces.push(piece)?,
        None => return Ok(None),
    }
    for operand in operands {
        match piece_of(whole, &operand.value) {
            Some(piece) if operand.operator == BinaryOperator::Concatenate => pieces.push(piece)?,
            _ => return Ok(None),
        }
    }
    Ok(Some(pieces))
}

// The text that a call writes as a line, if that is what it does.
fn text_of<'a>(whole: &Whole<'_>, name: &'a Name) -> Option<&'a Expr> {
    let (procedure, arguments) = called(name)?;
    let id = whole.denoted(procedure.span)?;
    let [argument] = arguments else {
        return None;
    };
    if whole.names.predefined(id) == Some(Predefined::PutLine) {
        Some(&argument.value)
    } else {
        None
    }
}

impl Line {
    fn new(alloc: Global) -> Line {
        Line {
            calls: Vec::new(alloc),
            label: Vec::new(alloc),
            cut: false,
        }
    }

    // Adds what is between the quotation marks of a literal, with an underline for what a label can't have.
    fn add_literal(&mut self, literal: &[u8]) -> Result<(), AllocError> {
        let [_, characters @ .., _] = literal else {
            return Ok(());
        };
        for c in characters {
            if self.label.len() == LABEL_LENGTH {
                self.cut = true;
                return Ok(());
            }
            let is_kept = matches!(*c, b'!'..=b'~') && *c != b'"';
            self.label.push(if is_kept { *c } else { b'_' })?;
        }
        Ok(())
    }

    // Adds a call with the label up to here and this value, and begins a new label.
    fn add_call(&mut self, alloc: Global, value: &[u8]) -> Result<(), AllocError> {
        if !self.calls.is_empty() {
            self.calls.push(b' ')?;
        }
        self.calls
            .extend_from_slice("Control_IO.Put (\"".as_bytes())?;
        if self.label.is_empty() {
            self.calls.push(b'_')?;
        } else {
            self.calls.extend_from_slice(&self.label)?;
        }
        self.calls.extend_from_slice("\", ".as_bytes())?;
        self.calls.extend_from_slice(value)?;
        self.calls.extend_from_slice(");".as_bytes())?;
        self.label = Vec::new(alloc);
        Ok(())
    }

    // Ends the line: a text without a value has 0, and one after the last value is left out.
    fn end(&mut self, alloc: Global) -> Result<(), AllocError> {
        if self.calls.is_empty() {
            self.add_call(alloc, "0".as_bytes())
        } else {
            self.cut = self.cut || !self.label.is_empty();
            Ok(())
        }
    }
}

// The value of an image as an Integer.
fn value_of_form(changes: &Changes<'_>, span: Span, form: Form) -> Result<Vec<u8>, AllocError> {
    let (before, after) = match form {
        Form::Plain => ("", ""),
        Form::Truth => ("(if ", " then 1 else 0)"),
        Form::Converted => ("Integer (", ")"),
    };
    let mut value = Vec::new(changes.alloc);
    value.extend_from_slice(before.as_bytes())?;
    changes.source.copy(span, &mut value)?;
    value.extend_from_slice(after.as_bytes())?;
    Ok(value)
}

fn add_piece(changes: &Changes<'_>, line: &mut Line, piece: Piece) -> Result<(), AllocError> {
    match piece {
        Piece::Literal(span) => line.add_literal(changes.source.bytes(span)),
        Piece::Image(span, form) => {
            let value = value_of_form(changes, span, form)?;
            line.add_call(changes.alloc, &value)
        }
        Piece::Occurrence => {
            line.cut = true;
            Ok(())
        }
    }
}

// Writes a call of `Put_Line` as calls of `Put`.
fn write_line(changes: &mut Changes<'_>, call: Span, pieces: &[Piece]) -> Result<(), AllocError> {
    let mut line = Line::new(changes.alloc);
    for piece in pieces {
        add_piece(changes, &mut line, *piece)?;
    }
    line.end(changes.alloc)?;
    let Line { calls, cut, .. } = line;
    let note = if cut {
        Some(NoteKind::TextLeftOut)
    } else {
        None
    };
    changes.replace(call, calls, note)
}

// Makes Control_IO visible where Ada.Text_IO is.
fn control_io(changes: &mut Changes<'_>, whole: &Whole<'_>, unit: &Unit) -> Result<(), AllocError> {
    for clause in unit.clauses.as_slice() {
        if let Clause::With(span, names) = clause {
            if names.iter().any(|name| is_text_io(whole, name)) {
                return changes.insert(span.start, "with Control_IO; ".as_bytes());
            }
        }
    }
    Ok(())
}

/// Lines of text become calls of `Put` of Control_IO.
pub fn lower_texts(changes: &mut Changes<'_>, whole: &Whole<'_>) -> Result<(), AllocError> {
    for statement in whole.parts.statements.as_slice() {
        if let Statement::Call(span, name) = statement {
            if let Some(text) = text_of(whole, name) {
                if let Some(pieces) = pieces_of(changes.alloc, whole, text)? {
                    write_line(changes, *span, &pieces)?;
                }
            }
        }
    }
    if changes.requests.is_empty() {
        return Ok(());
    }
    for unit in whole.program.units.as_slice() {
        control_io(changes, whole, unit)?;
    }
    Ok(())
}

fn is_text_io(whole: &Whole<'_>, name: &Name) -> bool {
    let Some(last) = last_identifier(name) else {
        return false;
    };
    match whole.denoted(last.span) {
        Some(id) => whole.names.predefined(id) == Some(Predefined::TextIo),
        None => false,
    }
}
