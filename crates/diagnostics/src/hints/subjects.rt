//! What the tree of a text says of a fault.
ghost use Rattle.std.specs.Prelude.{◌≡◌, ◌++◌, IfOk, OnOk};
ghost use Rattle.ada_tree.specs.ProgramTree.{program_tree};
ghost use Rattle.mismatches.specs.Listed.{AreRemarksOf};
ghost use Rattle.diagnostics.specs.hints.Places.{other_line};
ghost use Rattle.diagnostics.specs.hints.Notes.{other_of, other_place, subject_lines, subject_of, AreNotesOfSubject};

use crate::counterparts::{twice_other, unmatched_other};
use crate::hints::body_faults::{body_fault, put_body_fault_lines};
use crate::hints::calls::put_call_lines_at;
use crate::hints::end_names::{ended_at, put_end_name_lines};
use crate::hints::mismatched::put_mismatch_lines;
use crate::hints::parsed_text::{ParsedText, Reading};
use crate::hints::places::{after_empty, name_at, put_place};
use crate::hints::static_notes::put_static_lines;
use ada_tree::Program;
use base::faults::{
    DECLARED_TWICE, NO_MEANING, NOT_STATIC, UNMATCHED_BODY, WRONG_ARGUMENT_COUNT, WRONG_END_NAME,
    WRONG_STATIC_VALUE,
};
use mismatches::Remarks;
use remedies::TextTokens;
use std::alloc::{AllocError, Global};

/// What a fault is about of which the tree says something.
#[derive(Clone, Copy, Debug, PartialEq, Eq)]
pub(crate) enum Subject {
    /// A name that is declared twice.
    Declarations,
    /// A body and its declaration.
    Bodies,
    /// The name after an `end`.
    EndNames,
    /// The actual parameters of a call.
    Calls,
    /// Types that don't match.
    Types,
    /// An expression that isn't static.
    StaticForms,
    /// The value of a static expression, or a range that is null.
    StaticValues,
}

/// What a fault of this number is about; None where the tree says nothing of it.
pub(crate) fn subject_of(number: u64) -> Option<Subject>
    ensures { result ≡ subject_of number }
{
    if number == u64::from(DECLARED_TWICE) {
        Some(Subject::Declarations)
    } else if number == u64::from(UNMATCHED_BODY) {
        Some(Subject::Bodies)
    } else if number == u64::from(WRONG_END_NAME) {
        Some(Subject::EndNames)
    } else if number == u64::from(WRONG_ARGUMENT_COUNT) {
        Some(Subject::Calls)
    } else if number == u64::from(NO_MEANING) {
        Some(Subject::Types)
    } else if number == u64::from(NOT_STATIC) {
        Some(Subject::StaticForms)
    } else if number == u64::from(WRONG_STATIC_VALUE) {
        Some(Subject::StaticValues)
    } else {
        None
    }
}

fn other_of(subject: Subject, program: &Program, name: &[u8], place: u32) -> Option<u32>
    ensures { result ≡ other_of subject (program_tree program.now) name.now place }
{
    match subject {
        Subject::Declarations => twice_other(program, name, place),
        Subject::Bodies => unmatched_other(program, name, place),
        _ => None,
    }
}

fn other_place(subject: Subject, program: &Program, list: &TextTokens, place: u32) -> Option<u32>
    ensures { result ≡ other_place subject (program_tree program.now) list.now place }
{
    match name_at(place, list) {
        Some(name) => other_of(subject, program, name.as_bytes(), place),
        None => None,
    }
}

fn put_other_line(out: &mut Vec<u8>, text: &[u8], place: Option<u32>) -> Result<(), AllocError>
    ensures { OnOk result (out.new.items ≡ out.old.items ++ other_line text.now place) }
{
    match place {
        Some(place) => {
            out.extend_from_slice(b"the other one is at ")?;
            put_place(out, text, place)?;
            out.extend_from_slice(b"\n")
        }
        None => Ok(()),
    }
}

// The remarks are those of the program.
fn put_subject_lines(
    out: &mut Vec<u8>,
    subject: Subject,
    text: &[u8],
    list: &TextTokens,
    program: &Program,
    place: u32,
    remarks: &Remarks,
) -> Result<(), AllocError>
    requires remarks { AreRemarksOf (program_tree program.now) remarks.now }
    ensures { OnOk result (out.new.items ≡ out.old.items ++ subject_lines subject text.now list.now (program_tree program.now) place) }
{
    match subject {
        Subject::Declarations => {
            put_other_line(out, text, other_place(subject, program, list, place))
        }
        Subject::Bodies => {
            put_body_fault_lines(out, body_fault(place, program))?;
            put_other_line(out, text, other_place(subject, program, list, place))
        }
        Subject::EndNames => put_end_name_lines(out, text, ended_at(place, program)),
        Subject::Calls => put_call_lines_at(out, text, list, place),
        Subject::Types => put_mismatch_lines(out, text, list, remarks.at(NO_MEANING, place)),
        Subject::StaticForms => {
            put_static_lines(out, text, list, program, remarks.at(NOT_STATIC, place))
        }
        Subject::StaticValues => {
            let remark = remarks.at(WRONG_STATIC_VALUE, place);
            put_static_lines(out, text, list, program, remark)
        }
    }
}

/// What the tree says of the text's fault at this place, which is about the subject: lines after an empty one; nothing of a text without a tree, or where
/// there is nothing to say.
///
/// # Errors
/// Where memory was refused.
pub(crate) fn notes_of_subject(
    alloc: Global,
    subject: Subject,
    text: &ParsedText,
    place: u32,
) -> Result<Vec<u8>, AllocError>
    ensures { IfOk result (λ notes. AreNotesOfSubject subject place text.now notes.items) }
{
    match text.reading() {
        Reading::Derived {
            tokens,
            program,
            remarks,
        } => {
            let mut lines = Vec::new(alloc);
            put_subject_lines(
                &mut lines,
                subject,
                text.text(),
                tokens,
                program,
                place,
                remarks,
            )?;
            after_empty(alloc, &lines)
        }
        Reading::Misspelled | Reading::Treeless { .. } => Ok(Vec::new(alloc)),
    }
}
