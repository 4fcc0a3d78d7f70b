//! What is reported of a text whose code passes a limit of images.
ghost use Rattle.std.specs.Prelude.{◌≡◌, ◌≢◌, ◌⊎◌, [], IfErr, IfOk};
ghost use Rattle.base.specs.declared.faults.TheConstants.{MEMORY_REFUSED};
ghost use Rattle.compiler.specs.ada_tree.specs.Parsed.{IsParsed};
ghost use Rattle.compiler.specs.ada_tree.specs.ProgramTree.{program_tree};
ghost use Rattle.compiler.specs.expr_rules.specs.Faults.{IsLeast};
ghost use Rattle.legality.specs.ProgramRules.{IsLegal, program_faults};
ghost use Rattle.lexer.specs.Fault.{memory_fault};
ghost use Rattle.ravenscar.specs.ProgramRules.{IsRestricted, restriction_faults};
ghost use Rattle.adarun.specs.CodeTold.{IsCodeTold, TellsCode, TellsStopOrNone, stop_line};

use ada_tree::{Parsed, Program};
use base::faults::{LIMIT_PASSED, MEMORY_REFUSED};
use compiler::{Stop, first_stop};
use diagnostics::{frame_line, instructions_line, rows_line};
use legality::check;
use lexer::{Fault, Token, tokens};
use parser::parse;
use ravenscar::{Accepted, restrict};
use std::alloc::{AllocError, Global};

fn stop_line(alloc: Global, text: &[u8], list: &[Token], stop: Stop) -> Result<Vec<u8>, AllocError>
    ensures { IfOk result (λ told. told.items ≡ stop_line text.now list.now stop) }
{
    match stop {
        Stop::Instructions { place, before } => {
            instructions_line(alloc, text, list, place, before)
        }
        Stop::Frame { place } => frame_line(alloc, text, list, place),
        Stop::Rows { place, rows } => rows_line(alloc, text, list, place, rows),
    }
}

// Where the code of an accepted program, which these tokens spell, first passes a limit. Its tables are small: so only its code is refused, or memory.
fn told_of_accepted(
    alloc: Global,
    text: &[u8],
    list: &[Token],
    accepted: &Accepted,
) -> Result<Vec<u8>, AllocError>
    ensures told { IfOk result (λ told. TellsStopOrNone (program_tree accepted.now) text.now list.now told.items) }
    ensures legal { IsLegal (program_tree accepted.now) }
    ensures restricted { IsRestricted (program_tree accepted.now) }
{
    match first_stop(alloc, accepted) {
        Ok(Some(stop)) => stop_line(alloc, text, list, stop),
        Ok(None) => Ok(Vec::new(alloc)),
        Err(_) => Err(AllocError),
    }
}

// Nothing is told of a text that has this fault.
fn nothing_told(alloc: Global, fault: &Fault) -> Result<Vec<u8>, AllocError>
    ensures { IfOk result (λ told. (told.items ≡ []) × (fault.now.number ≢ MEMORY_REFUSED)) }
{
    if fault.number == MEMORY_REFUSED {
        Err(AllocError)
    } else {
        Ok(Vec::new(alloc))
    }
}

// The program, if it breaks no rule from 10 to 39.
fn accepted_of(alloc: Global, program: Program) -> Result<Accepted, Fault>
    requires parsed { IsParsed (program_tree program) }
    ensures same { IfOk result (λ accepted. accepted ≡ program) }
    ensures refused { IfErr result (λ fault. (fault ≡ memory_fault)
        ⊎ (IsLeast (program_faults (program_tree program)) fault ⊎ IsLeast (restriction_faults (program_tree program)) fault)) }
{
    let checked = check(alloc, Parsed::new(program))?;
    restrict(alloc, checked)
}

/// What is reported of the code of a text: where it passes a limit of images, of an accepted one; nothing of another one.
///
/// # Errors
/// Where memory was refused.
pub(crate) fn told_of_code(alloc: Global, text: &[u8]) -> Result<Vec<u8>, AllocError>
    ensures { IfOk result (λ told. TellsCode text.now told.items) }
{
    let list = match tokens(alloc, text) {
        Ok(list) => list,
        Err(fault) => return nothing_told(alloc, &fault),
    };
    let program = match parse(alloc, &list) {
        Ok(program) => program,
        Err(fault) => return nothing_told(alloc, &fault),
    };
    match accepted_of(alloc, program) {
        Ok(accepted) => told_of_accepted(alloc, text, &list, &accepted),
        Err(fault) => nothing_told(alloc, &fault),
    }
}

/// What is reported of the code of a text that is refused by this number at this place: of 23 where the code passes a limit of images. Without a place the
/// text has another fault, or none.
///
/// # Errors
/// Where memory was refused.
pub(crate) fn told_of_limit(
    alloc: Global,
    number: u64,
    place: Option<u32>,
    text: &[u8],
) -> Result<Vec<u8>, AllocError>
    ensures { IfOk result (λ told. IsCodeTold number place text.now told.items) }
{
    match place {
        Some(_) => {
            if number == u64::from(LIMIT_PASSED) {
                told_of_code(alloc, text)
            } else {
                Ok(Vec::new(alloc))
            }
        }
        None => Ok(Vec::new(alloc)),
    }
}
