//! Every fault of a source text (docs/FORMATS.md, "Commands").
ghost use Rattle.std.specs.Prelude.{◌≡◌, ◌≢◌, ◌∷◌, [], IfErr, IfOk};
ghost use Rattle.base.specs.declared.faults.TheConstants.{MEMORY_REFUSED};
ghost use Rattle.compiler.specs.ada_tree.specs.ProgramTree.{ProgramTree};
ghost use Rattle.adarun.specs.Accepted.{IsTreeOf};
ghost use Rattle.adarun.specs.TextFaults.{AreFaultsOfTree, AreTextFaults};

use crate::compilation::compile;
use base::faults::MEMORY_REFUSED;
use fault_numbers::spelling_numbers;
use lexer::{Fault, tokens};
use parser::parse;
use ravenscar::broken_rules;
use std::alloc::{AllocError, Global};

// This fault alone.
fn alone(alloc: Global, fault: Fault) -> Result<Vec<Fault>, AllocError>
    ensures { IfOk result (λ faults. (faults.items ≡ fault ∷ []) × (fault.number ≢ MEMORY_REFUSED)) }
{
    if fault.number == MEMORY_REFUSED {
        return Err(AllocError);
    }
    let mut faults = Vec::new(alloc);
    faults.push(fault)?;
    Ok(faults)
}

/// Every fault of a source text (docs/LANGUAGE.md). Of a text that has no tokens (1 to 5), or whose tokens have no tree (6 and 7), this is the first one
/// alone. Of a text with a tree it is each rule from 10 to 39 and from 70 to 73 that the tree breaks, once, in the order of places and at one place in that
/// of numbers; of an accepted one 23, at main, where `compile` refuses its code, and else none.
///
/// # Errors
/// Where memory was refused.
pub fn text_faults(alloc: Global, source: &[u8]) -> Result<Vec<Fault>, AllocError>
    ensures faults { IfOk result (λ faults. AreTextFaults source.now faults.items) }
    ensures tree { (tree : ProgramTree) → IsTreeOf tree source.now → IfOk result (λ faults. AreFaultsOfTree source.now tree faults.items) }
{
    spelling_numbers();
    let list = match tokens(alloc, source) {
        Ok(list) => list,
        Err(fault) => return alone(alloc, fault),
    };
    let program = match parse(alloc, &list) {
        Ok(program) => program,
        Err(fault) => return alone(alloc, fault),
    };
    let broken = broken_rules(alloc, &program)?;
    if !broken.is_empty() {
        return Ok(broken);
    }
    match compile(alloc, source) {
        Ok(_) => Ok(broken),
        Err(fault) => alone(alloc, fault),
    }
}
