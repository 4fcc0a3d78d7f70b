//! From a source text to an image.
ghost use Rattle.std.specs.Prelude.{◌≡◌, IfErr, IfOk};
ghost use Rattle.compiler.specs.Compiled.{IsBounded, KeepsTokenCounts};
ghost use Rattle.compiler.specs.ada_tree.specs.ProgramTree.{ProgramTree, program_tree};
ghost use Rattle.compiler.specs.expr_code.specs.Coming.{most_steps};
ghost use Rattle.compiler.specs.meaning.specs.SameMeaning.{KeepsCount, SameMeaning};
ghost use Rattle.compiler.specs.package_code.specs.Places.{PlacesTell};
ghost use Rattle.adarun.specs.Accepted.{Compiles, IsAccepted, CompilesAccepted, IsJudged, IsTextFault, IsTreeOf, RefusesText, RefusesTree};
ghost use Rattle.adarun.specs.Naming.{CompilesNamed, imaged, objects_of};
ghost use Rattle.adarun.specs.Operations.{subprogram_names};
ghost use Rattle.legality.specs.ProgramRules.{IsLegal};
ghost use Rattle.image.specs.Rules.{IsWellFormed};
ghost use Rattle.ravenscar.specs.ProgramRules.{IsRestricted};
ghost use Rattle.variable_places.specs.Shown.{program_scopes};

use crate::naming::{ObjectNames, objects_of};
use crate::operations::subprograms_of;
use ada_tree::Parsed;
use base::faults::LIMIT_PASSED;
use compiler::{Compiled, Places, Refusal, compile_tree};
use fault_numbers::{grammar_numbers, legality_numbers, restriction_numbers, spelling_numbers};
use image::Image;
use legality::check;
use lexer::{Fault, Text, tokens};
use parser::parse;
use ravenscar::{Accepted, restrict};
use source_laws::laws::small_is_unlimited;
use std::alloc::Global;
use variable_places::scopes_of;
use waveforms::Scopes;

/// The image of a program, the names of its protected objects and their entries and those of its subprograms, in the order of their numbers, the scopes of its
/// dumps, and the places of its statements and declarations.
#[derive(Drop)]
pub(crate) struct Named {
    pub(crate) image: Image,
    pub(crate) objects: Vec<ObjectNames>,
    pub(crate) subprograms: Vec<Text>,
    pub(crate) scopes: Scopes,
    pub(crate) places: Places,
}

// The image of an accepted program and the places of its statements and declarations, or the fault that it is refused with.
fn compiled_of(alloc: Global, accepted: &Accepted) -> Result<Compiled, Fault>
    ensures means { IfOk result (λ made. SameMeaning (program_tree accepted.now) made.image) }
    ensures counted { IfOk result (λ made. KeepsCount (program_tree accepted.now) made.image (most_steps made.image)) }
    ensures bounded { IfOk result (λ made. IsBounded (program_tree accepted.now) made.image) }
    ensures within { IfOk result (λ made. KeepsTokenCounts (program_tree accepted.now) made.image) }
    ensures places { IfOk result (λ made. PlacesTell (program_tree accepted.now) made.image made.places) }
    ensures well_formed { IfOk result (λ made. IsWellFormed made.image) }
    ensures refused { IfErr result (λ fault. RefusesTree (program_tree accepted.now) fault) }
    ensures legal { IsLegal (program_tree accepted.now) }
    ensures restricted { IsRestricted (program_tree accepted.now) }
{
    let program = accepted.program();
    match compile_tree(alloc, accepted) {
        Ok(made) => Ok(made),
        Err(Refusal::Memory) => Err(Fault::memory()),
        Err(Refusal::Limit(_)) => Err(Fault {
            number: LIMIT_PASSED,
            place: program.main.place,
        }),
    }
}

// The image of an accepted program with the names of its protected objects, their entries and its subprograms, the scopes of its dumps, and the places of its
// statements and declarations.
fn named_of(alloc: Global, accepted: &Accepted) -> Result<Named, Fault>
    ensures means { IfOk result (λ named. SameMeaning (program_tree accepted.now) named.image) }
    ensures counted { IfOk result (λ named. KeepsCount (program_tree accepted.now) named.image (most_steps named.image)) }
    ensures bounded { IfOk result (λ named. IsBounded (program_tree accepted.now) named.image) }
    ensures within { IfOk result (λ named. KeepsTokenCounts (program_tree accepted.now) named.image) }
    ensures well_formed { IfOk result (λ named. IsWellFormed named.image) }
    ensures names { IfOk result (λ named. named.objects.items ≡ objects_of (program_tree accepted.now)) }
    ensures bodies { IfOk result (λ named. named.subprograms.items ≡ subprogram_names (program_tree accepted.now)) }
    ensures scopes { IfOk result (λ named. named.scopes ≡ program_scopes (program_tree accepted.now)) }
    ensures places { IfOk result (λ named. PlacesTell (program_tree accepted.now) named.image named.places) }
    ensures refused { IfErr result (λ fault. RefusesTree (program_tree accepted.now) fault) }
    ensures legal { IsLegal (program_tree accepted.now) }
    ensures restricted { IsRestricted (program_tree accepted.now) }
{
    let Compiled { image, places } = compiled_of(alloc, accepted)?;
    let Ok(objects) = objects_of(alloc, accepted.program()) else {
        return Err(Fault::memory());
    };
    let Ok(subprograms) = subprograms_of(alloc, accepted.program()) else {
        return Err(Fault::memory());
    };
    match scopes_of(alloc, accepted.scope(), accepted.program()) {
        Ok(scopes) => Ok(Named {
            image,
            objects,
            subprograms,
            scopes,
            places,
        }),
        Err(_) => Err(Fault::memory()),
    }
}

/// Compiles a source text as `compile` does, and gives the names of its protected objects, their entries and its subprograms, the scopes of its dumps, and the
/// places of its statements and declarations.
///
/// # Errors
/// As `compile`.
pub(crate) fn compile_named(alloc: Global, source: &[u8]) -> Result<Named, Fault>
    ensures means { IfOk result (λ named. CompilesNamed source.now named.image named.objects.items named.places) }
    ensures bodies { IfOk result (λ named. (tree : ProgramTree) → IsTreeOf tree source.now → named.subprograms.items ≡ subprogram_names tree) }
    ensures scopes { IfOk result (λ named. (tree : ProgramTree) → IsTreeOf tree source.now → named.scopes ≡ program_scopes tree) }
    ensures accepted { (tree : ProgramTree) → IsAccepted tree source.now → CompilesAccepted source.now tree (imaged result) }
    ensures judged { (tree : ProgramTree) → IsTreeOf tree source.now → IsJudged source.now tree (imaged result) }
    ensures refused { IfErr result (λ fault. RefusesText source.now fault) }
    ensures numbered { IfErr result (λ fault. IsTextFault fault.number) }
{
    spelling_numbers();
    grammar_numbers();
    legality_numbers();
    restriction_numbers();
    small_is_unlimited();
    let list = tokens(alloc, source)?;
    let program = parse(alloc, &list)?;
    let checked = check(alloc, Parsed::new(program))?;
    let accepted = restrict(alloc, checked)?;
    named_of(alloc, &accepted)
}

/// Compiles a source text (docs/LANGUAGE.md) to an image that means the same.
///
/// # Errors
/// 1 to 5 where no tokens spell the text, 6 or 7 where they have no tree, 10 to 23 where the program is illegal, at the place that breaks the rule, which is
/// the first such place, and 30 to 39 or 70 to 73 where a legal program breaks a restriction of the profile, at the first such place; 23, at main, where the
/// code of an accepted text may pass a limit of images, which that of no small text does; 60, at byte 0, where memory was refused.
pub fn compile(alloc: Global, source: &[u8]) -> Result<Image, Fault>
    ensures means { IfOk result (λ image. Compiles source.now image) }
    ensures accepted { (tree : ProgramTree) → IsAccepted tree source.now → CompilesAccepted source.now tree result }
    ensures judged { (tree : ProgramTree) → IsTreeOf tree source.now → IsJudged source.now tree result }
    ensures refused { IfErr result (λ fault. RefusesText source.now fault) }
    ensures numbered { IfErr result (λ fault. IsTextFault fault.number) }
{
    match compile_named(alloc, source) {
        Ok(named) => Ok(named.image),
        Err(fault) => Err(fault),
    }
}
