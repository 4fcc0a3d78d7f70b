//! From an accepted program to its image.
ghost use Rattle.std.specs.Prelude.{IfErr, IfOk};
ghost use Rattle.image.specs.Rules.{IsWellFormed};
ghost use Rattle.ada_tree.specs.ProgramTree.{program_tree};
ghost use Rattle.legality.specs.ProgramRules.{IsLegal};
ghost use Rattle.ravenscar.specs.ProgramRules.{IsRestricted};
ghost use Rattle.expr_code.specs.Coming.{most_steps};
ghost use Rattle.meaning.specs.SameMeaning.{KeepsCount, SameMeaning};
ghost use Rattle.compiler.specs.Compiled.{IsBounded, KeepsTokenCounts, RefusesCompiling};
ghost use Rattle.package_code.specs.Places.{PlacesTell};

use crate::laws::{
    places_are_told, sections_are_bounded, sections_are_well_formed, sections_keep_token_counts,
    sections_mean_the_same,
};
use crate::places::Places;
use crate::program::{Linked, sections};
use base::faults::MEMORY_REFUSED;
use expr_code::Refusal;
use image::Image;
use ravenscar::Accepted;
use source_laws::laws::limits_are_told;
use std::alloc::Global;

/// The image of a program, and the places of its statements and declarations.
#[derive(Drop)]
pub struct Compiled {
    pub image: Image,
    pub places: Places,
}

/// The image of an accepted program, which means the same, with the same lines, times and outcome, and the places of its statements and declarations.
///
/// # Errors
/// `Memory` where memory was refused; `Limit` where the code of the program may pass a limit of images, which it names (docs/LANGUAGE.md, "Limits").
pub fn compile_tree(alloc: Global, accepted: &Accepted) -> Result<Compiled, Refusal>
    ensures means { IfOk result (λ made. SameMeaning (program_tree accepted.now) made.image) }
    ensures counted { IfOk result (λ made. KeepsCount (program_tree accepted.now) made.image (most_steps made.image)) }
    ensures bounded { IfOk result (λ made. IsBounded (program_tree accepted.now) made.image) }
    ensures within { IfOk result (λ made. KeepsTokenCounts (program_tree accepted.now) made.image) }
    ensures places { IfOk result (λ made. PlacesTell (program_tree accepted.now) made.image made.places) }
    ensures well_formed { IfOk result (λ made. IsWellFormed made.image) }
    ensures refused { IfErr result (λ why. RefusesCompiling (program_tree accepted.now) why) }
    ensures legal { IsLegal (program_tree accepted.now) }
    ensures restricted { IsRestricted (program_tree accepted.now) }
{
    limits_are_told();
    places_are_told();
    sections_are_bounded();
    sections_are_well_formed();
    sections_keep_token_counts();
    sections_mean_the_same();
    let _program = accepted.program();
    let Linked { parts, places } = sections(alloc, accepted)?;
    match Image::build(alloc, parts) {
        Ok(image) => Ok(Compiled {
            image,
            places: Places::new(places),
        }),
        Err(fault) if fault.number == MEMORY_REFUSED => Err(Refusal::Memory),
        Err(_) => unreachable!(),
    }
}
