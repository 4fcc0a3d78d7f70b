//! What is said of all conflicts of a program, in one list by the rules that are broken and by places.
ghost use Rattle.std.specs.Prelude.{◌≡◌, IfOk};
ghost use Rattle.ada_tree.specs.ProgramTree.{package_tree, program_tree};
ghost use Rattle.types.specs.Scopes.{standard};
ghost use Rattle.declaration_rules.specs.PackageNames.{package_scope};
ghost use Rattle.mismatches.specs.BodyMismatches.{package_mismatches};
ghost use Rattle.mismatches.specs.Listed.{AreRemarksIn, AreRemarksOf, listed_remarks, remark_in};

use crate::conflict::{Mismatch, Search};
use crate::package::package_mismatches;
use crate::remark::{Remark, conflict_remark};
use ada_tree::{Package, Program};
use std::alloc::{AllocError, Global};
use std::marker::Model;
use types::Scope;

/// What is said of the conflict that breaks the rule of this number at this place; None where both types aren't known.
#[derive(Clone, Copy)]
pub struct PlacedRemark {
    pub number: u8,
    pub place: u32,
    pub remark: Option<Remark>,
}

/// What is said of all conflicts of a program, found once for all places.
#[derive(Drop)]
pub struct Remarks {
    list: Vec<PlacedRemark>,
}

impl Model for Remarks {
    ghost use Rattle.std.specs.Prelude.{List};
    ghost use Rattle.mismatches.specs.declared.listed.PlacedRemark.{PlacedRemark};

    ghost Value = { List PlacedRemark };

    ghost view = { λ r. r.list.items };
}

// What is found in a package, and what is visible after it.
#[derive(Drop)]
struct FoundInPackage {
    mismatches: Vec<Mismatch>,
    scope: Scope,
}

// All mismatches of a package, found in two walks: the first counts them, the second has room for so many. A count of 2 ** 64 - 1 may mean more than that,
// for which no memory has room.
fn found_in(alloc: Global, package_: &Package) -> Result<FoundInPackage, AllocError>
    ensures mismatches { IfOk result (λ found. found.mismatches.items ≡ package_mismatches (package_tree package_.now)) }
    ensures scope { IfOk result (λ found. found.scope ≡ package_scope standard (package_tree package_.now)) }
{
    let mut counted = Search::new();
    package_mismatches(alloc, package_, &mut counted)?;
    let count = counted.count();
    if count == usize::MAX {
        return Err(AllocError);
    }
    let mut search = Search::with_room(alloc, count)?;
    let scope = package_mismatches(alloc, package_, &mut search)?;
    let mismatches = search.into_kept(alloc);
    Ok(FoundInPackage { mismatches, scope })
}

fn listed_remarks(
    alloc: Global,
    scope: &Scope,
    package_: &Package,
    mismatches: &[Mismatch],
) -> Result<Vec<PlacedRemark>, AllocError>
    ensures { IfOk result (λ list. list.items ≡ listed_remarks scope.now (package_tree package_.now) mismatches.now) }
{
    let mut list = Vec::new(alloc);
    for mismatch in mismatches {
        list.push(PlacedRemark {
            number: mismatch.conflict.number(),
            place: mismatch.place,
            remark: conflict_remark(scope, package_, Some(mismatch.conflict)),
        })?;
    }
    Ok(list)
}

fn package_remarks(alloc: Global, package_: &Package) -> Result<Vec<PlacedRemark>, AllocError>
    ensures { IfOk result (λ list. AreRemarksIn (package_tree package_.now) list.items) }
{
    let found = found_in(alloc, package_)?;
    listed_remarks(alloc, &found.scope, package_, &found.mismatches)
}

impl Remarks {
    /// All of a program, found in two walks over it. Of each rule at each place it is said of the first conflict there: the place of a fault 12, 14 or 15.
    /// Nothing is said where both types aren't known, or none are expected: of a name that has no type; nor of a constant without an initial value.
    ///
    /// # Errors
    /// Where memory was refused.
    pub fn of(alloc: Global, program: &Program) -> Result<Remarks, AllocError>
        ensures { IfOk result (λ remarks. AreRemarksOf (program_tree program.now) remarks) }
    {
        match &program.package_ {
            Some(package_) => {
                let list = package_remarks(alloc, package_)?;
                Ok(Remarks { list })
            }
            None => {
                let list = Vec::new(alloc);
                Ok(Remarks { list })
            }
        }
    }

    /// What is said of a fault of this number at this place.
    pub fn at(&self, number: u8, place: u32) -> Option<Remark>
        ensures { result ≡ remark_in self.now number place }
    {
        for placed in &self.list {
            if placed.number == number && placed.place == place {
                return placed.remark;
            }
        }
        None
    }
}
