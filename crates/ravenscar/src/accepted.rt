//! Programs that are legal and break no restriction of the profile.
ghost use Rattle.std.specs.Prelude.{◌≡◌, IfErr, IfOk, OnOk, option_map, slice_get};
ghost use Rattle.ada_tree.specs.Parsed.{IsParsed};
ghost use Rattle.ada_tree.specs.ProgramTree.{main_tree, package_tree, program_tree};
ghost use Rattle.base.specs.declared.limits.TheConstants.{TASK_PRIORITY};
ghost use Rattle.declaration_rules.specs.PackageNames.{program_scope};
ghost use Rattle.legality.specs.ProgramLayouts.{object_layouts, variables_layout};
ghost use Rattle.legality.specs.ProgramRules.{IsLegal};
ghost use Rattle.expr_rules.specs.Findings.{noted};
ghost use Rattle.unit_rules.specs.MainRules.{main_scope};
ghost use Rattle.ravenscar.specs.TaskingRules.{aspect_faults};
ghost use Rattle.ravenscar.specs.ProgramRules.{IsRestricted, RefusesUnrestricted, restriction_faults};

use crate::package::package_part_faults;
use crate::pragmas::pragma_faults;
use crate::tasking::aspect_faults;
use ada_tree::{Main, Package, Program};
use base::limits::TASK_PRIORITY;
use expr_rules::Findings;
use expr_rules::laws::{found_is_all, least_is_least, noted_by_parts};
use legality::Checked;
use lexer::Fault;
use std::alloc::{AllocError, Global};
use std::marker::Model;
use types::{Layout, Scope};
use unit_rules::main_scope;

/// A legal program within the profile, the tree of a text. It lends what the checked program lends, and contracts see the program itself.
#[derive(Drop)]
pub struct Accepted {
    checked: Checked,
}

impl Model for Accepted {
    ghost use Rattle.ada_tree.specs.declared.program.Program as declared;
    ghost use Rattle.ada_tree.specs.ProgramTree.{program_tree};
    ghost use Rattle.legality.specs.ProgramRules.{IsLegal};
    ghost use Rattle.ravenscar.specs.ProgramRules.{IsRestricted};
    ghost use Rattle.ada_tree.specs.contracts.program.Program as contract;
    ghost use Rattle.std.specs.Coded.{codes};

    ghost Value = { declared.Program };

    ghost coded = { Prim.hlevel (codes, contract.the_row.coded) };

    ghost view = { λ a. a.checked };

    ghost invariant = { λ a. IsLegal (program_tree a.checked) × IsRestricted (program_tree a.checked) };
}

impl Accepted {
    /// The program, which breaks no rule from 10 to 39 and from 70 to 73.
    pub fn program(&self) -> &Program
        ensures same { result.now ≡ self.now }
        ensures legal { IsLegal (program_tree self.now) }
        ensures restricted { IsRestricted (program_tree self.now) }
        ensures parsed { IsParsed (program_tree self.now) }
    {
        self.checked.program()
    }

    /// The names that are visible after the package (`Checked::scope`).
    pub fn scope(&self) -> &Scope
        ensures { result.now ≡ program_scope (program_tree self.now) }
    {
        self.checked.scope()
    }

    /// Where the variables of the package are (`Checked::layout`).
    pub fn layout(&self) -> &Layout
        ensures { result.now ≡ variables_layout (program_scope (program_tree self.now)) }
    {
        self.checked.layout()
    }

    /// Where the components of the protected object with this number are; `None` where there is no such object (`Checked::object_layout`).
    pub fn object_layout(&self, number: usize) -> Option<&Layout>
        ensures { option_map (λ l. l.now) result ≡ slice_get (object_layouts (program_scope (program_tree self.now))) number }
    {
        self.checked.object_layout(number)
    }
}

fn main_faults(
    alloc: Global,
    package_: Option<&Package>,
    main: &Main,
    found: &mut Findings,
) -> Result<(), AllocError>
    ensures { OnOk result (found.new ≡ noted found.old (aspect_faults (main_scope (option_map (λ p. package_tree p.now) package_.entry)) TASK_PRIORITY
        (main_tree main.now).aspect)) }
{
    let scope = main_scope(alloc, package_)?;
    aspect_faults(&scope, TASK_PRIORITY, main.aspect.as_ref(), found);
    Ok(())
}

/// Notes each restriction that a program breaks, 30 to 39 and 70 to 73. Memory is the only refusal, and may leave some of them noted.
pub fn restriction_faults(
    alloc: Global,
    program: &Program,
    found: &mut Findings,
) -> Result<(), AllocError>
    ensures { OnOk result (found.new ≡ noted found.old (restriction_faults (program_tree program.now))) }
{
    noted_by_parts();
    let package_ = program.package_.as_ref();
    pragma_faults(program, found);
    package_part_faults(alloc, package_, found)?;
    main_faults(alloc, package_, &program.main, found)?;
    Ok(())
}

/// Asks of a legal program that it keeps the restrictions of the Ravenscar profile, the rules from 30 to 39 and from 70 to 73. What keeps them is refused for
/// want of memory alone.
///
/// # Errors
/// The restriction that is broken at the least place, and of several there the one with the least number (docs/LANGUAGE.md, "Rules of the profile"); 60, at
/// place 0, where memory was refused.
pub fn restrict(alloc: Global, checked: Checked) -> Result<Accepted, Fault>
    ensures same { IfOk result (λ accepted. accepted ≡ checked) }
    ensures restricted { OnOk result (IsRestricted (program_tree checked)) }
    ensures refused { IfErr result (λ fault. RefusesUnrestricted (program_tree checked) fault) }
{
    found_is_all();
    least_is_least();
    let mut found = Findings::new();
    restriction_faults(alloc, checked.program(), &mut found)?;
    match found.least() {
        Some(fault) => Err(fault),
        None => Ok(Accepted { checked }),
    }
}
