//! Programs that break no rule from 10 to 23.
ghost use Rattle.std.specs.Prelude.{◌≡◌, IfErr, IfOk, OnOk, option_map, slice_get};
ghost use Rattle.ada_tree.specs.Parsed.{IsParsed};
ghost use Rattle.ada_tree.specs.ProgramTree.{package_tree, program_tree};
ghost use Rattle.expr_rules.specs.Findings.{noted};
ghost use Rattle.declaration_rules.specs.PackageNames.{optional_scope, program_scope};
ghost use Rattle.legality.specs.FoundFaults.{found_faults, found_in_package};
ghost use Rattle.legality.specs.ProgramLayouts.{HaveRoom, object_layouts, variables_layout};
ghost use Rattle.legality.specs.ProgramRules.{IsLegal, RefusesProgram};

use crate::laws::{check_finds_what_is_broken, words_have_room};
use crate::layouts::{object_layouts, variables_layout};
use crate::like_names::like_name_faults;
use ada_tree::{Package, Parsed, Program};
use expr_rules::Findings;
use expr_rules::laws::{found_is_all, least_is_least, noted_by_parts};
use lexer::Fault;
use size_rules::size_faults;
use std::alloc::{AllocError, Global};
use std::marker::Model;
use types::{Layout, Scope};
use unit_rules::{main_faults, package_faults};

/// A legal program, the tree of a text, with the names that are visible after its package, and the layouts of its variables and protected objects. Contracts
/// see the program itself, which has the rest.
#[derive(Drop)]
pub struct Checked {
    parsed: Parsed,
    scope: Scope,
    variables: Layout,
    objects: Vec<Layout>,
}

impl Model for Checked {
    ghost use Rattle.std.specs.Prelude.{◌≡◌};
    ghost use Rattle.ada_tree.specs.declared.program.Program as declared;
    ghost use Rattle.ada_tree.specs.ProgramTree.{program_tree};
    ghost use Rattle.declaration_rules.specs.PackageNames.{program_scope};
    ghost use Rattle.legality.specs.ProgramLayouts.{object_layouts, variables_layout};
    ghost use Rattle.legality.specs.ProgramRules.{IsLegal};
    ghost use Rattle.ada_tree.specs.contracts.program.Program as contract;
    ghost use Rattle.std.specs.Coded.{codes};

    ghost Value = { declared.Program };

    ghost coded = { Prim.hlevel (codes, contract.the_row.coded) };

    ghost view = { λ c. c.parsed };

    ghost invariant = { λ c. IsLegal (program_tree c.parsed) × (c.scope ≡ program_scope (program_tree c.parsed))
        × (c.variables ≡ variables_layout (program_scope (program_tree c.parsed)))
        × (c.objects.items ≡ object_layouts (program_scope (program_tree c.parsed))) };
}

impl Checked {
    /// The program, which breaks no rule from 10 to 23.
    pub fn program(&self) -> &Program
        ensures same { result.now ≡ self.now }
        ensures legal { IsLegal (program_tree self.now) }
        ensures parsed { IsParsed (program_tree self.now) }
    {
        self.parsed.program()
    }

    /// The names that are visible after the package; without one, those of Standard (RM 8.3). A name of a body may denote something else in the body.
    pub fn scope(&self) -> &Scope
        ensures { result.now ≡ program_scope (program_tree self.now) }
    {
        &self.scope
    }

    /// Where the variables of the package are: one after the other, in the order of the text. Constants take no words.
    pub fn layout(&self) -> &Layout
        ensures { result.now ≡ variables_layout (program_scope (program_tree self.now)) }
    {
        &self.variables
    }

    /// Where the components of the protected object with this number are, in the order of the text; `None` where there is no such object. Objects are
    /// numbered from 0 on, in the order of their declarations.
    pub fn object_layout(&self, number: usize) -> Option<&Layout>
        ensures { option_map (λ l. l.now) result ≡ slice_get (object_layouts (program_scope (program_tree self.now))) number }
    {
        self.objects.get(number)
    }
}

// The faults of a package, its sizes aside. What it declares becomes visible.
fn package_part_faults(
    alloc: Global,
    scope: &mut Scope,
    package_: Option<&Package>,
    found: &mut Findings,
) -> Result<(), AllocError>
    ensures found { OnOk result (found.new ≡ noted found.old (found_in_package scope.old (option_map (λ p. package_tree p.now) package_.entry))) }
    ensures scope { OnOk result (scope.new ≡ optional_scope scope.old (option_map (λ p. package_tree p.now) package_.entry)) }
{
    noted_by_parts();
    match package_ {
        Some(package_) => {
            package_faults(alloc, scope, package_, found)?;
            like_name_faults(alloc, package_, found)
        }
        None => Ok(()),
    }
}

// Notes what is found in a program. The result has the names that are visible behind its package.
fn judge(alloc: Global, program: &Program, found: &mut Findings) -> Result<Scope, AllocError>
    ensures found { OnOk result (found.new ≡ noted found.old (found_faults (program_tree program.now))) }
    ensures scope { IfOk result (λ scope. scope ≡ program_scope (program_tree program.now)) }
{
    noted_by_parts();
    let mut scope = Scope::standard(alloc)?;
    let package_ = program.package_.as_ref();
    package_part_faults(alloc, &mut scope, package_, found)?;
    main_faults(alloc, package_, &program.main, found)?;
    size_faults(alloc, program, found)?;
    Ok(scope)
}

/// Notes each broken rule from 10 to 23 of a program, in the order of the check, some more than once (`laws::check_finds_what_is_broken`). Memory is the only
/// refusal, and may leave some of them noted.
pub fn program_faults(
    alloc: Global,
    program: &Program,
    found: &mut Findings,
) -> Result<(), AllocError>
    ensures { OnOk result (found.new ≡ noted found.old (found_faults (program_tree program.now))) }
{
    judge(alloc, program, found)?;
    Ok(())
}

// A legal program, of which these names are visible behind the package.
fn laid_out(alloc: Global, parsed: Parsed, scope: Scope) -> Result<Checked, AllocError>
    requires legal { IsLegal (program_tree parsed) }
    requires scope { scope ≡ program_scope (program_tree parsed) }
    requires room { HaveRoom scope }
    ensures same { IfOk result (λ checked. checked ≡ parsed) }
{
    let variables = variables_layout(alloc, &scope)?;
    let objects = object_layouts(alloc, &scope)?;
    Ok(Checked {
        parsed,
        scope,
        variables,
        objects,
    })
}

/// Checks the tree of a text by all rules from 10 to 23: names, types, static expressions, statements, bodies, the package, main, and the limits. What is legal
/// is refused for want of memory alone.
///
/// # Errors
/// The rule that is broken at the least place, and of several there the one with the least number (docs/LANGUAGE.md); 60, at place 0, where memory was refused.
pub fn check(alloc: Global, parsed: Parsed) -> Result<Checked, Fault>
    ensures same { IfOk result (λ checked. checked ≡ parsed) }
    ensures legal { OnOk result (IsLegal (program_tree parsed)) }
    ensures refused { IfErr result (λ fault. RefusesProgram (program_tree parsed) fault) }
{
    found_is_all();
    least_is_least();
    check_finds_what_is_broken();
    words_have_room();
    let mut found = Findings::new();
    let scope = judge(alloc, parsed.program(), &mut found)?;
    match found.least() {
        Some(fault) => Err(fault),
        None => Ok(laid_out(alloc, parsed, scope)?),
    }
}
