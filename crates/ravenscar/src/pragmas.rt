//! The pragmas of a program (RM D.13, H.6).
ghost use Rattle.std.specs.Prelude.{◌≡◌, option_map};
ghost use Rattle.ada_tree.specs.ProgramTree.{package_tree, program_tree};
ghost use Rattle.expr_rules.specs.Findings.{noted};
ghost use Rattle.ravenscar.specs.PragmaRules.{difference, first_difference, or_behind, package_start, pragma_faults, pragma_rule, second_difference, start_behind, third_difference};

use ada_tree::{Package, Pragma, Program, UnitClause};
use base::faults::WRONG_PRAGMAS;
use expr_rules::Findings;

fn difference(name: &str, argument: &str, pragma: &Pragma) -> Option<u32>
    ensures { result ≡ difference name.now argument.now pragma.now }
{
    if pragma.name.name.as_bytes() != name.as_bytes() {
        Some(pragma.name.place)
    } else if pragma.argument.name.as_bytes() != argument.as_bytes() {
        Some(pragma.argument.place)
    } else {
        None
    }
}

fn or_behind(place: Option<u32>, behind: Option<u32>) -> Option<u32>
    ensures { result ≡ or_behind place behind }
{
    match place {
        Some(place) => Some(place),
        None => behind,
    }
}

fn third_difference(pragmas: &[Pragma]) -> Option<u32>
    ensures { result ≡ third_difference pragmas.now }
{
    match pragmas.split_first() {
        Some((third, _)) => Some(third.place),
        None => None,
    }
}

fn second_difference(pragmas: &[Pragma]) -> Option<u32>
    ensures { result ≡ second_difference pragmas.now }
{
    match pragmas.split_first() {
        Some((second, rest)) => or_behind(
            difference("PARTITION_ELABORATION_POLICY", "SEQUENTIAL", second),
            third_difference(rest),
        ),
        None => None,
    }
}

fn first_difference(behind: u32, pragmas: &[Pragma]) -> Option<u32>
    ensures { result ≡ first_difference behind pragmas.now }
{
    match pragmas.split_first() {
        Some((first, rest)) => or_behind(
            difference("PROFILE", "RAVENSCAR", first),
            second_difference(rest),
        ),
        None => Some(behind),
    }
}

fn package_start(clauses: &[UnitClause], specification: u32) -> u32
    ensures { result ≡ package_start clauses.now specification }
{
    match clauses.split_first() {
        Some((clause, _)) => clause.place,
        None => specification,
    }
}

fn start_behind(package_: Option<&Package>, main: u32) -> u32
    ensures { result ≡ start_behind (option_map (λ p. package_tree p.now) package_.entry) main }
{
    match package_ {
        Some(package_) => package_start(&package_.clauses, package_.declaration.place),
        None => main,
    }
}

fn pragma_rule(place: Option<u32>, found: &mut Findings)
    ensures { found.new ≡ noted found.old (pragma_rule place) }
{
    if let Some(place) = place {
        found.note_rule(WRONG_PRAGMAS, place, true);
    }
}

/// Notes fault 39 where the pragmas are not those of the profile, at the first token that is another one.
pub(crate) fn pragma_faults(program: &Program, found: &mut Findings)
    ensures { found.new ≡ noted found.old (pragma_faults (program_tree program.now)) }
{
    let behind = start_behind(program.package_.as_ref(), program.main.place);
    pragma_rule(first_difference(behind, &program.pragmas), found);
}
