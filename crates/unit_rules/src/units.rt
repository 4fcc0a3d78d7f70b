//! The units that a package names (RM 10.1.2).
ghost use Rattle.std.specs.Prelude.{◌≡◌, bytes_eq, OnOk, option_map};
ghost use Rattle.expr_rules.specs.Findings.{noted};
ghost use Rattle.declaration_rules.specs.PackageNames.{clause_scope, clauses_scope, is_bare, is_control_io, is_named, is_real_time, is_second};
ghost use Rattle.unit_rules.specs.UnitRules.{again_rule, clause_faults, clauses_behind, clauses_faults, is_same_unit};

use ada_tree::{Identifier, UnitClause, UnitName};
use base::faults::{DECLARED_TWICE, NAME_NOT_VISIBLE};
use expr_rules::Findings;
use expr_rules::laws::noted_by_parts;
use std::alloc::{AllocError, Global};
use types::Scope;

fn is_named(identifier: &Identifier, name: &str) -> bool
    ensures { result ≡ is_named identifier.now name.now }
{
    identifier.name.as_bytes() == name.as_bytes()
}

fn is_second(identifier: Option<&Identifier>, name: &str) -> bool
    ensures { result ≡ is_second (option_map (λ i. i.now) identifier.entry) name.now }
{
    match identifier {
        Some(identifier) => is_named(identifier, name),
        None => false,
    }
}

fn is_real_time(unit: &UnitName) -> bool
    ensures { result ≡ is_real_time unit.now }
{
    is_named(&unit.first, "ADA") && is_second(unit.second.as_ref(), "REAL_TIME")
}

fn is_control_io(unit: &UnitName) -> bool
    ensures { result ≡ is_control_io unit.now }
{
    is_named(&unit.first, "CONTROL_IO") && unit.second.is_none()
}

fn is_same_unit(left: &UnitName, right: &UnitName) -> bool
    ensures { result ≡ is_same_unit left.now right.now }
{
    (is_real_time(left) && is_real_time(right)) || (is_control_io(left) && is_control_io(right))
}

// A unit after clauses of which these say whether they name Ada.Real_Time, and Control_IO.
fn again_rule(times_named: bool, io_named: bool, unit: &UnitName, found: &mut Findings)
    ensures { found.new ≡ noted found.old (again_rule times_named io_named unit.now) }
{
    let is_again = (times_named && is_real_time(unit)) || (io_named && is_control_io(unit));
    found.note_rule(DECLARED_TWICE, unit.first.place, is_again);
}

fn clause_faults(times_named: bool, io_named: bool, clause: &UnitClause, found: &mut Findings)
    ensures { found.new ≡ noted found.old (clause_faults times_named io_named clause.now) }
{
    noted_by_parts();
    let is_known = is_real_time(&clause.unit) || is_control_io(&clause.unit);
    found.note_rule(NAME_NOT_VISIBLE, clause.unit.first.place, !is_known);
    again_rule(times_named, io_named, &clause.unit, found);
    let is_same = is_same_unit(&clause.unit, &clause.used);
    found.note_rule(NAME_NOT_VISIBLE, clause.used.first.place, !is_same);
}

fn see_unit(alloc: Global, scope: &mut Scope, clause: &UnitClause) -> Result<(), AllocError>
    ensures { OnOk result (scope.new ≡ clause_scope scope.old clause.now) }
{
    if is_real_time(&clause.unit) {
        scope.see_real_time(alloc)
    } else if is_control_io(&clause.unit) {
        scope.see_control_io(alloc)
    } else {
        Ok(())
    }
}

/// The broken rules of the clauses before a package: a unit that is none of the two, or is named for the second time, or a `use` of another unit than
/// its `with`.
pub fn clauses_faults(clauses: &[UnitClause], found: &mut Findings)
    ensures { found.new ≡ noted found.old (clauses_faults clauses.now) }
{
    noted_by_parts();
    let mut times_named = false;
    let mut io_named = false;
    for clause in clauses {
        clause_faults(times_named, io_named, clause, found);
        times_named = times_named || is_real_time(&clause.unit);
        io_named = io_named || is_control_io(&clause.unit);
    }
}

/// Makes visible what the units in these clauses have. Memory is the only refusal, and may leave some of the names visible.
pub fn see_units(alloc: Global, scope: &mut Scope, clauses: &[UnitClause]) -> Result<(), AllocError>
    ensures { OnOk result (scope.new ≡ clauses_scope scope.old clauses.now) }
{
    for clause in clauses {
        see_unit(alloc, scope, clause)?;
    }
    Ok(())
}
