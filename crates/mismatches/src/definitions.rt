//! Conflicts in declarations of types and subtypes (RM 3.2 to 3.6): in the bounds of their ranges.
ghost use Rattle.std.specs.Prelude.{◌≡◌};
ghost use Rattle.ada_tree.specs.ProgramTree.{definition_tree, index_tree};
ghost use Rattle.ada_tree.specs.StatementTree.{range_tree};
ghost use Rattle.type_rules.specs.SubtypeNames.{if_integer};
ghost use Rattle.mismatches.specs.Conflicts.{noted};
ghost use Rattle.mismatches.specs.BodyMismatches.{definition_mismatches, index_mismatches, narrowed_mismatches};

use crate::conflict::Search;
use crate::statics::bounds_mismatches;
use ada_tree::{ArrayIndex, Range, TypeDefinition};
use expr_rules::{Own, Wanted, is_integral};
use type_rules::subtype_of;
use types::{Scope, Subtype};

fn index_mismatches(scope: &Scope, index: &ArrayIndex, search: &mut Search)
    ensures { search.new ≡ noted search.old (index_mismatches scope.now (index_tree index.now)) }
{
    match index {
        ArrayIndex::Range(range) => {
            let wanted = Wanted::OfType(Subtype::INTEGER.type_number);
            bounds_mismatches(scope, wanted, Some(Subtype::INTEGER), range, search)
        }
        ArrayIndex::Subtype(_) => {}
    }
}

fn if_integer(scope: &Scope, subtype: Option<Subtype>) -> Option<Subtype>
    ensures { result ≡ if_integer scope.now subtype }
{
    match subtype {
        Some(subtype) => {
            if is_integral(scope, Own::Typed(subtype.type_number)) {
                Some(subtype)
            } else {
                None
            }
        }
        None => None,
    }
}

// A range of the subtype.
fn narrowed_mismatches(scope: &Scope, range: &Range, subtype: Option<Subtype>, search: &mut Search)
    ensures { search.new ≡ noted search.old (narrowed_mismatches scope.now (range_tree range.now) subtype) }
{
    match subtype {
        Some(subtype) => {
            let wanted = Wanted::OfType(subtype.type_number);
            bounds_mismatches(scope, wanted, Some(subtype), range, search)
        }
        None => bounds_mismatches(scope, Wanted::AnyInteger, None, range, search),
    }
}

/// The definition of a type or subtype.
pub(crate) fn definition_mismatches(scope: &Scope, definition: &TypeDefinition, search: &mut Search)
    ensures { search.new ≡ noted search.old (definition_mismatches scope.now (definition_tree definition.now)) }
{
    match definition {
        TypeDefinition::Integer(range) => {
            bounds_mismatches(scope, Wanted::AnyInteger, None, range, search)
        }
        TypeDefinition::Array(index, _) => index_mismatches(scope, index, search),
        TypeDefinition::Record(_) => {}
        TypeDefinition::Subtype(_, None) => {}
        TypeDefinition::Subtype(name, Some(range)) => {
            let subtype = if_integer(scope, subtype_of(scope, name));
            narrowed_mismatches(scope, range, subtype, search)
        }
    }
}
