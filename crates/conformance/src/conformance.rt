//! Names that are alike, and declarations that conform to one another (RM 2.3, 6.3.1).
ghost use Rattle.std.specs.Prelude.{◌≡◌, option_map};
ghost use Rattle.ada_tree.specs.StatementTree.{entry_tree, subprogram_tree};
ghost use Rattle.ada_tree.specs.ProgramTree.{protected_item_tree};
ghost use Rattle.conformance.specs.MatchingRules.{same_formal, same_formals, same_mode, same_name, same_result};
ghost use Rattle.conformance.specs.Tables.{are_alike, body_profile, entry_profile, profile_tree, same_kind, subprogram_profile};

use ada_tree::{EntryDeclaration, Formal, Identifier, Mode, ProtectedBodyItem, Subprogram};

/// Whether two names are alike (RM 2.3).
pub fn same_name(left: &Identifier, right: &Identifier) -> bool
    ensures { result ≡ same_name left.now right.now }
{
    left.name.as_bytes() == right.name.as_bytes()
}

fn same_mode(left: Mode, right: Mode) -> bool
    ensures { result ≡ same_mode left right }
{
    match (left, right) {
        (Mode::In, Mode::In) => true,
        (Mode::Out, Mode::Out) => true,
        (Mode::InOut, Mode::InOut) => true,
        _ => false,
    }
}

fn same_formal(left: &Formal, right: &Formal) -> bool
    ensures { result ≡ same_formal left.now right.now }
{
    same_name(&left.name, &right.name)
        && (same_mode(left.mode, right.mode) && same_name(&left.subtype, &right.subtype))
}

pub(crate) fn same_formals(left: &[Formal], right: &[Formal]) -> bool
    ensures { result ≡ same_formals left.now right.now }
{
    let mut rest = right;
    for formal in left {
        match rest.split_first() {
            Some((first, others)) => {
                if !same_formal(formal, first) {
                    return false;
                }
                rest = others;
            }
            None => return false,
        }
    }
    rest.is_empty()
}

fn same_result(left: Option<&Identifier>, right: Option<&Identifier>) -> bool
    ensures { result ≡ same_result (option_map (λ n. n.now) left.entry) (option_map (λ n. n.now) right.entry) }
{
    match (left, right) {
        (None, None) => true,
        (Some(left), Some(right)) => same_name(left, right),
        _ => false,
    }
}

fn same_kind(is_entry: bool, other: bool) -> bool
    ensures { result ≡ same_kind is_entry other }
{
    is_entry == other
}

/// The formals of a subprogram or an entry, and the subtype of a function's result.
#[derive(Clone, Copy)]
pub(crate) struct Profile<'a> {
    pub is_entry: bool,
    pub formals: &'a [Formal],
    pub result: Option<&'a Identifier>,
}

impl<'a> Profile<'a> {
    pub(crate) fn of_subprogram(subprogram: &'a Subprogram) -> Profile<'a>
        ensures { profile_tree result ≡ subprogram_profile (subprogram_tree subprogram.now) }
    {
        Profile {
            is_entry: false,
            formals: &subprogram.formals,
            result: subprogram.result.as_ref(),
        }
    }

    pub(crate) fn of_entry(entry: &'a EntryDeclaration) -> Profile<'a>
        ensures { profile_tree result ≡ entry_profile (entry_tree entry.now) }
    {
        Profile {
            is_entry: true,
            formals: &entry.formals,
            result: None,
        }
    }

    pub(crate) fn of_body(body: &'a ProtectedBodyItem) -> Profile<'a>
        ensures { profile_tree result ≡ body_profile (protected_item_tree body.now) }
    {
        match body {
            ProtectedBodyItem::Subprogram(subprogram, _) => Profile::of_subprogram(subprogram),
            ProtectedBodyItem::Entry(entry, _, _) => Profile::of_entry(entry),
        }
    }

    /// Whether two profiles are of one kind and conform to one another (RM 6.3.1).
    pub(crate) fn is_like(self, other: Profile<'a>) -> bool
        ensures { result ≡ are_alike (profile_tree self.entry) (profile_tree other.entry) }
    {
        same_kind(self.is_entry, other.is_entry)
            && (same_formals(self.formals, other.formals) && same_result(self.result, other.result))
    }
}
