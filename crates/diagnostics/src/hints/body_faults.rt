//! Which of its cases a fault 18 is.
ghost use Rattle.std.specs.Prelude.{◌≡◌, ◌++◌, map, OnOk, option_map};
ghost use Rattle.std.specs.List.{list_any};
ghost use Rattle.ada_tree.specs.ProgramTree.{body_item_tree, item_tree, package_tree, program_tree, protected_item_tree};
ghost use Rattle.ada_tree.specs.StatementTree.{operation_tree};
ghost use Rattle.diagnostics.specs.counterparts.Fronts as fronts;
ghost use Rattle.diagnostics.specs.counterparts.Unmatched as unmatched;
ghost use Rattle.diagnostics.specs.hints.BodyFaults as specified;
ghost use Rattle.diagnostics.specs.hints.Found.{first_found};

use ada_tree::{BodyItem, Identifier, Item, Operation, Package, Program, ProtectedBodyItem};
use std::alloc::AllocError;

/// How a declaration and a body fail to belong together (RM 3.11.1, 6.3.1, 7.2, 9.1, 9.4).
#[derive(Clone, Copy, Debug, PartialEq, Eq)]
pub enum BodyFault {
    /// The specification of the package has nothing with a body.
    NothingWithBody,
    /// The body of the package has another name than its specification.
    OtherPackageName,
    /// What is declared has no body.
    MissingBody,
    /// An earlier body has the name.
    SecondBody,
    /// The declaration has other formal parameters or another result.
    OtherProfile,
    /// The declaration is that of an entry and the body that of a procedure or function, or the other way round.
    OtherKind,
    /// Nothing that has such a body is declared with the name.
    NoDeclaration,
}

/// What is said of `NothingWithBody`.
pub const NOTHING_WITH_BODY: &str =
    "Nothing in this specification has a body: declare in it the procedure that main calls, as `procedure Run;`.";
/// What is said of `OtherPackageName`.
pub const OTHER_PACKAGE_NAME: &str = "The body of a package has the name of its specification.";
/// What is said of `MissingBody`.
pub const MISSING_BODY: &str =
    "Its body is missing: write it in the body of the package, that of an operation in the body of its protected object.";
/// What is said of `SecondBody`.
pub const SECOND_BODY: &str =
    "An earlier body has this name, and names are not overloaded: take another name, or one of the two bodies away.";
/// What is said of `OtherProfile`.
pub const OTHER_PROFILE: &str =
    "It is declared with other parameters or another result: write the same names, modes and types in both.";
/// What is said of `OtherKind`.
pub const OTHER_KIND: &str =
    "It is declared as an entry and this is the body of a procedure or function, or the other way round.";
/// What is said of `NoDeclaration`.
pub const NO_DECLARATION: &str =
    "No task, protected object or entry of this name is declared: declare it in the package, before its body.";

fn words_of(fault: BodyFault) -> &'static str
    ensures { result.now ≡ specified.words_of fault }
{
    match fault {
        BodyFault::NothingWithBody => NOTHING_WITH_BODY,
        BodyFault::OtherPackageName => OTHER_PACKAGE_NAME,
        BodyFault::MissingBody => MISSING_BODY,
        BodyFault::SecondBody => SECOND_BODY,
        BodyFault::OtherProfile => OTHER_PROFILE,
        BodyFault::OtherKind => OTHER_KIND,
        BodyFault::NoDeclaration => NO_DECLARATION,
    }
}

fn is_at(place: u32, name: &Identifier) -> bool
    ensures { result ≡ fronts.is_at place name.now }
{
    name.place == place
}

fn is_same(name: &Identifier, other: &Identifier) -> bool
    ensures { result ≡ specified.is_same name.now other.now }
{
    other.name.as_bytes() == name.name.as_bytes()
}

fn is_earlier(name: &Identifier, other: &Identifier) -> bool
    ensures { result ≡ specified.is_earlier name.now other.now }
{
    is_same(name, other) && other.place < name.place
}

fn is_operation_at(place: u32, operation: &Operation) -> bool
    ensures { result ≡ specified.is_operation_at place (operation_tree operation.now) }
{
    match operation {
        Operation::Subprogram(declared, _) => is_at(place, &declared.name),
        Operation::Entry(declared) => is_at(place, &declared.name),
    }
}

fn has_operation_at(place: u32, operations: &[Operation]) -> bool
    ensures { result ≡ list_any (specified.is_operation_at place) (map operation_tree operations.now) }
{
    for operation in operations {
        if is_operation_at(place, operation) {
            return true;
        }
    }
    false
}

fn declares_at(place: u32, item: &Item) -> bool
    ensures { result ≡ specified.declares_at place (item_tree item.now) }
{
    match item {
        Item::Subprogram(declared) => is_at(place, &declared.name),
        Item::Task(declared) => is_at(place, &declared.name),
        Item::Protected(declared) => {
            is_at(place, &declared.name) || has_operation_at(place, &declared.operations)
        }
        _ => false,
    }
}

fn fault_of_item(place: u32, item: &Item) -> Option<BodyFault>
    ensures { result ≡ specified.fault_of_item place (item_tree item.now) }
{
    if declares_at(place, item) {
        Some(BodyFault::MissingBody)
    } else {
        None
    }
}

fn fault_among_items(place: u32, items: &[Item]) -> Option<BodyFault>
    ensures { result ≡ first_found (specified.fault_of_item place) (map item_tree items.now) }
{
    for item in items {
        if let Some(fault) = fault_of_item(place, item) {
            return Some(fault);
        }
    }
    None
}

fn second_or(is_second: bool, other: BodyFault) -> BodyFault
    ensures { result ≡ specified.second_or is_second other }
{
    if is_second {
        BodyFault::SecondBody
    } else {
        other
    }
}

fn is_earlier_body(item: &BodyItem, other: &BodyItem) -> bool
    ensures { result ≡ specified.is_earlier_body (body_item_tree item.now) (body_item_tree other.now) }
{
    match (item, other) {
        (BodyItem::Subprogram(declared, _), BodyItem::Subprogram(earlier, _)) => {
            is_earlier(&declared.name, &earlier.name)
        }
        (BodyItem::Task(name, _), BodyItem::Task(earlier, _)) => is_earlier(name, earlier),
        (BodyItem::Protected(name, _, _), BodyItem::Protected(earlier, _, _)) => {
            is_earlier(name, earlier)
        }
        _ => false,
    }
}

fn has_earlier_body(item: &BodyItem, all: &[BodyItem]) -> bool
    ensures { result ≡ list_any (specified.is_earlier_body (body_item_tree item.now)) (map body_item_tree all.now) }
{
    for other in all {
        if is_earlier_body(item, other) {
            return true;
        }
    }
    false
}

fn fault_of_body(all: &[BodyItem], item: &BodyItem, other: BodyFault) -> Option<BodyFault>
    ensures { result ≡ specified.fault_of_body (map body_item_tree all.now) (body_item_tree item.now) other }
{
    Some(second_or(has_earlier_body(item, all), other))
}

fn body_name(item: &ProtectedBodyItem) -> &Identifier
    ensures { result.now ≡ unmatched.body_name (protected_item_tree item.now) }
{
    match item {
        ProtectedBodyItem::Subprogram(declared, _) => &declared.name,
        ProtectedBodyItem::Entry(declared, _, _) => &declared.name,
    }
}

fn is_entry_body(item: &ProtectedBodyItem) -> bool
    ensures { result ≡ specified.is_entry_body (protected_item_tree item.now) }
{
    matches!(item, ProtectedBodyItem::Entry(..))
}

fn has_earlier_operation(item: &ProtectedBodyItem, operations: &[ProtectedBodyItem]) -> bool
    ensures { result ≡ list_any (specified.is_earlier_operation (protected_item_tree item.now)) (map protected_item_tree operations.now) }
{
    for other in operations {
        if is_earlier(body_name(item), body_name(other)) {
            return true;
        }
    }
    false
}

fn is_declared_as(entry: bool, name: &Identifier, operation: &Operation) -> bool
    ensures { result ≡ specified.is_declared_as entry name.now (operation_tree operation.now) }
{
    match operation {
        Operation::Entry(declared) => entry && is_same(name, &declared.name),
        Operation::Subprogram(declared, _) => !entry && is_same(name, &declared.name),
    }
}

fn is_among_operations(entry: bool, name: &Identifier, operations: &[Operation]) -> bool
    ensures { result ≡ list_any (specified.is_declared_as entry name.now) (map operation_tree operations.now) }
{
    for operation in operations {
        if is_declared_as(entry, name, operation) {
            return true;
        }
    }
    false
}

fn has_operation_as(entry: bool, object: &Identifier, name: &Identifier, item: &Item) -> bool
    ensures { result ≡ specified.has_operation_as entry object.now name.now (item_tree item.now) }
{
    match item {
        Item::Protected(declared) => {
            is_same(object, &declared.name)
                && is_among_operations(entry, name, &declared.operations)
        }
        _ => false,
    }
}

fn is_specified_as(entry: bool, object: &Identifier, name: &Identifier, items: &[Item]) -> bool
    ensures { result ≡ list_any (specified.has_operation_as entry object.now name.now) (map item_tree items.now) }
{
    for item in items {
        if has_operation_as(entry, object, name, item) {
            return true;
        }
    }
    false
}

fn item_has_operation_as(
    entry: bool,
    object: &Identifier,
    name: &Identifier,
    item: &BodyItem,
) -> bool
    ensures { result ≡ specified.item_has_operation_as entry object.now name.now (body_item_tree item.now) }
{
    match item {
        BodyItem::Item(declared) => has_operation_as(entry, object, name, declared),
        _ => false,
    }
}

fn is_in_body_as(entry: bool, object: &Identifier, name: &Identifier, items: &[BodyItem]) -> bool
    ensures { result ≡ list_any (specified.item_has_operation_as entry object.now name.now) (map body_item_tree items.now) }
{
    for item in items {
        if item_has_operation_as(entry, object, name, item) {
            return true;
        }
    }
    false
}

fn declares_operation_as(
    items: &[Item],
    all: &[BodyItem],
    entry: bool,
    object: &Identifier,
    name: &Identifier,
) -> bool
    ensures { result ≡ specified.declares_operation_as (map item_tree items.now) (map body_item_tree all.now) entry object.now name.now }
{
    is_specified_as(entry, object, name, items) || is_in_body_as(entry, object, name, all)
}

fn fault_of_declared(as_other_kind: bool, as_own_kind: bool) -> BodyFault
    ensures { result ≡ specified.fault_of_declared as_other_kind as_own_kind }
{
    match (as_other_kind, as_own_kind) {
        (true, _) => BodyFault::OtherKind,
        (false, true) => BodyFault::OtherProfile,
        (false, false) => BodyFault::NoDeclaration,
    }
}

fn fault_of_operation(
    items: &[Item],
    all: &[BodyItem],
    object: &Identifier,
    operations: &[ProtectedBodyItem],
    item: &ProtectedBodyItem,
) -> BodyFault
    ensures { result ≡ specified.fault_of_operation (map item_tree items.now) (map body_item_tree all.now) object.now (map protected_item_tree operations.now)
        (protected_item_tree item.now) }
{
    let entry = is_entry_body(item);
    let name = body_name(item);
    second_or(
        has_earlier_operation(item, operations),
        fault_of_declared(
            declares_operation_as(items, all, !entry, object, name),
            declares_operation_as(items, all, entry, object, name),
        ),
    )
}

#[tactic(auto, unfolding(crate::specs::hints::BodyFaults::operation_fault))]
fn operation_fault(
    place: u32,
    items: &[Item],
    all: &[BodyItem],
    object: &Identifier,
    operations: &[ProtectedBodyItem],
    item: &ProtectedBodyItem,
) -> Option<BodyFault>
    ensures { result ≡ specified.operation_fault place (map item_tree items.now) (map body_item_tree all.now) object.now
        (map protected_item_tree operations.now) (protected_item_tree item.now) }
{
    if is_at(place, body_name(item)) {
        Some(fault_of_operation(items, all, object, operations, item))
    } else {
        None
    }
}

fn fault_among_operations(
    place: u32,
    items: &[Item],
    all: &[BodyItem],
    object: &Identifier,
    operations: &[ProtectedBodyItem],
    among: &[ProtectedBodyItem],
) -> Option<BodyFault>
    ensures { result ≡ first_found
        (specified.operation_fault place (map item_tree items.now) (map body_item_tree all.now) object.now (map protected_item_tree operations.now))
        (map protected_item_tree among.now) }
{
    for item in among {
        if let Some(fault) = operation_fault(place, items, all, object, operations, item) {
            return Some(fault);
        }
    }
    None
}

fn fault_of_body_item(
    place: u32,
    items: &[Item],
    all: &[BodyItem],
    item: &BodyItem,
) -> Option<BodyFault>
    ensures { result ≡ specified.fault_of_body_item place (map item_tree items.now) (map body_item_tree all.now) (body_item_tree item.now) }
{
    match item {
        BodyItem::Item(declared) => fault_of_item(place, declared),
        BodyItem::Subprogram(declared, _) if is_at(place, &declared.name) => {
            fault_of_body(all, item, BodyFault::OtherProfile)
        }
        BodyItem::Task(name, _) if is_at(place, name) => {
            fault_of_body(all, item, BodyFault::NoDeclaration)
        }
        BodyItem::Protected(name, _, _) if is_at(place, name) => {
            fault_of_body(all, item, BodyFault::NoDeclaration)
        }
        BodyItem::Protected(name, operations, _) => {
            fault_among_operations(place, items, all, name, operations, operations)
        }
        _ => None,
    }
}

fn fault_among_bodies(place: u32, items: &[Item], all: &[BodyItem]) -> Option<BodyFault>
    ensures { result ≡ first_found (specified.fault_of_body_item place (map item_tree items.now) (map body_item_tree all.now)) (map body_item_tree all.now) }
{
    for item in all {
        if let Some(fault) = fault_of_body_item(place, items, all, item) {
            return Some(fault);
        }
    }
    None
}

fn fault_of_items(place: u32, items: &[Item], all: &[BodyItem]) -> Option<BodyFault>
    ensures { result ≡ specified.fault_of_items place (map item_tree items.now) (map body_item_tree all.now) }
{
    match fault_among_items(place, items) {
        Some(fault) => Some(fault),
        None => fault_among_bodies(place, items, all),
    }
}

fn fault_of_package(place: u32, package_: &Package) -> Option<BodyFault>
    ensures { result ≡ specified.fault_of_package place (package_tree package_.now) }
{
    if is_at(place, &package_.declaration.name) {
        Some(BodyFault::NothingWithBody)
    } else if is_at(place, &package_.body.name) {
        Some(BodyFault::OtherPackageName)
    } else {
        fault_of_items(place, &package_.declaration.items, &package_.body.items)
    }
}

/// Which case a fault 18 at this place is; None where no name of a declaration or a body of the package is there.
pub(crate) fn body_fault(place: u32, program: &Program) -> Option<BodyFault>
    ensures { result ≡ specified.body_fault place (program_tree program.now).package_ }
{
    match &program.package_ {
        Some(package_) => fault_of_package(place, package_),
        None => None,
    }
}

/// Appends the line that says how a declaration and a body fail to belong together.
///
/// # Errors
/// Where memory was refused.
pub(crate) fn put_body_fault_lines(
    out: &mut Vec<u8>,
    fault: Option<BodyFault>,
) -> Result<(), AllocError>
    ensures { OnOk result (out.new.items ≡ out.old.items ++ specified.body_fault_lines fault) }
{
    let Some(fault) = fault else {
        return Ok(());
    };
    out.extend_from_slice(b"hint: ")?;
    out.extend_from_slice(words_of(fault).as_bytes())?;
    out.extend_from_slice(b"\n")
}
