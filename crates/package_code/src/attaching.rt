//! The attachments of a program's image: of each channel that has a handler the number of the handler's procedure (RM C.3.1).
ghost use Rattle.std.specs.Prelude.{◌≡◌, map, IfErr, IfOk};
ghost use Rattle.ada_tree.specs.StatementTree.{aspect_tree, operation_tree, optional_tree};
ghost use Rattle.ada_tree.specs.ProgramTree.{body_item_tree, item_tree, package_tree, program_tree};
ghost use Rattle.expr_soundness.specs.meaning.specs.Programs.{attached_by, attached_operation, handler_at, object_numbered, program_of};
ghost use Rattle.declaration_rules.specs.HandlerChannels.{attached_channel};
ghost use Rattle.expr_code.specs.Refusing.{IsRefused};
ghost use Rattle.package_code.specs.Handlers.{attachments_of, handler_among, handler_in, handler_in_body, handler_of_bodies, handler_of_items, handler_of_package, handler_told, number_or_none};

use crate::directory::Directory;
use ada_tree::{Aspect, BodyItem, Identifier, Item, Operation, Package, Subprogram};
use base::limits::CHANNELS;
use declaration_rules::{attached_channel, is_attachment};
use expr_code::Refusal;
use image::Attachment;
use ravenscar::Accepted;
use std::alloc::Global;
use type_rules::named_entity;
use types::{Entity, Scope};

// The number of the protected object of this name.
fn object_numbered(scope: &Scope, name: &Identifier) -> Option<usize>
    ensures { result ≡ object_numbered scope.now name.now }
{
    match named_entity(scope, name) {
        Some(Entity::Protected(object)) => Some(object.number),
        _ => None,
    }
}

// What is told of a procedure's number, where this aspect attaches it to the channel.
fn handler_by(
    scope: &Scope,
    directory: &Directory,
    object: Option<usize>,
    channel: u8,
    subprogram: &Subprogram,
    aspect: &Aspect,
) -> Option<Option<u16>>
    ensures { result ≡ handler_told scope.now directory.now
        (handler_at channel (attached_by subprogram.now.name.name object (attached_channel scope.now (aspect_tree aspect.now)))) }
{
    let object = object?;
    let attached = attached_channel(scope, aspect)?;
    if attached == channel {
        Some(directory.operation(object, &subprogram.name.name))
    } else {
        None
    }
}

// The number of an operation that is the channel's handler.
fn handler_at(
    scope: &Scope,
    directory: &Directory,
    object: Option<usize>,
    channel: u8,
    operation: &Operation,
) -> Option<Option<u16>>
    ensures { result ≡ handler_told scope.now directory.now (handler_at channel (attached_operation scope.now object (operation_tree operation.now))) }
{
    match operation {
        Operation::Subprogram(subprogram, Some(aspect)) => {
            if is_attachment(aspect) {
                handler_by(scope, directory, object, channel, subprogram, aspect)
            } else {
                None
            }
        }
        _ => None,
    }
}

// The number of the first of an object's operations that is the channel's handler.
fn handler_among(
    scope: &Scope,
    directory: &Directory,
    object: Option<usize>,
    channel: u8,
    operations: &[Operation],
) -> Option<Option<u16>>
    ensures { result ≡ handler_told scope.now directory.now (handler_among scope.now object channel (map operation_tree operations.now)) }
{
    for operation in operations {
        if let Some(number) = handler_at(scope, directory, object, channel, operation) {
            return Some(number);
        }
    }
    None
}

// The number of the channel's handler that a declaration has.
fn handler_in(scope: &Scope, directory: &Directory, channel: u8, item: &Item) -> Option<Option<u16>>
    ensures { result ≡ handler_told scope.now directory.now (handler_in scope.now channel (item_tree item.now)) }
{
    match item {
        Item::Protected(object) => {
            let number = object_numbered(scope, &object.name);
            handler_among(scope, directory, number, channel, &object.operations)
        }
        Item::Type(_) => None,
        Item::Object(_) => None,
        Item::Exception(_) => None,
        Item::Subprogram(_) => None,
        Item::Task(_) => None,
    }
}

fn handler_of_items(
    scope: &Scope,
    directory: &Directory,
    channel: u8,
    items: &[Item],
) -> Option<Option<u16>>
    ensures { result ≡ handler_told scope.now directory.now (handler_of_items scope.now channel (map item_tree items.now)) }
{
    for item in items {
        if let Some(number) = handler_in(scope, directory, channel, item) {
            return Some(number);
        }
    }
    None
}

// The number of the channel's handler that a declaration in the body of a package has; bodies have none.
fn handler_in_body(
    scope: &Scope,
    directory: &Directory,
    channel: u8,
    item: &BodyItem,
) -> Option<Option<u16>>
    ensures { result ≡ handler_told scope.now directory.now (handler_in_body scope.now channel (body_item_tree item.now)) }
{
    match item {
        BodyItem::Item(item) => handler_in(scope, directory, channel, item),
        BodyItem::Subprogram(_, _) => None,
        BodyItem::Task(_, _) => None,
        BodyItem::Protected(_, _, _) => None,
    }
}

fn handler_of_bodies(
    scope: &Scope,
    directory: &Directory,
    channel: u8,
    items: &[BodyItem],
) -> Option<Option<u16>>
    ensures { result ≡ handler_told scope.now directory.now (handler_of_bodies scope.now channel (map body_item_tree items.now)) }
{
    for item in items {
        if let Some(number) = handler_in_body(scope, directory, channel, item) {
            return Some(number);
        }
    }
    None
}

// The number of the channel's handler in a package.
fn handler_of(
    scope: &Scope,
    directory: &Directory,
    channel: u8,
    package_: &Option<Package>,
) -> Option<Option<u16>>
    ensures { result ≡ handler_told scope.now directory.now (handler_of_package scope.now channel (optional_tree package_tree package_.now)) }
{
    match package_ {
        None => None,
        Some(package_) => {
            match handler_of_items(scope, directory, channel, &package_.declaration.items) {
                Some(number) => Some(number),
                None => handler_of_bodies(scope, directory, channel, &package_.body.items),
            }
        }
    }
}

// The number of the procedure that is the channel's handler.
fn handler_number(accepted: &Accepted, directory: &Directory, channel: u8) -> Option<u16>
    ensures { let t = program_tree accepted.now in result ≡ number_or_none (handler_told (program_of t).scope directory.now
        (handler_of_package (program_of t).scope channel t.package_)) }
{
    let package_ = &accepted.program().package_;
    match handler_of(accepted.scope(), directory, channel, package_) {
        Some(number) => number,
        None => None,
    }
}

/// The attachments of an accepted program, in the order of their channels.
///
/// # Errors
/// `Memory` where memory was refused.
pub fn attachments(
    alloc: Global,
    accepted: &Accepted,
    directory: &Directory,
) -> Result<Vec<Attachment>, Refusal>
    ensures attachments { IfOk result (λ attachments. attachments.items ≡ attachments_of (program_tree accepted.now) directory.now) }
    ensures refused { IfErr result (λ why. IsRefused 0 0 why) }
{
    let mut attachments = Vec::new(alloc);
    for channel in 1..CHANNELS + 1 {
        if let Some(subprogram) = handler_number(accepted, directory, channel) {
            attachments.push(Attachment {
                channel,
                subprogram,
            })?;
        }
    }
    Ok(attachments)
}
