//! The declarations before a dump.
ghost use Rattle.std.specs.Prelude.{◌≡◌, ◌+◌, ◌*◌, ◌<◌, ◌≤◌, ◌++◌, IfOk, OnOk, codes, length, option_map, slice_get};
ghost use Rattle.std.specs.List.{list_all};
ghost use Rattle.arrayvec.specs.ArrayVec.{array_vec_len};
ghost use Rattle.base.specs.declared.limits.TheConstants.{NAME_LIMIT, TASKS};
ghost use Rattle.image.specs.Texts.{name_of, names_of};
ghost use Rattle.waveforms.specs.Signals.{all_below};
ghost use Rattle.waveforms.specs.Waves as waves;
ghost use Rattle.waveforms.specs.Waves.{channel_text, channels_text, declaration_text, declarations_text, inputs_scope, label_name, label_text, labels_text, lines_scope, object_scope, object_text, package_scope, scope_text, task_scope, variable_text, variables_text};
ghost use Rattle.waveforms.specs.declared.declarations.TheConstants.{DECLARATION_BYTES};

use crate::axis::Axis;
use crate::lines::TaskLabel;
use crate::rows::Rows;
use crate::scopes::{Scopes, Variable, VariableScope};
use crate::text::{CODE_BYTES, put, signal_code};
use crate::values::{after_object, signal_count, sum};
use arrayvec::ArrayVec;
use base::Text;
use base::limits::{NAME_LIMIT, TASKS};
use base::names::is_name;
use image::{Image, Task};
use itoa::Buffer;
use machine::{actor_name, task_name};
use std::alloc::{AllocError, Global};

/// The most bytes of the declaration of a signal of the kernel.
const DECLARATION_BYTES: usize = 28 + CODE_BYTES;

/// The most bytes of a scope with two of them.
const SCOPE_BYTES: usize = 34 + NAME_LIMIT + 2 * DECLARATION_BYTES;

// The declaration of a signal of so many bits.
fn declaration(width: &[u8], signal: usize, name: &[u8]) -> ArrayVec<u8, DECLARATION_BYTES>
    requires width { length width.now ≤ 2 }
    requires name { length name.now ≤ 8 }
    ensures { result.items ≡ declaration_text width.now signal name.now }
{
    let mut text = ArrayVec::new();
    put(&mut text, b"$var wire ");
    put(&mut text, width);
    put(&mut text, b" ");
    put(&mut text, signal_code(signal).as_slice());
    put(&mut text, b" ");
    put(&mut text, name);
    put(&mut text, b" $end\n");
    text
}

// A scope of two signals, by their declarations.
fn scope(name: &[u8], first: &[u8], second: &[u8]) -> ArrayVec<u8, SCOPE_BYTES>
    requires name { length name.now ≤ NAME_LIMIT }
    requires first { length first.now ≤ DECLARATION_BYTES }
    requires second { length second.now ≤ DECLARATION_BYTES }
    ensures { result.items ≡ scope_text name.now (first.now ++ second.now) }
{
    let mut text = ArrayVec::new();
    put(&mut text, b"$scope module ");
    put(&mut text, name);
    put(&mut text, b" $end\n");
    put(&mut text, first);
    put(&mut text, second);
    put(&mut text, b"$upscope $end\n");
    text
}

// The scope of a task.
fn task_scope(tasks: &[Task], task: u8) -> ArrayVec<u8, SCOPE_BYTES>
    requires { task < TASKS }
    ensures { result.items ≡ task_scope (λ t. name_of (slice_get tasks.now t)) task }
{
    let before = 2 * usize::from(task);
    let state = declaration(b"3", 1 + before, b"state");
    let priority = declaration(b"8", 2 + before, b"priority");
    scope(
        task_name(tasks, task),
        state.as_slice(),
        priority.as_slice(),
    )
}

// Adds the scopes of all tasks.
fn add_tasks(text: &mut Vec<u8>, tasks: &[Task], count: u8) -> Result<(), AllocError>
    requires { count ≤ TASKS }
    ensures { OnOk result (text.new.items ≡ text.old.items ++ all_below count (task_scope (λ t. name_of (slice_get tasks.now t)))) }
{
    for task in 0..count {
        text.extend_from_slice(task_scope(tasks, task).as_slice())?;
    }
    Ok(())
}

// Whether no character would break the file.
fn are_printing(name: &[u8]) -> bool
    ensures { result ≡ list_all waves.is_printing name.now }
{
    name.iter().all(|byte| 32 < *byte && *byte < 127)
}

// Whether a name has characters, and none that would break the file.
fn is_printable(name: &[u8]) -> bool
    ensures { result ≡ waves.is_printable name.now }
{
    0 < name.len() && are_printing(name)
}

// Adds the name of a variable.
fn add_variable_name(text: &mut Vec<u8>, variable: &Variable) -> Result<(), AllocError>
    ensures { OnOk result (text.new.items ≡ text.old.items ++ waves.variable_name variable.now) }
{
    let name = variable.name();
    if is_name(name) {
        text.extend_from_slice(name)
    } else if is_printable(name) {
        text.extend_from_slice(b"\\")?;
        text.extend_from_slice(name)
    } else {
        text.extend_from_slice(b"WORD_")?;
        text.extend_from_slice(Buffer::new().format(variable.word()).as_bytes())
    }
}

// Adds the declaration of a variable, which has this signal.
fn add_variable(text: &mut Vec<u8>, signal: usize, variable: &Variable) -> Result<(), AllocError>
    ensures { OnOk result (text.new.items ≡ text.old.items ++ variable_text signal variable.now) }
{
    text.extend_from_slice(b"$var integer 64 ")?;
    text.extend_from_slice(signal_code(signal).as_slice())?;
    text.extend_from_slice(b" ")?;
    add_variable_name(text, variable)?;
    text.extend_from_slice(b" $end\n")?;
    Ok(())
}

// Adds the declarations of variables, the first of which has this signal.
fn add_variables(text: &mut Vec<u8>, first: usize, variables: &[Variable]) -> Result<(), AllocError>
    ensures { OnOk result (text.new.items ≡ text.old.items ++ variables_text first variables.now) }
{
    let mut signal = first;
    for variable in variables {
        add_variable(text, signal, variable)?;
        signal = sum(signal, 1)?;
    }
    Ok(())
}

// Adds the beginning of a scope.
fn begin_scope(text: &mut Vec<u8>, name: &[u8]) -> Result<(), AllocError>
    ensures { OnOk result (text.new.items ≡ text.old.items ++ (codes "$scope module " ++ name.now ++ codes " $end\n")) }
{
    text.extend_from_slice(b"$scope module ")?;
    text.extend_from_slice(name)?;
    text.extend_from_slice(b" $end\n")?;
    Ok(())
}

// Adds the end of a scope.
fn end_scope(text: &mut Vec<u8>) -> Result<(), AllocError>
    ensures { OnOk result (text.new.items ≡ text.old.items ++ codes "$upscope $end\n") }
{
    text.extend_from_slice(b"$upscope $end\n")?;
    Ok(())
}

// The name of a package.
fn package_name(name: &Text) -> &[u8]
    ensures { result.now ≡ waves.package_name name.now }
{
    if is_name(name.as_bytes()) {
        name.as_bytes()
    } else {
        b"PACKAGE"
    }
}

// Adds the scope of the package, if there is one, where there are so many tasks.
fn add_package(
    text: &mut Vec<u8>,
    tasks: u8,
    scope: Option<&VariableScope>,
) -> Result<(), AllocError>
    ensures { OnOk result (text.new.items ≡ text.old.items ++ package_scope tasks (option_map (λ s. s.now) scope.entry)) }
{
    match scope {
        None => Ok(()),
        Some(scope) => {
            begin_scope(text, package_name(scope.name()))?;
            add_variables(text, 1 + 2 * usize::from(tasks), scope.variables())?;
            end_scope(text)
        }
    }
}

// The name of an object that has none: its number.
fn numbered_name(object: u8) -> ArrayVec<u8, NAME_LIMIT>
    ensures { result.items ≡ waves.numbered_name object }
{
    let mut name = ArrayVec::new();
    put(&mut name, b"OBJECT_");
    put(&mut name, Buffer::new().format(object).as_bytes());
    name
}

// The name of an object.
fn object_name(scopes: &Scopes, object: u8) -> ArrayVec<u8, NAME_LIMIT>
    ensures { result.items ≡ waves.object_name scopes.now object }
{
    match scopes.object(object) {
        Some(scope) if is_name(scope.name().as_bytes()) => {
            let mut kept = ArrayVec::new();
            put(&mut kept, scope.name().as_bytes());
            kept
        }
        _ => numbered_name(object),
    }
}

// Adds the declarations of an object's signals, the first of which is this one.
fn add_object_signals(
    text: &mut Vec<u8>,
    scopes: &Scopes,
    first: usize,
    object: u8,
) -> Result<(), AllocError>
    ensures { OnOk result (text.new.items ≡ text.old.items ++ object_text scopes.now first object) }
{
    text.extend_from_slice(declaration(b"8", first, b"inside").as_slice())?;
    let second = sum(first, 1)?;
    text.extend_from_slice(declaration(b"8", second, b"queued").as_slice())?;
    add_variables(text, sum(first, 2)?, scopes.components(object))
}

// Adds the scope of an object, whose first signal is this one.
fn add_object(
    text: &mut Vec<u8>,
    scopes: &Scopes,
    first: usize,
    object: u8,
) -> Result<(), AllocError>
    ensures { OnOk result (text.new.items ≡ text.old.items ++ scope_text (waves.object_name scopes.now object) (object_text scopes.now first object)) }
{
    begin_scope(text, object_name(scopes, object).as_slice())?;
    add_object_signals(text, scopes, first, object)?;
    end_scope(text)
}

// Adds the scopes of all objects, where there are so many tasks.
fn add_objects(text: &mut Vec<u8>, scopes: &Scopes, tasks: u8, count: u8) -> Result<(), AllocError>
    ensures { OnOk result (text.new.items ≡ text.old.items ++ all_below count (object_scope scopes.now tasks)) }
{
    let first = 1 + 2 * usize::from(tasks);
    let mut signal = sum(first, scopes.package_variables().len())?;
    for object in 0..count {
        add_object(text, scopes, signal, object)?;
        let next = after_object(scopes, signal, object)?;
        signal = next;
    }
    Ok(())
}

// Adds the declaration of a channel, which has this signal.
fn add_channel(text: &mut Vec<u8>, signal: usize, channel: u8) -> Result<(), AllocError>
    ensures { OnOk result (text.new.items ≡ text.old.items ++ channel_text signal channel) }
{
    text.extend_from_slice(b"$var integer 64 ")?;
    text.extend_from_slice(signal_code(signal).as_slice())?;
    text.extend_from_slice(b" CHANNEL_")?;
    text.extend_from_slice(Buffer::new().format(channel).as_bytes())?;
    text.extend_from_slice(b" $end\n")?;
    Ok(())
}

// Adds the declarations of channels, the first of which has this signal.
fn add_channels(text: &mut Vec<u8>, first: usize, channels: &[u8]) -> Result<(), AllocError>
    ensures { OnOk result (text.new.items ≡ text.old.items ++ channels_text first channels.now) }
{
    let mut signal = first;
    for channel in channels {
        add_channel(text, signal, *channel)?;
        signal = sum(signal, 1)?;
    }
    Ok(())
}

// Adds the scope of the inputs, if there are any, the first of which has this signal.
fn add_inputs(text: &mut Vec<u8>, first: usize, channels: &[u8]) -> Result<(), AllocError>
    ensures { OnOk result (text.new.items ≡ text.old.items ++ inputs_scope first channels.now) }
{
    match channels {
        [] => Ok(()),
        [_, ..] => {
            begin_scope(text, b"inputs")?;
            add_channels(text, first, channels)?;
            end_scope(text)
        }
    }
}

// Adds the name of a label: that of its task or handler and its own.
fn add_label_name(
    text: &mut Vec<u8>,
    image: &Image,
    label: &TaskLabel<'_>,
) -> Result<(), AllocError>
    ensures { OnOk result (text.new.items ≡ text.old.items ++ label_name (names_of image.now).task label.now) }
{
    text.extend_from_slice(actor_name(image, label.task()).as_slice())?;
    text.extend_from_slice(b".")?;
    text.extend_from_slice(label.label())?;
    Ok(())
}

// Adds the declaration of the lines under a label, which have this signal.
fn add_label(
    text: &mut Vec<u8>,
    image: &Image,
    signal: usize,
    label: &TaskLabel<'_>,
) -> Result<(), AllocError>
    ensures { OnOk result (text.new.items ≡ text.old.items ++ label_text (names_of image.now).task signal label.now) }
{
    text.extend_from_slice(b"$var integer 64 ")?;
    text.extend_from_slice(signal_code(signal).as_slice())?;
    text.extend_from_slice(b" \\")?;
    add_label_name(text, image, label)?;
    text.extend_from_slice(b" $end\n")?;
    Ok(())
}

// Adds the declarations of the lines under labels, the first of which have this signal.
fn add_labels(
    text: &mut Vec<u8>,
    image: &Image,
    first: usize,
    labels: &[TaskLabel<'_>],
) -> Result<(), AllocError>
    ensures { OnOk result (text.new.items ≡ text.old.items ++ labels_text (names_of image.now).task first labels.now) }
{
    let mut signal = first;
    for label in labels {
        add_label(text, image, signal, label)?;
        signal = sum(signal, 1)?;
    }
    Ok(())
}

// Adds the scope of lines, if there are any, the first of which have this signal.
fn add_lines(
    text: &mut Vec<u8>,
    image: &Image,
    first: usize,
    labels: &[TaskLabel<'_>],
) -> Result<(), AllocError>
    ensures { OnOk result (text.new.items ≡ text.old.items ++ lines_scope (names_of image.now).task first labels.now) }
{
    match labels {
        [] => Ok(()),
        [_, ..] => {
            begin_scope(text, b"lines")?;
            add_labels(text, image, first, labels)?;
            end_scope(text)
        }
    }
}

// What the file says of itself.
fn preamble(alloc: Global, axis: Axis) -> Result<Vec<u8>, AllocError>
    ensures { IfOk result (λ text. text.items ≡ waves.preamble axis) }
{
    let mut text = Vec::from_slice(alloc, axis.comment())?;
    text.extend_from_slice(
        b"$comment state: 0 ready, 1 running, 2 delayed, 3 queued, 4 served, 5 finished, 6 left by an exception $end\n",
    )?;
    text.extend_from_slice(
        b"$comment inside, queued: 0 nobody, else the number of a task in the order below, counted from 1 $end\n",
    )?;
    text.extend_from_slice(axis.timescale())?;
    text.extend_from_slice(b"$scope module run $end\n")?;
    Ok(text)
}

/// The declarations of all signals for this axis, of the inputs and lines that rows have, where the image has so many tasks and objects.
pub(crate) fn declarations(
    alloc: Global,
    axis: Axis,
    image: &Image,
    scopes: &Scopes,
    rows: &Rows<'_, '_>,
    tasks: u8,
    objects: u8,
) -> Result<Vec<u8>, AllocError>
    requires tasks { tasks ≡ length image.now.tasks }
    requires objects { objects ≡ length image.now.objects }
    requires few { tasks ≤ TASKS }
    ensures { IfOk result (λ text. text.items ≡ declarations_text axis scopes.now rows.now.schedule rows.now.lines.labels image.now) }
{
    let mut text = preamble(alloc, axis)?;
    text.extend_from_slice(declaration(b"64", 0, b"time").as_slice())?;
    add_tasks(&mut text, image.tasks(), tasks)?;
    add_package(&mut text, tasks, scopes.package_())?;
    add_objects(&mut text, scopes, tasks, objects)?;
    let first = signal_count(scopes, tasks, objects)?;
    let channels = rows.inputs().channels();
    add_inputs(&mut text, first, channels)?;
    let after = sum(first, channels.len())?;
    add_lines(&mut text, image, after, rows.labels())?;
    text.extend_from_slice(b"$upscope $end\n$enddefinitions $end\n")?;
    Ok(text)
}
