//! The text of each row of the measures of a set (docs/FORMATS.md, "Measures of a set").
ghost use Rattle.std.specs.Prelude.{◌≡◌, ◌+◌, ◌≤◌, ◌++◌, length, slice_get};
ghost use Rattle.arrayvec.specs.ArrayVec.{array_vec_len};
ghost use Rattle.base.specs.declared.limits.TheConstants.{NAME_LIMIT};
ghost use Rattle.measuring.specs.declared.row_text.TheConstants.{ROW_BYTES};
ghost use Rattle.set_measures.specs.Text.{extreme_row, instants_row, is_shown, joint, measure_row, named_row, row_front, usage_row};

use crate::extreme::{Extreme, Row};
use crate::measure::{Direction, Measure};
use crate::names::{actor_word, object_word, usage_word};
use arrayvec::ArrayVec;
use image::{Image, Text};
use machine::actor_name;
use measuring::{Form, RowText, begun, object_name, put, put_name, put_number};

// What a row is about, and its two numbers.
fn row_front(form: Form, about: &[u8], extreme: Extreme) -> RowText
    requires { length about.now ≤ 8 }
    ensures items { result.items ≡ row_front form about.now extreme }
    ensures len { array_vec_len result ≤ 51 }
{
    let mut row = begun(form, about, extreme.value);
    put_number(&mut row, form, extreme.number);
    row
}

// Appends what is between a measure and the name of whom it is.
fn put_joint(row: &mut RowText, form: Form, word: &[u8])
    requires room { array_vec_len row.old + 4 ≤ ROW_BYTES }
    requires short { length word.now ≤ 2 }
    ensures items { row.new.items ≡ row.old.items ++ joint form word.now }
    ensures len { array_vec_len row.new ≤ array_vec_len row.old + 4 }
{
    match form {
        Form::Table => {
            put(row, b" ");
            put(row, word);
            put(row, b" ");
        }
        Form::Fields => put(row, b"\t"),
    }
}

// The row of a measure of a task or of an object, which has this name.
fn named_row(form: Form, about: &[u8], extreme: Extreme, word: &[u8], name: &[u8]) -> RowText
    requires about { length about.now ≤ 8 }
    requires word { length word.now ≤ 16 }
    requires name { length name.now ≤ NAME_LIMIT }
    ensures { result.items ≡ named_row form about.now extreme word.now name.now }
{
    let mut row = row_front(form, about, extreme);
    put(&mut row, word);
    put_joint(&mut row, form, b"of");
    put_name(&mut row, name);
    row
}

// The row of a measure of a task at an object, which have these names.
fn usage_row(form: Form, extreme: Extreme, word: &[u8], task: &[u8], object: &[u8]) -> RowText
    requires word { length word.now ≤ 16 }
    requires task { length task.now ≤ NAME_LIMIT }
    requires object { length object.now ≤ NAME_LIMIT }
    ensures { result.items ≡ usage_row form extreme word.now task.now object.now }
{
    let mut row = row_front(form, b"inside", extreme);
    put(&mut row, word);
    put_joint(&mut row, form, b"of");
    put(&mut row, task);
    put_joint(&mut row, form, b"at");
    put_name(&mut row, object);
    row
}

// The row of instants.
fn instants_row(form: Form, extreme: Extreme) -> RowText
    ensures { result.items ≡ instants_row form extreme }
{
    let mut row = row_front(form, b"instant", extreme);
    put(&mut row, b"steps at one time\n");
    row
}

// The row of a measure; objects have these names.
fn measure_row(
    form: Form,
    image: &Image,
    names: &[Text],
    measure: Measure,
    extreme: Extreme,
) -> RowText
    ensures { result.items ≡ measure_row form image.now names.now measure extreme }
{
    match measure {
        Measure::OfActor { actor, quantity } => {
            let name = actor_name(image, actor);
            named_row(
                form,
                b"task",
                extreme,
                actor_word(quantity),
                name.as_slice(),
            )
        }
        Measure::OfObject { object, quantity } => {
            let name = object_name(names, object);
            named_row(
                form,
                b"object",
                extreme,
                object_word(quantity),
                name.as_slice(),
            )
        }
        Measure::OfUsage {
            actor,
            object,
            quantity,
        } => {
            let task = actor_name(image, actor);
            let name = object_name(names, object);
            usage_row(
                form,
                extreme,
                usage_word(quantity),
                task.as_slice(),
                name.as_slice(),
            )
        }
        Measure::OfInstants => instants_row(form, extreme),
    }
}

/// Whether an extreme of this value has a row: a greatest value of 0 has none.
pub(crate) fn is_shown(direction: Direction, value: u64) -> bool
    ensures { result ≡ is_shown direction value }
{
    match direction {
        Direction::Greatest => 0 < value,
        Direction::Least => true,
    }
}

/// The row of a measure and its extreme, if it has one; objects have these names.
pub(crate) fn extreme_row(form: Form, image: &Image, names: &[Text], row: &Row) -> RowText
    ensures { result.items ≡ extreme_row form image.now names.now row.now.measure row.now.extreme }
{
    match row.extreme {
        None => ArrayVec::new(),
        Some(extreme) => {
            if is_shown(row.measure.direction(), extreme.value) {
                measure_row(form, image, names, row.measure, extreme)
            } else {
                ArrayVec::new()
            }
        }
    }
}
