//! What is said of an expression that must be static: what keeps it from being so, and what is wrong with its value.
ghost use Rattle.std.specs.Prelude.{◌≡◌, ◌++◌, OnOk, option_map};
ghost use Rattle.ada_tree.specs.ProgramTree.{program_tree};
ghost use Rattle.diagnostics.specs.hints.StaticNotes.{declared_end, declared_part, declared_place, if_part, null_part, number_text, obstacle_lines, obstacle_part, outside_lines, outside_part, raising_line, range_part, static_lines, value_part};

use crate::counterparts::twice_other;
use crate::hints::places::{name_at, put_place};
use crate::hints::stopped::put_named_place;
use ada_tree::Program;
use itoa::Buffer;
use lexer::Text;
use mismatches::{Obstacle, Remark};
use remedies::TextTokens;
use std::alloc::AllocError;

fn declared_place(program: &Program, place: u32, name: Option<&Text>) -> Option<u32>
    ensures { result ≡ declared_place (program_tree program.now) place (option_map (λ n. n.now) name.entry) }
{
    match name {
        Some(name) => twice_other(program, name.as_bytes(), place),
        None => None,
    }
}

#[tactic(auto, unfolding(crate::specs::hints::StaticNotes::obstacle_part))]
fn put_obstacle_part(
    out: &mut Vec<u8>,
    text: &[u8],
    list: &TextTokens,
    place: u32,
) -> Result<(), AllocError>
    ensures { OnOk result (out.new.items ≡ out.old.items ++ obstacle_part text.now list.now place) }
{
    out.extend_from_slice(b"not static: ")?;
    put_named_place(out, text, list.tokens(), place)?;
    Ok(())
}

#[tactic(auto, unfolding(crate::specs::hints::StaticNotes::declared_part))]
fn put_declared_part(out: &mut Vec<u8>, text: &[u8], place: u32) -> Result<(), AllocError>
    ensures { OnOk result (out.new.items ≡ out.old.items ++ declared_part text.now place) }
{
    out.extend_from_slice(b", declared at ")?;
    put_place(out, text, place)?;
    out.extend_from_slice(b"\n")?;
    Ok(())
}

fn put_declared_end(out: &mut Vec<u8>, text: &[u8], place: Option<u32>) -> Result<(), AllocError>
    ensures { OnOk result (out.new.items ≡ out.old.items ++ declared_end text.now place) }
{
    match place {
        Some(place) => put_declared_part(out, text, place),
        None => out.extend_from_slice(b"\n"),
    }
}

#[tactic(auto, unfolding(crate::specs::hints::StaticNotes::if_part))]
fn put_if_part(out: &mut Vec<u8>, text: &[u8], place: u32) -> Result<(), AllocError>
    ensures { OnOk result (out.new.items ≡ out.old.items ++ if_part text.now place) }
{
    out.extend_from_slice(b"not static: the if expression at ")?;
    put_place(out, text, place)?;
    Ok(())
}

fn put_obstacle_lines(
    out: &mut Vec<u8>,
    text: &[u8],
    list: &TextTokens,
    program: &Program,
    obstacle: Obstacle,
) -> Result<(), AllocError>
    ensures { OnOk result (out.new.items ≡ out.old.items ++ obstacle_lines text.now list.now (program_tree program.now) obstacle) }
{
    match obstacle {
        Obstacle::Name(place) => {
            put_obstacle_part(out, text, list, place)?;
            let declared = declared_place(program, place, name_at(place, list));
            put_declared_end(out, text, declared)
        }
        Obstacle::IfExpression(place) => {
            put_if_part(out, text, place)?;
            put_declared_end(out, text, None)
        }
    }
}

#[tactic(auto, unfolding(crate::specs::hints::StaticNotes::number_text))]
fn put_number(out: &mut Vec<u8>, number: i64) -> Result<(), AllocError>
    ensures { OnOk result (out.new.items ≡ out.old.items ++ number_text number) }
{
    out.extend_from_slice(Buffer::new().format(number).as_bytes())
}

#[tactic(auto, unfolding(crate::specs::hints::StaticNotes::value_part))]
fn put_value_part(out: &mut Vec<u8>, value: i64) -> Result<(), AllocError>
    ensures { OnOk result (out.new.items ≡ out.old.items ++ value_part value) }
{
    out.extend_from_slice(b"the value is ")?;
    put_number(out, value)?;
    Ok(())
}

#[tactic(auto, unfolding(crate::specs::hints::StaticNotes::range_part))]
fn put_range_part(out: &mut Vec<u8>, first: i64, last: i64) -> Result<(), AllocError>
    ensures { OnOk result (out.new.items ≡ out.old.items ++ range_part first last) }
{
    put_number(out, first)?;
    out.extend_from_slice(b" .. ")?;
    put_number(out, last)?;
    Ok(())
}

#[tactic(auto, unfolding(crate::specs::hints::StaticNotes::outside_part))]
fn put_outside_part(out: &mut Vec<u8>, first: i64, last: i64) -> Result<(), AllocError>
    ensures { OnOk result (out.new.items ≡ out.old.items ++ outside_part first last) }
{
    out.extend_from_slice(b", outside ")?;
    put_range_part(out, first, last)?;
    out.extend_from_slice(b"\n")?;
    Ok(())
}

fn put_outside_lines(out: &mut Vec<u8>, value: i64, first: i64, last: i64) -> Result<(), AllocError>
    ensures { OnOk result (out.new.items ≡ out.old.items ++ outside_lines value first last) }
{
    put_value_part(out, value)?;
    put_outside_part(out, first, last)?;
    Ok(())
}

#[tactic(auto, unfolding(crate::specs::hints::StaticNotes::null_part))]
fn put_null_part(out: &mut Vec<u8>, first: i64, last: i64) -> Result<(), AllocError>
    ensures { OnOk result (out.new.items ≡ out.old.items ++ null_part first last) }
{
    out.extend_from_slice(b"the range ")?;
    put_range_part(out, first, last)?;
    out.extend_from_slice(b" is null\n")?;
    Ok(())
}

#[tactic(auto, unfolding(crate::specs::hints::StaticNotes::raising_line))]
fn put_raising_line(out: &mut Vec<u8>) -> Result<(), AllocError>
    ensures { OnOk result (out.new.items ≡ out.old.items ++ raising_line) }
{
    out.extend_from_slice(
        b"its evaluation raises an exception: an overflow, or a division by zero\n",
    )?;
    Ok(())
}

/// Appends what is said of an expression that must be static; nothing of types that don't match.
///
/// # Errors
/// Where memory was refused.
pub(crate) fn put_static_lines(
    out: &mut Vec<u8>,
    text: &[u8],
    list: &TextTokens,
    program: &Program,
    remark: Option<Remark>,
) -> Result<(), AllocError>
    ensures { OnOk result (out.new.items ≡ out.old.items ++ static_lines text.now list.now (program_tree program.now) remark) }
{
    match remark {
        Some(Remark::NotStatic(obstacle)) => {
            put_obstacle_lines(out, text, list, program, obstacle)
        }
        Some(Remark::Outside(value, first, last)) => { put_outside_lines(out, value, first, last) }
        Some(Remark::Raises) => put_raising_line(out),
        Some(Remark::NullRange(first, last)) => put_null_part(out, first, last),
        _ => Ok(()),
    }
}
