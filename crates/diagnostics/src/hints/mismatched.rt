//! What is said of types that don't match: which these are, where they are declared, and what to write instead.
ghost use Rattle.std.specs.Prelude.{◌≡◌, ◌++◌, OnOk};
ghost use Rattle.diagnostics.specs.hints.Conversions.{conversion_of, conversion_text};
ghost use Rattle.diagnostics.specs.hints.Mismatched.{advice_line, advised_lines, conversion_lines, declared_text, left_part, mismatch_lines, no_variable_line, operands_lines, predefined_name, predefined_text, remark_lines, right_part, type_text, unexpected_lines};

use crate::hints::conversion::{Conversion, conversion_of, conversion_text};
use crate::hints::places::{name_at, put_place};
use mismatches::{NamedType, PredefinedType, Remark};
use remedies::TextTokens;
use std::alloc::AllocError;

fn predefined_name(predefined: PredefinedType) -> &'static str
    ensures { result.now ≡ predefined_name predefined }
{
    match predefined {
        PredefinedType::Integer => "INTEGER",
        PredefinedType::Boolean => "BOOLEAN",
        PredefinedType::Time => "TIME",
        PredefinedType::TimeSpan => "TIME_SPAN",
    }
}

fn put_declared(
    out: &mut Vec<u8>,
    text: &[u8],
    list: &TextTokens,
    place: u32,
) -> Result<(), AllocError>
    ensures { OnOk result (out.new.items ≡ out.old.items ++ declared_text text.now list.now place) }
{
    match name_at(place, list) {
        Some(name) => out.extend_from_slice(name.as_bytes())?,
        None => {}
    }
    out.extend_from_slice(b", declared at ")?;
    put_place(out, text, place)
}

fn put_predefined(out: &mut Vec<u8>, predefined: PredefinedType) -> Result<(), AllocError>
    ensures { OnOk result (out.new.items ≡ out.old.items ++ predefined_text predefined) }
{
    out.extend_from_slice(predefined_name(predefined).as_bytes())?;
    out.extend_from_slice(b", of the language")?;
    Ok(())
}

#[tactic(auto, unfolding(crate::specs::hints::Mismatched::type_text))]
fn put_type(
    out: &mut Vec<u8>,
    text: &[u8],
    list: &TextTokens,
    named: NamedType,
) -> Result<(), AllocError>
    ensures { OnOk result (out.new.items ≡ out.old.items ++ type_text text.now list.now named) }
{
    match named {
        NamedType::Declared(place) => {
            out.extend_from_slice(b"type ")?;
            put_declared(out, text, list, place)?;
            Ok(())
        }
        NamedType::Predefined(predefined) => {
            out.extend_from_slice(b"type ")?;
            put_predefined(out, predefined)?;
            Ok(())
        }
        NamedType::AnyInteger => {
            out.extend_from_slice(b"an integer type")?;
            Ok(())
        }
        NamedType::Discrete => {
            out.extend_from_slice(b"an integer type or BOOLEAN")?;
            Ok(())
        }
        NamedType::UniversalInteger => {
            out.extend_from_slice(b"type universal integer, that of a number")?;
            Ok(())
        }
    }
}

#[tactic(auto, unfolding(crate::specs::hints::Mismatched::unexpected_lines))]
fn put_unexpected(
    out: &mut Vec<u8>,
    text: &[u8],
    list: &TextTokens,
    expected: NamedType,
    found: NamedType,
) -> Result<(), AllocError>
    ensures { OnOk result (out.new.items ≡ out.old.items ++ unexpected_lines text.now list.now expected found) }
{
    out.extend_from_slice(b"expected ")?;
    put_type(out, text, list, expected)?;
    out.extend_from_slice(b"\nfound ")?;
    put_type(out, text, list, found)?;
    out.extend_from_slice(b"\n")?;
    Ok(())
}

#[tactic(auto, unfolding(crate::specs::hints::Mismatched::left_part))]
fn put_left_part(
    out: &mut Vec<u8>,
    text: &[u8],
    list: &TextTokens,
    left: NamedType,
) -> Result<(), AllocError>
    ensures { OnOk result (out.new.items ≡ out.old.items ++ left_part text.now list.now left) }
{
    out.extend_from_slice(b"left operand: ")?;
    put_type(out, text, list, left)?;
    Ok(())
}

#[tactic(auto, unfolding(crate::specs::hints::Mismatched::right_part))]
fn put_right_part(
    out: &mut Vec<u8>,
    text: &[u8],
    list: &TextTokens,
    right: NamedType,
) -> Result<(), AllocError>
    ensures { OnOk result (out.new.items ≡ out.old.items ++ right_part text.now list.now right) }
{
    out.extend_from_slice(b"right operand: ")?;
    put_type(out, text, list, right)?;
    Ok(())
}

#[tactic(auto, unfolding(crate::specs::hints::Mismatched::operands_lines))]
fn put_operands(
    out: &mut Vec<u8>,
    text: &[u8],
    list: &TextTokens,
    left: NamedType,
    right: NamedType,
) -> Result<(), AllocError>
    ensures { OnOk result (out.new.items ≡ out.old.items ++ operands_lines text.now list.now left right) }
{
    put_left_part(out, text, list, left)?;
    out.extend_from_slice(b"\n")?;
    put_right_part(out, text, list, right)?;
    out.extend_from_slice(b"\n")?;
    Ok(())
}

#[tactic(auto, unfolding(crate::specs::hints::Mismatched::no_variable_line))]
fn put_no_variable(out: &mut Vec<u8>) -> Result<(), AllocError>
    ensures { OnOk result (out.new.items ≡ out.old.items ++ no_variable_line) }
{
    out.extend_from_slice(b"expected a variable, for a formal parameter of mode out or in out\n")?;
    Ok(())
}

fn put_remark(
    out: &mut Vec<u8>,
    text: &[u8],
    list: &TextTokens,
    remark: Remark,
) -> Result<(), AllocError>
    ensures { OnOk result (out.new.items ≡ out.old.items ++ remark_lines text.now list.now remark) }
{
    match remark {
        Remark::Unexpected(expected, found) => put_unexpected(out, text, list, expected, found),
        Remark::Operands(left, right) => put_operands(out, text, list, left, right),
        Remark::NoVariable => put_no_variable(out),
        _ => Ok(()),
    }
}

#[tactic(auto, unfolding(crate::specs::hints::Mismatched::advice_line))]
fn put_advice(out: &mut Vec<u8>, conversion: Conversion) -> Result<(), AllocError>
    ensures { OnOk result (out.new.items ≡ out.old.items ++ advice_line conversion) }
{
    out.extend_from_slice(b"hint: ")?;
    out.extend_from_slice(conversion_text(conversion).as_bytes())?;
    out.extend_from_slice(b"\n")?;
    Ok(())
}

fn put_conversion(out: &mut Vec<u8>, conversion: Option<Conversion>) -> Result<(), AllocError>
    ensures { OnOk result (out.new.items ≡ out.old.items ++ conversion_lines conversion) }
{
    match conversion {
        Some(conversion) => put_advice(out, conversion),
        None => Ok(()),
    }
}

fn put_remark_and_advice(
    out: &mut Vec<u8>,
    text: &[u8],
    list: &TextTokens,
    remark: Remark,
) -> Result<(), AllocError>
    ensures { OnOk result (out.new.items ≡ out.old.items ++ advised_lines text.now list.now remark) }
{
    put_remark(out, text, list, remark)?;
    put_conversion(out, conversion_of(remark, list))
}

/// What is said of the types that don't match at a place, and what to write instead.
///
/// # Errors
/// Where memory was refused.
pub(crate) fn put_mismatch_lines(
    out: &mut Vec<u8>,
    text: &[u8],
    list: &TextTokens,
    remark: Option<Remark>,
) -> Result<(), AllocError>
    ensures { OnOk result (out.new.items ≡ out.old.items ++ mismatch_lines text.now list.now remark) }
{
    match remark {
        Some(remark) => put_remark_and_advice(out, text, list, remark),
        None => Ok(()),
    }
}
