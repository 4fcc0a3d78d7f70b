//! Which number an exception has, and what puts it on the operand stack (RM 11.3).
ghost use Rattle.std.specs.Prelude.{◌≡◌, bytes_eq, position};
ghost use Rattle.part_code.specs.Raising.{number_among, raised_by};

use ada_tree::Identifier;
use base::limits::EXCEPTIONS;
use image::Operation;
use lexer::Text;

// The place of a name among others.
fn place_of(names: &[Text], name: &Text) -> Option<usize>
    ensures { result ≡ position (bytes_eq name.now) names.now }
{
    names
        .iter()
        .position(|other| name.as_bytes() == other.as_bytes())
}

/// The number of an exception with this name. An image has at most 36 (docs/FORMATS.md).
pub(crate) fn exception_number(exceptions: &[Text], name: &Text) -> Option<u16>
    ensures { result ≡ number_among exceptions.now name.now }
{
    match place_of(exceptions, name) {
        Some(place) => {
            if place < EXCEPTIONS {
                Some(place as u16 + 1)
            } else {
                None
            }
        }
        None => None,
    }
}

/// What puts an exception on the operand stack: one that is named, or that of the handler around.
pub fn raised_by(
    exceptions: &[Text],
    handled: Option<u16>,
    name: &Option<Identifier>,
) -> Option<Operation>
    ensures { result ≡ raised_by exceptions.now handled name.now }
{
    match name {
        Some(name) => match exception_number(exceptions, &name.name) {
            Some(number) => Some(Operation::Push(i64::from(number))),
            None => None,
        },
        None => match handled {
            Some(word) => Some(Operation::LoadLocal(word)),
            None => None,
        },
    }
}
