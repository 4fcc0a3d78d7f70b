//! The places of the components of protected objects, by the objects and the names (RM 9.4).
ghost use Rattle.std.specs.Prelude.{◌≡◌};
ghost use Rattle.package_code.specs.Directory.{component_told};

use expr_code::Slot;
use lexer::Text;

/// The place of a component: of the protected object with this number, the one of this name; among the words of its object.
#[derive(Drop)]
pub struct ComponentSlot {
    pub object: usize,
    pub name: Text,
    pub slot: Slot,
}

/// Where the component of this object with this name is.
pub(crate) fn component_slot(
    components: &[ComponentSlot],
    object: usize,
    name: &Text,
) -> Option<Slot>
    ensures { result ≡ component_told components.now object name.now }
{
    for component in components {
        if component.object == object && component.name == *name {
            return Some(component.slot);
        }
    }
    None
}
