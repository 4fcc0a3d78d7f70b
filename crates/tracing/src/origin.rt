//! What is known of the source of an image.
ghost use Rattle.std.specs.Prelude.{◌≡◌, option_map};
ghost use Rattle.tracing.specs.Known.{Known};

use image::Text;

/// A place of a source: its line and its column, both from 1.
#[derive(Clone, Copy)]
pub struct Origin {
    pub line: usize,
    pub column: usize,
}

/// What is known of the source by the instructions of its image. Its meaning is that, by an instruction's address.
pub trait Origins {
    ghost known: { Self → Known };

    /// Where the instruction at this address comes from.
    fn origin_of(&self, address: u16) -> Option<Origin>
        ensures { result ≡ (known self.now).origin address };

    /// The name of the operation or entry of a protected object that the instruction at this address calls.
    fn operation_of(&self, address: u16) -> Option<&Text>
        ensures { option_map (λ name. name.now) result ≡ (known self.now).operation address };
}
