//! Where the code of a package passes a limit of images: with one of its bodies, or with the rows of handlers up to the end of one of its items.
ghost use Rattle.std.specs.Prelude.{◌≡◌, IfOk};
ghost use Rattle.ada_tree.specs.ProgramTree.{body_item_tree, protected_item_tree};
ghost use Rattle.package_code.specs.Bodies.{own_head};
ghost use Rattle.package_code.specs.Stopping.{halt_for, item_place, limit_of};
ghost use Rattle.package_code.specs.declared.stopping.Halt.TheVariants.{Stopped};

use ada_tree::{BodyItem, ProtectedBodyItem};
use expr_code::{ImageLimit, Refusal};
use std::alloc::AllocError;

/// Where a limit of images is passed.
#[derive(Clone, Copy, PartialEq, Eq, Debug)]
pub enum Stop {
    /// The code of the body whose name is at this place isn't made: with the instructions before it, so many, there may be more than an image has.
    Instructions { place: u32, before: usize },
    /// The code of this body isn't made: its frame and its operand stack may need more words together than a frame has.
    Frame { place: u32 },
    /// The handlers up to the end of what has its name at this place have so many choices, more than an image has rows.
    Rows { place: u32, rows: usize },
}

/// Why the walk over a package doesn't come to its end.
#[derive(Clone, Copy, PartialEq, Eq, Debug)]
pub enum Halt {
    /// A limit of images is passed, there.
    Stopped(Stop),
    /// Memory was refused, or another limit is passed, which no body of an accepted program does.
    Refused(Refusal),
}

impl Stop {
    /// The limit that is passed.
    pub fn limit(self) -> ImageLimit
        ensures { result ≡ limit_of self }
    {
        match self {
            Stop::Instructions { .. } => ImageLimit::Instructions,
            Stop::Frame { .. } => ImageLimit::Frame,
            Stop::Rows { .. } => ImageLimit::Rows,
        }
    }
}

impl Halt {
    /// Where a limit is passed.
    ///
    /// # Errors
    /// Where memory was refused, or another limit is passed.
    pub fn stop(self) -> Result<Stop, Refusal>
        ensures { IfOk result (λ found. self ≡ Stopped found) }
    {
        match self {
            Halt::Stopped(found) => Ok(found),
            Halt::Refused(why) => Err(why),
        }
    }
}

impl From<Refusal> for Halt {
    ghost use Rattle.std.specs.Prelude.{◌≡◌};
    ghost use Rattle.package_code.specs.declared.stopping.Halt.TheVariants.{Refused};

    ghost from_gives = { λ why found. found ≡ Refused why };

    fn from(why: Refusal) -> Halt {
        Halt::Refused(why)
    }
}

impl From<AllocError> for Halt {
    ghost use Rattle.std.specs.Prelude.{◌≡◌};
    ghost use Rattle.expr_code.specs.declared.refusal.Refusal.TheVariants.{Memory};
    ghost use Rattle.package_code.specs.declared.stopping.Halt.TheVariants.{Refused};

    ghost from_gives = { λ _ found. found ≡ Refused Memory };

    fn from(_refused: AllocError) -> Halt {
        Halt::Refused(Refusal::Memory)
    }
}

impl From<Halt> for Refusal {
    ghost use Rattle.std.specs.Prelude.{◌≡◌};
    ghost use Rattle.package_code.specs.Stopping.{refusal_of};

    ghost from_gives = { λ found why. why ≡ refusal_of found };

    fn from(found: Halt) -> Refusal {
        match found {
            Halt::Stopped(stop) => Refusal::Limit(stop.limit()),
            Halt::Refused(why) => why,
        }
    }
}

/// The place of the name of an operation or entry.
pub(crate) fn own_place(item: &ProtectedBodyItem) -> u32
    ensures { result ≡ (own_head (protected_item_tree item.now)).name.place }
{
    match item {
        ProtectedBodyItem::Subprogram(subprogram, _) => subprogram.name.place,
        ProtectedBodyItem::Entry(entry, _, _) => entry.name.place,
    }
}

/// The place of the name of an item's own body, 0 of a declaration.
pub(crate) fn item_place(item: &BodyItem) -> u32
    ensures { result ≡ item_place (body_item_tree item.now) }
{
    match item {
        BodyItem::Item(_) => 0,
        BodyItem::Subprogram(subprogram, _) => subprogram.name.place,
        BodyItem::Task(name, _) => name.place,
        BodyItem::Protected(name, _, _) => name.place,
    }
}

/// Why the code of the body whose name is at this place isn't made, after so many instructions: with its place, if a limit of the code of bodies is passed.
pub fn halt_for(why: Refusal, place: u32, before: usize) -> Halt
    ensures { result ≡ halt_for why place before }
{
    match why {
        Refusal::Limit(ImageLimit::Instructions) => Halt::Stopped(Stop::Instructions {
            place,
            before,
        }),
        Refusal::Limit(ImageLimit::Frame) => Halt::Stopped(Stop::Frame { place }),
        why => Halt::Refused(why),
    }
}
