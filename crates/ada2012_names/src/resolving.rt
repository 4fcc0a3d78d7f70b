//! The names of whole texts.
ghost use Rattle.std.specs.Prelude.{◌≡◌, IfOk};

use crate::predefined::Predefined;
use crate::resolver::Resolver;
use crate::table::Names;
use ada2012_tree::{Program, Span};
use std::alloc::{AllocError, Global};

impl Resolver {
    // The table that the walk has made, of a text with this span.
    fn into_names(self, whole: Span) -> Result<Names, AllocError>
        ensures { IfOk result (λ names. names.whole ≡ whole) }
    {
        let Resolver { alloc, names, .. } = self;
        names.of_text(alloc, whole)
    }
}

/// What the names of a text denote (RM 8).
///
/// # Errors
///
/// Where memory is refused.
pub fn resolve(alloc: Global, program: &Program) -> Result<Names, AllocError>
    // It is the table of the whole text.
    ensures { IfOk result (λ names. names.whole ≡ program.now.span) }
{
    let mut names = Names::new(alloc);
    names.add_predefined()?;
    let mut resolver = Resolver::new(alloc, names);
    if let Some(standard) = resolver.predefined(Predefined::Standard) {
        resolver.visibility.show_region(&resolver.names, standard)?;
    }
    for unit in &program.units {
        resolver.unit(unit)?;
    }
    resolver.into_names(program.span)
}
