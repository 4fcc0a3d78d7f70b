//! What holds of traces, as laws.
ghost use Rattle.tracing.specs.Laws.{TellsAllLines};

use image_laws::lines_grow_on;
use kernel::laws::left_unmoved;

/// The lines of the run are in its trace, all of them in their order.
pub fn tells_all_lines()
    ensures { TellsAllLines }
{
    lines_grow_on();
    left_unmoved();
}
