//! What is known of a step before it is taken.
ghost use Rattle.std.specs.Prelude.{◌≡◌, List};
ghost use Rattle.kernel.specs.State.{Line};
ghost use Rattle.execution.specs.Held.{world_with};
ghost use Rattle.tracing.specs.Changes.{next_ahead};

use clock::Delays;
use dispatch::Ready;
use machine::{Asking, Machine, Raising};

/// What is known of a step before it is taken.
#[derive(Clone, Copy)]
pub struct Ahead {
    /// The address of its instruction, unless there is an outcome.
    pub address: Option<u16>,
    /// The exception that it raises, handled or not, if it raises one.
    pub raising: Option<Raising>,
    /// What it asks for beside the operation of an object, if it asks for anything and raises nothing.
    pub asking: Option<Asking>,
}

/// What is known of the next step of a machine; nothing changes.
pub fn ahead_of<R: Ready, D: Delays>(machine: &Machine<'_, R, D>) -> Ahead
    ensures { (lines : List Line) → result ≡ next_ahead machine.now.image machine.now.schedule (world_with lines machine.now) }
{
    let address = machine.address_ahead();
    let raising = machine.raising_ahead();
    let asking = machine.asking_ahead();
    Ahead {
        address,
        raising,
        asking,
    }
}
