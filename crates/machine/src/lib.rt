//! The machine that runs an image in virtual time.
#![tactic(auto)]

mod bound;
mod fault;
mod line_step;
mod memory_sink;
mod reports;
mod running;
mod task_state;
mod text;
mod writer_sink;
mod writing;

pub use bound::{Bound, Cut, bound_of};
pub use execution::{Asking, Cause, FrameUse, Line, Raising};
pub use fault::RunFault;
pub use memory_sink::{MemorySink, Plan};
pub use processor::Steps;
pub use reports::{Event, LINE_BYTES, LineText, Outcome};
pub use running::{Machine, run, run_over, run_within};
pub use task_state::TaskState;
pub use tasking::Place;
pub use text::{ActorName, actor_name, cut_line, exception_name, label, last_line, task_name};
pub use writer_sink::WriterSink;
pub use writing::{Sink, SinkError, write_all};
