//! Measures of runs: how often and for how many steps each task runs, how long it waits, how late it is, how often objects are called, and for how many steps
//! tasks are inside them (docs/FORMATS.md, "Measures").
#![tactic(auto)]

mod actor;
mod blocking;
mod counting;
mod happening;
mod instants;
mod measuring_of;
mod object;
mod reading;
mod row_text;
mod sizes;
mod text;
mod usage;

pub use actor::ActorMeasures;
pub use counting::Measures;
pub use instants::Instants;
pub use measuring_of::{measure, measure_run};
pub use object::ObjectMeasures;
pub use row_text::{ROW_BYTES, RowText, begun, object_name, put, put_name, put_number};
pub use sizes::{object_count, task_count};
pub use text::Form;
pub use usage::UsageMeasures;
