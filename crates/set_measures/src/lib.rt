//! Measures of sets: what is measured of the runs of an image on all schedules of a set, the greatest or the least of each measure with the schedule that gives
//! it (docs/FORMATS.md, "Measures of a set").
#![tactic(auto)]

mod extreme;
pub mod laws;
mod listing;
mod measure;
mod names;
mod reporting;
mod row_text;
mod set;
mod value;

pub use extreme::{Extreme, Row};
pub use measure::{ActorQuantity, Direction, Measure, ObjectQuantity, UsageQuantity};
pub use reporting::report;
pub use set::{SetMeasures, measure_set};
