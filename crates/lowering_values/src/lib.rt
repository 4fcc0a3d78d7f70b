//! Rules of lowering for composite and first values: aggregates, default values, constant arrays, what packages do before main.
#![tactic(auto)]

mod aggregates;
mod defaults;
mod elaborations;
mod first_of;
mod fixed;
mod indexes;
mod starts;
mod tables;

pub use aggregates::lower_aggregates;
pub use defaults::lower_defaults;
pub use elaborations::lower_elaborations;
pub use starts::lower_starts;
pub use tables::lower_tables;
