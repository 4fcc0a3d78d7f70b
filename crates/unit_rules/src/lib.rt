//! What bodies, packages and main break (docs/LANGUAGE.md, "Rules of bodies" and "Rules of programs").
#![tactic(auto)]

mod bodies;
mod main_procedure;
mod package;
mod package_body;
mod protected;
mod units;
mod visible;

pub use bodies::{body_faults, subprogram_body_faults, task_body_faults};
pub use main_procedure::{item_name, main_faults, main_scope};
pub use package::package_faults;
pub use package_body::body_items_faults;
pub use protected::protected_body_faults;
pub use units::{clauses_faults, see_units};
pub use visible::{inside_scope, see_body_item};
