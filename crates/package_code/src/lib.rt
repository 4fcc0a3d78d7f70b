//! The code of a package: where its variables are, what its bodies see of it, the code of each body, and the rows of its protected objects and tasks.
#![tactic(auto)]

mod attaching;
mod components;
mod directory;
mod globals;
mod initial;
mod inside;
pub mod laws;
mod objects;
mod operations;
mod services;
mod stopping;
mod tasks;
mod walk;

pub use attaching::attachments;
pub use components::ComponentSlot;
pub use directory::Directory;
pub use globals::{Globals, globals_of};
pub use objects::{DeclaredObject, ProtectedObjects, protected_objects};
pub use operations::OperationNumber;
pub use services::{Service, object_rows};
pub use stopping::{Halt, Stop, halt_for};
pub use tasks::{task_row, task_rows};
pub use walk::{Walk, row, walk_over};
