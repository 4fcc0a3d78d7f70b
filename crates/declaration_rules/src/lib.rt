//! What declarations break, and what they make visible (docs/LANGUAGE.md, "Rules of declarations").
#![tactic(auto)]

mod bodies;
mod items;
pub mod laws;
mod locals;
mod protected;
mod tasks;

pub use bodies::{
    declare_components, declare_formals, declare_loop_parameter, enter_object, leave_object,
    loop_faults,
};
pub use items::{check_items, declare_item, item_faults};
pub use locals::{check_locals, check_task_locals};
pub use protected::{declare_protected, has_handler, operation_name, protected_faults};
pub use tasks::{
    DEFAULT_PRIORITY, aspect_faults, attached_channel, declare_exception, declare_task,
    is_attachment, is_priority, priority_of, task_faults,
};
