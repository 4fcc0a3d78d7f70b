//! Images: the code of a whole program with its tables, well-formed by construction.
#![tactic(auto)]

mod attachments;
mod building;
mod draft;
mod fault;
mod instruction;
mod instruction_rules;
pub mod laws;
mod objects;
mod operation_rules;
mod sections;
mod subprograms;
mod table_rules;
mod tables;
mod tasks;
mod word_ranges;

pub use attachments::Attachment;
pub use base::Text;
pub use building::Image;
pub use draft::Draft;
pub use fault::ImageFault;
pub use instruction::{Instr, Operation, Region};
pub use objects::{Barrier, Object};
pub use sections::Parts;
pub use subprograms::{Kind, Subprogram, subprogram_ends};
pub use tasks::Task;
