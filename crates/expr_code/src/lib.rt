//! The code of expressions (docs/CODEGEN.md).
#![tactic(auto)]

mod call;
mod checked;
mod code;
mod conditional;
mod emission;
mod expression;
pub mod fragment;
mod name;
mod operation;
mod part;
mod predefined;
mod refusal;
mod visible;

pub use checked::has_numbers;
pub use code::Code;
pub use name::{loaded_at, scalar_word};
pub use part::PartAt;
pub use refusal::{ImageLimit, Refusal};
pub use visible::{Entries, OperationNumbers, Slot, Visible};
