//! The images of accepted programs: the variables, the protected objects, the tasks, the bodies and main of a program become the sections of an image.
#![tactic(auto)]

mod compiling;
pub mod laws;
pub mod link_laws;
mod places;
mod program;
mod stopping;

pub use compiling::{Compiled, compile_tree};
pub use expr_code::{ImageLimit, Refusal};
pub use package_code::Stop;
pub use places::Places;
pub use stopping::first_stop;
