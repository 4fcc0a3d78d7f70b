//! What the compiler promises of source texts: laws over their tokens, their trees and the images of these.
#![tactic(auto)]

pub mod count_laws;
pub mod cover_laws;
pub mod depth_laws;
pub mod laws;
pub mod meaning_laws;
pub mod table_laws;
