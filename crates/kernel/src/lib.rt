//! Laws of the tasking kernel: who runs, who waits, protected actions and virtual time, shared by source and machine.
#![tactic(auto)]

pub mod laws;
