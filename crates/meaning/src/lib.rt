// What programs mean, and the laws that lead from met steps to the same meaning (docs/PROOF.md).
#![tactic(auto)]

pub mod laws;
