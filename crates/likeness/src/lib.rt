//! Which worlds of an image's runs have the same future. Laws; no code runs.
#![tactic(auto)]
