//! Tests of the whole program over files and streams in memory.
#![tactic(auto)]

ghost use Rattle.std.specs.Prelude.{◌≡◌};

#[cfg(test)]
mod files;
#[cfg(test)]
mod memory;
#[cfg(test)]
mod rows;
