//! Tests of what the machine and its keepers do beyond what the program runs: lists as well as rings and a heap, and each step by itself; whether
//! exclusion holds after a step; and of the parser of whole Ada, what names denote there, and how it is lowered.
#![tactic(auto)]

ghost use Rattle.std.specs.Prelude.{◌≡◌};

#[cfg(test)]
mod both_keepers;
#[cfg(test)]
mod changed_images;
pub mod exclusion;
#[cfg(test)]
mod keepers;
#[cfg(test)]
mod lowered_texts;
#[cfg(test)]
mod lowering_words;
#[cfg(test)]
mod name_rows;
#[cfg(test)]
mod parsed_texts;
#[cfg(test)]
mod resolved_names;
#[cfg(test)]
mod worked_images;
