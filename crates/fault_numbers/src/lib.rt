//! Which numbers the faults of each layer have: each law is what a function without work ensures.
#![tactic(auto)]

ghost use Rattle.fault_numbers.specs.Numbers.{GrammarNumbers, LegalityNumbers, RestrictionNumbers, SpellingNumbers};

/// The fault of a text that no tokens spell has a number from 1 to 5.
pub fn spelling_numbers()
    ensures { SpellingNumbers }
{}

/// The fault of tokens without a tree has the number 6 or 7.
pub fn grammar_numbers()
    ensures { GrammarNumbers }
{}

/// Each rule that a program breaks has a number from 10 to 23.
pub fn legality_numbers()
    ensures { LegalityNumbers }
{}

/// Each restriction of the profile that a program breaks has a number from 30 to 39, or from 70 to 73.
pub fn restriction_numbers()
    ensures { RestrictionNumbers }
{}
