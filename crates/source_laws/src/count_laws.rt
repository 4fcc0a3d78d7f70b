//! How much code and how many steps the parts of a text take at most, by the tokens that spell them.
ghost use Rattle.source_laws.specs.Counted.{SubprogramsWithinTokens};
ghost use Rattle.source_laws.specs.Evaluated.{EvaluationsWithinTokens};

use kernel::laws::quiet_stays;

/// Each subprogram of a text, main among them, has tokens of its own, and its code at most 20 instructions for each of them, less 20, and two for each word of
/// its formals and objects, and its handlers no more choices than tokens.
pub fn subprograms_within_tokens()
    ensures { SubprogramsWithinTokens }
{}

/// The code of an expression reaches the place after its value in at most 20 steps of its frame for each token of the expression, or raises its exception after
/// at most so many (RM 4).
pub fn evaluations_within_tokens()
    ensures { EvaluationsWithinTokens }
{
    quiet_stays();
}
