//! The laws of division, each what a function without work ensures.
ghost use Rattle.base.specs.Laws.{ModulusLaw, RemainderLaw};

/// `A = (A / B) * B + (A rem B)`, where `A rem B` has the sign of A and is smaller than B in absolute value (RM 4.5.5).
pub fn remainder_law()
    ensures { RemainderLaw }
{}

/// `A = B * N + (A mod B)` for some N, where `A mod B` has the sign of B and is smaller than B in absolute value (RM 4.5.5).
pub fn modulus_law()
    ensures { ModulusLaw }
{}
