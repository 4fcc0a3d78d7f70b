//! The laws of lists of faults and of types, each what a function without work ensures.
ghost use Rattle.expr_rules.specs.Laws.{TypedValues};
ghost use Rattle.expr_rules.specs.Faults.{LeastByParts, LeastIsLeast, SoonerAssociates};
ghost use Rattle.expr_rules.specs.Findings.{FoundIsAll, NotedByParts};

/// The least of joined lists is the sooner of the least of each.
pub fn least_by_parts()
    ensures { LeastByParts }
{}

/// Which of three faults is the least does not depend on the order in which they are compared.
pub fn sooner_associates()
    ensures { SoonerAssociates }
{}

/// Where there is no least fault nothing is broken; a least fault is broken, and none comes before it.
pub fn least_is_least()
    ensures { LeastIsLeast }
{}

/// What joined lists leave of findings is what the second one leaves after the first one.
pub fn noted_by_parts()
    ensures { NotedByParts }
{}

/// Where these were found and nothing else, the least is their least, their number is the count, and those for which there is room are kept.
pub fn found_is_all()
    ensures { FoundIsAll }
{}

/// A legal expression has a type, and is worth a value of it or raises an exception, where each legal name is.
pub fn typed_values()
    ensures { TypedValues }
{}
