//! The laws of trees and their spellings, each what a function without work ensures.

ghost use Rattle.ada_tree.specs.Laws.{ArgumentsByParts, ChainsByParts, ConditionalByParts, LimitIsDepth, NamesByParts, SizeWithinTokens, StatementsByParts};

/// A limit of levels refuses just the trees that are deeper: tokens spell a tree with at most k levels open at once if and only if
/// they spell it and its depth is at most k.
pub fn limit_is_depth()
    ensures { LimitIsDepth }
{}

/// A tree has at most as many nodes as any token list that spells it has tokens, whatever the limit.
pub fn size_within_tokens()
    ensures { SizeWithinTokens }
{}

/// The tree of a name is its first identifier and the trees of its selectors.
pub fn names_by_parts()
    ensures { NamesByParts }
{}

/// The tree of arguments is that of each of them.
pub fn arguments_by_parts()
    ensures { ArgumentsByParts }
{}

/// The tree of an if expression is that of its parts.
pub fn conditional_by_parts()
    ensures { ConditionalByParts }
{}

/// The tree of a chain of operators is that of its operands, grouped to the left.
pub fn chains_by_parts()
    ensures { ChainsByParts }
{}

/// The tree of an if or case statement, a loop or a block is that of its parts.
pub fn statements_by_parts()
    ensures { StatementsByParts }
{}
