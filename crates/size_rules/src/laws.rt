//! The laws of words, each what a function without work ensures.
ghost use Rattle.size_rules.specs.Laws.{CappedWordsSuffice, WordsAddUp};

/// No number of words above what a package may have is distinguished from that limit and one: no fault depends on it.
pub fn capped_words_suffice()
    ensures { CappedWordsSuffice }
{}

/// Where no object is beyond a limit on words, the words of all objects together are within it.
pub fn words_add_up()
    ensures { WordsAddUp }
{}
