//! Laws of the command line. Each function does nothing, and its contract is the law.
ghost use Rattle.std.specs.Prelude.{◌≡◌, List, Some, map, true};
ghost use Rattle.std.specs.Option.{IsSome};
ghost use Rattle.clap.specs.Words.{Text, takes};
ghost use Rattle.request_words.specs.Names.{rule_name, rule_named, rules};
ghost use Rattle.request_words.specs.Words.{outcome_of, program};

use crate::request::Rule;

/// Arguments that clap accepts have an outcome: a request, or a fault that clap does not know of.
pub fn taken_words()
    ensures { (words : List Text) → takes program words ≡ true → IsSome (outcome_of words) }
{}

/// `Rule::ALL` has each rule, and no two rules share a name.
pub fn names()
    ensures all { Rule.ALL ≡ rules }
    ensures texts { map (λ name. name.now) Rule.NAMES ≡ map rule_name rules }
    ensures back { (rule : Rule) → rule_named (rule_name rule) ≡ Some rule }
{}
