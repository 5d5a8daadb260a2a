// IMP, a small imperative language: its small steps, its large steps, and the laws of both. What it means is defined in
// specs/; the functions here do nothing, and their contracts are the laws.
#![tactic(auto)]

pub mod rules;

ghost use Rattle.imp.specs.Laws.{Always, DerivationsAreRuns, OneDerivation, OneWay, JoinedRuns, NextDecides};

// A derivation is a run of as many small steps as it counts, and every run of a program to skip is such a derivation.
pub fn derivations_are_runs()
    ensures { Always DerivationsAreRuns }
{}

// From given bindings a command has at most one end and one derivation.
pub fn one_derivation()
    ensures { Always OneDerivation }
{}

// A configuration has at most one next, skip has none, and after m steps there is one configuration.
pub fn one_way()
    ensures { Always OneWay }
{}

// Runs one after another, joined: the steps add up, with one more for each joining semicolon.
pub fn joined_runs()
    ensures { Always JoinedRuns }
{}

// The function `next` is the small steps; what is not skip and has no next is stuck.
pub fn next_decides()
    ensures { Always NextDecides }
{}
