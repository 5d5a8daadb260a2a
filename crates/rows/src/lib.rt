// The rows of programs and derivations: their codes, what each is made of, and which earlier rows each cites.
#![tactic(auto)]

pub mod citing;
pub mod code;
pub mod derivation;
pub mod fields;
pub mod syntax;
