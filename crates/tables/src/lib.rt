// Screened tables: programs, whose rows also have to form one, and derivations.
#![tactic(auto)]

pub mod derivation;
pub mod fault;
mod forming;
pub mod program;
pub mod table;
