// Programs as trees in memory, and their small steps, taken in place, one at a time. Sum and product are those of whole
// numbers of 32 bits.
#![tactic(auto)]

mod copy;
pub mod error;
mod step;
pub mod tree;
