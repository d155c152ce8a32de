// Bit forms at inputs: their values, the input of a set of nets, and where two of them differ.
#![tactic(auto)]

pub mod differences;
pub mod inputs;
