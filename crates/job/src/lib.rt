// A job of the program `card`: its bytes in, its card or its refusal out.
#![tactic(auto)]

pub mod answer;
pub mod card;
pub mod open;
pub mod parts;
