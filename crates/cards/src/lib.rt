// Bit forms and cards: the polynomial in the words that a bit form is.
#![tactic(auto)]

pub mod bits;
mod nested;
mod shapes;
mod sums;
pub mod words;
