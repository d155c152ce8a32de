// Conversions between bit forms and polynomials in words, worked term by term through tables of lent rows.
#![tactic(auto)]

pub mod nets;
mod places;
mod products;
pub mod rows;
mod working;

pub use places::{Factors, Holds};
pub use products::Ring;
pub use working::Conversion;

// The table that was found full: one of the two for products, or the one for the outcome.
#[derive(Clone, Copy)]
pub enum FullTable {
    Product,
    Outcome,
}
