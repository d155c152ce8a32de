// A shelf: sixteen drawers of bit forms over a field, and the six calls on it.
#![tactic(auto)]

pub mod store;

pub use store::Shelf;
