// Lists of calls on a shelf just made, and what compare, value and card then answer.
#![tactic(auto)]

pub mod entries;
pub mod findings;
pub mod runs;
pub mod tables;

pub use entries::Entry;
pub use findings::Findings;
pub use runs::{audit, audit_in};
pub use tables::LentTables;
