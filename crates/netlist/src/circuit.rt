// A netlist in memory. Only a well-formed one can be made.
ghost use Rattle.bounded.specs.Items.{items};
ghost use Rattle.netlist.specs.Circuits.{WellFormed, circuit_of};

use crate::gate::{Gate, Nets};
use bounded::Bounded;

// `words` input words of `width` bits; the first gate drives net `words * width`. There are at most 256 nets,
// so a list of bounded length holds the gates, and reading wants no memory.
#[derive(Clone, Copy)]
pub struct Netlist {
    pub(crate) words: u8,
    pub(crate) width: u8,
    pub(crate) gates: Bounded<Gate, 256>,
    pub(crate) outs: Nets,
    ghost formed: { ∥ WellFormed (circuit_of words width (items gates) (items outs)) ∥₁ },
}
