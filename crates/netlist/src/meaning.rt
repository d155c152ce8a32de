// Facts on what a netlist computes, each on the contract of a function that does nothing.
ghost use Rattle.std.specs.Prelude.{ℕ, List};
ghost use Rattle.netlist.specs.Meaning.{InputsPlaced, TailsAgree};

// Bit i of word w is net w·k + i, for words of any number of bits.
pub fn inputs_placed()
    ensures { (k : ℕ) (xs : List ℕ) → InputsPlaced k xs }
{}

// The net of a gate has the sum, modulo 2, over the gate's tail.
pub fn tails_agree()
    ensures { TailsAgree }
{}
