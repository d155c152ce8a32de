// What can be asked of a netlist.
ghost use Rattle.std.specs.Prelude.{◌≡◌, ◌<◌, ◌≤◌, slice_index};
ghost use Rattle.netlist.specs.Circuits.{inputs, nets, WellFormed};
ghost use Rattle.netlist.specs.Netlists.{circuit, DriverIs};

use crate::circuit::Netlist;
use crate::gate::{Gate, Net};

impl Netlist {
    // The number of input words, 1 to 3.
    pub fn words(&self) -> u8
        ensures { result ≡ (circuit self.now).words }
    {
        self.words
    }

    // The number of bits of a word, 2 to 8.
    pub fn width(&self) -> u8
        ensures { result ≡ (circuit self.now).width }
    {
        self.width
    }

    // The number of the inputs' nets, which come first.
    pub fn inputs(&self) -> usize
        ensures { result ≡ inputs (circuit self.now) }
    {
        usize::from(self.words) * usize::from(self.width)
    }

    // The number of nets that are driven, at most 256. Every netlist is well formed.
    pub fn nets(&self) -> usize
        ensures number { result ≡ nets (circuit self.now) }
        ensures few { result ≤ 256 }
        ensures formed { WellFormed (circuit self.now) }
    {
        self.inputs() + self.gates.len()
    }

    // The gate that drives net `x`; none for an input's net and for a net that nothing drives.
    pub fn driver(&self, x: usize) -> Option<Gate>
        ensures { DriverIs (circuit self.now) x result }
    {
        let first = self.inputs();
        if x < first {
            return None;
        }
        self.gates.as_slice().get(x - first).copied()
    }

    // The net of bit `i` of the output, and net 0 where a word has no bit `i`.
    pub fn output(&self, i: usize) -> Net
        ensures net { result.0 ≡ slice_index (circuit self.now).outs i }
        ensures driven { result.0 < nets (circuit self.now) }
    {
        self.outs.as_slice().get(i).copied().unwrap_or(Net(0))
    }
}
