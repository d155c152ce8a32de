// What a netlist's gates give at an input, by their Boolean tables.
use netlist::circuit::Netlist;
use netlist::gate::{Gate, Net};

// The bit of a net.
fn bit(nets: &[bool; 256], x: Net) -> bool {
    nets[usize::from(x.0)]
}

// The bit that a gate gives.
fn gate_bit(gate: Gate, nets: &[bool; 256]) -> bool {
    match gate {
        Gate::And(x, y) => bit(nets, x) && bit(nets, y),
        Gate::Or(x, y) => bit(nets, x) || bit(nets, y),
        Gate::Xor(x, y) => bit(nets, x) != bit(nets, y),
        Gate::Nand(x, y) => !(bit(nets, x) && bit(nets, y)),
        Gate::Nor(x, y) => !(bit(nets, x) || bit(nets, y)),
        Gate::Xnor(x, y) => bit(nets, x) == bit(nets, y),
        Gate::Not(x) => !bit(nets, x),
        Gate::Buf(x) => bit(nets, x),
        Gate::Zero => false,
        Gate::One => true,
    }
}

// The output word where the bits of the inputs, word by word, are those of `input`.
pub(crate) fn output(net: &Netlist, input: u32) -> u16 {
    let mut nets = [false; 256];
    // An index: a gate reads the nets before its own.
    for x in 0..net.nets() {
        nets[x] = match net.driver(x) {
            Some(gate) => gate_bit(gate, &nets),
            None => input >> (x % 32) & 1 == 1,
        };
    }
    (0..8)
        .filter(|i| *i < usize::from(net.width()) && bit(&nets, net.output(*i)))
        .fold(0, |word, i| word | 1 << i)
}
