// The tail of a gate: the sets whose sum, modulo 2, takes the place of the gate's net.
ghost use Rattle.std.specs.Prelude.{[], ◌∷◌};
ghost use Rattle.bounded.specs.Items.{items};
ghost use Rattle.netlist.specs.Meaning.{tail};
ghost use Rattle.terms.specs.Sets.{Own};
ghost use Rattle.gates.specs.Tails.{Joined, Joins};

use bounded::Bounded;
use netlist::gate::{Gate, Net};
use terms::Kind;
use terms::nets::{NetSet, Nets};

// The nets of `s`, and net `x`.
fn with_net(s: NetSet, x: Net) -> NetSet
    ensures { Joined s (x.0 ∷ []) result }
{
    Nets.times(s, NetSet::of_net(x.0))
}

// The nets of `s`, net `x` and net `y`.
fn with_both(s: NetSet, x: Net, y: Net) -> NetSet
    ensures { Joined s (x.0 ∷ (y.0 ∷ [])) result }
{
    with_net(with_net(s, x), y)
}

// The tail of `gate`, each of its sets united with `s`, in order.
pub(crate) fn tail_of(gate: Gate, s: NetSet) -> Bounded<NetSet, 4>
    requires { Own s }
    ensures { Joins s (tail gate) (items result) }
{
    match gate {
        Gate::And(x, y) => Bounded::copy_of(&[with_both(s, x, y)], s),
        Gate::Or(x, y) => {
            Bounded::copy_of(&[with_net(s, x), with_net(s, y), with_both(s, x, y)], s)
        }
        Gate::Xor(x, y) => Bounded::copy_of(&[with_net(s, x), with_net(s, y)], s),
        Gate::Nand(x, y) => Bounded::copy_of(&[s, with_both(s, x, y)], s),
        Gate::Nor(x, y) => {
            Bounded::copy_of(&[s, with_net(s, x), with_net(s, y), with_both(s, x, y)], s)
        }
        Gate::Xnor(x, y) => Bounded::copy_of(&[s, with_net(s, x), with_net(s, y)], s),
        Gate::Not(x) => Bounded::copy_of(&[s, with_net(s, x)], s),
        Gate::Buf(x) => Bounded::copy_of(&[with_net(s, x)], s),
        Gate::Zero => Bounded::new(s),
        Gate::One => Bounded::copy_of(&[s], s),
    }
}
