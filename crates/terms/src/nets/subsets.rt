// Subsets, sizes, and the sets of the first 64 nets.
ghost use Rattle.std.specs.Prelude.{◌≡◌, ℕ, ◌/◌, ◌%◌, ◌^◌, ◌<◌, ◌==◌};
ghost use Rattle.terms.specs.Counts.{nets_in, net_set};
ghost use Rattle.terms.specs.Sets.{holds, Own};
ghost use Rattle.terms.specs.Values.{set_on};

use super::NetSet;

// Whether the set of the words `inner` is a subset of that of `outer`.
fn covers(outer: [u64; 4], inner: [u64; 4]) -> bool
    ensures { result ≡ set_on (holds (net_set outer)) (net_set inner) }
{
    inner.iter().zip(&outer).all(|(i, o)| i & !o == 0)
}

impl NetSet {
    // Whether `other` holds every net of the set.
    pub fn is_subset(self, other: NetSet) -> bool
        ensures { result ≡ set_on (holds other) self }
    {
        covers(other.words, self.words)
    }

    // How many nets the set holds.
    pub fn size(self) -> u32
        ensures { result ≡ nets_in self }
    {
        self.words.iter().map(|word| word.count_ones()).sum()
    }

    // The set of those of the nets 0 to 63 whose bit is one.
    pub fn of_low(bits: u64) -> NetSet
        ensures own { Own result }
        ensures members { (g : ℕ) → holds result g ≡ (bits / 2 ^ g % 2 == 1) }
    {
        NetSet {
            words: [bits, 0, 0, 0],
        }
    }

    // The nets 0 to 63 of the set, as the bits of a number.
    pub fn low(self) -> u64
        ensures { (g : ℕ) → g < 64 → (result / 2 ^ g % 2 == 1) ≡ holds self g }
    {
        self.words[0]
    }
}
