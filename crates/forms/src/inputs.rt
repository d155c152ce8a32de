// The value of a bit form at an input, and the input of a set of nets.
ghost use Rattle.std.specs.Prelude.{◌≡◌, ℕ, ◌*◌, ◌/◌, ◌%◌, ◌^◌, ◌<◌, ◌==◌, Some, None};
ghost use Rattle.terms.specs.Sets.{holds};
ghost use Rattle.terms.specs.Values.{value_under, bit_at};
ghost use Rattle.forms.specs.Inputs.{Width, NoWidth, ValueIs, InputOf, InputIs};

use terms::Term;
use terms::nets::NetSet;

// A number of bits that a word can have.
#[derive(Clone, Copy)]
struct WordBits {
    count: u32,
    ghost possible: { Width count },
}

impl WordBits {
    // So many bits, where a word can have them.
    fn of(width: u32) -> Option<WordBits>
        ensures { elim result [ Some bits ↦ bits.count ≡ width | None ↦ NoWidth width ] }
    {
        if (1..=16).contains(&width) {
            Some(WordBits { count: width })
        } else {
            None
        }
    }

    // The bits of the words in one number: bit i of word w is bit w · count + i.
    fn pack(self, words: [u16; 3]) -> u64
        ensures { (g : ℕ) → (result / 2 ^ g % 2 == 1) ≡ bit_at self.count words g }
    {
        let mask = (1 << self.count) - 1;
        words.iter().rev().fold(
            0,
            |upper, word| upper << self.count | u64::from(*word) & mask,
        )
    }

    // Word `w` of a number that holds three.
    fn word(self, number: u64, w: u32) -> u16
        requires { w < 3 }
        ensures { result ≡ number / 2 ^ (w * self.count) % 2 ^ self.count }
    {
        (number >> (w * self.count) & ((1 << self.count) - 1)) as u16
    }

    // The words whose one bits are the first nets of the set.
    fn unpack(self, set: NetSet) -> [u16; 3]
        ensures { InputOf self.count set result }
    {
        let number = set.low();
        [
            self.word(number, 0),
            self.word(number, 1),
            self.word(number, 2),
        ]
    }
}

// The sum of the codes whose sets hold only nets of `input`.
fn sum_within(terms: &[Term<NetSet>], input: NetSet) -> u16
    ensures { result ≡ value_under (holds input) terms.now }
{
    let mut sum = 0;
    for term in terms {
        if term.mono.is_subset(input) {
            sum ^= term.code;
        }
    }
    sum
}

// The value of a bit form at the words of an input: the sum, by XOR, of the codes whose sets hold only one bits.
pub fn value(terms: &[Term<NetSet>], width: u32, words: [u16; 3]) -> u16
    ensures { ValueIs width words terms.now result }
{
    match WordBits::of(width) {
        Some(bits) => sum_within(terms, NetSet::of_low(bits.pack(words))),
        None => 0,
    }
}

// The input whose one bits are the nets of the set: bit i of word w is net w · width + i.
pub fn input_of(set: NetSet, width: u32) -> [u16; 3]
    ensures { InputIs width set result }
{
    match WordBits::of(width) {
        Some(bits) => bits.unpack(set),
        None => [0; 3],
    }
}
