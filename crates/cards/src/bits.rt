// From a polynomial in the words to its bit form.
ghost use Rattle.std.specs.Prelude.{◌≡◌, ℕ, ◌≤◌, min, length, replicate};
ghost use Rattle.algebra.specs.Field.{product};
ghost use Rattle.terms.specs.Nets.{net_model};
ghost use Rattle.terms.specs.Terms.{blank};
ghost use Rattle.convert.specs.Convert.{Answered};
ghost use Rattle.cards.specs.BitsWorking.{word_factors, BitsAnswered};
ghost use Rattle.cards.specs.Working.{word_count};

use crate::sums::word_sums;
use convert::rows::ExponentBits;
use convert::{Conversion, Factors, FullTable, Ring};
use fault::Fault;
use field::Field;
use terms::nets::{NetSet, Nets};
use terms::{Term, clear_rows};

// The most terms of a bit form.
const MAX_TERMS: usize = 256;

// The working for at most three words, however many terms it ends with.
fn work<F: Field>(
    field: &F,
    n: usize,
    card: &[Term<[u16; 3]>],
    first: &mut [Term<NetSet>],
    second: &mut [Term<NetSet>],
    bits: &mut [Term<NetSet>],
) -> Result<usize, FullTable>
    requires { n ≤ 3 }
    ensures first { first.new ≡ replicate (length first.old) (blank net_model) }
    ensures second { second.new ≡ replicate (length second.old) (blank net_model) }
    ensures bits { Answered net_model (product (F.model field.now)) (min (length first.old) (length second.old)) (length bits.old) (word_factors (F.model field.now) n) card.now bits.new result }
{
    let width = field.width() as usize;
    let sums = word_sums(field, n);
    let ring = Ring { kind: &Nets, field };
    let places = ExponentBits { width };
    let factors = Factors {
        sums: &sums,
        width,
        places: n * width,
    };
    Conversion::new(ring, &places, factors).convert(card, first, second, bits)
}

// The bit form of a polynomial in `n` words, 1 to 3 (below 1 counts as 1, above 3 as 3): makes `bits` hold it, and answers its number of terms, which is at most 256.
// The product tables `first` and `second` have as many rows as the shorter of them.
pub fn to_bits<F: Field>(
    field: &F,
    n: usize,
    card: &[Term<[u16; 3]>],
    first: &mut [Term<NetSet>],
    second: &mut [Term<NetSet>],
    bits: &mut [Term<NetSet>],
) -> Result<usize, Fault>
    ensures first { first.new ≡ replicate (length first.old) (blank net_model) }
    ensures second { second.new ≡ replicate (length second.old) (blank net_model) }
    ensures bits { BitsAnswered (F.model field.now) (word_count n) (min (length first.old) (length second.old)) (length bits.old) card.now bits.new result }
{
    let n = n.clamp(1, 3);
    let terms = work(field, n, card, first, second, bits).map_err(|_| Fault::BitTableFull)?;
    if terms > MAX_TERMS {
        clear_rows(&Nets, bits);
        return Err(Fault::TooManyBitTerms);
    }
    Ok(terms)
}
