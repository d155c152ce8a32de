// From a bit form to its card.
ghost use Rattle.std.specs.Prelude.{◌≡◌, ℕ, ◌≤◌, min, List, length, replicate};
ghost use Rattle.terms.specs.Terms.{blank};
ghost use Rattle.cards.specs.Sums.{card_kind};
ghost use Rattle.cards.specs.Working.{word_count, card_fault, CardAnswered};

use crate::nested::Nested;
use crate::sums::bit_sums;
use convert::{Conversion, Factors, FullTable, Ring};
use fault::Fault;
use field::Field;
use terms::exps::Exps;
use terms::nets::{NetSet, Nets};
use terms::{Term, clear_rows};

// The refusal where a table is full.
fn refusal(full: FullTable) -> Fault
    ensures { result ≡ card_fault full }
{
    match full {
        FullTable::Product => Fault::ProductTableFull,
        FullTable::Outcome => Fault::CardTableFull,
    }
}

// The conversion for at most three words: in nested form, or else through the tables.
fn work<F: Field>(
    field: &F,
    n: usize,
    bits: &[Term<NetSet>],
    first: &mut [Term<[u16; 3]>],
    second: &mut [Term<[u16; 3]>],
    card: &mut [Term<[u16; 3]>],
) -> Result<usize, Fault>
    requires { n ≤ 3 }
    ensures first { first.new ≡ replicate (length first.old) (blank (card_kind (F.model field.now) n)) }
    ensures second { second.new ≡ replicate (length second.old) (blank (card_kind (F.model field.now) n)) }
    ensures card { CardAnswered (F.model field.now) n (min (length first.old) (length second.old)) (length card.old) bits.now card.new result }
{
    let kind = Exps::of_words(field.order(), n);
    let sums = bit_sums(field, n);
    let width = field.width() as usize;
    let ring = Ring { kind: &kind, field };
    let factors = Factors {
        sums: &sums,
        width,
        places: n * width,
    };
    let conversion = Conversion::new(ring, &Nets, factors);
    let nested = Nested {
        conversion,
        words: n,
    };
    let cap = first.len().min(second.len());
    let Some(terms) = nested.answer(bits, cap, card) else {
        return nested
            .conversion
            .convert(bits, first, second, card)
            .map_err(refusal);
    };
    clear_rows(&kind, first);
    clear_rows(&kind, second);
    Ok(terms)
}

// The card of a bit form in `n` words, 1 to 3 (below 1 counts as 1, above 3 as 3): makes `card` hold it, and answers its number of terms.
// The product tables `first` and `second` have as many rows as the shorter of them.
pub fn to_words<F: Field>(
    field: &F,
    n: usize,
    bits: &[Term<NetSet>],
    first: &mut [Term<[u16; 3]>],
    second: &mut [Term<[u16; 3]>],
    card: &mut [Term<[u16; 3]>],
) -> Result<usize, Fault>
    ensures first { first.new ≡ replicate (length first.old) (blank (card_kind (F.model field.now) (word_count n))) }
    ensures second { second.new ≡ replicate (length second.old) (blank (card_kind (F.model field.now) (word_count n))) }
    ensures card { CardAnswered (F.model field.now) (word_count n) (min (length first.old) (length second.old)) (length card.old) bits.now card.new result }
{
    work(field, n.clamp(1, 3), bits, first, second, card)
}
