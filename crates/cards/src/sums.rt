// The sums that stand for the bits of the input words.
ghost use Rattle.std.specs.Prelude.{◌≡◌, ℕ, ◌*◌, ◌/◌, ◌%◌, ◌^◌, ◌<◌, ◌≤◌, true, List, [], length, slice_index, slice_index_or};
ghost use Rattle.algebra.specs.Field.{size};
ghost use Rattle.algebra.specs.Codes.{power};
ghost use Rattle.algebra.specs.Ops.{at_row};
ghost use Rattle.terms.specs.Terms.{term};
ghost use Rattle.terms.specs.declared.Term.{Term};
ghost use Rattle.cards.specs.Sums.{Squares, DualSquares, BitSums, single_net, BitSquares, WordSums};

use field::Field;
use field::dual::duals;
use std::array;
use terms::nets::{NetSet, Nets};
use terms::{Kind, Term};

// x, x^2, x^4, … x^128: each is the square of the one before it.
fn squares<F: Field>(field: &F, x: u16) -> [u16; 8]
    ensures { x < size (F.model field.now) → Squares (F.model field.now) x result }
{
    let mut row = [0; 8];
    let mut y = x;
    for square in &mut row {
        *square = y;
        y = field.mul(y, y);
    }
    row
}

// Row i, for each bit i of the field: code i, and its squares.
fn rows_of_squares<F: Field>(field: &F, codes: [u16; 8]) -> [[u16; 8]; 8]
    ensures { (i : ℕ) → i < (F.model field.now).width → slice_index codes i < size (F.model field.now) → Squares (F.model field.now) (slice_index codes i) (slice_index_or result i []) }
{
    let k = field.width() as usize;
    array::from_fn(
        |i| -> [u16; 8]
            requires { i < 8 }
            ensures { i < k → slice_index codes i < size (F.model field.entry.now) → Squares (F.model field.entry.now) (slice_index codes i) result }
        {
            if i < k {
                squares(field, codes[i])
            } else {
                [0; 8]
            }
        },
    )
}

// Row i: the dual of bit i, and its squares.
fn dual_squares<F: Field>(field: &F) -> [[u16; 8]; 8]
    ensures { DualSquares (F.model field.now) result }
{
    rows_of_squares(field, duals(field))
}

// Row i: the code 2^i, and its squares.
fn bit_squares<F: Field>(field: &F) -> [[u16; 8]; 8]
    ensures { BitSquares (F.model field.now) result }
{
    rows_of_squares(field, array::from_fn(|i| 1 << i))
}

// `places` sums of `width` terms each, in the places' order: `make` makes each from its place and its number in the sum. Then zero terms.
fn sums_by<M: Copy, F: Fn(usize, usize) -> Term<M>>(
    places: usize,
    width: usize,
    unit: M,
    make: F,
) -> [Term<M>; 192]
    requires some { 0 < width }
    requires few { places * width ≤ 192 }
    requires callable { (p j : ℕ) → p < places → j < width → F.pre make p j }
    ensures made { (t : ℕ) → t < 192 → t < places * width → (x : Term M) → F.post make (t / width) (t % width) (slice_index_or result t x) }
    ensures rest { (t : ℕ) → t < 192 → places * width ≤ t → (x : Term M) → slice_index_or result t x ≡ term 0 unit }
{
    // An index: `array::from_fn` goes over all 192 and hands the array on, and costs twice as much; of a part, or of a range zipped with the array, the proof is no plainer.
    let mut sums = [Term {
        code: 0,
        mono: unit,
    }; 192];
    for t in 0..places * width {
        sums[t] = make(t / width, t % width);
    }
    sums
}

// The exponent row with `e` at word `w`.
fn at_word(w: usize, e: u16) -> [u16; 3]
    requires { w < 3 }
    ensures { result ≡ at_row 3 w e }
{
    let mut row = [0; 3];
    row[w] = e;
    row
}

// The sums of the bits of `n` words: k terms for each place, in the places' order.
pub(crate) fn bit_sums<F: Field>(field: &F, n: usize) -> [Term<[u16; 3]>; 192]
    requires { n ≤ 3 }
    ensures { BitSums (F.model field.now) n result }
{
    let k = field.width() as usize;
    let powers = dual_squares(field);
    sums_by(
        n * k,
        k,
        [0; 3],
        |place, j| Term {
            code: powers[place % k][j],
            mono: at_word(place / k, 1 << j),
        },
    )
}

// The set of one net.
fn one_net(p: usize) -> NetSet
    requires { p < 64 }
    ensures { result ≡ single_net p }
{
    NetSet::of_net(p as u8)
}

// The sums of the powers 1, 2, 4, … of `n` words: k terms for each place, in the places' order.
pub(crate) fn word_sums<F: Field>(field: &F, n: usize) -> [Term<NetSet>; 192]
    requires { n ≤ 3 }
    ensures { WordSums (F.model field.now) n result }
{
    let k = field.width() as usize;
    let powers = bit_squares(field);
    sums_by(
        n * k,
        k,
        Nets.unit(),
        |place, i| Term {
            code: powers[i][place % k],
            mono: one_net(place / k * k + i),
        },
    )
}
