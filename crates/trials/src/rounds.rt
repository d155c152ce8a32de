// There and back: a job goes from gates to bits, to words, back to bits and to words again; and its card is held against the gates' Boolean
// tables at every input, where an input has at most 8 bits.
use crate::circuit::output;
use cards::bits::to_bits;
use cards::words::to_words;
use fault::Fault;
use field::Field;
use field::shift::Shift;
use gates::bit_form;
use job::open::{Work, open};
use netlist::circuit::Netlist;
use std::fmt;
use terms::nets::{NetSet, Nets};
use terms::{Kind, Term};

// The rows of each table.
const ROWS: usize = 512;

// A table of bit terms, and a table of card rows, both empty.
fn no_bits() -> [Term<NetSet>; ROWS] {
    [Term {
        code: 0,
        mono: Nets.unit(),
    }; ROWS]
}

const NO_ROWS: [Term<[u16; 3]>; ROWS] = [Term {
    code: 0,
    mono: [0; 3],
}; ROWS];

// x to the power e.
fn power(f: &Shift, x: u16, e: u16) -> u16 {
    (0..e).fold(f.one(), |p, _| f.mul(p, x))
}

// The value of a card where the bits of the inputs, word by word, are those of `input`.
fn value(f: &Shift, card: &[Term<[u16; 3]>], input: u32) -> u16 {
    let (order, width) = (u32::from(f.order()), f.width());
    let words = [input, input >> width, input >> (2 * width)].map(|x| (x % order) as u16);
    card.iter().fold(0, |sum, term| {
        let factors = words.iter().zip(&term.mono);
        sum ^ factors.fold(term.code, |p, (x, e)| f.mul(p, power(f, *x, *e)))
    })
}

// How many inputs there are, where an input has at most 8 bits; else 0.
fn inputs(net: &Netlist) -> u32 {
    match net.inputs() {
        bits @ 0..=8 => 1 << bits,
        _ => 0,
    }
}

// Whether the bit form and the card are the same on the way back.
#[derive(Clone, Copy)]
struct Kept {
    bits: bool,
    card: bool,
}

fn back(
    field: &Shift,
    words: usize,
    form: &[Term<NetSet>],
    card: &[Term<[u16; 3]>],
) -> Result<Kept, Fault> {
    let (mut first, mut second, mut bits) = (no_bits(), no_bits(), no_bits());
    let terms = to_bits(field, words, card, &mut first, &mut second, &mut bits)?;
    let again = &bits[..terms];
    let (mut first, mut second, mut rows) = (NO_ROWS, NO_ROWS, NO_ROWS);
    let count = to_words(field, words, again, &mut first, &mut second, &mut rows);
    Ok(Kept {
        bits: again == form,
        card: count.is_ok_and(|n| &rows[..n] == card),
    })
}

// The numbers of bit terms, of card rows and of inputs that were tried; whether the card was right at each; and what the way back gave.
#[derive(Clone, Copy)]
pub(crate) struct RoundTrip {
    terms: usize,
    rows: usize,
    tried: u32,
    right: bool,
    kept: Result<Kept, Fault>,
}

impl fmt::Display for RoundTrip {
    fn fmt<W: fmt::Write>(&self, f: &mut fmt::Formatter<W>) -> fmt::Result {
        let RoundTrip {
            terms,
            rows,
            tried,
            right,
            kept,
        } = self;
        match kept {
            Ok(Kept { bits, card }) => write!(
                f,
                "round: {terms} bit terms, {rows} rows, {tried} inputs, right {right}, same bits {bits}, same card {card}"
            ),
            Err(_) => write!(
                f,
                "round: full, {terms} bit terms, {rows} rows, {tried} inputs, right {right}"
            ),
        }
    }
}

// The round of a job that has a card.
pub(crate) fn round(job: &[u8]) -> Result<RoundTrip, Fault> {
    let Work { field, netlist } = open(job)?;
    let words = usize::from(netlist.words());
    let mut bits = no_bits();
    let terms = bit_form(&netlist, &mut bits)?;
    let form = &bits[..terms];
    let (mut first, mut second, mut card) = (NO_ROWS, NO_ROWS, NO_ROWS);
    let rows = to_words(&field, words, form, &mut first, &mut second, &mut card)?;
    let card = &card[..rows];
    let tried = inputs(&netlist);
    Ok(RoundTrip {
        terms,
        rows,
        tried,
        right: (0..tried).all(|input| value(&field, card, input) == output(&netlist, input)),
        kept: back(&field, words, form, card),
    })
}
