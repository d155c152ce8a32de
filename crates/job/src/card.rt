// A card: the canonical polynomial, in the input words, that a netlist computes.
use bounded::Bounded;
use terms::Term;

pub mod show;

// The most rows of a card.
pub(crate) const ROWS: usize = 512;

// One row of a card in `words` words.
#[derive(Clone, Copy)]
pub struct Row {
    words: usize,
    term: Term<[u16; 3]>,
}

// The first line of a card.
#[derive(Clone, Copy)]
pub struct Header {
    words: usize,
    width: u32,
    polynomial: u16,
    rows: usize,
    degree: u32,
}

// The card of `words` words of `width` bits over the field of `polynomial`.
#[derive(Clone, Copy)]
pub struct Card {
    pub words: usize,
    pub width: u32,
    pub polynomial: u16,
    pub rows: Bounded<Term<[u16; 3]>, ROWS>,
}
