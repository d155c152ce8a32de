// What a shelf holds.
ghost use Rattle.std.specs.Prelude.{◌≡◌, ◌≤◌, true};
ghost use Rattle.bounded.specs.Items.{items};
ghost use Rattle.shelf.specs.Formed.{formed};

use bounded::Bounded;
use terms::Term;
use terms::nets::NetSet;

mod asking;
mod drawers;
mod filing;
mod rows;

// A bit form: falling sets with nonzero codes.
#[derive(Clone, Copy)]
pub struct Form {
    terms: Bounded<Term<NetSet>, 256>,
    ghost sorted: { formed (items terms) ≡ true },
}

// A drawer: what is filed in it, or nothing.
#[derive(Clone, Copy)]
pub struct Drawer {
    form: Option<Form>,
}

// The input words: their number, and the field that their codes are of.
#[derive(Drop)]
pub struct Words<F> {
    field: F,
    count: usize,
    ghost some: { 1 ≤ count },
    ghost few: { count ≤ 3 },
}

// Drawers 0 to 15, over a number of input words.
#[derive(Drop)]
pub struct Shelf<F> {
    words: Words<F>,
    drawers: [Drawer; 16],
}
