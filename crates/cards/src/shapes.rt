// The shapes of the sets of a bit form: whether they are so few and so small that no table can be full.

// How many bits of each word a set holds.
#[derive(Clone, Copy, PartialEq, Eq)]
pub(crate) struct Shape {
    counts: [usize; 3],
}

mod bounds;
mod fits;

pub(crate) use fits::shapes_fit;
