// The places of a monomial, and what stands for each of them.
ghost use Rattle.std.specs.Prelude.{◌≡◌, ℕ, ◌*◌, ◌<◌, ◌≤◌, Bool, length};

use terms::Term;

// Which places a source monomial holds: the nets of a set, the one bits of a row's exponents.
pub trait Holds<S> {
    ghost held: { Self → S → ℕ → Bool };

    fn holds(&self, s: S, p: usize) -> bool
        ensures { result ≡ held self.now s p };
}

// What stands for each place: the terms of `sums` in blocks of `width`, one block a place.
#[derive(Drop)]
pub struct Factors<'a, M> {
    pub sums: &'a [Term<M>],
    pub width: usize,
    pub places: usize,
    pub ghost whole: { places * width ≤ length sums.now },
}

impl<'a, M: Copy> Factors<'a, M> {
    ghost use Rattle.convert.specs.Convert.{block};

    // The factor of place `p`.
    pub fn at(&self, p: usize) -> &'a [Term<M>]
        requires { p < self.now.places }
        ensures { result.now ≡ block self.now.width self.now.sums.now p }
    {
        &self.sums[p * self.width..][..self.width]
    }
}
