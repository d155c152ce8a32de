// How many rows the products of a set of a given shape can have.
ghost use Rattle.std.specs.Prelude.{◌≡◌, ◌*◌, ◌<◌, ◌≤◌, [], ◌∷◌};
ghost use Rattle.algebra.specs.Field.{size};
ghost use Rattle.terms.specs.Sets.{holds};
ghost use Rattle.cards.specs.Shapes.{counted, exponents as exponents_in, rows as rows_in};

use super::Shape;
use field::Field;
use terms::nets::NetSet;

// Words of `width` bits, over a field of `order` codes.
#[derive(Clone, Copy)]
pub(super) struct Words {
    pub(super) width: usize,
    pub(super) order: usize,
    ghost some: { 0 < width },
    ghost narrow: { width ≤ 8 },
    ghost small: { order ≤ 256 },
}

impl Words {
    // The words of a field.
    pub(super) fn of<F: Field>(field: &F) -> Self
        ensures width { result.width ≡ (F.model field.now).width }
        ensures order { result.order ≡ size (F.model field.now) }
    {
        Words {
            width: field.width() as usize,
            order: usize::from(field.order()),
        }
    }

    // The shape of a set of nets below `places`.
    pub(super) fn shape(&self, s: NetSet, places: usize) -> Shape
        requires { places ≤ 3 * self.now.width }
        ensures { result.counts ≡ counted self.now.width (holds s) 0 places (0 ∷ (0 ∷ (0 ∷ []))) }
    {
        let mut counts = [0; 3];
        for p in 0..places {
            if s.has(p) {
                counts[p / self.width] += 1;
            }
        }
        Shape { counts }
    }

    // As many exponents of one word at most have the products of `s` sums.
    fn exponents(&self, s: usize) -> usize
        ensures value { result ≡ exponents_in self.now.width self.now.order s }
        ensures most { result ≤ 256 }
    {
        let mut count = 1;
        for _ in 0..s {
            count = (count * self.width).min(self.order);
        }
        count
    }

    // As many rows at most have the products of a set of this shape.
    pub(super) fn rows(&self, x: Shape) -> usize
        ensures value { result ≡ rows_in self.now.width self.now.order x.counts }
        ensures most { result ≤ 16777216 }
    {
        let [a, b, c] = x.counts.map(|s| self.exponents(s));
        a * (b * c)
    }
}
