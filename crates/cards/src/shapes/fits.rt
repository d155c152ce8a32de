// Whether the shapes of a bit form's sets are so few and so small that no table can be full.
ghost use Rattle.std.specs.Prelude.{◌≡◌, ◌*◌, ◌≤◌, T};
ghost use Rattle.algebra.specs.Field.{size};
ghost use Rattle.algebra.specs.Lists.{Mem};
ghost use Rattle.cards.specs.Shapes.{ShapesFit};
ghost use Rattle.cards.specs.Met.{met, Sums};
ghost use Rattle.cards.specs.declared.shapes.Shape.{Shape};

use super::Shape;
use super::bounds::Words;
use bounded::Bounded;
use field::Field;
use terms::Term;
use terms::nets::NetSet;

// The most shapes that are told apart.
const MAX_SHAPES: usize = 16;

// Shapes that were met, each once, and how many rows all of them have.
#[derive(Drop)]
struct Met {
    shapes: Bounded<Shape, MAX_SHAPES>,
    rows: usize,
}

impl Met {
    // Whether the shape was met before, or can be noted: it has at most `cap` rows, and there is a place for it.
    fn note(&mut self, words: &Words, cap: usize, x: Shape) -> bool
        requires { Sums words.now.width words.now.order cap self.old }
        ensures sums { Sums words.now.width words.now.order cap self.new }
        ensures kept { (y : Shape) → Mem y (met self.old) → Mem y (met self.new) }
        ensures has { T result → Mem x (met self.new) }
    {
        if self.shapes.as_slice().contains(&x) {
            return true;
        }
        let n = words.rows(x);
        if self.shapes.len() == MAX_SHAPES || n > cap {
            return false;
        }
        self.shapes.push(x);
        self.rows += n;
        true
    }
}

// Whether no product table of `cap` rows and no card table of `count` rows can be full, by the shapes of the sets of a bit form in `n` words.
pub(crate) fn shapes_fit<F: Field>(
    field: &F,
    n: usize,
    bits: &[Term<NetSet>],
    cap: usize,
    count: usize,
) -> bool
    requires { n ≤ 3 }
    ensures { T result → ShapesFit (F.model field.now).width (size (F.model field.now)) (n * (F.model field.now).width) cap count bits.now }
{
    let words = Words::of(field);
    let places = n * words.width;
    let mut found = Met {
        shapes: Bounded::new(Shape { counts: [0; 3] }),
        rows: 0,
    };
    for t in bits {
        if !found.note(&words, cap, words.shape(t.mono, places)) {
            return false;
        }
    }
    found.rows <= count
}
