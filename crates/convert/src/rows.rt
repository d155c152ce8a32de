ghost use Rattle.std.specs.Prelude.{◌<◌, ◌≤◌};
ghost use Rattle.convert.specs.Places.{row_held};

use crate::Holds;

// The bits of the exponents of a row of three words, each of `width` bits.
#[derive(Clone, Copy)]
pub struct ExponentBits {
    pub width: usize,
    ghost some: { 0 < width },
    ghost few: { width ≤ 16 },
}

// A row holds place p if bit p % width of exponent p / width is one.
impl Holds<[u16; 3]> for ExponentBits {
    ghost held = { λ x r p. row_held x.width r p };

    fn holds(&self, s: [u16; 3], p: usize) -> bool {
        s.get(p / self.width)
            .is_some_and(|e| e >> (p % self.width) & 1 == 1)
    }
}
