// The codes whose powers are tried.
ghost use Rattle.std.specs.Prelude.{◌≡◌, ◌^◌, ◌<◌};
ghost use Rattle.algebra.specs.Poly.{along, xtime};
ghost use Rattle.field.specs.Logged.{code};

use crate::poly::Modulus;

#[derive(Clone, Copy)]
pub(super) enum Base {
    X,
    XPlusOne,
}

impl Base {
    // y times this code.
    pub(super) fn times(self, m: Modulus, y: u16) -> u16
        requires { y < 2 ^ m.k }
        ensures { result ≡ along (xtime m.k m.p) y (code self) }
    {
        let z = m.times_x(y);
        match self {
            Base::X => z,
            Base::XPlusOne => y ^ z,
        }
    }
}
