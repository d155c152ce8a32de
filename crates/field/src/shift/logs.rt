// The tables of powers and logarithms of a shift field.
ghost use Rattle.std.specs.Prelude.{◌≡◌, ℕ, ◌+◌, ◌<◌, ◌≤◌, T, IfSome, slice_index};
ghost use Rattle.field.specs.Logged.{raised, code, Logged};

use super::Tables;
use super::base::Base;
use crate::poly::Modulus;

// The first powers of a base.
fn powers_of(m: Modulus, base: Base) -> [u16; 512]
    ensures { (i : ℕ) → i < 512 → slice_index result i ≡ raised m.k m.p (code base) i }
{
    let mut powers = [0; 512];
    let mut y = 1;
    for power in &mut powers {
        *power = y;
        y = base.times(m, y);
    }
    powers
}

// A place of each code among the first powers, where it has one.
fn logs_of(powers: &[u16; 512], order: u16) -> [u16; 256]
    requires codes { (i : ℕ) → i < 512 → slice_index powers.now i < 256 }
    requires small { order ≤ 256 }
    ensures { (a : ℕ) → slice_index result a < 256 }
{
    let mut logs = [0; 256];
    for (i, power) in (0..order).zip(powers) {
        logs[usize::from(*power)] = i;
    }
    logs
}

impl Tables {
    // Whether each code but 0 is the power at its logarithm.
    fn complete(&self, order: u16) -> bool
        requires { order ≤ 256 }
        ensures { T result → (a : ℕ) → 0 < a → a < order → slice_index self.now.powers (slice_index self.now.logs a) ≡ a }
    {
        (1..order).all(|a| self.powers[usize::from(self.logs[usize::from(a)])] == a)
    }

    // The tables by the powers of a base, where these are all codes but 0.
    fn by(m: Modulus, base: Base) -> Option<Tables>
        ensures { IfSome result (λ t. Logged m.k m.p t.powers t.logs) }
    {
        let order = 1 << m.k;
        let powers = powers_of(m, base);
        let logs = logs_of(&powers, order);
        Some(Tables { powers, logs }).filter(|t| t.complete(order))
    }

    // The tables by the powers of x + 1, or else of x.
    pub(super) fn of(m: Modulus) -> Option<Tables>
        ensures { IfSome result (λ t. Logged m.k m.p t.powers t.logs) }
    {
        Tables::by(m, Base::XPlusOne).or_else(|| Tables::by(m, Base::X))
    }

    // The power at the sum of the logarithms of a and b.
    pub(super) fn product(&self, a: u16, b: u16) -> u16
        requires first { a < 256 }
        requires second { b < 256 }
        ensures { result ≡ slice_index self.now.powers (slice_index self.now.logs a + slice_index self.now.logs b) }
    {
        let i = self.logs[usize::from(a)] + self.logs[usize::from(b)];
        self.powers[usize::from(i)]
    }
}
