// Numbers of at most three digits.
ghost use Rattle.std.specs.Prelude.{ℕ, List, MatchOption};
ghost use Rattle.lines.specs.Text.{NoDigit, Digit, Number};

// The digit that `s` begins with, and what follows it.
fn cut_digit(s: &[u8]) -> Option<(u16, &[u8])>
    ensures { MatchOption result (NoDigit s.now) (λ x. Digit s.now x.0 x.1.now) }
{
    match s {
        [d @ b'0'..=b'9', rest @ ..] => Some((u16::from(*d - b'0'), rest)),
        _ => None,
    }
}

// The number that `s` begins with, of at most three digits and with no leading zero, and what follows it.
pub(crate) fn cut_number(s: &[u8]) -> Option<(u16, &[u8])>
    ensures { MatchOption result ((v : ℕ) (rest : List ℕ) → Number s.now v rest → ⊥) (λ x. Number s.now x.0 x.1.now) }
{
    let (a, after_a) = cut_digit(s)?;
    let Some((b, after_b)) = cut_digit(after_a) else {
        return Some((a, after_a));
    };
    if a == 0 {
        return None;
    }
    let Some((c, after_c)) = cut_digit(after_b) else {
        return Some((10 * a + b, after_b));
    };
    match cut_digit(after_c) {
        Some(_) => None,
        None => Some((100 * a + 10 * b + c, after_c)),
    }
}
