// The keywords.
ghost use Rattle.std.specs.Prelude.{◌≡◌, ◌++◌, MatchOption};
ghost use Rattle.lines.specs.Text.{keyword, Begins};

use crate::{Head, Op};

// The keyword that `s` begins with, and what follows it. (One `match` of twelve arms leaves a single goal of sixty cases.)
pub(crate) fn cut_head(s: &[u8]) -> Option<(Head, &[u8])>
    ensures { MatchOption result ((h : Head) → Begins h s.now → ⊥) (λ x. s.now ≡ keyword x.0 ++ x.1.now) }
{
    if let [b'w', b'o', b'r', b'd', b's', rest @ ..] = s {
        return Some((Head::Words, rest));
    }
    if let [b'o', b'u', b't', rest @ ..] = s {
        return Some((Head::Out, rest));
    }
    if let [b'a', b'n', b'd', rest @ ..] = s {
        return Some((Head::Gate(Op::And), rest));
    }
    if let [b'o', b'r', rest @ ..] = s {
        return Some((Head::Gate(Op::Or), rest));
    }
    if let [b'x', b'o', b'r', rest @ ..] = s {
        return Some((Head::Gate(Op::Xor), rest));
    }
    if let [b'n', b'a', b'n', b'd', rest @ ..] = s {
        return Some((Head::Gate(Op::Nand), rest));
    }
    if let [b'n', b'o', b'r', rest @ ..] = s {
        return Some((Head::Gate(Op::Nor), rest));
    }
    if let [b'x', b'n', b'o', b'r', rest @ ..] = s {
        return Some((Head::Gate(Op::Xnor), rest));
    }
    if let [b'n', b'o', b't', rest @ ..] = s {
        return Some((Head::Gate(Op::Not), rest));
    }
    if let [b'b', b'u', b'f', rest @ ..] = s {
        return Some((Head::Gate(Op::Buf), rest));
    }
    if let [b'z', b'e', b'r', b'o', rest @ ..] = s {
        return Some((Head::Gate(Op::Zero), rest));
    }
    if let [b'o', b'n', b'e', rest @ ..] = s {
        return Some((Head::Gate(Op::One), rest));
    }
    None
}
