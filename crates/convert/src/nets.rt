// The places that a net set holds.
ghost use Rattle.terms.specs.Sets.{holds};

use crate::Holds;
use terms::nets::{NetSet, Nets};

// A net set holds place p if net p is in it.
impl Holds<NetSet> for Nets {
    ghost held = { λ _ s p. holds s p };

    fn holds(&self, s: NetSet, p: usize) -> bool {
        s.has(p)
    }
}
