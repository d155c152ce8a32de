// The least set of nets at which two bit forms differ.
ghost use Rattle.std.specs.Prelude.{◌≡◌};
ghost use Rattle.terms.specs.Forms.{Form};
ghost use Rattle.terms.specs.Nets.{net_model};
ghost use Rattle.terms.specs.Terms.{Falling};
ghost use Rattle.forms.specs.Differences.{NoneAbove, LeadingIs, RowOf, better, DifferenceIs};
ghost use Rattle.forms.specs.Theorems.{DifferenceLaws};

use terms::nets::{NetSet, Nets};
use terms::{Kind, Term};

// The greatest set of both lists of terms, where there is a term.
fn leading(left: &[Term<NetSet>], right: &[Term<NetSet>]) -> Option<NetSet>
    requires left { Falling net_model left.now }
    requires right { Falling net_model right.now }
    ensures { LeadingIs left.now right.now result }
{
    match (left, right) {
        ([], []) => None,
        ([a, ..], []) => Some(a.mono),
        ([], [b, ..]) => Some(b.mono),
        ([a, ..], [b, ..]) if Nets.less(a.mono, b.mono) => Some(b.mono),
        ([a, ..], [_, ..]) => Some(a.mono),
    }
}

// The code that stands with `set`, above which no set of the terms stands, and the terms without it.
fn row_of(terms: &[Term<NetSet>], set: NetSet) -> (u16, &[Term<NetSet>])
    requires falling { Falling net_model terms.now }
    requires above { NoneAbove set terms.now }
    ensures { RowOf set result.0 terms.now result.1.now }
{
    match terms {
        [first, rest @ ..] if !Nets.less(first.mono, set) => (first.code, rest),
        _ => (0, terms),
    }
}

// The set with fewer nets; of two with as many, the later.
fn fewer(best: Option<NetSet>, set: NetSet) -> NetSet
    ensures { result ≡ better best set }
{
    match best {
        Some(least) if least.size() < set.size() => least,
        _ => set,
    }
}

// Of the sets at which two forms differ, the lowest of those with the fewest nets.
pub fn least_difference(left: &[Term<NetSet>], right: &[Term<NetSet>]) -> Option<NetSet>
    requires left { Form left.now }
    requires right { Form right.now }
    ensures { DifferenceIs left.now right.now result }
{
    let (mut ls, mut rs) = (left, right);
    let mut best = None;
    while let Some(set) = leading(ls, rs) {
        let (a, left_rest) = row_of(ls, set);
        let (b, right_rest) = row_of(rs, set);
        if a != b {
            best = Some(fewer(best, set));
        }
        (ls, rs) = (left_rest, right_rest);
    }
    best
}

// The input of the least difference is the first at which the values of two bit forms differ, and forms are fixed by their values.
pub fn differences_stand()
    ensures { DifferenceLaws }
{}
