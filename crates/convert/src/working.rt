// The conversion of a list of terms, one term after the other.
ghost use Rattle.std.specs.Prelude.{◌≡◌, min, length, replicate};
ghost use Rattle.algebra.specs.Field.{product};
ghost use Rattle.terms.specs.Terms.{blank};
ghost use Rattle.terms.specs.Lent.{live, capacity, Sound, Kept};
ghost use Rattle.terms.specs.Additions.{adding};
ghost use Rattle.convert.specs.Owned.{Owned, Owned-prop};
ghost use Rattle.convert.specs.Convert.{factors_of, Reached, multiplying, expanding, Expanded, converting, Worked, Answered};

use crate::FullTable;
use crate::places::{Factors, Holds};
use crate::products::Ring;
use field::Field;
use terms::{Full, Kind, Term, TermTable, clear_rows};

// Adds the terms of `first`, in order.
fn add_all<M: Copy, K: Kind<M>>(
    kind: &K,
    first: &TermTable<M>,
    out: &mut TermTable<M>,
) -> Result<(), Full>
    requires sound { Sound (K.model kind.now) out.old }
    requires first { Sound (K.model kind.now) first.now }
    ensures kept { Kept (K.model kind.now) out.old out.new }
    ensures sum { Reached (adding (K.model kind.now) (capacity out.old) (live first.now) (live out.old)) (live out.new) (live out.new) result }
{
    for t in first.terms() {
        out.add(kind, t.code, t.mono)?;
    }
    Ok(())
}

// A conversion to terms of the ring: what says which places a source term holds, and what stands for each place.
#[derive(Drop)]
pub struct Conversion<'a, M, K: Kind<M>, F, H> {
    pub ring: Ring<'a, K, F>,
    pub source: &'a H,
    pub factors: Factors<'a, M>,
    pub ghost owned: { Owned (K.model ring.kind.now) factors.sums.now } by { Owned-prop (K.model ring.kind.now) factors.sums.now },
}

impl<'a, M, K: Kind<M>, F, H> Conversion<'a, M, K, F, H> {
    // The conversion by these parts.
    pub fn new(ring: Ring<'a, K, F>, source: &'a H, factors: Factors<'a, M>) -> Self
        requires { Owned (K.model ring.kind.now) factors.sums.now }
        ensures ring { result.ring ≡ ring.entry }
        ensures source { result.source.now ≡ source.now }
        ensures factors { result.factors ≡ factors.entry }
    {
        Conversion {
            ring,
            source,
            factors,
        }
    }
}

impl<M: Copy, K: Kind<M>, F: Field, H> Conversion<'_, M, K, F, H> {
    // Multiplies `first` by the factor of each place that `s` holds, rising, through `second`.
    fn multiply_out<S: Copy>(
        &self,
        s: S,
        first: &mut TermTable<M>,
        second: &mut TermTable<M>,
    ) -> Result<(), Full>
    where
        H: Holds<S>,
        requires first { Sound (K.model self.now.ring.kind.now) first.old }
        requires own { Owned (K.model self.now.ring.kind.now) (live first.old) }
        requires second { Sound (K.model self.now.ring.kind.now) second.old }
        requires rooms { capacity second.old ≡ capacity first.old }
        ensures first { Kept (K.model self.now.ring.kind.now) first.old first.new }
        ensures second { Kept (K.model self.now.ring.kind.now) second.old second.new }
        ensures worked { Reached (multiplying (K.model self.now.ring.kind.now) (product (F.model self.now.ring.field.now)) (capacity first.old) (factors_of self.now.factors (H.held self.now.source.now s)) (live first.old)) (live first.new) (live second.new) result }
    {
        for p in 0..self.factors.places {
            if self.source.holds(s, p) {
                self.ring.multiply_by(self.factors.at(p), first, second)?;
            }
        }
        Ok(())
    }

    // Makes `first` hold the code of `t` times the factors of the places that `t` holds.
    fn expand<S: Copy>(
        &self,
        t: Term<S>,
        first: &mut TermTable<M>,
        second: &mut TermTable<M>,
    ) -> Result<(), Full>
    where
        H: Holds<S>,
        requires second { Sound (K.model self.now.ring.kind.now) second.old }
        requires rooms { capacity second.old ≡ capacity first.old }
        ensures first { Kept (K.model self.now.ring.kind.now) first.old first.new }
        ensures second { Kept (K.model self.now.ring.kind.now) second.old second.new }
        ensures worked { Expanded (expanding (K.model self.now.ring.kind.now) (product (F.model self.now.ring.field.now)) (capacity first.old) t.code (factors_of self.now.factors (H.held self.now.source.now t.mono))) (live first.new) result }
    {
        let kind = self.ring.kind;
        first.clear(kind);
        first.add(kind, t.code, kind.unit())?;
        self.multiply_out(t.mono, first, second)
    }

    // Converts each term in turn, and adds what it makes to `res`.
    fn work<S: Copy>(
        &self,
        terms: &[Term<S>],
        first: &mut TermTable<M>,
        second: &mut TermTable<M>,
        res: &mut TermTable<M>,
    ) -> Result<(), FullTable>
    where
        H: Holds<S>,
        requires res { Sound (K.model self.now.ring.kind.now) res.old }
        requires first { Sound (K.model self.now.ring.kind.now) first.old }
        requires second { Sound (K.model self.now.ring.kind.now) second.old }
        requires rooms { capacity second.old ≡ capacity first.old }
        ensures first { Kept (K.model self.now.ring.kind.now) first.old first.new }
        ensures second { Kept (K.model self.now.ring.kind.now) second.old second.new }
        ensures res { Kept (K.model self.now.ring.kind.now) res.old res.new }
        ensures worked { Worked (converting (K.model self.now.ring.kind.now) (product (F.model self.now.ring.field.now)) (capacity first.old) (capacity res.old) (λ s. factors_of self.now.factors (H.held self.now.source.now s)) terms.now (live res.old)) (live res.new) result }
    {
        for t in terms {
            self.expand(*t, first, second)
                .map_err(|_| FullTable::Product)?;
            add_all(self.ring.kind, first, res).map_err(|_| FullTable::Outcome)?;
        }
        Ok(())
    }

    // The conversion where both product tables have the same number of rows.
    fn convert_even<S: Copy>(
        &self,
        terms: &[Term<S>],
        first: &mut [Term<M>],
        second: &mut [Term<M>],
        res: &mut [Term<M>],
    ) -> Result<usize, FullTable>
    where
        H: Holds<S>,
        requires even { length second.old ≡ length first.old }
        ensures first { first.new ≡ replicate (length first.old) (blank (K.model self.now.ring.kind.now)) }
        ensures second { second.new ≡ replicate (length second.old) (blank (K.model self.now.ring.kind.now)) }
        ensures worked { Answered (K.model self.now.ring.kind.now) (product (F.model self.now.ring.field.now)) (length first.old) (length res.old) (λ s. factors_of self.now.factors (H.held self.now.source.now s)) terms.now res.new result }
    {
        let kind = self.ring.kind;
        let mut one = TermTable::new(kind, first);
        let mut two = TermTable::new(kind, second);
        let mut out = TermTable::new(kind, res);
        let end = self.work(terms, &mut one, &mut two, &mut out);
        one.clear(kind);
        two.clear(kind);
        match end {
            Ok(()) => Ok(out.len()),
            Err(full) => {
                out.clear(kind);
                Err(full)
            }
        }
    }

    // Converts the terms into `res`, and answers how many terms it has then. The product tables' capacity is the smaller of their lengths.
    pub fn convert<S: Copy>(
        &self,
        terms: &[Term<S>],
        first: &mut [Term<M>],
        second: &mut [Term<M>],
        res: &mut [Term<M>],
    ) -> Result<usize, FullTable>
    where
        H: Holds<S>,
        ensures first { first.new ≡ replicate (length first.old) (blank (K.model self.now.ring.kind.now)) }
        ensures second { second.new ≡ replicate (length second.old) (blank (K.model self.now.ring.kind.now)) }
        ensures worked { Answered (K.model self.now.ring.kind.now) (product (F.model self.now.ring.field.now)) (min (length first.old) (length second.old)) (length res.old) (λ s. factors_of self.now.factors (H.held self.now.source.now s)) terms.now res.new result }
    {
        let kind = self.ring.kind;
        clear_rows(kind, first);
        clear_rows(kind, second);
        let cap = first.len().min(second.len());
        self.convert_even(terms, &mut first[..cap], &mut second[..cap], res)
    }
}
