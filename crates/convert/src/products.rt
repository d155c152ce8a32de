// Products of terms, added to a table in order.
ghost use Rattle.std.specs.Prelude.{◌≡◌, true, [], IfOk};
ghost use Rattle.algebra.specs.Field.{product};
ghost use Rattle.terms.specs.Lent.{live, capacity, Sound, Kept};
ghost use Rattle.terms.specs.Additions.{adding};
ghost use Rattle.convert.specs.Owned.{Owned};
ghost use Rattle.convert.specs.Products.{products, all_products};
ghost use Rattle.convert.specs.Convert.{Reached};

use field::Field;
use terms::{Full, Kind, Term, TermTable};

// The kind of the monomials, and the field of the codes.
#[derive(Drop)]
pub struct Ring<'a, K, F> {
    pub kind: &'a K,
    pub field: &'a F,
}

impl<K, F: Field> Ring<'_, K, F> {
    // Adds the product of `t` with each term of `factor`, in order.
    fn add_products<M: Copy>(
        &self,
        t: &Term<M>,
        factor: &[Term<M>],
        out: &mut TermTable<M>,
    ) -> Result<(), Full>
    where
        K: Kind<M>,
        requires sound { Sound (K.model self.now.kind.now) out.old }
        requires own { (K.model self.now.kind.now).own t.now.mono ≡ true }
        requires owned { Owned (K.model self.now.kind.now) factor.now }
        ensures kept { Kept (K.model self.now.kind.now) out.old out.new }
        ensures sum { Reached (adding (K.model self.now.kind.now) (capacity out.old) (products (K.model self.now.kind.now) (product (F.model self.now.field.now)) t.now.code t.now.mono factor.now) (live out.old)) (live out.new) (live out.new) result }
    {
        for u in factor {
            let code = self.field.mul(t.code, u.code);
            let mono = self.kind.times(t.mono, u.mono);
            out.add(self.kind, code, mono)?;
        }
        Ok(())
    }

    // Adds the product of every term of `first`, in order, with each term of `factor`, in order.
    pub fn multiply<M: Copy>(
        &self,
        first: &TermTable<M>,
        factor: &[Term<M>],
        out: &mut TermTable<M>,
    ) -> Result<(), Full>
    where
        K: Kind<M>,
        requires sound { Sound (K.model self.now.kind.now) out.old }
        requires first { (Sound (K.model self.now.kind.now) first.now) × (Owned (K.model self.now.kind.now) (live first.now)) }
        requires owned { Owned (K.model self.now.kind.now) factor.now }
        ensures kept { Kept (K.model self.now.kind.now) out.old out.new }
        ensures sum { Reached (adding (K.model self.now.kind.now) (capacity out.old) (all_products (K.model self.now.kind.now) (product (F.model self.now.field.now)) (live first.now) factor.now) (live out.old)) (live out.new) (live out.new) result }
    {
        for t in first.terms() {
            self.add_products(t, factor, out)?;
        }
        Ok(())
    }

    // Multiplies `first` by `factor`, through `second`.
    pub(crate) fn multiply_by<M: Copy>(
        &self,
        factor: &[Term<M>],
        first: &mut TermTable<M>,
        second: &mut TermTable<M>,
    ) -> Result<(), Full>
    where
        K: Kind<M>,
        requires owned { Owned (K.model self.now.kind.now) factor.now }
        requires first { Sound (K.model self.now.kind.now) first.old }
        requires own { Owned (K.model self.now.kind.now) (live first.old) }
        requires second { Sound (K.model self.now.kind.now) second.old }
        requires rooms { capacity second.old ≡ capacity first.old }
        ensures first { Kept (K.model self.now.kind.now) first.old first.new }
        ensures second { Kept (K.model self.now.kind.now) second.old second.new }
        ensures worked { Reached (adding (K.model self.now.kind.now) (capacity first.old) (all_products (K.model self.now.kind.now) (product (F.model self.now.field.now)) (live first.old) factor.now) []) (live first.new) (live second.new) result }
        ensures own { IfOk result (λ _. Owned (K.model self.now.kind.now) (live first.new)) }
    {
        second.reset(self.kind);
        self.multiply(first, factor, second)?;
        first.refill(self.kind, second)
    }
}
