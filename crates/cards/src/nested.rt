// The card in nested form: the terms that hold a net are worked together, and their sum is multiplied once by that net's sum.
ghost use Rattle.std.specs.Prelude.{◌≡◌, ◌+◌, ◌*◌, ◌^◌, ◌<◌, ◌≤◌, true, T, [], length, take, IfSome, IfOk};
ghost use Rattle.algebra.specs.Field.{size};
ghost use Rattle.terms.specs.Exps.{exp_model, tops_for};
ghost use Rattle.terms.specs.Lent.{live, Kept};
ghost use Rattle.terms.specs.Sets.{holds, Within};
ghost use Rattle.terms.specs.Terms.{Codes, Monos, Table};
ghost use Rattle.cards.specs.Nested.{ByNet, CardTable, Gained, Finishes, NestedAnswer};
ghost use Rattle.cards.specs.Sums.{BitSums};

use crate::shapes::shapes_fit;
use convert::Conversion;
use field::Field;
use terms::exps::Exps;
use terms::nets::{NetSet, Nets};
use terms::{Full, Kind, Term, TermTable};

// The rows of an inner table.
const INNER: usize = 256;

// The terms that hold net `p` and the others, where those stand first.
fn by_net(bits: &[Term<NetSet>], p: usize) -> Option<(&[Term<NetSet>], &[Term<NetSet>])>
    ensures { IfSome result (λ x. ByNet p bits.now x.0.now x.1.now) }
{
    let n = bits.iter().take_while(|t| t.mono.has(p)).count();
    let (with, without) = bits.split_at(n);
    let in_order = without.iter().all(|t| !t.mono.has(p));
    in_order.then_some((with, without))
}

// Whether every net of the set is below `places`.
fn below(s: NetSet, places: usize) -> bool
    ensures { T result → Within places s }
{
    s.greatest().is_none_or(|g| usize::from(g) < places)
}

// Whether all codes are below `order`, and all nets below `places`.
fn in_words(bits: &[Term<NetSet>], order: u16, places: usize) -> bool
    ensures codes { T result → Codes (λ c. c < order) bits.now }
    ensures nets { T result → Monos (Within places) bits.now }
{
    bits.iter().all(|t| t.code < order && below(t.mono, places))
}

// Whether tables of `cap` and `count` rows have a row for each product of powers of `n` words.
fn rows_suffice(order: u16, n: usize, cap: usize, count: usize) -> bool
    requires few { n ≤ 3 }
    requires small { order ≤ 256 }
    ensures product { T result → order ^ n ≤ cap }
    ensures outcome { T result → order ^ n ≤ count }
{
    let all = usize::from(order).pow(n as u32);
    all <= cap && all <= count
}

// The conversion to the card in `words` words, in nested form.
#[derive(Drop)]
pub(crate) struct Nested<'a, F: Field> {
    pub(crate) conversion: Conversion<'a, [u16; 3], Exps, F, Nets>,
    pub(crate) words: usize,
    ghost few: { words ≤ 3 },
    ghost tops: { conversion.ring.kind.now.tops ≡ tops_for (size (F.model conversion.ring.field.now)) words },
    ghost width: { conversion.factors.width ≡ (F.model conversion.ring.field.now).width },
    ghost places: { conversion.factors.places ≡ words * (F.model conversion.ring.field.now).width },
    ghost sums: { ∥ BitSums (F.model conversion.ring.field.now) words conversion.factors.sums.now ∥₁ },
}

impl<F: Field> Nested<'_, F> {
    // Adds each code, with the unit.
    fn add_codes(&self, bits: &[Term<NetSet>], out: &mut TermTable<[u16; 3]>) -> Result<(), Full>
        requires codes { Codes (λ c. c < size (F.model self.now.conversion.ring.field.now)) bits.now }
        requires out { CardTable (F.model self.now.conversion.ring.field.now) (exp_model self.now.conversion.ring.kind.now.tops) out.old }
        ensures out { Kept (exp_model self.now.conversion.ring.kind.now.tops) out.old out.new }
        ensures sum { IfOk result (λ _. Gained (F.model self.now.conversion.ring.field.now) (exp_model self.now.conversion.ring.kind.now.tops) 0 bits.now (live out.old) (live out.new)) }
    {
        let kind = self.conversion.ring.kind;
        for t in bits {
            out.add(kind, t.code, kind.unit())?;
        }
        Ok(())
    }

    // Adds the sum of the terms, of whose nets those up to `net` count; each holds `net`, so they are worked without it, and their sum is multiplied by its factor.
    #[cycle(nested)]
    fn add_held(
        &self,
        bits: &[Term<NetSet>],
        net: usize,
        out: &mut TermTable<[u16; 3]>,
    ) -> Result<(), Full>
        requires place { net < self.now.conversion.factors.places }
        requires held { Monos (λ s. holds s net ≡ true) bits.now }
        requires codes { Codes (λ c. c < size (F.model self.now.conversion.ring.field.now)) bits.now }
        requires out { CardTable (F.model self.now.conversion.ring.field.now) (exp_model self.now.conversion.ring.kind.now.tops) out.old }
        ensures out { Kept (exp_model self.now.conversion.ring.kind.now.tops) out.old out.new }
        ensures sum { IfOk result (λ _. Gained (F.model self.now.conversion.ring.field.now) (exp_model self.now.conversion.ring.kind.now.tops) (net + 1) bits.now (live out.old) (live out.new)) }
    {
        let mut rows = [Term {
            code: 0,
            mono: [0; 3],
        }; INNER];
        let mut inner = TermTable::new(self.conversion.ring.kind, &mut rows);
        self.add_nested(bits, net, &mut inner)?;
        let factor = self.conversion.factors.at(net);
        self.conversion.ring.multiply(&inner, factor, out)
    }

    // Adds the sum of the terms, of whose nets those below `p` count; gives up where a table is full, or the terms do not fall.
    #[cycle(nested)]
    fn add_nested(
        &self,
        bits: &[Term<NetSet>],
        p: usize,
        out: &mut TermTable<[u16; 3]>,
    ) -> Result<(), Full>
        requires place { p ≤ self.now.conversion.factors.places }
        requires codes { Codes (λ c. c < size (F.model self.now.conversion.ring.field.now)) bits.now }
        requires out { CardTable (F.model self.now.conversion.ring.field.now) (exp_model self.now.conversion.ring.kind.now.tops) out.old }
        ensures out { Kept (exp_model self.now.conversion.ring.kind.now.tops) out.old out.new }
        ensures sum { IfOk result (λ _. Gained (F.model self.now.conversion.ring.field.now) (exp_model self.now.conversion.ring.kind.now.tops) p bits.now (live out.old) (live out.new)) }
    {
        if p == 0 {
            return self.add_codes(bits, out);
        }
        let net = p - 1;
        let (with, without) = by_net(bits, net).ok_or(Full)?;
        if !with.is_empty() {
            self.add_held(with, net, out)?;
        }
        self.add_nested(without, net, out)
    }

    // Makes `card` hold the sum of the terms, and answers its number of terms.
    fn card(&self, bits: &[Term<NetSet>], card: &mut [Term<[u16; 3]>]) -> Result<usize, Full>
        requires { Codes (λ c. c < size (F.model self.now.conversion.ring.field.now)) bits.now }
        ensures { IfOk result (λ n. Table (exp_model self.now.conversion.ring.kind.now.tops) card.new n × Gained (F.model self.now.conversion.ring.field.now) (exp_model self.now.conversion.ring.kind.now.tops) self.now.conversion.factors.places bits.now [] (take n card.new)) }
    {
        let mut out = TermTable::new(self.conversion.ring.kind, card);
        self.add_nested(bits, self.conversion.factors.places, &mut out)?;
        Ok(out.len())
    }

    // Whether the working is sure to go to its end, with product tables of `cap` rows and a card table of `count` rows.
    fn certain(&self, bits: &[Term<NetSet>], cap: usize, count: usize) -> bool
        ensures { T result → Finishes (F.model self.now.conversion.ring.field.now) self.now.words cap count bits.now }
    {
        let field = self.conversion.ring.field;
        rows_suffice(field.order(), self.words, cap, count)
            || shapes_fit(field, self.words, bits, cap, count)
    }

    // Makes `card` hold the card of a bit form, where it is sure that the working with product tables of `cap` rows goes to its end,
    // and answers the number of its terms.
    pub(crate) fn answer(
        &self,
        bits: &[Term<NetSet>],
        cap: usize,
        card: &mut [Term<[u16; 3]>],
    ) -> Option<usize>
        ensures { NestedAnswer (F.model self.now.conversion.ring.field.now) self.now.words cap (length card.old) bits.now card.new result }
    {
        let order = self.conversion.ring.field.order();
        let places = self.conversion.factors.places;
        if !in_words(bits, order, places) || !self.certain(bits, cap, card.len()) {
            return None;
        }
        self.card(bits, card).ok()
    }
}
