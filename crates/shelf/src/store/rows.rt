// Card rows and input words that are handed in.
ghost use Rattle.std.specs.Prelude.{◌≡◌, ℕ, [], ◌∷◌, length, replicate, IsTrue, MatchBool, MatchOption, MatchResult};
ghost use Rattle.fault.specs.declared.Fault.TheVariants.{BadCardRow};
ghost use Rattle.terms.specs.Numbers.{lex};
ghost use Rattle.terms.specs.Terms.{blank};
ghost use Rattle.cards.specs.Law.{IsInput, Polynomial};
ghost use Rattle.ledger.specs.Rules.{BadRow};
ghost use Rattle.shelf.specs.Rows.{Lawful};

use super::Words;
use fault::Fault;
use field::Field;
use terms::exps::Exps;
use terms::{Kind, Term, clear_rows};

// Whether a row has a code of the field that is not 0, and exponents up to the largest.
fn is_lawful(q: u16, kind: &Exps, row: &Term<[u16; 3]>) -> bool
    ensures { MatchBool result (Lawful q kind.now.tops row.now) (Lawful q kind.now.tops row.now → ⊥) }
{
    row.code != 0 && row.code < q && kind.allows(row.mono)
}

// Whether exponents stand below those of the row before, where there is one.
fn is_below(kind: &Exps, mono: [u16; 3], before: Option<[u16; 3]>) -> bool
    ensures { MatchOption before (IsTrue result) (λ high. result ≡ lex mono high) }
{
    match before {
        Some(high) => kind.less(mono, high),
        None => true,
    }
}

impl<F: Field> Words<F> {
    // Whether three words are an input.
    pub(super) fn is_input(&self, words: [u16; 3]) -> bool
        ensures { MatchBool result (IsInput (F.model self.now.field) self.now.count words) (IsInput (F.model self.now.field) self.now.count words → ⊥) }
    {
        Exps::of_words(self.field.order(), self.count).allows(words)
    }

    // Whether the rows are a polynomial in the words; else the first row with which they stop being one.
    pub(super) fn check_rows(&self, rows: &[Term<[u16; 3]>]) -> Result<(), Fault>
        ensures { MatchResult result (λ _. Polynomial (F.model self.now.field) self.now.count rows.now) (λ e. (i : ℕ) × (e ≡ BadCardRow i) × BadRow (F.model self.now.field) self.now.count rows.now i) }
    {
        let q = self.field.order();
        let kind = Exps::of_words(q, self.count);
        let mut before = None;
        for (i, row) in rows.iter().enumerate() {
            if !is_lawful(q, &kind, row) || !is_below(&kind, row.mono, before) {
                return Err(Fault::BadCardRow(i));
            }
            before = Some(row.mono);
        }
        Ok(())
    }
}

// Makes every row of three tables a zero row.
pub fn clear_tables<M: Copy, K: Kind<M>>(
    kind: &K,
    first: &mut [Term<M>],
    second: &mut [Term<M>],
    third: &mut [Term<M>],
)
    ensures first { first.new ≡ replicate (length first.old) (blank (K.model kind.now)) }
    ensures second { second.new ≡ replicate (length second.old) (blank (K.model kind.now)) }
    ensures third { third.new ≡ replicate (length third.old) (blank (K.model kind.now)) }
{
    clear_rows(kind, first);
    clear_rows(kind, second);
    clear_rows(kind, third);
}
