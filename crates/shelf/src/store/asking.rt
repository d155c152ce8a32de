// The calls that leave a shelf as it is.
ghost use Rattle.std.specs.Prelude.{◌≡◌, length, replicate};
ghost use Rattle.terms.specs.Forms.{Form};
ghost use Rattle.terms.specs.Terms.{blank};
ghost use Rattle.forms.specs.Inputs.{Width};
ghost use Rattle.cards.specs.Sums.{card_kind};
ghost use Rattle.ledger.specs.Drawers.{Told};
ghost use Rattle.ledger.specs.Rules.{comparing, valuing, carding};
ghost use Rattle.shelf.specs.Promises.{Promise};

use super::Shelf;
use super::rows::clear_tables;
use cards::words::to_words;
use fault::Fault;
use field::Field;
use forms::differences::least_difference;
use forms::inputs::{input_of, value};
use ledger::Compared;
use terms::Term;
use terms::exps::Exps;
use terms::nets::NetSet;

// Whether two forms are one; else the input of the least set in which they differ, with the value of each there.
fn tell(left: &[Term<NetSet>], right: &[Term<NetSet>], width: u32) -> Compared
    requires left { Form left.now }
    requires right { Form right.now }
    requires width { Width width }
    ensures { Told width left.now right.now result }
{
    let Some(set) = least_difference(left, right) else {
        return Compared::Same;
    };
    let words = input_of(set, width);
    let here = value(left, width, words);
    let there = value(right, width, words);
    let [x, y, z] = words;
    Compared::Differ((x, y, z, here, there))
}

impl<F: Field> Shelf<F> {
    // Whether two drawers have the same output at every input; else the differing input with the fewest one bits, the
    // smallest of those, and both outputs there.
    pub fn compare(&self, a: usize, b: usize) -> Result<Compared, Fault>
        ensures { Promise (F.model self.now.words.field) self.now.words.count (comparing a b) self.now.drawers self.now.drawers result }
    {
        let first = self.drawer(a)?;
        let second = self.drawer(b)?;
        let left = first.terms()?;
        let right = second.terms()?;
        Ok(tell(left, right, self.words.field.width()))
    }

    // The output of a drawer at an input.
    pub fn value(&self, drawer: usize, words: [u16; 3]) -> Result<u16, Fault>
        ensures { Promise (F.model self.now.words.field) self.now.words.count (valuing drawer words) self.now.drawers self.now.drawers result }
    {
        let terms = self.terms(drawer)?;
        if !self.words.is_input(words) {
            return Err(Fault::WordOutOfRange);
        }
        Ok(value(terms, self.words.field.width(), words))
    }

    // The card of a drawer, written into the card table. Answers the number of its terms.
    pub fn card(
        &self,
        drawer: usize,
        first: &mut [Term<[u16; 3]>],
        second: &mut [Term<[u16; 3]>],
        card: &mut [Term<[u16; 3]>],
    ) -> Result<usize, Fault>
        ensures promise { Promise (F.model self.now.words.field) self.now.words.count (carding drawer (length first.old) (length second.old) (length card.old)) self.now.drawers self.now.drawers (result, card.new) }
        ensures first { first.new ≡ replicate (length first.old) (blank (card_kind (F.model self.now.words.field) self.now.words.count)) }
        ensures second { second.new ≡ replicate (length second.old) (blank (card_kind (F.model self.now.words.field) self.now.words.count)) }
    {
        clear_tables(&Exps::new([0; 3]), first, second, card);
        let terms = self.terms(drawer)?;
        let words = &self.words;
        to_words(&words.field, words.count, terms, first, second, card)
    }
}
