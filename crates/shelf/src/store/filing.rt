// Making a shelf, and the calls that change what it holds.
ghost use Rattle.std.specs.Prelude.{◌≡◌, ℕ, length, replicate, None};
ghost use Rattle.terms.specs.Nets.{net_model};
ghost use Rattle.terms.specs.Terms.{blank};
ghost use Rattle.cards.specs.Working.{word_count};
ghost use Rattle.ledger.specs.Rules.{filing, card_filing, withdrawing};
ghost use Rattle.shelf.specs.Held.{held_at};
ghost use Rattle.shelf.specs.Promises.{Promise};

use super::rows::clear_tables;
use super::{Drawer, Shelf, Words};
use cards::bits::to_bits;
use fault::Fault;
use field::Field;
use gates::bit_form;
use netlist::read::read;
use terms::nets::{NetSet, Nets};
use terms::{Term, clear_rows};

impl<F: Field> Shelf<F> {
    // A shelf over the field, for `n` input words; below 1 counts as 1, above 3 as 3. Its drawers are empty.
    pub fn new(field: F, n: usize) -> Self
        ensures empty { (d : ℕ) → held_at result.drawers d ≡ None }
        ensures field { result.words.field ≡ field }
        ensures words { result.words.count ≡ word_count n }
    {
        Shelf {
            words: Words {
                field,
                count: n.clamp(1, 3),
            },
            drawers: [Drawer::empty(); 16],
        }
    }

    // Reads the text and works it into bits, in the work table, then fills the drawer.
    fn enter(
        &mut self,
        drawer: usize,
        text: &[u8],
        work: &mut [Term<NetSet>],
    ) -> Result<usize, Fault>
        ensures promise { Promise (F.model self.old.words.field) self.old.words.count (filing drawer text.now (length work.old)) self.old.drawers self.new.drawers result }
        ensures words { self.new.words ≡ self.old.words }
    {
        self.check_free(drawer)?;
        let words = &self.words;
        let net = read(text, words.count as u8, words.field.width() as u8)?;
        let count = bit_form(&net, work)?;
        self.drawers[drawer].fill(&work[..count]);
        Ok(count)
    }

    // Files a netlist: the drawer then holds its bit form. Answers the number of its terms.
    pub fn file(
        &mut self,
        drawer: usize,
        text: &[u8],
        work: &mut [Term<NetSet>],
    ) -> Result<usize, Fault>
        ensures promise { Promise (F.model self.old.words.field) self.old.words.count (filing drawer text.now (length work.old)) self.old.drawers self.new.drawers result }
        ensures words { self.new.words ≡ self.old.words }
        ensures work { work.new ≡ replicate (length work.old) (blank net_model) }
    {
        let answer = self.enter(drawer, text, work);
        clear_rows(&Nets, work);
        answer
    }

    // Works the card rows into bits, in the tables, then fills the drawer.
    fn enter_card(
        &mut self,
        drawer: usize,
        rows: &[Term<[u16; 3]>],
        first: &mut [Term<NetSet>],
        second: &mut [Term<NetSet>],
        bits: &mut [Term<NetSet>],
    ) -> Result<usize, Fault>
        ensures promise { Promise (F.model self.old.words.field) self.old.words.count (card_filing drawer rows.now (length first.old) (length second.old) (length bits.old)) self.old.drawers self.new.drawers result }
        ensures words { self.new.words ≡ self.old.words }
    {
        self.check_free(drawer)?;
        let words = &self.words;
        words.check_rows(rows)?;
        let count = to_bits(&words.field, words.count, rows, first, second, bits)?;
        self.drawers[drawer].fill(&bits[..count]);
        Ok(count)
    }

    // Files card rows: the drawer then holds the bit form of the polynomial. Answers the number of its terms.
    pub fn file_card(
        &mut self,
        drawer: usize,
        rows: &[Term<[u16; 3]>],
        first: &mut [Term<NetSet>],
        second: &mut [Term<NetSet>],
        bits: &mut [Term<NetSet>],
    ) -> Result<usize, Fault>
        ensures promise { Promise (F.model self.old.words.field) self.old.words.count (card_filing drawer rows.now (length first.old) (length second.old) (length bits.old)) self.old.drawers self.new.drawers result }
        ensures words { self.new.words ≡ self.old.words }
        ensures first { first.new ≡ replicate (length first.old) (blank net_model) }
        ensures second { second.new ≡ replicate (length second.old) (blank net_model) }
        ensures bits { bits.new ≡ replicate (length bits.old) (blank net_model) }
    {
        let answer = self.enter_card(drawer, rows, first, second, bits);
        clear_tables(&Nets, first, second, bits);
        answer
    }

    // Empties a drawer, and answers the number of terms that it held.
    pub fn withdraw(&mut self, drawer: usize) -> Result<usize, Fault>
        ensures promise { Promise (F.model self.old.words.field) self.old.words.count (withdrawing drawer) self.old.drawers self.new.drawers result }
        ensures words { self.new.words ≡ self.old.words }
    {
        let count = self.terms(drawer)?.len();
        self.drawers[drawer].clear();
        Ok(count)
    }
}
