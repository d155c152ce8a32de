// Going down a list of calls.
ghost use Rattle.std.specs.Prelude.{◌≡◌, min, map, length, replicate, slice_index};
ghost use Rattle.terms.specs.Nets.{net_model};
ghost use Rattle.terms.specs.Terms.{blank};
ghost use Rattle.cards.specs.Sums.{card_kind};
ghost use Rattle.cards.specs.Working.{word_count};
ghost use Rattle.ledger.specs.Rules.{filing, card_filing, carding};
ghost use Rattle.audit.specs.Entries.{tables, call_of, calls_of, named, AllFit};
ghost use Rattle.audit.specs.Faithful.{Faithful, lent};
ghost use Rattle.audit.specs.LentTables.{at_hand, for_cards, SameTables};
ghost use Rattle.audit.specs.Runs.{Steps, Runs};

use crate::entries::Entry;
use crate::findings::Findings;
use crate::tables::LentTables;
use fault::Fault;
use field::Field;
use shelf::Shelf;
use terms::nets::{NetSet, Nets};
use terms::{Term, clear_rows};

// Files a netlist, with as many rows as are named, or as are at hand.
// It cuts the table itself, as the next two do: where a function hands out the first rows, no proof knows that the table keeps its length.
fn file<F: Field>(
    shelf: &mut Shelf<F>,
    drawer: usize,
    text: &[u8],
    rows: usize,
    tables: &mut LentTables,
) -> Option<Fault>
    ensures steps { Steps (F.model shelf.old.words.field) shelf.old.words.count (filing drawer text.now (min rows (length tables.old.work.now))) shelf.old.drawers shelf.new.drawers result }
    ensures words { shelf.new.words ≡ shelf.old.words }
    ensures same { SameTables tables.old tables.new }
{
    let rows = rows.min(tables.work.len());
    shelf.file(drawer, text, &mut tables.work[..rows]).err()
}

// Files card rows, the same way.
fn file_card<F: Field>(
    shelf: &mut Shelf<F>,
    drawer: usize,
    card: &[Term<[u16; 3]>],
    rows: [usize; 3],
    tables: &mut LentTables,
) -> Option<Fault>
    ensures steps { Steps (F.model shelf.old.words.field) shelf.old.words.count (card_filing drawer card.now (min (slice_index rows 0) (length tables.old.bits_first.now)) (min (slice_index rows 1) (length tables.old.bits_second.now)) (min (slice_index rows 2) (length tables.old.work.now))) shelf.old.drawers shelf.new.drawers result }
    ensures words { shelf.new.words ≡ shelf.old.words }
    ensures same { SameTables tables.old tables.new }
{
    let first = rows[0].min(tables.bits_first.len());
    let second = rows[1].min(tables.bits_second.len());
    let bits = rows[2].min(tables.work.len());
    shelf
        .file_card(
            drawer,
            card,
            &mut tables.bits_first[..first],
            &mut tables.bits_second[..second],
            &mut tables.work[..bits],
        )
        .err()
}

// Draws a card, the same way.
fn card_of<F: Field>(
    shelf: &Shelf<F>,
    drawer: usize,
    rows: [usize; 3],
    tables: &mut LentTables,
) -> Option<Fault>
    ensures steps { Steps (F.model shelf.now.words.field) shelf.now.words.count (carding drawer (min (slice_index rows 0) (length tables.old.first.now)) (min (slice_index rows 1) (length tables.old.second.now)) (min (slice_index rows 2) (length tables.old.left.now))) shelf.now.drawers shelf.now.drawers result }
    ensures same { SameTables tables.old tables.new }
{
    let first = rows[0].min(tables.first.len());
    let second = rows[1].min(tables.second.len());
    let left = rows[2].min(tables.left.len());
    shelf
        .card(
            drawer,
            &mut tables.first[..first],
            &mut tables.second[..second],
            &mut tables.left[..left],
        )
        .err()
}

// Makes one call, and answers its refusal, if it has one.
fn step<F: Field>(shelf: &mut Shelf<F>, entry: &Entry, tables: &mut LentTables) -> Option<Fault>
    ensures steps { Steps (F.model shelf.old.words.field) shelf.old.words.count (call_of (at_hand tables.old) entry.now) shelf.old.drawers shelf.new.drawers result }
    ensures words { shelf.new.words ≡ shelf.old.words }
    ensures same { SameTables tables.old tables.new }
{
    match *entry {
        Entry::File { drawer, text, work } => file(shelf, drawer, text, work, tables),
        Entry::FileCard {
            drawer,
            rows,
            first,
            second,
            result,
        } => file_card(shelf, drawer, rows, [first, second, result], tables),
        Entry::Withdraw { drawer } => shelf.withdraw(drawer).err(),
        Entry::Compare { left, right } => shelf.compare(left, right).err(),
        Entry::Value { drawer, words } => shelf.value(drawer, words).err(),
        Entry::Card {
            drawer,
            first,
            second,
            card,
        } => card_of(shelf, drawer, [first, second, card], tables),
    }
}

// Goes down a list of calls, refused ones too; answers the first that is refused, by its number from 0, with its refusal.
fn run_all<F: Field>(
    shelf: &mut Shelf<F>,
    entries: &[Entry],
    tables: &mut LentTables,
) -> Option<(usize, Fault)>
    ensures runs { Runs (F.model shelf.old.words.field) shelf.old.words.count (calls_of (at_hand tables.old) entries.now) shelf.old.drawers shelf.new.drawers result }
    ensures words { shelf.new.words ≡ shelf.old.words }
    ensures same { SameTables tables.old tables.new }
{
    let mut found = None;
    for (i, entry) in entries.iter().enumerate() {
        let fault = step(shelf, entry, tables);
        found = found.or(Some(i).zip(fault));
    }
    found
}

// Goes down a list of calls on a shelf just made, refused ones too; then compares drawers `a` and `b`, takes the value of `a` at the
// words, and draws the cards of both. The tables are lent to every call, up to the number of rows that an entry names.
pub fn audit_in<F: Field + Drop>(
    field: F,
    n: usize,
    entries: &[Entry],
    a: usize,
    b: usize,
    words: [u16; 3],
    tables: &mut LentTables,
) -> Findings
    ensures faithful { Faithful (F.model field) (word_count n) (calls_of (at_hand tables.old) entries.now) a b words (for_cards tables.old) result tables.new.left.now tables.new.right.now }
    ensures named { AllFit (at_hand tables.old) entries.now → calls_of (at_hand tables.old) entries.now ≡ map named entries.now }
    ensures work { tables.new.work.now ≡ replicate (length tables.old.work.now) (blank net_model) }
    ensures bits1 { tables.new.bits_first.now ≡ replicate (length tables.old.bits_first.now) (blank net_model) }
    ensures bits2 { tables.new.bits_second.now ≡ replicate (length tables.old.bits_second.now) (blank net_model) }
    ensures first { tables.new.first.now ≡ replicate (length tables.old.first.now) (blank (card_kind (F.model field) (word_count n))) }
    ensures second { tables.new.second.now ≡ replicate (length tables.old.second.now) (blank (card_kind (F.model field) (word_count n))) }
    ensures same { SameTables tables.old tables.new }
{
    let mut shelf = Shelf::new(field, n);
    let refused = run_all(&mut shelf, entries, tables);
    let compared = shelf.compare(a, b);
    let value = shelf.value(a, words);
    let left = shelf.card(a, tables.first, tables.second, tables.left);
    let right = shelf.card(b, tables.first, tables.second, tables.right);
    clear_rows(&Nets, tables.work);
    clear_rows(&Nets, tables.bits_first);
    clear_rows(&Nets, tables.bits_second);
    Findings {
        refused,
        compared,
        value,
        left,
        right,
    }
}

// The same with the tables lent one by one, as parts of longer ones also: of a slice that stands in a struct a caller learns only its length afterwards,
// where it is a part of another or a vector's.
pub fn audit<F: Field + Drop>(
    field: F,
    n: usize,
    entries: &[Entry],
    a: usize,
    b: usize,
    words: [u16; 3],
    work: &mut [Term<NetSet>],
    bits_first: &mut [Term<NetSet>],
    bits_second: &mut [Term<NetSet>],
    first: &mut [Term<[u16; 3]>],
    second: &mut [Term<[u16; 3]>],
    left: &mut [Term<[u16; 3]>],
    right: &mut [Term<[u16; 3]>],
) -> Findings
    ensures faithful { Faithful (F.model field) (word_count n) (calls_of (tables (length work.old) (length bits_first.old) (length bits_second.old) (length first.old) (length second.old) (length left.old)) entries.now) a b words (lent (length first.old) (length second.old) (length left.old) (length right.old)) result left.new right.new }
    ensures named { AllFit (tables (length work.old) (length bits_first.old) (length bits_second.old) (length first.old) (length second.old) (length left.old)) entries.now → calls_of (tables (length work.old) (length bits_first.old) (length bits_second.old) (length first.old) (length second.old) (length left.old)) entries.now ≡ map named entries.now }
    ensures work { work.new ≡ replicate (length work.old) (blank net_model) }
    ensures bits1 { bits_first.new ≡ replicate (length bits_first.old) (blank net_model) }
    ensures bits2 { bits_second.new ≡ replicate (length bits_second.old) (blank net_model) }
    ensures first { first.new ≡ replicate (length first.old) (blank (card_kind (F.model field) (word_count n))) }
    ensures second { second.new ≡ replicate (length second.old) (blank (card_kind (F.model field) (word_count n))) }
{
    let mut lent = LentTables {
        work,
        bits_first,
        bits_second,
        first,
        second,
        left,
        right,
    };
    audit_in(field, n, entries, a, b, words, &mut lent)
}
