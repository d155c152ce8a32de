// The answer to a job, worked with tables of 512 rows.
ghost use Rattle.std.specs.Prelude.{◌≡◌, ℕ, List, [], ◌∷◌, length, Some};
ghost use Rattle.field.specs.ShiftModel.{shift_of};
ghost use Rattle.cards.specs.Working.{word_count};
ghost use Rattle.ledger.specs.Rules.{filing};
ghost use Rattle.audit.specs.Faithful.{Faithful, lent};
ghost use Rattle.job.specs.Answers.{Answered};
ghost use Rattle.job.specs.Printed.{Printed, shown_outcome};

use crate::card::{Card, ROWS};
use crate::open::{open, prepare};
use audit::{Entry, Findings, LentTables, audit_in};
use bounded::Bounded;
use cards::words::to_words;
use fault::Fault;
use field::Field;
use field::shift::Shift;
use gates::bit_form;
use std::fmt;
use terms::nets::Nets;
use terms::{Kind, Term};

// A row with no term.
const ZERO: Term<[u16; 3]> = Term {
    code: 0,
    mono: [0; 3],
};

// Files the netlist in drawer 0 of a shelf of its own, and draws the card of that drawer into `rows`. (Drawer 15 is empty, so nothing
// is done for it.)
fn file_and_draw(
    field: Shift,
    words: usize,
    netlist: &[u8],
    rows: &mut [Term<[u16; 3]>],
) -> Findings
    ensures { Faithful (shift_of field) (word_count words) (filing 0 netlist.now 512 ∷ []) 0 15 (0 ∷ (0 ∷ (0 ∷ []))) (lent 512 512 (length rows.old) 0) result rows.new [] }
{
    let entries = [Entry::File {
        drawer: 0,
        text: netlist,
        work: ROWS,
    }];
    let mut bits = [Term {
        code: 0,
        mono: Nets.unit(),
    }; ROWS];
    let mut first = [ZERO; ROWS];
    let mut second = [ZERO; ROWS];
    let mut tables = LentTables {
        work: &mut bits,
        bits_first: &mut [],
        bits_second: &mut [],
        first: &mut first,
        second: &mut second,
        left: rows,
        right: &mut [],
    };
    audit_in(field, words, &entries, 0, 15, [0; 3], &mut tables)
}

// The card of a job, or why there is none: the netlist is worked into bits, and these into words, with no shelf.
pub fn work(job: &[u8]) -> Result<Card, Fault>
    ensures { Answered job.now result }
{
    let opened = open(job)?;
    let words = usize::from(opened.netlist.words());
    let mut bits = [Term {
        code: 0,
        mono: Nets.unit(),
    }; ROWS];
    let count = bit_form(&opened.netlist, &mut bits)?;
    let mut first = [ZERO; ROWS];
    let mut second = first;
    let mut rows = first;
    let len = to_words(
        &opened.field,
        words,
        &bits[..count],
        &mut first,
        &mut second,
        &mut rows,
    )?;
    Ok(Card {
        words,
        width: opened.field.width(),
        polynomial: opened.field.modulus(),
        rows: Bounded::front_of(rows, len),
    })
}

// The same, on a shelf, through the call that carries the law.
fn work_on_shelf(job: &[u8]) -> Result<Card, Fault>
    ensures { Answered job.now result }
{
    let ready = prepare(job)?;
    let words = usize::from(ready.words);
    let mut rows = [ZERO; ROWS];
    let found = file_and_draw(ready.field, words, ready.netlist, &mut rows);
    if let Some((_, fault)) = found.refused {
        return Err(fault);
    }
    let len = found.left?;
    Ok(Card {
        words,
        width: ready.field.width(),
        polynomial: ready.field.modulus(),
        rows: Bounded::front_of(rows, len),
    })
}

// What the program answers to a job: its card, or its refusal.
#[derive(Clone, Copy)]
pub struct Outcome(pub Result<Card, Fault>);

// The lines of the card, or the line of the refusal; no line feed after the last.
impl fmt::Display for Outcome {
    ghost output = { λ a. Some (shown_outcome a) };

    fn fmt<W: fmt::Write>(&self, f: &mut fmt::Formatter<W>) -> fmt::Result {
        match &self.0 {
            Ok(card) => write!(f, "{card}"),
            Err(fault) => write!(f, "{fault}"),
        }
    }
}

// The answer to a job: what is shown of it is what the program is to write, and no other text is.
pub fn answer(job: &[u8]) -> Outcome
    ensures printed { Printed job.now (shown_outcome result) }
    ensures only { (text : List ℕ) → Printed job.now text → text ≡ shown_outcome result }
{
    Outcome(work_on_shelf(job))
}
