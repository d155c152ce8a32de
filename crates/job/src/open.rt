// Opening a job: its field is made, then its netlist is read.
ghost use Rattle.std.specs.Prelude.{ℕ, ◌≤◌, None, MatchOption, MatchResult};
ghost use Rattle.netlist.specs.Netlists.{circuit};
ghost use Rattle.netlist.specs.Refusals.{Refused};
ghost use Rattle.job.specs.Jobs.{FieldPolynomial, NoPolynomial, WordsGiven, NoField, Prepared, Opened, NotOpened};

use crate::parts::{Job, default_for, sizes, take_apart};
use fault::Fault;
use field::Field;
use field::shift::Shift;
use netlist::circuit::Netlist;
use netlist::read::read;

// The field polynomial of a job that names none: the default for the bits that the words line gives.
fn default_of(netlist: &[u8]) -> Option<u16>
    ensures { MatchOption result (NoPolynomial netlist.now None) (FieldPolynomial netlist.now None) }
{
    let (_, k) = sizes(netlist)?;
    default_for(k)
}

// The field polynomial of a job. Where it has none, the reader says what is wrong with its words line: no netlist has 0 words.
fn polynomial_of(job: &Job) -> Result<u16, Fault>
    ensures { MatchResult result (FieldPolynomial job.now.netlist.now job.now.polynomial) (λ f. NoPolynomial job.now.netlist.now job.now.polynomial × ((n k : ℕ) → Refused n k job.now.netlist.now f)) }
{
    if let Some(p) = job.polynomial.or_else(|| default_of(job.netlist)) {
        return Ok(p);
    }
    read(job.netlist, 0, 0)?;
    Err(Fault::LineMissing(1))
}

// The number of words for a netlist.
pub fn words_of(netlist: &[u8]) -> u8
    ensures given { WordsGiven netlist.now result }
    ensures some { 1 ≤ result }
    ensures few { result ≤ 3 }
{
    match sizes(netlist) {
        Some((n, _)) => u8::try_from(n).unwrap_or(3).clamp(1, 3),
        None => 1,
    }
}

// The field of a job.
pub fn field_of(parts: &Job) -> Result<Shift, Fault>
    ensures { MatchResult result (λ f. FieldPolynomial parts.now.netlist.now parts.now.polynomial f.p) (NoField parts.now.netlist.now parts.now.polynomial) }
{
    Shift::new(polynomial_of(parts)?)
}

// What is known of a job before its netlist is read: its field, its number of words, and the netlist's text.
#[derive(Clone, Copy)]
pub(crate) struct Ready<'a> {
    pub(crate) field: Shift,
    pub(crate) words: u8,
    pub(crate) netlist: &'a [u8],
}

pub(crate) fn prepare(job: &[u8]) -> Result<Ready<'_>, Fault>
    ensures { MatchResult result (λ r. Prepared job.now r.field.p r.field.k r.words r.netlist.now) (NotOpened job.now) }
{
    let parts = take_apart(job)?;
    let field = field_of(&parts)?;
    let words = words_of(parts.netlist);
    Ok(Ready {
        field,
        words,
        netlist: parts.netlist,
    })
}

// A job's field and netlist.
#[derive(Clone, Copy)]
pub struct Work {
    pub field: Shift,
    pub netlist: Netlist,
}

pub fn open(job: &[u8]) -> Result<Work, Fault>
    ensures { MatchResult result (λ w. Opened job.now w.field.p w.field.k (circuit w.netlist).words (circuit w.netlist)) (NotOpened job.now) }
{
    let ready = prepare(job)?;
    // A field has at most 8 bits, so the cast loses none.
    let netlist = read(ready.netlist, ready.words, ready.field.width() as u8)?;
    Ok(Work {
        field: ready.field,
        netlist,
    })
}
