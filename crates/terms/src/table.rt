// The term table: terms in falling order of their monomials, on rows that the caller lends.
ghost use Rattle.std.specs.Prelude.{◌≡◌, ◌+◌, ◌-◌, ◌<◌, ◌≤◌, [], ◌∷◌, ◌++◌, length, take, drop, replicate, Some, None, Ok, Err};
ghost use Rattle.std.specs.List.{between};
ghost use Rattle.terms.specs.Terms.{Falling, place, blank};
ghost use Rattle.terms.specs.Lent.{live, capacity, Sound, Leads, Sum, NoRoom, Off};
ghost use Rattle.terms.specs.Theorems.{AddsValue, AddsCoeff, OnlyOne};

use super::{Kind, Term};

mod reuse;

// How many of the terms stand above `mono`.
fn position<M: Copy, K: Kind<M>>(kind: &K, terms: &[Term<M>], mono: M) -> usize
    requires { Falling (K.model kind.now) terms.now }
    ensures { result ≡ place (K.model kind.now) mono terms.now }
{
    // A loop: `partition_point` compares once more at every search.
    let mut lo = 0;
    let mut hi = terms.len();
    while lo < hi {
        let mid = lo + (hi - lo) / 2;
        if kind.less(mono, terms[mid].mono) {
            lo = mid + 1;
        } else {
            hi = mid;
        }
    }
    lo
}

// Puts `t` at `at`, and the rows from there to `len` one further on.
fn open_row<M: Copy>(rows: &mut [Term<M>], at: usize, len: usize, t: Term<M>)
    requires place { at ≤ len }
    requires room { len < length rows.old }
    ensures { rows.new ≡ take at rows.old ++ (t ∷ (between at len rows.old ++ drop (len + 1) rows.old)) }
{
    rows.copy_within(at..len, at + 1);
    rows[at] = t;
}

// Takes the row at `at` out, and writes `z` at the end.
fn close_row<M: Copy>(rows: &mut [Term<M>], at: usize, len: usize, z: Term<M>)
    requires place { at < len }
    requires within { len ≤ length rows.old }
    ensures { rows.new ≡ take at rows.old ++ (between (at + 1) len rows.old ++ (z ∷ drop len rows.old)) }
{
    rows.copy_within(at + 1..len, at);
    rows[len - 1] = z;
}

// The same at the first row of a long run: `rotate_left` moves it in parts, which costs less.
fn drop_of_many<M: Copy>(rows: &mut [Term<M>], len: usize, z: Term<M>)
    requires some { 0 < len }
    requires within { len ≤ length rows.old }
    ensures { rows.new ≡ between 1 len rows.old ++ (z ∷ drop len rows.old) }
{
    rows[..len].rotate_left(1);
    rows[len - 1] = z;
}

// The most rows that are moved at once.
const LONG: usize = 200;

// The same at the first row.
fn drop_first<M: Copy>(rows: &mut [Term<M>], len: usize, z: Term<M>)
    requires some { 0 < len }
    requires within { len ≤ length rows.old }
    ensures { rows.new ≡ between 1 len rows.old ++ (z ∷ drop len rows.old) }
{
    if len <= LONG {
        close_row(rows, 0, len, z);
    } else {
        drop_of_many(rows, len, z);
    }
}

// The row that stands where there is no term: code 0 and the unit.
fn zero_row<M: Copy, K: Kind<M>>(kind: &K) -> Term<M>
    ensures { result ≡ blank (K.model kind.now) }
{
    Term {
        code: 0,
        mono: kind.unit(),
    }
}

// No row is free.
#[derive(Clone, Copy, Debug, PartialEq, Eq)]
pub struct Full;

// Makes every row a zero row.
pub fn clear_rows<M: Copy, K: Kind<M>>(kind: &K, rows: &mut [Term<M>])
    ensures { rows.new ≡ replicate (length rows.old) (blank (K.model kind.now)) }
{
    // Not `fill`, which asks for a clone that never fails: `Copy` does not say so.
    let zero = zero_row(kind);
    rows.fill_with(|| zero);
}

// A table of terms over rows that are lent: its terms stand in the first `len` rows, the others are zero rows. That is
// `Sound`, which calls ask for and give back: one term table serves every kind, and the kind is passed to each call.
#[derive(Drop)]
pub struct TermTable<'a, M> {
    rows: &'a mut [Term<M>],
    len: usize,
}

impl<'a, M: Copy> TermTable<'a, M> {
    // An empty table over the rows lent.
    pub fn new<K: Kind<M>>(kind: &K, rows: &'a mut [Term<M>]) -> Self
        ensures same { result.rows.ghost_name ≡ rows.entry.ghost_name }
        ensures len { result.len ≡ 0 }
        ensures zero { result.rows.now ≡ replicate (length rows.old) (blank (K.model kind.now)) }
        ensures table { Sound (K.model kind.now) result }
    {
        clear_rows(kind, rows);
        TermTable { rows, len: 0 }
    }

    // The number of terms.
    pub fn len(&self) -> usize
        ensures { result ≡ self.now.len }
    {
        self.len
    }

    // Adds a term; the table is as it was where no row is free.
    pub fn add<K: Kind<M>>(&mut self, kind: &K, code: u16, mono: M) -> Result<(), Full>
        requires { Sound (K.model kind.now) self.old }
        ensures same { self.new.rows.ghost_name ≡ self.old.rows.ghost_name }
        ensures sum { elim result [ Ok _ ↦ Sum (K.model kind.now) code mono self.old self.new | Err _ ↦ NoRoom (K.model kind.now) code mono self.old self.new ] }
    {
        if code == 0 {
            return Ok(());
        }
        let len = self.len;
        let at = position(kind, self.terms(), mono);
        if at < len && !kind.less(self.rows[at].mono, mono) {
            let sum = self.rows[at].code ^ code;
            if sum == 0 {
                close_row(self.rows, at, len, zero_row(kind));
                self.len = len - 1;
            } else {
                self.rows[at].code = sum;
            }
        } else if len < self.rows.len() {
            open_row(self.rows, at, len, Term { code, mono });
            self.len = len + 1;
        } else {
            return Err(Full);
        }
        Ok(())
    }

    // Empties the table.
    pub fn clear<K: Kind<M>>(&mut self, kind: &K)
        ensures same { self.new.rows.ghost_name ≡ self.old.rows.ghost_name }
        ensures len { self.new.len ≡ 0 }
        ensures zero { self.new.rows.now ≡ replicate (capacity self.old) (blank (K.model kind.now)) }
        ensures table { Sound (K.model kind.now) self.new }
    {
        clear_rows(kind, self.rows);
        self.len = 0;
    }

    // The terms, the greatest monomial first.
    pub fn terms(&self) -> &[Term<M>]
        requires { self.now.len ≤ capacity self.now }
        ensures { result.now ≡ live self.now }
    {
        &self.rows[..self.len]
    }

    // The leading term, where there is one.
    pub fn lead(&self) -> Option<Term<M>>
        requires { self.now.len ≤ capacity self.now }
        ensures { Leads (live self.now) result }
    {
        self.terms().first().copied()
    }

    // Takes the leading term off, where there is one.
    pub fn take_lead<K: Kind<M>>(&mut self, kind: &K) -> Option<Term<M>>
        requires { Sound (K.model kind.now) self.old }
        ensures same { self.new.rows.ghost_name ≡ self.old.rows.ghost_name }
        ensures off { elim result [ Some t ↦ Off (K.model kind.now) t self.old self.new | None ↦ (live self.old ≡ []) × (self.new.rows.now ≡ self.old.rows.now) × (self.new.len ≡ self.old.len) ] }
    {
        let lead = self.lead()?;
        drop_first(self.rows, self.len, zero_row(kind));
        self.len -= 1;
        Some(lead)
    }

    // Makes this table hold the terms of `other`; it is as it was where it has too few rows.
    pub fn copy_from<K: Kind<M>>(&mut self, kind: &K, other: &TermTable<M>) -> Result<(), Full>
        requires { Sound (K.model kind.now) other.now }
        ensures same { self.new.rows.ghost_name ≡ self.old.rows.ghost_name }
        ensures copied { elim result [ Ok _ ↦ (live self.new ≡ live other.now) × Sound (K.model kind.now) self.new × (capacity self.new ≡ capacity self.old) | Err _ ↦ (capacity self.old < other.now.len) × (self.new.rows.now ≡ self.old.rows.now) × (self.new.len ≡ self.old.len) ] }
    {
        if other.len > self.rows.len() {
            return Err(Full);
        }
        self.clear(kind);
        self.refill(kind, other)
    }
}

// What adding a term means, for every kind.
pub fn sums_stand<M: Copy, K: Kind<M>>(kind: &K)
    ensures value { AddsValue (K.model kind.now) }
    ensures coeff { AddsCoeff (K.model kind.now) }
    ensures one { OnlyOne (K.model kind.now) }
{}
