// A table used again: only the rows that its terms have are written.
ghost use Rattle.std.specs.Prelude.{◌≡◌, ◌<◌, replicate, Ok, Err};
ghost use Rattle.terms.specs.Terms.{blank};
ghost use Rattle.terms.specs.Lent.{live, capacity, Sound};

use super::{Full, TermTable, clear_rows};
use crate::Kind;

impl<'a, M: Copy> TermTable<'a, M> {
    // Empties the table, by the rows that its terms have.
    pub fn reset<K: Kind<M>>(&mut self, kind: &K)
        requires { Sound (K.model kind.now) self.old }
        ensures same { self.new.rows.ghost_name ≡ self.old.rows.ghost_name }
        ensures len { self.new.len ≡ 0 }
        ensures zero { self.new.rows.now ≡ replicate (capacity self.old) (blank (K.model kind.now)) }
        ensures table { Sound (K.model kind.now) self.new }
    {
        clear_rows(kind, &mut self.rows[..self.len]);
        self.len = 0;
    }

    // Makes this table hold the terms of `other`, by the rows that the terms of both have; it is as it was where it has too few rows.
    pub fn refill<K: Kind<M>>(&mut self, kind: &K, other: &TermTable<M>) -> Result<(), Full>
        requires table { Sound (K.model kind.now) self.old }
        requires other { Sound (K.model kind.now) other.now }
        ensures same { self.new.rows.ghost_name ≡ self.old.rows.ghost_name }
        ensures copied { elim result [ Ok _ ↦ (live self.new ≡ live other.now) × Sound (K.model kind.now) self.new × (capacity self.new ≡ capacity self.old) | Err _ ↦ (capacity self.old < other.now.len) × (self.new.rows.now ≡ self.old.rows.now) × (self.new.len ≡ self.old.len) ] }
    {
        if other.len > self.rows.len() {
            return Err(Full);
        }
        self.rows[..other.len].copy_from_slice(other.terms());
        clear_rows(kind, &mut self.rows[other.len..self.len.max(other.len)]);
        self.len = other.len;
        Ok(())
    }
}
