// The text of a card.
ghost use Rattle.std.specs.Prelude.{◌≡◌, Some};
ghost use Rattle.job.specs.Printing.{degree, total, header_line};
ghost use Rattle.job.specs.Cards.{header_of, terms_of, shown_row, shown_card};

use super::{Card, Header, Row};
use std::fmt;

// `term C E…`: the code, then an exponent for each word. (A card has one to three words.)
impl fmt::Display for Row {
    ghost output = { λ r. Some (shown_row r) };

    fn fmt<W: fmt::Write>(&self, f: &mut fmt::Formatter<W>) -> fmt::Result {
        let code = self.term.code;
        write!(f, "term {code}")?;
        for exponent in self.term.mono.iter().take(self.words) {
            write!(f, " {exponent}")?;
        }
        Ok(())
    }
}

// `card N K P ROWS DEGREE`.
impl fmt::Display for Header {
    ghost output = { λ h. Some (header_line h.words h.width h.polynomial h.rows h.degree) };

    fn fmt<W: fmt::Write>(&self, f: &mut fmt::Formatter<W>) -> fmt::Result {
        let Header {
            words,
            width,
            polynomial,
            rows,
            degree,
        } = self;
        write!(f, "card {words} {width} {polynomial} {rows} {degree}")
    }
}

// The sum of three exponents.
fn sum(exponents: &[u16; 3]) -> u32
    ensures { result ≡ total exponents.now }
{
    exponents.iter().map(|e| u32::from(*e)).sum()
}

impl Card {
    // The largest sum of a row's exponents, 0 for a card with no term.
    pub fn degree(&self) -> u32
        ensures { result ≡ degree (terms_of self.now) }
    {
        self.rows
            .as_slice()
            .iter()
            .map(|row| sum(&row.mono))
            .max()
            .unwrap_or(0)
    }

    fn header(&self) -> Header
        ensures { result ≡ header_of self.now }
    {
        Header {
            words: self.words,
            width: self.width,
            polynomial: self.polynomial,
            rows: self.rows.len(),
            degree: self.degree(),
        }
    }
}

// `card N K P ROWS DEGREE`, then a line for each term; no line feed after the last.
impl fmt::Display for Card {
    ghost output = { λ c. Some (shown_card c) };

    fn fmt<W: fmt::Write>(&self, f: &mut fmt::Formatter<W>) -> fmt::Result {
        let header = self.header();
        write!(f, "{header}")?;
        for term in self.rows.as_slice() {
            let row = Row {
                words: self.words,
                term: *term,
            };
            write!(f, "\n{row}")?;
        }
        Ok(())
    }
}
