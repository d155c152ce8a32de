// Refusals: why a call is refused, in which part of the product, and where.
#![tactic(auto)]

ghost use Rattle.std.specs.Prelude.{◌≡◌, Some};
ghost use Rattle.fault.specs.Faults.{number, part, place, part_name, refusal_line};

use std::error::Error;
use std::fmt;

// A refusal. Those of the reader carry the line that they fall at, counted from 1.
#[derive(Clone, Copy, PartialEq, Eq, Debug)]
pub enum Fault {
    // the field polynomial is below 4 or above 511
    PolynomialOutOfRange,
    // the field polynomial is reducible
    PolynomialReducible,
    // the base of a tower is wider than 4 bits
    BaseTooWide,
    // the constant of a tower is no code of the base, or is t·t + t for some t
    TowerConstant,
    // a line of wrong form
    WrongForm(usize),
    // the words line gives a number of words or of bits out of range
    SizesOutOfRange,
    // the words line gives other numbers than the shelf's
    SizesNotTheShelfs,
    // a net that is not yet driven
    NetNotDriven(usize),
    // a gate that would drive net 256
    TooManyNets(usize),
    // no byte left where a line is due
    LineMissing(usize),
    // bytes after the out line
    BytesAfterOut(usize),
    // a job of more than 16,384 bytes
    JobTooLong,
    // a drawer's number above 15
    NoSuchDrawer,
    // a filled drawer where an empty one is due
    DrawerFilled,
    // an empty drawer where a filled one is due
    DrawerEmpty,
    // an input word that is no code of the field, or is past the shelf's words and not 0
    WordOutOfRange,
    // a card row, counted from 0, with which the rows stop being a polynomial
    BadCardRow(usize),
    // a work, product or result table is full on the way to a bit form
    BitTableFull,
    // a bit form of more than 256 terms
    TooManyBitTerms,
    // a product table is full on the way to a card
    ProductTableFull,
    // the card table is full
    CardTableFull,
}

// The part of the product that refuses.
#[derive(Clone, Copy, PartialEq, Eq, Debug)]
pub enum Part {
    Field,
    Reader,
    Shelf,
    Bits,
    Card,
}

impl fmt::Display for Part {
    ghost output = { λ p. Some (part_name p) };

    fn fmt<W: fmt::Write>(&self, f: &mut fmt::Formatter<W>) -> fmt::Result {
        match self {
            Part::Field => f.write_str("field"),
            Part::Reader => f.write_str("reader"),
            Part::Shelf => f.write_str("shelf"),
            Part::Bits => f.write_str("bits"),
            Part::Card => f.write_str("card"),
        }
    }
}

impl Fault {
    pub fn number(self) -> u8
        ensures { result ≡ number self }
    {
        match self {
            Fault::PolynomialOutOfRange => 1,
            Fault::PolynomialReducible => 2,
            Fault::BaseTooWide => 3,
            Fault::TowerConstant => 4,
            Fault::WrongForm(_) => 10,
            Fault::SizesOutOfRange => 11,
            Fault::SizesNotTheShelfs => 12,
            Fault::NetNotDriven(_) => 13,
            Fault::TooManyNets(_) => 14,
            Fault::LineMissing(_) => 15,
            Fault::BytesAfterOut(_) => 16,
            Fault::JobTooLong => 17,
            Fault::NoSuchDrawer => 20,
            Fault::DrawerFilled => 21,
            Fault::DrawerEmpty => 22,
            Fault::WordOutOfRange => 23,
            Fault::BadCardRow(_) => 24,
            Fault::BitTableFull => 30,
            Fault::TooManyBitTerms => 31,
            Fault::ProductTableFull => 40,
            Fault::CardTableFull => 41,
        }
    }

    pub fn part(self) -> Part
        ensures { result ≡ part self }
    {
        match self {
            Fault::PolynomialOutOfRange
            | Fault::PolynomialReducible
            | Fault::BaseTooWide
            | Fault::TowerConstant => Part::Field,
            Fault::WrongForm(_)
            | Fault::SizesOutOfRange
            | Fault::SizesNotTheShelfs
            | Fault::NetNotDriven(_)
            | Fault::TooManyNets(_)
            | Fault::LineMissing(_)
            | Fault::BytesAfterOut(_)
            | Fault::JobTooLong => Part::Reader,
            Fault::NoSuchDrawer
            | Fault::DrawerFilled
            | Fault::DrawerEmpty
            | Fault::WordOutOfRange
            | Fault::BadCardRow(_) => Part::Shelf,
            Fault::BitTableFull | Fault::TooManyBitTerms => Part::Bits,
            Fault::ProductTableFull | Fault::CardTableFull => Part::Card,
        }
    }

    // The line for the reader's refusals, the words line being line 1; the row of a bad card row; 0 elsewhere.
    pub fn place(self) -> usize
        ensures { result ≡ place self }
    {
        match self {
            Fault::WrongForm(line)
            | Fault::NetNotDriven(line)
            | Fault::TooManyNets(line)
            | Fault::LineMissing(line)
            | Fault::BytesAfterOut(line) => line,
            Fault::BadCardRow(row) => row,
            Fault::SizesOutOfRange | Fault::SizesNotTheShelfs => 1,
            Fault::PolynomialOutOfRange
            | Fault::PolynomialReducible
            | Fault::BaseTooWide
            | Fault::TowerConstant
            | Fault::JobTooLong
            | Fault::NoSuchDrawer
            | Fault::DrawerFilled
            | Fault::DrawerEmpty
            | Fault::WordOutOfRange
            | Fault::BitTableFull
            | Fault::TooManyBitTerms
            | Fault::ProductTableFull
            | Fault::CardTableFull => 0,
        }
    }
}

// `refused NUMBER PART PLACE`, with no line feed.
impl fmt::Display for Fault {
    ghost output = { λ e. Some (refusal_line e) };

    fn fmt<W: fmt::Write>(&self, f: &mut fmt::Formatter<W>) -> fmt::Result {
        let number = self.number();
        let part = self.part();
        let place = self.place();
        write!(f, "refused {number} {part} {place}")
    }
}

impl Error for Fault {}
