// What is wrong with a setup file, and in which line.
ghost use Rattle.std.specs.Prelude.{Some};
ghost use Rattle.text.specs.Lines.{fault_line, what_text};

use std::error::Error;
use std::fmt;

#[derive(Clone, Copy, Debug, PartialEq, Eq)]
pub enum What {
    // The line's first word is none of the known ones.
    UnknownWord,
    // What should stand behind the first word is not there, no number, out of range, or not alone.
    OutOfRange,
    // The line's number was given before.
    Twice,
    // The accounts, the orders or the money are not given.
    Missing,
    NoItem,
    TooManyItems,
}

#[derive(Clone, Copy, Debug, PartialEq, Eq)]
pub struct Fault {
    // The first bad line, from 1 on; what is missing is missed in the line after the last.
    pub line: usize,
    pub what: What,
}

// What is wrong, in words. By hand, since a derive would write no clause.
impl fmt::Display for What {
    ghost output = { λ w. Some (what_text w) };

    fn fmt<W: fmt::Write>(&self, f: &mut fmt::Formatter<W>) -> fmt::Result {
        f.write_str(match self {
            What::UnknownWord => "unknown word",
            What::OutOfRange => "number missing or out of range",
            What::Twice => "given twice",
            What::Missing => "accounts, orders or money missing",
            What::NoItem => "no item",
            What::TooManyItems => "more than 256 items",
        })
    }
}

// The line's number, and what is wrong; likewise.
impl fmt::Display for Fault {
    ghost output = { λ f. Some (fault_line f) };

    fn fmt<W: fmt::Write>(&self, f: &mut fmt::Formatter<W>) -> fmt::Result {
        let line = self.line;
        let what = self.what;
        write!(f, "line {line}: {what}")
    }
}

impl Error for What {}

impl Error for Fault {}
