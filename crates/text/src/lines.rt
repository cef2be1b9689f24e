// Reports and refusals as lines of text.
ghost use Rattle.std.specs.Prelude.{◌≡◌, Some};
ghost use Rattle.text.specs.Lines.{line_of_refusal, report_line};
ghost use Rattle.wire.specs.Means.{refusal_number, refusal_place, report_of};

use std::fmt;
use wire::{Refusal, Report};

// A report, to be printed as its line.
#[derive(Clone, Copy, Debug, PartialEq, Eq)]
pub struct ReportLine(pub Report);

// A refusal, to be printed as its line.
#[derive(Clone, Copy, Debug, PartialEq, Eq)]
pub struct RefusalLine(pub Refusal);

impl fmt::Display for ReportLine {
    ghost output = { λ l. Some (report_line (report_of l.0)) };

    fn fmt<W: fmt::Write>(&self, f: &mut fmt::Formatter<W>) -> fmt::Result {
        match self.0 {
            Report::Taken { number } => write!(f, "taken {number}"),
            Report::Refused => write!(f, "refused"),
            Report::Trade {
                newer,
                older,
                item,
                price,
                quantity,
            } => {
                write!(
                    f,
                    "trade {newer} {older} item {item} at {price} of {quantity}"
                )
            }
            Report::Torn {
                account,
                other,
                item,
                held,
            } => write!(f, "torn {account} {other} item {item} {held}"),
        }
    }
}

// A refusal's number: `wire`'s method, which stays here too, where callers had it.
pub fn number(refusal: Refusal) -> u8
    ensures { result ≡ refusal_number refusal }
{
    refusal.number()
}

// A refusal's place in bytes, likewise. A block's number can be any, so its place may not fit 64 bits.
pub fn place(refusal: Refusal) -> u128
    ensures { result ≡ refusal_place refusal }
{
    refusal.place()
}

impl fmt::Display for RefusalLine {
    ghost output = { λ l. Some (line_of_refusal l.0) };

    fn fmt<W: fmt::Write>(&self, f: &mut fmt::Formatter<W>) -> fmt::Result {
        let number = self.0.number();
        let place = self.0.place();
        let refused = match self.0 {
            Refusal::Message { .. } => "message",
            _ => "disc",
        };
        write!(f, "{refused} refused {number} at {place}")
    }
}
