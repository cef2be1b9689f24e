// The numbers that a market begins with, all in range.
ghost use Rattle.std.specs.Prelude.{◌≡◌, true, Some};
ghost use Rattle.disc.specs.Few.{few_items};
ghost use Rattle.disc.specs.Numbers.{in_range, numbers_of};

use crate::few::Few;
use std::error::Error;
use std::fmt;
use wire::Item;

pub mod fields;
pub mod making;
mod ranges;
pub mod reading;

// What lies where there is room for an item and none is meant.
pub const BLANK: Item = Item { price: 0, band: 0 };

#[derive(Clone, Copy, Debug, PartialEq, Eq)]
pub struct Header {
    items: Few<Item, 256>,
    accounts: usize,
    orders: usize,
    money: u64,
    ghost fits: { in_range (numbers_of (few_items items) accounts orders money) ≡ true },
}

// Some number is out of range.
#[derive(Clone, Copy, Debug, PartialEq, Eq)]
pub struct OutOfRange;

// By hand, since a derive would write no clause.
impl fmt::Display for OutOfRange {
    ghost use Rattle.disc.specs.Texts.{out_of_range_text};

    ghost output = { λ _. Some out_of_range_text };

    fn fmt<W: fmt::Write>(&self, f: &mut fmt::Formatter<W>) -> fmt::Result {
        f.write_str("a number of the market is out of range")
    }
}

impl Error for OutOfRange {}
