// What a setup file has said so far.
use disc::Few;
use wire::Item;

mod ending;
mod filling;

// How many blocks each journal has, and the line that said it.
#[derive(Clone, Copy, Debug, PartialEq, Eq)]
pub struct JournalLength {
    pub blocks: u64,
    pub line: usize,
}

#[derive(Clone, Copy, Debug, PartialEq, Eq)]
pub struct Draft {
    // The line that comes next, from 1 on.
    pub line: usize,
    pub accounts: Option<u64>,
    pub orders: Option<u64>,
    pub money: Option<u64>,
    pub journal: Option<JournalLength>,
    pub items: Few<Item, 256>,
}
