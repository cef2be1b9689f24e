// What the plain market is made of.
ghost use Rattle.std.specs.Prelude.{◌≤◌, vec_capacity, vec_len};

use crate::limits::Limits;
use wire::{Item, Report, Side};

#[derive(Clone, Copy, Debug, PartialEq, Eq)]
pub struct Order {
    pub number: u64,
    pub account: u16,
    pub item: u16,
    pub side: Side,
    pub price: u32,
    pub left: u32,
}

// What an account has of one item; below 0 it is owed. A struct for each item, in a row beside the items (docs/DECISIONS.md, Forms).
#[derive(Clone, Copy, Debug, PartialEq, Eq)]
pub struct Position {
    pub held: i64,
}

#[derive(Drop)]
pub struct Account {
    pub cash: i64,
    pub positions: Vec<Position>,
}

// `orders` stand in the order of their coming, and there is room for as many as the limits allow; `next` is the next order's number;
// `money` is what was paid in and not out.
#[derive(Drop)]
pub struct Market {
    pub limits: Limits,
    pub items: Vec<Item>,
    pub accounts: Vec<Account>,
    pub orders: Vec<Order>,
    pub next: u64,
    pub money: u64,
    pub trading: bool,
    ghost some: { 1 ≤ vec_len items },
    ghost few_items: { vec_len items ≤ 256 },
    ghost few_accounts: { vec_len accounts ≤ 4096 },
    ghost places: { limits.orders ≤ vec_capacity orders },
}

// A market with what it reported so far of the message that it carries out.
#[derive(Drop)]
pub struct Told {
    pub market: Market,
    pub reports: Vec<Report>,
}

// A message was not taken, and the market is as it was.
#[derive(Clone, Copy, Debug, PartialEq, Eq)]
pub struct Refused;
