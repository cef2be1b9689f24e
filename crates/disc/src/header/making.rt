// A header from its numbers.
ghost use Rattle.std.specs.Prelude.{◌≡◌, true, false, MatchResult};
ghost use Rattle.disc.specs.Means.{header_of};
ghost use Rattle.disc.specs.Numbers.{in_range, numbers_of};

use super::ranges::{counts_fit, items_fit};
use super::{BLANK, Header, OutOfRange};
use crate::few::Few;
use wire::Item;

impl Header {
    // The header with these numbers, if all are in range; they go along together until they are one.
    pub fn new(
        accounts: usize,
        orders: usize,
        money: u64,
        items: &[Item],
    ) -> Result<Header, OutOfRange>
        ensures { MatchResult result
            (λ h. (header_of h ≡ numbers_of items.now accounts orders money) × (in_range (numbers_of items.now accounts orders money) ≡ true))
            (λ _. in_range (numbers_of items.now accounts orders money) ≡ false) }
    {
        if !counts_fit(items.len(), accounts, orders, money) || !items_fit(items) {
            return Err(OutOfRange);
        }
        Ok(Header {
            items: Few::from_slice(BLANK, items).unwrap(),
            accounts,
            orders,
            money,
        })
    }
}
