// What a header says, number by number.
ghost use Rattle.std.specs.Prelude.{◌≡◌, ◌≤◌, map, length};
ghost use Rattle.disc.specs.Layout.{least_journal};
ghost use Rattle.disc.specs.Means.{header_of};
ghost use Rattle.wire.specs.Means.{item_of};

use super::Header;
use crate::layout::Sizes;
use wire::Item;

impl Header {
    // How many items there are.
    pub fn count(&self) -> usize
        ensures value { result ≡ length (header_of self.now).items }
        ensures bounds { (1 ≤ result) × (result ≤ 256) }
    {
        self.items.len()
    }

    pub fn items(&self) -> &[Item]
        ensures { map item_of result.now ≡ (header_of self.now).items }
    {
        self.items.as_slice()
    }

    pub fn accounts(&self) -> usize
        ensures value { result ≡ (header_of self.now).accounts }
        ensures bounds { (1 ≤ result) × (result ≤ 4096) }
    {
        self.accounts
    }

    // How many orders may stand.
    pub fn orders(&self) -> usize
        ensures value { result ≡ (header_of self.now).orders }
        ensures bounds { (1 ≤ result) × (result ≤ 65536) }
    {
        self.orders
    }

    // How much money may be in all accounts together.
    pub fn money(&self) -> u64
        ensures value { result ≡ (header_of self.now).money }
        ensures bounds { result ≤ 1125899906842624 }
    {
        self.money
    }

    // The blocks that a journal has at least.
    pub fn least_journal(&self) -> usize
        ensures value { result ≡ least_journal (length (header_of self.now).items) }
        ensures bounds { result ≤ 97 }
    {
        self.sizes().least_journal()
    }

    // The numbers that a disc's length depends on.
    pub(crate) fn sizes(&self) -> Sizes
        ensures items { result.items ≡ length (header_of self.now).items }
        ensures accounts { result.accounts ≡ (header_of self.now).accounts }
        ensures orders { result.orders ≡ (header_of self.now).orders }
    {
        Sizes {
            items: self.count(),
            accounts: self.accounts(),
            orders: self.orders(),
        }
    }
}
