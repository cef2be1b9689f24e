// Money and holdings that change hands.
ghost use Rattle.std.specs.Prelude.{◌≡◌, ◌<◌, ◌≤◌, map, length, pos, ◌+ℤ◌, ◌-ℤ◌, ◌*ℤ◌, vec_len, slice_index_or, slice_set};
ghost use Rattle.reference.specs.Means.{account_of, held_of, world_of};
ghost use Rattle.reference.specs.Conditions.{Within, Roomy};
ghost use Rattle.reference.specs.Does.{Becomes};
ghost use Rattle.venue.specs.World as world;

use crate::market::{Account, Market};

impl Account {
    // The account holds x more of an item, for so much.
    fn carry(&mut self, item: usize, x: i64, cost: i64)
        requires here { item < vec_len self.old.positions }
        requires cash { Within 4000000000000000000 self.old.cash }
        requires held { Within 1000000000000 (slice_index_or (map held_of self.old.positions.items) item (pos 0)) }
        requires amount { Within 1000000000000 x }
        requires cost { Within 4000000000000000000 cost }
        ensures { account_of self.new ≡ record { cash = self.old.cash -ℤ cost; holds = slice_set (map held_of self.old.positions.items) item (slice_index_or (map held_of self.old.positions.items) item (pos 0) +ℤ x) } }
    {
        self.cash -= cost;
        self.positions[item].held += x;
    }
}

// The product of two numbers that are not large.
fn times(h: i64, d: i64) -> i64
    requires h { Within 4294967296 h }
    requires d { Within 4194304 d }
    ensures value { result ≡ h *ℤ d }
    ensures bound { Within 18014398509481984 result }
{
    h * d
}

// That an account and an item are there is asked by each call that names them by number: it is a fact of the market at that moment.
impl Market {
    // An account gets x of an item for so much each; gains and losses against the item's price are money.
    pub(crate) fn gets(&mut self, a: usize, k: usize, x: i64, price: u32)
        requires account { a < length (world_of self.old).accounts }
        requires item { k < length (world_of self.old).items }
        requires roomy { Roomy 1000000000000000000 1000000000000 (world_of self.old) }
        requires amount { Within 4294967296 x }
        requires price { price ≤ 2000000 }
        ensures { Becomes self.old self.new (world.gets (world_of self.old) a k x price) }
    {
        let base = self.items[k].price;
        let cost = times(x, i64::from(price) - i64::from(base));
        self.accounts[a].carry(k, x, cost);
    }

    // What an account has of an item.
    pub(crate) fn held_of(&self, account: u16, item: u16) -> i64
        requires account { account < length (world_of self.now).accounts }
        requires item { item < length (world_of self.now).items }
        requires roomy { Roomy 1125899906842624 2147483648 (world_of self.now) }
        ensures value { result ≡ world.held (world.account (world_of self.now) account) item }
        ensures bound { Within 2147483648 result }
    {
        self.accounts[usize::from(account)].positions[usize::from(item)].held
    }
}
