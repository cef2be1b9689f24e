// Placing an order.
ghost use Rattle.std.specs.Prelude.{◌≡◌, ℕ, ◌+◌, ◌<◌, ◌≤◌, Bool, [], ◌∷◌, ◌++◌, map, length, nat_le};
ghost use Rattle.reference.specs.Means.{order_of, world_of, limits_of};
ghost use Rattle.reference.specs.Conditions.{Fit};
ghost use Rattle.reference.specs.Does.{Becomes, HasRoom, Tells};
ghost use Rattle.reference.specs.Parts.{well_formed};
ghost use Rattle.venue.specs.Sound.{Sound};
ghost use Rattle.venue.specs.Turn.{may_place};
ghost use Rattle.venue.specs.World as world;
ghost use Rattle.wire.specs.Means.{side_of};

use crate::market::{Market, Order, Told};
use wire::Report;

// The most of an item that an account may come to hold or owe.
const MOST_HELD: u64 = 2147483648;

// All that the account would buy and sell of the item by its orders.
fn standing(account: u16, item: u16, orders: &[Order]) -> u64
    requires { length orders.now ≤ 65536 }
    ensures value { result ≡ world.standing account item (map order_of orders.now) }
    ensures bound { result ≤ 281474976710656 }
{
    // Tried as a chain of `filter`, `map` and `sum`: the proof of the bound did not close.
    let mut sum: u64 = 0;
    for o in orders {
        if o.account == account && o.item == item {
            sum += u64::from(o.left);
        }
    }
    sum
}

impl Market {
    // Whether there is trading, the account and the item exist, and the order's numbers and the market's are in range.
    fn is_well_formed(&self, order: &Order) -> bool
        ensures { (k : ℕ → Bool) → result ≡ well_formed (limits_of self.now.limits k) (world_of self.now) order.now.account order.now.item order.now.price order.now.left }
    {
        let (account, item) = (usize::from(order.account), usize::from(order.item));
        if !self.trading || account >= self.accounts.len() || item >= self.items.len() {
            return false;
        }
        if order.left < 1
            || order.left > 1_000_000
            || self.orders.len() >= self.limits.orders
            || self.next >= 9223372036854775808
        {
            return false;
        }
        let of = &self.items[item];
        let (price, band) = (u64::from(of.price), u64::from(of.band));
        let asked = u64::from(order.price);
        price <= asked + band && asked <= price + band
    }

    // Whether the account's holding, with all that its orders and this one could buy or sell, stays within the most.
    fn has_room(&self, order: &Order) -> bool
        requires account { order.now.account < length (world_of self.now).accounts }
        requires item { order.now.item < length (world_of self.now).items }
        requires fit { Fit (world_of self.now) }
        ensures { result ≡ nat_le (world.abs (world.held (world.account (world_of self.now) order.now.account) order.now.item) + world.standing order.now.account order.now.item (world_of self.now).orders + order.now.left) 2147483648 }
    {
        let held = self.held_of(order.account, order.item);
        held.unsigned_abs()
            + standing(order.account, order.item, &self.orders)
            + u64::from(order.left)
            <= MOST_HELD
    }

    // Whether the account's money covers what it can lose with the order standing whole; the order stands only while this is asked.
    fn would_cover(&mut self, order: Order) -> bool
        requires here { order.account < length (world_of self.old).accounts }
        requires fit { Fit (world_of self.old) }
        requires room { length (world_of self.old).orders < self.old.limits.orders }
        ensures value { result ≡ world.covered (world_of self.old) order.account ((world_of self.old).orders ++ order_of order ∷ []) }
        ensures same { Becomes self.old self.new (world_of self.old) }
    {
        self.stand(order);
        let covered = self.covers(order.account);
        let _ = self.orders.pop();
        covered
    }

    // Whether the order may be placed.
    fn may_place(&mut self, order: Order) -> bool
        requires fit { Fit (world_of self.old) }
        requires numbered { order.number ≡ self.old.next }
        ensures value { (k : ℕ → Bool) → result ≡ may_place (limits_of self.old.limits k) (world_of self.old) order.account order.item (side_of order.side) order.price order.left }
        ensures same { Becomes self.old self.new (world_of self.old) }
    {
        if !self.is_well_formed(&order) {
            return false;
        }
        if !self.has_room(&order) {
            return false;
        }
        self.would_cover(order)
    }
}

impl Told {
    // The order is placed, if it may be, and meets those that stand.
    pub(crate) fn place(&mut self, order: Order)
        requires fit { Fit (world_of self.old.market) }
        requires sound { (k : ℕ → Bool) × Sound (limits_of self.old.market.limits k) (world_of self.old.market) }
        requires numbered { order.number ≡ self.old.market.next }
        requires room { (k : ℕ → Bool) → HasRoom self.old (λ w. world.says_it (limits_of self.old.market.limits k) w (world.place order.account order.item (side_of order.side) order.price order.left)) }
        ensures { (k : ℕ → Bool) → Tells self.old self.new (λ w. world.says_it (limits_of self.old.market.limits k) w (world.place order.account order.item (side_of order.side) order.price order.left)) }
    {
        if !self.market.may_place(order) {
            self.reports.push_reserved(Report::Refused);
            return;
        }
        self.reports.push_reserved(Report::Taken {
            number: self.market.next,
        });
        self.market.next += 1;
        self.fill(order);
    }
}
