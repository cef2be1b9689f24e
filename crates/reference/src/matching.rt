// Which order another trades with, and what is left of it.
ghost use Rattle.reference.specs.Means.{order_of};
ghost use Rattle.reference.specs.Parts.{first_of};
ghost use Rattle.std.specs.Prelude.{◌≡◌, ◌<◌, map, length, MatchOption, vec_len, vec_capacity};
ghost use Rattle.venue.specs.World as world;
ghost use Rattle.wire.specs.Means.{side_of};

use crate::market::Order;
use wire::Side;

impl Order {
    pub(crate) fn buys(&self) -> bool
        ensures { result ≡ world.is_buy (side_of self.now.side) }
    {
        self.side == Side::Buy
    }

    // Whether the order could trade with the other.
    #[tactic(auto, using(std::proofs::lemmas::Bool::Decides::nat_tests), unfolding(venue::specs::World::meets, venue::specs::World::other_side, venue::specs::World::crosses))]
    fn meets(&self, r: &Order) -> bool
        ensures { result ≡ world.meets (order_of self.now) (order_of r.now) }
    {
        if r.item != self.item {
            return false;
        }
        if self.buys() {
            !r.buys() && r.price <= self.price
        } else {
            r.buys() && self.price <= r.price
        }
    }

    // Whether price p is better for the order than price q.
    #[tactic(auto, using(std::proofs::lemmas::Bool::Decides::nat_tests), unfolding(venue::specs::World::better))]
    fn prefers(&self, p: u32, q: u32) -> bool
        ensures { result ≡ world.better (order_of self.now) p q }
    {
        if self.buys() { p < q } else { q < p }
    }

    // Whether the order trades with the one in place i sooner than with the best behind it, in place `best`, if there is one.
    pub(crate) fn comes_before(&self, orders: &[Order], i: usize, best: Option<usize>) -> bool
        requires here { i < length orders.now }
        requires behind { MatchOption best (Unit {0}) (λ j. j < length orders.now) }
        ensures { result ≡ first_of (order_of self.now) (map order_of orders.now) i best }
    {
        let r = &orders[i];
        // Asked first, as most don't meet it.
        if !self.meets(r) {
            return false;
        }
        match best {
            None => true,
            Some(j) => !self.prefers(orders[j].price, r.price),
        }
    }
}

// The order in place j has x less left, and is gone if nothing is. A row alone, so it says itself that its room stays.
pub(crate) fn take_from(orders: &mut Vec<Order>, j: usize, x: u32)
    requires { j < vec_len orders.old }
    ensures after { map order_of orders.new.items ≡ world.taken j x (map order_of orders.old.items) }
    ensures room { vec_capacity orders.new ≡ vec_capacity orders.old }
{
    if orders[j].left <= x {
        let _ = orders.remove(j);
    } else {
        orders[j].left -= x;
    }
}
