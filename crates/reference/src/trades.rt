// Orders that trade with one another.
ghost use Rattle.std.specs.Prelude.{◌≡◌, ◌<◌, ◌≤◌, [], ◌∷◌, ◌++◌, length, pos, neg_ℤ};
ghost use Rattle.reference.specs.Means.{order_of, world_of};
ghost use Rattle.reference.specs.Conditions.{Within, Roomy};
ghost use Rattle.reference.specs.Does.{Becomes};
ghost use Rattle.venue.specs.World as world;

use crate::market::{Market, Order};
use crate::matching::take_from;

// So much more for a buyer, so much less for a seller.
fn signed(buyer: bool, x: u32) -> i64
    requires { x ≤ 1000000 }
    ensures value { result ≡ world.pick buyer (pos x) (neg_ℤ (pos x)) }
    ensures bound { Within 1000000 result }
{
    if buyer { i64::from(x) } else { -i64::from(x) }
}

impl Market {
    // Order o trades x with order r, which stands in place j.
    pub(crate) fn trade(&mut self, o: &Order, r: &Order, j: usize, x: u32)
        requires here { j < length (world_of self.old).orders }
        requires item { o.now.item < length (world_of self.old).items }
        requires newer { o.now.account < length (world_of self.old).accounts }
        requires older { r.now.account < length (world_of self.old).accounts }
        requires amount { x ≤ 1000000 }
        requires price { r.now.price ≤ 2000000 }
        requires roomy { Roomy 1125899906842624 2147483648 (world_of self.old) }
        ensures { Becomes self.old self.new (world.traded (world_of self.old) (order_of o.now) (order_of r.now) j x) }
    {
        take_from(&mut self.orders, j, x);
        let buyer = o.buys();
        let item = usize::from(o.item);
        self.gets(usize::from(o.account), item, signed(buyer, x), r.price);
        self.gets(usize::from(r.account), item, signed(!buyer, x), r.price);
    }

    // The order stands after all others.
    pub(crate) fn stand(&mut self, o: Order)
        requires { length (world_of self.old).orders < self.old.limits.orders }
        ensures { Becomes self.old self.new (world.with_orders (world_of self.old) ((world_of self.old).orders ++ order_of o ∷ [])) }
    {
        self.orders.push_reserved(o);
    }
}
