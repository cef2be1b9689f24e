// Cancelling an order.
ghost use Rattle.std.specs.Prelude.{◌≡◌, map, is_ok};
ghost use Rattle.reference.specs.Means.{order_of};
ghost use Rattle.reference.specs.Does.{Obeys};
ghost use Rattle.reference.specs.Parts.{found};
ghost use Rattle.venue.specs.World as world;

use crate::market::{Market, Order, Refused};

// The place of the account's order with that number, if it stands.
fn place_of(orders: &[Order], account: u16, number: u64) -> Option<usize>
    ensures { result ≡ found account number (map order_of orders.now) }
{
    orders
        .iter()
        .position(|o| o.number == number && o.account == account)
}

impl Market {
    // Taken if the order stands and is the account's.
    pub(crate) fn cancel(&mut self, account: u16, number: u64) -> Result<(), Refused>
        ensures { (z : world.Limits) → Obeys z (world.cancel account number) self.old self.new (is_ok result) }
    {
        // By `let .. else` (docs/DECISIONS.md, Forms).
        let Some(at) = place_of(&self.orders, account, number) else {
            return Err(Refused);
        };
        let _ = self.orders.remove(at);
        Ok(())
    }
}
