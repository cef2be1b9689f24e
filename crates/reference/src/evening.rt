// The day's end: each holding's gain or loss is paid, new prices and bands hold, and orders are gone.
// A message says where its prices start, and its bytes are passed beside: so bytes and place go along together here. The definition of the
// prices, `column`, speaks of places in all the bytes, so a slice of them would say it no more plainly.
ghost use Rattle.std.specs.Prelude.{◌≡◌, ℕ, ◌+◌, ◌*◌, ◌^◌, ◌<◌, ◌≤◌, ◌&&◌, map, length, slice_index_or, ◌+ℤ◌, vec_len, is_ok, nat_le};
ghost use Rattle.reference.specs.Means.{account_of, world_of};
ghost use Rattle.reference.specs.Conditions.{Fit, Settles, Within};
ghost use Rattle.reference.specs.Does.{Obeys};
ghost use Rattle.venue.specs.World as world;
ghost use Rattle.wire.specs.Means.{column, item_of, message_of};
ghost use Rattle.wire.specs.declared.message.Message.TheVariants.{EndDay};

use crate::market::{Account, Market, Refused};
use crate::needs::product;
use wire::read::reaches;
use wire::{Field, Item};

// Whether the new price is within the item's band, and the new band at least 1 and no larger than its price.
fn suits(item: Item, new: Item) -> bool
    ensures { result ≡ ((nat_le item.price (new.price + item.band) && nat_le new.price (item.price + item.band)) && (nat_le 1 new.band && (nat_le new.band new.price && nat_le new.price 1000000))) }
{
    let low = u64::from(item.price) <= u64::from(new.price) + u64::from(item.band);
    let high = u64::from(new.price) <= u64::from(item.price) + u64::from(item.band);
    low && high && new.band >= 1 && new.band <= new.price && new.price <= 1_000_000
}

// Whether every new price and band fits its item.
fn all_fit(items: &[Item], bytes: &[u8], at: usize) -> bool
    requires { at + 8 * length items.now ≤ length bytes.now }
    ensures { result ≡ world.prices_fit (map item_of items.now) (column bytes.now at (length items.now)) (column bytes.now (at + 4) (length items.now)) }
{
    for (k, item) in items.iter().enumerate() {
        if !suits(*item, Item::read(bytes, at + 8 * k)) {
            return false;
        }
    }
    true
}

// What the account gains by the new prices.
fn gain(account: &Account, items: &[Item], bytes: &[u8], at: usize) -> i128
    requires inside { at + 8 * length items.now ≤ length bytes.now }
    requires shaped { vec_len account.now.positions ≡ length items.now }
    requires few { length items.now ≤ 256 }
    ensures value { result ≡ world.gain 0 (map item_of items.now) (column bytes.now at (length items.now)) (account_of account.now) }
    ensures bound { Within (2 ^ 103) result }
{
    let mut sum: i128 = 0;
    for (k, (item, position)) in items.iter().zip(&account.positions).enumerate() {
        let new = Item::read(bytes, at + 8 * k);
        sum += product(position.held, i64::from(new.price) - i64::from(item.price));
    }
    sum
}

// Pays every account what it gains.
fn settle(accounts: &mut Vec<Account>, items: &[Item], bytes: &[u8], at: usize)
    requires inside { at + 8 * length items.now ≤ length bytes.now }
    requires few { length items.now ≤ 256 }
    requires shaped { (a : ℕ) → a < vec_len accounts.old → length (slice_index_or (map account_of accounts.old.items) a world.nobody).holds ≡ length items.now }
    requires fits { (a : ℕ) → a < vec_len accounts.old → Within 1125899906842624 ((slice_index_or (map account_of accounts.old.items) a world.nobody).cash +ℤ world.gain 0 (map item_of items.now) (column bytes.now at (length items.now)) (slice_index_or (map account_of accounts.old.items) a world.nobody)) }
    ensures { map account_of accounts.new.items ≡ world.paid (map item_of items.now) (column bytes.now at (length items.now)) (map account_of accounts.old.items) }
{
    for account in accounts.iter_mut() {
        let gain = gain(account, items, bytes, at);
        account.cash = (i128::from(account.cash) + gain) as i64;
    }
}

// The new prices and bands hold.
fn renew(items: &mut Vec<Item>, bytes: &[u8], at: usize)
    requires { at + 8 * vec_len items.old ≤ length bytes.now }
    ensures { map item_of items.new.items ≡ world.new_items (column bytes.now at (vec_len items.old)) (column bytes.now (at + 4) (vec_len items.old)) }
{
    for (k, item) in items.iter_mut().enumerate() {
        *item = Item::read(bytes, at + 8 * k);
    }
}

impl Market {
    // Taken if there is trading, and every price and band fits.
    pub(crate) fn end_day(&mut self, bytes: &[u8], prices: usize) -> Result<(), Refused>
        requires fit { Fit (world_of self.old) }
        requires settles { Settles (world_of self.old) }
        ensures { (z : world.Limits) → Obeys z (message_of bytes.now (length (world_of self.old).items) (EndDay prices)) self.old self.new (is_ok result) }
    {
        if !self.trading || !reaches(bytes, prices, 8 * self.items.len()) {
            return Err(Refused);
        }
        if !all_fit(&self.items, bytes, prices) {
            return Err(Refused);
        }
        settle(&mut self.accounts, &self.items, bytes, prices);
        renew(&mut self.items, bytes, prices);
        self.orders.clear();
        self.trading = false;
        Ok(())
    }
}
