// What an account can lose by the day's end.
ghost use Rattle.std.specs.Prelude.{◌≡◌, ◌^◌, ◌<◌, ◌≤◌, map, length, ◌*ℤ◌, vec_len};
ghost use Rattle.reference.specs.Means.{order_of, account_of};
ghost use Rattle.reference.specs.Conditions.{Within};
ghost use Rattle.reference.specs.Parts.{buy_loss, sell_loss};
ghost use Rattle.venue.specs.World.{buys, sells, need_in, need_from};
ghost use Rattle.wire.specs.Means.{item_of};

use crate::market::{Account, Order};
use wire::Item;

// What one side's orders, or one order, could lose if all are carried out.
#[derive(Clone, Copy, Debug, PartialEq, Eq)]
struct Losses {
    buys: u128,
    sells: u128,
}

// An account's number, an item's number and the item go along through two functions here: a struct of them would be made for each item
// and taken apart at once. Each asks for fewer than 2^32 orders of the one row that it hands on, so that its own sum fits.

// What the order could lose, in its item, which is as it is told.
#[tactic(auto, using(std::proofs::lemmas::Bool::Decides::nat_tests), unfolding(crate::specs::Parts::buy_loss, crate::specs::Parts::sell_loss))]
fn loss_of(o: &Order, at: Item) -> Losses
    ensures buys { result.buys ≡ buy_loss o.now.account o.now.item (item_of at) (order_of o.now) }
    ensures sells { result.sells ≡ sell_loss o.now.account o.now.item (item_of at) (order_of o.now) }
    ensures bound { (result.buys ≤ 2 ^ 65) × (result.sells ≤ 2 ^ 65) }
{
    let left = u128::from(o.left);
    let order = u128::from(o.price);
    let (price, band) = (u128::from(at.price), u128::from(at.band));
    if o.buys() {
        Losses {
            buys: left * (order + band).saturating_sub(price),
            sells: 0,
        }
    } else {
        Losses {
            buys: 0,
            sells: left * (price + band).saturating_sub(order),
        }
    }
}

// What the account's orders in the item could lose.
fn losses_of(account: u16, item: u16, at: Item, orders: &[Order]) -> Losses
    requires { length orders.now < 2 ^ 32 }
    ensures buys { result.buys ≡ buys account item (item_of at) (map order_of orders.now) }
    ensures sells { result.sells ≡ sells account item (item_of at) (map order_of orders.now) }
    ensures bound { (result.buys < 2 ^ 98) × (result.sells < 2 ^ 98) }
{
    let mut buys: u128 = 0;
    let mut sells: u128 = 0;
    for o in orders {
        // Passed over at once, as most are: nothing is added for another account's order, or for one in another item.
        if o.account != account || o.item != item {
            continue;
        }
        let one = loss_of(o, at);
        buys += one.buys;
        sells += one.sells;
    }
    Losses { buys, sells }
}

// A holding times a price's change or a band.
pub(crate) fn product(held: i64, by: i64) -> i128
    requires { Within 4294967296 by }
    ensures value { result ≡ held *ℤ by }
    ensures bound { Within (2 ^ 95) result }
{
    i128::from(held) * i128::from(by)
}

// The most that an account can lose in an item: when the price falls by the band, or rises by it.
fn need_in(account: u16, k: u16, item: Item, held: i64, orders: &[Order]) -> i128
    requires { length orders.now < 2 ^ 32 }
    ensures value { result ≡ need_in account k (item_of item) held (map order_of orders.now) }
    ensures bound { Within (2 ^ 99) result }
{
    let losses = losses_of(account, k, item, orders);
    let swing = product(held, i64::from(item.band));
    let falls = swing + losses.buys as i128;
    let rises = losses.sells as i128 - swing;
    falls.max(rises)
}

// The most that an account can lose.
pub(crate) fn need(account: u16, of: &Account, items: &[Item], orders: &[Order]) -> i128
    requires orders { length orders.now < 2 ^ 32 }
    requires items { length items.now ≤ 65536 }
    requires shaped { vec_len of.now.positions ≡ length items.now }
    ensures value { result ≡ need_from account 0 (map item_of items.now) (account_of of.now) (map order_of orders.now) }
    ensures bound { Within (2 ^ 115) result }
{
    let mut sum: i128 = 0;
    for (k, (item, position)) in items.iter().zip(&of.positions).enumerate() {
        sum += need_in(account, k as u16, *item, position.held, orders);
    }
    sum
}
