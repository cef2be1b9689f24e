// Whether numbers are in range.
ghost use Rattle.std.specs.Prelude.{◌≡◌, map, length};
ghost use Rattle.disc.specs.Numbers.{band_fits, counts_fit, item_fits, items_fit, price_fits};
ghost use Rattle.wire.specs.Means.{item_of};

use wire::Item;

pub(crate) fn counts_fit(count: usize, accounts: usize, orders: usize, money: u64) -> bool
    ensures { result ≡ counts_fit count accounts orders money }
{
    (1..=256).contains(&count)
        && (1..=4096).contains(&accounts)
        && (1..=65536).contains(&orders)
        && money <= 1_125_899_906_842_624
}

pub(crate) fn price_fits(price: u32) -> bool
    ensures { result ≡ price_fits price }
{
    (1..=1_000_000).contains(&price)
}

pub(crate) fn band_fits(price: u32, band: u32) -> bool
    ensures { result ≡ band_fits price band }
{
    (1..=price).contains(&band)
}

fn item_fits(item: &Item) -> bool
    ensures { result ≡ item_fits (item_of item.now) }
{
    price_fits(item.price) && band_fits(item.price, item.band)
}

pub(crate) fn items_fit(items: &[Item]) -> bool
    ensures { result ≡ items_fit (map item_of items.now) }
{
    items.iter().all(item_fits)
}
