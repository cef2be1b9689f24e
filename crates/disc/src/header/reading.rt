// A header from the bytes of a disc.
ghost use Rattle.std.specs.Prelude.{◌≡◌, ◌+◌, ◌*◌, ◌^◌, ◌<◌, ◌≤◌, true, false, map, length, Some, None, MatchResult, OnOk, OnErr, IfOk, IfErr};
ghost use Rattle.disc.specs.Block0.{bad_item, bad_length, bad_number, has_mark, header_refusal, items_from, numbers_on};
ghost use Rattle.disc.specs.Few.{few_items};
ghost use Rattle.disc.specs.Means.{header_of};
ghost use Rattle.disc.specs.Numbers.{within};
ghost use Rattle.disc.specs.Sizes.{AreSizesOn};
ghost use Rattle.wire.specs.Means.{item_of};
ghost use Rattle.wire.specs.Number.{four};

use super::ranges::{band_fits, price_fits};
use super::{BLANK, Header};
use crate::few::Few;
use crate::layout::{BLOCK, Sizes};
use wire::{Field, Item, Refusal};

// Whether the disc begins with the market's mark.
fn is_marked(bytes: &[u8]) -> bool
    ensures { result ≡ has_mark bytes.now }
{
    bytes.starts_with(b"MRKT")
}

// The item at `i` has its price and its band in range, else the error is the place of the first that is out of range.
// Its price lies there; the disc may end before its band does.
#[tactic(auto, using(crate::proofs::Steps::item_tests))]
fn check_item(bytes: &[u8], i: usize) -> Result<(), usize>
    requires { i + 4 ≤ length bytes.now }
    ensures { MatchResult result (λ _. bad_item bytes.now i 1 ≡ None) (λ at. bad_item bytes.now i 1 ≡ Some at) }
{
    let price = u32::read(bytes, i);
    if !price_fits(price) {
        return Err(i);
    }
    if bytes.len() < i + 8 {
        return Ok(());
    }
    if !band_fits(price, u32::read(bytes, i + 4)) {
        return Err(i + 4);
    }
    Ok(())
}

// So many items, one behind another; by their places, since the error is one, and the disc may end before the last item does.
fn check_items(bytes: &[u8], count: usize) -> Result<(), usize>
    requires { count ≤ 256 }
    ensures { MatchResult result (λ _. bad_item bytes.now 24 count ≡ None) (λ at. bad_item bytes.now 24 count ≡ Some at) }
{
    for k in 0..count {
        let i = 24 + 8 * k;
        // Nothing lies behind the disc's end, however many items it should have.
        if bytes.len() < i + 4 {
            return Ok(());
        }
        check_item(bytes, i)?;
    }
    Ok(())
}

// The number at `at`, which is from 1 to `most`; the error is its place.
fn read_number(bytes: &[u8], at: usize, most: u32) -> Result<usize, usize>
    requires { at + 4 ≤ length bytes.now }
    ensures value { IfOk result (λ n. n ≡ four bytes.now at) }
    ensures fits { OnOk result (within 1 most (four bytes.now at) ≡ true) }
    ensures place { IfErr result (λ e. e ≡ at) }
    ensures out { OnErr result (within 1 most (four bytes.now at) ≡ false) }
{
    let number = u32::read(bytes, at);
    if !(1..=most).contains(&number) {
        return Err(at);
    }
    // By `as`: there is no `From`, and `try_from` would have an error that cannot come.
    Ok(number as usize)
}

// How many items, accounts and orders there are, where all numbers are in range; the error is the place of the first that is not.
fn read_sizes(bytes: &[u8]) -> Result<Sizes, usize>
    requires { 512 ≤ length bytes.now }
    ensures range { MatchResult result (λ _. bad_number bytes.now ≡ None) (λ at. bad_number bytes.now ≡ Some at) }
    ensures sizes { IfOk result (AreSizesOn bytes.now) }
{
    let items = read_number(bytes, 4, 256)?;
    let accounts = read_number(bytes, 8, 4096)?;
    let orders = read_number(bytes, 12, 65536)?;
    if u64::read(bytes, 16) > 1_125_899_906_842_624 {
        return Err(16);
    }
    check_items(bytes, items)?;
    Ok(Sizes {
        items,
        accounts,
        orders,
    })
}

// The items of the disc, as many as `count`; by their places, since a loop over `bytes[24..24 + 8 * count].chunks_exact(8)` is no plainer.
fn items_of(bytes: &[u8], count: usize) -> Few<Item, 256>
    requires { (count ≤ 256) × (24 + 8 * count ≤ length bytes.now) }
    ensures { map item_of (few_items result) ≡ items_from bytes.now 24 count }
{
    let mut items = Few::new(BLANK);
    for k in 0..count {
        items.push(Item::read(bytes, 24 + 8 * k)).unwrap();
    }
    items
}

// Whether the disc's length is no whole number of blocks, or too small for its sizes.
fn is_bad_length(bytes: &[u8], sizes: Sizes) -> bool
    requires { AreSizesOn bytes.now sizes }
    ensures { result ≡ bad_length bytes.now }
{
    bytes.len() % BLOCK != 0 || bytes.len() < sizes.needed_bytes()
}

// The header of a disc with these bytes, or why it is refused.
pub fn read(bytes: &[u8]) -> Result<Header, Refusal>
    ensures { MatchResult result (λ h. (header_refusal bytes.now ≡ None) × (header_of h ≡ numbers_on bytes.now))
        (λ e. header_refusal bytes.now ≡ Some e) }
{
    let length = Refusal::Length { bytes: bytes.len() };
    if bytes.len() < BLOCK {
        return Err(length);
    }
    if !is_marked(bytes) {
        return Err(Refusal::NoMark);
    }
    let sizes = read_sizes(bytes).map_err(|at| Refusal::Range { at })?;
    if is_bad_length(bytes, sizes) {
        return Err(length);
    }
    Ok(Header {
        items: items_of(bytes, sizes.items),
        accounts: sizes.accounts,
        orders: sizes.orders,
        money: u64::read(bytes, 16),
    })
}
