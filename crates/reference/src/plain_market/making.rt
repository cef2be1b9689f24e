// A new plain market.
ghost use Rattle.std.specs.Prelude.{◌≡◌, suc, ◌*◌, max, [], map, length, replicate, pos, IfOk};
ghost use Rattle.disc.specs.Means.{header_of};
ghost use Rattle.disc.specs.Numbers as disc;
ghost use Rattle.reference.specs.Means.{account_of, held_of, world_of};
ghost use Rattle.reference.specs.Plain.{plain_limits, plain_reports, plain_world};
ghost use Rattle.wire.specs.Means.{kinds_of};

use super::PlainMarket;
use crate::limits::Limits;
use crate::market::{Account, Market, Position, Told};
use disc::Header;
use std::alloc::{AllocError, Global};
use wire::Kinds;

// Nothing of each of so many items.
fn no_positions(heap: Global, items: usize) -> Result<Vec<Position>, AllocError>
    ensures { IfOk result (λ v. map held_of v.items ≡ replicate items (pos 0)) }
{
    Ok(vec![in heap; Position { held: 0 }; items]?)
}

// So many accounts with nothing.
fn new_accounts(heap: Global, accounts: usize, items: usize) -> Result<Vec<Account>, AllocError>
    ensures { IfOk result (λ v. map account_of v.items ≡ replicate accounts (record { cash = pos 0; holds = replicate items (pos 0) })) }
{
    let mut all = Vec::with_capacity(heap, accounts)?;
    for _ in 0..accounts {
        let positions = no_positions(heap, items)?;
        all.push(Account { cash: 0, positions })?;
    }
    Ok(all)
}

// The first morning: the items with their first prices, and accounts with nothing.
fn first_market(heap: Global, header: &Header) -> Result<Market, AllocError>
    ensures { IfOk result (λ m. (world_of m ≡ disc.first_of (header_of header.now)) × (m.limits.orders ≡ (header_of header.now).orders) × (m.limits.money ≡ (header_of header.now).money)) }
{
    let items = Vec::from_slice(heap, header.items())?;
    let accounts = new_accounts(heap, header.accounts(), header.count())?;
    let orders = Vec::with_capacity(heap, header.orders())?;
    let limits = Limits {
        orders: header.orders(),
        money: header.money(),
    };
    Ok(Market {
        limits,
        items,
        accounts,
        orders,
        next: 1,
        money: 0,
        trading: false,
    })
}

// The most reports that a message can have: one, and one for each order that may stand or for each position.
fn most_reports(header: &Header) -> usize
    ensures { result ≡ suc (max (header_of header.now).orders ((header_of header.now).accounts * length (header_of header.now).items)) }
{
    let positions = header.accounts() * header.count();
    header.orders().max(positions) + 1
}

impl PlainMarket {
    // The first morning of the market that a disc's header describes, with these kinds of messages; it fails only for want of memory.
    pub fn new(heap: Global, header: &Header, kinds: Kinds) -> Result<PlainMarket, AllocError>
        ensures { IfOk result (λ m. (plain_world m ≡ disc.first_of (header_of header.now)) × (plain_limits m ≡ disc.limits_of (header_of header.now) (kinds_of kinds)) × (plain_reports m ≡ [])) }
    {
        let market = first_market(heap, header)?;
        let reports = Vec::with_capacity(heap, most_reports(header))?;
        Ok(PlainMarket {
            kinds,
            told: Told { market, reports },
        })
    }
}
