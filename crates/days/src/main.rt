// Six worked days through the plain market: each report's line, and what the accounts have at the end.
#![tactic(auto)]

use anyhow::bail;
use day::{Day, buy, evening, morning, pay_out, sell};
use disc::Header;
use reference::PlainMarket;
use session::{Unplayed, play};
use std::io;
use std::io::{BufWriter, Write};
use wire::{Item, Kinds};

mod day;

// The market before its first message: one item, and room for everything that the days do.
fn first_market(rt: &HostRuntime, accounts: u16) -> anyhow::Result<PlainMarket> {
    let items = [Item {
        price: 100,
        band: 10,
    }];
    let header = Header::new(usize::from(accounts), 16, 1_000_000, &items)?;
    Ok(PlainMarket::new(rt.alloc(), &header, Kinds::all())?)
}

// What each account has, what it could lose by the day's end, and whether there is trading.
fn write_end<W: Write>(out: &mut W, market: &PlainMarket, accounts: u16) -> io::Result<()> {
    for account in 0..accounts {
        if let (Some(cash), Some(need)) = (market.cash(account), market.need(account)) {
            writeln!(out, "account {account}: money {cash}, need {need}")?;
        }
    }
    if market.trading() {
        writeln!(out, "trading")
    } else {
        writeln!(out, "no trading")
    }
}

// Plays a day from its own bytes, as a program reads them from a file.
fn show<W: Write>(rt: &HostRuntime, out: &mut W, day: &Day) -> anyhow::Result<()> {
    let name = day.name;
    writeln!(out, "day {name}")?;
    let bytes = day.bytes(rt.alloc())?;
    let mut market = first_market(rt, day.accounts)?;
    match play(out, &mut market, bytes.as_slice()) {
        Err(Unplayed::Refused(_)) => bail!("a message of a worked day is refused"),
        played => played?,
    }
    write_end(out, &market, day.accounts)?;
    Ok(())
}

// Plays days, one after another.
fn show_all<W: Write>(rt: &HostRuntime, out: &mut W, days: &[Day]) -> anyhow::Result<()> {
    for day in days {
        show(rt, out, day)?;
    }
    Ok(())
}

// Days that are all trading.
fn trading_days<W: Write>(rt: &HostRuntime, out: &mut W) -> anyhow::Result<()> {
    let days = [
        Day {
            name: "A: a trade at the older order's price",
            accounts: 2,
            paid: Some(100),
            steps: &[buy(0, 5, 102), sell(1, 3, 101)],
        },
        Day {
            name: "B: the better price first, and of equals the older",
            accounts: 3,
            paid: Some(500),
            steps: &[
                sell(0, 2, 103),
                sell(1, 2, 102),
                sell(0, 4, 102),
                buy(2, 5, 103),
            ],
        },
        Day {
            name: "C: an order that is not covered, and an account that meets itself",
            accounts: 1,
            paid: Some(100),
            steps: &[
                buy(0, 10, 100),
                buy(0, 1, 100),
                sell(0, 10, 100),
                pay_out(0, 1),
            ],
        },
    ];
    show_all(rt, out, &days)
}

// Days with an evening, and some with the next morning.
fn settled_days<W: Write>(rt: &HostRuntime, out: &mut W) -> anyhow::Result<()> {
    let days = [
        Day {
            name: "D: a holding that is torn up in the morning",
            accounts: 2,
            paid: Some(50),
            steps: &[buy(0, 5, 100), sell(1, 5, 100), evening(110, 20), morning()],
        },
        Day {
            name: "E: nothing paid in, and a price out of its band",
            accounts: 1,
            paid: None,
            steps: &[buy(0, 1, 100), evening(111, 10), evening(110, 10)],
        },
        Day {
            name: "F: a holding that is torn up against two others",
            accounts: 3,
            paid: Some(100),
            steps: &[
                buy(0, 6, 100),
                sell(1, 4, 100),
                sell(2, 2, 100),
                evening(90, 8),
                morning(),
            ],
        },
    ];
    show_all(rt, out, &days)
}

fn main(rt: HostRuntime) -> anyhow::Result<()> {
    let mut out = BufWriter::new(rt.alloc(), rt.stdout())?;
    trading_days(&rt, &mut out)?;
    settled_days(&rt, &mut out)?;
    out.flush()?;
    Ok(())
}
