// A worked day: what its accounts pay in, and what the market is then told.
use anyhow::anyhow;
use std::alloc::Global;
use wire::{Item, Message, Side, write_end_day, write_message};

// A message of a worked day; an end of day brings its item's price and band with it.
#[derive(Clone, Copy, Debug, PartialEq, Eq)]
pub enum Step {
    Say(Message),
    Evening(Item),
}

// Every account pays in `paid`, if there is that; then comes the first morning, then what is told.
#[derive(Clone, Copy, Debug, PartialEq, Eq)]
pub struct Day<'a> {
    pub name: &'a str,
    pub accounts: u16,
    pub paid: Option<u64>,
    pub steps: &'a [Step],
}

fn place(account: u16, side: Side, quantity: u32, price: u32) -> Step {
    Step::Say(Message::Place {
        account,
        item: 0,
        side,
        price,
        quantity,
    })
}

pub(crate) fn buy(account: u16, quantity: u32, price: u32) -> Step {
    place(account, Side::Buy, quantity, price)
}

pub(crate) fn sell(account: u16, quantity: u32, price: u32) -> Step {
    place(account, Side::Sell, quantity, price)
}

pub(crate) fn pay_out(account: u16, amount: u64) -> Step {
    Step::Say(Message::PayOut { account, amount })
}

pub(crate) fn evening(price: u32, band: u32) -> Step {
    Step::Evening(Item { price, band })
}

pub(crate) fn morning() -> Step {
    Step::Say(Message::BeginDay)
}

// Writes one message behind the bytes.
fn put(bytes: &mut Vec<u8>, step: Step) -> anyhow::Result<()> {
    let wrote = match step {
        Step::Say(message) => write_message(&message, &[], 1, bytes),
        Step::Evening(item) => write_end_day(&[item], bytes),
    };
    wrote.map_err(|_| anyhow!("no memory for the messages"))
}

impl Day<'_> {
    // The bytes of all its messages.
    pub(crate) fn bytes(&self, heap: Global) -> anyhow::Result<Vec<u8>> {
        let mut bytes = Vec::new(heap);
        if let Some(amount) = self.paid {
            for account in 0..self.accounts {
                put(&mut bytes, Step::Say(Message::PayIn { account, amount }))?;
            }
        }
        put(&mut bytes, morning())?;
        for step in self.steps {
            put(&mut bytes, *step)?;
        }
        Ok(bytes)
    }
}
