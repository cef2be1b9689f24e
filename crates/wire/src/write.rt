// Writing a message behind other bytes.
ghost use Rattle.wire.specs.Means.{evening_of, message_of};
ghost use Rattle.wire.specs.Messages.{has_prices, writes};
ghost use Rattle.wire.specs.Writing.{Wrote, WroteIf};

use crate::item::Item;
use crate::kind::Kind;
use crate::message::Message;
use crate::row::Row;
use crate::unwritten::{Unwritten, put, put_whole};

// An end of day as it lies in the bytes that it was read from: these go beside it, since a message holds only where its prices start.
fn copy_end_day(
    source: &[u8],
    prices: usize,
    items: usize,
    out: &mut Vec<u8>,
) -> Result<(), Unwritten>
    ensures { WroteIf (has_prices source.now items (Message.EndDay prices)) Unwritten.Prices
        out.old.items out.new.items
        (writes (message_of source.now items (Message.EndDay prices))) result }
{
    // So many items may be told of that their bytes are past counting, so `reaches` would not do.
    if prices > source.len() || items > (source.len() - prices) / 8 {
        return Err(Unwritten::Prices);
    }
    put(&(Kind::EndDay, &source[prices..prices + 8 * items]), out)
}

// A message that was read from `source`, where there are so many items.
#[tactic(auto, unfolding(crate::specs::Messages::writes))]
pub fn write_message(
    message: &Message,
    source: &[u8],
    items: usize,
    out: &mut Vec<u8>,
) -> Result<(), Unwritten>
    ensures { WroteIf (has_prices source.now items message.now) Unwritten.Prices
        out.old.items out.new.items
        (writes (message_of source.now items message.now)) result }
{
    match *message {
        Message::PayIn { account, amount } => put_whole(&(Kind::PayIn, (account, amount)), out),
        Message::PayOut { account, amount } => put_whole(&(Kind::PayOut, (account, amount)), out),
        Message::Place {
            account,
            item,
            side,
            price,
            quantity,
        } => {
            put_whole(
                &(Kind::Place, (account, (item, (side, (price, quantity))))),
                out,
            )
        }
        Message::Cancel { account, number } => put_whole(&(Kind::Cancel, (account, number)), out),
        Message::EndDay { prices } => copy_end_day(source, prices, items, out),
        Message::BeginDay => put_whole(&Kind::BeginDay, out),
    }
}

// The end of day that these items' prices and bands make.
pub fn write_end_day(items: &[Item], out: &mut Vec<u8>) -> Result<(), Unwritten>
    ensures { Wrote out.old.items out.new.items (writes (evening_of items.now)) result }
{
    put(&(Kind::EndDay, Row(items)), out)
}
