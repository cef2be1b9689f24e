// One message of a file of messages.
ghost use Rattle.session.specs.Heard.{Heard};

use reference::PlainMarket;
use wire::{Refusal, read_message};

// Tells the market the message at `at`, and gives the place behind it; bytes that are no message are refused there.
pub fn step(market: &mut PlainMarket, messages: &[u8], at: usize) -> Result<usize, Refusal>
    ensures { Heard messages.now at market.old market.new result }
{
    let (message, length) = read_message(messages, at, market.items())?;
    market.hear(message, messages);
    Ok(at + length)
}
