// A file of messages, from its first byte to its last.
use crate::stepping::step;
use crate::unplayed::Unplayed;
use reference::PlainMarket;
use std::io;
use std::io::Write;
use text::ReportLine;

// Writes a line for each report of the message that was heard last.
fn write_reports<W: Write>(out: &mut W, market: &PlainMarket) -> io::Result<()> {
    for report in market.reports() {
        writeln!(out, "{}", ReportLine(*report))?;
    }
    Ok(())
}

// Tells the market all messages in turn, and writes their reports; it stops at bytes that are no message.
pub fn play<W: Write>(
    out: &mut W,
    market: &mut PlainMarket,
    messages: &[u8],
) -> Result<(), Unplayed> {
    // By places: messages differ in length, and an end of day finds its prices by their place in the whole file.
    let mut at = 0;
    while at < messages.len() {
        at = step(market, messages, at)?;
        write_reports(out, market)?;
    }
    Ok(())
}
