// A whole program: NAME DISC MESSAGES.
use crate::playing::play;
use crate::unplayed::Unplayed;
use reference::PlainMarket;
use std::io::{BufWriter, Write};
use std::process::ExitCode;
use std::{env, fs};
use text::RefusalLine;
use wire::Kinds;

// Starts a market with the disc's numbers, and plays the messages.
fn start<W: Write>(
    rt: &HostRuntime,
    out: &mut W,
    disc: &[u8],
    messages: &[u8],
    kinds: Kinds,
) -> Result<(), Unplayed> {
    let header = disc::read(disc)?;
    let mut market = PlainMarket::new(rt.alloc(), &header, kinds)?;
    play(out, &mut market, messages)
}

// Reads the two files, and writes all lines; a refusal's line is the last.
fn run(rt: &HostRuntime, kinds: Kinds) -> Result<(), Unplayed> {
    let mut args = env::args(rt)?.skip(1);
    let (Some(disc), Some(messages), None) = (args.next(), args.next(), args.next()) else {
        return Err(Unplayed::Usage);
    };
    let disc = fs::read(rt, disc.as_str())?;
    let messages = fs::read(rt, messages.as_str())?;
    let mut out = BufWriter::new(rt.alloc(), rt.stdout())?;
    let played = start(rt, &mut out, disc.as_slice(), messages.as_slice(), kinds);
    match &played {
        Ok(()) => {}
        Err(Unplayed::Refused(refusal)) => writeln!(out, "{}", RefusalLine(*refusal))?,
        Err(_) => return played,
    }
    out.flush()?;
    played
}

// Runs the program `name` with a market of these kinds. A refused disc or message is a failure, and so is all that the system refuses.
pub fn program(rt: &HostRuntime, name: &str, kinds: Kinds) -> ExitCode {
    // Where standard error takes no line either, the status alone says that the program failed.
    let _ = match run(rt, kinds) {
        Ok(()) => return ExitCode::SUCCESS,
        Err(Unplayed::Refused(_)) => Ok(()),
        Err(Unplayed::Usage) => eprintln!(rt; "{name}: usage: {name} DISC MESSAGES"),
        Err(error) => eprintln!(rt; "{name}: {error}"),
    };
    ExitCode::FAILURE
}
