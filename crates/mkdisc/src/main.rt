// A new disc from a setup file: mkdisc SETUP DISC.
#![tactic(auto)]

use anyhow::{anyhow, bail};
use std::alloc::Global;
use std::fs::{OpenFile, OpenOptions};
use std::io::Write;
use std::process::ExitCode;
use std::{env, fs};
use text::read_setup;

// The disc's bytes as the setup file describes them.
fn disc_bytes(heap: Global, setup: &str, text: &[u8]) -> anyhow::Result<Vec<u8>> {
    let made = read_setup(text).map_err(|fault| anyhow!("{setup}: {fault}"))?;
    Ok(disc::make(heap, &made.header, made.journal)?)
}

// Writes a file that was not there before, and waits until it is on the disc.
fn write_new(rt: &HostRuntime, path: &str, bytes: &[u8]) -> anyhow::Result<()> {
    let mut how = OpenOptions::new();
    how.write(true).create_new(true);
    let mut file = how
        .open(rt, path)
        .map_err(|error| anyhow!("{path}: {error}"))?;
    file.write_all(bytes)?;
    file.sync_all()?;
    Ok(())
}

fn make(rt: &HostRuntime, setup: &str, path: &str) -> anyhow::Result<()> {
    let text = fs::read(rt, setup).map_err(|error| anyhow!("{setup}: {error}"))?;
    let bytes = disc_bytes(rt.alloc(), setup, text.as_slice())?;
    write_new(rt, path, bytes.as_slice())?;
    let length = bytes.len();
    println!(rt; "disc made: {length} bytes")?;
    Ok(())
}

fn run(rt: &HostRuntime) -> anyhow::Result<()> {
    let mut args = env::args(rt)?;
    let (Some(setup), Some(path), None) = (args.nth(1), args.next(), args.next()) else {
        bail!("usage: mkdisc SETUP DISC");
    };
    make(rt, setup.as_str(), path.as_str())
}

fn main(rt: HostRuntime) -> ExitCode {
    match run(&rt) {
        Ok(()) => ExitCode::SUCCESS,
        Err(error) => {
            let _ = eprintln!(rt; "mkdisc: {error}");
            ExitCode::FAILURE
        }
    }
}
