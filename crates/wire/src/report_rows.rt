// Reading a message's reports together.
// Each reader takes the bytes and a place in them, as those of messages do.
ghost use Rattle.std.specs.Prelude.{◌≡◌, Some};
ghost use Rattle.wire.specs.Texts.{unread_text};
ghost use Rattle.wire.specs.Reports.{ReadReports, ReadSome};
ghost use Rattle.wire.specs.declared.report_rows.Unread.TheVariants.{Memory};

use crate::field::Field;
use crate::read::reaches;
use crate::report::Report;
use crate::report_read::read_report;
use std::alloc::AllocFailed;
use std::error::Error;
use std::fmt;

// Why reports were not read.
#[derive(Clone, Copy, Debug, PartialEq, Eq)]
pub enum Unread {
    // There is no memory for them.
    Memory,
    // The bytes there are no reports with their number in front.
    NoReports,
}

// By hand, since a derive would write no clause.
impl fmt::Display for Unread {
    ghost output = { λ e. Some (unread_text e) };

    fn fmt<W: fmt::Write>(&self, f: &mut fmt::Formatter<W>) -> fmt::Result {
        f.write_str(match self {
            Unread::Memory => "there is no memory for the reports",
            Unread::NoReports => "the bytes are no reports with their number in front",
        })
    }
}

impl Error for Unread {}

impl From<AllocFailed<Report>> for Unread {
    ghost from_gives = { λ _ e. e ≡ Memory };

    fn from(_e: AllocFailed<Report>) -> Unread {
        Unread::Memory
    }
}

// The reports at `at` behind those that `into` has, and how many bytes they and their number are.
pub fn read_reports(bytes: &[u8], at: usize, into: &mut Vec<Report>) -> Result<usize, Unread>
    ensures { ReadReports bytes.now at into.old.items into.new.items result }
{
    let start = into.len();
    let read = read_rows(bytes, at, into);
    // What was read is taken back first.
    if read.is_err() {
        into.truncate(start);
    }
    read
}

// One by one; what was read stays when the next cannot be.
fn read_rows(bytes: &[u8], at: usize, into: &mut Vec<Report>) -> Result<usize, Unread>
    ensures { ReadSome bytes.now at into.old.items into.new.items result }
{
    if !reaches(bytes, at, 4) {
        return Err(Unread::NoReports);
    }
    let mut size = 4usize;
    for _ in 0..u32::read(bytes, at) {
        let (report, n) = read_report(bytes, at + size).ok_or(Unread::NoReports)?;
        into.push(report)?;
        size += n;
    }
    Ok(size)
}
