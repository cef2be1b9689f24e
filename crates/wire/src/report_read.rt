// Reading a report from bytes.
// Each reader takes the bytes and a place in them, as those of messages do.
#![tactic(auto, using(std::proofs::lemmas::Bool::Decides::nat_tests), unfolding(crate::specs::Reports::reads_report))]

ghost use Rattle.std.specs.Prelude.{◌≡◌, ◌+◌, ◌<◌, ◌≤◌, length, slice_index};
ghost use Rattle.wire.specs.Reports.{AsReported, ReadReport};

use crate::field::Field;
use crate::read::reaches;
use crate::report::Report;
use crate::report_kind::ReportKind;

fn read_taken(bytes: &[u8], at: usize) -> Option<(Report, usize)>
    requires { slice_index bytes.now at ≡ 0 }
    ensures { ReadReport bytes.now at result }
{
    if !reaches(bytes, at, 9) {
        return None;
    }
    let number = u64::read(bytes, at + 1);
    Some((Report::Taken { number }, 9))
}

fn read_trade(bytes: &[u8], at: usize) -> Option<(Report, usize)>
    requires { slice_index bytes.now at ≡ 2 }
    ensures { ReadReport bytes.now at result }
{
    if !reaches(bytes, at, 27) {
        return None;
    }
    let newer = u64::read(bytes, at + 1);
    let older = u64::read(bytes, at + 9);
    let item = u16::read(bytes, at + 17);
    let price = u32::read(bytes, at + 19);
    let quantity = u32::read(bytes, at + 23);
    Some((
        Report::Trade {
            newer,
            older,
            item,
            price,
            quantity,
        },
        27,
    ))
}

fn read_torn(bytes: &[u8], at: usize) -> Option<(Report, usize)>
    requires { slice_index bytes.now at ≡ 3 }
    ensures { ReadReport bytes.now at result }
{
    if !reaches(bytes, at, 15) {
        return None;
    }
    let account = u16::read(bytes, at + 1);
    let other = u16::read(bytes, at + 3);
    let item = u16::read(bytes, at + 5);
    let held = i64::read(bytes, at + 7);
    Some((
        Report::Torn {
            account,
            other,
            item,
            held,
        },
        15,
    ))
}

// The report at `at`, and its length.
pub fn read_report(bytes: &[u8], at: usize) -> Option<(Report, usize)>
    ensures found { ReadReport bytes.now at result }
    ensures written { AsReported bytes.now at result }
{
    if at >= bytes.len() {
        return None;
    }
    read_kind(bytes, at)
}

// The report by the kind that stands at `at`.
fn read_kind(bytes: &[u8], at: usize) -> Option<(Report, usize)>
    requires { at < length bytes.now }
    ensures { ReadReport bytes.now at result }
{
    match ReportKind::try_from(bytes[at]).ok()? {
        ReportKind::Taken => read_taken(bytes, at),
        ReportKind::Refused => Some((Report::Refused, 1)),
        ReportKind::Trade => read_trade(bytes, at),
        ReportKind::Torn => read_torn(bytes, at),
    }
}
