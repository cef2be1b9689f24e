// Writing reports behind other bytes.
ghost use Rattle.std.specs.Prelude.{◌^◌, map, length, nat_lt};
ghost use Rattle.wire.specs.Means.{report_of};
ghost use Rattle.wire.specs.Reports.{report_bytes, reports_bytes};
ghost use Rattle.wire.specs.Writing.{Wrote, WroteIf};

use crate::encode::Encode;
use crate::fixed::write_whole;
use crate::report::Report;
use crate::report_kind::ReportKind;
use crate::row::Row;
use crate::unwritten::{Unwritten, put};
use std::alloc::AllocError;

#[tactic(auto, unfolding(crate::specs::Reports::report_bytes))]
impl Encode for Report {
    ghost bytes = { λ report. report_bytes (report_of report) };

    fn write(&self, out: &mut Vec<u8>) -> Result<(), AllocError> {
        match *self {
            Report::Taken { number } => write_whole(&(ReportKind::Taken, number), out),
            Report::Refused => write_whole(&ReportKind::Refused, out),
            Report::Trade {
                newer,
                older,
                item,
                price,
                quantity,
            } => {
                let traded = (item, (price, quantity));
                write_whole(&(ReportKind::Trade, (newer, (older, traded))), out)
            }
            Report::Torn {
                account,
                other,
                item,
                held,
            } => write_whole(&(ReportKind::Torn, (account, (other, (item, held)))), out),
        }
    }
}

pub fn write_report(report: &Report, out: &mut Vec<u8>) -> Result<(), Unwritten>
    ensures { Wrote out.old.items out.new.items (report_bytes (report_of report.now)) result }
{
    put(report, out)
}

// A message's reports together: their number, then each.
#[tactic(auto, using(crate::proofs::Rows::all_reports, std::proofs::lemmas::Bool::Decides::nat_tests), unfolding(crate::specs::Reports::reports_bytes))]
pub fn write_reports(reports: &[Report], out: &mut Vec<u8>) -> Result<(), Unwritten>
    ensures { WroteIf (nat_lt (length reports.now) (2 ^ 32)) Unwritten.Many
        out.old.items out.new.items
        (reports_bytes (map report_of reports.now)) result }
{
    let count = u32::try_from(reports.len()).map_err(|_| Unwritten::Many)?;
    put(&(count, Row(reports)), out)
}
