// Kinds of reports, each with its number in a byte.
ghost use Rattle.std.specs.Prelude.{◌≡◌, [], ◌∷◌};
ghost use Rattle.wire.specs.Kind.{report_kind_number, IsReportKindOf};

use crate::encode::Encode;
use crate::unknown::UnknownByte;
use std::alloc::AllocError;

#[derive(Clone, Copy, Debug, PartialEq, Eq)]
pub enum ReportKind {
    Taken,
    Refused,
    Trade,
    Torn,
}

impl From<ReportKind> for u8 {
    ghost from_gives = { λ kind byte. byte ≡ report_kind_number kind };

    fn from(kind: ReportKind) -> u8 {
        match kind {
            ReportKind::Taken => 0,
            ReportKind::Refused => 1,
            ReportKind::Trade => 2,
            ReportKind::Torn => 3,
        }
    }
}

impl TryFrom<u8> for ReportKind {
    type Error = UnknownByte;

    ghost try_from_gives = { IsReportKindOf };

    fn try_from(byte: u8) -> Result<ReportKind, UnknownByte> {
        match byte {
            0 => Ok(ReportKind::Taken),
            1 => Ok(ReportKind::Refused),
            2 => Ok(ReportKind::Trade),
            3 => Ok(ReportKind::Torn),
            _ => Err(UnknownByte(byte)),
        }
    }
}

impl Encode for ReportKind {
    ghost bytes = { λ kind. report_kind_number kind ∷ [] };

    fn write(&self, out: &mut Vec<u8>) -> Result<(), AllocError> {
        u8::from(*self).write(out)
    }
}
