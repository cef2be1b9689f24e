// A byte that stands for nothing.
ghost use Rattle.std.specs.Prelude.{Some};
ghost use Rattle.wire.specs.Texts.{unknown_text};

use std::error::Error;
use std::fmt;

// The number of no kind, or of no side.
#[derive(Clone, Copy, Debug, PartialEq, Eq)]
pub struct UnknownByte(pub u8);

// By hand, since a derive would write no clause.
impl fmt::Display for UnknownByte {
    ghost output = { λ b. Some (unknown_text b) };

    fn fmt<W: fmt::Write>(&self, f: &mut fmt::Formatter<W>) -> fmt::Result {
        write!(f, "the byte {} stands for nothing here", self.0)
    }
}

impl Error for UnknownByte {}
