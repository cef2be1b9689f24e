// Why bytes are not written.
ghost use Rattle.std.specs.Prelude.{◌≡◌, ◌≤◌, Some};
ghost use Rattle.wire.specs.Texts.{unwritten_text};
ghost use Rattle.wire.specs.Writing.{Wrote};
ghost use Rattle.wire.specs.declared.unwritten.Unwritten.TheVariants.{Memory};

use crate::encode::Encode;
use crate::fixed::{Fixed, write_whole};
use std::alloc::AllocError;
use std::error::Error;
use std::fmt;

#[derive(Clone, Copy, Debug, PartialEq, Eq)]
pub enum Unwritten {
    // There is no memory for them.
    Memory,
    // An end of day's prices do not lie in the bytes that it was read from.
    Prices,
    // There are more reports than four bytes can count.
    Many,
}

// By hand, here and for the other errors, since a derive would write no clause.
impl fmt::Display for Unwritten {
    ghost output = { λ e. Some (unwritten_text e) };

    fn fmt<W: fmt::Write>(&self, f: &mut fmt::Formatter<W>) -> fmt::Result {
        f.write_str(match self {
            Unwritten::Memory => "there is no memory for the bytes",
            Unwritten::Prices =>
                "the prices of an end of day are not in the bytes that it was read from",
            Unwritten::Many => "there are more reports than four bytes can count",
        })
    }
}

impl Error for Unwritten {}

impl From<AllocError> for Unwritten {
    ghost from_gives = { λ _ e. e ≡ Memory };

    fn from(_e: AllocError) -> Unwritten {
        Unwritten::Memory
    }
}

// A value's bytes behind those that are there.
pub(crate) fn put<T: Encode>(value: &T, out: &mut Vec<u8>) -> Result<(), Unwritten>
    ensures { Wrote out.old.items out.new.items (T.bytes value.now) result }
{
    Ok(value.write(out)?)
}

// The same of a value of 32 bytes at most, in one piece.
pub(crate) fn put_whole<T: Fixed>(value: &T, out: &mut Vec<u8>) -> Result<(), Unwritten>
    requires { T.size ≤ 32 }
    ensures { Wrote out.old.items out.new.items (T.bytes value.now) result }
{
    Ok(write_whole(value, out)?)
}
