// Kinds of messages, each with its number in a byte.
ghost use Rattle.std.specs.Prelude.{◌≡◌, [], ◌∷◌};
ghost use Rattle.wire.specs.Kind.{kind_number, IsKindOf};

use crate::encode::Encode;
use crate::unknown::UnknownByte;
use std::alloc::AllocError;

#[derive(Clone, Copy, Debug, PartialEq, Eq)]
pub enum Kind {
    PayIn,
    PayOut,
    Place,
    Cancel,
    EndDay,
    BeginDay,
}

impl From<Kind> for u8 {
    ghost from_gives = { λ kind byte. byte ≡ kind_number kind };

    fn from(kind: Kind) -> u8 {
        match kind {
            Kind::PayIn => 1,
            Kind::PayOut => 2,
            Kind::Place => 3,
            Kind::Cancel => 4,
            Kind::EndDay => 5,
            Kind::BeginDay => 6,
        }
    }
}

impl TryFrom<u8> for Kind {
    type Error = UnknownByte;

    ghost try_from_gives = { IsKindOf };

    fn try_from(byte: u8) -> Result<Kind, UnknownByte> {
        match byte {
            1 => Ok(Kind::PayIn),
            2 => Ok(Kind::PayOut),
            3 => Ok(Kind::Place),
            4 => Ok(Kind::Cancel),
            5 => Ok(Kind::EndDay),
            6 => Ok(Kind::BeginDay),
            _ => Err(UnknownByte(byte)),
        }
    }
}

impl Encode for Kind {
    ghost bytes = { λ kind. kind_number kind ∷ [] };

    fn write(&self, out: &mut Vec<u8>) -> Result<(), AllocError> {
        u8::from(*self).write(out)
    }
}
