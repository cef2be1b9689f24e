// Which way an order goes, with its number in a byte.
ghost use Rattle.std.specs.Prelude.{◌≡◌, [], ◌∷◌};
ghost use Rattle.wire.specs.Kind.{side_number, IsSideOf};

use crate::encode::Encode;
use crate::unknown::UnknownByte;
use std::alloc::AllocError;

#[derive(Clone, Copy, Debug, PartialEq, Eq)]
pub enum Side {
    Buy,
    Sell,
}

impl From<Side> for u8 {
    ghost from_gives = { λ side byte. byte ≡ side_number side };

    fn from(side: Side) -> u8 {
        match side {
            Side::Buy => 0,
            Side::Sell => 1,
        }
    }
}

impl TryFrom<u8> for Side {
    type Error = UnknownByte;

    ghost try_from_gives = { IsSideOf };

    fn try_from(byte: u8) -> Result<Side, UnknownByte> {
        match byte {
            0 => Ok(Side::Buy),
            1 => Ok(Side::Sell),
            _ => Err(UnknownByte(byte)),
        }
    }
}

impl Encode for Side {
    ghost bytes = { λ side. side_number side ∷ [] };

    fn write(&self, out: &mut Vec<u8>) -> Result<(), AllocError> {
        u8::from(*self).write(out)
    }
}
