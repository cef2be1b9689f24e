// An item's price, and by how much trades and the next end of day may differ from it.
ghost use Rattle.wire.specs.Means.{item_bytes, item_in};

use crate::encode::Encode;
use crate::field::Field;
use crate::fixed::write_whole;
use std::alloc::AllocError;

#[derive(Clone, Copy, Debug, PartialEq, Eq)]
pub struct Item {
    pub price: u32,
    pub band: u32,
}

impl Encode for Item {
    ghost bytes = { item_bytes };

    fn write(&self, out: &mut Vec<u8>) -> Result<(), AllocError> {
        write_whole(&(self.price, self.band), out)
    }
}

impl Field for Item {
    ghost size = { 8 };

    ghost at = { item_in };

    fn read(bytes: &[u8], i: usize) -> Item {
        Item {
            price: u32::read(bytes, i),
            band: u32::read(bytes, i + 4),
        }
    }
}
