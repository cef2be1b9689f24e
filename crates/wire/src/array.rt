// Numbers as arrays of their bytes, the low byte first: these need no memory, so nothing here can fail.
ghost use Rattle.std.specs.Prelude.{◌≡◌};

use crate::encode::Encode;

pub trait InArray<const N: usize>: Encode {
    // The bytes of a value.
    fn to_array(self) -> [u8; N]
        ensures { result ≡ Self.bytes self };
}

#[tactic(auto, unfolding(crate::specs::Number::two_of))]
impl InArray<2> for u16 {
    fn to_array(self) -> [u8; 2] {
        u16::to_le_bytes(self)
    }
}

#[tactic(auto, using(crate::proofs::Numbers::four_bytes))]
impl InArray<4> for u32 {
    fn to_array(self) -> [u8; 4] {
        u32::to_le_bytes(self)
    }
}

#[tactic(auto, using(crate::proofs::Numbers::eight_bytes))]
impl InArray<8> for u64 {
    fn to_array(self) -> [u8; 8] {
        u64::to_le_bytes(self)
    }
}
