// Values as bytes behind those that a Vec has: all of a value's bytes, or none.
ghost use Rattle.std.specs.Prelude.{◌≡◌, ℕ, List, [], ◌∷◌, ◌++◌, OnOk, OnErr};
ghost use Rattle.wire.specs.Number.{two_of, four_of, eight_of};
ghost use Rattle.wire.specs.Reports.{signed_of};

use crate::array::InArray;
use std::alloc::AllocError;

// One `impl` for each type, though some bodies are alike: one over all numbers, or over all that become a byte, would overlap the others.
pub trait Encode {
    // The bytes of a value.
    ghost bytes: { Self → List ℕ };

    // Puts them behind those of `out`; for want of memory `out` is as it was.
    fn write(&self, out: &mut Vec<u8>) -> Result<(), AllocError>
        ensures ok { OnOk result (out.new.items ≡ out.old.items ++ bytes self.now) }
        ensures err { OnErr result (out.new.items ≡ out.old.items) };
}

impl Encode for u8 {
    ghost bytes = { λ x. x ∷ [] };

    fn write(&self, out: &mut Vec<u8>) -> Result<(), AllocError> {
        out.extend_from_slice(&[*self])
    }
}

impl Encode for u16 {
    ghost bytes = { two_of };

    fn write(&self, out: &mut Vec<u8>) -> Result<(), AllocError> {
        out.extend_from_slice(&self.to_array())
    }
}

impl Encode for u32 {
    ghost bytes = { four_of };

    fn write(&self, out: &mut Vec<u8>) -> Result<(), AllocError> {
        out.extend_from_slice(&self.to_array())
    }
}

impl Encode for u64 {
    ghost bytes = { eight_of };

    fn write(&self, out: &mut Vec<u8>) -> Result<(), AllocError> {
        out.extend_from_slice(&self.to_array())
    }
}

#[tactic(auto, unfolding(crate::specs::Reports::signed_of))]
impl Encode for i64 {
    ghost bytes = { signed_of };

    fn write(&self, out: &mut Vec<u8>) -> Result<(), AllocError> {
        self.cast_unsigned().write(out)
    }
}

// Bytes as they lie.
impl<'a> Encode for &'a [u8] {
    ghost bytes = { λ s. s.now };

    fn write(&self, out: &mut Vec<u8>) -> Result<(), AllocError> {
        out.extend_from_slice(*self)
    }
}

// Where there is no memory for the second, the first is taken back. By hand: of `inspect_err`, whose closure would cut `out` back, the proof
// knows nothing (tried).
impl<A: Encode, B: Encode> Encode for (A, B) {
    ghost bytes = { λ p. A.bytes p.0 ++ B.bytes p.1 };

    fn write(&self, out: &mut Vec<u8>) -> Result<(), AllocError> {
        let start = out.len();
        self.0.write(out)?;
        let second = self.1.write(out);
        if second.is_err() {
            out.truncate(start);
        }
        second
    }
}
