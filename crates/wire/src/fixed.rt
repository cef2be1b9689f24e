// Values of a fixed number of bytes, laid one behind the other in room on the stack: so a message or a report goes behind a Vec's bytes in one
// piece, as its room is tested once and not for each number.
ghost use Rattle.std.specs.Prelude.{◌≡◌, ℕ, ◌+◌, ◌≤◌, ◌++◌, length, take, OnOk, OnErr};

use crate::array::InArray;
use crate::encode::Encode;
use crate::kind::Kind;
use crate::report_kind::ReportKind;
use crate::side::Side;
use std::alloc::AllocError;

pub(crate) trait Fixed: Encode {
    // How many bytes each value has.
    ghost size: { ℕ };

    // Puts them behind the first `at` bytes of the room, and gives how many are meant then.
    fn lay(&self, room: &mut [u8], at: usize) -> usize
        requires { at + size ≤ length room.old }
        ensures count { result ≡ at + size }
        ensures laid { take result room.new ≡ take at room.old ++ Self.bytes self.now }
        ensures room { length room.new ≡ length room.old };
}

impl Fixed for u8 {
    ghost size = { 1 };

    fn lay(&self, room: &mut [u8], at: usize) -> usize {
        room[at] = *self;
        at + 1
    }
}

impl Fixed for u16 {
    ghost size = { 2 };

    fn lay(&self, room: &mut [u8], at: usize) -> usize {
        room[at..at + 2].copy_from_slice(&self.to_array());
        at + 2
    }
}

impl Fixed for u32 {
    ghost size = { 4 };

    fn lay(&self, room: &mut [u8], at: usize) -> usize {
        room[at..at + 4].copy_from_slice(&self.to_array());
        at + 4
    }
}

impl Fixed for u64 {
    ghost size = { 8 };

    fn lay(&self, room: &mut [u8], at: usize) -> usize {
        room[at..at + 8].copy_from_slice(&self.to_array());
        at + 8
    }
}

#[tactic(auto, unfolding(crate::specs::Reports::signed_of))]
impl Fixed for i64 {
    ghost size = { 8 };

    fn lay(&self, room: &mut [u8], at: usize) -> usize {
        self.cast_unsigned().lay(room, at)
    }
}

impl Fixed for Kind {
    ghost size = { 1 };

    fn lay(&self, room: &mut [u8], at: usize) -> usize {
        u8::from(*self).lay(room, at)
    }
}

impl Fixed for ReportKind {
    ghost size = { 1 };

    fn lay(&self, room: &mut [u8], at: usize) -> usize {
        u8::from(*self).lay(room, at)
    }
}

impl Fixed for Side {
    ghost size = { 1 };

    fn lay(&self, room: &mut [u8], at: usize) -> usize {
        u8::from(*self).lay(room, at)
    }
}

impl<A: Fixed, B: Fixed> Fixed for (A, B) {
    ghost size = { A.size + B.size };

    fn lay(&self, room: &mut [u8], at: usize) -> usize {
        let behind = self.0.lay(room, at);
        self.1.lay(room, behind)
    }
}

// The bytes of a value that has 32 at most, behind those of `out`; for want of memory `out` is as it was.
pub(crate) fn write_whole<T: Fixed>(value: &T, out: &mut Vec<u8>) -> Result<(), AllocError>
    requires { T.size ≤ 32 }
    ensures ok { OnOk result (out.new.items ≡ out.old.items ++ T.bytes value.now) }
    ensures err { OnErr result (out.new.items ≡ out.old.items) }
{
    let mut room = [0; 32];
    let count = value.lay(&mut room, 0);
    out.extend_from_slice(&room[..count])
}
