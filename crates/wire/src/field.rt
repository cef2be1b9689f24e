// Values at a place in bytes, of so many bytes each. The place goes beside the bytes: a reader has it in the whole file.
ghost use Rattle.std.specs.Prelude.{◌≡◌, ℕ, List, ◌+◌, ◌≤◌, length};
ghost use Rattle.wire.specs.Number.{two, four, eight};
ghost use Rattle.wire.specs.Reports.{signed};

pub trait Field: Copy {
    // How many bytes a value has.
    ghost size: { ℕ };

    // The value that the bytes hold from a place on.
    ghost at: { List ℕ → ℕ → Self };

    // The value at place `i`.
    fn read(bytes: &[u8], i: usize) -> Self
        requires { i + size ≤ length bytes.now }
        ensures { result ≡ at bytes.now i };
}

impl Field for u16 {
    ghost size = { 2 };

    ghost at = { two };

    fn read(bytes: &[u8], i: usize) -> u16 {
        u16::from_le_bytes([bytes[i], bytes[i + 1]])
    }
}

// A number of four or eight bytes by its halves, as the definitions have it.
impl Field for u32 {
    ghost size = { 4 };

    ghost at = { four };

    fn read(bytes: &[u8], i: usize) -> u32 {
        u32::from(u16::read(bytes, i)) + u32::from(u16::read(bytes, i + 2)) * 65536
    }
}

impl Field for u64 {
    ghost size = { 8 };

    ghost at = { eight };

    fn read(bytes: &[u8], i: usize) -> u64 {
        u64::from(u32::read(bytes, i)) + u64::from(u32::read(bytes, i + 4)) * 4294967296
    }
}

impl Field for i64 {
    ghost size = { 8 };

    ghost at = { signed };

    fn read(bytes: &[u8], i: usize) -> i64 {
        u64::read(bytes, i).cast_signed()
    }
}
