// Values one behind the other as bytes.
ghost use Rattle.std.specs.List.{flat_map};

use crate::encode::Encode;
use std::alloc::AllocError;

// A slice as a value of its own: its items' bytes in turn.
#[derive(Drop)]
pub struct Row<'a, T>(pub &'a [T]);

// Where there is no memory for one, those before it are taken back.
impl<'a, T: Encode> Encode for Row<'a, T> {
    ghost bytes = { λ r. flat_map T.bytes r.0.now };

    fn write(&self, out: &mut Vec<u8>) -> Result<(), AllocError> {
        let start = out.len();
        for value in self.0 {
            if let Err(e) = value.write(out) {
                out.truncate(start);
                return Err(e);
            }
        }
        Ok(())
    }
}
