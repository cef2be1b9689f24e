// Why a disc, a start or the bytes of a message are not taken.
ghost use Rattle.wire.specs.Means.{refusal_number, refusal_place};
ghost use Rattle.std.specs.Prelude.{◌≡◌};

#[derive(Clone, Copy, Debug, PartialEq, Eq)]
pub enum Refusal {
    // The disc's length is no multiple of a block's, or too small for what block 0 says.
    Length { bytes: usize },
    // The disc does not begin with the market's mark.
    NoMark,
    // A number of block 0 is out of range; `at` is its first byte.
    Range { at: usize },
    // The layout's version, the journal or the checkpoint is not as the layout says.
    Layout { block: usize },
    // The lent memory is too short; so many bytes would do.
    Memory { bytes: usize },
    // The bytes at `at` are no message.
    Message { at: usize },
}

impl Refusal {
    // The number that stands for it outside. A method: `number` and `place` are both integers, and `From` would name neither.
    pub fn number(&self) -> u8
        ensures { result ≡ refusal_number self.now }
    {
        match self {
            Refusal::Length { .. } => 1,
            Refusal::NoMark => 2,
            Refusal::Range { .. } => 3,
            Refusal::Layout { .. } => 4,
            Refusal::Memory { .. } => 5,
            Refusal::Message { .. } => 6,
        }
    }

    // The byte that it is about, or how many there are or should be; a block may begin past what a usize counts.
    // By `as`, since u128 has no `From<usize>`.
    pub fn place(&self) -> u128
        ensures { result ≡ refusal_place self.now }
    {
        match *self {
            Refusal::Length { bytes } => bytes as u128,
            Refusal::NoMark => 0,
            Refusal::Range { at } => at as u128,
            Refusal::Layout { block } => block as u128 * 512,
            Refusal::Memory { bytes } => bytes as u128,
            Refusal::Message { at } => at as u128,
        }
    }
}
