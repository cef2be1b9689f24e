// Up to N values of one type, in room that lies in the value itself.
ghost use Rattle.std.specs.Prelude.{◌≡◌, ◌<◌, ◌≤◌, ◌↔◌, [], ◌∷◌, ◌++◌, length, ⊤, IsOk, IfOk, OnOk, OnErr, Some};
ghost use Rattle.std.specs.Cmp.{on_equiv, on_per};
ghost use Rattle.std.specs.Cmp.Lexicographic.{pointwise, lists_equiv, lists_per};

use std::alloc::AllocError;
use std::error::Error;
use std::fmt;

pub struct Few<T, const N: usize> {
    count: usize,
    // The first `count` are meant.
    room: [T; N],
    ghost few: { count ≤ N },
    ghost all: { length room ≡ N },
}

// By hand, since no derive goes over a ghost field of a generic struct.
impl<T: Copy, const N: usize> Clone for Few<T, N> {
    ghost is_clone = { λ f g. g ≡ f };

    ghost is_infallible = { λ _. ⊤ };

    fn clone(&self) -> Result<Few<T, N>, AllocError> {
        Ok(*self)
    }
}

impl<T: Copy, const N: usize> Copy for Few<T, N> {}

// There is no room for so many.
#[derive(Clone, Copy, Debug, PartialEq, Eq)]
pub struct NoRoom;

// By hand, since a derive would write no clause.
impl fmt::Display for NoRoom {
    ghost use Rattle.disc.specs.Texts.{no_room_text};

    ghost output = { λ _. Some no_room_text };

    fn fmt<W: fmt::Write>(&self, f: &mut fmt::Formatter<W>) -> fmt::Result {
        f.write_str("there is no room for so many")
    }
}

impl Error for NoRoom {}

impl<T, const N: usize> Few<T, N> {
    ghost use Rattle.disc.specs.Few.{few_items};

    pub fn len(&self) -> usize
        ensures value { result ≡ length (few_items self.now) }
        ensures bound { result ≤ N }
    {
        self.count
    }

    pub fn as_slice(&self) -> &[T]
        ensures { result.now ≡ few_items self.now }
    {
        &self.room[..self.count]
    }
}

impl<T: Copy, const N: usize> Few<T, N> {
    ghost use Rattle.disc.specs.Few.{few_items};

    pub fn new(fill: T) -> Self
        ensures { few_items result ≡ [] }
    {
        Few {
            count: 0,
            room: [fill; N],
        }
    }

    // The values of a row, if there is room for all.
    pub fn from_slice(fill: T, values: &[T]) -> Result<Self, NoRoom>
        ensures ok { IfOk result (λ few. few_items few ≡ values.now) }
        ensures room { IsOk result ↔ (length values.now ≤ N) }
    {
        let count = values.len();
        if count > N {
            return Err(NoRoom);
        }
        let mut room = [fill; N];
        room[..count].copy_from_slice(values);
        Ok(Few { count, room })
    }

    // A refusal changes nothing.
    pub fn push(&mut self, x: T) -> Result<(), NoRoom>
        ensures ok { OnOk result (few_items self.new ≡ few_items self.old ++ x ∷ []) }
        ensures err { OnErr result (few_items self.new ≡ few_items self.old) }
        ensures room { IsOk result ↔ (length (few_items self.old) < N) }
    {
        if self.count >= N {
            return Err(NoRoom);
        }
        self.room[self.count] = x;
        self.count += 1;
        Ok(())
    }
}

// Equal where the values that are meant are; a derive would compare the room behind them too.
impl<T: PartialEq, const N: usize> PartialEq for Few<T, N> {
    ghost use Rattle.disc.specs.Few.{few_items};

    ghost eq = { λ f g. pointwise T.eq (few_items f) (few_items g) };

    ghost laws = { on_per few_items (lists_per T.laws) };

    fn eq(&self, other: &Self) -> bool {
        self.as_slice() == other.as_slice()
    }
}

impl<T: Eq, const N: usize> Eq for Few<T, N> {
    ghost use Rattle.disc.specs.Few.{few_items};

    ghost laws = { on_equiv few_items (lists_equiv T.Eq.laws) };
}

// Shows the values that are meant, where a derive would show the room too.
impl<T: fmt::Debug, const N: usize> fmt::Debug for Few<T, N> {
    fn fmt<W: fmt::Write>(&self, f: &mut fmt::Formatter<W>) -> fmt::Result {
        f.debug_list().entries(self.as_slice()).finish()
    }
}
