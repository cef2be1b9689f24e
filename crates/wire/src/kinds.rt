// Which kinds of messages a market has.
ghost use Rattle.std.specs.Prelude.{◌≡◌, ℕ, ◌+◌, false, ◌&&◌, ◌||◌, ◌==◌};
ghost use Rattle.wire.specs.Kind.{kind_number};
ghost use Rattle.wire.specs.Means.{kinds_of, kind_there};

use crate::kind::Kind;

// The kinds that are built, by their numbers less 1. An array: a set of kinds would take memory that may be missing, and none of these methods can fail.
#[derive(Clone, Copy, Debug, PartialEq, Eq)]
pub struct Kinds {
    built: [bool; 6],
}

// A kind's place among the six.
fn place(kind: Kind) -> usize
    ensures { result + 1 ≡ kind_number kind }
{
    usize::from(u8::from(kind)) - 1
}

impl Kinds {
    // Every kind there is.
    pub fn all() -> Kinds
        ensures { (h : ℕ) → kinds_of result h ≡ kind_there h }
    {
        Kinds { built: [true; 6] }
    }

    pub fn none() -> Kinds
        ensures { (h : ℕ) → kinds_of result h ≡ false }
    {
        Kinds { built: [false; 6] }
    }

    // These kinds and one more.
    pub fn and(self, kind: Kind) -> Kinds
        ensures { (h : ℕ) → kinds_of result h ≡ (kinds_of self h || (h == kind_number kind)) }
    {
        let mut built = self.built;
        built[place(kind)] = true;
        Kinds { built }
    }

    pub fn contains(&self, kind: Kind) -> bool
        ensures { result ≡ kinds_of self.now (kind_number kind) }
    {
        self.built[place(kind)]
    }

    // `and` and `contains` for any number: a caller need not know that it is a kind's.
    // A number that is no kind's adds nothing.
    pub fn with(self, kind: u8) -> Kinds
        ensures { (h : ℕ) → kinds_of result h ≡ (kinds_of self h || (h == kind && kind_there h)) }
    {
        match Kind::try_from(kind) {
            Ok(kind) => self.and(kind),
            Err(_) => self,
        }
    }

    pub fn has(&self, kind: u8) -> bool
        ensures { result ≡ kinds_of self.now kind }
    {
        Kind::try_from(kind).is_ok_and(|kind| self.contains(kind))
    }
}
