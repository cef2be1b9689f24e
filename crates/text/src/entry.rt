// What one line of a setup file says.
ghost use Rattle.std.specs.Prelude.{◌≡◌};
ghost use Rattle.text.specs.Entries.{word_of};

use wire::Item;

// The first word of a line.
#[derive(Clone, Copy, Debug, PartialEq, Eq)]
pub enum Word {
    Blank,
    Accounts,
    Orders,
    Money,
    Journal,
    Item,
    Unknown,
}

impl From<&[u8]> for Word {
    ghost from_gives = { λ b w. w ≡ word_of b.now };

    #[tactic(auto, unfolding(crate::specs::Entries::word_of))]
    fn from(word: &[u8]) -> Word {
        match word {
            b"" => Word::Blank,
            b"accounts" => Word::Accounts,
            b"orders" => Word::Orders,
            b"money" => Word::Money,
            b"journal" => Word::Journal,
            b"item" => Word::Item,
            _ => Word::Unknown,
        }
    }
}

#[derive(Clone, Copy, Debug, PartialEq, Eq)]
pub enum Entry {
    // A blank line, or a comment.
    Nothing,
    Accounts(u64),
    Orders(u64),
    Money(u64),
    Journal(u64),
    Item(Item),
}
