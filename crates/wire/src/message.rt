// What the market can be told.
ghost use Rattle.std.specs.Prelude.{◌≡◌, ℕ, List};
ghost use Rattle.venue.specs.World as world;
ghost use Rattle.wire.specs.Kind.{kind_number};
ghost use Rattle.wire.specs.Means.{message_of};

use crate::kind::Kind;
use crate::side::Side;

#[derive(Clone, Copy, Debug, PartialEq, Eq)]
pub enum Message {
    PayIn {
        account: u16,
        amount: u64,
    },
    PayOut {
        account: u16,
        amount: u64,
    },
    Place {
        account: u16,
        item: u16,
        side: Side,
        price: u32,
        quantity: u32,
    },
    Cancel {
        account: u16,
        number: u64,
    },
    // `prices` is where its prices and bands start in the bytes that it was read from: a place and no slice (docs/DECISIONS.md, Forms).
    EndDay {
        prices: usize,
    },
    BeginDay,
}

impl Message {
    // Its kind, whatever bytes it was read from.
    #[tactic(auto, using(std::proofs::lemmas::Bool::Decides::nat_tests), unfolding(venue::specs::World::kind))]
    pub fn kind(&self) -> Kind
        ensures { (bs : List ℕ) (n : ℕ) → kind_number result ≡ world.kind (message_of bs n self.now) }
    {
        match self {
            Message::PayIn { .. } => Kind::PayIn,
            Message::PayOut { .. } => Kind::PayOut,
            Message::Place { .. } => Kind::Place,
            Message::Cancel { .. } => Kind::Cancel,
            Message::EndDay { .. } => Kind::EndDay,
            Message::BeginDay => Kind::BeginDay,
        }
    }
}
